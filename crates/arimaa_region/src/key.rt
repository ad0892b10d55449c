//! What a stack needs of its values.
ghost use Rattle.std.specs.Prelude.{◌≡◌, ℕ, Bool};
ghost use Rattle.std.specs.Bool.{Decides};
ghost use Rattle.std.specs.Hash.FoldHasher.{folded_multiply};
ghost use Rattle.arimaa_region.specs.Hash.{side_number, five_hash, position_hash, words_hash};
ghost use Rattle.arimaa_region.specs.Same.{same_position, same_position-Decides, same_words, same_words-Decides};

use arimaa_board::{Color, Position};

/// A value that is found among others by its hash.
pub(crate) trait Key: Copy {
    ghost same: { Self → Self → Bool };

    ghost hash_of: { Self → ℕ };

    /// Whether two values are the same.
    fn is_same(&self, other: &Self) -> bool
        ensures { result ≡ same self.now other.now };

    /// The hash of a value.
    fn hash_number(&self) -> u64
        ensures { result ≡ hash_of self.now };

    ghost decides: { (x y : Self) → Decides (same x y) (x ≡ y) };
}

fn side_number(side: Color) -> u8
    ensures { result ≡ side_number side }
{
    match side {
        Color::Gold => 0,
        Color::Silver => 1,
    }
}

// The two halves of the 128 bits of a product, joined by xor.
#[tactic(auto, unfolding(std::specs::Hash::FoldHasher::folded_multiply))]
fn folded_multiply(a: u64, b: u64) -> u64
    ensures { result ≡ folded_multiply a b }
{
    let product = a as u128 * b as u128;
    (product & 0xffff_ffff_ffff_ffff) as u64 ^ (product >> 64) as u64
}

// The hash of five numbers. The first two products don't wait for each other.
#[tactic(auto, unfolding(crate::specs::Hash::five_hash))]
fn five_hash(a: u64, b: u64, c: u64, d: u64, e: u64) -> u64
    ensures { result ≡ five_hash a b c d e }
{
    let left = folded_multiply(a ^ 0xa076_1d64_78bd_642f, b ^ 0xe703_7ed1_a0b4_28db);
    let right = folded_multiply(c ^ 0x8ebc_6af0_9c88_c6e3, d ^ 0x5899_65cc_7537_4cc3);
    folded_multiply(left ^ e, right ^ 0xeb44_acca_b455_d165)
}

#[tactic(auto, unfolding(crate::specs::Hash::position_hash))]
fn position_hash(position: &Position) -> u64
    ensures { result ≡ position_hash position.now }
{
    let planes = position.board.planes();
    let side = side_number(position.side) as u64;
    five_hash(planes[0], planes[1], planes[2], planes[3], side)
}

#[tactic(auto, unfolding(crate::specs::Hash::words_hash))]
fn words_hash(words: &[u64; 5]) -> u64
    ensures { result ≡ words_hash words.now }
{
    five_hash(words[0], words[1], words[2], words[3], words[4])
}

// Positions are told apart by the planes of their boards and the side to move.
impl Key for Position {
    ghost same = { same_position };

    ghost hash_of = { position_hash };

    fn is_same(&self, other: &Self) -> bool {
        self.board == other.board && self.side == other.side
    }

    fn hash_number(&self) -> u64 {
        position_hash(self)
    }

    ghost decides = { same_position-Decides };
}

impl Key for [u64; 5] {
    ghost same = { same_words };

    ghost hash_of = { words_hash };

    fn is_same(&self, other: &Self) -> bool {
        self == other
    }

    fn hash_number(&self) -> u64 {
        words_hash(self)
    }

    ghost decides = { same_words-Decides };
}
