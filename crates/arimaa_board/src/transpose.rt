//! Four words of bits as a matrix, transposed.
ghost use Rattle.std.specs.Prelude.{◌≡◌, ◌<◌, ◌+◌, ◌-◌, ◌*◌, ◌/◌, ◌%◌, ◌^◌, ℕ, length, slice_index};
ghost use Rattle.std.specs.Int.{bit_at};
ghost use Rattle.arimaa_board.specs.Transpose.{bit_in, with_bits_exchanged, swap_source};

// Two words in which the bits of the mask in the high word have changed places with those `shift`
// places further up in the low word.
fn swapped(pair: [u64; 2], shift: u8, mask: u64) -> [u64; 2]
    requires shift { shift < 64 }
    requires mask { mask < 2 ^ (64 - shift) }
    ensures small { (k : ℕ) → k < 2 → slice_index result k < 2 ^ 64 }
    ensures bits { (n : ℕ) → n < 128 → bit_in result n ≡ bit_in pair (swap_source shift mask n) }
{
    let [low, high] = pair;
    let turned = ((low >> shift) ^ high) & mask;
    [low ^ (turned << shift), high ^ turned]
}

// Two neighbouring planes: the number of the plane goes to bit 0 of the place, bit 0 to bit 2, bit
// 2 to bit 4, and bit 4 is the number of the word.
fn near(pair: [u64; 2]) -> [u64; 2]
    ensures small { (k : ℕ) → k < 2 → slice_index result k < 2 ^ 64 }
    ensures bits { (n : ℕ) → n < 128
        → bit_in result n ≡ bit_in pair
        (with_bits_exchanged 6 0 (with_bits_exchanged 6 2 (with_bits_exchanged 6 4 n))) }
{
    let ones = swapped(pair, 1, 0x5555_5555_5555_5555);
    let fours = swapped(ones, 4, 0x0f0f_0f0f_0f0f_0f0f);
    swapped(fours, 16, 0x0000_ffff_0000_ffff)
}

// Two planes that lie two apart: the same with bits 1, 3 and 5 of the place.
fn far(pair: [u64; 2]) -> [u64; 2]
    ensures small { (k : ℕ) → k < 2 → slice_index result k < 2 ^ 64 }
    ensures bits { (n : ℕ) → n < 128
        → bit_in result n ≡ bit_in pair
        (with_bits_exchanged 6 1 (with_bits_exchanged 6 3 (with_bits_exchanged 6 5 n))) }
{
    let twos = swapped(pair, 2, 0x3333_3333_3333_3333);
    let eights = swapped(twos, 8, 0x00ff_00ff_00ff_00ff);
    swapped(eights, 32, 0x0000_0000_ffff_ffff)
}

/// The planes as words of four-bit codes: bit n of plane k becomes bit k of code n, and word j has
/// the codes from 16 j on.
pub(crate) fn transposed(planes: [u64; 4]) -> [u64; 4]
    ensures size { length result ≡ 4 }
    ensures small { (k : ℕ) → k < 4 → slice_index result k < 2 ^ 64 }
    ensures bits { (k i : ℕ) → k < 4 → i < 64
        → bit_at (slice_index result k) i
        ≡ bit_at (slice_index planes (i % 4)) (16 * k + i / 4) }
{
    let [a, b, c, s] = planes;
    let [first, second] = near([a, b]);
    let [third, fourth] = near([c, s]);
    let [word_0, word_2] = far([first, third]);
    let [word_1, word_3] = far([second, fourth]);
    [word_0, word_1, word_2, word_3]
}
