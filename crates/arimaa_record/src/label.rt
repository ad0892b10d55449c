//! Labels of the lines of a record.
ghost use Rattle.std.specs.Prelude.{◌≡◌, ◌≤◌, ◌↔◌, ℕ, Some, false};
ghost use Rattle.std.specs.Fmt.{decimal};
ghost use Rattle.arimaa_board.specs.declared.piece.Color.{Color as Side};
ghost use Rattle.arimaa_record.specs.Label.{side_of_letter, label_of, next_label, previous_label, is_last_label, IsLabel};
ghost use Rattle.arimaa_record.specs.declared.label.Label.{Label as Due};

use arimaa_board::Color;
use arimaa_notation::read_number;

/// The greatest number of a label.
pub const MOST_LABEL: u32 = 999_999_999;

/// The label of a line of a record: the number of the turn, from 1 to `MOST_LABEL`, and its side.
#[derive(Clone, Copy, Debug, PartialEq, Eq)]
pub struct Label {
    /// Counted from 1, the setups being number 1; both sides have a turn of each number.
    pub number: u32,
    /// The side that sets up, moves, or closes the game on this line.
    pub side: Color,
}

impl Label {
    /// The label of this number and side.
    pub fn new(number: u32, side: Color) -> Label
        ensures { result ≡ label_of number side }
    {
        Label { number, side }
    }

    /// Whether it is the last label of all, that of `MOST_LABEL` with s.
    pub fn is_last(self) -> bool
        ensures { result ≡ is_last_label self }
    {
        match self.side {
            Color::Gold => false,
            Color::Silver => self.number >= MOST_LABEL,
        }
    }

    /// The label of the setup or turn after which this one is due: before Ns comes Ng, and before
    /// Ng comes N - 1 with s. Where the last label is due, its own turn may also have come before.
    pub fn previous(self) -> Label
        ensures value { result ≡ previous_label self }
        ensures back { (label : Due) → is_last_label label ≡ false → self ≡ next_label label
            → result ≡ label }
    {
        match self.side {
            Color::Gold => Label::new(self.number.saturating_sub(1), Color::Silver),
            Color::Silver => Label::new(self.number, Color::Gold),
        }
    }

    /// The label that is due after the setup or turn of this one: after Ng comes Ns, and after Ns
    /// comes N + 1 with g. After the last label, that of `MOST_LABEL` with s, it is this one again.
    pub fn next(self) -> Label
        ensures { result ≡ next_label self }
    {
        match self.side {
            Color::Gold => Label::new(self.number, Color::Silver),
            Color::Silver => after_silver(self.number),
        }
    }
}

// The label after one of this number with s.
fn after_silver(number: u32) -> Label
    ensures { result ≡ next_label (label_of number Side.Silver) }
{
    if number < MOST_LABEL {
        Label::new(number + 1, Color::Gold)
    } else {
        Label::new(number, Color::Silver)
    }
}

// The side of a label's letter: `g` or `w` for Gold, `s` or `b` for Silver.
fn side_of_letter(letter: u8) -> Option<Color>
    ensures { result ≡ side_of_letter letter }
{
    match letter {
        b'g' | b'w' => Some(Color::Gold),
        b's' | b'b' => Some(Color::Silver),
        _ => None,
    }
}

/// The label that the bytes write: a number from 1 to `MOST_LABEL` in decimal digits, and directly
/// after it a side letter, `g` or `w` for Gold, `s` or `b` for Silver.
pub fn read_label(bytes: &[u8]) -> Option<Label>
    ensures { (label : Due) → (result ≡ Some label) ↔ IsLabel bytes.now label }
{
    let (letter, digits) = bytes.split_last()?;
    let side = side_of_letter(*letter)?;
    let number = label_number(digits)?;
    Some(Label { number, side })
}

// The number of a label.
fn label_number(digits: &[u8]) -> Option<u32>
    ensures { (n : ℕ)
        → (result ≡ Some n) ↔ ((1 ≤ n) × (n ≤ MOST_LABEL) × (digits.now ≡ decimal n)) }
{
    match read_number(digits) {
        None => None,
        Some(number) => {
            if 1 <= number && number <= MOST_LABEL as u64 {
                Some(number as u32)
            } else {
                None
            }
        }
    }
}
