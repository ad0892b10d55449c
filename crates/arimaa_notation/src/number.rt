//! Numbers as they are written in words and records.
ghost use Rattle.std.specs.Prelude.{◌≡◌, ◌≢◌, ◌^◌, ◌<◌, ◌↔◌, ℕ, Some, IsTrue, slice_index, length};
ghost use Rattle.std.specs.Fmt.{decimal};
ghost use Rattle.arimaa_notation.specs.Number.{HasPlainStart};
ghost use Rattle.arimaa_notation.specs.Readers.{number_of_text};

use std::str::from_utf8;

/// The number that the bytes write in decimal digits, up to 2^64 - 1: no sign, and no zero before
/// other digits. None exactly where they are no such text.
pub fn read_number(bytes: &[u8]) -> Option<u64>
    ensures number { (n : ℕ) → (result ≡ Some n) ↔ ((n < 2 ^ 64) × (bytes.now ≡ decimal n)) }
    ensures value { result ≡ number_of_text bytes.now }
{
    if !has_plain_start(bytes) {
        return None;
    }
    match from_utf8(bytes) {
        Ok(text) => match text.parse::<u64>() {
            Ok(number) => Some(number),
            Err(_) => None,
        },
        Err(_) => None,
    }
}

// Whether the first byte is no sign, nor a zero before others.
fn has_plain_start(bytes: &[u8]) -> bool
    ensures { IsTrue result ↔ HasPlainStart bytes.now }
{
    match bytes {
        [] => false,
        [first] => *first != b'+',
        [first, ..] => *first != b'+' && *first != b'0',
    }
}
