//! Numbers and lengths of time.
ghost use Rattle.std.specs.Prelude.{◌≡◌, ◌==◌, ◌<◌, ◌≤◌, ◌^◌, ◌*◌, ◌+◌, ℕ, length, Some, None, IfSome, MatchOption};
ghost use Rattle.std.specs.List.{list_all, position};
ghost use Rattle.std.specs.Char.{is_ascii_digit};
ghost use Rattle.std.specs.Str.Parse.{AllDigits, digits_value};
ghost use Rattle.arimaa_time.specs.Reading.{cut_of, number_of, part_of, parts_of, clock_of, span_of, marked_of};

use crate::units::TimeUnit;

// The first place of a byte.
fn place_of(text: &[u8], byte: u8) -> Option<usize>
    ensures { result ≡ position (λ b. b == byte) text.now }
{
    text.iter().position(|b| *b == byte)
}

/// The texts before and after the first such byte.
#[tactic(auto, unfolding(crate::specs::Reading::cut_of))]
pub fn split_once(text: &[u8], byte: u8) -> Option<(&[u8], &[u8])>
    ensures { MatchOption result (cut_of byte text.now ≡ None)
        (λ halves. cut_of byte text.now ≡ Some (halves.0.now, halves.1.now)) }
{
    let place = place_of(text, byte)?;
    Some((&text[..place], &text[place + 1..]))
}

// Whether each byte is a digit.
fn all_digits(text: &[u8]) -> bool
    ensures { result ≡ list_all is_ascii_digit text.now }
{
    text.iter().all(|b| b.is_ascii_digit())
}

// The value of one to six digits.
fn value(digits: &[u8]) -> u32
    requires digits { AllDigits 10 digits.now }
    requires short { length digits.now ≤ 6 }
    ensures value { result ≡ digits_value 10 digits.now }
    ensures small { result < 10 ^ 6 }
{
    let mut n = 0;
    for digit in digits {
        n = n * 10 + u32::from(*digit - b'0');
    }
    n
}

/// A number of one to six digits. Zeros may stand in front.
#[tactic(auto, unfolding(crate::specs::Reading::number_of, crate::specs::Reading::is_number))]
pub fn number(text: &[u8]) -> Option<u32>
    ensures value { result ≡ number_of text.now }
    ensures small { IfSome result (λ n. n < 10 ^ 6) }
{
    if !text.is_empty() && text.len() <= 6 && all_digits(text) {
        Some(value(text))
    } else {
        None
    }
}

/// A number and this letter, and no more.
#[tactic(auto, unfolding(crate::specs::Reading::marked_of))]
pub fn marked(text: &[u8], letter: u8) -> Option<u32>
    ensures { result ≡ marked_of letter text.now }
{
    let (digits, rest) = split_once(text, letter)?;
    if rest.is_empty() {
        number(digits)
    } else {
        None
    }
}

// The number of this unit that the text begins with, and the text behind it; 0 and the whole text
// where it begins otherwise.
#[tactic(auto, unfolding(crate::specs::Reading::part_of))]
fn part(text: &[u8], letter: u8) -> (u32, &[u8])
    ensures value { (result.0, result.1.now) ≡ part_of letter text.now }
    ensures small { result.0 < 10 ^ 6 }
{
    match split_once(text, letter) {
        None => (0, text),
        Some((digits, rest)) => match number(digits) {
            None => (0, text),
            Some(n) => (n, rest),
        },
    }
}

// The milliseconds of parts in these units, each at most once and in their order.
fn parts(text: &[u8], units: &[TimeUnit]) -> Option<u64>
    requires { length units.now ≤ 4 }
    ensures value { result ≡ parts_of units.now text.now }
    ensures small { IfSome result (λ ms. ms ≤ length units.now * 10 ^ 14) }
{
    match units {
        [] => text.is_empty().then_some(0),
        [unit, others @ ..] => {
            let (count, rest) = part(text, unit.letter());
            let more = parts(rest, others)?;
            Some(u64::from(count) * unit.milliseconds() + more)
        }
    }
}

// The sixtieths that a clock's reading such as `12:30` counts.
#[tactic(auto, unfolding(crate::specs::Reading::clock_of))]
fn clock(text: &[u8]) -> Option<u32>
    ensures value { result ≡ clock_of text.now }
    ensures small { IfSome result (λ n. n < 60 * 10 ^ 6 + 60) }
{
    let (whole_text, part_text) = split_once(text, b':')?;
    let whole = number(whole_text)?;
    let part = number(part_text)?;
    (part_text.len() == 2 && part < 60).then_some(60 * whole + part)
}

/// A length of time in milliseconds: a bare number, a clock's reading, or one part or more in these
/// units. A bare number counts sixty times `sixtieth`.
#[tactic(auto, unfolding(crate::specs::Reading::span_of))]
pub fn span(text: &[u8], sixtieth: u64, units: &[TimeUnit]) -> Option<u64>
    requires fine { sixtieth ≤ 60000 }
    requires few { length units.now ≤ 4 }
    ensures { result ≡ span_of sixtieth units.now text.now }
{
    if let Some(n) = number(text) {
        return Some(u64::from(n) * (60 * sixtieth));
    }
    if let Some(n) = clock(text) {
        return Some(u64::from(n) * sixtieth);
    }
    if text.is_empty() {
        None
    } else {
        parts(text, units)
    }
}
