//! The writer of a time control's text.
ghost use Rattle.std.specs.Prelude.{◌≡◌, ◌+◌, ◌<◌, ◌≤◌, [], ◌∷◌, ◌++◌, length};
ghost use Rattle.std.specs.Fmt.{decimal};
ghost use Rattle.arrayvec.specs.ArrayString.{array_string_len};
ghost use Rattle.arimaa_time.specs.Fields.{IsControl};
ghost use Rattle.arimaa_time.specs.Writing.{two_digits, clock_text, game_text, text_of, IsWholeControl};

use crate::control::{Control, GameLimit};
use arrayvec::ArrayString;

/// The bytes of the longest text: four times of 18, a percentage of 3, a game limit of 16, and five
/// slashes.
const ROOM: usize = 96;

// Writes a digit.
fn push_digit(text: &mut ArrayString<ROOM>, digit: u64)
    requires digit { digit < 10 }
    requires room { array_string_len text.old < 96 }
    ensures { text.new.bytes ≡ text.old.bytes ++ (48 + digit) ∷ [] }
{
    text.push(char::from(b'0' + digit as u8));
}

// Writes a number without leading zeros.
fn push_number(text: &mut ArrayString<ROOM>, n: u64)
    requires { array_string_len text.old + length (decimal n) ≤ 96 }
    ensures { text.new.bytes ≡ text.old.bytes ++ decimal n }
{
    if n < 10 {
        push_digit(text, n);
    } else {
        push_number(text, n / 10);
        push_digit(text, n % 10);
    }
}

// Writes a time as on a clock, by the milliseconds of a sixtieth of its large unit.
#[tactic(auto, unfolding(crate::specs::Writing::clock_text))]
fn push_clock(text: &mut ArrayString<ROOM>, sixtieth: u64, milliseconds: u64)
    requires some { 0 < sixtieth }
    requires room { array_string_len text.old + length (clock_text sixtieth milliseconds) ≤ 96 }
    ensures { text.new.bytes ≡ text.old.bytes ++ clock_text sixtieth milliseconds }
{
    let sixtieths = milliseconds / sixtieth;
    push_number(text, sixtieths / 60);
    text.push_str(":");
    push_digit(text, sixtieths % 60 / 10);
    push_digit(text, sixtieths % 60 % 10);
}

// Writes a time in minutes and seconds.
fn push_time(text: &mut ArrayString<ROOM>, milliseconds: u64)
    requires { array_string_len text.old ≤ 78 }
    ensures bytes { text.new.bytes ≡ text.old.bytes ++ clock_text 1000 milliseconds }
    ensures len { array_string_len text.new ≤ array_string_len text.old + 18 }
{
    push_clock(text, 1000, milliseconds);
}

// Writes a percentage.
fn push_percent(text: &mut ArrayString<ROOM>, percent: u8)
    requires { array_string_len text.old ≤ 93 }
    ensures bytes { text.new.bytes ≡ text.old.bytes ++ decimal percent }
    ensures len { array_string_len text.new ≤ array_string_len text.old + 3 }
{
    push_number(text, u64::from(percent));
}

// Writes a time in hours and minutes.
fn push_hours(text: &mut ArrayString<ROOM>, milliseconds: u64)
    requires { array_string_len text.old ≤ 80 }
    ensures bytes { text.new.bytes ≡ text.old.bytes ++ clock_text 60000 milliseconds }
    ensures len { array_string_len text.new ≤ array_string_len text.old + 16 }
{
    push_clock(text, 60_000, milliseconds);
}

// Writes a number of turns.
fn push_turns(text: &mut ArrayString<ROOM>, turns: u32)
    requires { array_string_len text.old ≤ 80 }
    ensures bytes { text.new.bytes ≡ text.old.bytes ++ (decimal turns ++ 116 ∷ []) }
    ensures len { array_string_len text.new ≤ array_string_len text.old + 11 }
{
    push_number(text, u64::from(turns));
    text.push_str("t");
}

// Writes a game limit.
#[tactic(auto, unfolding(crate::specs::Writing::game_text))]
fn push_game(text: &mut ArrayString<ROOM>, game: GameLimit)
    requires { array_string_len text.old ≤ 80 }
    ensures bytes { text.new.bytes ≡ text.old.bytes ++ game_text game }
    ensures len { array_string_len text.new ≤ array_string_len text.old + 16 }
{
    match game {
        GameLimit::None => push_hours(text, 0),
        GameLimit::Time(milliseconds) => push_hours(text, milliseconds),
        GameLimit::Turns(turns) => push_turns(text, turns),
    }
}

/// The text of a time control, in all six fields.
///
/// The times are written in minutes and seconds, the game limit in hours and minutes or in turns.
/// What is left below a second, and in the game limit below a minute, is dropped. Where nothing is
/// dropped, no number has more than six digits and the percentage is at most 100, the text is read
/// back as the same control.
pub fn control_text(control: &Control) -> ArrayString<96>
    ensures text { result.bytes ≡ text_of control.now }
    ensures read_back { IsWholeControl control.now → IsControl result.bytes control.now }
{
    let mut text = ArrayString::new();
    push_time(&mut text, control.turn);
    text.push_str("/");
    push_time(&mut text, control.reserve);
    text.push_str("/");
    push_percent(&mut text, control.percent);
    text.push_str("/");
    push_time(&mut text, control.cap);
    text.push_str("/");
    push_game(&mut text, control.game);
    text.push_str("/");
    push_time(&mut text, control.limit);
    text
}
