//! The reader of a time control's text.
ghost use Rattle.std.specs.Prelude.{◌≡◌, ◌≤◌, ◌<◌, ◌^◌, ℕ, Ok, IfOk, IfErr, IfSome, option_copied};
ghost use Rattle.arimaa_time.specs.declared.control.Control.{Control as TimeControl};
ghost use Rattle.arimaa_time.specs.Fields.{fields, IsControl, NamesFirstBad};
ghost use Rattle.arimaa_time.specs.Grammar.{turns_limit, time_limit};
ghost use Rattle.arimaa_time.specs.Reading.{time_of, percent_of, game_of, field_of, control_of};

use crate::control::{Control, GameLimit};
use crate::fault::ControlFault;
use crate::fields::Fields;
use crate::spans::{marked, number, span};
use crate::units::{GAME_UNITS, TIME_UNITS};

// A time in milliseconds. A bare number counts minutes.
fn time(text: &[u8]) -> Option<u64>
    ensures { result ≡ time_of text.now }
{
    span(text, 1000, &TIME_UNITS)
}

// A percentage.
#[tactic(auto, unfolding(crate::specs::Reading::percent_of))]
fn percent(text: &[u8]) -> Option<u8>
    ensures { result ≡ percent_of text.now }
{
    let n = number(text)?;
    if n <= 100 { Some(n as u8) } else { None }
}

// The limit of so many turns.
fn turns_limit(turns: u32) -> GameLimit
    ensures { result ≡ turns_limit turns }
{
    if turns == 0 {
        GameLimit::None
    } else {
        GameLimit::Turns(turns)
    }
}

// The limit of so many milliseconds.
fn time_limit(milliseconds: u64) -> GameLimit
    ensures { result ≡ time_limit milliseconds }
{
    if milliseconds == 0 {
        GameLimit::None
    } else {
        GameLimit::Time(milliseconds)
    }
}

// A game limit. A bare number counts hours.
#[tactic(auto, unfolding(crate::specs::Reading::game_of))]
fn game(text: &[u8]) -> Option<GameLimit>
    ensures { result ≡ game_of text.now }
{
    if let Some(turns) = marked(text, b't') {
        return Some(turns_limit(turns));
    }
    let milliseconds = span(text, 60 * 1000, &GAME_UNITS)?;
    Some(time_limit(milliseconds))
}

// The time of a field, the usual one where the field is left off.
fn time_field(field: Option<&[u8]>, usual: u64, place: u8) -> Result<u64, ControlFault>
    ensures { result ≡ field_of time_of usual place (option_copied field.entry) }
{
    match field {
        None => Ok(usual),
        Some(text) => time(text).ok_or(ControlFault::Field(place)),
    }
}

// The percentage of the third field.
fn percent_field(field: Option<&[u8]>) -> Result<u8, ControlFault>
    ensures { result ≡ field_of percent_of 100 3 (option_copied field.entry) }
{
    match field {
        None => Ok(100),
        Some(text) => percent(text).ok_or(ControlFault::Field(3)),
    }
}

// The game limit of the fifth field.
fn game_field(field: Option<&[u8]>) -> Result<GameLimit, ControlFault>
    ensures { result ≡ field_of game_of GameLimit.None 5 (option_copied field.entry) }
{
    match field {
        None => Ok(GameLimit::None),
        Some(text) => game(text).ok_or(ControlFault::Field(5)),
    }
}

// The control that the fields of a text write, or the first fault.
#[tactic(auto, unfolding(crate::specs::Reading::control_of))]
fn read_fields(text: &[u8]) -> Result<Control, ControlFault>
    ensures { result ≡ control_of (fields text.now) }
{
    let mut fields = Fields::of(text);
    let turn = time_field(fields.next_field(), 0, 1)?;
    let reserve = time_field(fields.next_field(), 0, 2)?;
    let percent = percent_field(fields.next_field())?;
    let cap = time_field(fields.next_field(), 0, 4)?;
    let game = game_field(fields.next_field())?;
    let limit = time_field(fields.next_field(), 0, 6)?;
    if fields.has_more() {
        return Err(ControlFault::Field(7));
    }
    Ok(Control {
        turn,
        reserve,
        percent,
        cap,
        game,
        limit,
    })
}

/// Reads the text of a time control.
///
/// It has one to six fields with slashes between: the time for a turn, the reserve at the start,
/// the percentage of unused time that is kept, the cap of the reserve, the game limit, and the
/// limit of one turn. A time is a number of minutes, or `m:ss`, or parts such as `1h30m` in the
/// units d, h, m and s. A game limit is a number of hours, or `h:mm`, or parts in d, h and m, or a
/// number of turns as `60t`. Fields that are left off at the end are 0, and 100 percent.
pub fn read_control(bytes: &[u8]) -> Result<Control, ControlFault>
    // What is read stands in the grammar, and what stands there is read.
    ensures read { IfOk result (λ control. IsControl bytes.now control) }
    ensures only { (control : TimeControl) → IsControl bytes.now control → result ≡ Ok control }

    ensures first_bad { IfErr result (λ fault. NamesFirstBad (fields bytes.now) fault) }
{
    read_fields(bytes)
}
