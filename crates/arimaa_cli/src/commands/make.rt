//! The command `make`: a large record that a generator makes, and how it is judged.
ghost use Rattle.std.specs.Prelude.{◌≡◌, ℕ, IsTrue, slice_get, ◌≤◌, ◌<◌, ◌++◌, ◌∷◌, [], Some, None, IfOk, IfSome, IfNone, OnOk, Option, length};
ghost use Rattle.arimaa_board.specs.Fit.{IsFit};
ghost use Rattle.arimaa_board.specs.declared.position.Position.{Position as Place};
ghost use Rattle.arimaa_forced.specs.Entries.{steps_with_marks};
ghost use Rattle.arimaa_record.specs.declared.label.Label.{Label as Due};
ghost use Rattle.arimaa_game.specs.Play.{game_from, ending_of, game_with};
ghost use Rattle.arimaa_model.specs.Game.{barred_by, present};
ghost use Rattle.arimaa_model.specs.Results.{next, result_of};
ghost use Rattle.arimaa_model.specs.Turns.{is_turn};
ghost use Rattle.arimaa_cli.specs.Commands.Make.{IsMade, IsMadeFrom, IsMakeAnswer, IsPicked, IsStart, made_of, number_after, summary, turn_line};

use crate::answer::{Answer, Text, push_number};
use crate::texts::crowded_text;
use arimaa_board::{Noted, Position, Turn};
use arimaa_game::{Game, GameFault};
use arimaa_history::Barred;
use arimaa_judge::{Judged, bad_text, judge, judgements_agree, push_state};
use arimaa_model::Ending;
use arimaa_record::{Label, RecordLine, push_line};
use arimaa_region::Region;
use arimaa_results::{first_turn, results};
use arimaa_step::note;
use std::alloc::{AllocError, Global};

/// The most turns that may be asked for.
pub const MOST_MADE: u64 = 1000;

/// The most positions of a list that a turn is taken from.
pub const MOST_PLACES: u32 = 262_144;

/// The lines of both setups, which each record begins with.
pub const SETUPS: &[u8] = b"1g Ra1 Rb1 Rc1 Dd1 De1 Rf1 Rg1 Rh1 Ra2 Hb2 Cc2 Md2 Ee2 Cf2 Hg2 Rh2
1s ra7 hb7 cc7 ed7 me7 cf7 hg7 rh7 ra8 rb8 rc8 dd8 de8 rf8 rg8 rh8
";

/// What `make` is asked.
#[derive(Clone, Copy, Debug)]
pub struct Making {
    /// The number that the generator begins with.
    pub number: u64,
    /// The most turns that are made, from 0 to `MOST_MADE`.
    pub turns: u64,
}

// The number that the generator goes on with.
fn number_after(number: u64) -> u64
    ensures { result ≡ number_after number }
{
    number
        .wrapping_mul(6_364_136_223_846_793_005)
        .wrapping_add(1_442_695_040_888_963_407)
}

// A position of a list, and the first turn that leads to it.
#[derive(Drop)]
struct Picked {
    reached: Position,
    turn: Turn,
}

// What a number picks from the list at a position. None where the list is too long.
fn pick(p: &Position, barred: &Barred, number: u64, region: &mut Region) -> Option<Picked>
    requires empty { region.old.segments ≡ [] }
    requires room { region.old.room ≡ MOST_PLACES }
    requires some { 0 < length (next barred.now p.now) }
    ensures picked { IfSome result (λ picked.
        IsPicked number barred.now p.now picked.reached picked.turn) }
    ensures reaches { IfSome result (λ picked.
        result_of p.now picked.turn ≡ Some picked.reached) }
    ensures crowded { IfNone result (MOST_PLACES < length (next barred.now p.now)) }
    ensures empty { region.new.segments ≡ [] }
    ensures room { region.new.room ≡ MOST_PLACES }
{
    let Ok(mark) = results(p, barred, region) else {
        return None;
    };
    let place = (number >> 33) % u64::from(region.live());
    let reached = region.get(place as u32);
    region.release(mark);
    match first_turn(p, &reached) {
        Some(turn) => Some(Picked { reached, turn }),
        None => unreachable!(),
    }
}

// Plays a turn that leads to a position.
fn play(game: &mut Game, turn: &Turn, p: &Position, q: &Position) -> Result<(), AllocError>
    requires on { ending_of game.old ≡ None }
    requires last { present game.old.history ≡ Some p.now }
    requires place { (k : ℕ)
        × (slice_get (next (barred_by game.old.history) p.now) k ≡ Some q.now) }
    requires reaches { result_of p.now turn.now ≡ Some q.now }
    ensures { OnOk result (game.new ≡ game_with game.old q.now) }
{
    match game.play(turn) {
        Ok(_) => Ok(()),
        Err(fault) => match fault {
            GameFault::Memory => Err(AllocError),
            _ => unreachable!(),
        },
    }
}

// A turn with its removal marks.
fn noted(p: &Position, turn: &Turn) -> Noted
    requires { IsTrue (is_turn p.now.board p.now.side turn.now) }
    ensures { result ≡ steps_with_marks p.now.board turn.now }
{
    let _few = turn.steps();
    match note(p, turn) {
        Ok(noted) => noted,
        Err(_) => unreachable!(),
    }
}

// Adds the line of a turn.
fn push_turn(
    alloc: Global,
    text: &mut Vec<u8>,
    due: Label,
    p: &Position,
    turn: &Turn,
) -> Result<(), AllocError>
    requires { IsTrue (is_turn p.now.board p.now.side turn.now) }
    ensures { OnOk result (text.new.items ≡ text.old.items ++ turn_line due p.now turn.now) }
{
    let line = RecordLine::Turn {
        number: due.number,
        side: due.side,
        noted: noted(p, turn),
    };
    push_line(alloc, text, &line)
}

// Adds the lines of the turns, or answers the position whose list is too long.
fn add_turns(
    alloc: Global,
    asked: Making,
    start: Position,
    due: Label,
    text: &mut Vec<u8>,
) -> Result<Option<Position>, AllocError>
    requires { IsFit start.board }
    ensures { IfOk result (λ crowded. IsMadeFrom asked.turns asked.number due (start ∷ [])
        text.old.items (made_of crowded text.new.items)) }
{
    let mut region = Region::with_room(alloc, MOST_PLACES)?;
    let mut game = Game::from_start(alloc, start)?;
    let mut number = asked.number;
    let mut due = due;
    for _ in 0..asked.turns {
        if let Some(_) = game.ending() {
            return Ok(None);
        }
        number = number_after(number);
        let p = game.now();
        let barred = game.history().barred();
        let Some(picked) = pick(&p, barred, number, &mut region) else {
            return Ok(Some(p));
        };
        push_turn(alloc, text, due, &p, &picked.turn)?;
        play(&mut game, &picked.turn, &p, &picked.reached)?;
        due = due.next();
    }
    Ok(None)
}

// What was made: a text, and the position whose list was too long, if one was.
#[derive(Drop)]
struct Made {
    text: Vec<u8>,
    crowded: Option<Position>,
}

// Where turns begin.
#[derive(Clone, Copy)]
struct Start {
    position: Position,
    due: Label,
}

// The position after the setups, and the label that is due there.
fn after_setups(alloc: Global) -> Result<Option<Start>, AllocError>
    ensures start { IfOk result (λ found. IfSome found (λ start.
        IsStart start.position start.due × IsFit start.position.board)) }
    ensures none { IfOk result (λ found. IfNone found (
        (p : Place) (due : Due) → IsStart p due → ⊥)) }
{
    judgements_agree();
    match judge(alloc, SETUPS)? {
        Judged::Bad { .. } => Ok(None),
        Judged::Lawful { history, next, .. } => match history.last() {
            None => Ok(None),
            Some(position) => Ok(Some(Start {
                position,
                due: next,
            })),
        },
    }
}

// Makes the record that is asked for.
fn make(alloc: Global, asked: Making) -> Result<Made, AllocError>
    ensures { IfOk result (λ made. IsMade asked (made_of made.crowded made.text.items)) }
{
    let mut text = Vec::from_slice(alloc, SETUPS)?;
    match after_setups(alloc)? {
        None => Ok(Made {
            text,
            crowded: None,
        }),
        Some(start) => {
            let crowded = add_turns(alloc, asked, start.position, start.due, &mut text)?;
            Ok(Made { text, crowded })
        }
    }
}

// The text about a lawful record of so many turns and bytes.
fn summary(
    alloc: Global,
    turns: u64,
    bytes: u64,
    ended: Option<Ending>,
    next: Label,
) -> Result<Vec<u8>, AllocError>
    ensures { IfOk result (λ text. text.items ≡ summary turns bytes ended next) }
{
    let mut text = Vec::from_slice(alloc, b"turns ")?;
    push_number(&mut text, turns)?;
    text.extend_from_slice(b"\nbytes ")?;
    push_number(&mut text, bytes)?;
    text.push(b'\n')?;
    push_state(alloc, &mut text, ended, next)?;
    Ok(text)
}

// What it answers: how the record that it makes is judged, or the position whose list is too long.
pub(crate) fn answer(alloc: Global, asked: &Making) -> Result<Answer, AllocError>
    ensures { IfOk result (IsMakeAnswer asked.now) }
{
    let Made { text, crowded } = make(alloc, *asked)?;
    match crowded {
        Some(p) => Ok(Answer::Crowded(Text::new(crowded_text(alloc, &p, 1)?))),
        None => match judge(alloc, &text)? {
            Judged::Bad { line, label, rule } => {
                Ok(Answer::Answered(Text::new(bad_text(alloc, line, label, rule)?)))
            }
            Judged::Lawful {
                turns,
                ending,
                next,
                ..
            } => {
                let bytes = text.len() as u64;
                Ok(Answer::Done(Text::new(summary(alloc, turns, bytes, ending, next)?)))
            }
        },
    }
}
