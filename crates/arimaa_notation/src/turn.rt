//! The reader of turns.
ghost use Rattle.std.specs.Prelude.{◌≡◌, ◌≢◌, ℕ, ◌+◌, ◌<◌, ◌≤◌, ◌↔◌, List, [], ◌∷◌, ◌++◌, length, take, Ok, Err, IfNone, IfSome};
ghost use Rattle.arimaa_board.specs.declared.piece.Piece.{Piece as PieceValue};
ghost use Rattle.arimaa_board.specs.declared.turn.NotedStep.{NotedStep as NotedStepValue};
ghost use Rattle.arimaa_notation.specs.Items.{items_of};
ghost use Rattle.arimaa_notation.specs.Written.{text_of_mark, items_of_mark};
ghost use Rattle.arimaa_notation.specs.Grammar.{IsTurnText, IsTurnReading, IsNamedItem, AreTooManySteps};
ghost use Rattle.std.specs.Result.{result_ok};
ghost use Rattle.arimaa_notation.specs.Readers.{turn_of_text};

use crate::fault::NoteFault;
use crate::items::first_item;
use crate::letters::{read_mark, read_step};
use arimaa_board::{Noted, NotedStep, Piece, Square, Step, Turn};
use arrayvec::ArrayVec;

/// The turn of a text: one to four steps, each with at most one removal mark directly after it.
///
/// A step is letter, square and direction, as `Ed2n`, and a removal mark is letter, square and `x`,
/// as `cc3x`. Items are separated by one or more blanks, which may also stand at both ends. Of the
/// faults the first bad item comes first: an item that is no step, and no mark directly after a
/// step. `Steps` is answered where every item is right and there are more than four steps.
pub fn read_turn(bytes: &[u8]) -> Result<Noted, NoteFault>
    ensures turn { (t : List NotedStepValue) → (result ≡ Ok t) ↔ IsTurnText bytes.now t }
    ensures token { (n : ℕ)
        → (result ≡ Err (NoteFault.Token n)) ↔ IsNamedItem (items_of bytes.now) n }
    ensures steps { (result ≡ Err NoteFault.Steps) ↔ AreTooManySteps (items_of bytes.now) }
    ensures no_setup { result ≢ Err NoteFault.Setup }
    ensures value { result_ok result ≡ turn_of_text bytes.now }
{
    reading(bytes)
}

// The turn of a text, or its first fault.
fn reading(bytes: &[u8]) -> Result<Noted, NoteFault>
    ensures { IsTurnReading (items_of bytes.now) result }
{
    let mut steps: ArrayVec<NotedStep, 4> = ArrayVec::new();
    let mut count: usize = 0;
    let mut number: usize = 0;
    let mut text = bytes;
    while let Some((item, after)) = first_item(text) {
        let Some(step) = read_step(item) else {
            return Err(NoteFault::Token(number as u64 + 1));
        };
        let (mark, rest) = mark_at_front(after);
        number += 1 + mark_len(&mark);
        keep(&mut steps, &step, mark);
        count += 1;
        text = rest;
    }
    if count == 0 {
        return Err(NoteFault::Token(1));
    }
    if count > 4 {
        return Err(NoteFault::Steps);
    }
    Ok(noted_of(steps.as_slice()))
}

// The mark at the front of a text, if its first item is one, and what is left of the text.
fn mark_at_front(bytes: &[u8]) -> (Option<(Piece, Square)>, &[u8])
    ensures items { items_of bytes.now ≡ items_of_mark result.0 ++ items_of result.1.now }
    ensures on_board { IfSome result.0 (λ m. m.1 < 64) }
    ensures none { IfNone result.0 ((m : PieceValue × ℕ) → (rest : List (List ℕ)) → m.1 < 64
        → items_of result.1.now ≢ text_of_mark m ∷ rest) }
    ensures fits { length (items_of_mark result.0) + length result.1.now ≤ length bytes.now }
{
    if let Some((item, rest)) = first_item(bytes) {
        if let Some(mark) = read_mark(item) {
            return (Some(mark), rest);
        }
    }
    (None, bytes)
}

// How many items a mark takes.
fn mark_len(mark: &Option<(Piece, Square)>) -> usize
    ensures value { result ≡ length (items_of_mark mark.now) }
    ensures small { result ≤ 1 }
{
    match mark {
        Some(_) => 1,
        None => 0,
    }
}

// Adds a step and its mark as long as there is room.
fn keep(steps: &mut ArrayVec<NotedStep, 4>, step: &Step, mark: Option<(Piece, Square)>)
    ensures { steps.new.items
        ≡ take 4 (steps.old.items ++ record { step = step.now; mark = mark } ∷ []) }
{
    if steps.is_full() {
        return;
    }
    steps.push(NotedStep { step: *step, mark });
}

// The turn of at most four steps with their marks.
fn noted_of(steps: &[NotedStep]) -> Noted
    requires { length steps.now ≤ 4 }
    ensures { result ≡ steps.now }
{
    let mut turn = Turn::empty();
    for noted in steps {
        turn.push(noted.step);
    }
    let mut noted_turn = Noted::new(turn);
    for place in 0..steps.len() {
        noted_turn.set_mark(place, steps[place].mark);
    }
    noted_turn
}
