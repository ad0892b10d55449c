//! The pieces that steps remove, and the marks that name them.
ghost use Rattle.std.specs.Prelude.{◌≡◌, ◌↔◌, ℕ, IsTrue, IsOk, Err, IfErr, IfOk, OnOk};
ghost use Rattle.arimaa_board.specs.NotedTurns.{noted_turn, noted_marks};
ghost use Rattle.arimaa_model.specs.Faults.{apply_result};
ghost use Rattle.arimaa_model.specs.Marks.{marks_of, same_mark, marks_right};
ghost use Rattle.arimaa_step.specs.declared.marks.Marks.TheVariants.{Required};
ghost use Rattle.arimaa_step.specs.MarkRules.{MarksFit, mark_fits, marks_fit};

use crate::application::apply;
use arimaa_board::{Board, Noted, NotedStep, Piece, Position, Square, Step, Turn};
use arimaa_model::{ApplyFault, after, removed, same_mark};

/// Which removal marks a turn needs.
#[derive(Clone, Copy, Debug, PartialEq, Eq)]
pub enum Marks {
    /// A mark stands exactly after each step that removes a piece, and names it.
    Required,
    /// A mark may be left out, and each that stands is right.
    Optional,
}

// Whether a mark may stand after a step that removes this.
fn mark_fits(rule: Marks, mark: Option<(Piece, Square)>, removed: Option<(Piece, Square)>) -> bool
    ensures { result ≡ mark_fits rule mark removed }
{
    match rule {
        Marks::Required => same_mark(mark, removed),
        Marks::Optional => mark.is_none() || same_mark(mark, removed),
    }
}

// Whether each mark may stand after its step.
#[tactic(auto, unfolding(crate::specs::MarkRules::marks_fit))]
fn all_fit(board: &Board, steps: &[NotedStep], rule: Marks) -> bool
    ensures { result ≡ marks_fit rule board.now steps.now }
{
    let mut board = *board;
    for noted in steps {
        if !mark_fits(rule, noted.mark, removed(&board, &noted.step)) {
            return false;
        }
        board = after(&board, &noted.step);
    }
    true
}

/// Whether the removal marks of a turn are right under a rule.
///
/// The steps are followed as they stand, also where the side to move may not make one.
pub fn marks_fit(p: &Position, noted: &Noted, rule: Marks) -> bool
    ensures value { result ≡ marks_fit rule p.now.board noted.now }
    ensures meaning { IsTrue result ↔ MarksFit rule p.now.board noted.now }
    ensures required { rule ≡ Required → result
        ≡ marks_right p.now.board (noted_turn noted.now) (noted_marks noted.now) }
{
    all_fit(&p.board, noted.steps(), rule)
}

// A turn with the pieces that its steps remove.
fn with_marks(p: &Position, turn: &Turn) -> Noted
    ensures turn { noted_turn result ≡ turn.now }
    ensures marks { noted_marks result ≡ marks_of p.now.board turn.now }
{
    let mut noted = Noted::new(turn.copy());
    let mut board = p.board;
    for (k, step) in turn.steps().iter().enumerate() {
        noted.set_mark(k, removed(&board, step));
        board = after(&board, step);
    }
    noted
}

/// A turn with exactly its right marks, or its first fault.
pub fn note(p: &Position, turn: &Turn) -> Result<Noted, ApplyFault>
    ensures refused { IfErr result (λ e. apply_result p.now turn.now ≡ Err e) }
    ensures accepted { OnOk result (IsOk (apply_result p.now turn.now)) }
    ensures turn { IfOk result (λ n. noted_turn n ≡ turn.now) }
    ensures marks { IfOk result (λ n. noted_marks n ≡ marks_of p.now.board turn.now) }
{
    match apply(p, turn) {
        Ok(_) => Ok(with_marks(p, turn)),
        Err(fault) => Err(fault),
    }
}
