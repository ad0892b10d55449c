//! The written form of escapes.
ghost use Rattle.std.specs.Prelude.{◌≡◌, IfOk};
ghost use Rattle.std.specs.List.{AllByRecursion};
ghost use Rattle.arimaa_board.specs.declared.piece.Color.{Color};
ghost use Rattle.arimaa_refute.specs.Text.{IsEscapesText, text_of_escapes, IsWritableEscape, IsPlanOf};

use crate::escapes::Escapes;
use arimaa_strategy::{Entry, Strategy, strategy_text};
use std::alloc::{AllocError, Global};

// The escapes as the entries of a strategy, with their depths as ranks.
fn plan(alloc: Global, escapes: &Escapes) -> Result<Strategy, AllocError>
    ensures { IfOk result (λ s. IsPlanOf escapes.now s) }
{
    let mut strategy = Strategy::new(alloc);
    for escape in escapes.entries() {
        strategy.push(Entry {
            position: escape.position,
            rank: escape.depth,
            turn: escape.turn.copy(),
        })?;
    }
    Ok(strategy)
}

/// The written form of escapes: a line an escape, with its depth, a space, the board's text, a
/// space, and the turn with its removal marks.
///
/// It is read back as the same escapes from an attacker that each is `IsWritableEscape` for: it has
/// a depth from 1 to 20, a fit board, and the defender to move. It fails for want of memory only.
pub fn escapes_text(alloc: Global, escapes: &Escapes) -> Result<Vec<u8>, AllocError>
    ensures text { IfOk result (λ text. text.items ≡ text_of_escapes escapes.now) }
    ensures reads_back { IfOk result (λ text. (a : Color)
        → AllByRecursion (IsWritableEscape a) escapes.now
        → IsEscapesText text.items a escapes.now) }
{
    let strategy = plan(alloc, escapes)?;
    strategy_text(alloc, &strategy)
}
