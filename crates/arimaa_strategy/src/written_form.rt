//! The written form of strategies.
ghost use Rattle.std.specs.Prelude.{◌≡◌, ◌<◌, ◌++◌, length, IfOk, OnOk};
ghost use Rattle.std.specs.List.{AllByRecursion};
ghost use Rattle.arimaa_board.specs.declared.piece.Color.{Color};
ghost use Rattle.arimaa_notation.specs.Written.{text_of_turn};
ghost use Rattle.arimaa_notation.specs.Grammar.{IsTurnText};
ghost use Rattle.arimaa_strategy.specs.Text.{IsStrategyText};
ghost use Rattle.arimaa_strategy.specs.WrittenForm.{ended_entry, text_of_strategy, IsWritable};

use crate::strategy::Strategy;
use arimaa_board::board_text;
use arimaa_forced::Entry;
use arimaa_notation::turn_text;
use itoa::Buffer;
use std::alloc::{AllocError, Global};

// Adds an entry, and the line feed that ends its line.
fn push_entry(text: &mut Vec<u8>, entry: &Entry) -> Result<(), AllocError>
    requires { 0 < length entry.now.turn }
    ensures text { OnOk result (text.new.items ≡ text.old.items ++ ended_entry entry.now) }
    ensures reads_back { IsTurnText (text_of_turn entry.now.turn) entry.now.turn }
{
    let mut rank = Buffer::new();
    let turn = turn_text(&entry.turn);
    text.extend_from_slice(rank.format(entry.rank).as_bytes())?;
    text.push(b' ')?;
    text.extend_from_slice(&board_text(&entry.position.board))?;
    text.push(b' ')?;
    text.extend_from_slice(turn.as_bytes())?;
    text.push(b'\n')?;
    Ok(())
}

/// The written form of a strategy: a line an entry, with its rank, a space, the board's text, a
/// space, and the turn with its removal marks.
///
/// It is read back as the same strategy for an attacker that each entry is `IsWritable` for: it has
/// a rank of at most 99, a fit board, and the attacker to move. It fails for want of memory only.
pub fn strategy_text(alloc: Global, strategy: &Strategy) -> Result<Vec<u8>, AllocError>
    ensures text { IfOk result (λ text. text.items ≡ text_of_strategy strategy.now) }
    ensures reads_back { IfOk result
        (λ text. (a : Color) → AllByRecursion (IsWritable a) strategy.now
        → IsStrategyText text.items a strategy.now) }
{
    let mut text = Vec::new(alloc);
    for entry in strategy.entries() {
        push_entry(&mut text, entry)?;
    }
    Ok(text)
}
