//! The reader of lines.
ghost use Rattle.std.specs.Prelude.{◌≡◌, ◌↔◌, ◌≤◌, ℕ, List, slice_index, Some, IfNone, IfSome};
ghost use Rattle.std.specs.Fmt.{decimal};
ghost use Rattle.arimaa_board.specs.declared.board.Board.{Board as Squares};
ghost use Rattle.arimaa_board.specs.declared.turn.NotedStep.{NotedStep};
ghost use Rattle.arimaa_notation.specs.Items.{is_blank};
ghost use Rattle.arimaa_forced.specs.declared.entry.Entry.{Entry as EntryValue};
ghost use Rattle.arimaa_strategy.specs.Text.{IsBoardAndTurn, IsEntryText};

use arimaa_board::{Board, Color, Noted, Position, read_board};
use arimaa_forced::Entry;
use arimaa_notation::{first_item, is_blank, read_number, read_turn, trim_start};

// The entry of a line without its end, with the attacker to move.
pub fn read_entry(line: &[u8], attacker: Color) -> Option<Entry>
    ensures form { IfSome result (λ e. IsEntryText line.now attacker e) }
    ensures none { IfNone result ((e : EntryValue) → ¬ IsEntryText line.now attacker e) }
{
    let Some((item, rest)) = first_item(line) else {
        return None;
    };
    let Some(rank) = read_rank(item) else {
        return None;
    };
    let Some((board, turn)) = read_board_and_turn(rest) else {
        return None;
    };
    Some(Entry {
        position: Position {
            board,
            side: attacker,
        },
        rank,
        turn,
    })
}

// The rank that an item writes.
fn read_rank(item: &[u8]) -> Option<u8>
    ensures { (n : ℕ) → (result ≡ Some n) ↔ ((n ≤ 99) × (item.now ≡ decimal n)) }
{
    match read_number(item) {
        None => None,
        Some(number) => {
            if number <= 99 {
                Some(number as u8)
            } else {
                None
            }
        }
    }
}

/// The board and the turn that follow the first item of a line: after blanks the board's text, and
/// after a blank the turn with its removal marks. None comes exactly where the bytes are no such
/// text.
pub fn read_board_and_turn(rest: &[u8]) -> Option<(Board, Noted)>
    ensures form { IfSome result (λ x. IsBoardAndTurn rest.now x.0 x.1) }
    ensures none { IfNone result ((b : Squares) (ns : List NotedStep)
        → ¬ IsBoardAndTurn rest.now b ns) }
{
    let text = trim_start(rest);
    if text.len() < 66 {
        return None;
    }
    let (board, turn) = text.split_at(66);
    if !begins_blank(turn) {
        return None;
    }
    let Ok(board) = read_board(board) else {
        return None;
    };
    let Ok(turn) = read_turn(turn) else {
        return None;
    };
    Some((board, turn))
}

// Whether the first byte is a blank.
fn begins_blank(bytes: &[u8]) -> bool
    ensures { result ≡ is_blank (slice_index bytes.now 0) }
{
    match bytes {
        [first, ..] => is_blank(*first),
        [] => false,
    }
}
