//! The reader of lines.
ghost use Rattle.std.specs.Prelude.{◌≡◌, ◌↔◌, ◌≤◌, ℕ, Some, IfNone, IfSome};
ghost use Rattle.std.specs.Fmt.{decimal};
ghost use Rattle.arimaa_refute.specs.declared.escape.Escape.{Escape as EscapeValue};
ghost use Rattle.arimaa_refute.specs.Text.{IsEscapeText};

use crate::escape::Escape;
use arimaa_board::{Color, Position};
use arimaa_notation::{first_item, read_number};
use arimaa_strategy::read_board_and_turn;

// The escape of a line without its end, with the defender to move.
pub fn read_escape(line: &[u8], attacker: Color) -> Option<Escape>
    ensures form { IfSome result (λ e. IsEscapeText line.now attacker e) }
    ensures none { IfNone result ((e : EscapeValue) → ¬ IsEscapeText line.now attacker e) }
{
    let Some((item, rest)) = first_item(line) else {
        return None;
    };
    let Some(depth) = read_depth(item) else {
        return None;
    };
    let Some((board, turn)) = read_board_and_turn(rest) else {
        return None;
    };
    Some(Escape {
        position: Position {
            board,
            side: attacker.other(),
        },
        depth,
        turn,
    })
}

// The depth that an item writes.
fn read_depth(item: &[u8]) -> Option<u8>
    ensures { (n : ℕ) → (result ≡ Some n) ↔ ((1 ≤ n) × (n ≤ 20) × (item.now ≡ decimal n)) }
{
    match read_number(item) {
        None => None,
        Some(number) => {
            if 1 <= number && number <= 20 {
                Some(number as u8)
            } else {
                None
            }
        }
    }
}
