//! The position that a game stands at, which commands are asked about.
ghost use Rattle.std.specs.Prelude.{IfErr, IfOk};
ghost use Rattle.arimaa_cli.specs.Commands.Prove.{IsOpenAt};
ghost use Rattle.arimaa_cli.specs.Positions.{IsUnasked};

use super::prove::{closing_word, ended_text};
use crate::record::Game;
use arimaa_board::Position;

// The position that a game stands at that no word closed, or the text that says why there is none.
pub(super) fn position_of(game: &Game) -> Result<Position, &'static [u8]>
    ensures open_yet { IfOk result (IsOpenAt game.now) }
    ensures unasked { IfErr result (λ text. IsUnasked game.now text.now) }
{
    if let Some(word) = closing_word(game.ending) {
        return Err(ended_text(word));
    }
    match game.history.last() {
        None => Err(b"no position\n"),
        Some(p) => Ok(p),
    }
}
