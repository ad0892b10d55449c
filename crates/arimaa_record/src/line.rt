//! What the lines of a record say.
use arimaa_board::{Board, Color, Noted, Setup, Word};

/// What a line of a record says. All but `Blank` begin with a label: the number of the turn,
/// counted from 1, and its side.
///
/// Whether the label is the one due, and whether the rules allow what the line says, is for the
/// judge.
#[derive(Drop)]
pub enum RecordLine {
    /// Nothing: an empty line or a comment.
    Blank,
    /// The game begins at this board, and the turn of the label is due.
    Start {
        number: u32,
        side: Color,
        board: Board,
    },
    /// The side places its pieces.
    Setup {
        number: u32,
        side: Color,
        setup: Setup,
    },
    /// The side makes these one to four steps.
    Turn {
        number: u32,
        side: Color,
        noted: Noted,
    },
    /// The side ends the game by a word.
    Closing {
        number: u32,
        side: Color,
        word: Word,
    },
    /// The record breaks off where the side is to set up or to move.
    Bare {
        number: u32,
        side: Color,
    },
    /// The last turn that stands is taken back. The label is the one that was due after it.
    Takeback {
        number: u32,
        side: Color,
    },
}
