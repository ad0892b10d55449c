//! Lines, and how bounds are packed into one.
ghost use Rattle.std.specs.Prelude.{◌≡◌, ℕ, ◌+◌, ◌-◌, ◌^◌, ◌<◌, ◌≤◌, ◌↔◌};
ghost use Rattle.std.specs.Prelude.{List, MatchOption, Some, IsTrue, IfSome};
ghost use Rattle.arimaa_board.specs.declared.piece.Color.{Color};
ghost use Rattle.arimaa_board.specs.declared.position.Position.{Position};
ghost use Rattle.arimaa_line.specs.declared.bounds.Bounds.{Bounds};
ghost use Rattle.arimaa_line.specs.Bounds.{AreBounds, AreTrueBounds, KeepsBounds};
ghost use Rattle.arimaa_line.specs.Lines.{line_of_bounds, empty_line, stamp_of, IsLineOf, Says};
ghost use Rattle.arimaa_line.specs.Lines.{IsTrueLine, IsLine, LosesNoBound};

use crate::bounds::{Bounds, are_bounds, bounds_of, bounds_word, tightest};
use arimaa_board::{Board, Position};

/// Six words: bounds with their stamp, or six zeros.
#[derive(Clone, Copy, Debug, PartialEq, Eq)]
pub struct Line {
    /// The words, as the head of this crate lays them out.
    pub words: [u64; 6],
}

impl Line {
    /// The line that says nothing: six zero words, with the stamp 0.
    pub fn empty() -> Line
        ensures { result ≡ empty_line }
    {
        Line { words: [0; 6] }
    }
}

/// The line of bounds with a stamp.
pub fn encode(bounds: &Bounds, stamp: u64) -> Line
    requires bounds { AreBounds bounds.now.low bounds.now.high }
    requires stamp { 1 ≤ stamp }
    ensures words { result ≡ line_of_bounds bounds.now stamp }
    ensures stamp { stamp_of result ≡ stamp }
    ensures reads_back { IsLineOf result bounds.now }
{
    let [a, b, c, d] = bounds.position.board.words();
    Line {
        words: [a, b, c, d, bounds_word(bounds), stamp],
    }
}

// Whether a line with a stamp says this.
fn is_line_of(line: &Line, bounds: &Bounds) -> bool
    requires { 1 ≤ stamp_of line.now }
    ensures { IsTrue result ↔ IsLineOf line.now bounds.now }
{
    are_bounds(bounds.low, bounds.high) && encode(bounds, stamp(line)) == *line
}

// What the words of a line say, each field by its own bits alone. It is what the line says, if it
// says anything.
fn unpack(line: &Line) -> Option<Bounds>
    ensures stamp { IfSome result (λ _. 1 ≤ stamp_of line.now) }
    ensures said { (k : Bounds) → IsLineOf line.now k → result ≡ Some k }
{
    let [a, b, c, d, word, stamp] = line.words;
    if stamp == 0 {
        return None;
    }
    let Some(board) = Board::from_words([a, b, c, d]) else {
        return None;
    };
    Some(bounds_of(board, word))
}

/// What a line says.
///
/// None exactly where the words are the line of no bounds with a stamp of at least 1: so at the
/// empty line, at a code of no piece, at another version, at a bit that has no use, and where no
/// bound stands, one is above 20, or `low` is not below `high`.
pub fn decode(line: &Line) -> Option<Bounds>
    ensures { (k : Bounds) → (result ≡ Some k) ↔ IsLineOf line.now k }
{
    let Some(bounds) = unpack(line) else {
        return None;
    };
    if is_line_of(line, &bounds) {
        Some(bounds)
    } else {
        None
    }
}

/// What a line says of a position: none where it is empty, and where it names another position.
///
/// The line has to be one, as each line of a table is. So its words are only compared with those of
/// the position: no board is unpack, and nothing is packed again.
pub fn read(line: &Line, position: &Position) -> Option<Bounds>
    requires { IsLine line.now }
    ensures { (k : Bounds) → (result ≡ Some k) ↔ Says line.now position.now k }
{
    let [a, b, c, d, word, stamp] = line.words;
    if stamp == 0 || position.board.words() != [a, b, c, d] {
        return None;
    }
    let bounds = bounds_of(position.board, word);
    if bounds.position.side == position.side {
        Some(bounds)
    } else {
        None
    }
}

/// What to put over a line: these bounds and, where the line names the same position, its bounds
/// too, of each kind the tighter one.
pub fn bounds_over(line: &Line, known: &Bounds) -> Bounds
    requires { IsLine line.now }
    ensures position { result.position ≡ known.now.position }
    ensures keeps_known { KeepsBounds known.now result }
    ensures keeps_line { LosesNoBound line.now result }
    ensures right { (side : Color) (barred : List Position)
        → IsTrueLine side barred line.now
        → AreTrueBounds side barred known.now
        → AreTrueBounds side barred result }
{
    match read(line, &known.position) {
        Some(seen) => tightest(known, &seen),
        None => *known,
    }
}

/// The stamp of a line: 0 for the empty one, and else from 1.
pub fn stamp(line: &Line) -> u64
    ensures { result ≡ stamp_of line.now }
{
    line.words[5]
}

/// The stamp after this one, or none at the largest.
pub fn next_stamp(stamp: u64) -> Option<u64>
    ensures { MatchOption result (stamp ≡ 2 ^ 64 - 1) (λ next. next ≡ stamp + 1) }
{
    stamp.checked_add(1)
}
