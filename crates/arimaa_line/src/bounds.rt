//! What a line says.
ghost use Rattle.std.specs.Prelude.{◌≡◌, ℕ, ◌+◌, ◌*◌, ◌/◌, ◌%◌, ◌^◌, ◌<◌, ◌≤◌, ◌↔◌};
ghost use Rattle.std.specs.Prelude.{List, true, false, IsTrue, IsSomeAnd};
ghost use Rattle.arimaa_board.specs.declared.piece.Color.{Color};
ghost use Rattle.arimaa_board.specs.declared.position.Position.{Position};
ghost use Rattle.arimaa_model.specs.Wins.{wins};
ghost use Rattle.arimaa_line.specs.Words.{color_bit, color_of_bit, bound_code, bound_of_code};
ghost use Rattle.arimaa_line.specs.Words.{bounds_word, bounds_of};
ghost use Rattle.arimaa_line.specs.Bounds.{AreBounds, AreTrueBounds, KeepsBounds};
ghost use Rattle.arimaa_line.specs.Bounds.{IsRightAnswer, later_bound, earlier_bound, tightest};
ghost use Rattle.arimaa_line.specs.Bounds.{verdict_bounds};

use arimaa_board::{Board, Color, Position};

/// What is known of a position's rank: the attacker does not win it within `low` turns, and wins it
/// within `high` turns. So one value answers many depths.
#[derive(Clone, Copy, Debug, PartialEq, Eq)]
pub struct Bounds {
    /// The position that was asked about, whole.
    pub position: Position,
    /// The side that is to win.
    pub attacker: Color,
    /// A number of turns within which it does not win, 0 to 20.
    pub low: Option<u8>,
    /// A number of turns within which it wins, 0 to 20, above `low`.
    pub high: Option<u8>,
}

/// The largest depth of a question.
pub(crate) const MAX_DEPTH: u8 = 20;

// The version of the words, in word 4.
const VERSION: u64 = 2;

// The bit of a colour.
fn color_bit(color: Color) -> u64
    ensures value { result ≡ color_bit color }
    ensures small { result ≤ 1 }
{
    match color {
        Color::Gold => 0,
        Color::Silver => 1,
    }
}

// The colour of a bit.
fn color_of_bit(bit: u64) -> Color
    ensures { result ≡ color_of_bit bit }
{
    if bit == 0 { Color::Gold } else { Color::Silver }
}

// The code of a bound.
fn bound_code(bound: Option<u8>) -> u64
    ensures value { result ≡ bound_code bound }
    ensures small { result ≤ 256 }
{
    match bound {
        None => 0,
        Some(depth) => depth as u64 + 1,
    }
}

// The bound of a code.
fn bound_of_code(code: u64) -> Option<u8>
    requires { code < 256 }
    ensures { result ≡ bound_of_code code }
{
    if code == 0 {
        None
    } else {
        Some((code - 1) as u8)
    }
}

/// Word 4 of the line of these bounds.
pub(crate) fn bounds_word(bounds: &Bounds) -> u64
    ensures { result ≡ bounds_word bounds.now }
{
    let side = color_bit(bounds.position.side);
    let attacker = color_bit(bounds.attacker);
    let low = bound_code(bounds.low);
    let high = bound_code(bounds.high);
    side + (attacker << 1) + (low << 8) + (high << 16) + (VERSION << 24)
}

/// What a board and word 4 say, each field by its own bits alone.
pub(crate) fn bounds_of(board: Board, word: u64) -> Bounds
    ensures { result ≡ bounds_of board word }
{
    Bounds {
        position: Position {
            board,
            side: color_of_bit(word % 2),
        },
        attacker: color_of_bit((word >> 1) % 2),
        low: bound_of_code((word >> 8) % 256),
        high: bound_of_code((word >> 16) % 256),
    }
}

/// Whether a bound stands, none is above 20, and `low` is below `high` where both stand.
pub(crate) fn are_bounds(low: Option<u8>, high: Option<u8>) -> bool
    ensures { IsTrue result ↔ AreBounds low high }
{
    match low {
        None => match high {
            None => false,
            Some(yes) => yes <= MAX_DEPTH,
        },
        Some(no) => match high {
            None => no <= MAX_DEPTH,
            Some(yes) => no < yes && yes <= MAX_DEPTH,
        },
    }
}

/// Whether the attacker wins within `depth` turns, as far as the bounds say so.
///
/// No where `low` stands and the depth is at most `low`, yes where `high` stands and the depth is
/// at least `high`, and else none. Of true bounds each answer is right.
pub fn answers(bounds: &Bounds, depth: u8) -> Option<bool>
    requires { AreBounds bounds.now.low bounds.now.high }
    ensures no { (result ≡ Some false) ↔ IsSomeAnd bounds.now.low (λ low. depth ≤ low) }
    ensures yes { (result ≡ Some true) ↔ IsSomeAnd bounds.now.high (λ high. high ≤ depth) }
    ensures right { IsRightAnswer bounds.now depth result }
{
    if let Some(low) = bounds.low {
        if depth <= low {
            return Some(false);
        }
    }
    if let Some(high) = bounds.high {
        if high <= depth {
            return Some(true);
        }
    }
    None
}

/// What one verdict says: a yes at a depth gives `high`, and a no gives `low`.
pub fn bounds_of_verdict(position: &Position, attacker: Color, depth: u8, verdict: bool) -> Bounds
    requires { depth ≤ 20 }
    ensures value { result ≡ verdict_bounds position.now attacker depth verdict }
    ensures right { (barred : List Position)
        → verdict ≡ wins attacker barred depth position.now
        → AreTrueBounds attacker barred result }
{
    if verdict {
        Bounds {
            position: *position,
            attacker,
            low: None,
            high: Some(depth),
        }
    } else {
        Bounds {
            position: *position,
            attacker,
            low: Some(depth),
            high: None,
        }
    }
}

// The larger one of two bounds of the kind `low`.
fn later_bound(one: Option<u8>, other: Option<u8>) -> Option<u8>
    ensures { result ≡ later_bound one other }
{
    match one {
        None => other,
        Some(m) => match other {
            None => Some(m),
            Some(n) => Some(m.max(n)),
        },
    }
}

// The smaller one of two bounds of the kind `high`.
fn earlier_bound(one: Option<u8>, other: Option<u8>) -> Option<u8>
    ensures { result ≡ earlier_bound one other }
{
    match one {
        None => other,
        Some(m) => match other {
            None => Some(m),
            Some(n) => Some(m.min(n)),
        },
    }
}

/// What two bounds of one position say together: of each kind the tighter one.
pub fn tightest(one: &Bounds, other: &Bounds) -> Bounds
    requires { one.now.position ≡ other.now.position }
    ensures value { result ≡ tightest one.now other.now }
    ensures keeps_one { KeepsBounds one.now result }
    ensures keeps_other { KeepsBounds other.now result }
    ensures right { (side : Color) (barred : List Position)
        → AreTrueBounds side barred one.now
        → AreTrueBounds side barred other.now
        → AreTrueBounds side barred result }
{
    Bounds {
        position: one.position,
        attacker: one.attacker,
        low: later_bound(one.low, other.low),
        high: earlier_bound(one.high, other.high),
    }
}
