//! Escapes that are accepted and refused.
ghost use Rattle.std.specs.Prelude.{◌≤◌};

use crate::{Flaw, Verified, read_escapes, verify};
use arimaa_board::{Board, Color, Piece, Position, Square, board_text};
use arimaa_history::History;
use arimaa_region::Region;
use std::alloc::Global;
use std::test::Fail;

// An escape: its depth, its pieces, and its turn.
type Row = (&'static [u8], &'static [u8], &'static [u8]);

// Wherever the gold rabbit goes from a1, the silver one goes on from h6.
const WALK: [Row; 13] = [
    (b"1", b"Ra2 rh6", b"rh6s"),
    (b"1", b"Rb1 rh6", b"rh6s"),
    (b"1", b"Ra3 rh6", b"rh6s"),
    (b"1", b"Rb2 rh6", b"rh6s"),
    (b"1", b"Rc1 rh6", b"rh6s"),
    (b"1", b"Ra4 rh6", b"rh6s"),
    (b"1", b"Rb3 rh6", b"rh6s"),
    (b"1", b"Rc2 rh6", b"rh6s"),
    (b"1", b"Rd1 rh6", b"rh6s"),
    (b"1", b"Ra5 rh6", b"rh6s"),
    (b"1", b"Rb4 rh6", b"rh6s"),
    (b"1", b"Rd2 rh6", b"rh6s"),
    (b"1", b"Re1 rh6", b"rh6s"),
];

// The pieces of a root with Silver to move, a number of turns, escapes from Gold, and what is
// found: no flaw, or the escape and its flaw.
const SMALL: [(&[u8], u8, &[Row], u64, Option<Flaw>); 20] = [
    (b"Ra2 rh6", 0, &[], 0, None),
    (b"Ra2 rh1", 9, &[], 0, None),
    (b"Ra2 rh6", 1, &[(b"1", b"Ra2 rh6", b"rh6s")], 0, None),
    (b"Ra2 rh6", 2, &[(b"2", b"Ra2 rh6", b"rh6s")], 0, None),
    (
        b"Ra2 rh6",
        1,
        &[(b"1", b"Ra2 rh6", b"rh6s"), (b"1", b"Ra2 rh6", b"rh6w")],
        2,
        Some(Flaw::Twice),
    ),
    (
        b"Ra2 rh6",
        1,
        &[
            (b"1", b"Ra2 rh6", b"rh6s"),
            (b"1", b"Ra3 rh6", b"rh6s"),
            (b"2", b"Ra2 rh6", b"rh6s"),
        ],
        3,
        Some(Flaw::Twice),
    ),
    (
        b"Ra2 rh6",
        0,
        &[(b"1", b"Ra8 rh6", b"rh6s")],
        1,
        Some(Flaw::Decided),
    ),
    (
        b"Ra2 rh6",
        0,
        &[(b"1", b"Ra2 rh1", b"rh1w")],
        1,
        Some(Flaw::Decided),
    ),
    (
        b"Ra2 rh6",
        0,
        &[(b"1", b"Ra2 rh6", b"rh6n")],
        1,
        Some(Flaw::Turn),
    ),
    (
        b"Ra2 rh6",
        0,
        &[(b"1", b"Ra2 rh6", b"rh6s rh5s Rc3x")],
        1,
        Some(Flaw::Turn),
    ),
    (
        b"Ra2 rf7 rh6",
        0,
        &[(b"1", b"Ra2 rf7 rh6", b"rf7s")],
        1,
        Some(Flaw::Turn),
    ),
    (
        b"Ra2 rf7 rh6",
        0,
        &[(b"1", b"Ra2 rf7 rh6", b"rf7s rf6x")],
        0,
        None,
    ),
    (
        b"Ra2 rh6",
        0,
        &[(b"1", b"Ra2 rf7", b"rf7s rf6x")],
        1,
        Some(Flaw::Lost),
    ),
    (
        b"Ra2 rh6",
        0,
        &[(b"1", b"Ra7 ea6 rh6", b"Ra7n ea6n")],
        1,
        Some(Flaw::Lost),
    ),
    (
        b"Ra2 rh6",
        0,
        &[(b"2", b"Ra5 rh6", b"rh6s")],
        1,
        Some(Flaw::Reply),
    ),
    (
        b"Ra2 rh6",
        0,
        &[(b"3", b"Ra2 rh6", b"rh6s")],
        1,
        Some(Flaw::Reply),
    ),
    (b"Ra2 rh6", 1, &[], 0, Some(Flaw::Root)),
    (
        b"Ra2 rh6",
        2,
        &[(b"1", b"Ra2 rh6", b"rh6s")],
        0,
        Some(Flaw::Root),
    ),
    (b"Ra8 rh6", 0, &[], 0, Some(Flaw::Root)),
    (b"Ra2", 0, &[], 0, Some(Flaw::Root)),
];

// The position of these pieces, each a letter and a square.
fn position(pieces: &[u8], side: Color) -> Result<Position, Fail> {
    let mut board = Board::empty();
    for piece in pieces.chunks(4) {
        let [letter, column, row, ..] = piece else {
            return Err("a piece without a square".into());
        };
        let number = row
            .wrapping_sub(b'1')
            .wrapping_mul(8)
            .wrapping_add(column.wrapping_sub(b'a'));
        board.put(
            Square::new(number).ok_or("off the board")?,
            Piece::from_letter(*letter),
        );
    }
    Ok(Position { board, side })
}

// These escapes from Gold, by way of their text.
fn escapes(alloc: Global, rows: &[Row]) -> Result<Vec<u8>, Fail> {
    let mut text = Vec::new(alloc);
    for (depth, pieces, turn) in rows {
        text.extend_from_slice(depth)?;
        text.push(b' ')?;
        text.extend_from_slice(&board_text(&position(pieces, Color::Silver)?.board))?;
        text.push(b' ')?;
        text.extend_from_slice(turn)?;
        text.push(b'\n')?;
    }
    Ok(text)
}

// What is found of escapes from Gold after these positions, the last of which is the root.
fn found(
    alloc: Global,
    before: &[Position],
    n: u8,
    room: u32,
    rows: &[Row],
) -> Result<Verified, Fail>
    requires some { 1 ≤ room }
    requires most { room ≤ 1048576 }
{
    let mut history = History::new(alloc);
    for p in before {
        history.push(*p)?;
    }
    if history.last().is_none() {
        return Err("no root".into());
    }
    let text = escapes(alloc, rows)?;
    let escapes = read_escapes(alloc, &text, Color::Gold)?;
    let mut region = Region::with_room(alloc, room)?;
    Ok(verify(&history, Color::Gold, n, &escapes, &mut region))
}

// An answer.
fn answer(number: u64, flaw: Option<Flaw>) -> Verified {
    match flaw {
        None => Verified::Accepted,
        Some(why) => Verified::Refused { entry: number, why },
    }
}

#[test]
fn small_escapes(rt: HostRuntime) -> Result<(), Fail> {
    for (pieces, n, rows, number, flaw) in SMALL {
        let root = position(pieces, Color::Silver)?;
        assert_eq!(rt;
            found(rt.alloc(), &[root], n, 4096, rows)?,
            answer(number, flaw)
        );
    }
    Ok(())
}

// The walk with another depth in its first escape.
fn deeper(depth: &'static [u8]) -> [Row; 13] {
    let mut rows = WALK;
    rows[0] = (depth, b"Ra2 rh6", b"rh6s");
    rows
}

#[test]
fn a_walk_away(rt: HostRuntime) -> Result<(), Fail> {
    let root = position(b"Ra1 rh6", Color::Gold)?;
    assert_eq!(rt;
        found(rt.alloc(), &[root], 2, 64, &WALK)?,
        Verified::Accepted
    );
    assert_eq!(rt;
        found(rt.alloc(), &[root], 3, 64, &WALK)?,
        answer(0, Some(Flaw::Root))
    );
    assert_eq!(rt;
        found(rt.alloc(), &[root], 2, 64, &WALK[1..])?,
        answer(0, Some(Flaw::Root))
    );
    assert_eq!(rt;
        found(rt.alloc(), &[root], 2, 64, &deeper(b"2"))?,
        Verified::Accepted
    );
    assert_eq!(rt;
        found(rt.alloc(), &[root], 2, 64, &deeper(b"3"))?,
        answer(1, Some(Flaw::Reply))
    );
    Ok(())
}

#[test]
fn too_little_room(rt: HostRuntime) -> Result<(), Fail> {
    let root = position(b"Ra1 rh6", Color::Gold)?;
    let reached = position(b"Ra2 rh5", Color::Gold)?;
    assert_eq!(rt;
        found(rt.alloc(), &[root], 2, 14, &WALK)?,
        Verified::Accepted
    );
    let crowded = Verified::Crowded { position: root };
    assert_eq!(rt; found(rt.alloc(), &[root], 2, 13, &WALK)?, crowded);
    let crowded = Verified::Crowded { position: reached };
    assert_eq!(rt; found(rt.alloc(), &[root], 2, 13, &deeper(b"2"))?, crowded);
    // nothing is asked for where no turn is left
    assert_eq!(rt;
        found(rt.alloc(), &[root], 0, 1, &WALK)?,
        Verified::Accepted
    );
    Ok(())
}

#[test]
fn a_barred_result(rt: HostRuntime) -> Result<(), Fail> {
    // the silver rabbit may not come to h5, where it stood twice with Gold to move
    let reached = position(b"Ra2 rh5", Color::Gold)?;
    let root = position(b"Ra1 rh6", Color::Gold)?;
    let refused = answer(1, Some(Flaw::Turn));
    assert_eq!(rt;
        found(rt.alloc(), &[reached, reached, root], 2, 64, &WALK)?,
        refused
    );
    Ok(())
}
