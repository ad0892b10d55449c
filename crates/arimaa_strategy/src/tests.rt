//! Strategies that are accepted and refused, and texts with a bad line.
ghost use Rattle.std.specs.Prelude.{◌≤◌};

use crate::{Checked, Strategy, StrategyFault, Why, check, read_strategy, strategy_text};
use arimaa_board::{Board, Color, Piece, Position, Square, board_text};
use arimaa_history::History;
use arimaa_region::Region;
use std::alloc::Global;
use std::test::Fail;

// An entry: its rank, its pieces, and its turn.
type Row = (&'static [u8], &'static [u8], &'static [u8]);

// A gold rabbit goes to a4, and then to a8 whatever the silver rabbit does.
const RUN: [Row; 12] = [
    (b"3", b"Ra1 rh6", b"Ra1n Ra2n Ra3n"),
    (b"1", b"Ra4 rh5", b"Ra4n Ra5n Ra6n Ra7n"),
    (b"1", b"Ra4 rg6", b"Ra4n Ra5n Ra6n Ra7n"),
    (b"1", b"Ra4 rh4", b"Ra4n Ra5n Ra6n Ra7n"),
    (b"1", b"Ra4 rg5", b"Ra4n Ra5n Ra6n Ra7n"),
    (b"1", b"Ra4 rh3", b"Ra4n Ra5n Ra6n Ra7n"),
    (b"1", b"Ra4 rg4", b"Ra4n Ra5n Ra6n Ra7n"),
    (b"1", b"Ra4 rf5", b"Ra4n Ra5n Ra6n Ra7n"),
    (b"1", b"Ra4 rh2", b"Ra4n Ra5n Ra6n Ra7n"),
    (b"1", b"Ra4 rg3", b"Ra4n Ra5n Ra6n Ra7n"),
    (b"1", b"Ra4 rf4", b"Ra4n Ra5n Ra6n Ra7n"),
    (b"1", b"Ra4 re5", b"Ra4n Ra5n Ra6n Ra7n"),
];

// The pieces of a root with Gold to move, a number of turns, entries for Gold, and what is found:
// the rank and no fault, or the entry and its fault.
const SMALL: [(&[u8], u8, &[Row], u64, Option<Why>); 18] = [
    (
        b"Ra7 Ed4 rh7",
        1,
        &[(b"1", b"Ra7 Ed4 rh7", b"Ra7n")],
        1,
        None,
    ),
    (
        b"Ra7 Ed4 rh7",
        0,
        &[(b"1", b"Ra7 Ed4 rh7", b"Ra7n")],
        0,
        Some(Why::Deep),
    ),
    (b"Ra8 Ed4 rh7", 0, &[], 0, None),
    (b"Ra7 Ed4 rh7", 9, &[], 0, Some(Why::Root)),
    (b"Rh5 ra1", 9, &[], 0, Some(Why::Root)),
    (
        b"Ra7 Ed4 rh7",
        9,
        &[
            (b"1", b"Ra7 Ed4 rh7", b"Ra7n"),
            (b"1", b"Ra7 Ed4 rh7", b"Ra7n"),
        ],
        2,
        Some(Why::Twice),
    ),
    (
        b"Ra7 Ed4 rh7",
        9,
        &[(b"1", b"Ra8 Ed4 rh7", b"Ra8e")],
        1,
        Some(Why::Decided),
    ),
    (
        b"Ra7 Ed4 rh7",
        9,
        &[(b"1", b"Ra7 Ed4", b"Ra7n")],
        1,
        Some(Why::Decided),
    ),
    (
        b"Ra7 Ed4 rh7",
        9,
        &[(b"1", b"Ra7 Ed4 rh7", b"Ra7s")],
        1,
        Some(Why::Turn),
    ),
    (
        b"Ra7 Ed4 rh7",
        9,
        &[(b"1", b"Ra7 Ed4 rh7", b"Rb7n")],
        1,
        Some(Why::Turn),
    ),
    (
        b"Ra7 Ed4 rh7",
        9,
        &[(b"1", b"Ra7 Ed4 rh7", b"Ra7n Rc3x")],
        1,
        Some(Why::Turn),
    ),
    (
        b"Rc2 Ra7 rh7",
        9,
        &[(b"1", b"Rc2 Ra7 rh7", b"Rc2n Ra7n")],
        1,
        Some(Why::Turn),
    ),
    (
        b"Rc2 Ra7 rh7",
        9,
        &[(b"1", b"Rc2 Ra7 rh7", b"Rc2n Rc3x Ra7n")],
        1,
        None,
    ),
    (
        b"Rc2 Ed4 rh7",
        9,
        &[(b"1", b"Rc2 Eh4 rh7", b"Rc2n Rc3x")],
        1,
        Some(Why::Lost),
    ),
    (
        b"Ra4 Eb3 rb2",
        9,
        &[(b"1", b"Ra4 Eb3 rb2", b"rb2s Eb3s")],
        1,
        Some(Why::Lost),
    ),
    (
        b"Ra1 rh2",
        9,
        &[(b"2", b"Ra1 rh2", b"Ra1n")],
        1,
        Some(Why::Reply),
    ),
    (
        b"Ra7 Ed4 rh7",
        9,
        &[(b"2", b"Ra7 Ed4 rh7", b"Ra7n")],
        1,
        Some(Why::Rank),
    ),
    (
        b"Ra7 Ed4 rh7",
        9,
        &[(b"0", b"Ra7 Ed4 rh7", b"Ra7n")],
        1,
        Some(Why::Rank),
    ),
];

// Texts, and their first bad line.
const BAD: [(&[u8], u64); 16] = [
    (
        b"1 [        R      r                   E                            ]",
        1,
    ),
    (
        b"1 [        R      r                   E                            ] ",
        1,
    ),
    (
        b"1 [        R      r                   E                            ]Ra7n",
        1,
    ),
    (
        b"1[        R      r                   E                            ] Ra7n",
        1,
    ),
    (
        b"[        R      r                   E                            ] Ra7n",
        1,
    ),
    (
        b"100 [        R      r                   E                            ] Ra7n",
        1,
    ),
    (
        b"01 [        R      r                   E                            ] Ra7n",
        1,
    ),
    (
        b"+1 [        R      r                   E                            ] Ra7n",
        1,
    ),
    (
        b"1 [        R      r                   E                           ] Ra7n",
        1,
    ),
    (
        b"1 [        R      r                   E                             ] Ra7n",
        1,
    ),
    (
        b"1 [        RRRRRRRRRr                 E                            ] Ra7n",
        1,
    ),
    (
        b"1 [        R      r                   E                            ] Ra1n Ra2n Ra3n Ra4n Ra5n",
        1,
    ),
    (
        b"1 [        R      r                   E                            ] Rc3x Ra7n",
        1,
    ),
    (b"1 [        R      r      ", 1),
    (b"\n# none\n\t\nstrategy\n", 4),
    (
        b"1 [        R      r                   E                            ] Ra7n\r\n\r\n2\n",
        3,
    ),
];

// A text with blanks and comments, and how it is written.
const LOOSE: &[u8] =
    b"# a comment\r\n\n \t1\t [        R      r  x  X             E      x                     ]\t Ra7n\tRa8e  \r\n0 [        R      r                   E                            ] Ed4n cc3x";

const PLAIN: &[u8] =
    b"1 [        R      r                   E                            ] Ra7n Ra8e\n0 [        R      r                   E                            ] Ed4n cc3x\n";

// The position of these pieces, each a letter and a square.
fn position(pieces: &[u8], side: Color) -> Result<Position, Fail> {
    let mut board = Board::empty();
    for piece in pieces.chunks(4) {
        let [letter, column, row, ..] = piece else {
            return Err("a piece without a square".into());
        };
        let number = row
            .wrapping_sub(b'1')
            .wrapping_mul(8)
            .wrapping_add(column.wrapping_sub(b'a'));
        board.put(
            Square::new(number).ok_or("off the board")?,
            Piece::from_letter(*letter),
        );
    }
    Ok(Position { board, side })
}

// The strategy of these entries for Gold, by way of its text.
fn strategy(alloc: Global, rows: &[Row]) -> Result<Strategy, Fail> {
    let mut text = Vec::new(alloc);
    for (rank, pieces, turn) in rows {
        text.extend_from_slice(rank)?;
        text.push(b' ')?;
        text.extend_from_slice(&board_text(&position(pieces, Color::Gold)?.board))?;
        text.push(b' ')?;
        text.extend_from_slice(turn)?;
        text.push(b'\n')?;
    }
    Ok(read_strategy(alloc, &text, Color::Gold)?)
}

// What is found of entries for Gold after these positions, the last of which is the root.
fn found(
    alloc: Global,
    before: &[Position],
    n: u8,
    room: u32,
    rows: &[Row],
) -> Result<Checked, Fail>
    requires some { 1 ≤ room }
    requires most { room ≤ 1048576 }
{
    let mut history = History::new(alloc);
    for p in before {
        history.push(*p)?;
    }
    if history.last().is_none() {
        return Err("no root".into());
    }
    let strategy = strategy(alloc, rows)?;
    let mut region = Region::with_room(alloc, room)?;
    Ok(check(&history, Color::Gold, n, &strategy, &mut region))
}

#[test]
fn small_strategies(rt: HostRuntime) -> Result<(), Fail> {
    for (pieces, n, rows, number, fault) in SMALL {
        let root = position(pieces, Color::Gold)?;
        assert_eq!(rt;
            found(rt.alloc(), &[root], n, 4096, rows)?,
            answer(number, fault)
        );
    }
    Ok(())
}

// Of the run from a root: the number of entries left out at its front, one entry that is put in the
// place of another, with its rank, a number of turns, and what is found. Without its first entry
// the root is its reply.
const RUNS: [(usize, usize, usize, &[u8], u8, u64, Option<Why>); 9] = [
    (0, 0, 0, b"3", 3, 3, None),
    (0, 0, 0, b"3", 2, 0, Some(Why::Deep)),
    (1, 0, 0, b"3", 2, 2, None),
    (1, 0, 0, b"3", 1, 0, Some(Why::Deep)),
    (12, 0, 0, b"3", 9, 0, Some(Why::Root)),
    (0, 0, 0, b"5", 5, 1, Some(Why::Rank)),
    (0, 1, 1, b"3", 3, 1, Some(Why::Rank)),
    (0, 1, 2, b"1", 3, 1, Some(Why::Reply)),
    (1, 11, 1, b"1", 3, 11, Some(Why::Twice)),
];

// An answer.
fn answer(number: u64, fault: Option<Why>) -> Checked {
    match fault {
        None => Checked::Accepted {
            rank: (number % 256) as u8,
        },
        Some(why) => Checked::Refused { entry: number, why },
    }
}

// The run with one of its entries in the place of another, and that one's rank.
fn changed(place: usize, entry: usize, rank: &'static [u8]) -> [Row; 12] {
    let mut rows = RUN;
    if place < 12 && entry < 12 {
        let (_, pieces, turn) = RUN[entry];
        rows[place] = (rank, pieces, turn);
    }
    rows
}

// The rows after so many, if there are any.
fn after(rows: &[Row], count: usize) -> &[Row] {
    if count <= rows.len() {
        &rows[count..]
    } else {
        rows
    }
}

#[test]
fn a_run_to_the_goal(rt: HostRuntime) -> Result<(), Fail> {
    for (left_out, place, entry, rank, n, number, fault) in RUNS {
        let root = if left_out == 0 {
            position(b"Ra1 rh6", Color::Gold)?
        } else {
            position(b"Ra4 rh6", Color::Silver)?
        };
        let rows = changed(place, entry, rank);
        assert_eq!(rt;
            found(rt.alloc(), &[root], n, 20, after(&rows, left_out))?,
            answer(number, fault)
        );
    }
    Ok(())
}

#[test]
fn too_little_room(rt: HostRuntime) -> Result<(), Fail> {
    let reply = position(b"Ra4 rh6", Color::Silver)?;
    let root = position(b"Ra1 rh6", Color::Gold)?;
    let crowded = Checked::Crowded { position: reply };
    assert_eq!(rt; found(rt.alloc(), &[root], 3, 1, &RUN)?, crowded);
    assert_eq!(rt; found(rt.alloc(), &[reply], 3, 1, &[])?, crowded);
    Ok(())
}

#[test]
fn a_barred_result(rt: HostRuntime) -> Result<(), Fail> {
    // the rabbit may not come to a4, where it stood twice with Silver to move
    let reply = position(b"Ra4 rh6", Color::Silver)?;
    let root = position(b"Ra1 rh6", Color::Gold)?;
    let refused = answer(1, Some(Why::Turn));
    assert_eq!(rt;
        found(rt.alloc(), &[reply, reply, root], 3, 20, &RUN)?,
        refused
    );
    Ok(())
}

#[test]
fn texts(rt: HostRuntime) -> Result<(), Fail> {
    for (text, bad) in BAD {
        match read_strategy(rt.alloc(), text, Color::Gold) {
            Err(StrategyFault::Text { line }) => assert_eq!(rt; line, bad),
            _ => assert!(rt; false, "a strategy"),
        }
    }
    let strategy = read_strategy(rt.alloc(), LOOSE, Color::Silver)?;
    assert_eq!(rt; strategy.entries().len(), 2);
    assert_eq!(rt; strategy_text(rt.alloc(), &strategy)?.as_slice(), PLAIN);
    Ok(())
}
