//! Positions that are refuted, and escapes that are found and verified.
ghost use Rattle.std.specs.Prelude.{◌≤◌};

use crate::{Refuted, Verified, escapes_text, read_escapes, refute, verify};
use arimaa_board::{Board, Color, Piece, Position, Square};
use arimaa_history::History;
use arimaa_region::Region;
use std::alloc::Global;
use std::test::Fail;

// A gold rabbit on a1 and a silver one on h6, Gold to move: won in three turns.
fn two_rabbits() -> Result<Position, Fail> {
    let mut board = Board::empty();
    board.put(
        Square::new(0).ok_or("off the board")?,
        Piece::from_letter(b'R'),
    );
    board.put(
        Square::new(47).ok_or("off the board")?,
        Piece::from_letter(b'r'),
    );
    Ok(Position {
        board,
        side: Color::Gold,
    })
}

// The answer on two rabbits.
fn refuted(alloc: Global, n: u8, budget: u64, room: u32) -> Result<Refuted, Fail>
    requires depth { n ≤ 20 }
    requires some { 1 ≤ room }
    requires most { room ≤ 1048576 }
{
    let mut history = History::new(alloc);
    history.push(two_rabbits()?)?;
    if history.last().is_none() {
        return Err("no root".into());
    }
    Ok(refute(alloc, &history, Color::Gold, n, 65_536, budget, room)?)
}

// What is found of the written form of the escapes of two rabbits, with their number.
fn verified(alloc: Global, n: u8) -> Result<(usize, Verified), Fail>
    requires { n ≤ 20 }
{
    let Refuted::Held(found) = refuted(alloc, n, 1_000_000, 1000)? else {
        return Err("not held".into());
    };
    let text = escapes_text(alloc, &found)?;
    let escapes = read_escapes(alloc, &text, Color::Gold)?;
    let mut history = History::new(alloc);
    history.push(two_rabbits()?)?;
    if history.last().is_none() {
        return Err("no root".into());
    }
    let mut region = Region::with_room(alloc, 1000)?;
    let answer = verify(&history, Color::Gold, n, &escapes, &mut region);
    Ok((escapes.entries().len(), answer))
}

#[test]
fn found_escapes_are_accepted(rt: HostRuntime) -> Result<(), Fail> {
    assert_eq!(rt; verified(rt.alloc(), 0)?, (0, Verified::Accepted));
    assert_eq!(rt; verified(rt.alloc(), 1)?, (0, Verified::Accepted));
    assert_eq!(rt; verified(rt.alloc(), 2)?, (13, Verified::Accepted));
    Ok(())
}

#[test]
fn other_answers(rt: HostRuntime) -> Result<(), Fail> {
    assert!(rt; matches!(&refuted(rt.alloc(), 3, 1_000_000, 1000)?, Refuted::Wins));
    assert!(rt;
        matches!(
            &refuted(rt.alloc(), 2, 1, 1000)?,
            Refuted::Spent {
                depth: 2,
                counted: 1,
                ..
            }
        )
    );
    assert!(rt;
        matches!(
            &refuted(rt.alloc(), 2, 1_000_000, 13)?,
            Refuted::Crowded { depth: 2, .. }
        )
    );
    Ok(())
}
