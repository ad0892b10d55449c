//! Worked questions, with their counts.
ghost use Rattle.std.specs.Prelude.{◌≤◌};

use super::*;
use arimaa_board::{Board, Color, Piece, Position, Square};
use arimaa_history::Barred;
use arimaa_table::{Table, TablePass};
use std::alloc::Global;
use std::process::Abort;
use std::test::Fail;

// Gold is to move, and these pieces stand there, each by its letter and the number of its square.
fn position(pieces: &[(u8, u8)]) -> Result<Position, Fail> {
    let mut board = Board::empty();
    for (letter, number) in pieces {
        let square = Square::new(*number).ok_or("off the board")?;
        board.put(square, Piece::from_letter(*letter));
    }
    Ok(Position {
        board,
        side: Color::Gold,
    })
}

// A gold rabbit on a1 and a silver one on h6: won in three turns.
fn two_rabbits() -> Result<Position, Fail> {
    position(&[(b'R', 0), (b'r', 47)])
}

// A gold rabbit on a7, a gold elephant on d4 and a silver rabbit on h7: won in one turn.
fn rabbit_goes_home() -> Result<Position, Fail> {
    position(&[(b'R', 48), (b'E', 27), (b'r', 55)])
}

// The answer and the count of two rabbits within three turns, on a new table of so many lines.
fn asked_anew(alloc: Global, lines: u32, budget: u64) -> Result<(Asked, u64), Fail>
    requires { 1 ≤ lines }
{
    let (table, mut pass) = Table::new(alloc, lines, Color::Gold, &Barred::new(alloc))?;
    let mut worker = Worker::new(alloc, 1000, budget)?;
    let answer = worker.ask(&table, &mut pass, &two_rabbits()?, 3);
    Ok((answer, worker.counted()))
}

// With one line no question is met again in it, and each of the 215 is opened. With 65,536 lines
// those at depth 0 that differ in the gold rabbit alone are met again, and at most ten of them are
// lost.
#[test]
fn lines_serve_inner_questions(rt: HostRuntime) -> Result<(), Fail> {
    let spent = |counted: u64| -> Result<Asked, Fail> {
        Ok(Asked::Spent {
            position: two_rabbits()?,
            depth: 3,
            counted,
        })
    };
    assert!(rt; asked_anew(rt.alloc(), 1, 1_000_000)? == (Asked::Yes, 215));
    assert!(rt; asked_anew(rt.alloc(), 1, 215)? == (Asked::Yes, 215));
    assert!(rt; asked_anew(rt.alloc(), 1, 214)? == (spent(214)?, 214));
    assert!(rt; asked_anew(rt.alloc(), 1, 180)? == (spent(180)?, 180));
    let (answer, counted) = asked_anew(rt.alloc(), 65_536, 180)?;
    assert!(rt; answer == Asked::Yes);
    assert!(rt; 153 <= counted && counted <= 163);
    Ok(())
}

// A bound answers each depth beyond it.
#[test]
fn one_line_answers_many_depths(rt: HostRuntime) -> Result<(), Fail> {
    let (table, mut pass) = Table::new(rt.alloc(), 65_536, Color::Gold, &Barred::new(rt.alloc()))?;
    let mut worker = Worker::new(rt.alloc(), 10_000, 1_000)?;
    // each question with its answer and count, in turn
    let home = rabbit_goes_home()?;
    let far = two_rabbits()?;
    assert!(rt; worker.ask(&table, &mut pass, &home, 0) == Asked::No && worker.counted() == 1);
    assert!(rt; worker.ask(&table, &mut pass, &home, 1) == Asked::Yes);
    assert!(rt; worker.ask(&table, &mut pass, &home, 5) == Asked::Yes && worker.counted() == 0);
    assert!(rt; worker.ask(&table, &mut pass, &far, 2) == Asked::No);
    assert!(rt; worker.ask(&table, &mut pass, &far, 0) == Asked::No && worker.counted() == 0);
    assert!(rt; worker.ask(&table, &mut pass, &far, 1) == Asked::No && worker.counted() == 0);
    Ok(())
}
