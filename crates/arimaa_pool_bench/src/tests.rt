//! Worked proofs.
ghost use Rattle.std.specs.Prelude.{◌≡◌, ◌≤◌};
ghost use Rattle.arimaa_pool.specs.Limits.{AreWithinLimits};

use super::*;
use arimaa_pool::{ChainGate, Gate, MeetGate};
use arimaa_strategy::Strategy;
use std::process::Abort;
use std::test::Fail;

// A gold rabbit and a silver one on these squares, Gold to move.
fn rabbits(gold: u8, silver: u8) -> Result<Position, Fail> {
    let mut board = Board::empty();
    let square = Square::new(gold).ok_or("off the board")?;
    board.put(square, Piece::from_letter(b'R'));
    let square = Square::new(silver).ok_or("off the board")?;
    board.put(square, Piece::from_letter(b'r'));
    Ok(Position {
        board,
        side: Color::Gold,
    })
}

// The verdict on a gold rabbit on a1 and a silver one on h6 within three turns.
fn within_three<R: AllocGlobal + Threads + Sync, G: Gate>(
    rt: &R,
    settings: &Settings,
    gate: &G,
) -> Result<Verdict, Fail>
    requires { AreWithinLimits settings.now }
{
    let mut history = History::new(rt.alloc());
    history.push(rabbits(0, 47)?)?;
    Ok(prove(rt, &history, Color::Gold, 3, settings, gate)?)
}

// Whether the entry of this number is on these rabbits, with this rank and so many steps.
fn is_entry(
    strategy: &Strategy,
    number: usize,
    place: (u8, u8),
    rank: u8,
    steps: usize,
) -> Result<bool, Fail> {
    let entry = strategy.entries().get(number).ok_or("no such entry")?;
    let position = rabbits(place.0, place.1)?;
    Ok(entry.position == position && entry.rank == rank && entry.turn.steps().len() == steps)
}

// Where the silver rabbit stands after each reply that has an entry: h5, g6, h4, g5, h3, g4, f5,
// h2, g3, f4 and e5.
const REPLIES: [u8; 11] = [39, 46, 31, 38, 23, 30, 37, 15, 22, 29, 36];

// Whether each of these replies has an entry, in this order, that leads the rabbit on a4 home.
fn are_replies_answered(strategy: &Strategy) -> Result<bool, Fail> {
    for k in 0..11 {
        if !is_entry(strategy, k + 1, (24, REPLIES[k]), 1, 4)? {
            return Ok(false);
        }
    }
    Ok(true)
}

// Whether the verdict is a win in three turns: the rabbit goes to a4, and home from there after
// each reply. The reply in which the silver rabbit dies on f6 has no entry.
fn is_home_in_three(verdict: &Verdict) -> Result<bool, Fail> {
    match verdict {
        Verdict::Yes { rank, strategy } => Ok(
            *rank == 3
                && strategy.entries().len() == 12
                && is_entry(strategy, 0, (0, 47), 3, 3)?
                && are_replies_answered(strategy)?,
        ),
        _ => Ok(false),
    }
}

// Whether so many workers with so many lines find the win in three turns.
fn finds_it<R: AllocGlobal + Threads + Sync>(rt: &R, workers: u32, lines: u32) -> Result<bool, Fail>
    requires workers { (1 ≤ workers) × (workers ≤ 16) }
    requires lines { (1 ≤ lines) × (lines ≤ 262144) }
{
    let settings = Settings {
        workers,
        lines,
        budget: 10_000_000,
        room: 1_000,
    };
    is_home_in_three(&within_three(rt, &settings, &NoGate)?)
}

// The rank and the strategy are the same for each number of workers and lines.
#[test]
fn any_number_of_workers(rt: HostRuntime) -> Result<(), Fail> {
    assert!(rt; finds_it(&rt, 1, 65_536)?);
    assert!(rt; finds_it(&rt, 2, 65_536)?);
    assert!(rt; finds_it(&rt, 16, 65_536)?);
    assert!(rt; finds_it(&rt, 1, 1)?);
    assert!(rt; finds_it(&rt, 16, 1)?);
    Ok(())
}

// Two workers are at work at once: each of the first two jobs waits for the other. One that asked
// all jobs would starve the gate.
#[test]
fn two_workers_meet(rt: HostRuntime) -> Result<(), Fail> {
    let settings = Settings {
        workers: 2,
        lines: 65_536,
        budget: 10_000_000,
        room: 1_000,
    };
    let gate = MeetGate::new();
    let verdict = within_three(&rt, &settings, &gate)?;
    assert!(rt; !gate.starved());
    assert!(rt; is_home_in_three(&verdict)?);
    Ok(())
}

// Two workers ask the jobs in turn, and job 5, the position after Ra4, costs 123. Nine of its
// leaves were met in lower jobs, two of them by its own worker alone and seven by the other one: so
// 115 questions are enough only where both workers share one table.
#[test]
fn lines_serve_the_other_worker(rt: HostRuntime) -> Result<(), Fail> {
    let settings = Settings {
        workers: 2,
        lines: 65_536,
        budget: 115,
        room: 1_000,
    };
    let gate = ChainGate::new(5);
    let verdict = within_three(&rt, &settings, &gate)?;
    assert!(rt; !gate.starved());
    assert!(rt; is_home_in_three(&verdict)?);
    Ok(())
}

// Two workers with passes of one table ask the same question, one after the other: the second finds
// the line of the first.
#[test]
fn a_line_serves_both(rt: HostRuntime) -> Result<(), Fail> {
    let barred = Barred::new(rt.alloc());
    let (table, mut first) = Table::new(rt.alloc(), 65_536, Color::Gold, &barred)?;
    let mut second = table.split(&mut first);
    let mut one = Worker::new(rt.alloc(), 1_000, 1_000)?;
    let mut other = Worker::new(rt.alloc(), 1_000, 1_000)?;
    let p = rabbits(0, 47)?;
    assert!(rt; one.ask(&table, &mut first, &p, 0) == Asked::No && one.counted() == 1);
    assert!(rt; other.ask(&table, &mut second, &p, 0) == Asked::No && other.counted() == 0);
    Ok(())
}

// A budget of one question is spent.
#[test]
fn budget_is_spent(rt: HostRuntime) -> Result<(), Fail> {
    let settings = Settings {
        workers: 1,
        lines: 1,
        budget: 1,
        room: 1_000,
    };
    let Verdict::Spent { counted, .. } = within_three(&rt, &settings, &NoGate)? else {
        return Err("not spent".into());
    };
    assert!(rt; counted == 1);
    Ok(())
}

// Room for one position is too little for the root's list.
#[test]
fn room_is_crowded(rt: HostRuntime) -> Result<(), Fail> {
    let settings = Settings {
        workers: 1,
        lines: 1,
        budget: 10_000_000,
        room: 1,
    };
    let Verdict::Crowded { depth, .. } = within_three(&rt, &settings, &NoGate)? else {
        return Err("not crowded".into());
    };
    assert!(rt; depth == 1);
    Ok(())
}
