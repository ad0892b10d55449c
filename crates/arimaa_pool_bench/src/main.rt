//! Times the prover, by the words `COMMAND MOVER ATTACKER DEPTH WORKERS LINES BOARD`. The command
//! `count` asks about a position at growing depths up to the first yes, as one worker does, and
//! counts every question that is opened; `prove` proves with so many workers. MOVER and ATTACKER
//! are `gold` or `silver`, and BOARD is a board's text. Without words it proves a small position.
#![tactic(auto)]

ghost use Rattle.std.specs.Prelude.{◌≡◌, ◌≤◌};
ghost use Rattle.arimaa_pool.specs.Limits.{AreWithinLimits};

#[cfg(test)]
mod tests;

use anyhow::{Result, anyhow};
use arimaa_board::{Board, Color, Piece, Position, Square, read_board};
use arimaa_history::{Barred, History};
use arimaa_pool::{NoGate, Settings, Verdict, prove};
use arimaa_search::{Asked, Worker};
use arimaa_table::Table;
use std::alloc::{AllocError, Global};
use std::env;
use std::rt::Clock;
use std::thread::Threads;
use std::time::Instant;

// How many positions a worker may hold.
const ROOM: u32 = 262_144;

// How many questions may be opened to answer one.
const BUDGET: u64 = 1 << 40;

// How many questions are opened where the attacker's win is asked about at depth 0, 1 and so on, up
// to the first yes or to `depth`.
fn questions(
    alloc: Global,
    p: &Position,
    attacker: Color,
    depth: u8,
    lines: u32,
) -> Result<u64, AllocError>
    requires depth { depth ≤ 20 }
    requires lines { 1 ≤ lines }
{
    let (table, mut pass) = Table::new(alloc, lines, attacker, &Barred::new(alloc))?;
    let mut worker = Worker::new(alloc, ROOM, BUDGET)?;
    let mut opened = 0u64;
    for turns in 0..depth + 1 {
        let answer = worker.ask(&table, &mut pass, p, turns);
        opened = opened.saturating_add(worker.counted());
        if answer == Asked::Yes {
            break;
        }
    }
    Ok(opened)
}

// The verdict by so many workers.
fn verdict<R: AllocGlobal + Threads + Sync>(
    rt: &R,
    p: &Position,
    attacker: Color,
    depth: u8,
    settings: &Settings,
) -> Result<Verdict, AllocError>
    requires depth { depth ≤ 20 }
    requires settings { AreWithinLimits settings.now }
{
    let mut history = History::new(rt.alloc());
    history.push(*p)?;
    prove(rt, &history, attacker, depth, settings, &NoGate)
}

// What is printed of a verdict.
fn print_verdict<R: Print>(rt: &R, verdict: &Verdict) -> Result<()> {
    match verdict {
        Verdict::Yes { rank, strategy } => {
            let entries = strategy.entries().len();
            println!(rt; "yes {rank} entries {entries}")?
        }
        Verdict::No => println!(rt; "no")?,
        Verdict::Spent { counted, .. } => println!(rt; "spent {counted}")?,
        Verdict::Crowded { depth, .. } => println!(rt; "crowded at depth {depth}")?,
    }
    Ok(())
}

// A number from `least` to `most`, or `least`.
fn number(text: &str, least: u32, most: u32) -> u32
    requires { least ≤ most }
    ensures low { least ≤ result }
    ensures high { result ≤ most }
{
    match text.parse::<u32>() {
        Ok(n) => n.clamp(least, most),
        Err(_) => least,
    }
}

// The side of a word.
fn side(word: &str) -> Color {
    match word {
        "silver" => Color::Silver,
        _ => Color::Gold,
    }
}

// A gold rabbit on a1 and a silver one on h6.
fn two_rabbits() -> Option<Position> {
    let mut board = Board::empty();
    board.put(Square::new(0)?, Piece::from_letter(b'R'));
    board.put(Square::new(47)?, Piece::from_letter(b'r'));
    Some(Position {
        board,
        side: Color::Gold,
    })
}

// Counts the questions, and says how long it took.
fn run_count<R: AllocGlobal + Print + Clock>(
    rt: &R,
    p: &Position,
    attacker: Color,
    depth: u8,
    lines: u32,
) -> Result<()>
    requires depth { depth ≤ 20 }
    requires lines { 1 ≤ lines }
{
    let start = Instant::now(rt)?;
    let opened = questions(rt.alloc(), p, attacker, depth, lines)?;
    let nanoseconds = start.elapsed(rt)?.as_nanos();
    println!(rt; "questions {opened} nanoseconds {nanoseconds}")?;
    Ok(())
}

// Proves, and says how long it took.
fn run_prove<R: AllocGlobal + Threads + Sync + Print + Clock>(
    rt: &R,
    p: &Position,
    attacker: Color,
    depth: u8,
    settings: &Settings,
) -> Result<()>
    requires depth { depth ≤ 20 }
    requires settings { AreWithinLimits settings.now }
{
    let start = Instant::now(rt)?;
    let verdict = verdict(rt, p, attacker, depth, settings)?;
    let nanoseconds = start.elapsed(rt)?.as_nanos();
    println!(rt; "nanoseconds {nanoseconds}")?;
    print_verdict(rt, &verdict)
}

fn main(rt: HostRuntime) -> Result<()> {
    let command = env::args(&rt)?.nth(1);
    let mover = env::args(&rt)?.nth(2);
    let attacker = env::args(&rt)?.nth(3);
    let depth = env::args(&rt)?.nth(4);
    let workers = env::args(&rt)?.nth(5);
    let lines = env::args(&rt)?.nth(6);
    let board = env::args(&rt)?.nth(7);
    let command = command.as_ref().map_or("", |word| word.as_str());
    let mover = side(mover.as_ref().map_or("", |word| word.as_str()));
    let attacker = side(attacker.as_ref().map_or("", |word| word.as_str()));
    let depth = number(depth.as_ref().map_or("", |word| word.as_str()), 0, 20) as u8;
    let workers = number(workers.as_ref().map_or("", |word| word.as_str()), 1, 15);
    let lines = number(lines.as_ref().map_or("", |word| word.as_str()), 1, 262_144);
    let board = read_board(board.as_ref().map_or("", |word| word.as_str()).as_bytes());
    let settings = Settings {
        workers,
        lines,
        budget: BUDGET,
        room: ROOM,
    };
    match board {
        Err(_) => {
            let small = two_rabbits().ok_or_else(|| anyhow!("off the board"))?;
            let verdict = verdict(&rt, &small, Color::Gold, 3, &settings)?;
            print_verdict(&rt, &verdict)
        }
        Ok(board) => {
            let p = Position { board, side: mover };
            match command {
                "count" => run_count(&rt, &p, attacker, depth, lines),
                _ => run_prove(&rt, &p, attacker, depth, &settings),
            }
        }
    }
}
