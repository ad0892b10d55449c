//! Measures lists of results at a position, given by the side to move and a board text: `list` by
//! layers, and `walk` the walk over all lists of steps that finds nothing. Each is made a number of
//! times, and the least time is told. `agree` tells whether the layers and the walk list the same
//! results in the same order, and how many.
#![tactic(auto)]

ghost use Rattle.std.specs.Prelude.{◌≡◌, ◌<◌, length};

use arimaa_board::{Color, Position, read_board};
use arimaa_history::Barred;
use arimaa_region::Region;
use arimaa_results::{first_turn, layered, results};
use std::alloc::AllocError;
use std::rt::Runtime;
use std::time::{Duration, Instant};
use std::{env, io};

#[cfg(test)]
mod tests;

const USAGE: &str = "usage: arimaa_results_bench list|walk|agree gold|silver BOARD [ROUNDS]";

// Lists the results and gives their places back; how many there were.
fn list(p: &Position, barred: &Barred, region: &mut Region) -> u32
    requires { length region.old.segments < 64 }
    ensures { region.new.segments ≡ region.old.segments }
{
    match results(p, barred, region) {
        Err(full) => full.live,
        Ok(mark) => {
            let (_, size) = region.segment(mark);
            region.release(mark);
            size
        }
    }
}

// How many results are listed, and the least time of some lists.
fn time_lists(
    rt: &(impl Runtime + AllocGlobal),
    p: &Position,
    rounds: u32,
) -> io::Result<(u32, Duration)> {
    let mut region = Region::with_work(rt.alloc(), 262_144, 32_768)?;
    let barred = Barred::new(rt.alloc());
    let mut least = Duration::MAX;
    let mut size = 0;
    for _ in 0..rounds {
        let start = Instant::now(rt)?;
        size = list(p, &barred, &mut region);
        least = least.min(start.elapsed(rt)?);
    }
    Ok((size, least))
}

// Whether anything was found, and the least time of some walks. What is looked for is the position
// itself, which no turn brings about, since the other side is then to move.
fn time_walks(
    rt: &(impl Runtime + AllocGlobal),
    p: &Position,
    rounds: u32,
) -> io::Result<(bool, Duration)> {
    let mut least = Duration::MAX;
    let mut found = false;
    for _ in 0..rounds {
        let start = Instant::now(rt)?;
        found = first_turn(p, p).is_some();
        least = least.min(start.elapsed(rt)?);
    }
    Ok((found, least))
}

// Whether two regions list the same positions in the same order.
fn same_lists(a: &Region, b: &Region) -> bool {
    if a.live() != b.live() {
        return false;
    }
    for place in 0..a.live() {
        if place < b.live() && a.get(place) != b.get(place) {
            return false;
        }
    }
    true
}

// Whether the layers and the walk list the same results, and how many the layers list. The region
// of the walk has room for one state alone, so its list is never made by layers.
fn lists_agree(rt: &impl AllocGlobal, p: &Position) -> Result<(bool, u32), AllocError> {
    let barred = Barred::new(rt.alloc());
    let mut by_layers = Region::with_work(rt.alloc(), 262_144, 32_768)?;
    let mut by_walk = Region::with_work(rt.alloc(), 262_144, 1)?;
    let listed = layered(p, &barred, &mut by_layers).is_ok()
        && results(p, &barred, &mut by_walk).is_ok();
    let agree = listed && same_lists(&by_layers, &by_walk);
    Ok((agree, by_layers.live()))
}

fn measure(
    rt: &(impl Runtime + AllocGlobal),
    p: &Position,
    word: &str,
    rounds: u32,
) -> io::Result<()> {
    match word {
        "list" => {
            let (size, least) = time_lists(rt, p, rounds)?;
            let nanoseconds = least.as_nanos();
            rt.println(format_args!("places {size} nanoseconds {nanoseconds}"))
        }
        "walk" => {
            let (found, least) = time_walks(rt, p, rounds)?;
            let nanoseconds = least.as_nanos();
            rt.println(format_args!("found {found} nanoseconds {nanoseconds}"))
        }
        "agree" => {
            let (agree, size) = lists_agree(rt, p)?;
            rt.println(format_args!("agree {agree} places {size}"))
        }
        _ => rt.println(format_args!("{USAGE}")),
    }
}

fn main(rt: HostRuntime) -> io::Result<()> {
    let word = env::args(&rt)?.nth(1);
    let side = env::args(&rt)?.nth(2);
    let text = env::args(&rt)?.nth(3);
    let rounds = env::args(&rt)?.nth(4);
    let word = word.as_ref().map_or("", |word| word.as_str());
    let side = match side.as_ref().map_or("", |side| side.as_str()) {
        "silver" => Color::Silver,
        _ => Color::Gold,
    };
    let rounds = rounds.as_ref().map_or("", |rounds| rounds.as_str());
    let rounds = rounds.parse::<u32>().unwrap_or(1);
    match read_board(text.as_ref().map_or("", |text| text.as_str()).as_bytes()) {
        Err(_) => println!(rt; "{USAGE}"),
        Ok(board) => measure(&rt, &Position { board, side }, word, rounds),
    }
}
