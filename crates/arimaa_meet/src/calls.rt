//! The run of a meet.
ghost use Rattle.std.specs.Prelude.{◌≡◌, ◌<◌, ◌≤◌, IfOk, codes, vec_len};
ghost use Rattle.arimaa_judge.specs.Texts.{line};
ghost use Rattle.arimaa_outside.specs.declared.status.Status.TheVariants as outcome;
ghost use Rattle.arimaa_meet.specs.declared.words.TheConstants.{MOST_PROGRAMS};
ghost use Rattle.arimaa_meet.specs.declared.words.Asked.{Asked as Wish};
ghost use Rattle.arimaa_meet.specs.Meets.{IsReport, MeetPlayed};
ghost use Rattle.arimaa_meet.specs.Seats.{seat_of};
ghost use Rattle.arimaa_meet.specs.Shares.{HavePlayed};
ghost use Rattle.arimaa_meet.specs.Words.{AsksForMeet, AsksForNoMeet};
ghost use Rattle.arimaa_meet.specs.Workers.{terms_of};
ghost use Rattle.arimaa_outside.specs.Writing.{EndsWith, Outputs};

use crate::gather::gather;
use crate::match_report::Told;
use crate::meet::Meet;
use crate::pairs::all_pairs;
use crate::report::report;
use crate::words::{Asked, read_meet};
use crate::workers::play_shares;
use arimaa_outside::{Clock, CommandWords, Sink, Spawner, Status, write_answer};
use std::alloc::{AllocError, Global};
use std::thread::Threads;

// Plays the matches of a meet. What is told of them stands in their order.
fn play_all<R: Threads + Sync, S: Spawner<Link: Send> + Send + Drop, K: Clock + Send + Drop>(
    rt: &R,
    alloc: Global,
    meet: &Meet,
    spawners: &mut Vec<S>,
    clocks: &mut Vec<K>,
) -> Result<Vec<Told>, AllocError>
    requires some { 0 < vec_len spawners.old }
    requires clocks { vec_len clocks.old ≡ vec_len spawners.old }
    requires workers { meet.now.workers ≡ vec_len spawners.old }
    ensures { IfOk result (λ told. HavePlayed S.Link.sent S.Link.answers S.Link.counts
        (seat_of S.waiting S.back S.answers S.counts K.given) (terms_of meet.now)
        meet.now.pairs.items spawners.old.items spawners.new.items clocks.old.items
        clocks.new.items told.items) }
{
    let shares = play_shares(rt, alloc, meet, spawners, clocks)?;
    gather(alloc, &meet.pairs, shares)
}

// Plays a meet, and gives its report.
fn play_meet<R: Threads + Sync, S: Spawner<Link: Send> + Send + Drop, K: Clock + Send + Drop>(
    rt: &R,
    alloc: Global,
    words: &CommandWords,
    asked: &Asked,
    spawners: &mut Vec<S>,
    clocks: &mut Vec<K>,
) -> Result<Vec<u8>, AllocError>
    requires programs { asked.now.programs ≤ MOST_PROGRAMS }
    requires some { 0 < vec_len spawners.old }
    requires clocks { vec_len clocks.old ≡ vec_len spawners.old }
    ensures { IfOk result (λ text. IsReport S.Link.sent S.Link.answers S.Link.counts
        (seat_of S.waiting S.back S.answers S.counts K.given) words.now asked.now
        spawners.old.items spawners.new.items clocks.old.items clocks.new.items text.items) }
{
    let meet = Meet {
        words,
        control: asked.control,
        pairs: all_pairs(alloc, asked.programs)?,
        workers: spawners.len(),
    };
    let told = play_all(rt, alloc, &meet, spawners, clocks)?;
    let text = report(alloc, asked.programs, &told)?;
    Ok(text)
}

/// Plays a meet of the programs that the words name, and writes its report; ends with the status.
///
/// The words are a time control and 2 to 8 programs, none of them empty or with a dash in front.
/// Each program plays each other one, by the number of the one that plays Gold and then by that of
/// the other. A program that cannot be started costs its own side alone, as every engine fault
/// does. The report has for each match a line `match` with its number and those of its programs,
/// then what `play` writes for it, and at the end a line for each program with its wins, its
/// losses, its matches that reached the limit of the game and its engine's faults.
///
/// Match k, from 0, is played over the spawner and the clock of the worker of number k modulo that
/// of the workers, of which there are as many as spawners, each in a thread of its own. The status
/// is 0 where the report is written, engine faults included. It waits for the engines, so it need
/// not return.
pub fn run_meet<
    R: Threads + Sync,
    O: Sink,
    S: Spawner<Link: Send> + Send + Drop,
    K: Clock + Send + Drop,
>(
    rt: &R,
    alloc: Global,
    words: &CommandWords,
    output: &mut O,
    spawners: &mut Vec<S>,
    clocks: &mut Vec<K>,
) -> Status
    requires some { 0 < vec_len spawners.old }
    requires clocks { vec_len clocks.old ≡ vec_len spawners.old }
    ensures played { (asked : Wish) → AsksForMeet words.now asked
        → MeetPlayed S.Link.sent S.Link.answers S.Link.counts
        (seat_of S.waiting S.back S.answers S.counts K.given) words.now asked
        spawners.old.items spawners.new.items clocks.old.items clocks.new.items
        result (O.contents output.old) (O.contents output.new) }
    ensures bad_words { AsksForNoMeet words.now → EndsWith result (O.contents output.old)
        (O.contents output.new) outcome.Words (line (codes "bad words")) }
    ensures spawners { AsksForNoMeet words.now → spawners.new ≡ spawners.old }
    ensures clocks { AsksForNoMeet words.now → clocks.new ≡ clocks.old }
    ensures output { Outputs result (O.contents output.old) (O.contents output.new)
        (O.faults output.old) (O.faults output.new) }
{
    match read_meet(words) {
        None => write_answer(output, Status::Words, b"bad words\n"),
        Some(asked) => match play_meet(rt, alloc, words, &asked, spawners, clocks) {
            Err(_) => Status::Memory,
            Ok(text) => write_answer(output, Status::Done, &text),
        },
    }
}
