//! The matches of a meet.
ghost use Rattle.std.specs.Prelude.{◌≡◌, ◌<◌, IfOk};
ghost use Rattle.arimaa_meet.specs.Pairs.{program_word};
ghost use Rattle.arimaa_meet.specs.Seats.{seat_of};
ghost use Rattle.arimaa_meet.specs.Shares.{HasPlayedPair, HasPlayedShare};
ghost use Rattle.arimaa_meet.specs.Workers.{terms_of};

use crate::match_count::Counted;
use crate::match_report::Told;
use crate::pairs::Pair;
use arimaa_match::{match_text, play_programs};
use arimaa_outside::{Clock, CommandWords, Spawner};
use arimaa_time::Control;
use std::alloc::{AllocError, Global};

/// A meet, as its workers see it.
#[derive(Drop)]
pub(crate) struct Meet<'a> {
    /// The words that ask for it, with the programs in the places of their numbers.
    pub(crate) words: &'a CommandWords,
    /// The time control of each match.
    pub(crate) control: Control,
    /// The matches, in order.
    pub(crate) pairs: Vec<Pair>,
    /// How many workers there are.
    pub(crate) workers: usize,
}

// The program of this number.
fn program(words: &CommandWords, number: usize) -> &str
    ensures { result.now ≡ program_word words.now number }
{
    match words.get(number) {
        Some(word) => word,
        None => "",
    }
}

// Plays a match.
fn play_pair<S: Spawner, K: Clock>(
    alloc: Global,
    meet: &Meet,
    pair: Pair,
    spawner: &mut S,
    clock: &mut K,
) -> Result<Told, AllocError>
    ensures { IfOk result
        (HasPlayedPair S.Link.sent S.Link.answers S.Link.counts (terms_of meet.now) pair
        (seat_of S.waiting S.back S.answers S.counts K.given spawner.old clock.old)
        (seat_of S.waiting S.back S.answers S.counts K.given spawner.new clock.new)) }
{
    let gold = program(meet.words, pair.gold);
    let silver = program(meet.words, pair.silver);
    match play_programs(alloc, spawner, gold, silver, &meet.control, clock) {
        Err(e) => Err(e),
        Ok(done) => match match_text(alloc, &done) {
            Err(e) => Err(e),
            Ok(text) => Ok(Told {
                text,
                counted: Counted::of(pair, &done.ending),
            }),
        },
    }
}

/// Plays the matches that are dealt to one of the workers, one after another: those whose number,
/// from 0, modulo that of the workers, is its own.
pub(crate) fn play_share<S: Spawner, K: Clock>(
    alloc: Global,
    meet: &Meet,
    worker: usize,
    spawner: &mut S,
    clock: &mut K,
) -> Result<Vec<Told>, AllocError>
    requires some { 0 < meet.now.workers }
    ensures { IfOk result (λ told. HasPlayedShare S.Link.sent S.Link.answers S.Link.counts
        (terms_of meet.now) meet.now.pairs.items worker meet.now.workers
        (seat_of S.waiting S.back S.answers S.counts K.given spawner.old clock.old)
        (seat_of S.waiting S.back S.answers S.counts K.given spawner.new clock.new)
        told.items) }
{
    let mut told = Vec::new(alloc);
    'matches: for place in 0..meet.pairs.len() {
        if place % meet.workers != worker {
            continue;
        }
        told.push(play_pair(alloc, meet, meet.pairs[place], spawner, clock)?)?;
    }
    Ok(told)
}
