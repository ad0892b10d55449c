//! The command `play`: a match between two programs.
ghost use Rattle.std.specs.Prelude.{◌≡◌, ◌≢◌, ◌≤◌, IfNone, IfSome, codes};
ghost use Rattle.arimaa_outside.specs.Counts.{NeverFall};
ghost use Rattle.arimaa_judge.specs.Texts.{line};
ghost use Rattle.arimaa_outside.specs.declared.status.Status.TheVariants.{Memory, Words};
ghost use Rattle.arimaa_outside.specs.Writing.{EndsWith, Outputs};
ghost use Rattle.arimaa_match.specs.Programs.{spawned_of};
ghost use Rattle.arimaa_cli.specs.declared.play.Pairing.{Pairing as Match};
ghost use Rattle.arimaa_cli.specs.Play.{AsksNoMatch, AsksToPlay, Played, status_at};
ghost use Rattle.arimaa_cli.specs.Reading.{AsRead};

use crate::other_words::{as_read, other_words};
use crate::words::{TextWord, is_named, text_word};
use arimaa_match::{MatchEnd, match_text, play_programs};
use arimaa_outside::{Clock, CommandWords, Sink, Spawner, Status, write_answer};
use arimaa_time::{Control, read_control};
use std::alloc::Global;

/// A match that is asked for: the programs of both sides, and the time control.
#[derive(Drop)]
pub struct Pairing<'a> {
    /// Gold's program, a word that isn't empty and begins with no dash.
    pub gold: TextWord<'a>,
    /// Silver's program, such a word too.
    pub silver: TextWord<'a>,
    /// The time control.
    pub control: Control,
}

// The match that the words ask for: the name, both programs and a time control.
pub(crate) fn read_play(words: &CommandWords) -> Option<Pairing<'_>>
    ensures form { IfSome result (AsksToPlay words.now) }
    ensures none { IfNone result (AsksNoMatch words.now) }
{
    if !is_named(words, "play", 4) {
        return None;
    }
    let gold = text_word(words.get(1)?)?;
    let silver = text_word(words.get(2)?)?;
    let text = text_word(words.get(3)?)?;
    match read_control(text.as_bytes()) {
        Ok(control) => Some(Pairing {
            gold,
            silver,
            control,
        }),
        Err(_) => None,
    }
}

// The status of a match that has ended so.
fn status_at(ending: &MatchEnd) -> Status
    ensures { result ≡ status_at ending.now }
{
    match ending {
        MatchEnd::Won { .. } | MatchEnd::Limit => Status::Done,
        MatchEnd::Engine { .. } => Status::EngineFault,
    }
}

// Plays a match, and writes what came of it.
pub(crate) fn play<O: Sink, S: Spawner, K: Clock>(
    alloc: Global,
    asked: &Pairing,
    output: &mut O,
    spawner: &mut S,
    clock: &mut K,
) -> Status
    ensures played { Played S.Link.sent S.Link.answers S.Link.counts asked.now result
        (spawned_of S.waiting S.back S.answers spawner.old)
        (spawned_of S.waiting S.back S.answers spawner.new)
        (S.counts spawner.old) (S.counts spawner.new) (K.given clock.old) (K.given clock.new)
        (O.contents output.old) (O.contents output.new) }
    ensures output { Outputs result (O.contents output.old) (O.contents output.new)
        (O.faults output.old) (O.faults output.new) }
    ensures output_never_falls { O.faults output.old ≤ O.faults output.new }
    ensures engines_never_fall { NeverFall (S.counts spawner.old) (S.counts spawner.new) }
{
    let gold = asked.gold.as_str();
    let silver = asked.silver.as_str();
    match play_programs(alloc, spawner, gold, silver, &asked.control, clock) {
        Err(_) => Status::Memory,
        Ok(done) => match match_text(alloc, &done) {
            Err(_) => Status::Memory,
            Ok(text) => write_answer(output, status_at(&done.ending), &text),
        },
    }
}

/// Runs the command `play`, and refuses every other list of words: it starts two programs, plays a
/// match between them under a time control, and writes its record with how it has ended.
///
/// The status is 0 where a side has won or the limit was reached, and that of an engine's fault
/// where a program could not be started, ended, or broke the protocol. It waits for the engines, so
/// it need not return.
pub fn run_play<O: Sink, S: Spawner, K: Clock>(
    alloc: Global,
    words: &CommandWords,
    output: &mut O,
    spawner: &mut S,
    clock: &mut K,
) -> Status
    ensures played { AsRead words.now (λ read. (asked : Match) → AsksToPlay read asked
        → Played S.Link.sent S.Link.answers S.Link.counts asked result
        (spawned_of S.waiting S.back S.answers spawner.old)
        (spawned_of S.waiting S.back S.answers spawner.new)
        (S.counts spawner.old) (S.counts spawner.new) (K.given clock.old) (K.given clock.new)
        (O.contents output.old) (O.contents output.new)) }
    ensures bad_words { AsRead words.now (λ read. AsksNoMatch read → result ≢ Memory
        → EndsWith result (O.contents output.old) (O.contents output.new) Words
        (line (codes "bad words"))) }
    ensures spawner { AsRead words.now (λ read. AsksNoMatch read → spawner.new ≡ spawner.old) }
    ensures clock { AsRead words.now (λ read. AsksNoMatch read → clock.new ≡ clock.old) }
    ensures output { Outputs result (O.contents output.old) (O.contents output.new)
        (O.faults output.old) (O.faults output.new) }

    // No count of faults falls, nor one of what engines did.
    ensures output_never_falls { O.faults output.old ≤ O.faults output.new }
    ensures engines_never_fall { NeverFall (S.counts spawner.old) (S.counts spawner.new) }
{
    let Ok(other) = other_words(alloc, words) else {
        return Status::Memory;
    };
    match read_play(as_read(words, &other)) {
        Some(asked) => play(alloc, &asked, output, spawner, clock),
        None => write_answer(output, Status::Words, b"bad words\n"),
    }
}
