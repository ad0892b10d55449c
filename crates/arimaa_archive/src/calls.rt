//! The run: reads an archive, judges its records, and writes the report.
ghost use Rattle.std.specs.Prelude.{◌≡◌, ◌≤◌, ◌⊎◌, ℕ, List, IfOk, length};
ghost use Rattle.arimaa_outside.specs.declared.status.Status.TheVariants as outcome;
ghost use Rattle.arimaa_outside.specs.Writing.{Outputs};
ghost use Rattle.arimaa_archive.specs.Calls.{Answers, Inputs, IsAnswer};
ghost use Rattle.arimaa_archive.specs.Words.{AreInForm};
ghost use Rattle.arimaa_archive.specs.declared.words.TheConstants.{MOST_WORKERS as MOST};

use crate::laws::archive_answers_agree;
use crate::parts::{cut_at_game, first_content, parts_from};
use crate::report::{report, stray_text};
use crate::shares::judge_many;
use crate::words::read_workers;
use arimaa_outside::{
    CommandWords, INPUT_LIMIT, ReadAll, Sink, Source, Status, read_all, write_answer,
};
use arimaa_pool::NoGate;
use std::alloc::{AllocError, Global};
use std::thread::Threads;

// The status and the text of an answer.
#[derive(Drop)]
struct Reply {
    status: Status,
    text: Vec<u8>,
}

// What is answered about an archive of these bytes.
fn answer<R: Threads + Sync>(
    rt: &R,
    alloc: Global,
    bytes: &[u8],
    workers: u32,
) -> Result<Reply, AllocError>
    requires some { 1 ≤ workers }
    requires most { workers ≤ MOST }
    requires few { length bytes.now ≤ INPUT_LIMIT }
    ensures answer { IfOk result (λ reply. (words : List (List ℕ)) → AreInForm words
        → IsAnswer words bytes.now reply.status reply.text.items) }
    ensures status { IfOk result (λ reply. (reply.status ≡ outcome.Done)
        ⊎ (reply.status ≡ outcome.Answered)) }
{
    let cut = cut_at_game(bytes);
    let (front, _) = bytes.split_at(cut.before);
    if let Some(number) = first_content(front) {
        return Ok(Reply {
            status: Status::Answered,
            text: stray_text(alloc, number)?,
        });
    }
    let parts = parts_from(alloc, bytes, cut.after)?;
    let told = judge_many(rt, alloc, bytes, &parts, workers, &NoGate)?;
    Ok(Reply {
        status: Status::Done,
        text: report(rt, alloc, &told, workers)?,
    })
}

/// Judges the archive that the input is, and writes the report; ends with the status.
///
/// The words are none, or `--workers` and a number from 1 to 16, of threads; without words there
/// are 4. The report is the same for each number: a line `game K` for each record, the text that
/// the judge gives about it, and at the end how many records there are, how many of them lawful and
/// bad. Where a line with content stands before the first line `game`, the answer is `no game` and
/// its number, and the status 1. Nothing is written before the input is read to its end. Nobody is
/// waited for.
pub fn run_archive<R: Threads + Sync, I: Source, O: Sink>(
    rt: &R,
    alloc: Global,
    words: &CommandWords,
    input: &mut I,
    output: &mut O,
) -> Status
    ensures answers { Answers words.now result (I.remaining input.old)
        (O.contents output.old) (O.contents output.new) }
    ensures input { Inputs words.now result (I.remaining input.old) (I.remaining input.new)
        (I.faults input.old) (I.faults input.new) }
    ensures unread { (AreInForm words.now → ⊥) → input.new ≡ input.old }
    ensures output { Outputs result (O.contents output.old) (O.contents output.new)
        (O.faults output.old) (O.faults output.new) }
{
    archive_answers_agree();
    let Some(workers) = read_workers(words) else {
        return write_answer(output, Status::Words, b"bad words\n");
    };
    match read_all(alloc, input) {
        Err(ReadAll::Fault) => Status::ReadFault,
        Err(ReadAll::TooLong) => write_answer(output, Status::TooLong, b"too long\n"),
        Err(ReadAll::Memory) => Status::Memory,
        Ok(bytes) => match answer(rt, alloc, &bytes, workers) {
            Err(_) => Status::Memory,
            Ok(reply) => write_answer(output, reply.status, &reply.text),
        },
    }
}
