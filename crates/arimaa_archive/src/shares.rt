//! The judges: the records of an archive are dealt to workers, each in a thread of its own.
ghost use Rattle.std.specs.Prelude.{◌≡◌, ◌<◌, ◌≤◌, ◌^◌, All, IfOk, length};
ghost use Rattle.std.specs.List.{AllZip};
ghost use Rattle.arimaa_archive.specs.Archive.{IsWithin};
ghost use Rattle.arimaa_archive.specs.Shares.{IsShare};
ghost use Rattle.arimaa_archive.specs.RecordJudgements.{IsToldOfPart};
ghost use Rattle.arimaa_archive.specs.declared.words.TheConstants.{MOST_WORKERS as MOST};

use crate::parts::Part;
use crate::record_judgement::Told;
use arimaa_judge::judge;
use arimaa_pool::Gate;
use std::alloc::{AllocError, Global};
use std::thread;
use std::thread::Threads;

// What is told of the record that a part of the bytes is.
fn judge_part(alloc: Global, bytes: &[u8], part: Part) -> Result<Told, AllocError>
    requires { IsWithin (length bytes.now) part }
    ensures { IfOk result (IsToldOfPart bytes.now part) }
{
    let judged = judge(alloc, &bytes[part.start..part.end])?;
    Ok(Told::of(&judged))
}

// What one of the workers tells of its records: of that of its own number, and of each that is as
// many further as there are workers.
fn judge_share<G: Gate>(
    alloc: Global,
    bytes: &[u8],
    parts: &[Part],
    worker: usize,
    workers: usize,
    gate: &G,
) -> Result<Vec<Told>, AllocError>
    requires worker { worker < workers }
    requires workers { workers ≤ MOST }
    requires few { length parts.now < 2 ^ 32 }
    requires within { All (IsWithin (length bytes.now)) parts.now }
    ensures { IfOk result (λ told. IsShare bytes.now parts.now worker workers told.items) }
{
    let mut told = Vec::new(alloc);
    let mut place = worker;
    'records: while place < parts.len() {
        gate.enter(place as u32);
        let judged = judge_part(alloc, bytes, parts[place]);
        gate.leave(place as u32);
        told.push(judged?)?;
        place += workers;
    }
    Ok(told)
}

/// Judges records, each of which is a part of the bytes, on so many workers. What is told of them
/// stands in the order of the parts. It fails for want of memory only, and waits for nobody.
///
/// The record in place k, from 0, is judged by the worker of number k modulo `workers`, which calls
/// the gate round it with k.
pub fn judge_many<R: Threads + Sync, G: Gate>(
    rt: &R,
    alloc: Global,
    bytes: &[u8],
    parts: &[Part],
    workers: u32,
    gate: &G,
) -> Result<Vec<Told>, AllocError>
    requires some { 1 ≤ workers }
    requires most { workers ≤ MOST }
    requires few { length parts.now < 2 ^ 32 }
    requires within { All (IsWithin (length bytes.now)) parts.now }
    ensures { IfOk result (λ told. AllZip (IsToldOfPart bytes.now) parts.now told.items) }
{
    let workers = workers as usize;
    let judge_worker = |worker: usize| -> Result<Vec<Told>, AllocError>
        requires { (worker < workers) × (workers ≤ MOST) × (length parts.now < 2 ^ 32)
            × All (IsWithin (length bytes.now)) parts.now }
        ensures { IfOk result (λ told.
            IsShare bytes.entry.now parts.entry.now worker workers told.items) }
    { judge_share(alloc, bytes, parts, worker, workers, gate) };
    let shares = thread::map_indices(rt, alloc, workers, &judge_worker)?;
    let mut told = Vec::new(alloc);
    'records: for place in 0..parts.len() {
        match &shares[place % workers] {
            Ok(share) => told.push(share[place / workers])?,
            Err(_) => return Err(AllocError),
        }
    }
    Ok(told)
}
