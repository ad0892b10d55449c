//! The workers of a meet: the matches are dealt to them, and each plays its own in a thread.
ghost use Rattle.std.specs.Prelude.{◌≡◌, ◌+◌, ◌<◌, ◌≤◌, ◌++◌, ◌∷◌, [], ℕ, IfOk, OnErr, length, map, slice_index_or, vec_capacity, vec_len};
ghost use Rattle.std.specs.List.{list_all};
ghost use Rattle.arimaa_meet.specs.Seats.{seat_of};
ghost use Rattle.arimaa_meet.specs.Shares.{HavePlayedShares};
ghost use Rattle.arimaa_meet.specs.Workers.{HasWorked, terms_of};

use crate::match_report::Told;
use crate::meet::{Meet, play_share};
use arimaa_outside::{Clock, Spawner};
use std::alloc::{AllocError, Global};
use std::thread;
use std::thread::Threads;

/// A worker of a meet, with a spawner and a clock of its own.
#[derive(Drop)]
pub(crate) struct Worker<S, K> {
    pub(crate) number: usize,
    pub(crate) spawner: S,
    pub(crate) clock: K,
    /// What it tells of its matches.
    pub(crate) told: Vec<Told>,
    /// Whether it played and told all of them.
    pub(crate) finished: bool,
}

// Lets a worker play its matches.
fn work<S: Spawner, K: Clock>(alloc: Global, meet: &Meet, worker: &mut Worker<S, K>)
    requires { 0 < meet.now.workers }
    ensures { HasWorked S.Link.sent S.Link.answers S.Link.counts
        (seat_of S.waiting S.back S.answers S.counts K.given) meet.now worker.old worker.new }
{
    let number = worker.number;
    match play_share(alloc, meet, number, &mut worker.spawner, &mut worker.clock) {
        Ok(told) => {
            worker.told = told;
            worker.finished = true;
        }
        Err(_) => worker.finished = false,
    }
}

// Lets all workers play their matches, each in a thread.
pub(crate) fn work_all<R: Threads + Sync, S: Spawner<Link: Send> + Send, K: Clock + Send>(
    rt: &R,
    alloc: Global,
    meet: &Meet,
    workers: &mut [Worker<S, K>],
)
    requires some { 0 < length workers.old }
    requires workers { 0 < meet.now.workers }
    ensures size { length workers.new ≡ length workers.old }
    ensures worked { (k : ℕ) (d : _) → k < length workers.old
        → HasWorked S.Link.sent S.Link.answers S.Link.counts
        (seat_of S.waiting S.back S.answers S.counts K.given) meet.now
        (slice_index_or workers.old k d) (slice_index_or workers.new k d) }
{
    let threads = workers.len();
    thread::for_each_mut(
        rt,
        workers,
        threads,
        &|_place: usize, worker: &mut Worker<S, K>|
            requires { 0 < meet.now.workers }
            ensures { HasWorked S.Link.sent S.Link.answers S.Link.counts
                (seat_of S.waiting S.back S.answers S.counts K.given) meet.entry.now
                worker.entry.now worker.exit.now }
        { work(alloc, meet, worker) },
    );
}

// Whether all workers have played and told all of their matches.
pub(crate) fn have_finished<S, K>(workers: &[Worker<S, K>]) -> bool
    ensures { result ≡ list_all (λ w. w.finished) workers.now }
{
    workers.iter().all(|worker| worker.finished)
}

// Puts a value at the end of a list that has room for it.
fn put<T: Drop>(list: &mut Vec<T>, value: T)
    requires { vec_len list.old < vec_capacity list.old }
    ensures items { list.new.items ≡ list.old.items ++ value ∷ [] }
    ensures capacity { vec_capacity list.old ≤ vec_capacity list.new }
{
    let _ = list.push(value);
}

// Makes a worker of each spawner and clock, in order.
pub(crate) fn enlist<S: Drop, K: Drop>(
    alloc: Global,
    spawners: &mut Vec<S>,
    clocks: &mut Vec<K>,
) -> Result<Vec<Worker<S, K>>, AllocError>
    requires { vec_len spawners.old ≡ vec_len clocks.old }
    ensures spawners { IfOk result (λ workers.
        map (λ w. w.spawner) workers.items ≡ spawners.old.items) }
    ensures clocks { IfOk result (λ workers. map (λ w. w.clock) workers.items ≡ clocks.old.items) }
    ensures numbers { IfOk result (λ workers. (k : ℕ) (d : _) → k < vec_len workers
        → (slice_index_or workers.items k d).number ≡ k) }
    ensures no_spawners { IfOk result (λ workers. spawners.new.items ≡ []) }
    ensures no_clocks { IfOk result (λ workers. clocks.new.items ≡ []) }
    ensures spawners_kept { OnErr result (spawners.new ≡ spawners.old) }
    ensures clocks_kept { OnErr result (clocks.new ≡ clocks.old) }
    ensures spawner_room { vec_capacity spawners.new ≡ vec_capacity spawners.old }
    ensures size { IfOk result (λ workers. vec_len workers ≡ vec_len spawners.old) }
    ensures clock_room { vec_capacity clocks.new ≡ vec_capacity clocks.old }
{
    let mut workers = Vec::with_capacity(alloc, spawners.len())?;
    'workers: while !spawners.is_empty() {
        let worker = Worker {
            number: workers.len(),
            spawner: spawners.remove(0),
            clock: clocks.remove(0),
            told: Vec::new(alloc),
            finished: false,
        };
        put(&mut workers, worker);
    }
    Ok(workers)
}

// Gives the spawners and clocks back, in order, and adds what the workers told.
pub(crate) fn dismiss<S: Drop, K: Drop>(
    workers: Vec<Worker<S, K>>,
    spawners: &mut Vec<S>,
    clocks: &mut Vec<K>,
    shares: &mut Vec<Vec<Told>>,
)
    requires spawner_room { vec_len spawners.old + vec_len workers ≤ vec_capacity spawners.old }
    requires clock_room { vec_len clocks.old + vec_len workers ≤ vec_capacity clocks.old }
    requires share_room { vec_len shares.old + vec_len workers ≤ vec_capacity shares.old }
    ensures spawners { spawners.new.items
        ≡ spawners.old.items ++ map (λ w. w.spawner) workers.items }
    ensures clocks { clocks.new.items ≡ clocks.old.items ++ map (λ w. w.clock) workers.items }
    ensures shares { shares.new.items ≡ shares.old.items ++ map (λ w. w.told) workers.items }
{
    let mut workers = workers;
    'workers: while !workers.is_empty() {
        let Worker {
            spawner,
            clock,
            told,
            ..
        } = workers.remove(0);
        put(spawners, spawner);
        put(clocks, clock);
        put(shares, told);
    }
}

// Lets each worker play its matches over its own spawner and clock, each in a thread.
pub(crate) fn play_shares<
    R: Threads + Sync,
    S: Spawner<Link: Send> + Send + Drop,
    K: Clock + Send + Drop,
>(
    rt: &R,
    alloc: Global,
    meet: &Meet,
    spawners: &mut Vec<S>,
    clocks: &mut Vec<K>,
) -> Result<Vec<Vec<Told>>, AllocError>
    requires some { 0 < vec_len spawners.old }
    requires clocks { vec_len clocks.old ≡ vec_len spawners.old }
    requires workers { meet.now.workers ≡ vec_len spawners.old }
    ensures { IfOk result (λ shares. HavePlayedShares S.Link.sent S.Link.answers S.Link.counts
        (seat_of S.waiting S.back S.answers S.counts K.given) (terms_of meet.now)
        meet.now.pairs.items spawners.old.items spawners.new.items clocks.old.items
        clocks.new.items shares.items) }
{
    let mut shares = Vec::with_capacity(alloc, spawners.len())?;
    let mut workers = enlist(alloc, spawners, clocks)?;
    work_all(rt, alloc, meet, &mut workers);
    let finished = have_finished(&workers);
    dismiss(workers, spawners, clocks, &mut shares);
    if !finished {
        return Err(AllocError);
    }
    Ok(shares)
}
