//! A spawner in memory.
ghost use Rattle.std.specs.Prelude.{◌≡◌, ◌+◌, ◌<◌, ◌≤◌, ◌++◌, ◌∷◌, [], ◌⊎◌, All, IfOk, IsErr, IsErrOf, OnErr, OnOk, Some, length};
ghost use Rattle.std.specs.Vec.Iter.{into_iter_items};
ghost use Rattle.arimaa_outside.specs.Calls.{NextFails, after_fault, after_success};
ghost use Rattle.arimaa_outside.specs.Counts.{NeverFall, no_counts};
ghost use Rattle.arimaa_outside.specs.Faults.{HasRisen};
ghost use Rattle.arimaa_outside.specs.MemPort.{port_counts};
ghost use Rattle.arimaa_outside.specs.MemSpawner.{IsFresh, after_closing, after_opening, after_refusing, spawner_counts};
ghost use Rattle.arimaa_outside.specs.OpenAnswers.{open_answer, opened_count};

use crate::bytes::Bytes;
use crate::calls::Calls;
use crate::failure::Failed;
use crate::lists::put;
use crate::mem_port::MemPort;
use crate::open_answer::OpenAnswer;
use crate::port_fault::PortFault;
use crate::spawner::Spawner;
use std::alloc::{AllocError, Global};
use std::marker::Model;
use std::vec::IntoIter;

/// A spawner that hands out these ports in order, whatever the program, and keeps those that it
/// takes back. It tells both, and for which programs it was asked. A call of `open` fails where it
/// is one that is to fail, and where no port is left.
#[derive(Drop)]
pub struct MemSpawner {
    alloc: Global,
    waiting: IntoIter<MemPort>,
    back: Vec<MemPort>,
    answers: Vec<OpenAnswer>,
    calls: Calls,
    stops: u64,
    lines: u64,
}

impl Model for MemSpawner {
    ghost use Rattle.std.specs.Prelude.{◌+◌, ◌≤◌, All, length, vec_capacity, vec_len};
    ghost use Rattle.std.specs.Vec.Iter.{into_iter_items};
    ghost use Rattle.arimaa_outside.specs.MemSpawner.{IsFresh, Spawning};
    ghost use Rattle.arimaa_outside.specs.OpenAnswers.{opened_count};

    ghost Value = { Spawning };

    ghost view = { λ s. record {
      waiting = into_iter_items s.waiting;
      back = s.back.items;
      answers = s.answers.items;
      calls = s.calls;
      stops = s.stops;
      lines = s.lines;
    } };

    // There is room for each port that may come back.
    ghost invariant = { λ s. All IsFresh (into_iter_items s.waiting)
        × (vec_len s.back ≤ opened_count s.answers.items)
        × (opened_count s.answers.items + length (into_iter_items s.waiting)
        ≤ vec_capacity s.back) };
}

impl MemSpawner {
    /// A spawner of these ports, which have counted nothing yet. `fails` has the numbers of the
    /// calls of `open` that fail, from 1. A call that finds no memory is not counted. It takes the
    /// room for the ports that come back, so that `close` takes no memory.
    ///
    /// # Errors
    ///
    /// Where no memory is left for that room.
    pub fn new(alloc: Global, ports: Vec<MemPort>, fails: Vec<u64>) -> Result<Self, AllocError>
        requires { All IsFresh ports.items }
        ensures { IfOk result (λ spawner. spawner ≡ record {
          waiting = ports.items;
          back = [];
          answers = [];
          calls = record { fails = fails.items; made = 0; faults = 0 };
          stops = 0;
          lines = 0;
        }) }
    {
        let back = Vec::with_capacity(alloc, ports.len())?;
        Ok(MemSpawner {
            alloc,
            waiting: ports.into_iter(),
            back,
            answers: Vec::new(alloc),
            calls: Calls::new(fails),
            stops: 0,
            lines: 0,
        })
    }
}

impl Spawner for MemSpawner {
    type Link = MemPort;

    ghost waiting = { λ s. Some s.waiting };

    ghost back = { λ s. Some s.back };

    ghost answers = { λ s. Some s.answers };

    ghost counts = { spawner_counts };

    fn open(&mut self, program: &str) -> Result<MemPort, PortFault>
        ensures fails { NextFails self.old.calls → IsErr result }
        ensures at_end { self.old.waiting ≡ [] → IsErr result }
        ensures ok { OnOk result (self.new ≡ after_opening self.old program.now) }
        ensures memory { IsErrOf result PortFault.Memory → self.new ≡ self.old }
        ensures only_then { IsErrOf result PortFault.Failed
            → NextFails self.old.calls ⊎ (self.old.waiting ≡ []) }
        ensures fault { IsErrOf result PortFault.Failed
            → self.new ≡ after_refusing self.old program.now }

        ensures link { IfOk result (λ link. self.old.waiting ≡ link ∷ self.new.waiting) }
        ensures fresh { IfOk result (λ link. port_counts link ≡ no_counts) }
        ensures kept { OnErr result (self.new.waiting ≡ self.old.waiting) }
        ensures answer { self.new.answers
            ≡ self.old.answers ++ open_answer program.now result }
        ensures back { self.new.back ≡ self.old.back }
        ensures balance { length self.old.back ≤ opened_count self.old.answers }
        ensures sound { ¬ IsErrOf result PortFault.Failed
            → spawner_counts self.new ≡ spawner_counts self.old }
        ensures failed { IsErrOf result PortFault.Failed
            → HasRisen self.old.calls.faults self.new.calls.faults }
        ensures never_falls { NeverFall (spawner_counts self.old) (spawner_counts self.new) }
    {
        let program = Bytes::copied(self.alloc, program.as_bytes())?;
        self.answers.reserve(1)?;
        match next_port(&mut self.waiting, &mut self.calls) {
            Ok(port) => {
                put(&mut self.answers, OpenAnswer::Opened(program));
                Ok(port)
            }
            Err(_) => {
                put(&mut self.answers, OpenAnswer::Failed(program));
                Err(PortFault::Failed)
            }
        }
    }

    fn close(&mut self, link: MemPort)
        requires { length self.old.back < opened_count self.old.answers }
        ensures closed { self.new ≡ after_closing self.old link }

        ensures back { self.new.back ≡ self.old.back ++ link ∷ [] }
        ensures waiting { self.new.waiting ≡ self.old.waiting }
        ensures answers { self.new.answers ≡ self.old.answers }
        ensures never_falls { NeverFall (spawner_counts self.old) (spawner_counts self.new) }
    {
        self.calls.add_faults(link.faults());
        self.stops = self.stops.saturating_add(link.stops());
        self.lines = self.lines.saturating_add(link.lines());
        put(&mut self.back, link);
    }
}

// Counts a call, and takes the next port unless the call is to fail or none is left.
fn next_port(waiting: &mut IntoIter<MemPort>, calls: &mut Calls) -> Result<MemPort, Failed>
    requires { All IsFresh (into_iter_items waiting.old) }
    ensures fails { NextFails calls.old → IsErr result }
    ensures at_end { into_iter_items waiting.old ≡ [] → IsErr result }
    ensures only_then { OnErr result (NextFails calls.old ⊎ (into_iter_items waiting.old ≡ [])) }
    ensures port { IfOk result
        (λ port. into_iter_items waiting.old ≡ port ∷ into_iter_items waiting.new) }
    ensures kept { OnErr result (into_iter_items waiting.new ≡ into_iter_items waiting.old) }
    ensures ok { OnOk result (calls.new ≡ after_success calls.old) }
    ensures err { OnErr result (calls.new ≡ after_fault calls.old) }
    ensures fresh { IfOk result IsFresh }
    ensures all_fresh { All IsFresh (into_iter_items waiting.new) }
    ensures never_falls { calls.old.faults ≤ calls.new.faults }
{
    calls.begin()?;
    match waiting.next() {
        Some(port) => Ok(port),
        None => Err(calls.fault()),
    }
}
