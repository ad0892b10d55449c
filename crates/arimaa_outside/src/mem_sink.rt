//! A sink in memory.
ghost use Rattle.std.specs.Prelude.{◌≡◌, ◌<◌, ◌≤◌, ◌++◌, [], IfOk, IsErr, OnErr, Some, length, min, take};
ghost use Rattle.arimaa_outside.specs.Calls.{NextFails, after_fault, after_success};

use crate::calls::Calls;
use crate::failure::Failed;
use crate::sink::Sink;
use std::alloc::Global;
use std::marker::Model;

/// A sink that keeps what was written, and tells it. Each call that is to fail fails, and so does
/// one that finds no memory.
#[derive(Drop)]
pub struct MemSink {
    bytes: Vec<u8>,
    piece: usize,
    calls: Calls,
}

impl Model for MemSink {
    ghost use Rattle.std.specs.Prelude.{◌≤◌};
    ghost use Rattle.arimaa_outside.specs.MemSink.{Writing};

    ghost Value = { Writing };

    ghost view = { λ s. record { written = s.bytes.items; piece = s.piece; calls = s.calls } };

    ghost invariant = { λ s. 1 ≤ s.piece };
}

impl MemSink {
    /// An empty sink, of which a call takes at most `piece` bytes. `fails` has the numbers of the
    /// calls that fail, from 1. It takes no memory.
    pub fn new(alloc: Global, piece: usize, fails: Vec<u64>) -> Self
        requires { 1 ≤ piece }
        ensures { result ≡ record {
          written = [];
          piece = piece;
          calls = record { fails = fails.items; made = 0; faults = 0 };
        } }
    {
        MemSink {
            bytes: Vec::new(alloc),
            piece,
            calls: Calls::new(fails),
        }
    }

    /// The bytes that were written.
    pub fn written(&self) -> &[u8]
        ensures { result.now ≡ self.now.written }
    {
        &self.bytes
    }
}

impl Sink for MemSink {
    ghost contents = { λ s. Some s.written };

    ghost faults = { λ s. s.calls.faults };

    fn write(&mut self, bytes: &[u8]) -> Result<usize, Failed>
        ensures fails { NextFails self.old.calls → IsErr result }
        ensures count { IfOk result (λ n. n ≡ min self.old.piece (length bytes.now)) }
        ensures ok { IfOk result (λ n. self.new
            ≡ record self.old {
              written = self.old.written ++ take n bytes.now;
              calls = after_success self.old.calls;
            }) }
        ensures err { OnErr result
            (self.new ≡ record self.old { calls = after_fault self.old.calls }) }

        ensures progress { IfOk result (λ n. 0 < length bytes.now → 0 < n) }
        ensures never_falls { self.old.calls.faults ≤ self.new.calls.faults }
    {
        self.calls.begin()?;
        let count = self.piece.min(bytes.len());
        match self.bytes.extend_from_slice(&bytes[..count]) {
            Ok(()) => Ok(count),
            Err(_) => Err(self.calls.fault()),
        }
    }
}
