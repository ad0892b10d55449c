//! A source in memory.
ghost use Rattle.std.specs.Prelude.{◌≡◌, ◌<◌, ◌≤◌, ◌++◌, ◌↔◌, IfOk, IsErr, OnErr, Some, drop, length, take};
ghost use Rattle.std.specs.Io.KnownBytes.{IsAtEnd};
ghost use Rattle.arimaa_outside.specs.Calls.{NextFails, after_fault, after_success};
ghost use Rattle.arimaa_outside.specs.MemSource.{read_len};

use crate::calls::Calls;
use crate::failure::Failed;
use crate::source::Source;
use std::marker::Model;

/// A source that gives these bytes and tells what it has left. Each call that is to fail fails.
#[derive(Drop)]
pub struct MemSource {
    bytes: Vec<u8>,
    at: usize,
    piece: usize,
    calls: Calls,
}

impl Model for MemSource {
    ghost use Rattle.std.specs.Prelude.{◌≤◌, drop, vec_len};
    ghost use Rattle.arimaa_outside.specs.MemSource.{Reading};

    ghost Value = { Reading };

    ghost view = { λ s. record {
      left = drop s.at s.bytes.items;
      piece = s.piece;
      calls = s.calls;
    } };

    ghost invariant = { λ s. (s.at ≤ vec_len s.bytes) × (1 ≤ s.piece) };
}

impl MemSource {
    /// A source of these bytes, of which a call gives at most `piece`. `fails` has the numbers of
    /// the calls that fail, from 1.
    pub fn new(bytes: Vec<u8>, piece: usize, fails: Vec<u64>) -> Self
        requires { 1 ≤ piece }
        ensures { result ≡ record {
          left = bytes.items;
          piece = piece;
          calls = record { fails = fails.items; made = 0; faults = 0 };
        } }
    {
        MemSource {
            bytes,
            at: 0,
            piece,
            calls: Calls::new(fails),
        }
    }
}

impl Source for MemSource {
    ghost remaining = { λ s. Some s.left };

    ghost faults = { λ s. s.calls.faults };

    fn read(&mut self, buf: &mut [u8]) -> Result<usize, Failed>
        ensures fails { IsErr result ↔ NextFails self.old.calls }
        ensures count { IfOk result (λ n. n ≡ read_len self.old (length buf.old)) }
        ensures bytes { IfOk result (λ n. buf.new ≡ take n self.old.left ++ drop n buf.old) }
        ensures ok { IfOk result (λ n. self.new
            ≡ record self.old {
              left = drop n self.old.left;
              calls = after_success self.old.calls;
            }) }
        ensures err { OnErr result
            (self.new ≡ record self.old { calls = after_fault self.old.calls }) }

        ensures end { IfOk result (λ n. n ≡ 0 → 0 < length buf.new → IsAtEnd (Some self.new.left)) }
        ensures never_falls { self.old.calls.faults ≤ self.new.calls.faults }
    {
        self.calls.begin()?;
        let rest = &self.bytes[self.at..];
        let count = self.piece.min(buf.len()).min(rest.len());
        buf[..count].copy_from_slice(&rest[..count]);
        self.at += count;
        Ok(count)
    }
}
