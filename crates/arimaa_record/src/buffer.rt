//! The bytes that a reader of lines holds.
ghost use Rattle.std.specs.Prelude.{◌≡◌, ◌≤◌, ◌<◌, [], IfOk, OnOk, OnErr, drop, length};
ghost use Rattle.std.specs.Io.KnownBytes.{IsAtEnd, prepend_known};
ghost use Rattle.arimaa_outside.specs.Faults.{HasRisen};

use arimaa_outside::{Failed, Source};
use std::alloc::{AllocError, Global};
use std::marker::Model;

// How many bytes a buffer has room for.
const ROOM: usize = 4096;

/// A buffer of 4,096 bytes. A contract sees the bytes of it that were taken and not yet passed.
#[derive(Drop)]
pub struct Buffer {
    bytes: Vec<u8>,
    at: usize,
    end: usize,
}

impl Model for Buffer {
    ghost use Rattle.std.specs.Prelude.{◌≡◌, ◌≤◌, ℕ, List, slice_range, vec_len};

    ghost Value = { List ℕ };

    ghost view = { λ b. slice_range b.bytes.items b.at b.end };

    ghost invariant = { λ b. (vec_len b.bytes ≡ 4096) × (b.at ≤ b.end) × (b.end ≤ 4096) };
}

impl Buffer {
    /// A buffer that holds no bytes.
    pub fn new(alloc: Global) -> Result<Buffer, AllocError>
        ensures { IfOk result (λ buffer. buffer ≡ []) }
    {
        let mut bytes = Vec::with_capacity(alloc, ROOM)?;
        bytes.resize(ROOM, 0)?;
        Ok(Buffer {
            bytes,
            at: 0,
            end: 0,
        })
    }

    /// The bytes that it holds.
    pub fn as_slice(&self) -> &[u8]
        ensures value { result.now ≡ self.now }
        ensures room { length result.now ≤ 4096 }
    {
        &self.bytes[self.at..self.end]
    }

    /// Passes the first bytes.
    pub fn pass(&mut self, count: usize)
        requires { count ≤ length self.old }
        ensures { self.new ≡ drop count self.old }
    {
        let _held = self.as_slice();
        self.at += count;
    }

    /// Takes the next bytes of a source in place of those that it held, and answers how many. None
    /// is the end of the input.
    pub fn fill<I: Source>(&mut self, input: &mut I) -> Result<usize, Failed>
        ensures count { IfOk result (λ n. n ≡ length self.new) }
        ensures room { length self.new ≤ 4096 }
        ensures taken { IfOk result (λ _. I.remaining input.old
            ≡ prepend_known self.new (I.remaining input.new)) }
        ensures end { IfOk result (λ n. n ≡ 0 → IsAtEnd (I.remaining input.new)) }
        ensures empty { OnErr result (self.new ≡ []) }
        ensures kept { OnErr result (I.remaining input.new ≡ I.remaining input.old) }
        ensures sound { OnOk result (I.faults input.new ≡ I.faults input.old) }
        ensures failed { OnErr result (HasRisen (I.faults input.old) (I.faults input.new)) }
        ensures never_falls { I.faults input.old ≤ I.faults input.new }
    {
        self.at = 0;
        self.end = 0;
        let count = input.read(&mut self.bytes)?;
        self.end = count;
        Ok(count)
    }
}
