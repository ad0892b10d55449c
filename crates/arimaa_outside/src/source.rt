//! Bytes that come in, and all of them read.
ghost use Rattle.std.specs.Prelude.{◌≡◌, ◌<◌, ◌≤◌, ℕ, List, Option, IfOk, IfSome, IsErrOf, OnErr, OnOk, length, option_map, take, vec_len, []};
ghost use Rattle.std.specs.Io.KnownBytes.{IsAtEnd, prepend_known};
ghost use Rattle.arimaa_outside.specs.Faults.{HasRisen};
ghost use Rattle.arimaa_outside.specs.declared.source.ReadAll.TheVariants.{Fault, Memory};

use crate::failure::Failed;
use std::alloc::{AllocError, Global};
use thiserror::Error;

/// The most bytes that `read_all` takes: 64 MiB.
pub const INPUT_LIMIT: usize = 67_108_864;

/// How many bytes `read_all` asks for at a time.
const PIECE: usize = 16_384;

/// What gives bytes.
pub trait Source {
    /// The bytes that reads will give from here on, or `None` where the source doesn't tell.
    ghost remaining: { Self → Option (List ℕ) };

    /// How many reads have failed.
    ghost faults: { Self → ℕ };

    /// Takes the next bytes into the front of `buf`, and answers how many. None for a buffer that
    /// has room is the end of the input.
    ///
    /// # Errors
    ///
    /// `Failed` raises the count of faults, and has taken nothing.
    fn read(&mut self, buf: &mut [u8]) -> Result<usize, Failed>
        ensures bound { IfOk result (λ n. n ≤ length buf.new) }
        ensures taken { IfOk result
            (λ n. remaining self.old ≡ prepend_known (take n buf.new) (remaining self.new)) }
        ensures end { IfOk result (λ n. n ≡ 0 → 0 < length buf.new → IsAtEnd (remaining self.new)) }
        ensures kept { OnErr result (remaining self.new ≡ remaining self.old) }

        ensures sound { OnOk result (faults self.new ≡ faults self.old) }
        ensures failed { OnErr result (HasRisen (faults self.old) (faults self.new)) }
        ensures never_falls { faults self.old ≤ faults self.new };
}

/// Why an input was not read whole.
#[derive(Clone, Copy, Debug, PartialEq, Eq, Error)]
pub enum ReadAll {
    /// A read failed.
    #[error("a read failed")]
    Fault,
    /// More than `INPUT_LIMIT` bytes came.
    #[error("the input is too long")]
    TooLong,
    /// No memory was left.
    #[error("out of memory")]
    Memory,
}

impl From<Failed> for ReadAll {
    ghost from_gives = { λ _ e. e ≡ Fault };

    fn from(_: Failed) -> Self {
        ReadAll::Fault
    }
}

impl From<AllocError> for ReadAll {
    ghost from_gives = { λ _ e. e ≡ Memory };

    fn from(_: AllocError) -> Self {
        ReadAll::Memory
    }
}

/// Reads to the end of the input. What was taken before an error is lost.
///
/// # Errors
///
/// `Fault` at the first read that fails, `TooLong` once more than `INPUT_LIMIT` bytes have come,
/// `Memory` where there is no room for the bytes.
pub fn read_all<S: Source>(alloc: Global, source: &mut S) -> Result<Vec<u8>, ReadAll>
    ensures whole { IfOk result
        (λ bytes. IfSome (S.remaining source.old) (λ left. bytes.items ≡ left)) }
    ensures end { OnOk result
        (S.remaining source.new ≡ option_map (λ _. []) (S.remaining source.old)) }
    ensures limit { IfOk result (λ bytes. vec_len bytes ≤ INPUT_LIMIT) }

    ensures too_long { IsErrOf result ReadAll.TooLong
        → IfSome (S.remaining source.old) (λ left. INPUT_LIMIT < length left) }
    ensures fault { IsErrOf result ReadAll.Fault
        → HasRisen (S.faults source.old) (S.faults source.new) }
    ensures lost { OnErr result
        ((lost : List ℕ) × (S.remaining source.old ≡ prepend_known lost (S.remaining source.new))) }

    // No answer but `Fault` comes after a read that failed.
    ensures sound { ¬ IsErrOf result ReadAll.Fault → S.faults source.new ≡ S.faults source.old }
    ensures never_falls { S.faults source.old ≤ S.faults source.new }
{
    let mut bytes = Vec::new(alloc);
    let mut piece = [0u8; PIECE];
    'pieces: loop {
        let count = source.read(&mut piece)?;
        if count == 0 {
            return Ok(bytes);
        }
        if count > INPUT_LIMIT - bytes.len() {
            return Err(ReadAll::TooLong);
        }
        bytes.extend_from_slice(&piece[..count])?;
    }
}
