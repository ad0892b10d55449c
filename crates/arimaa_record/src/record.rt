//! Records, and the reader of records.
ghost use Rattle.std.specs.Prelude.{◌≡◌, ◌⊎◌, ℕ, List, [], ◌∷◌, ◌++◌, Ok, Err, IfOk, OnOk, OnErr};
ghost use Rattle.arimaa_record.specs.declared.line.RecordLine.{RecordLine as LineValue};
ghost use Rattle.arimaa_record.specs.declared.fault.LineFault.{LineFault as FaultValue};
ghost use Rattle.arimaa_record.specs.Lines.{lines_of};
ghost use Rattle.arimaa_record.specs.Record.{AreLines, IsFirstFault, IsRecordReading};

use crate::fault::RecordFault;
use crate::line::RecordLine;
use crate::lines::first_line;
use crate::reader::read_line;
use std::alloc::{AllocError, Global};
use std::marker::Model;

/// The lines of a record in order. A contract sees it as the list of them.
#[derive(Drop)]
pub struct Record {
    lines: Vec<RecordLine>,
}

impl Model for Record {
    ghost use Rattle.std.specs.Prelude.{List};
    ghost use Rattle.arimaa_record.specs.declared.line.RecordLine.{RecordLine};

    ghost Value = { List RecordLine };

    ghost view = { λ r. r.lines.items };
}

impl Record {
    /// The record with no line.
    pub fn new(alloc: Global) -> Record
        ensures { result ≡ [] }
    {
        Record {
            lines: Vec::new(alloc),
        }
    }

    /// Adds a line at the end. The record is unchanged where no memory is left for it.
    pub fn push(&mut self, line: RecordLine) -> Result<(), AllocError>
        ensures pushed { OnOk result (self.new ≡ self.old ++ line ∷ []) }
        ensures unchanged { OnErr result (self.new ≡ self.old) }
    {
        match self.lines.push(line) {
            Ok(()) => Ok(()),
            Err(failed) => Err(AllocError::from(failed)),
        }
    }

    /// The lines.
    pub fn lines(&self) -> &[RecordLine]
        ensures { result.now ≡ self.now }
    {
        self.lines.as_slice()
    }
}

/// The record of an input: what its lines say, blank ones too.
///
/// The first line that is refused is the fault, counted from 1 over all lines. `Memory` is answered
/// where no memory was left before the first such line, or before the end.
pub fn read_record(alloc: Global, bytes: &[u8]) -> Result<Record, RecordFault>
    ensures lines { IfOk result (λ r. AreLines (lines_of bytes.now) r) }
    ensures fault { (n : ℕ) (f : FaultValue) → result ≡ Err (RecordFault.Line n f)
        → IsFirstFault (lines_of bytes.now) n f }
    ensures no_other { (r : List LineValue) → AreLines (lines_of bytes.now) r
        → (result ≡ Ok r) ⊎ (result ≡ Err RecordFault.Memory) }
    ensures no_other_fault { (n : ℕ) (f : FaultValue) → IsFirstFault (lines_of bytes.now) n f
        → (result ≡ Err (RecordFault.Line n f)) ⊎ (result ≡ Err RecordFault.Memory) }
{
    record_of(alloc, bytes)
}

// The record of an input, or its first fault.
fn record_of(alloc: Global, bytes: &[u8]) -> Result<Record, RecordFault>
    ensures { IsRecordReading (lines_of bytes.now) result }
{
    let mut record = Record::new(alloc);
    let mut number: u64 = 0;
    let mut text = bytes;
    while let Some((line, rest)) = first_line(text) {
        number += 1;
        match read_line(line) {
            Ok(line) => record.push(line)?,
            Err(fault) => {
                return Err(RecordFault::Line {
                    line: number,
                    fault,
                });
            }
        }
        text = rest;
    }
    Ok(record)
}
