//! What the other side of a port says.
ghost use Rattle.std.specs.Prelude.{◌≡◌, IfOk};
ghost use Rattle.arimaa_outside.specs.Answers.{said_as};
ghost use Rattle.arimaa_outside.specs.MemPort.{lines_after, stops_after, within_limit};

use crate::bytes::Bytes;
use crate::port::LINE_LIMIT;
use crate::receipt::Heard;
use std::alloc::{AllocError, Global};

/// What is said to a call of `receive`.
#[derive(Drop)]
pub enum Said {
    /// This line, without its line end.
    Line(Bytes),
    /// Nothing more comes.
    Ended,
    /// A line of more than `LINE_LIMIT` bytes.
    Long,
}

impl Said {
    // A copy, in which a line that is over the limit is too long.
    pub(crate) fn limited(&self, alloc: Global) -> Result<Said, AllocError>
        ensures { IfOk result (λ said. said ≡ within_limit self.now) }
    {
        match self {
            Said::Line(line) => limited_line(alloc, line.as_slice()),
            Said::Ended => Ok(Said::Ended),
            Said::Long => Ok(Said::Long),
        }
    }

    // How it is heard. A line is put in place of what `line` held.
    pub(crate) fn hear(&self, line: &mut Vec<u8>) -> Result<Heard, AllocError>
        ensures { IfOk result (λ heard. said_as heard line.new.items ≡ self.now) }
    {
        match self {
            Said::Line(words) => {
                line.clear();
                line.extend_from_slice(words.as_slice())?;
                Ok(Heard::Line)
            }
            Said::Ended => Ok(Heard::Ended),
            Said::Long => Ok(Heard::Long),
        }
    }

    // Counts it: a line among the lines, anything else among the stops. A count ends at its last
    // number.
    pub(crate) fn count(&self, stops: &mut u64, lines: &mut u64)
        ensures stops { stops.new ≡ stops_after self.now stops.old }
        ensures lines { lines.new ≡ lines_after self.now lines.old }
    {
        match self {
            Said::Line(_) => *lines = lines.saturating_add(1),
            Said::Ended | Said::Long => *stops = stops.saturating_add(1),
        }
    }
}

// A copy of the line where it is within the limit.
fn limited_line(alloc: Global, line: &[u8]) -> Result<Said, AllocError>
    ensures { IfOk result (λ said. said ≡ within_limit (Said.Line line.now)) }
{
    if line.len() <= LINE_LIMIT {
        Ok(Said::Line(Bytes::copied(alloc, line)?))
    } else {
        Ok(Said::Long)
    }
}
