//! Laws of the lines.
ghost use Rattle.arimaa_record.specs.Laws.{LinesApart};

/// No line has two readings.
pub fn lines_apart()
    ensures { LinesApart }
{}
