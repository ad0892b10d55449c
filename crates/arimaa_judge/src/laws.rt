//! Laws of judgements.
ghost use Rattle.arimaa_judge.specs.Agreement.{JudgementsAgree, BadLinesAreThere};

use arimaa_record::lines_apart;

/// No input has two judgements.
pub fn judgements_agree()
    ensures { JudgementsAgree }
{
    lines_apart();
}

/// The first bad line is one of the input's lines.
pub fn bad_lines_are_there()
    ensures { BadLinesAreThere }
{}
