//! Laws of the texts.
ghost use Rattle.arimaa_notation.specs.Laws.{TurnsApart, SetupsApart};

/// No two turns have a text in common.
pub fn turns_apart()
    ensures { TurnsApart }
{}

/// No two setups of a side have a text in common.
pub fn setups_apart()
    ensures { SetupsApart }
{}
