//! Laws on escapes: each is a clause of a function without a body.
ghost use Rattle.arimaa_refute.specs.EscapeLaws.{HeldIsNotWon, HeldHasNoStrategy, HeldForFewer};
ghost use Rattle.arimaa_refute.specs.EscapeLaws.{OwnEscapesHold};

/// A root that is held by escapes is not won within so many turns, and no strategy shows that it
/// is.
pub fn held_roots_are_not_won()
    ensures not_won { HeldIsNotWon }
    ensures no_strategy { HeldHasNoStrategy }
    ensures fewer { HeldForFewer }
{}

/// A position that is not won within so many turns is held by its own escapes.
pub fn own_escapes_hold()
    ensures { OwnEscapesHold }
{}
