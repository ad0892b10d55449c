//! What holds of every match.
ghost use Rattle.arimaa_match.specs.Laws.{ToldOnce};

/// Where both ports and the clock tell, what they told in a match is one thing. So the fold of what
/// they told has one value.
pub fn told_once()
    ensures { ToldOnce }
{}
