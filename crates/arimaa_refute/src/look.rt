//! What the checker finds at an escape or at the root.
use crate::verify_answer::Flaw;
use arimaa_board::Position;

// What a look at a position with the attacker to move finds.
#[derive(Clone, Copy, Debug)]
pub(crate) enum Look {
    // It is held.
    Held,
    // It is decided for the attacker.
    Lost,
    // It has a reply that isn't safe.
    Open,
    // It has more replies than there is room for.
    Crowded,
}

// What a look at an escape finds.
#[derive(Clone, Copy, Debug)]
pub(crate) enum Finding {
    Good,
    Faulty(Flaw),
    // The position that it leads to has more replies than there is room for.
    Crowded(Position),
}
