//! What the checker finds at an entry or at the root.
use crate::check_answer::Why;
use arimaa_board::Position;

// What a look at a position with the defender to move finds.
#[derive(Clone, Copy, Debug)]
pub(crate) enum Look {
    // It is won, and this is its rank.
    Rank(u16),
    // It is decided for the defender.
    Lost,
    // It has a reply that isn't covered.
    Open,
    // It has more replies than there is room for.
    Crowded,
}

// What a look at an entry finds.
#[derive(Clone, Copy, Debug)]
pub(crate) enum Finding {
    Good,
    Faulty(Why),
    // The position that it leads to has more replies than there is room for.
    Crowded(Position),
}
