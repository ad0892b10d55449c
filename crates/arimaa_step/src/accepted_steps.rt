//! The steps that a state accepts, as masks.
ghost use Rattle.std.specs.Prelude.{◌≡◌, ◌<◌, ℕ, Bool, ◌&&◌, is_some, Option, Some};
ghost use Rattle.arimaa_board.specs.declared.piece.Kind.TheVariants.{Rabbit};
ghost use Rattle.arimaa_board.specs.Piece.{piece_of};
ghost use Rattle.arimaa_board.specs.Board.{at, holds};
ghost use Rattle.arimaa_board.specs.Masks.{IsMaskOf};
ghost use Rattle.arimaa_model.specs.Moves.{is_back};
ghost use Rattle.arimaa_step.specs.AcceptedSteps.{accepts, ends_by, mask_towards, AreAccepted, AreEnding, AreMovers, may_go, may_be_pushed, is_left, may_push, may_be_pulled};

use crate::state::TurnState;
use arimaa_board::{Color, Dir, Piece, Square, entering, mask_of};
use arimaa_model::{is_back, pushable, pushers_of, unfrozen_of, weaker_than};

/// The steps that a state accepts: one mask a direction, with bit n for the piece on square n.
#[derive(Clone, Copy, Debug, PartialEq, Eq)]
pub struct AcceptedSteps {
    /// The squares from which a step goes north.
    pub north: u64,
    /// The squares from which a step goes east.
    pub east: u64,
    /// The squares from which a step goes south.
    pub south: u64,
    /// The squares from which a step goes west.
    pub west: u64,
}

impl AcceptedSteps {
    /// No step.
    pub const NONE: AcceptedSteps = AcceptedSteps {
        north: 0,
        east: 0,
        south: 0,
        west: 0,
    };

    /// The squares from which a step goes in a direction.
    pub fn towards(&self, dir: Dir) -> u64
        ensures { result ≡ mask_towards self.now dir }
    {
        match dir {
            Dir::North => self.north,
            Dir::East => self.east,
            Dir::South => self.south,
            Dir::West => self.west,
        }
    }
}

// What may move after the steps of a state, as masks.
#[derive(Clone, Copy)]
struct Movers {
    // every piece
    here: u64,
    // the pieces of the side to move that may make a single step
    going: u64,
    // the rabbits of the side to move
    rabbits: u64,
    // the enemies that may be pushed
    pushed: u64,
    // the square that the open push left, and the pieces that could make that push
    push_left: u64,
    pushers: u64,
    // the square that the puller left, and the pieces that it could pull
    pull_left: u64,
    pulled: u64,
}

// The square that a piece left, if one did.
#[inline(always)]
fn left_mask(left: Option<(Square, Piece)>) -> u64
    ensures { IsMaskOf (is_left left) result }
{
    match left {
        None => 0,
        Some((square, _)) => mask_of(square),
    }
}

// The rabbits, where a step in a direction goes backward.
#[inline(always)]
fn kept_back(rabbits: u64, side: Color, dir: Dir) -> u64
    ensures { (test : ℕ → Bool) → IsMaskOf test rabbits
        → IsMaskOf (λ n. is_back side dir && test n) result }
{
    if is_back(side, dir) { rabbits } else { 0 }
}

impl Movers {
    // The squares from which a step in a direction is accepted, in a state with fewer than four
    // steps.
    #[inline(always)]
    fn towards(&self, side: Color, dir: Dir) -> u64
        ensures { (st : TurnState) → st.start.side ≡ side → st.count < 4
            → AreMovers st self.now → IsMaskOf (accepts st dir) result }
    {
        let fitting = self.here & entering(!self.here, dir);
        let going = self.going & !kept_back(self.rabbits, side, dir);
        let pushing = entering(self.push_left, dir) & self.pushers;
        let pulled = entering(self.pull_left, dir) & self.pulled;
        fitting & (going | self.pushed | (pushing | pulled))
    }
}

impl Movers {
    // The squares from which a step in a direction ends a move, in a state with fewer than four
    // steps: all that are accepted but those that only begin a push.
    #[inline(always)]
    fn ending_towards(&self, side: Color, dir: Dir) -> u64
        ensures { (st : TurnState) → st.start.side ≡ side → st.count < 4
            → AreMovers st self.now → IsMaskOf (ends_by st dir) result }
    {
        let fitting = self.here & entering(!self.here, dir);
        let going = self.going & !kept_back(self.rabbits, side, dir);
        let pushing = entering(self.push_left, dir) & self.pushers;
        let pulled = entering(self.pull_left, dir) & self.pulled;
        fitting & (going | (pushing | pulled))
    }
}

impl TurnState {
    // The pieces that could make the open push. On the start board this is looked up, since a trap
    // of it may hold a piece without a friend; later the first half of a push never freezes or
    // frees the pusher.
    #[inline(always)]
    fn pushers(&self, left: Option<(Square, Piece)>) -> u64
        ensures { IsMaskOf (may_push self.now left) result }
    {
        match left {
            None => 0,
            Some((_, pushed)) => {
                if self.count == 1 {
                    pushers_of(&self.start.board, pushed)
                } else {
                    pushers_of(&self.board, pushed)
                }
            }
        }
    }

    // The pieces that could be pulled.
    #[inline(always)]
    fn pulled(&self, left: Option<(Square, Piece)>) -> u64
        ensures { IsMaskOf (may_be_pulled self.now.board left) result }
    {
        match left {
            None => 0,
            Some((_, puller)) => weaker_than(&self.board, puller),
        }
    }

    // The pieces that may make a single step, and the enemies that may be pushed.
    #[inline(always)]
    fn beginners(&self) -> (u64, u64)
        ensures going { IsMaskOf (may_go self.now) result.0 }
        ensures pushed { IsMaskOf (may_be_pushed self.now) result.1 }
    {
        if self.cut {
            let able = unfrozen_of(&self.board, self.start.side);
            (able, pushable(&self.board, self.start.side, able))
        } else {
            (0, 0)
        }
    }

    // What may move now. It is joined to its callers' code, so that one that doesn't ask for the
    // enemies that may be pushed doesn't pay for them.
    #[inline(always)]
    fn movers(&self) -> Movers
        ensures { AreMovers self.now result }
    {
        let (going, pushed) = self.beginners();
        Movers {
            here: self.board.occupied(),
            going,
            rabbits: self.board.rabbits(self.start.side),
            pushed,
            push_left: left_mask(self.open_push),
            pushers: self.pushers(self.open_push),
            pull_left: left_mask(self.open_pull),
            pulled: self.pulled(self.open_pull),
        }
    }

    /// The steps that the state accepts: those for which `step` answers Ok.
    pub fn accepted(&self) -> AcceptedSteps
        ensures { AreAccepted self.now result }
    {
        if self.count >= 4 {
            return AcceptedSteps::NONE;
        }
        let movers = self.movers();
        let side = self.start.side;
        AcceptedSteps {
            north: movers.towards(side, Dir::North),
            east: movers.towards(side, Dir::East),
            south: movers.towards(side, Dir::South),
            west: movers.towards(side, Dir::West),
        }
    }

    /// The steps that the state accepts after which its steps can be cut into whole moves: the
    /// accepted ones but those that only begin a push.
    pub fn ending(&self) -> AcceptedSteps
        ensures { AreEnding self.now result }
    {
        if self.count >= 4 {
            return AcceptedSteps::NONE;
        }
        let movers = self.movers();
        let side = self.start.side;
        AcceptedSteps {
            north: movers.ending_towards(side, Dir::North),
            east: movers.ending_towards(side, Dir::East),
            south: movers.ending_towards(side, Dir::South),
            west: movers.ending_towards(side, Dir::West),
        }
    }
}
