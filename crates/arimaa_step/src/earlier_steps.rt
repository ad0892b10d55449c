//! Single steps that commute: two that may be made in either order.
ghost use Rattle.std.specs.Prelude.{◌≡◌, ◌<◌, ℕ, Bool, ◌&&◌, not, nat_lt, IsOk};
ghost use Rattle.arimaa_board.specs.declared.piece.Piece.{Piece};
ghost use Rattle.arimaa_board.specs.declared.square.Dir.{Dir};
ghost use Rattle.arimaa_board.specs.Masks.{IsMaskOf, passes};
ghost use Rattle.arimaa_board.specs.Square.{next_square};
ghost use Rattle.arimaa_board.specs.declared.position.Step.{Step};
ghost use Rattle.arimaa_step.specs.declared.state.TurnState.{TurnState};
ghost use Rattle.arimaa_step.specs.AcceptedSteps.{AreAccepted, mask_towards};
ghost use Rattle.arimaa_step.specs.Next.{next_answer, next_state};
ghost use Rattle.arimaa_step.specs.CommutingSteps.{is_of, is_close, is_trap_of, in_zone, earlier_towards, commutes_before, AreEarlier, AreOthers, moves_calmly, goes_calmly, AreAcceptedInOrder, AreEndingInOrder, StepsCommute, EndsCommute};
ghost use Rattle.arimaa_model.specs.Results.{step_of};

use crate::accepted_steps::AcceptedSteps;
use crate::state::TurnState;
use arimaa_board::{Dir, Square, Step, entering, mask_of, neighbours};

/// The steps that commute with a step and come before it in the order of steps: one mask a
/// direction, with bit n for a step from square n.
#[derive(Clone, Copy, Debug, PartialEq, Eq)]
pub struct EarlierSteps {
    /// The squares from which a step goes north.
    pub north: u64,
    /// The squares from which a step goes east.
    pub east: u64,
    /// The squares from which a step goes south.
    pub south: u64,
    /// The squares from which a step goes west.
    pub west: u64,
}

// The four traps.
const TRAPS: u64 = 0x0000_2400_0024_0000;

// The squares that a step leaves and enters.
fn squares_of(step: &Step) -> u64
    ensures { IsMaskOf (is_of step.now) result }
{
    let left = mask_of(step.from);
    match step.from.step(step.dir) {
        None => left,
        Some(to) => left | mask_of(to),
    }
}

// The zone of a step: its squares, those beside them, and those beside a trap that is one of these.
fn zone_of(step: &Step) -> u64
    ensures { IsMaskOf (in_zone step.now) result }
{
    let own = squares_of(step);
    let close = own | neighbours(own);
    close | neighbours(close & TRAPS)
}

// The squares before a square.
fn squares_before(square: Square) -> u64
    ensures { IsMaskOf (λ n. nat_lt n square) result }
{
    (1 << square.number()) - 1
}

// The squares of a mask from which a step in a direction stays in the mask, those below a square.
fn below(mask: u64, square: Square, dir: Dir) -> u64
    ensures { (test : ℕ → Bool) → IsMaskOf test mask
        → IsMaskOf (λ n. (test n && passes test (next_square n dir)) && nat_lt n square) result }
{
    mask & entering(mask, dir) & squares_before(square)
}

// The squares that two masks have.
#[inline(always)]
fn common(mask: u64, other: u64) -> u64
    ensures { (test passing : ℕ → Bool) → IsMaskOf test mask → IsMaskOf passing other
        → IsMaskOf (λ n. test n && passing n) result }
{
    mask & other
}

// The squares of a mask but for those of another.
#[inline(always)]
fn mask_without(mask: u64, other: u64) -> u64
    ensures { (test passing : ℕ → Bool) → IsMaskOf test mask → IsMaskOf passing other
        → IsMaskOf (λ n. test n && not (passing n)) result }
{
    mask & !other
}

impl EarlierSteps {
    /// The steps that commute with a step and come before it. A step commutes with it where the
    /// squares that it leaves and enters are none of those of the step, nor beside them, nor
    /// beside a trap that is one of these.
    pub fn commuting_with(step: &Step) -> EarlierSteps
        ensures { AreEarlier step.now result }
    {
        let outside = !zone_of(step);
        EarlierSteps {
            north: below(outside, step.from, Dir::North),
            east: below(outside, step.from, Dir::East),
            south: below(outside, step.from, Dir::South),
            west: below(outside, step.from, Dir::West),
        }
    }

    /// The steps that a state accepts, or some others, but for these.
    #[inline(always)]
    pub fn left_out_of(&self, steps: &AcceptedSteps) -> AcceptedSteps
        ensures accepted { (st : TurnState) (s : Step) → AreAccepted st steps.now
            → AreEarlier s self.now → AreOthers st s result }
        ensures others { (test : Dir → ℕ → Bool) (s : Step)
            → ((d : Dir) → IsMaskOf (test d) (mask_towards steps.now d)) → AreEarlier s self.now
            → (d : Dir) (p : Piece)
            → IsMaskOf (λ n. test d n && not (commutes_before s (step_of n d p)))
            (mask_towards result d) }
    {
        AcceptedSteps {
            north: steps.north & !self.north,
            east: steps.east & !self.east,
            south: steps.south & !self.south,
            west: steps.west & !self.west,
        }
    }
}

impl TurnState {
    // The pieces of the side to move without an enemy beside them: after their steps no pull may
    // follow.
    #[inline(always)]
    fn calm_movers(&self) -> u64
        ensures { IsMaskOf (moves_calmly self.now) result }
    {
        let side = self.start.side;
        mask_without(self.board.of(side), neighbours(self.board.of(side.other())))
    }

    // Whether a step is a single one after which no pull may follow.
    #[inline(always)]
    fn made_calmly(&self, step: &Step, after: &TurnState) -> bool
        requires accepted { IsOk (next_answer self.now step.now) }
        requires after { after.now ≡ next_state self.now step.now }
        ensures { result ≡ goes_calmly self.now step.now }
    {
        match after.open_pull {
            Some(_) => false,
            None => self.made_alone(step),
        }
    }

    /// The steps that the state that a step makes of this one, `after`, accepts. Where it is a
    /// single step after which no pull may follow, those that commute with it, come before it, and
    /// after which no pull may follow either are left out: the state that they make is made when
    /// the two are turned round.
    pub fn accepted_in_order(&self, step: &Step, after: &TurnState) -> AcceptedSteps
        requires accepted { IsOk (next_answer self.now step.now) }
        requires after { after.now ≡ next_state self.now step.now }
        ensures { AreAcceptedInOrder self.now step.now result }
    {
        let accepted = after.accepted();
        if self.made_calmly(step, after) {
            let earlier = EarlierSteps::commuting_with(step);
            let calm = after.calm_movers();
            AcceptedSteps {
                north: mask_without(accepted.north, common(earlier.north, calm)),
                east: mask_without(accepted.east, common(earlier.east, calm)),
                south: mask_without(accepted.south, common(earlier.south, calm)),
                west: mask_without(accepted.west, common(earlier.west, calm)),
            }
        } else {
            accepted
        }
    }

    /// The steps that end a move in the state that a step makes of this one, `after`. Where it is a
    /// single step, those that commute with it and come before it are left out: what they end the
    /// turn with, both end it with when they are made in the other order.
    pub fn ending_in_order(&self, step: &Step, after: &TurnState) -> AcceptedSteps
        requires accepted { IsOk (next_answer self.now step.now) }
        requires after { after.now ≡ next_state self.now step.now }
        ensures { AreEndingInOrder self.now step.now result }
    {
        let ending = after.ending();
        if self.made_alone(step) {
            EarlierSteps::commuting_with(step).left_out_of(&ending)
        } else {
            ending
        }
    }
}

/// The order of single steps that commute doesn't matter: on a board on which no trap is due, and
/// at the end of a turn.
pub fn steps_commute()
    ensures steps { StepsCommute }
    ensures ends { EndsCommute }
{}
