//! The states that one more step makes, one after another.
ghost use Rattle.std.specs.Prelude.{◌≡◌, ◌++◌, [], List, IsOk, IfNone, ℕ, ◌<◌, ◌==◌, ◌&&◌, ◌||◌, not, true};
ghost use Rattle.std.specs.List.{flat_map};
ghost use Rattle.std.specs.Option.{option_to_list};
ghost use Rattle.arimaa_board.specs.declared.position.Position.{Position};
ghost use Rattle.arimaa_step.specs.declared.state.TurnState.{TurnState};
ghost use Rattle.arimaa_step.specs.Next.{next_answer, next_state};
ghost use Rattle.arimaa_results.specs.LastSteps.{next_in_order};
ghost use Rattle.arimaa_board.specs.Masks.{is_in};
ghost use Rattle.arimaa_board.specs.declared.square.Dir.TheVariants.{North, East, South, West};
ghost use Rattle.arimaa_results.specs.NextStates.{AreAllAccepted, IsFirstDirection, IsFirstTaken, IsStepTaken, has_step, last_of, next_gives, next_pairs, same_dir};

use arimaa_board::{Dir, Position, Square, Step, first_square, without};
use arimaa_model::TurnFault;
use arimaa_step::{AcceptedSteps, TurnState};
use std::marker::Model;

// Whether a mask has a square.
fn has(mask: u64, square: Square) -> bool
    ensures { result ≡ is_in mask square }
{
    mask >> square.number() & 1 == 1
}

// Whether two directions are the same.
fn same_dir(dir: Dir, other: Dir) -> bool
    ensures { result ≡ same_dir dir other }
{
    match (dir, other) {
        (Dir::North, Dir::North) => true,
        (Dir::East, Dir::East) => true,
        (Dir::South, Dir::South) => true,
        (Dir::West, Dir::West) => true,
        _ => false,
    }
}

// The first direction, in the order north, east, south, west, of some steps from a square, of which
// there is one.
#[inline(always)]
fn first_direction(steps: &AcceptedSteps, from: Square) -> Dir
    requires { (((has_step steps.now from North || has_step steps.now from East)
        || has_step steps.now from South) || has_step steps.now from West) ≡ true }
    ensures there { has_step steps.now from result ≡ true }
    ensures none_earlier { IsFirstDirection (has_step steps.now from) result }
{
    if has(steps.north, from) {
        return Dir::North;
    }
    if has(steps.east, from) {
        return Dir::East;
    }
    if has(steps.south, from) {
        return Dir::South;
    }
    Dir::West
}

// A mask without a square where the step from there is taken, else the mask.
#[inline(always)]
fn left_of(mask: u64, from: Square, taken: bool) -> u64
    ensures { (n : ℕ) → n < 64 → is_in result n ≡ (is_in mask n && not (n == from && taken)) }
{
    if taken { without(mask, from) } else { mask }
}

// Takes the first of some steps: by its square, and then by its direction in the order north, east,
// south, west.
#[inline(always)]
pub(crate) fn take_first(steps: &mut AcceptedSteps) -> Option<(Square, Dir)>
    ensures { IsFirstTaken steps.old result steps.new }
{
    let Some(from) = first_square(steps.north | steps.east | steps.south | steps.west) else {
        return None;
    };
    let dir = first_direction(steps, from);
    steps.north = left_of(steps.north, from, same_dir(Dir::North, dir));
    steps.east = left_of(steps.east, from, same_dir(Dir::East, dir));
    steps.south = left_of(steps.south, from, same_dir(Dir::South, dir));
    steps.west = left_of(steps.west, from, same_dir(Dir::West, dir));
    Some((from, dir))
}

// Takes the first of some steps that a state accepts, with its piece.
#[inline(always)]
pub(crate) fn take_step(state: &TurnState, steps: &mut AcceptedSteps) -> Option<Step>
    requires { AreAllAccepted state.now steps.old }
    ensures { IsStepTaken state.now steps.old result steps.new }
{
    let Some((from, dir)) = take_first(steps) else {
        return None;
    };
    let Some(piece) = state.board().at(from) else {
        unreachable!()
    };
    Some(Step { piece, from, dir })
}

/// The states that one more step makes from a state, in the order of the steps, each with its step.
///
/// A contract sees the list of those that are left.
#[derive(Drop)]
pub(crate) struct NextStates<'a> {
    state: &'a TurnState,
    // the steps that are left
    steps: AcceptedSteps,
}

impl<'a> Model for NextStates<'a> {
    ghost use Rattle.std.specs.Prelude.{List};
    ghost use Rattle.arimaa_board.specs.declared.position.Step.{Step};
    ghost use Rattle.arimaa_step.specs.declared.state.TurnState.{TurnState};
    ghost use Rattle.arimaa_results.specs.NextStates.{pairs_left, AreAllAccepted};

    ghost Value = { List (Step × TurnState) };

    ghost view = { λ x. pairs_left x.state.now x.steps };

    ghost invariant = { λ x. AreAllAccepted x.state.now x.steps };
}

impl<'a> NextStates<'a> {
    /// All of them.
    pub(crate) fn of(state: &'a TurnState) -> NextStates<'a>
        ensures { result ≡ next_pairs state.now }
    {
        NextStates {
            state,
            steps: state.accepted(),
        }
    }

    /// Those after a step of a state, and the state `after` it, in order: where that is a single
    /// step after which no pull may follow, those that the two steps make in the other order are
    /// left out.
    pub(crate) fn in_order(before: &TurnState, step: &Step, after: &'a TurnState) -> NextStates<'a>
        requires accepted { IsOk (next_answer before.now step.now) }
        requires after { after.now ≡ next_state before.now step.now }
        ensures positions { (given : TurnState → List Position)
            → flat_map (next_gives given) result ≡ next_in_order given before.now step.now }
        ensures words { (given : TurnState → List (List ℕ))
            → flat_map (next_gives given) result ≡ next_in_order given before.now step.now }
    {
        NextStates {
            state: after,
            steps: before.accepted_in_order(step, after),
        }
    }

    /// The next one, if one is left.
    #[inline(always)]
    pub(crate) fn advance(&mut self) -> Option<(Step, TurnState)>
        ensures next { self.old ≡ option_to_list result ++ self.new }
        ensures end { IfNone result (self.old ≡ []) }
    {
        let Some(step) = take_step(self.state, &mut self.steps) else {
            return None;
        };
        Some((step, self.state.make(&step)))
    }

    /// The next step with what the end of the turn answers after it, if one is left. The next state
    /// isn't made.
    #[inline(always)]
    pub(crate) fn advance_last(&mut self) -> Option<(Step, Result<Position, TurnFault>)>
        ensures next { last_of self.old ≡ option_to_list result ++ last_of self.new }
        ensures end { IfNone result (self.old ≡ []) }
    {
        let Some(step) = take_step(self.state, &mut self.steps) else {
            return None;
        };
        Some((step, self.state.finish_after(&step)))
    }
}
