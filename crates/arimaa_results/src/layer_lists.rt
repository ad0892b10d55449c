//! The results of a position, by layers of turn states: each distinct state is extended once.
ghost use Rattle.std.specs.Prelude.{◌≡◌, ◌↔◌, ℕ, suc, true, false, ◌+◌, ◌-◌, ◌<◌, ◌≤◌, ◌∷◌, ◌++◌, List, [], length, is_ok, is_err, is_some, IsOk, IfOk, IfErr, IfSome, None, OnOk, OnErr, IsTrue, ◌^◌, drop};
ghost use Rattle.std.specs.List.{flat_map};
ghost use Rattle.arimaa_model.specs.Results.{next};
ghost use Rattle.arimaa_region.specs.Segments.{live_of, below_top, top};
ghost use Rattle.arimaa_board.specs.Board.{at, settle};
ghost use Rattle.arimaa_step.specs.declared.state.TurnState.{TurnState};
ghost use Rattle.arimaa_step.specs.Next.{next_answer, next_state};
ghost use Rattle.arimaa_step.specs.State.{state_of};
ghost use Rattle.arimaa_results.specs.Additions.{IsFilled};
ghost use Rattle.arimaa_results.specs.Ahead.{next_states, brings};
ghost use Rattle.arimaa_results.specs.Distinct.{distinct_layers};
ghost use Rattle.arimaa_region.specs.Same.{same_words};
ghost use Rattle.arimaa_results.specs.LastSteps.{is_next, brings_in_order, next_in_order, brings_first, left_of_kept};
ghost use Rattle.arimaa_results.specs.NextStates.{next_gives, next_pairs};
ghost use Rattle.arimaa_results.specs.Layers.{keeps, planes_after, layer, layers_to, brings_next, brought_from, IsKept};
ghost use Rattle.arimaa_results.specs.ListsToWin.{IsListed, is_won_by, may_end};
ghost use Rattle.std.specs.List.{list_any};
ghost use Rattle.arimaa_results.specs.Stops.{IfRoom, IfWork, is_room, is_work, is_won};

use crate::last_steps::LastSteps;
use crate::next_states::{NextStates, take_step};
use crate::stop::{LayerFull, Stop, Until, full_by};
use crate::turn_walk::{NoRoom, fill_ends, place_end};
use arimaa_board::{Board, Color, Position, Square, Step, contains};
use arimaa_history::Barred;
use arimaa_model::decided;
use arimaa_region::{Mark, Placed, Region};
use arimaa_step::TurnState;

// Keeps a state, unless it is kept in the top layer.
#[inline(always)]
fn keep(state: &TurnState, region: &mut Region) -> Result<(), Stop>
    requires { 0 < length region.old.work.segments }
    ensures kept { IsKept region.old.work region.new.work
        (is_ok result) (is_work result) (keeps state.now) }
    ensures never { is_room result ≡ false }
    ensures unwon { is_won result ≡ false }
    ensures segments { region.new ≡ record region.old { work = region.new.work } }
{
    match region.work_place(state.planes()) {
        Placed::New(_) => Ok(()),
        Placed::There(_) => Ok(()),
        Placed::Full => Err(Stop::Work),
    }
}

// Places what a state brings about as it is, and keeps it.
#[inline(always)]
fn take(state: &TurnState, barred: &Barred, region: &mut Region) -> Result<(), Stop>
    requires open { 0 < length region.old.segments }
    requires open_layer { 0 < length region.old.work.segments }
    ensures filled { IsFilled region.old region.new (is_ok result) (is_room result)
        (brings barred.now 0 state.now) }
    ensures kept { IsKept region.old.work region.new.work
        (is_ok result) (is_work result) (keeps state.now) }
    ensures unwon { is_won result ≡ false }
{
    match place_end(state, barred, region) {
        Err(_) => Err(Stop::Room),
        Ok(()) => keep(state, region),
    }
}

// Takes some states that steps make.
fn take_all(states: NextStates<'_>, barred: &Barred, region: &mut Region) -> Result<(), Stop>
    requires open { 0 < length region.old.segments }
    requires open_layer { 0 < length region.old.work.segments }
    ensures filled { IsFilled region.old region.new (is_ok result) (is_room result)
        (flat_map (next_gives (brings barred.now 0)) states.entry) }
    ensures kept { IsKept region.old.work region.new.work (is_ok result) (is_work result)
        (flat_map (next_gives keeps) states.entry) }
    ensures unwon { is_won result ≡ false }
{
    let mut left = states;
    while let Some((_, next)) = left.advance() {
        take(&next, barred, region)?;
    }
    Ok(())
}

// Takes the states that one more step makes.
fn extend(state: &TurnState, barred: &Barred, region: &mut Region) -> Result<(), Stop>
    requires open { 0 < length region.old.segments }
    requires open_layer { 0 < length region.old.work.segments }
    ensures filled { IsFilled region.old region.new (is_ok result) (is_room result)
        (brings barred.now 1 state.now) }
    ensures kept { IsKept region.old.work region.new.work (is_ok result) (is_work result)
        (flat_map keeps (next_states state.now)) }
    ensures unwon { is_won result ≡ false }
{
    take_all(NextStates::of(state), barred, region)
}

// Whether the rules have decided a position for a side.
fn is_won_by(p: &Position, side: Color) -> bool
    ensures { result ≡ is_won_by side p.now }
{
    match decided(p) {
        Some(ending) => ending.winner == side,
        None => false,
    }
}

// Whether one of the positions from a place of the top segment on is decided for a side.
fn is_any_won(side: Color, first: u32, region: &Region) -> bool
    requires { length (live_of (below_top region.now.segments)) ≤ first }
    ensures { IsTrue result → list_any (is_won_by side) (top region.now.segments) ≡ true }
{
    for place in first..region.live() {
        let reached = region.get(place);
        if is_won_by(&reached, side) {
            return true;
        }
    }
    false
}

// Whether a side has a rabbit on a board that two steps may bring to its goal row.
fn has_rabbit_near(board: &Board, side: Color) -> bool {
    let near = match side {
        Color::Gold => 0xffff_ff00_0000_0000,
        Color::Silver => 0x00ff_ffff,
    };
    board.rabbits(side) & near != 0
}

// Whether the list may end with the positions from a place of the top segment on, to which at most
// two steps of a side lead from a board. They are looked through only where it has a rabbit there
// that may reach its goal row by those.
fn ends_list(until: Until, board: &Board, side: Color, first: u32, region: &Region) -> bool
    requires { length (live_of (below_top region.now.segments)) ≤ first }
    ensures { IsTrue result → may_end until side (top region.now.segments) ≡ true }
{
    match until {
        Until::All => false,
        Until::Win => has_rabbit_near(board, side) && is_any_won(side, first, region),
    }
}

// Takes the states that one step makes.
fn first_layer(p: &Position, barred: &Barred, region: &mut Region) -> Result<(), Stop>
    requires open { 0 < length region.old.segments }
    ensures filled { IsFilled region.old region.new (is_ok result) (is_room result)
        (brought_from barred.now p.now 0) }
    ensures room { region.new.work.room ≡ region.old.work.room }
    ensures kept { OnOk result (region.new.work.segments ≡ layers_to p.now 1) }
    ensures work { is_work result ≡ true
        → region.old.work.room < length (live_of (layers_to p.now 1)) }
    ensures unwon { is_won result ≡ false }
{
    let _corner = p.board.at(Square::C3);
    region.work_clear();
    region.work_layer();
    extend(&TurnState::start(p), barred, region)
}

// Takes the states that one more step makes from those of the top layer, which are kept from a
// place on, over so many lower layers.
fn next_layer(
    p: &Position,
    lower: u8,
    first: u32,
    until: Until,
    barred: &Barred,
    region: &mut Region,
) -> Result<(), Stop>
    requires open { 0 < length region.old.segments }
    requires few { lower ≤ 1 }
    requires layers { region.old.work.segments ≡ layers_to p.now (suc lower) }
    requires first { first ≡ length (live_of (layers_to p.now lower)) }
    ensures filled { IsFilled region.old region.new (is_ok result) (is_room result)
        (brought_from barred.now p.now (suc lower)) }
    ensures room { region.new.work.room ≡ region.old.work.room }
    ensures kept { OnOk result (region.new.work.segments ≡ layers_to p.now (suc (suc lower))) }
    ensures work { is_work result ≡ true
        → region.old.work.room < length (live_of (layers_to p.now (suc (suc lower)))) }
    ensures won { is_won result ≡ true
        → may_end until p.now.side (top region.new.segments) ≡ true }
{
    let _corner = p.board.at(Square::C3);
    let end = region.work_len();
    region.work_layer();
    for place in first..end {
        let state = TurnState::from_planes(p, region.work_get(place));
        let from = region.live();
        extend(&state, barred, region)?;
        if ends_list(until, state.board(), p.side, from, region) {
            return Err(Stop::Won);
        }
    }
    Ok(())
}

// Whether two states have the same words.
fn has_same_words(words: &[u64; 5], other: &[u64; 5]) -> bool
    ensures { result ≡ same_words words.now other.now }
{
    words == other
}

// Whether a state is the one that is kept at a place, which is before an end.
#[inline(always)]
fn is_kept_at(place: u32, end: u32, state: &TurnState, region: &Region) -> bool
    requires { end ≤ length (live_of region.now.work.segments) }
    ensures value { (kept rest : List (List ℕ)) → live_of region.now.work.segments ≡ kept ++ rest
        → end ≡ length kept → result ≡ is_next (drop place kept) state.now }
    ensures inside { IsTrue result → place + 1 < 2 ^ 32 }
{
    if place < end {
        has_same_words(&region.work_get(place), &state.planes())
    } else {
        false
    }
}

// Whether a square is empty in the state that is kept at a place, which is before an end.
#[inline(always)]
fn is_left_at(place: u32, end: u32, square: Square, region: &Region) -> bool
    requires { end ≤ length (live_of region.now.work.segments) }
    ensures { (kept rest : List (List ℕ)) → live_of region.now.work.segments ≡ kept ++ rest
        → end ≡ length kept → (st : TurnState) → square < 64 → at st.board square ≡ None
        → result ≡ false → is_next (drop place kept) st ≡ false }
{
    if place < end {
        let words = region.work_get(place);
        !contains(words[0] | words[1] | words[2], square)
    } else {
        false
    }
}

// The state that an accepted step makes, where it is the one that is kept at a place, which is
// before an end. It isn't made where there is a piece in that one on the square that the step
// leaves.
#[inline(always)]
fn kept_after(
    state: &TurnState,
    step: &Step,
    place: u32,
    end: u32,
    region: &Region,
) -> Option<TurnState>
    requires accepted { IsOk (next_answer state.now step.now) }
    requires end { end ≤ length (live_of region.now.work.segments) }
    ensures made { IfSome result (λ after. after ≡ next_state state.now step.now) }
    ensures kept { (kept rest : List (List ℕ)) → live_of region.now.work.segments ≡ kept ++ rest
        → end ≡ length kept
        → is_some result ≡ is_next (drop place kept) (next_state state.now step.now) }
    ensures inside { IfSome result (λ after. place + 1 < 2 ^ 32) }
{
    let _number = step.from.number();
    if !is_left_at(place, end, step.from, region) {
        return None;
    }
    let after = state.make(step);
    if is_kept_at(place, end, &after, region) {
        Some(after)
    } else {
        None
    }
}

// Places what the last steps bring about from the states that a step makes of this one, each where
// it is kept at the next place: that is its first list of steps. The answer is the place after
// those.
fn last_steps_from(
    state: &TurnState,
    first: u32,
    barred: &Barred,
    region: &mut Region,
) -> Result<u32, NoRoom>
    requires { 0 < length region.old.segments }
    ensures filled { IsFilled region.old region.new (is_ok result) (is_err result)
        (brings_first (brings_in_order barred.now) state.now
        (drop first (live_of region.old.work.segments)) (next_pairs state.now)) }
    ensures next { IfOk result (λ next. drop next (live_of region.old.work.segments)
        ≡ left_of_kept (drop first (live_of region.old.work.segments)) (next_pairs state.now)) }
    ensures work { region.new.work ≡ region.old.work }
{
    let end = region.work_len();
    let mut next = first;
    let mut steps = state.accepted();
    while let Some(step) = take_step(state, &mut steps) {
        if let Some(after) = kept_after(state, &step, next, end, region) {
            fill_ends(LastSteps::in_order(state, &step, &after), barred, region)?;
            next += 1;
        }
    }
    Ok(next)
}

// Places what a fourth step brings about from the states after three, which are kept from the place
// `third` on. They are made again, in order, from those after two, which are kept from `second` on,
// so that the step that made each is known.
fn last_steps(
    p: &Position,
    second: u32,
    third: u32,
    until: Until,
    barred: &Barred,
    region: &mut Region,
) -> Result<(), Stop>
    requires open { 0 < length region.old.segments }
    requires layers { region.old.work.segments ≡ layers_to p.now 3 }
    requires second { second ≡ length (live_of (layers_to p.now 1)) }
    requires third { third ≡ length (live_of (layers_to p.now 2)) }
    ensures filled { IsFilled region.old region.new (is_ok result) (is_room result)
        (brought_from barred.now p.now 3) }
    ensures work { region.new.work ≡ region.old.work }
    ensures layers { is_work result ≡ false }
    ensures won { is_won result ≡ true
        → may_end until p.now.side (top region.new.segments) ≡ true }
{
    let _corner = p.board.at(Square::C3);
    let mut next = third;
    for place in second..third {
        let state = TurnState::from_planes(p, region.work_get(place));
        let from = region.live();
        let Ok(after) = last_steps_from(&state, next, barred, region) else {
            return Err(Stop::Room);
        };
        if ends_list(until, state.board(), p.side, from, region) {
            return Err(Stop::Won);
        }
        next = after;
    }
    Ok(())
}

// Takes the states that the next steps make, in order, from the states that a step makes of this
// one, each where it is kept at the next place before the end of the layers below: that is its
// first list of steps. The answer is the place after those.
fn next_steps_from(
    state: &TurnState,
    first: u32,
    end: u32,
    barred: &Barred,
    region: &mut Region,
) -> Result<u32, Stop>
    requires open { 0 < length region.old.segments }
    requires open_layer { 0 < length region.old.work.segments }
    requires end { end ≡ length (live_of (below_top region.old.work.segments)) }
    ensures filled { IsFilled region.old region.new (is_ok result) (is_room result)
        (brings_first (next_in_order (brings barred.now 0)) state.now
        (drop first (live_of (below_top region.old.work.segments))) (next_pairs state.now)) }
    ensures kept { IsKept region.old.work region.new.work (is_ok result) (is_work result)
        (brings_first (next_in_order keeps) state.now
        (drop first (live_of (below_top region.old.work.segments))) (next_pairs state.now)) }
    ensures next { IfOk result (λ next. drop next (live_of (below_top region.old.work.segments))
        ≡ left_of_kept (drop first (live_of (below_top region.old.work.segments)))
        (next_pairs state.now)) }
    ensures unwon { is_won result ≡ false }
{
    let mut next = first;
    let mut steps = state.accepted();
    while let Some(step) = take_step(state, &mut steps) {
        if let Some(after) = kept_after(state, &step, next, end, region) {
            take_all(NextStates::in_order(state, &step, &after), barred, region)?;
            next += 1;
        }
    }
    Ok(next)
}

// Whether no trap of a board is due: each piece on a trap has a friend beside it.
fn is_settled(board: &Board) -> bool
    ensures { IsTrue result ↔ (settle board.now ≡ board.now) }
{
    board.settled() == *board
}

// Whether second steps are made in order after so many first ones: only where no trap of the start
// board is due, since a first step takes a piece off such a trap wherever it goes. All are made
// where that costs less: after at most four first steps, and where the list may end after one.
fn are_in_order(p: &Position, until: Until, firsts: u32) -> bool
    ensures { IsTrue result → settle p.now.board ≡ p.now.board }
{
    let may_end = match until {
        Until::All => false,
        Until::Win => has_rabbit_near(&p.board, p.side),
    };
    firsts > 4 && !may_end && is_settled(&p.board)
}

// Takes the states that a second step makes, in order where that may be and pays.
fn second_layer(
    p: &Position,
    until: Until,
    barred: &Barred,
    region: &mut Region,
) -> Result<(), Stop>
    requires open { 0 < length region.old.segments }
    requires layers { region.old.work.segments ≡ layers_to p.now 1 }
    ensures filled { IsFilled region.old region.new (is_ok result) (is_room result)
        (brought_from barred.now p.now 1) }
    ensures room { region.new.work.room ≡ region.old.work.room }
    ensures kept { OnOk result (region.new.work.segments ≡ layers_to p.now 2) }
    ensures work { is_work result ≡ true
        → region.old.work.room < length (live_of (layers_to p.now 2)) }
    ensures won { is_won result ≡ true
        → may_end until p.now.side (top region.new.segments) ≡ true }
{
    let _corner = p.board.at(Square::C3);
    let end = region.work_len();
    if !are_in_order(p, until, end) {
        return next_layer(p, 0, 0, until, barred, region);
    }
    region.work_layer();
    let start = TurnState::start(p);
    let from = region.live();
    next_steps_from(&start, 0, end, barred, region)?;
    if ends_list(until, &p.board, p.side, from, region) {
        return Err(Stop::Won);
    }
    Ok(())
}

// Takes the states that a third step makes, in order. The states after two steps, which are kept
// from the place `second` on, are made again from those after one, so that the step that made each
// is known. Of few states all third steps are taken, which costs less.
fn third_layer(
    p: &Position,
    second: u32,
    until: Until,
    barred: &Barred,
    region: &mut Region,
) -> Result<(), Stop>
    requires open { 0 < length region.old.segments }
    requires layers { region.old.work.segments ≡ layers_to p.now 2 }
    requires second { second ≡ length (live_of (layers_to p.now 1)) }
    ensures filled { IsFilled region.old region.new (is_ok result) (is_room result)
        (brought_from barred.now p.now 2) }
    ensures room { region.new.work.room ≡ region.old.work.room }
    ensures kept { OnOk result (region.new.work.segments ≡ layers_to p.now 3) }
    ensures work { is_work result ≡ true
        → region.old.work.room < length (live_of (layers_to p.now 3)) }
    ensures won { is_won result ≡ true
        → may_end until p.now.side (top region.new.segments) ≡ true }
{
    let _corner = p.board.at(Square::C3);
    let end = region.work_len();
    if end < 64 {
        return next_layer(p, 1, second, until, barred, region);
    }
    region.work_layer();
    let mut next = second;
    for place in 0..second {
        let state = TurnState::from_planes(p, region.work_get(place));
        let from = region.live();
        next = next_steps_from(&state, next, end, barred, region)?;
        if ends_list(until, state.board(), p.side, from, region) {
            return Err(Stop::Won);
        }
    }
    Ok(())
}

// Fills the layers, and places what they bring about.
fn fill_layers(p: &Position, until: Until, barred: &Barred, region: &mut Region) -> Result<(), Stop>
    requires open { 0 < length region.old.segments }
    ensures filled { IsFilled region.old region.new (is_ok result) (is_room result)
        (flat_map (brought_from barred.now p.now) (0 ∷ 1 ∷ 2 ∷ 3 ∷ [])) }
    ensures room { region.new.work.room ≡ region.old.work.room }
    ensures kept { OnOk result (region.new.work.segments ≡ layers_to p.now 3) }
    ensures work { is_work result ≡ true
        → region.old.work.room < length (live_of (layers_to p.now 3)) }
    ensures won { is_won result ≡ true
        → may_end until p.now.side (top region.new.segments) ≡ true }
{
    let from = region.live();
    first_layer(p, barred, region)?;
    if ends_list(until, &p.board, p.side, from, region) {
        return Err(Stop::Won);
    }
    let second = region.work_len();
    second_layer(p, until, barred, region)?;
    let third = region.work_len();
    third_layer(p, second, until, barred, region)?;
    last_steps(p, second, third, until, barred, region)
}

/// Fills a new top segment with the results of a position without the barred ones, as `results`
/// does, and the layers with the distinct states after one, two and three steps, one layer for each
/// number of steps.
///
/// Each state is extended once. After a refusal the region is as before. No memory is taken.
pub fn layered(p: &Position, barred: &Barred, region: &mut Region) -> Result<Mark, LayerFull>
    requires { length region.old.segments < 64 }
    ensures mark { IfOk result (λ mark. mark ≡ length region.old.segments) }
    ensures filled { OnOk result (region.new ≡ record region.old
        { segments = next barred.now p.now ∷ region.old.segments; work = region.new.work }) }
    ensures kept { OnOk result (region.new.work.segments ≡ distinct_layers p.now) }
    ensures room { IfErr result (λ full. IfRoom full (λ live. (live ≡ length
        (live_of region.old.segments)) ×
        (region.old.room < live + length (next barred.now p.now)))) }
    ensures work { IfErr result (λ full. IfWork full (region.old.work.room < length
        (live_of (distinct_layers p.now)))) }
    ensures unchanged { OnErr result (region.new ≡ record region.old { work = region.new.work }) }
    ensures layers_room { region.new.work.room ≡ region.old.work.room }
{
    let _corner = p.board.at(Square::C3);
    let live = region.live();
    let mark = region.mark();
    match fill_layers(p, Until::All, barred, region) {
        Ok(()) => Ok(mark),
        Err(stop) => {
            region.release(mark);
            Err(full_by(stop, live))
        }
    }
}

/// The same, but the list may end once it has a position that the rules have decided for the side
/// to move, and then without all layers.
pub(crate) fn layered_to_win(
    p: &Position,
    barred: &Barred,
    region: &mut Region,
) -> Result<Mark, LayerFull>
    requires { length region.old.segments < 64 }
    ensures mark { IfOk result (λ mark. mark ≡ length region.old.segments) }
    ensures opened { OnOk result (length region.new.segments ≡ suc (length region.old.segments)) }
    ensures below { OnOk result (below_top region.new.segments ≡ region.old.segments) }
    ensures listed { OnOk result (IsListed (list_any (is_won_by p.now.side)
        (top region.new.segments)) barred.now p.now (top region.new.segments)) }
    ensures room { IfErr result (λ full. IfRoom full (λ live. (live ≡ length
        (live_of region.old.segments)) ×
        (region.old.room < live + length (next barred.now p.now)))) }
    ensures unchanged { OnErr result (region.new ≡ record region.old { work = region.new.work }) }
    ensures room_kept { region.new.room ≡ region.old.room }
    ensures layers_room { region.new.work.room ≡ region.old.work.room }
{
    let _corner = p.board.at(Square::C3);
    let live = region.live();
    let opened = region.mark();
    match fill_layers(p, Until::Win, barred, region) {
        Ok(()) => Ok(opened),
        Err(stop) => match stop {
            Stop::Won => Ok(opened),
            Stop::Room => {
                region.release(opened);
                Err(LayerFull::Room { live })
            }
            Stop::Work => {
                region.release(opened);
                Err(LayerFull::Work)
            }
        },
    }
}
