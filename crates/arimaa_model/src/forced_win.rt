//! Who wins by force.
ghost use Rattle.std.specs.Prelude.{◌≡◌, ℕ, [], not, false, IfOk, IfSome, IfNone};
ghost use Rattle.std.specs.List.{list_any, filter};
ghost use Rattle.arimaa_model.specs.Results.{next, results, stands_in};
ghost use Rattle.arimaa_model.specs.DecidedPositions.{decided};
ghost use Rattle.arimaa_model.specs.Wins.{is_nil, wins, wins_among, settled_for};
ghost use Rattle.arimaa_model.specs.Ranks.{IsRank};

use crate::decision::decided;
use crate::plain::{extend, plain_results, stands_in};
use arimaa_board::{Color, Position};
use std::alloc::{AllocError, Global};

/// The results that are not barred, in the order of results. It fails for want of memory only.
pub fn next(alloc: Global, p: &Position, barred: &[Position]) -> Result<Vec<Position>, AllocError>
    ensures { IfOk result (λ v. v.items ≡ next barred.now p.now) }
{
    let results = plain_results(alloc, p)?;
    let mut out = Vec::new(alloc);
    for q in &results {
        if !stands_in(barred, q) {
            out.push(*q)?;
        }
    }
    Ok(out)
}

// Whether a list has a position that is not barred.
fn has_free(list: &[Position], barred: &[Position]) -> bool
    ensures { result ≡ list_any (λ q. not (stands_in barred.now q)) list.now }
{
    list.iter().any(|q| !stands_in(barred, q))
}

// Whether no result is left that is not barred. Most often a turn of one step shows that one is.
fn is_stuck(alloc: Global, p: &Position, barred: &[Position]) -> Result<bool, AllocError>
    ensures { IfOk result (λ r. r ≡ is_nil (next barred.now p.now)) }
{
    let mut near = Vec::new(alloc);
    extend(alloc, p, &[], 1, &mut near)?;
    if has_free(&near, barred) {
        return Ok(false);
    }
    let list = next(alloc, p, barred)?;
    Ok(list.is_empty())
}

// Whether the attacker wins some of the positions where it is to move, and else all.
#[cycle(wins)]
fn wins_among(
    alloc: Global,
    any: bool,
    list: &[Position],
    depth: u8,
    attacker: Color,
    barred: &[Position],
) -> Result<bool, AllocError>
    ensures { IfOk result (λ r. r ≡ wins_among any (wins attacker barred.now depth) list.now) }
{
    for q in list {
        if plain_wins(alloc, q, depth, attacker, barred)? == any {
            return Ok(any);
        }
    }
    Ok(!any)
}

/// Whether the attacker wins the position within `depth` turns, where the barred positions may not
/// be entered.
///
/// Each position is looked through anew, so it serves small positions only. It fails for want of
/// memory only.
#[cycle(wins)]
pub fn plain_wins(
    alloc: Global,
    p: &Position,
    depth: u8,
    attacker: Color,
    barred: &[Position],
) -> Result<bool, AllocError>
    ensures { IfOk result (λ r. r ≡ wins attacker barred.now depth p.now) }
{
    if let Some(ending) = decided(p) {
        return Ok(ending.winner == attacker);
    }
    if is_stuck(alloc, p, barred)? {
        return Ok(p.side != attacker);
    }
    if depth == 0 {
        return Ok(false);
    }
    let list = next(alloc, p, barred)?;
    let own = p.side == attacker;
    wins_among(alloc, own, &list, depth - 1, attacker, barred)
}

/// The rank of the position: the least number of turns within which the attacker wins it.
///
/// None exactly where the attacker does not win it within `most` turns.
pub fn plain_rank(
    alloc: Global,
    p: &Position,
    most: u8,
    attacker: Color,
    barred: &[Position],
) -> Result<Option<u8>, AllocError>
    ensures rank { IfOk result (λ o. IfSome o (λ r. IsRank attacker barred.now p.now r)) }
    ensures none { IfOk result (λ o. IfNone o (wins attacker barred.now most p.now ≡ false)) }
{
    for depth in 0..most {
        if plain_wins(alloc, p, depth, attacker, barred)? {
            return Ok(Some(depth));
        }
    }
    if plain_wins(alloc, p, most, attacker, barred)? {
        return Ok(Some(most));
    }
    Ok(None)
}
