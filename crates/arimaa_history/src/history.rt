//! The history of a game.
ghost use Rattle.std.specs.Prelude.{◌≡◌, ◌↔◌, ◌<◌, ◌≤◌, [], ◌∷◌, ◌++◌, ◌==◌, ◌+◌, ◌-◌, ◌&&◌, IfOk, IsNone, OnOk, OnErr, false, true, not, nat_le, option_to_list, if◌then◌else◌};
ghost use Rattle.arimaa_board.specs.declared.position.Position.{Position};
ghost use Rattle.arimaa_model.specs.Game.{barred_by, count_in, present};
ghost use Rattle.arimaa_model.specs.Members.{AreDistinct, Stands};
ghost use Rattle.std.specs.Ordering.{is_eq};
ghost use Rattle.arimaa_history.specs.declared.key.Key.{Key};
ghost use Rattle.arimaa_history.specs.Counts.{IsCounted, count_of, has_key, order_of};

use crate::barred_positions::Barred;
use crate::key::Key;
use arimaa_board::Position;
use std::alloc::{AllocError, Global};
use std::collections::{BTreeMap, BTreeSet};
use std::marker::Model;

/// The positions of a game in order, the present one last.
///
/// A position is a board with the side to move. One that stands at least twice is barred: no turn
/// may bring it about any more. A contract sees a history as the list of its positions.
///
/// To count a position or to add one takes one search of an ordered set, and a second one, of an
/// ordered map, where the position stands there already. Their time grows with the logarithm of the
/// number of distinct positions.
#[derive(Drop)]
pub struct History {
    positions: Vec<Position>,
    // their keys
    keys: BTreeSet<Key>,
    // how often each that stands at least twice stands there after the first time
    again: BTreeMap<Key, u64>,
    barred: Barred,
}

impl Model for History {
    ghost use Rattle.std.specs.Prelude.{List};
    ghost use Rattle.arimaa_board.specs.declared.position.Position.{Position};
    ghost use Rattle.arimaa_history.specs.Counts.{AreKept};

    ghost Value = { List Position };

    ghost view = { λ h. h.positions.items };

    ghost invariant = { λ h. AreKept h.positions.items h.barred h.keys h.again };
}

// Adds a position to a list where it stood, `again` times after the first, and to the barred ones
// where it stood once.
fn add(
    positions: &mut Vec<Position>,
    barred: &mut Barred,
    again: u64,
    p: &Position,
) -> Result<(), AllocError>
    ensures positions { OnOk result (positions.new.items ≡ positions.old.items ++ p.now ∷ []) }
    ensures barred { OnOk result
        (barred.new ≡ barred.old ++ (if again == 0 then p.now ∷ [] else [])) }
    ensures refused { OnErr result (positions.new.items ≡ positions.old.items) }
    ensures kept { OnErr result (barred.new ≡ barred.old) }
{
    positions.reserve(1)?;
    if again == 0 {
        barred.push(*p)?;
    }
    positions.push(*p).unwrap();
    Ok(())
}

// Adds a position to a list and its key to the keys, unless they have the key already, and answers
// whether it was added.
fn add_new(
    positions: &mut Vec<Position>,
    keys: &mut BTreeSet<Key>,
    key: Key,
    p: Position,
) -> Result<bool, AllocError>
    ensures added { IfOk result (λ added. added ≡ not (has_key keys.old key)) }
    ensures positions { IfOk result (λ added. positions.new.items
        ≡ (if added then positions.old.items ++ p ∷ [] else positions.old.items)) }
    ensures keys { OnOk result ((k : Key) → has_key keys.new k
        ≡ (if is_eq (order_of key k) then true else has_key keys.old k)) }
    ensures refused { OnErr result (positions.new.items ≡ positions.old.items) }
    ensures kept { OnErr result ((k : Key) → has_key keys.new k ≡ has_key keys.old k) }
    ensures new { OnErr result (has_key keys.old key ≡ false) }
{
    if !keys.insert(key)? {
        return Ok(false);
    }
    if let Err(error) = positions.reserve(1) {
        keys.remove(&key);
        return Err(error);
    }
    positions.push(p).unwrap();
    Ok(true)
}

// Counts a key once less, and answers how often it was counted before. A key that is counted no
// more leaves the map.
fn count_less(counts: &mut BTreeMap<Key, u64>, key: &Key) -> u64
    ensures before { result ≡ count_of counts.old key.now }
    ensures counted { IsCounted counts.old counts.new key.now (count_of counts.old key.now - 1) }
{
    let count = counts.get(key).copied().unwrap_or(0);
    if count < 2 {
        counts.remove(key);
        return count;
    }
    match counts.get_mut(key) {
        Some(place) => {
            *place = count - 1;
            count
        }
        None => 0,
    }
}

impl History {
    /// The history with no position.
    pub fn new(alloc: Global) -> History
        ensures { result ≡ [] }
    {
        History {
            positions: Vec::new(alloc),
            keys: BTreeSet::new(alloc),
            again: BTreeMap::new(alloc),
            barred: Barred::new(alloc),
        }
    }

    // Adds a position at the end, unless it stands there `limit` times, and answers whether it was
    // added.
    #[tactic(auto, using(crate::proofs::Counting::unchanged_counts))]
    fn push_below(&mut self, p: Position, limit: u64) -> Result<bool, AllocError>
        requires { 2 ≤ limit }
        ensures added { IfOk result (λ added. added ≡ not (nat_le limit (count_in self.old p))) }
        ensures pushed { IfOk result
            (λ added. self.new ≡ (if added then self.old ++ p ∷ [] else self.old)) }
        ensures below { OnErr result (nat_le limit (count_in self.old p) ≡ false) }
        ensures refused { OnErr result (self.new ≡ self.old) }
    {
        let key = Key::of(&p);
        if add_new(&mut self.positions, &mut self.keys, key, p)? {
            return Ok(true);
        }
        let again = self.again.entry(key)?.or_insert(0);
        if limit - 1 <= *again {
            return Ok(false);
        }
        add(&mut self.positions, &mut self.barred, *again, &p)?;
        *again += 1;
        Ok(true)
    }

    /// Adds a position at the end. It fails for want of memory only, and then the history is as
    /// before.
    pub fn push(&mut self, p: Position) -> Result<(), AllocError>
        ensures pushed { OnOk result (self.new ≡ self.old ++ p ∷ []) }
        ensures refused { OnErr result (self.new ≡ self.old) }
    {
        let _few = self.positions.len();
        self.push_below(p, u64::MAX)?;
        Ok(())
    }

    /// Adds a position at the end, unless it stands there twice already, and answers whether it was
    /// added.
    ///
    /// It fails for want of memory only, and only where it would add the position. Where it does
    /// not add it, the history is as before.
    pub fn push_unless_third(&mut self, p: Position) -> Result<bool, AllocError>
        ensures added { IfOk result (λ added. added ≡ not (nat_le 2 (count_in self.old p))) }
        ensures pushed { IfOk result
            (λ added. self.new ≡ (if added then self.old ++ p ∷ [] else self.old)) }
        ensures below { OnErr result (nat_le 2 (count_in self.old p) ≡ false) }
        ensures refused { OnErr result (self.new ≡ self.old) }
    {
        self.push_below(p, 2)
    }

    /// Takes the last position from the history, and answers it. None exactly where the history has
    /// no position. It takes no memory.
    ///
    /// The position is barred no more exactly where it stood twice.
    pub fn pop(&mut self) -> Option<Position>
        ensures popped { self.old ≡ self.new ++ option_to_list result }
        ensures none { IsNone result ↔ (self.old ≡ []) }
    {
        let p = self.positions.pop()?;
        let key = Key::of(&p);
        match count_less(&mut self.again, &key) {
            0 => {
                self.keys.remove(&key);
            }
            1 => {
                self.barred.pop();
            }
            _ => {}
        }
        Some(p)
    }

    /// How often a position stands in the history, with the same side to move.
    pub fn count(&self, p: &Position) -> u64
        ensures { result ≡ count_in self.now p.now }
    {
        let _few = self.positions.len();
        let key = Key::of(p);
        if !self.keys.contains(&key) {
            return 0;
        }
        self.again.get(&key).copied().unwrap_or(0) + 1
    }

    /// The positions in order.
    pub fn as_slice(&self) -> &[Position]
        ensures { result.now ≡ self.now }
    {
        &self.positions
    }

    /// Each position that stands at least twice, once, in the order in which they came to stand
    /// twice.
    pub fn barred(&self) -> &Barred
        ensures value { result.now ≡ barred_by self.now }
        ensures twice { (q : Position) → Stands result.now q ↔ (2 ≤ count_in self.now q) }
        ensures distinct { AreDistinct result.now }
    {
        let _ = &self.positions;
        &self.barred
    }

    /// The present position: the last one. None exactly where the history has no position.
    pub fn last(&self) -> Option<Position>
        ensures { result ≡ present self.now }
    {
        self.positions.last().copied()
    }
}
