//! Strategies.
ghost use Rattle.std.specs.Prelude.{◌≡◌, ◌<◌, None, Some, [], ◌∷◌, ◌++◌, length, is_some, take, IfSome, OnOk, OnErr, if◌then◌else◌};
ghost use Rattle.std.specs.HashMap.{get};
ghost use Rattle.std.specs.Option.{option_map, option_or};
ghost use Rattle.arimaa_model.specs.Strategies.{find_entry};
ghost use Rattle.arimaa_history.specs.declared.key.Key.{Key as KeyValue};
ghost use Rattle.arimaa_strategy.specs.Entries.{HaveSteps, plan_of, place_of};
ghost use Rattle.arimaa_history.specs.Counts.{same_key};

use arimaa_board::Position;
use arimaa_forced::Entry;
use arimaa_history::Key;
use std::alloc::{AllocError, Global};
use std::collections::HashMap;
use std::marker::Model;

/// The entries of a strategy in order, each with a turn of at least one step.
///
/// A contract sees it as the list of them. An index finds the first entry of a position, in a time
/// that does not grow with the number of entries.
#[derive(Drop)]
pub struct Strategy {
    entries: Vec<Entry>,
    // the number of the first entry of each position
    places: HashMap<Key, usize>,
}

impl Model for Strategy {
    ghost use Rattle.std.specs.Prelude.{List};
    ghost use Rattle.arimaa_forced.specs.declared.entry.Entry.{Entry};
    ghost use Rattle.arimaa_strategy.specs.Places.{AreKept};

    ghost Value = { List Entry };

    ghost view = { λ s. s.entries.items };

    ghost invariant = { λ s. AreKept s.entries.items s.places };
}

// Files a number under a key, unless the key has one.
fn file(places: &mut HashMap<Key, usize>, key: Key, number: usize) -> Result<(), AllocError>
    ensures filed { OnOk result ((k : KeyValue) → get same_key places.new k
        ≡ option_or (get same_key places.old k) (if same_key key k then Some number else None)) }
    ensures unchanged { OnErr result ((k : KeyValue) → get same_key places.new k
        ≡ get same_key places.old k) }
{
    if places.contains_key(&key) {
        return Ok(());
    }
    places.insert(key, number)?;
    Ok(())
}

impl Strategy {
    /// The strategy with no entry.
    pub fn new(alloc: Global) -> Strategy
        ensures { result ≡ [] }
    {
        Strategy {
            entries: Vec::new(alloc),
            places: HashMap::new(alloc),
        }
    }

    /// Adds an entry at the end. It fails for want of memory only, and then the strategy is as
    /// before.
    pub fn push(&mut self, entry: Entry) -> Result<(), AllocError>
        requires { 0 < length entry.turn }
        ensures pushed { OnOk result (self.new ≡ self.old ++ entry ∷ []) }
        ensures unchanged { OnErr result (self.new ≡ self.old) }
    {
        // what may fail comes first, and changes nothing where it does
        self.entries.reserve(1)?;
        file(
            &mut self.places,
            Key::of(&entry.position),
            self.entries.len(),
        )?;
        self.entries.push(entry).unwrap();
        Ok(())
    }

    /// The entries.
    pub fn entries(&self) -> &[Entry]
        ensures value { result.now ≡ self.now }
        ensures steps { HaveSteps self.now }
    {
        let _ = &self.places;
        self.entries.as_slice()
    }

    /// The number of the first entry of a position, counted from 0; none exactly where it has none.
    pub fn first_entry(&self, p: &Position) -> Option<usize>
        ensures place { result ≡ place_of self.now p.now }
        ensures within { IfSome result (λ k. k < length self.now) }
    {
        let _ = &self.entries;
        self.places.get(&Key::of(p)).copied()
    }

    /// The rank of the first entry of a position.
    pub fn rank_of(&self, p: &Position) -> Option<u8>
        ensures { result ≡ option_map (λ e. e.rank) (find_entry (plan_of self.now) p.now) }
    {
        match self.first_entry(p) {
            None => None,
            Some(place) => Some(self.entries()[place].rank),
        }
    }

    /// Whether one of the first `count` entries is that of a position.
    pub fn stands_before(&self, count: usize, p: &Position) -> bool
        ensures { result ≡ is_some (find_entry (plan_of (take count self.now)) p.now) }
    {
        match self.first_entry(p) {
            None => false,
            Some(place) => place < count,
        }
    }
}
