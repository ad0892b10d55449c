//! Lists of escapes.
ghost use Rattle.std.specs.Prelude.{◌≡◌, ◌<◌, None, Some, [], ◌∷◌, ◌++◌, length, take, OnOk, OnErr, if◌then◌else◌};
ghost use Rattle.std.specs.HashMap.{get};
ghost use Rattle.arimaa_model.specs.Results.{stands_in};
ghost use Rattle.arimaa_history.specs.Counts.{same_key};
ghost use Rattle.arimaa_history.specs.declared.key.Key.{Key as KeyValue};
ghost use Rattle.arimaa_refute.specs.Escapes.{EscapesHaveSteps, has_escape};
ghost use Rattle.arimaa_refute.specs.Flaws.{positions_of};
ghost use Rattle.arimaa_refute.specs.Places.{place_in, place_with};

use crate::escape::Escape;
use crate::place::Place;
use arimaa_board::Position;
use arimaa_history::Key;
use std::alloc::{AllocError, Global};
use std::collections::HashMap;
use std::marker::Model;

/// Escapes in order, each with a turn of at least one step.
///
/// A contract sees it as the list of them. An index finds what is asked of the escapes of a
/// position, in a time that does not grow with the number of escapes.
#[derive(Drop)]
pub struct Escapes {
    escapes: Vec<Escape>,
    // where the escapes of each position stand
    places: HashMap<Key, Place>,
}

impl Model for Escapes {
    ghost use Rattle.std.specs.Prelude.{List};
    ghost use Rattle.arimaa_refute.specs.declared.escape.Escape.{Escape};
    ghost use Rattle.arimaa_refute.specs.Places.{AreKept};

    ghost Value = { List Escape };

    ghost view = { λ c. c.escapes.items };

    ghost invariant = { λ c. AreKept c.escapes.items c.places };
}

// Files an escape under a key: its number, unless the key has one, and its depth, unless the key
// has a greater one.
fn file(
    places: &mut HashMap<Key, Place>,
    key: Key,
    number: usize,
    depth: u8,
) -> Result<(), AllocError>
    ensures filed { OnOk result ((k : KeyValue) → get same_key places.new k ≡ if same_key key k
        then Some (place_with (get same_key places.old key) number depth)
        else get same_key places.old k) }
    ensures unchanged { OnErr result ((k : KeyValue) → get same_key places.new k
        ≡ get same_key places.old k) }
{
    let place = match places.get(&key) {
        None => Place {
            first: number,
            depth,
        },
        Some(place) => Place {
            first: place.first,
            depth: place.depth.max(depth),
        },
    };
    places.insert(key, place)?;
    Ok(())
}

impl Escapes {
    /// No escapes.
    pub fn new(alloc: Global) -> Escapes
        ensures { result ≡ [] }
    {
        Escapes {
            escapes: Vec::new(alloc),
            places: HashMap::new(alloc),
        }
    }

    /// Adds an escape at the end. Where there is no memory for it, nothing changes.
    pub fn push(&mut self, escape: Escape) -> Result<(), AllocError>
        requires steps { 0 < length escape.turn }
        ensures pushed { OnOk result (self.new ≡ self.old ++ escape ∷ []) }
        ensures unchanged { OnErr result (self.new ≡ self.old) }
    {
        // what may fail comes first, and changes nothing where it does
        self.escapes.reserve(1)?;
        file(
            &mut self.places,
            Key::of(&escape.position),
            self.escapes.len(),
            escape.depth,
        )?;
        self.escapes.push(escape).unwrap();
        Ok(())
    }

    /// The escapes.
    pub fn entries(&self) -> &[Escape]
        ensures value { result.now ≡ self.now }
        ensures steps { EscapesHaveSteps self.now }
    {
        let _ = &self.places;
        self.escapes.as_slice()
    }

    // What is kept of the escapes of a position, if it has any.
    fn place(&self, p: &Position) -> Option<Place>
        ensures { result ≡ place_in self.now p.now }
    {
        let _ = &self.escapes;
        self.places.get(&Key::of(p)).copied()
    }

    /// Whether one of the first `count` escapes is that of a position.
    pub fn stands_before(&self, count: usize, p: &Position) -> bool
        ensures { result ≡ stands_in (positions_of (take count self.now)) p.now }
    {
        match self.place(p) {
            None => false,
            Some(place) => place.first < count,
        }
    }

    /// Whether a position has an escape of at least this depth.
    pub fn has_escape(&self, p: &Position, depth: u8) -> bool
        ensures { result ≡ has_escape self.now p.now depth }
    {
        match self.place(p) {
            None => false,
            Some(place) => depth <= place.depth,
        }
    }
}
