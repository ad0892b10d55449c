//! Barred positions.
ghost use Rattle.std.specs.Prelude.{◌≡◌, [], ◌∷◌, ◌++◌, IfOk, OnOk, OnErr, option_to_list};
ghost use Rattle.arimaa_board.specs.declared.position.Position.{Position};
ghost use Rattle.arimaa_model.specs.Members.{AreDistinct};
ghost use Rattle.arimaa_model.specs.Results.{stands_in};
ghost use Rattle.arimaa_history.specs.Counts.{without_last};

use crate::key::Key;
use arimaa_board::Position;
use std::alloc::{AllocError, Global};
use std::collections::HashSet;
use std::marker::Model;

/// Positions that no turn may bring about, in a given order. A contract sees them as their list.
///
/// An index beside the list tells whether a position is barred, in a time that does not grow with
/// the number of barred positions.
#[derive(Drop)]
pub struct Barred {
    positions: Vec<Position>,
    // the keys of the positions
    keys: HashSet<Key>,
}

impl Model for Barred {
    ghost use Rattle.std.specs.Prelude.{List};
    ghost use Rattle.arimaa_board.specs.declared.position.Position.{Position};
    ghost use Rattle.arimaa_history.specs.Counts.{AreKeys};

    ghost Value = { List Position };

    ghost view = { λ b. b.positions.items };

    ghost invariant = { λ b. AreKeys b.positions.items b.keys };
}

impl Barred {
    /// No barred positions.
    pub fn new(alloc: Global) -> Barred
        ensures { result ≡ [] }
    {
        Barred {
            positions: Vec::new(alloc),
            keys: HashSet::new(alloc),
        }
    }

    /// Adds a position at the end. It fails for want of memory only, and then the list is as
    /// before.
    pub fn push(&mut self, p: Position) -> Result<(), AllocError>
        ensures pushed { OnOk result (self.new ≡ self.old ++ p ∷ []) }
        ensures refused { OnErr result (self.new ≡ self.old) }
    {
        // what may fail comes first, and changes nothing where it does
        self.positions.reserve(1)?;
        self.keys.insert(Key::of(&p))?;
        self.positions.push(p).unwrap();
        Ok(())
    }

    /// Takes the last position from the list, which has none twice, and answers it. It takes no
    /// memory.
    pub fn pop(&mut self) -> Option<Position>
        requires { AreDistinct self.old }
        ensures popped { self.old ≡ self.new ++ option_to_list result }
        ensures rest { self.new ≡ without_last self.old }
    {
        let p = self.positions.pop()?;
        self.keys.remove(&Key::of(&p));
        Some(p)
    }

    /// Whether a position is barred. Where none is, its key is not even made.
    pub fn contains(&self, p: &Position) -> bool
        ensures { result ≡ stands_in self.now p.now }
    {
        !self.positions.is_empty() && self.keys.contains(&Key::of(p))
    }

    /// The positions in order.
    pub fn as_slice(&self) -> &[Position]
        ensures { result.now ≡ self.now }
    {
        &self.positions
    }

    /// The same positions, in memory of their own. It fails for want of memory only.
    pub fn copy(&self, alloc: Global) -> Result<Barred, AllocError>
        ensures { IfOk result (λ copy. copy ≡ self.now) }
    {
        let mut copy = Barred::new(alloc);
        'positions: for p in self.positions.iter() {
            copy.push(*p)?;
        }
        Ok(copy)
    }
}
