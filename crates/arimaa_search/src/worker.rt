//! A worker asks questions within a budget and a room.
ghost use Rattle.std.specs.Prelude.{◌≡◌, ℕ, ◌-◌, ◌<◌, ◌≤◌, IfOk, None};
ghost use Rattle.arimaa_model.specs.DecidedPositions.{decided};
ghost use Rattle.arimaa_forced.specs.Search.{cost, crowd};
ghost use Rattle.arimaa_line.specs.Index.{place_of};
ghost use Rattle.arimaa_table.specs.Passes.{lines_of, setting_of, steps_of, place_view, IsPassOf, KeepsNoOlder, NoFewer};
ghost use Rattle.arimaa_search.specs.Questions.{IsAnswer, IsTold, IsVerdict};
ghost use Rattle.arimaa_search.specs.Traces.{Stepped, SteppedThrough};

use crate::answer::Asked;
use crate::search::ask;
use crate::stop::Stop;
use arimaa_board::Position;
use arimaa_region::Region;
use arimaa_table::{Table, TablePass};
use std::alloc::{AllocError, Global};
use std::marker::Model;

/// Asks one question after another, with a region of its own.
///
/// Contracts see its room, its budget, and the count of the last question.
#[derive(Drop)]
pub struct Worker {
    region: Region,
    budget: u64,
    counted: u64,
}

impl Model for Worker {
    ghost use Rattle.std.specs.Prelude.{◌≡◌, []};
    ghost use Rattle.arimaa_search.specs.Workers.{Means};

    ghost Value = { Means };

    ghost view = { λ w. record { room = w.region.room; budget = w.budget; counted = w.counted } };

    ghost invariant = { λ w. w.region.segments ≡ [] };
}

impl Worker {
    /// A worker with so many places for positions, from 1 to 1,048,576, that opens at most `budget`
    /// questions in a call.
    ///
    /// This call alone takes memory. `AllocError` comes only where there is too little of it.
    pub fn new(alloc: Global, room: u32, budget: u64) -> Result<Worker, AllocError>
        requires some { 1 ≤ room }
        requires most { room ≤ 1048576 }
        ensures room { IfOk result (λ w. w.room ≡ room) }
        ensures budget { IfOk result (λ w. w.budget ≡ budget) }
        ensures counted { IfOk result (λ w. w.counted ≡ 0) }
    {
        let region = Region::with_work(alloc, room, 32_768)?;
        Ok(Worker {
            region,
            budget,
            counted: 0,
        })
    }

    /// How many questions the last call of `ask` opened, 0 before the first.
    pub fn counted(&self) -> u64
        ensures { result ≡ self.now.counted }
    {
        self.counted
    }

    /// Whether the table's attacker wins a position within `depth` turns, at most 20, where the
    /// table's barred positions may not be entered.
    ///
    /// A line of the table that names the position answers where one of its bounds does. Else the
    /// question is opened and counts one: its next positions are asked about at one turn less, in
    /// their order, up to the first decisive one, and the verdict is put into the table as a bound.
    /// A line that is busy answers no question and is told nothing. `Spent` comes only where the
    /// cost of the question is above the budget, and `Crowded` only where its crowd is above the
    /// room. It takes no memory.
    pub fn ask(&mut self, table: &Table, pass: &mut TablePass, p: &Position, depth: u8) -> Asked
        requires pass { IsPassOf table.now pass.old }
        requires depth { depth ≤ 20 }
        ensures pass { IsPassOf table.now pass.new }
        ensures later { KeepsNoOlder pass.old pass.new }
        ensures grown { NoFewer (steps_of pass.old) (steps_of pass.new) }
        ensures room { self.new.room ≡ self.old.room }
        ensures budget { self.new.budget ≡ self.old.budget }
        ensures answer { IsAnswer (setting_of table.now).attacker
            (setting_of table.now).barred depth p.now self.old.room self.old.budget self.new.counted
            result }
        ensures within_cost { self.new.counted ≤ cost (setting_of table.now).attacker
            (setting_of table.now).barred depth p.now }
        ensures within_budget { self.new.counted ≤ self.old.budget }
        ensures here { Stepped (lines_of table.now) (steps_of pass.old) (steps_of pass.new) p.now }
        ensures told { self.new.counted ≡ 0
            → IsTold (place_view pass.new (place_of p.now (lines_of table.now))).kept p.now depth
            result }
        ensures replies { IsVerdict result → 0 < self.new.counted → decided p.now ≡ None → 1 ≤ depth
            → SteppedThrough (setting_of table.now).attacker (setting_of table.now).barred
            (lines_of table.now) (depth - 1) p.now (steps_of pass.old) (steps_of pass.new) }
        ensures enough { cost (setting_of table.now).attacker
            (setting_of table.now).barred depth p.now ≤ self.old.budget
            → crowd (setting_of table.now).barred depth p.now ≤ self.old.room → IsVerdict result }
    {
        let mut left = self.budget;
        let answer = ask(table, pass, &mut self.region, &mut left, p, depth);
        self.counted = self.budget - left;
        match answer {
            Ok(true) => Asked::Yes,
            Ok(false) => Asked::No,
            Err(Stop::Spent) => Asked::Spent {
                position: *p,
                depth,
                counted: self.counted,
            },
            Err(Stop::Crowded) => Asked::Crowded {
                position: *p,
                depth,
            },
        }
    }
}
