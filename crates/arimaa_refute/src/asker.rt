//! One worker with its table and its pass, which asks on behalf of a root.
ghost use Rattle.std.specs.Prelude.{◌≡◌, ◌≤◌, IfOk, IfErr};
ghost use Rattle.arimaa_model.specs.Wins.{wins};
ghost use Rattle.arimaa_table.specs.Passes.{setting_of, IsPassOf};
ghost use Rattle.arimaa_refute.specs.Refutations.{IsBelow, IsFailure};

use crate::failure::{Failure, Reason};
use arimaa_board::{Color, Position};
use arimaa_history::Barred;
use arimaa_search::{Asked, Worker};
use arimaa_table::{Table, TablePass};
use std::marker::Model;

// A worker with a pass of the table that it asks, and the question that all its questions come
// from.
//
// Contracts see the terms on which it asks. They never change.
#[derive(Drop)]
pub(crate) struct Asker<'a> {
    table: &'a Table,
    pass: TablePass,
    worker: Worker,
    root: Position,
    turns: u8,
}

impl<'a> Model for Asker<'a> {
    ghost use Rattle.arimaa_table.specs.Passes.{setting_of, IsPassOf};
    ghost use Rattle.arimaa_refute.specs.Refutations.{Terms};

    ghost Value = { Terms };

    ghost view = { λ a. record {
      attacker = (setting_of a.table.now).attacker;
      barred = (setting_of a.table.now).barred;
      budget = a.worker.budget;
      room = a.worker.room;
      root = a.root;
      turns = a.turns;
    } };

    ghost invariant = { λ a. IsPassOf a.table.now a.pass };
}

impl<'a> Asker<'a> {
    // A worker asks this table with this pass, on behalf of a root and so many turns.
    pub(crate) fn new(
        table: &'a Table,
        pass: TablePass,
        worker: Worker,
        root: Position,
        turns: u8,
    ) -> Asker<'a>
        requires { IsPassOf table.now pass }
        ensures attacker { result.attacker ≡ (setting_of table.now).attacker }
        ensures barred { result.barred ≡ (setting_of table.now).barred }
        ensures budget { result.budget ≡ worker.budget }
        ensures room { result.room ≡ worker.room }
        ensures root { result.root ≡ root }
        ensures turns { result.turns ≡ turns }
    {
        Asker {
            table,
            pass,
            worker,
            root,
            turns,
        }
    }

    // The side that is to win.
    pub(crate) fn attacker(&self) -> Color
        ensures { result ≡ self.now.attacker }
    {
        self.table.attacker()
    }

    // The positions that may not be entered.
    pub(crate) fn barred(&self) -> &Barred
        ensures { result.now ≡ self.now.barred }
    {
        self.table.barred()
    }

    // Whether the attacker wins a position within `depth` turns.
    pub(crate) fn ask(&mut self, p: &Position, depth: u8) -> Result<bool, Failure>
        requires depth { depth ≤ 20 }
        requires below { IsBelow self.old depth p.now }
        ensures same { self.new ≡ self.old }
        ensures verdict { IfOk result (λ v. v
            ≡ wins self.old.attacker self.old.barred depth p.now) }
        ensures failure { IfErr result (IsFailure self.old) }
    {
        match self.worker.ask(self.table, &mut self.pass, p, depth) {
            Asked::Yes => Ok(true),
            Asked::No => Ok(false),
            Asked::Spent { counted, .. } => Err(Failure::Stopped {
                position: *p,
                depth,
                reason: Reason::Spent { counted },
            }),
            Asked::Crowded { .. } => Err(Failure::Stopped {
                position: *p,
                depth,
                reason: Reason::Crowded,
            }),
        }
    }
}
