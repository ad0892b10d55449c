//! One worker with its table and its pass.
ghost use Rattle.std.specs.Prelude.{◌≡◌, ◌≤◌, IfOk, IfErr};
ghost use Rattle.arimaa_board.specs.declared.position.Position.{Position};
ghost use Rattle.arimaa_model.specs.Wins.{wins};
ghost use Rattle.arimaa_table.specs.Passes.{setting_of, IsPassOf};
ghost use Rattle.arimaa_pool.specs.Stops.{IsStop};

use crate::stop::{Reason, Stop};
use arimaa_board::{Color, Position};
use arimaa_history::Barred;
use arimaa_search::{Asked, Worker};
use arimaa_table::{Table, TablePass};
use std::marker::Model;

/// A worker with a pass of the table that it asks.
///
/// Contracts see the terms on which it asks. They never change.
#[derive(Drop)]
pub(crate) struct Asker<'a> {
    table: &'a Table,
    pass: TablePass,
    worker: Worker,
}

impl<'a> Model for Asker<'a> {
    ghost use Rattle.arimaa_table.specs.Passes.{setting_of, IsPassOf};
    ghost use Rattle.arimaa_pool.specs.Terms.{Terms};

    ghost Value = { Terms };

    ghost view = { λ a. record {
      attacker = (setting_of a.table.now).attacker;
      barred = (setting_of a.table.now).barred;
      budget = a.worker.budget;
      room = a.worker.room;
    } };

    ghost invariant = { λ a. IsPassOf a.table.now a.pass };
}

impl<'a> Asker<'a> {
    /// A worker asks this table with this pass.
    pub(crate) fn new(table: &'a Table, pass: TablePass, worker: Worker) -> Asker<'a>
        requires { IsPassOf table.now pass }
        ensures attacker { result.attacker ≡ (setting_of table.now).attacker }
        ensures barred { result.barred ≡ (setting_of table.now).barred }
        ensures budget { result.budget ≡ worker.budget }
        ensures room { result.room ≡ worker.room }
    {
        Asker {
            table,
            pass,
            worker,
        }
    }

    /// The side that is to win.
    pub(crate) fn attacker(&self) -> Color
        ensures { result ≡ self.now.attacker }
    {
        self.table.attacker()
    }

    /// The positions that may not be entered.
    pub(crate) fn barred(&self) -> &Barred
        ensures { result.now ≡ self.now.barred }
    {
        self.table.barred()
    }

    /// Whether the attacker wins a position within `depth` turns.
    pub(crate) fn ask(&mut self, p: &Position, depth: u8) -> Result<bool, Stop>
        requires { depth ≤ 20 }
        ensures same { self.new ≡ self.old }
        ensures verdict { IfOk result (λ v. v
            ≡ wins self.old.attacker self.old.barred depth p.now) }
        ensures stop { IfErr result (IsStop self.old (λ q j. (q ≡ p.now) × (j ≡ depth))) }
    {
        match self.worker.ask(self.table, &mut self.pass, p, depth) {
            Asked::Yes => Ok(true),
            Asked::No => Ok(false),
            Asked::Spent {
                position,
                depth,
                counted,
            } => Err(Stop {
                position,
                depth,
                reason: Reason::Spent { counted },
            }),
            Asked::Crowded { position, depth } => Err(Stop {
                position,
                depth,
                reason: Reason::Crowded,
            }),
        }
    }
}
