//! The workers of a prover.
ghost use Rattle.std.specs.Prelude.{◌≡◌, ◌+◌, ◌<◌, ◌≤◌, IfOk, IfErr, OnOk};
ghost use Rattle.arimaa_model.specs.Wins.{wins};
ghost use Rattle.arimaa_table.specs.Passes.{setting_of, IsPassOf};
ghost use Rattle.crossbeam_utils.specs.Padded.{padded_value};
ghost use Rattle.arimaa_pool.specs.Crews.{IsTaken};
ghost use Rattle.arimaa_pool.specs.Failures.{IsFailure};
ghost use Rattle.arimaa_pool.specs.Limits.{AreWithinLimits};

use crate::asker::Asker;
use crate::failure::Failure;
use crate::settings::Settings;
use arimaa_board::{Color, Position};
use arimaa_history::Barred;
use arimaa_search::Worker;
use arimaa_table::{Table, TablePass};
use crossbeam_utils::CachePadded;
use std::alloc::{AllocError, Global};
use std::marker::Model;

/// Workers that ask on the same terms, over one table.
///
/// Contracts see the terms, which never change, and how many workers there are.
#[derive(Drop)]
pub(crate) struct Crew<'a> {
    table: &'a Table,
    budget: u64,
    room: u32,
    askers: Vec<CachePadded<Asker<'a>>>,
}

impl<'a> Model for Crew<'a> {
    ghost use Rattle.std.specs.Prelude.{vec_len};
    ghost use Rattle.arimaa_table.specs.Passes.{setting_of};
    ghost use Rattle.arimaa_pool.specs.Crews.{Hands, AskOn};

    ghost Value = { Hands };

    ghost view = { λ c. record {
      terms = record {
        attacker = (setting_of c.table.now).attacker;
        barred = (setting_of c.table.now).barred;
        budget = c.budget;
        room = c.room;
      };
      count = vec_len c.askers;
    } };

    ghost invariant = { λ c. AskOn (record {
      attacker = (setting_of c.table.now).attacker;
      barred = (setting_of c.table.now).barred;
      budget = c.budget;
      room = c.room;
    }) c.askers.items };
}

impl<'a> Crew<'a> {
    /// So many workers as the settings say, each with a pass of the table and a region of its own.
    ///
    /// `AllocError` comes only where there is too little memory.
    pub(crate) fn new(
        alloc: Global,
        table: &'a Table,
        pass: TablePass,
        settings: &Settings,
    ) -> Result<Crew<'a>, AllocError>
        requires pass { IsPassOf table.now pass }
        requires settings { AreWithinLimits settings.now }
        ensures terms { IfOk result (λ c. c.terms ≡ record {
          attacker = (setting_of table.now).attacker;
          barred = (setting_of table.now).barred;
          budget = settings.now.budget;
          room = settings.now.room;
        }) }
        ensures count { IfOk result (λ c. c.count ≡ settings.now.workers) }
    {
        let mut pass = pass;
        let mut crew = Crew {
            table,
            budget: settings.budget,
            room: settings.room,
            askers: Vec::with_capacity(alloc, settings.workers as usize)?,
        };
        let mut made = 1;
        while made < settings.workers {
            let theirs = table.split(&mut pass);
            crew.add(asker(alloc, table, theirs, settings)?)?;
            made += 1;
        }
        crew.add(asker(alloc, table, pass, settings)?)?;
        Ok(crew)
    }

    /// The side that is to win.
    pub(crate) fn attacker(&self) -> Color
        ensures { result ≡ self.now.terms.attacker }
    {
        self.table.attacker()
    }

    /// The positions that may not be entered.
    pub(crate) fn barred(&self) -> &Barred
        ensures { result.now ≡ self.now.terms.barred }
    {
        self.table.barred()
    }

    /// Takes a worker out, if there is one.
    pub(crate) fn take(&mut self) -> Option<CachePadded<Asker<'a>>>
        ensures { IsTaken self.old self.new result }
    {
        self.askers.pop()
    }

    /// Adds a worker. It fails for want of memory only.
    pub(crate) fn add(&mut self, asker: CachePadded<Asker<'a>>) -> Result<(), AllocError>
        requires { padded_value asker ≡ self.old.terms }
        ensures terms { self.new.terms ≡ self.old.terms }
        ensures count { OnOk result (self.new.count ≡ self.old.count + 1) }
    {
        self.askers.push(asker)?;
        Ok(())
    }

    /// Lets one worker ask whether the attacker wins a position within `depth` turns.
    pub(crate) fn ask(&mut self, p: &Position, depth: u8) -> Result<bool, Failure>
        requires depth { depth ≤ 20 }
        requires some { 1 ≤ self.old.count }
        ensures terms { self.new.terms ≡ self.old.terms }
        ensures count { OnOk result (self.new.count ≡ self.old.count) }
        ensures verdict { IfOk result (λ v. v
            ≡ wins self.old.terms.attacker self.old.terms.barred depth p.now) }
        ensures failure { IfErr result (IsFailure self.old.terms (λ q j. (q ≡ p.now)
            × (j ≡ depth))) }
    {
        let mut asker = self.take().unwrap().into_inner();
        let answer = asker.ask(p, depth);
        self.add(CachePadded::new(asker))?;
        Ok(answer?)
    }
}

// A worker with a pass of the table.
fn asker<'a>(
    alloc: Global,
    table: &'a Table,
    pass: TablePass,
    settings: &Settings,
) -> Result<CachePadded<Asker<'a>>, AllocError>
    requires pass { IsPassOf table.now pass }
    requires settings { AreWithinLimits settings.now }
    ensures { IfOk result (λ a. padded_value a ≡ record {
      attacker = (setting_of table.now).attacker;
      barred = (setting_of table.now).barred;
      budget = settings.now.budget;
      room = settings.now.room;
    }) }
{
    let worker = Worker::new(alloc, settings.room, settings.budget)?;
    Ok(CachePadded::new(Asker::new(table, pass, worker)))
}
