//! A side thinks.
ghost use Rattle.std.specs.Prelude.{ℕ, List, Option, Ok, IfOk};
ghost use Rattle.arimaa_engine.specs.Session.{telling};
ghost use Rattle.arimaa_match.specs.Match.{announcing, asking_timed, telling_reserves, thinking};
ghost use Rattle.arimaa_match.specs.Thoughts.{thought};
ghost use Rattle.arimaa_match.specs.Parts.{AreAfter, AreWhole, IfFault, Went, if_fine, line_at, ports, scene, with_engine};

use crate::side_fault::SideFault;
use crate::talk::{ask, tell};
use arimaa_aei::{Command, OptionName};
use arimaa_board::Color;
use arimaa_engine::Session;
use arimaa_outside::{Clock, Port};
use std::alloc::AllocError;

// Tells a side's engine something, and then a side's engine something else.
fn tell_both<P: Port>(
    gold: &mut Session<P>,
    silver: &mut Session<P>,
    side: Color,
    command: &Command,
    next_side: Color,
    next_command: &Command,
) -> Result<Result<(), SideFault>, AllocError>
    requires { AreWhole gold.old silver.old }
    ensures went { (given : Option (List ℕ))
        → Went (if_fine (with_engine side (telling command.now)) (λ _.
        with_engine next_side (telling next_command.now)))
        (scene P.sent P.answers P.counts gold.old silver.old given)
        (scene P.sent P.answers P.counts gold.new silver.new given)
        result }
    ensures after { IfOk result (λ r. AreAfter r gold.new silver.new) }
    ensures cause { IfOk result (IfFault
        (ports P.sent P.answers P.counts gold.old silver.old)
        (ports P.sent P.answers P.counts gold.new silver.new)) }
{
    match tell(gold, silver, side, command) {
        Err(e) => Err(e),
        Ok(told) => match told {
            Err(fault) => Ok(Err(fault)),
            Ok(()) => tell(gold, silver, next_side, next_command),
        },
    }
}

// Tells a side's engine both reserves, in whole seconds.
fn tell_reserves<P: Port>(
    gold: &mut Session<P>,
    silver: &mut Session<P>,
    side: Color,
    gold_reserve: u64,
    silver_reserve: u64,
) -> Result<Result<(), SideFault>, AllocError>
    requires { AreWhole gold.old silver.old }
    ensures went { (given : Option (List ℕ))
        → Went (telling_reserves side gold_reserve silver_reserve)
        (scene P.sent P.answers P.counts gold.old silver.old given)
        (scene P.sent P.answers P.counts gold.new silver.new given)
        result }
    ensures after { IfOk result (λ r. AreAfter r gold.new silver.new) }
    ensures cause { IfOk result (IfFault
        (ports P.sent P.answers P.counts gold.old silver.old)
        (ports P.sent P.answers P.counts gold.new silver.new)) }
{
    let of_gold = Command::SetOption {
        name: OptionName::GReserve,
        value: gold_reserve / 1000,
    };
    let of_silver = Command::SetOption {
        name: OptionName::SReserve,
        value: silver_reserve / 1000,
    };
    tell_both(gold, silver, side, &of_gold, side, &of_silver)
}

// Asks a side's engine, and answers the time that it used.
fn ask_timed<P: Port, K: Clock>(
    gold: &mut Session<P>,
    silver: &mut Session<P>,
    clock: &mut K,
    side: Color,
) -> Result<Result<u64, SideFault>, AllocError>
    requires { AreWhole gold.old silver.old }
    ensures went { Went (asking_timed side)
        (scene P.sent P.answers P.counts gold.old silver.old (K.given clock.old))
        (scene P.sent P.answers P.counts gold.new silver.new (K.given clock.new))
        (thought (line_at side gold.new silver.new) result) }
    ensures after { IfOk result (λ r. AreAfter r gold.new silver.new) }
    ensures cause { IfOk result (IfFault
        (ports P.sent P.answers P.counts gold.old silver.old)
        (ports P.sent P.answers P.counts gold.new silver.new)) }
{
    let before = clock.moment();
    match ask(gold, silver, side) {
        Err(e) => Err(e),
        Ok(heard) => match heard {
            Err(fault) => Ok(Err(fault)),
            Ok(()) => {
                let after = clock.moment();
                Ok(Ok(after - before))
            }
        },
    }
}

/// A side thinks: its engine is told both reserves and asked. Answers the time that it used.
pub(crate) fn think<P: Port, K: Clock>(
    gold: &mut Session<P>,
    silver: &mut Session<P>,
    clock: &mut K,
    side: Color,
    gold_reserve: u64,
    silver_reserve: u64,
) -> Result<Result<u64, SideFault>, AllocError>
    requires { AreWhole gold.old silver.old }
    ensures went { Went (thinking side gold_reserve silver_reserve)
        (scene P.sent P.answers P.counts gold.old silver.old (K.given clock.old))
        (scene P.sent P.answers P.counts gold.new silver.new (K.given clock.new))
        (thought (line_at side gold.new silver.new) result) }
    ensures after { IfOk result (λ r. AreAfter r gold.new silver.new) }
    ensures cause { IfOk result (IfFault
        (ports P.sent P.answers P.counts gold.old silver.old)
        (ports P.sent P.answers P.counts gold.new silver.new)) }
{
    match tell_reserves(gold, silver, side, gold_reserve, silver_reserve) {
        Err(e) => Err(e),
        Ok(told) => match told {
            Err(fault) => Ok(Err(fault)),
            Ok(()) => ask_timed(gold, silver, clock, side),
        },
    }
}

/// Tells both engines what was booked, Gold's first.
#[tactic(auto, unfolding(crate::specs::Match::announcing))]
pub(crate) fn announce<P: Port>(
    gold: &mut Session<P>,
    silver: &mut Session<P>,
    made: &Command,
) -> Result<Result<(), SideFault>, AllocError>
    requires { AreWhole gold.old silver.old }
    ensures went { (given : Option (List ℕ)) → Went (announcing made.now)
        (scene P.sent P.answers P.counts gold.old silver.old given)
        (scene P.sent P.answers P.counts gold.new silver.new given)
        result }
    ensures after { IfOk result (λ r. AreAfter r gold.new silver.new) }
    ensures cause { IfOk result (IfFault
        (ports P.sent P.answers P.counts gold.old silver.old)
        (ports P.sent P.answers P.counts gold.new silver.new)) }
{
    tell_both(gold, silver, Color::Gold, made, Color::Silver, made)
}
