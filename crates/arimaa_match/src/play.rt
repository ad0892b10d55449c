//! A match between two engines.
ghost use Rattle.std.specs.Prelude.{◌≡◌, ℕ, List, Option, Ok, Some, IfOk, OnOk};
ghost use Rattle.arimaa_match.specs.Match.{AreEnded, IfEndsByFault, IfEngineFault, after_thinking, after_verdict, finished_as, match_of, playing, turn, turned_as};
ghost use Rattle.arimaa_match.specs.Parts.{AreWhole, Went, line_at, ports, scene};
ghost use Rattle.arimaa_match.specs.Records.{IsAcceptedMatch};
ghost use Rattle.arimaa_match.specs.Texts.{HasEnded};
ghost use Rattle.arimaa_match.specs.MatchState.{broken_off};

use crate::ending::{MatchDone, MatchEnd, Verdict};
use crate::quits::quit_both;
use crate::side_fault::SideFault;
use crate::talk::words;
use crate::thought::{announce, think};
use crate::umpire::Umpire;
use arimaa_board::Color;
use arimaa_engine::Session;
use arimaa_outside::{Clock, Port};
use arimaa_time::Control;
use std::alloc::{AllocError, Global};

/// The most setups and turns of a match.
const MOST: u64 = 100_002;

// A fault of a side's session ends the match.
fn break_off(umpire: &mut Umpire, fault: SideFault) -> Result<Option<MatchEnd>, AllocError>
    ensures state { OnOk result (umpire.new ≡ broken_off umpire.old) }
    ensures how { IfOk result (λ how. how ≡ Some (MatchEnd.Engine fault.side fault.fault)) }
{
    match umpire.break_off() {
        Err(e) => Err(e),
        Ok(()) => {
            let SideFault { side, fault } = fault;
            Ok(Some(MatchEnd::Engine { side, fault }))
        }
    }
}

// What follows on the verdict on a side's answer.
fn after_verdict<P: Port>(
    gold: &mut Session<P>,
    silver: &mut Session<P>,
    umpire: &mut Umpire,
    verdict: Verdict,
) -> Result<Option<MatchEnd>, AllocError>
    requires { AreWhole gold.old silver.old }
    ensures went { (given : Option (List ℕ)) → Went (after_verdict umpire.old verdict)
        (scene P.sent P.answers P.counts gold.old silver.old given)
        (scene P.sent P.answers P.counts gold.new silver.new given)
        (turned_as umpire.new result) }
    ensures ended { IfOk result (λ how. AreEnded how gold.new silver.new) }
    ensures cause { IfOk result (IfEndsByFault
        (ports P.sent P.answers P.counts gold.old silver.old)
        (ports P.sent P.answers P.counts gold.new silver.new)) }
{
    match verdict {
        Verdict::Won { winner, cause } => Ok(Some(MatchEnd::Won { winner, cause })),
        Verdict::Limit => Ok(Some(MatchEnd::Limit)),
        Verdict::Moved(made) => match announce(gold, silver, &made) {
            Err(e) => Err(e),
            Ok(told) => match told {
                Ok(()) => Ok(None),
                Err(fault) => break_off(umpire, fault),
            },
        },
    }
}

// What follows on a side's answer.
fn rule_on<P: Port>(
    gold: &mut Session<P>,
    silver: &mut Session<P>,
    umpire: &mut Umpire,
    side: Color,
    used: u64,
) -> Result<Option<MatchEnd>, AllocError>
    requires { AreWhole gold.old silver.old }
    ensures went { (given : Option (List ℕ))
        → Went (after_thinking umpire.old
        (Ok (record { used = used; line = line_at side gold.old silver.old })))
        (scene P.sent P.answers P.counts gold.old silver.old given)
        (scene P.sent P.answers P.counts gold.new silver.new given)
        (turned_as umpire.new result) }
    ensures ended { IfOk result (λ how. AreEnded how gold.new silver.new) }
    ensures cause { IfOk result (IfEndsByFault
        (ports P.sent P.answers P.counts gold.old silver.old)
        (ports P.sent P.answers P.counts gold.new silver.new)) }
{
    match umpire.answered(used, words(gold, silver, side)) {
        Err(e) => Err(e),
        Ok(verdict) => after_verdict(gold, silver, umpire, verdict),
    }
}

// One setup or turn of the side that is due.
fn turn<P: Port, K: Clock>(
    gold: &mut Session<P>,
    silver: &mut Session<P>,
    clock: &mut K,
    umpire: &mut Umpire,
) -> Result<Option<MatchEnd>, AllocError>
    requires { AreWhole gold.old silver.old }
    ensures went { Went (turn umpire.old)
        (scene P.sent P.answers P.counts gold.old silver.old (K.given clock.old))
        (scene P.sent P.answers P.counts gold.new silver.new (K.given clock.new))
        (turned_as umpire.new result) }
    ensures ended { IfOk result (λ how. AreEnded how gold.new silver.new) }
    ensures cause { IfOk result (IfEndsByFault
        (ports P.sent P.answers P.counts gold.old silver.old)
        (ports P.sent P.answers P.counts gold.new silver.new)) }
{
    let side = umpire.side();
    let gold_reserve = umpire.gold_reserve();
    let silver_reserve = umpire.silver_reserve();
    match think(gold, silver, clock, side, gold_reserve, silver_reserve) {
        Err(e) => Err(e),
        Ok(thought) => match thought {
            Err(fault) => break_off(umpire, fault),
            Ok(used) => rule_on(gold, silver, umpire, side, used),
        },
    }
}

// The setups and turns of a match.
fn play<P: Port, K: Clock>(
    gold: &mut Session<P>,
    silver: &mut Session<P>,
    clock: &mut K,
    umpire: &mut Umpire,
) -> Result<MatchEnd, AllocError>
    requires { AreWhole gold.old silver.old }
    ensures went { Went (playing 100002 umpire.old)
        (scene P.sent P.answers P.counts gold.old silver.old (K.given clock.old))
        (scene P.sent P.answers P.counts gold.new silver.new (K.given clock.new))
        (finished_as umpire.new result) }
    ensures ended { IfOk result (λ how. AreEnded (Some how) gold.new silver.new) }
    ensures cause { IfOk result (λ how. IfEngineFault
        (ports P.sent P.answers P.counts gold.old silver.old)
        (ports P.sent P.answers P.counts gold.new silver.new) how) }
{
    for booked in 0..MOST {
        let turned = match turn(gold, silver, clock, umpire) {
            Err(e) => return Err(e),
            Ok(turned) => turned,
        };
        match turned {
            None => {}
            Some(how) => return Ok(how),
        }
    }
    Ok(MatchEnd::Limit)
}

/// Plays a match over two open sessions, and ends them.
///
/// Whatever the ports answer and the clock gives, the record, the end and the log are those of the
/// fold of these answers and moments, and so are the lines that were sent. Where the memory runs
/// out, the lines that were sent are the first of those. It waits for the engines, so it need not
/// return.
///
/// Each side is told both reserves and asked; its time is taken between two moments. Its account is
/// spent first. An answer in time is a resignation, or it is booked where it is a lawful setup or
/// turn, whose removal marks may be left out, and then both engines are told. A fault of a side's
/// session ends the match.
pub fn play_match<P: Port, K: Clock>(
    alloc: Global,
    gold: &mut Session<P>,
    silver: &mut Session<P>,
    control: &Control,
    clock: &mut K,
) -> Result<MatchDone, AllocError>
    requires { AreWhole gold.old silver.old }
    ensures went { Went (match_of control.now)
        (scene P.sent P.answers P.counts gold.old silver.old (K.given clock.old))
        (scene P.sent P.answers P.counts gold.new silver.new (K.given clock.new))
        result }

    // An engine fault of a side has its cause in what that side's port counted.
    ensures cause { IfOk result (λ done. IfEngineFault
        (ports P.sent P.answers P.counts gold.old silver.old)
        (ports P.sent P.answers P.counts gold.new silver.new)
        done.ending) }
    ensures ended { IfOk result (λ done. HasEnded done.ending) }

    // The judge accepts each line of the record, which ends as the match has.
    ensures written { IfOk result IsAcceptedMatch }
{
    let mut umpire = Umpire::new(alloc, control);
    match play(gold, silver, clock, &mut umpire) {
        Err(e) => Err(e),
        Ok(ending) => match quit_both(gold, silver, &ending) {
            Err(e) => Err(e),
            Ok(()) => {
                let (written, log) = umpire.into_parts();
                Ok(MatchDone {
                    written,
                    ending,
                    log,
                })
            }
        },
    }
}
