//! A match between two programs that are started for it.
ghost use Rattle.std.specs.Prelude.{◌≡◌, ℕ, List, Option, None, Ok, Err, false, IfOk};
ghost use Rattle.arimaa_board.specs.declared.piece.Color.TheVariants.{Silver};
ghost use Rattle.arimaa_outside.specs.Counts.{NeverFall};
ghost use Rattle.arimaa_time.specs.declared.control.Control.{Control as TimeControl};
ghost use Rattle.arimaa_engine.specs.Session.{opening};
ghost use Rattle.arimaa_match.specs.Match.{IfEngineFault};
ghost use Rattle.arimaa_match.specs.Parts.{Scene, Went, scene_of, outcome_of_call, view_of, with_engine};
ghost use Rattle.arimaa_match.specs.Records.{IsAcceptedMatch};
ghost use Rattle.arimaa_match.specs.Texts.{HasEnded};
ghost use Rattle.arimaa_match.specs.Programs.{HasSpawnerCause, ProgramsWent, match_of_programs, opening_silver, spawned_of, unbegun, unopened, unstarted};

use crate::ending::{MatchDone, MatchEnd};
use crate::log::Bookings;
use crate::play::play_match;
use crate::quits::quit_gold;
use arimaa_board::Color;
use arimaa_engine::{EngineFault, Session};
use arimaa_outside::{Clock, Port, PortFault, Spawner};
use arimaa_record::Record;
use arimaa_time::Control;
use std::alloc::{AllocError, Global};

// A match that was played, or not begun, and the links that it was played over.
#[derive(Drop)]
struct Links<P: Port> {
    done: Result<MatchDone, AllocError>,
    gold: P,
    silver: P,
}

// The match that has not begun because of a side's fault.
fn unbegun(alloc: Global, side: Color, fault: EngineFault) -> MatchDone
    ensures { result ≡ unbegun side fault }
{
    MatchDone {
        written: Record::new(alloc),
        ending: MatchEnd::Engine { side, fault },
        log: Bookings::new(alloc),
    }
}

// What comes of a match where the program of a side was not started.
fn unstarted(alloc: Global, side: Color, fault: PortFault) -> Result<MatchDone, AllocError>
    ensures { result ≡ unstarted side fault }
{
    match fault {
        PortFault::Failed => Ok(unbegun(alloc, side, EngineFault::Failed)),
        PortFault::Memory => Err(AllocError),
    }
}

// What comes of a match where the session of a side was not opened.
fn unopened(alloc: Global, side: Color, fault: EngineFault) -> Result<MatchDone, AllocError>
    ensures { result ≡ unopened side fault }
{
    match fault {
        EngineFault::Memory => Err(AllocError),
        EngineFault::Failed => Ok(unbegun(alloc, side, EngineFault::Failed)),
        EngineFault::Ended => Ok(unbegun(alloc, side, EngineFault::Ended)),
        EngineFault::Long => Ok(unbegun(alloc, side, EngineFault::Long)),
        EngineFault::Silent => Ok(unbegun(alloc, side, EngineFault::Silent)),
        EngineFault::Version(text) => Ok(unbegun(alloc, side, EngineFault::Version(text))),
    }
}

// Ends Gold's session, since Silver's was not opened, unless the memory ran out.
fn give_up<P: Port>(alloc: Global, gold: Session<P>, silver: P, fault: EngineFault) -> Links<P>
    requires { gold.broken ≡ false }
    ensures went { (control : TimeControl) (old : Scene) (given : Option (List ℕ))
        → Went (with_engine Silver (opening control)) old
        (scene_of (view_of P.sent P.answers P.counts gold.port)
        (view_of P.sent P.answers P.counts silver) given)
        (outcome_of_call Silver (Err fault))
        → Went (opening_silver control) old
        (scene_of (view_of P.sent P.answers P.counts result.gold)
        (view_of P.sent P.answers P.counts result.silver) given)
        result.done }
    ensures ended { IfOk result.done (λ done. unopened Silver fault ≡ Ok done) }
    ensures kept { result.silver ≡ silver }
    ensures never_falls { NeverFall (P.counts gold.port) (P.counts result.gold) }
{
    let mut gold = gold;
    match unopened(alloc, Color::Silver, fault) {
        Err(e) => Links {
            done: Err(e),
            gold: gold.into_port(),
            silver,
        },
        Ok(done) => match quit_gold(&mut gold) {
            Err(e) => Links {
                done: Err(e),
                gold: gold.into_port(),
                silver,
            },
            Ok(()) => Links {
                done: Ok(done),
                gold: gold.into_port(),
                silver,
            },
        },
    }
}

// Opens Silver's session, and plays the match. Where it is not opened, Gold's session is ended.
fn play_with_gold<P: Port, K: Clock>(
    alloc: Global,
    gold: Session<P>,
    silver: P,
    control: &Control,
    clock: &mut K,
) -> Links<P>
    requires { gold.broken ≡ false }
    ensures went { Went (opening_silver control.now)
        (scene_of (view_of P.sent P.answers P.counts gold.port)
        (view_of P.sent P.answers P.counts silver) (K.given clock.old))
        (scene_of (view_of P.sent P.answers P.counts result.gold)
        (view_of P.sent P.answers P.counts result.silver) (K.given clock.new))
        result.done }
    ensures cause { IfOk result.done (λ done. IfEngineFault
        (scene_of (view_of P.sent P.answers P.counts gold.port)
        (view_of P.sent P.answers P.counts silver) None)
        (scene_of (view_of P.sent P.answers P.counts result.gold)
        (view_of P.sent P.answers P.counts result.silver) None)
        done.ending) }
{
    match Session::open(alloc, silver, control) {
        Ok(mut silver) => {
            let mut gold = gold;
            let done = play_match(alloc, &mut gold, &mut silver, control, clock);
            Links {
                done,
                gold: gold.into_port(),
                silver: silver.into_port(),
            }
        }
        Err((fault, silver)) => give_up(alloc, gold, silver, fault),
    }
}

// Opens both sessions, and plays the match.
fn play_links<P: Port, K: Clock>(
    alloc: Global,
    gold: P,
    silver: P,
    control: &Control,
    clock: &mut K,
) -> Links<P>
    ensures went { Went (match_of_programs control.now)
        (scene_of (view_of P.sent P.answers P.counts gold)
        (view_of P.sent P.answers P.counts silver) (K.given clock.old))
        (scene_of (view_of P.sent P.answers P.counts result.gold)
        (view_of P.sent P.answers P.counts result.silver) (K.given clock.new))
        result.done }
    ensures cause { IfOk result.done (λ done. IfEngineFault
        (scene_of (view_of P.sent P.answers P.counts gold)
        (view_of P.sent P.answers P.counts silver) None)
        (scene_of (view_of P.sent P.answers P.counts result.gold)
        (view_of P.sent P.answers P.counts result.silver) None)
        done.ending) }
{
    match Session::open(alloc, gold, control) {
        Ok(gold) => play_with_gold(alloc, gold, silver, control, clock),
        Err((fault, gold)) => Links {
            done: unopened(alloc, Color::Gold, fault),
            gold,
            silver,
        },
    }
}

/// Starts two programs, plays a match between them, and gives both links back.
///
/// Gold's program is started, then Silver's; then Gold's session is opened, and then Silver's.
/// Where a program is not started or a session not opened, no match has begun: the record and the
/// log are empty, and the end is that side's engine fault, `Failed` for a program. Gold's session
/// is ended where Silver's was not opened. Each link that was handed out is given back before the
/// call returns, Gold's first. It waits for the engines, so it need not return.
pub fn play_programs<S: Spawner, K: Clock>(
    alloc: Global,
    spawner: &mut S,
    gold: &str,
    silver: &str,
    control: &Control,
    clock: &mut K,
) -> Result<MatchDone, AllocError>
    ensures went { ProgramsWent S.Link.sent S.Link.answers S.Link.counts control.now
        (record { gold = gold.now; silver = silver.now })
        (spawned_of S.waiting S.back S.answers spawner.old)
        (spawned_of S.waiting S.back S.answers spawner.new)
        (K.given clock.old) (K.given clock.new) result }
    ensures cause { IfOk result (λ done.
        HasSpawnerCause (S.counts spawner.old) (S.counts spawner.new) done.ending) }
    ensures never_falls { NeverFall (S.counts spawner.old) (S.counts spawner.new) }
    ensures ended { IfOk result (λ done. HasEnded done.ending) }

    // The judge accepts each line of the record, which ends as the match has.
    ensures written { IfOk result IsAcceptedMatch }
{
    let gold = match spawner.open(gold) {
        Ok(gold) => gold,
        Err(fault) => return unstarted(alloc, Color::Gold, fault),
    };
    let silver = match spawner.open(silver) {
        Ok(silver) => silver,
        Err(fault) => {
            spawner.close(gold);
            return unstarted(alloc, Color::Silver, fault);
        }
    };
    let Links { done, gold, silver } = play_links(alloc, gold, silver, control, clock);
    spawner.close(gold);
    spawner.close(silver);
    done
}
