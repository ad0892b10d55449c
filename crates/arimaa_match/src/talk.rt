//! What is said to the engines of a match, and heard of them.
ghost use Rattle.std.specs.Prelude.{◌≡◌, ℕ, List, Option, IfOk};
ghost use Rattle.arimaa_aei.specs.Answers.{speech_of_line};
ghost use Rattle.arimaa_engine.specs.Session.{asking, telling};
ghost use Rattle.arimaa_engine.specs.Waits.{text_of_move};
ghost use Rattle.arimaa_match.specs.Parts.{AreAfter, AreWhole, IfFault, Went, line_at, ports, scene, outcome_of_call, with_engine, with_value};

use crate::side_fault::SideFault;
use arimaa_aei::Command;
use arimaa_board::Color;
use arimaa_engine::{EngineFault, Session};
use arimaa_outside::Port;
use std::alloc::AllocError;

// What a call of a side's session comes to.
pub(crate) fn stopped(
    side: Color,
    told: Result<(), EngineFault>,
) -> Result<Result<(), SideFault>, AllocError>
    ensures { result ≡ outcome_of_call side told }
{
    match told {
        Ok(()) => Ok(Ok(())),
        Err(fault) => match fault {
            EngineFault::Memory => Err(AllocError),
            EngineFault::Failed => Ok(Err(SideFault {
                side,
                fault: EngineFault::Failed,
            })),
            EngineFault::Ended => Ok(Err(SideFault {
                side,
                fault: EngineFault::Ended,
            })),
            EngineFault::Long => Ok(Err(SideFault {
                side,
                fault: EngineFault::Long,
            })),
            EngineFault::Silent => Ok(Err(SideFault {
                side,
                fault: EngineFault::Silent,
            })),
            EngineFault::Version(text) => Ok(Err(SideFault {
                side,
                fault: EngineFault::Version(text),
            })),
        },
    }
}

/// Tells a side's engine something.
pub(crate) fn tell<P: Port>(
    gold: &mut Session<P>,
    silver: &mut Session<P>,
    side: Color,
    command: &Command,
) -> Result<Result<(), SideFault>, AllocError>
    requires { AreWhole gold.old silver.old }
    ensures went { (given : Option (List ℕ)) → Went (with_engine side (telling command.now))
        (scene P.sent P.answers P.counts gold.old silver.old given)
        (scene P.sent P.answers P.counts gold.new silver.new given)
        result }
    ensures after { IfOk result (λ r. AreAfter r gold.new silver.new) }
    ensures cause { IfOk result (IfFault
        (ports P.sent P.answers P.counts gold.old silver.old)
        (ports P.sent P.answers P.counts gold.new silver.new)) }
{
    match side {
        Color::Gold => {
            let told = gold.tell(command);
            stopped(Color::Gold, told)
        }
        Color::Silver => {
            let told = silver.tell(command);
            stopped(Color::Silver, told)
        }
    }
}

/// Asks a side's engine for its setup or turn.
pub(crate) fn ask<P: Port>(
    gold: &mut Session<P>,
    silver: &mut Session<P>,
    side: Color,
) -> Result<Result<(), SideFault>, AllocError>
    requires { AreWhole gold.old silver.old }
    ensures went { (given : Option (List ℕ)) → Went (with_engine side asking)
        (scene P.sent P.answers P.counts gold.old silver.old given)
        (scene P.sent P.answers P.counts gold.new silver.new given)
        (with_value (line_at side gold.new silver.new) result) }
    ensures after { IfOk result (λ r. AreAfter r gold.new silver.new) }
    ensures cause { IfOk result (IfFault
        (ports P.sent P.answers P.counts gold.old silver.old)
        (ports P.sent P.answers P.counts gold.new silver.new)) }
{
    match side {
        Color::Gold => {
            let heard = gold.ask();
            stopped(Color::Gold, heard)
        }
        Color::Silver => {
            let heard = silver.ask();
            stopped(Color::Silver, heard)
        }
    }
}

/// The text of the setup or turn that a side's engine named last.
pub(crate) fn words<'a, P: Port>(
    gold: &'a Session<P>,
    silver: &'a Session<P>,
    side: Color,
) -> &'a [u8]
    ensures { result.now ≡ text_of_move (speech_of_line (line_at side gold.now silver.now)) }
{
    match side {
        Color::Gold => gold.words(),
        Color::Silver => silver.words(),
    }
}
