//! The end of the sessions of a match.
ghost use Rattle.std.specs.Prelude.{ℕ, List, Option, Some};
ghost use Rattle.arimaa_board.specs.declared.piece.Color.TheVariants.{Gold, Silver};
ghost use Rattle.arimaa_match.specs.Match.{AreEnded, quitting, quitting_both};
ghost use Rattle.arimaa_match.specs.Parts.{PortView, Went, scene, scene_of, view_of};

use crate::ending::MatchEnd;
use crate::talk::stopped;
use arimaa_aei::Command;
use arimaa_board::Color;
use arimaa_engine::Session;
use arimaa_outside::Port;
use std::alloc::AllocError;

/// Ends Gold's session, unless it is broken.
pub(crate) fn quit_gold<P: Port>(gold: &mut Session<P>) -> Result<(), AllocError>
    ensures { (silver : PortView) (given : Option (List ℕ)) → Went (quitting Gold gold.old.broken)
        (scene_of (view_of P.sent P.answers P.counts gold.old.port) silver given)
        (scene_of (view_of P.sent P.answers P.counts gold.new.port) silver given)
        result }
{
    if gold.broken() {
        return Ok(());
    }
    let told = gold.tell(&Command::Quit);
    match stopped(Color::Gold, told) {
        Err(e) => Err(e),
        Ok(_) => Ok(()),
    }
}

// Ends Silver's session, unless it is broken.
fn quit_silver<P: Port>(silver: &mut Session<P>) -> Result<(), AllocError>
    ensures { (gold : PortView) (given : Option (List ℕ)) → Went (quitting Silver silver.old.broken)
        (scene_of gold (view_of P.sent P.answers P.counts silver.old.port) given)
        (scene_of gold (view_of P.sent P.answers P.counts silver.new.port) given)
        result }
{
    if silver.broken() {
        return Ok(());
    }
    let told = silver.tell(&Command::Quit);
    match stopped(Color::Silver, told) {
        Err(e) => Err(e),
        Ok(_) => Ok(()),
    }
}

/// Ends each session that is not broken, Gold's first.
pub(crate) fn quit_both<P: Port>(
    gold: &mut Session<P>,
    silver: &mut Session<P>,
    how: &MatchEnd,
) -> Result<(), AllocError>
    requires { AreEnded (Some how.now) gold.old silver.old }
    ensures { (given : Option (List ℕ)) → Went (quitting_both how.now)
        (scene P.sent P.answers P.counts gold.old silver.old given)
        (scene P.sent P.answers P.counts gold.new silver.new given)
        result }
{
    match quit_gold(gold) {
        Err(e) => Err(e),
        Ok(()) => quit_silver(silver),
    }
}
