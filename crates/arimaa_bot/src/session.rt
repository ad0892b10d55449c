//! The session of the bot with its controller.
ghost use Rattle.std.specs.Prelude.{◌≡◌, ◌≢◌, Ok, IfOk, OnOk};
ghost use Rattle.arimaa_aei.specs.Commands.{command_of};
ghost use Rattle.arimaa_outside.specs.Counts.{NeverFall};
ghost use Rattle.arimaa_bot.specs.Calls.{HadSession, HeardSo, IsCause, IsCauseOf, IsDealt, end_of, told_by};
ghost use Rattle.arimaa_bot.specs.Lookaheads.{AreWithinRanges, AskFor};
ghost use Rattle.arimaa_bot.specs.Stages.{HasFitBoard, IsWhole, stage_after};
ghost use Rattle.arimaa_bot.specs.Talk.{IsReplyOrQuit, MatchReply, reply_lawful, reply_refused};
ghost use Rattle.arimaa_bot.specs.declared.lookahead.Lookahead.{Lookahead as Values};

use crate::bot_end::BotEnd;
use crate::choice::choose;
use crate::lookahead::{Lookahead, read_lookahead};
use crate::outgoing::send_reply;
use crate::reply::Reply;
use crate::stage::{Stage, begin_at, tell_setup, tell_turn};
use arimaa_aei::{Command, CommandFault, read_command};
use arimaa_outside::{CommandWords, Heard, Port, PortFault};
use std::alloc::{AllocError, Global};
use std::thread::Threads;

/// The most lines that the bot hears.
pub const MOST_LINES: u32 = 1_000_000;

// Hears the next line, or how the session ends.
fn hear<P: Port>(port: &mut P, line: &mut Vec<u8>) -> Result<(), BotEnd>
    ensures heard { HeardSo (told_by P.answers P.sent port.old) (told_by P.answers P.sent port.new)
        line.new.items result }
    ensures cause { IsCauseOf (P.counts port.old) (P.counts port.new) result }
    ensures never_falls { NeverFall (P.counts port.old) (P.counts port.new) }
{
    match port.receive(line) {
        Ok(heard) => match heard {
            Heard::Line => Ok(()),
            Heard::Ended => Err(BotEnd::Ended),
            Heard::Long => Err(BotEnd::Long),
        },
        Err(fault) => Err(end_of(fault)),
    }
}

// How the session ends where the port refused a call.
fn end_of(fault: PortFault) -> BotEnd
    ensures { result ≡ end_of fault }
{
    match fault {
        PortFault::Failed => BotEnd::Fault,
        PortFault::Memory => BotEnd::Memory,
    }
}

// The reply to a setup or a turn that was told.
fn reply_told(lawful: bool) -> Reply
    ensures { result ≡ reply_lawful lawful }
{
    if lawful {
        Reply::Nothing
    } else {
        Reply::Illegal
    }
}

// The reply to a line that was refused.
fn reply_refused(fault: CommandFault) -> Reply
    ensures { result ≡ reply_refused fault }
{
    match fault {
        CommandFault::Unknown => Reply::Unknown,
        CommandFault::Argument => Reply::Argument,
    }
}

// Follows a command: the reply to it, and none to `quit`.
fn follow<R: AllocGlobal + Threads + Sync>(
    rt: &R,
    alloc: Global,
    ahead: &Lookahead,
    stage: &mut Stage,
    command: Command,
) -> Result<Option<Reply>, AllocError>
    requires ranges { AreWithinRanges ahead.now }
    requires whole { IsWhole stage.old }
    requires fit { HasFitBoard command }
    ensures reply { IfOk result (IsReplyOrQuit ahead.now stage.old command) }
    ensures after { OnOk result (stage.new ≡ stage_after stage.old (Ok command)) }
{
    match command {
        Command::Aei => Ok(Some(Reply::Greeting)),
        Command::IsReady => Ok(Some(Reply::Ready)),
        Command::NewGame => {
            *stage = Stage::Unset;
            Ok(Some(Reply::Nothing))
        }
        Command::SetPosition(position) => {
            *stage = begin_at(alloc, position)?;
            Ok(Some(Reply::Nothing))
        }
        Command::SetOption { name: _, value: _ } => Ok(Some(Reply::Nothing)),
        Command::MakeMove(noted) => {
            let lawful = tell_turn(stage, &noted)?;
            Ok(Some(reply_told(lawful)))
        }
        Command::MakeSetup(setup) => {
            let lawful = tell_setup(alloc, stage, setup)?;
            Ok(Some(reply_told(lawful)))
        }
        Command::Go => {
            let text = choose(rt, alloc, ahead, stage)?;
            Ok(Some(Reply::BestMove(text)))
        }
        Command::Stop => Ok(Some(Reply::Nothing)),
        Command::Quit => Ok(None),
    }
}

// Follows a line: the reply to it, and none to `quit`.
fn respond<R: AllocGlobal + Threads + Sync>(
    rt: &R,
    alloc: Global,
    ahead: &Lookahead,
    stage: &mut Stage,
    line: &[u8],
) -> Result<Option<Reply>, AllocError>
    requires ranges { AreWithinRanges ahead.now }
    requires whole { IsWhole stage.old }
    ensures reply { IfOk result (MatchReply ahead.now stage.old (command_of line.now)) }
    ensures after { OnOk result (stage.new ≡ stage_after stage.old (command_of line.now)) }
{
    match read_command(line) {
        Ok(command) => follow(rt, alloc, ahead, stage, command),
        Err(fault) => Ok(Some(reply_refused(fault))),
    }
}

// Hears a line and replies to it, or answers how the session ends.
fn deal<R: AllocGlobal + Threads + Sync, P: Port>(
    rt: &R,
    alloc: Global,
    ahead: &Lookahead,
    port: &mut P,
    line: &mut Vec<u8>,
    stage: &mut Stage,
) -> Result<(), BotEnd>
    requires ranges { AreWithinRanges ahead.now }
    requires whole { IsWhole stage.old }
    ensures dealt { IsDealt ahead.now stage.old stage.new
        (told_by P.answers P.sent port.old) (told_by P.answers P.sent port.new) result }
    ensures cause { IsCauseOf (P.counts port.old) (P.counts port.new) result }
    ensures never_falls { NeverFall (P.counts port.old) (P.counts port.new) }
{
    match hear(port, line) {
        Err(end) => Err(end),
        Ok(()) => match respond(rt, alloc, ahead, stage, line) {
            Err(_) => Err(BotEnd::Memory),
            Ok(reply) => match reply {
                None => Err(BotEnd::Quit),
                Some(reply) => match send_reply(alloc, port, &reply) {
                    Ok(()) => Ok(()),
                    Err(fault) => Err(end_of(fault)),
                },
            },
        },
    }
}

// The session, line by line.
fn talk<R: AllocGlobal + Threads + Sync, P: Port>(
    rt: &R,
    alloc: Global,
    ahead: &Lookahead,
    port: &mut P,
) -> BotEnd
    requires { AreWithinRanges ahead.now }
    ensures session { HadSession ahead.now (told_by P.answers P.sent port.old)
        (told_by P.answers P.sent port.new) result }
    ensures cause { IsCause (P.counts port.old) (P.counts port.new) result }
    ensures unfailed { result ≢ BotEnd.Fault
        → (P.counts port.new).faults ≡ (P.counts port.old).faults }
    ensures never_falls { NeverFall (P.counts port.old) (P.counts port.new) }
{
    let mut stage = Stage::Unset;
    let mut line = Vec::new(alloc);
    for heard in 0..MOST_LINES {
        match deal(rt, alloc, ahead, port, &mut line, &mut stage) {
            Ok(()) => {}
            Err(end) => return end,
        }
    }
    BotEnd::Limit
}

/// Plays games as an engine: hears the controller's lines over the port and replies to them one by
/// one, up to `quit`, the end of the lines, a line that is too long, or `MOST_LINES` lines.
///
/// The words are options. `--depth` gives the most turns of both sides within which the bot looks
/// for a win, 0 to 20, and 1 where it isn't given; the others are those of the prover. Where they
/// are not in this form, nothing is heard.
///
/// `aei`, `isready`, `newgame`, `setposition`, `makemove`, `go` and `quit` are those of the Arimaa
/// Engine Interface; `setoption` and `stop` have no reply. A setup that isn't due and a turn that
/// isn't lawful are answered by `log illegal`, and change nothing; a line that isn't understood by
/// `log unknown` or `log argument`. `go` is answered by `bestmove` and the bot's choice: its own
/// setup, `resign` after the end of the game, the turn of a win that is proved within the depth,
/// and else the first turn that doesn't lose at once.
///
/// It waits for the port.
pub fn run_bot<R: AllocGlobal + Threads + Sync, P: Port>(
    rt: &R,
    alloc: Global,
    words: &CommandWords,
    port: &mut P,
) -> BotEnd
    ensures session { (ahead : Values) → AskFor words.now ahead
        → HadSession ahead (told_by P.answers P.sent port.old) (told_by P.answers P.sent port.new)
        result }
    ensures words { result ≡ BotEnd.Words → (ahead : Values) → ¬ AskFor words.now ahead }
    ensures misworded { ((ahead : Values) → ¬ AskFor words.now ahead) → result ≡ BotEnd.Words }
    ensures unheard { result ≡ BotEnd.Words → port.new ≡ port.old }
    ensures cause { IsCause (P.counts port.old) (P.counts port.new) result }
    ensures unfailed { result ≢ BotEnd.Fault
        → (P.counts port.new).faults ≡ (P.counts port.old).faults }
    ensures never_falls { NeverFall (P.counts port.old) (P.counts port.new) }
{
    match read_lookahead(words) {
        None => BotEnd::Words,
        Some(ahead) => talk(rt, alloc, &ahead, port),
    }
}
