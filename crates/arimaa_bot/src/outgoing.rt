//! Lines to the controller.
ghost use Rattle.std.specs.Prelude.{[], map};
ghost use Rattle.arimaa_outside.specs.Counts.{NeverFall};
ghost use Rattle.arimaa_bot.specs.Calls.{HasFailed, WereSent, told_by};
ghost use Rattle.arimaa_bot.specs.Replies.{lines_of};

use crate::reply::Reply;
use arimaa_aei::{Answer, answer_bytes};
use arimaa_outside::{Port, PortFault};
use std::alloc::Global;

// Sends lines one after another.
fn send_all<P: Port>(port: &mut P, lines: &[&[u8]]) -> Result<(), PortFault>
    ensures sent { WereSent (map (λ line. line.now) lines.now)
        (told_by P.answers P.sent port.old) (told_by P.answers P.sent port.new) result }
    ensures cause { HasFailed (P.counts port.old) (P.counts port.new) result }
    ensures never_falls { NeverFall (P.counts port.old) (P.counts port.new) }
{
    match lines {
        [] => Ok(()),
        [first, rest @ ..] => match port.send(first) {
            Ok(()) => send_all(port, rest),
            Err(fault) => Err(fault),
        },
    }
}

// Sends the line of a setup or a turn.
fn send_move<P: Port>(alloc: Global, port: &mut P, text: &[u8]) -> Result<(), PortFault>
    ensures sent { WereSent (lines_of (Reply.BestMove text.now))
        (told_by P.answers P.sent port.old) (told_by P.answers P.sent port.new) result }
    ensures cause { HasFailed (P.counts port.old) (P.counts port.new) result }
    ensures never_falls { NeverFall (P.counts port.old) (P.counts port.new) }
{
    match answer_bytes(alloc, &Answer::BestMove(text)) {
        Ok(line) => send_all(port, &[line.as_slice()]),
        Err(_) => Err(PortFault::Memory),
    }
}

/// Sends the lines of a reply.
pub(crate) fn send_reply<P: Port>(
    alloc: Global,
    port: &mut P,
    reply: &Reply,
) -> Result<(), PortFault>
    ensures sent { WereSent (lines_of reply.now)
        (told_by P.answers P.sent port.old) (told_by P.answers P.sent port.new) result }
    ensures cause { HasFailed (P.counts port.old) (P.counts port.new) result }
    ensures never_falls { NeverFall (P.counts port.old) (P.counts port.new) }
{
    match reply {
        Reply::Nothing => Ok(()),
        Reply::Greeting => send_all(
            port,
            &[
                b"protocol-version 1".as_slice(),
                b"id name arimaa_bot".as_slice(),
                b"id author arimaa".as_slice(),
                b"aeiok".as_slice(),
            ],
        ),
        Reply::Ready => send_all(port, &[b"readyok".as_slice()]),
        Reply::Illegal => send_all(port, &[b"log illegal".as_slice()]),
        Reply::Unknown => send_all(port, &[b"log unknown".as_slice()]),
        Reply::Argument => send_all(port, &[b"log argument".as_slice()]),
        Reply::BestMove(text) => send_move(alloc, port, text.as_slice()),
    }
}
