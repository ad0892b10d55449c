//! A port in memory.
ghost use Rattle.std.specs.Prelude.{◌≡◌, ◌+◌, ◌<◌, ◌≤◌, ◌++◌, ◌∷◌, [], ◌↔◌, IfOk, IsErr, IsErrOf, IsNone, OnErr, OnOk, Ok, Some, drop, length, option_map, slice_get, vec_capacity, vec_len};
ghost use Rattle.arimaa_outside.specs.Answers.{receive_answer, said_as, send_answer};
ghost use Rattle.arimaa_outside.specs.Calls.{NextFails};
ghost use Rattle.arimaa_outside.specs.Counts.{NeverFall};
ghost use Rattle.arimaa_outside.specs.Faults.{HasRisen};
ghost use Rattle.arimaa_outside.specs.MemPort.{after_failing, after_hearing, after_sending, next_said, port_counts};
ghost use Rattle.arimaa_outside.specs.declared.port.TheConstants.{LINE_LIMIT};

use crate::bytes::Bytes;
use crate::calls::Calls;
use crate::lists::put;
use crate::port::Port;
use crate::port_answer::PortAnswer;
use crate::port_fault::PortFault;
use crate::receipt::Heard;
use crate::speech::Said;
use std::alloc::{AllocError, Global};
use std::marker::Model;

/// A port that says what stands in its script, keeps the lines that it is sent, and tells both.
/// After the script nothing more comes. Each call that is to fail fails, and takes nothing of the
/// script.
#[derive(Drop)]
pub struct MemPort {
    alloc: Global,
    script: Vec<Said>,
    at: usize,
    sent: Vec<Bytes>,
    answers: Vec<PortAnswer>,
    calls: Calls,
    stops: u64,
    lines: u64,
}

impl Model for MemPort {
    ghost use Rattle.std.specs.Prelude.{◌≤◌, drop, vec_len};
    ghost use Rattle.arimaa_outside.specs.MemPort.{Talking};

    ghost Value = { Talking };

    ghost view = { λ p. record {
      left = drop p.at p.script.items;
      sent = p.sent.items;
      answers = p.answers.items;
      calls = p.calls;
      stops = p.stops;
      lines = p.lines;
    } };

    ghost invariant = { λ p. p.at ≤ vec_len p.script };
}

impl MemPort {
    /// A port with this script. `fails` has the numbers of the calls that fail, counted from 1 over
    /// `send` and `receive` together. A call that finds no memory is not counted. It takes no
    /// memory.
    pub fn new(alloc: Global, script: Vec<Said>, fails: Vec<u64>) -> Self
        ensures { result ≡ record {
          left = script.items;
          sent = [];
          answers = [];
          calls = record { fails = fails.items; made = 0; faults = 0 };
          stops = 0;
          lines = 0;
        } }
    {
        MemPort {
            alloc,
            script,
            at: 0,
            sent: Vec::new(alloc),
            answers: Vec::new(alloc),
            calls: Calls::new(fails),
            stops: 0,
            lines: 0,
        }
    }

    /// The line at this place of those that were sent, from 0, or `None` past the last.
    pub fn sent(&self, k: usize) -> Option<&[u8]>
        ensures line { option_map (λ line. line.now) result ≡ slice_get self.now.sent k }
        ensures none { IsNone result ↔ (length self.now.sent ≤ k) }
    {
        Some(self.sent.get(k)?.as_slice())
    }

    pub(crate) fn faults(&self) -> u64
        ensures { result ≡ self.now.calls.faults }
    {
        self.calls.faults()
    }

    pub(crate) fn stops(&self) -> u64
        ensures { result ≡ self.now.stops }
    {
        self.stops
    }

    pub(crate) fn lines(&self) -> u64
        ensures { result ≡ self.now.lines }
    {
        self.lines
    }

    // What the next call of `receive` hears unless it fails.
    fn next_said(&self) -> Result<Said, AllocError>
        ensures { IfOk result (λ said. said ≡ next_said self.now.left) }
    {
        match self.script.get(self.at) {
            Some(said) => said.limited(self.alloc),
            None => Ok(Said::Ended),
        }
    }
}

impl Port for MemPort {
    ghost sent = { λ p. Some p.sent };

    ghost answers = { λ p. Some p.answers };

    ghost counts = { port_counts };

    fn send(&mut self, line: &[u8]) -> Result<(), PortFault>
        ensures fails { NextFails self.old.calls → IsErr result }
        ensures ok { OnOk result (self.new ≡ after_sending self.old line.now) }
        ensures memory { IsErrOf result PortFault.Memory → self.new ≡ self.old }
        ensures only_then { IsErrOf result PortFault.Failed → NextFails self.old.calls }
        ensures fault { IsErrOf result PortFault.Failed → self.new ≡ after_failing self.old }

        ensures sent { OnOk result (self.new.sent ≡ self.old.sent ++ line.now ∷ []) }
        ensures kept { OnErr result (self.new.sent ≡ self.old.sent) }
        ensures answer { self.new.answers ≡ self.old.answers ++ send_answer result }
        ensures sound { ¬ IsErrOf result PortFault.Failed
            → self.new.calls.faults ≡ self.old.calls.faults }
        ensures failed { IsErrOf result PortFault.Failed
            → HasRisen self.old.calls.faults self.new.calls.faults }
        ensures never_falls { NeverFall (port_counts self.old) (port_counts self.new) }
    {
        let line = Bytes::copied(self.alloc, line)?;
        self.sent.reserve(1)?;
        self.answers.reserve(1)?;
        match self.calls.begin() {
            Ok(()) => {
                put(&mut self.sent, line);
                put(&mut self.answers, PortAnswer::Sent);
                Ok(())
            }
            Err(_) => {
                put(&mut self.answers, PortAnswer::Failed);
                Err(PortFault::Failed)
            }
        }
    }

    fn receive(&mut self, line: &mut Vec<u8>) -> Result<Heard, PortFault>
        ensures fails { NextFails self.old.calls → IsErr result }
        ensures said { IfOk result
            (λ heard. said_as heard line.new.items ≡ next_said self.old.left) }
        ensures ok { OnOk result (self.new ≡ after_hearing self.old (next_said self.old.left)) }
        ensures memory { IsErrOf result PortFault.Memory → self.new ≡ self.old }
        ensures only_then { IsErrOf result PortFault.Failed → NextFails self.old.calls }
        ensures fault { IsErrOf result PortFault.Failed → self.new ≡ after_failing self.old }

        ensures kept { self.new.sent ≡ self.old.sent }
        ensures answer { self.new.answers ≡ self.old.answers
            ++ receive_answer result line.new.items }
        ensures limit { result ≡ Ok Heard.Line → vec_len line.new ≤ LINE_LIMIT }
        ensures line { result ≡ Ok Heard.Line → HasRisen self.old.lines self.new.lines }
        ensures ended { result ≡ Ok Heard.Ended → HasRisen self.old.stops self.new.stops }
        ensures long { result ≡ Ok Heard.Long → HasRisen self.old.stops self.new.stops }
        ensures sound { ¬ IsErrOf result PortFault.Failed
            → self.new.calls.faults ≡ self.old.calls.faults }
        ensures failed { IsErrOf result PortFault.Failed
            → HasRisen self.old.calls.faults self.new.calls.faults }
        ensures never_falls { NeverFall (port_counts self.old) (port_counts self.new) }
    {
        let said = self.next_said()?;
        self.answers.reserve(1)?;
        let heard = said.hear(line)?;
        match self.calls.begin() {
            Ok(()) => {
                advance(&self.script, &mut self.at);
                said.count(&mut self.stops, &mut self.lines);
                put(&mut self.answers, PortAnswer::Heard(said));
                Ok(heard)
            }
            Err(_) => {
                put(&mut self.answers, PortAnswer::Failed);
                Err(PortFault::Failed)
            }
        }
    }
}

// Goes on to the next place of a script, unless it is at its end.
fn advance(script: &[Said], at: &mut usize)
    requires { at.old ≤ length script.now }
    ensures within { at.new ≤ length script.now }
    ensures next { drop at.new script.now ≡ drop 1 (drop at.old script.now) }
{
    if *at < script.len() {
        *at += 1;
    }
}
