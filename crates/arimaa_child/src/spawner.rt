//! A spawner of child processes.
ghost use Rattle.std.specs.Prelude.{◌≡◌, None, IfOk, IsErrOf};
ghost use Rattle.arimaa_outside.specs.Counts.{NeverFall, no_counts, sum_of_counts};
ghost use Rattle.arimaa_outside.specs.Faults.{HasRisen};
ghost use Rattle.arimaa_outside.specs.StdPort.{counts_of};
ghost use Rattle.arimaa_child.specs.Counts.{spawner_counts};

use arimaa_outside::{PortFault, Spawner, StdPort};
use std::alloc::Global;
use std::io::{BufReader, ErrorKind};
use std::process::{Command, OpenProcess, Processes, Stdio};

/// What starts programs as child processes. A program is a path or a name, which is looked for in
/// `PATH`; it gets no arguments, reads lines from a pipe as its input, writes lines to a pipe as
/// its output, and shares the standard error. The spawner tells no link and no answer, and counts.
///
/// To close a link closes both pipes, and neither waits for the child nor ends it: a child that
/// reads its input to the end ends by itself.
#[derive(Drop)]
pub struct ChildSpawner<'r, R> {
    rt: &'r R,
    alloc: Global,
    faults: u64,
    stops: u64,
    lines: u64,
}

/// The link to a child of a runtime's processes.
type Link<R> = StdPort<
    BufReader<<<R as Processes>::Started as OpenProcess>::Stdout>,
    <<R as Processes>::Started as OpenProcess>::Stdin,
>;

impl<'r, R: Processes> ChildSpawner<'r, R> {
    /// A spawner that has started nothing yet.
    pub fn new(rt: &'r R, alloc: Global) -> Self
        ensures { spawner_counts result ≡ no_counts }
    {
        ChildSpawner {
            rt,
            alloc,
            faults: 0,
            stops: 0,
            lines: 0,
        }
    }
}

// Starts a program with both its pipes.
fn start<R: Processes>(rt: &R, alloc: Global, program: &str) -> Result<Link<R>, ErrorKind>
    ensures { IfOk result (λ link. counts_of link ≡ no_counts) }
{
    let mut command = match Command::new(alloc, program) {
        Ok(command) => command,
        Err(_) => return Err(ErrorKind::OutOfMemory),
    };
    command.stdin(Stdio::piped());
    command.stdout(Stdio::piped());
    let mut child = match command.spawn(rt) {
        Ok(child) => child,
        Err(error) => return Err(error.kind()),
    };
    match (child.stdin.take(), child.stdout.take()) {
        (Some(input), Some(output)) => match BufReader::new(alloc, output) {
            Ok(output) => Ok(StdPort::new(output, input)),
            Err(error) => Err(error.kind()),
        },
        _ => Err(ErrorKind::Other),
    }
}

impl<'r, R: Processes> Spawner for ChildSpawner<'r, R> {
    type Link = Link<R>;

    ghost waiting = { λ _. None };

    ghost back = { λ _. None };

    ghost answers = { λ _. None };

    ghost counts = { spawner_counts };

    fn open(&mut self, program: &str) -> Result<Link<R>, PortFault>
        ensures fresh { IfOk result (λ link. counts_of link ≡ no_counts) }
        ensures sound { ¬ IsErrOf result PortFault.Failed
            → spawner_counts self.new ≡ spawner_counts self.old }
        ensures failed { IsErrOf result PortFault.Failed
            → HasRisen self.old.faults self.new.faults }
        ensures never_falls { NeverFall (spawner_counts self.old) (spawner_counts self.new) }
    {
        match start(self.rt, self.alloc, program) {
            Ok(link) => Ok(link),
            Err(ErrorKind::OutOfMemory) => Err(PortFault::Memory),
            Err(_) => {
                self.faults = self.faults.saturating_add(1);
                Err(PortFault::Failed)
            }
        }
    }

    fn close(&mut self, link: Link<R>)
        ensures counts { spawner_counts self.new ≡ sum_of_counts (spawner_counts self.old)
            (counts_of link) }
        ensures never_falls { NeverFall (spawner_counts self.old) (spawner_counts self.new) }
    {
        self.faults = self.faults.saturating_add(link.faults());
        self.stops = self.stops.saturating_add(link.stops());
        self.lines = self.lines.saturating_add(link.lines());
    }
}
