//! Meets over spawners and clocks in memory, and words that ask for none.
ghost use Rattle.std.specs.Prelude.{IfOk, Some};
ghost use Rattle.arimaa_outside.specs.MemSpawner.{IsFresh, spawner_counts};

use arimaa_meet::run_meet;
use arimaa_outside::{
    Bytes, CommandWords, MemClock, MemPort, MemSink, MemSpawner, PortFault, Said, Spawner, Status,
};
use arimaa_pool::{Gate, MeetGate};
use std::alloc::{AllocError, Global};
use std::process::Abort;
use std::test::Fail;
use std::thread::Threads;

// What two engines say in two matches: in the first one Silver's last answer is unlawful, in the
// other its script ends in place of it.
const GOLD: [&str; 6] = [
    "protocol-version 1",
    "id name x",
    "aeiok",
    "readyok",
    "bestmove Ra1 Rb1 Rc1 Dd1 De1 Rf1 Rg1 Rh1 Ra2 Hb2 Cc2 Md2 Ee2 Cf2 Hg2 Rh2",
    "bestmove Cc2n",
];

const SILVER: [&str; 6] = [
    "protocol-version 1",
    "id name x",
    "aeiok",
    "readyok",
    "bestmove ra7 hb7 cc7 ed7 me7 cf7 hg7 rh7 ra8 rb8 rc8 dd8 de8 rf8 rg8 rh8",
    "bestmove ed7n",
];

const REPORT: &str = "match 1 1 2\n\
    1g Ra1 Rb1 Rc1 Dd1 De1 Rf1 Rg1 Rh1 Ra2 Hb2 Cc2 Md2 Ee2 Cf2 Hg2 Rh2\n\
    1s ra7 hb7 cc7 ed7 me7 cf7 hg7 rh7 ra8 rb8 rc8 dd8 de8 rf8 rg8 rh8\n\
    2g Cc2n Cc3x\n\
    2s\n\
    # winner gold illegal\n\
    match 2 2 1\n\
    1g Ra1 Rb1 Rc1 Dd1 De1 Rf1 Rg1 Rh1 Ra2 Hb2 Cc2 Md2 Ee2 Cf2 Hg2 Rh2\n\
    1s ra7 hb7 cc7 ed7 me7 cf7 hg7 rh7 ra8 rb8 rc8 dd8 de8 rf8 rg8 rh8\n\
    2g Cc2n Cc3x\n\
    2s\n\
    # engine silver ended\n\
    program 1 wins 1 losses 0 limits 0 faults 1\n\
    program 2 wins 0 losses 1 limits 0 faults 0\n";

const UNSTARTED: &str = "match 1 1 2\n\
    # engine gold failed\n\
    match 2 2 1\n\
    # engine gold failed\n\
    program 1 wins 0 losses 0 limits 0 faults 1\n\
    program 2 wins 0 losses 0 limits 0 faults 1\n";

// The program `b` can't be started: it is Silver's in the first match, and Gold's in the second.
const ONE_UNSTARTED: &str = "match 1 1 2\n\
    # engine silver failed\n\
    match 2 2 1\n\
    # engine gold failed\n\
    program 1 wins 0 losses 0 limits 0 faults 0\n\
    program 2 wins 0 losses 0 limits 0 faults 2\n";

// How a run ended, and what it wrote.
#[derive(Drop)]
struct Done {
    status: Status,
    output: Vec<u8>,
}

// A port whose engine says these lines.
fn port(alloc: Global, lines: &[&str]) -> Result<MemPort, AllocError>
    ensures { IfOk result IsFresh }
{
    let mut script = Vec::new(alloc);
    for line in lines {
        script.push(Said::Line(Bytes::new(Vec::from_slice(alloc, line.as_bytes())?)))?;
    }
    Ok(MemPort::new(alloc, script, Vec::new(alloc)))
}

// A spawner of the ports of the first match.
fn first(alloc: Global) -> Result<MemSpawner, AllocError> {
    let ports = Vec::from_array(alloc, [port(alloc, &GOLD)?, port(alloc, &SILVER)?])?;
    MemSpawner::new(alloc, ports, Vec::new(alloc))
}

// A spawner of the ports of the second match.
fn second(alloc: Global) -> Result<MemSpawner, AllocError> {
    let ports = Vec::from_array(alloc, [port(alloc, &GOLD)?, port(alloc, &SILVER[..5])?])?;
    MemSpawner::new(alloc, ports, Vec::new(alloc))
}

// A spawner of the ports of both matches, in order.
fn both(alloc: Global) -> Result<MemSpawner, AllocError> {
    let ports = Vec::from_array(
        alloc,
        [
            port(alloc, &GOLD)?,
            port(alloc, &SILVER)?,
            port(alloc, &GOLD)?,
            port(alloc, &SILVER[..5])?,
        ],
    )?;
    MemSpawner::new(alloc, ports, Vec::new(alloc))
}

// A spawner without ports.
fn none(alloc: Global) -> Result<MemSpawner, AllocError> {
    MemSpawner::new(alloc, Vec::new(alloc), Vec::new(alloc))
}

// A clock whose moments are all 0.
fn clock(alloc: Global) -> MemClock {
    MemClock::new(Vec::new(alloc))
}

// The words of a command line.
fn words_of(alloc: Global, words: &str) -> Result<CommandWords, AllocError> {
    let mut list = CommandWords::new(alloc);
    for word in words.split_whitespace() {
        list.push(word)?;
    }
    Ok(list)
}

// Runs a meet with one worker, where this write fails; 0 for none.
fn with_one<R: Threads + Sync>(
    rt: &R,
    alloc: Global,
    words: &str,
    spawner: MemSpawner,
    failing: u64,
) -> Result<Done, AllocError> {
    let words = words_of(alloc, words)?;
    let mut sink = MemSink::new(alloc, 16, vec![in alloc; failing]?);
    let mut spawners = Vec::from_array(alloc, [spawner])?;
    let mut clocks = Vec::from_array(alloc, [clock(alloc)])?;
    let status = run_meet(rt, alloc, &words, &mut sink, &mut spawners, &mut clocks);
    let output = Vec::from_slice(alloc, sink.written())?;
    Ok(Done { status, output })
}

// Runs a meet with two workers.
fn with_two<R: Threads + Sync, S: Spawner<Link: Send> + Send + Drop>(
    rt: &R,
    alloc: Global,
    words: &str,
    spawners: [S; 2],
) -> Result<Done, AllocError> {
    let words = words_of(alloc, words)?;
    let mut sink = MemSink::new(alloc, 1 << 20, Vec::new(alloc));
    let mut spawners = Vec::from_array(alloc, spawners)?;
    let mut clocks = Vec::from_array(alloc, [clock(alloc), clock(alloc)])?;
    let status = run_meet(rt, alloc, &words, &mut sink, &mut spawners, &mut clocks);
    let output = Vec::from_slice(alloc, sink.written())?;
    Ok(Done { status, output })
}

// Whether a run ended so, and wrote this.
fn check(rt: &impl Abort, done: &Done, status: Status, output: &str) {
    assert_eq!(rt; done.status, status, "{output}");
    assert_eq!(rt; done.output.as_slice(), output.as_bytes(), "{output}");
}

#[test]
fn two_workers(rt: HostRuntime) -> Result<(), Fail> {
    let alloc = rt.alloc();
    let done = with_two(&rt, alloc, "1/5 a b", [first(alloc)?, second(alloc)?])?;
    check(&rt, &done, Status::Done, REPORT);
    Ok(())
}

// A spawner that waits at a gate, in each call of `open`, for that of the other match.
#[derive(Drop)]
struct GatedSpawner<'g> {
    gate: &'g MeetGate,
    number: u32,
    inner: MemSpawner,
}

impl<'g> Spawner for GatedSpawner<'g> {
    type Link = MemPort;

    ghost waiting = { λ s. Some s.inner.waiting };

    ghost back = { λ s. Some s.inner.back };

    ghost answers = { λ s. Some s.inner.answers };

    ghost counts = { λ s. spawner_counts s.inner };

    fn open(&mut self, program: &str) -> Result<MemPort, PortFault> {
        self.gate.enter(self.number);
        self.inner.open(program)
    }

    fn close(&mut self, link: MemPort) {
        self.inner.close(link)
    }
}

// Two matches are played at a time: the spawner of each waits until the other's is called.
#[test]
fn matches_meet(rt: HostRuntime) -> Result<(), Fail> {
    let alloc = rt.alloc();
    let gate = MeetGate::new();
    let spawners = [
        GatedSpawner {
            gate: &gate,
            number: 0,
            inner: first(alloc)?,
        },
        GatedSpawner {
            gate: &gate,
            number: 1,
            inner: second(alloc)?,
        },
    ];
    let done = with_two(&rt, alloc, "1/5 a b", spawners)?;
    assert!(rt; !gate.starved());
    check(&rt, &done, Status::Done, REPORT);
    Ok(())
}

#[test]
fn one_worker(rt: HostRuntime) -> Result<(), Fail> {
    let alloc = rt.alloc();
    let done = with_one(&rt, alloc, "1/5 a b", both(alloc)?, 0)?;
    check(&rt, &done, Status::Done, REPORT);
    Ok(())
}

#[test]
fn no_program_starts(rt: HostRuntime) -> Result<(), Fail> {
    let alloc = rt.alloc();
    let done = with_two(&rt, alloc, "1/5 a b", [none(alloc)?, none(alloc)?])?;
    check(&rt, &done, Status::Done, UNSTARTED);
    let done = with_one(&rt, alloc, "1/5 a b", none(alloc)?, 0)?;
    check(&rt, &done, Status::Done, UNSTARTED);
    Ok(())
}

// A program that can't be started costs its own side alone, beside one that starts.
#[test]
fn one_program_starts(rt: HostRuntime) -> Result<(), Fail> {
    let alloc = rt.alloc();
    let ports = Vec::from_array(alloc, [port(alloc, &GOLD)?, port(alloc, &SILVER)?])?;
    let spawner = MemSpawner::new(alloc, ports, Vec::from_array(alloc, [2, 3])?)?;
    let done = with_one(&rt, alloc, "1/5 a b", spawner, 0)?;
    check(&rt, &done, Status::Done, ONE_UNSTARTED);
    let first = MemSpawner::new(
        alloc,
        Vec::from_array(alloc, [port(alloc, &GOLD)?])?,
        Vec::from_array(alloc, [2])?,
    )?;
    let second = MemSpawner::new(
        alloc,
        Vec::from_array(alloc, [port(alloc, &SILVER)?])?,
        Vec::from_array(alloc, [1])?,
    )?;
    let done = with_two(&rt, alloc, "1/5 a b", [first, second])?;
    check(&rt, &done, Status::Done, ONE_UNSTARTED);
    Ok(())
}

// A spawner that notes whether the programs that it is asked for are these, in order.
#[derive(Drop)]
struct NotingSpawner {
    due: &'static [&'static str],
    is_as_due: bool,
    inner: MemSpawner,
}

impl NotingSpawner {
    // A spawner that is to be asked for these programs.
    fn new(due: &'static [&'static str], inner: MemSpawner) -> Self {
        NotingSpawner {
            due,
            is_as_due: true,
            inner,
        }
    }

    // Whether it was asked for each of them, in order, and for none else.
    fn was_asked_as_due(&self) -> bool {
        self.is_as_due && self.due.is_empty()
    }
}

impl Spawner for NotingSpawner {
    type Link = MemPort;

    ghost waiting = { λ s. Some s.inner.waiting };

    ghost back = { λ s. Some s.inner.back };

    ghost answers = { λ s. Some s.inner.answers };

    ghost counts = { λ s. spawner_counts s.inner };

    fn open(&mut self, program: &str) -> Result<MemPort, PortFault> {
        match self.due {
            [next, rest @ ..] if *next == program => self.due = rest,
            _ => self.is_as_due = false,
        }
        self.inner.open(program)
    }

    fn close(&mut self, link: MemPort) {
        self.inner.close(link)
    }
}

// The programs that are started are those of each pair, Gold's before Silver's, with one worker and
// with two.
#[test]
fn programs_of_each_pair(rt: HostRuntime) -> Result<(), Fail> {
    let alloc = rt.alloc();
    let words = words_of(alloc, "1/5 a b")?;
    let mut sink = MemSink::new(alloc, 1 << 20, Vec::new(alloc));
    let spawner = NotingSpawner::new(&["a", "b", "b", "a"], both(alloc)?);
    let mut spawners = Vec::from_array(alloc, [spawner])?;
    let mut clocks = Vec::from_array(alloc, [clock(alloc)])?;
    let status = run_meet(&rt, alloc, &words, &mut sink, &mut spawners, &mut clocks);
    assert_eq!(rt; status, Status::Done);
    assert!(rt; spawners.iter().all(|spawner| spawner.was_asked_as_due()));

    let mut sink = MemSink::new(alloc, 1 << 20, Vec::new(alloc));
    let mut spawners = Vec::from_array(
        alloc,
        [
            NotingSpawner::new(&["a", "b"], first(alloc)?),
            NotingSpawner::new(&["b", "a"], second(alloc)?),
        ],
    )?;
    let mut clocks = Vec::from_array(alloc, [clock(alloc), clock(alloc)])?;
    let status = run_meet(&rt, alloc, &words, &mut sink, &mut spawners, &mut clocks);
    assert_eq!(rt; status, Status::Done);
    assert!(rt; spawners.iter().all(|spawner| spawner.was_asked_as_due()));
    Ok(())
}

// Words that ask for no meet: no time control, one program or nine, a dash, a control that is none.
const REFUSED: [&str; 7] = [
    "",
    "1/5",
    "1/5 a",
    "1/5 a b c d e f g h i",
    "1/5 a -b",
    "1/x a b",
    "a b",
];

#[test]
fn refused_words(rt: HostRuntime) -> Result<(), Fail> {
    let alloc = rt.alloc();
    for words in REFUSED {
        let done = with_one(&rt, alloc, words, both(alloc)?, 0)?;
        check(&rt, &done, Status::Words, "bad words\n");
    }
    Ok(())
}

// Three writes of 16 bytes, the second or third of which fails.
#[test]
fn failing_writes(rt: HostRuntime) -> Result<(), Fail> {
    let alloc = rt.alloc();
    for (failing, written) in [(1, 0), (2, 16), (3, 32)] {
        let done = with_one(&rt, alloc, "1/5 a b", none(alloc)?, failing)?;
        assert_eq!(rt; done.status, Status::WriteFault, "{failing}");
        assert_eq!(rt;
            Some(done.output.as_slice()),
            UNSTARTED.as_bytes().get(..written),
            "{failing}"
        );
    }
    Ok(())
}
