//! Matches in which a call of a port fails, or an engine says what it should not.
use crate::runs::{Done, words_of};
use arimaa_cli::run_play;
use arimaa_outside::{Bytes, MemClock, MemPort, MemSink, MemSpawner, Said, Status};
use std::alloc::{AllocError, Global};
use std::test::Fail;

// What Gold's engine says: it opens its session, sets up, and makes a turn that a trap shortens.
const GOLD: [&str; 6] = [
    "protocol-version 1",
    "id name x",
    "aeiok",
    "readyok",
    "bestmove Ra1 Rb1 Rc1 Dd1 De1 Rf1 Rg1 Rh1 Ra2 Hb2 Cc2 Md2 Ee2 Cf2 Hg2 Rh2",
    "bestmove Cc2n",
];

// What Silver's engine says. Its turn is unlawful, since d8 is occupied.
const SILVER: [&str; 6] = [
    "protocol-version 1",
    "id name x",
    "aeiok",
    "readyok",
    "bestmove ra7 hb7 cc7 ed7 me7 cf7 hg7 rh7 ra8 rb8 rc8 dd8 de8 rf8 rg8 rh8",
    "bestmove ed7n",
];

// The lines of the match's record, and the labels that stand alone where a match breaks off.
const BOOKED: [&str; 3] = [
    "1g Ra1 Rb1 Rc1 Dd1 De1 Rf1 Rg1 Rh1 Ra2 Hb2 Cc2 Md2 Ee2 Cf2 Hg2 Rh2\n",
    "1s ra7 hb7 cc7 ed7 me7 cf7 hg7 rh7 ra8 rb8 rc8 dd8 de8 rf8 rg8 rh8\n",
    "2g Cc2n Cc3x\n",
];

const LABELS: [&str; 4] = ["1g\n", "1s\n", "2g\n", "2s\n"];

// Calls of a port, from the first up to but not with the end. Where one of them fails, so many
// lines are booked before the label of the next one, or the match has no record.
struct Break {
    first: u64,
    end: u64,
    booked: Option<usize>,
}

const GOLD_BREAKS: [Break; 5] = [
    Break {
        first: 1,
        end: 14,
        booked: None,
    },
    Break {
        first: 14,
        end: 18,
        booked: Some(0),
    },
    Break {
        first: 18,
        end: 19,
        booked: Some(1),
    },
    Break {
        first: 19,
        end: 24,
        booked: Some(2),
    },
    Break {
        first: 24,
        end: 25,
        booked: Some(3),
    },
];

const SILVER_BREAKS: [Break; 4] = [
    Break {
        first: 1,
        end: 14,
        booked: None,
    },
    Break {
        first: 14,
        end: 19,
        booked: Some(1),
    },
    Break {
        first: 19,
        end: 20,
        booked: Some(2),
    },
    Break {
        first: 20,
        end: 25,
        booked: Some(3),
    },
];

// The call of `quit`, after which the match has its own end.
const QUIT: u64 = 25;

const WON: &str = "# winner gold illegal\n";

// Answers to Gold's second `go` that are no lawful turn: none, five steps, a byte 0, and a mark for
// d3, where the cat is removed on c3.
const UNLAWFUL: [&str; 6] = [
    "bestmove",
    "bestmove Ra2n Ra3n Ra4n Ra5n Rb2n",
    "bestmove Cc2n\0",
    "bestmove \0Cc2n",
    "bestmove Cc2\0n",
    "bestmove Cc2n Cd3x",
];

// A script of these lines.
fn script(alloc: Global, lines: &[&str]) -> Result<Vec<Said>, AllocError> {
    let mut script = Vec::new(alloc);
    for line in lines {
        script.push(Said::Line(Bytes::new(Vec::from_slice(alloc, line.as_bytes())?)))?;
    }
    Ok(script)
}

// The match of two scripts, where the calls of these numbers fail of Gold's and of Silver's port.
fn played(
    alloc: Global,
    gold: Vec<Said>,
    silver: Vec<Said>,
    fails: (u64, u64),
) -> Result<Done, AllocError> {
    let gold = MemPort::new(alloc, gold, Vec::from_slice(alloc, &[fails.0])?);
    let silver = MemPort::new(alloc, silver, Vec::from_slice(alloc, &[fails.1])?);
    let ports = Vec::from_array(alloc, [gold, silver])?;
    let mut spawner = MemSpawner::new(alloc, ports, Vec::new(alloc))?;
    let mut clock = MemClock::new(Vec::new(alloc));
    let mut sink = MemSink::new(alloc, 4_096, Vec::new(alloc));
    let words = words_of(alloc, &["play", "one", "two", "1/5"])?;
    let status = run_play(alloc, &words, &mut sink, &mut spawner, &mut clock);
    let output = Vec::from_slice(alloc, sink.written())?;
    Ok(Done { status, output })
}

// The text of a match with so many lines booked, or without a record, and this last line.
fn text(alloc: Global, booked: Option<usize>, end: &str) -> Result<Vec<u8>, AllocError> {
    let mut text = Vec::new(alloc);
    if let Some(booked) = booked {
        for line in BOOKED.iter().take(booked) {
            text.extend_from_slice(line.as_bytes())?;
        }
        if let Some(label) = LABELS.get(booked) {
            text.extend_from_slice(label.as_bytes())?;
        }
    }
    text.extend_from_slice(end.as_bytes())?;
    Ok(text)
}

// Whether the match has this text and status where these calls fail.
fn ends_so(
    alloc: Global,
    fails: (u64, u64),
    status: Status,
    booked: Option<usize>,
    end: &str,
) -> Result<bool, AllocError> {
    let done = played(alloc, script(alloc, &GOLD)?, script(alloc, &SILVER)?, fails)?;
    Ok(done.is(status, &text(alloc, booked, end)?))
}

#[test]
fn each_call_of_golds_port_fails(rt: HostRuntime) -> Result<(), Fail> {
    let alloc = rt.alloc();
    let end = "# engine gold failed\n";
    for row in &GOLD_BREAKS {
        for call in row.first..row.end {
            let holds = ends_so(alloc, (call, 0), Status::EngineFault, row.booked, end)?;
            assert!(rt; holds, "{call}");
        }
    }
    assert!(rt; ends_so(alloc, (QUIT, 0), Status::Done, Some(3), WON)?);
    Ok(())
}

#[test]
fn each_call_of_silvers_port_fails(rt: HostRuntime) -> Result<(), Fail> {
    let alloc = rt.alloc();
    let end = "# engine silver failed\n";
    for row in &SILVER_BREAKS {
        for call in row.first..row.end {
            let holds = ends_so(alloc, (0, call), Status::EngineFault, row.booked, end)?;
            assert!(rt; holds, "{call}");
        }
    }
    assert!(rt; ends_so(alloc, (0, QUIT), Status::Done, Some(3), WON)?);
    Ok(())
}

// The match in which Gold's engine answers its second `go` by so many lines of info and this line.
fn answered(alloc: Global, infos: usize, line: Vec<u8>) -> Result<Done, AllocError> {
    let (before, _) = GOLD.split_at(5);
    let mut gold = script(alloc, before)?;
    for _ in 0..infos {
        gold.push(Said::Line(Bytes::new(Vec::from_slice(alloc, b"info x")?)))?;
    }
    gold.push(Said::Line(Bytes::new(line)))?;
    played(alloc, gold, script(alloc, &SILVER)?, (0, 0))
}

#[test]
fn many_lines_and_a_long_one(rt: HostRuntime) -> Result<(), Fail> {
    let alloc = rt.alloc();
    let done = answered(alloc, 9_999, Vec::from_slice(alloc, b"bestmove Cc2n")?)?;
    assert!(rt; done.is(Status::Done, &text(alloc, Some(3), WON)?));
    let done = answered(alloc, 9_999, Vec::from_slice(alloc, b"info x")?)?;
    let silent = text(alloc, Some(2), "# engine gold silent\n")?;
    assert!(rt; done.is(Status::EngineFault, &silent));
    let done = answered(alloc, 0, vec![in alloc; b'x'; 65_537]?)?;
    let long = text(alloc, Some(2), "# engine gold long\n")?;
    assert!(rt; done.is(Status::EngineFault, &long));
    Ok(())
}

#[test]
fn unlawful_answers(rt: HostRuntime) -> Result<(), Fail> {
    let alloc = rt.alloc();
    let illegal = text(alloc, Some(2), "# winner silver illegal\n")?;
    for line in UNLAWFUL {
        let done = answered(alloc, 0, Vec::from_slice(alloc, line.as_bytes())?)?;
        assert!(rt; done.is(Status::Done, &illegal), "{line}");
    }
    Ok(())
}

#[test]
fn another_version(rt: HostRuntime) -> Result<(), Fail> {
    let alloc = rt.alloc();
    let gold = script(
        alloc,
        &["protocol-version 2", "id name x", "aeiok", "readyok"],
    )?;
    let done = played(alloc, gold, script(alloc, &SILVER)?, (0, 0))?;
    assert!(rt; done.is(Status::EngineFault, b"# engine gold version\n"));
    Ok(())
}
