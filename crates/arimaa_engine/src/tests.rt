//! Sessions over ports in memory.
use crate::{EngineFault, Session};
use arimaa_aei::Command;
use arimaa_outside::{Bytes, MemPort, Said};
use arimaa_time::{Control, GameLimit};
use std::alloc::{AllocError, Global};
use std::test::Fail;

// Lines of info that an engine says first, the lines that it says then, the numbers of the calls
// that fail, how the session opens, and how many lines were sent.
type OpenRow = (
    usize,
    &'static [&'static str],
    &'static [u64],
    &'static str,
    usize,
);

const OPENINGS: [OpenRow; 16] = [
    (
        0,
        &["protocol-version 1", "id name x", "aeiok", "readyok"],
        &[],
        "open",
        9,
    ),
    (0, &["aeiok", "readyok"], &[], "open", 9),
    (
        0,
        &["aeiok now", "readyok", "aeiok", "aeiok", "readyok"],
        &[],
        "open",
        9,
    ),
    (
        0,
        &["aeiok", "protocol-version 2", "readyok"],
        &[],
        "open",
        9,
    ),
    (
        0,
        &["protocol-version 2", "aeiok", "readyok"],
        &[],
        "version",
        1,
    ),
    (
        0,
        &["protocol-version", "aeiok", "readyok"],
        &[],
        "version",
        1,
    ),
    (0, &[], &[], "ended", 1),
    (0, &["aeiok"], &[], "ended", 2),
    (0, &["aeiok", "long"], &[], "long", 2),
    (0, &["aeiok", "readyok"], &[1], "failed", 0),
    (0, &["aeiok", "readyok"], &[2], "failed", 1),
    (0, &["aeiok", "readyok"], &[3], "failed", 1),
    (0, &["aeiok", "readyok"], &[5], "failed", 2),
    (0, &["aeiok", "readyok"], &[11], "failed", 8),
    (9_999, &["aeiok", "readyok"], &[], "open", 9),
    (10_000, &["aeiok", "readyok"], &[], "silent", 1),
];

// What a session sends while it opens under the control below.
const SENT: [&str; 9] = [
    "aei",
    "isready",
    "newgame",
    "setoption name tcmove value 30",
    "setoption name tcreserve value 300",
    "setoption name tcpercent value 90",
    "setoption name tcmax value 600",
    "setoption name tctotal value 28800",
    "setoption name tcturntime value 240",
];

const CONTROL: Control = Control {
    turn: 30_999,
    reserve: 300_000,
    percent: 90,
    cap: 600_000,
    game: GameLimit::Time(28_800_000),
    limit: 240_000,
};

// What an engine says; `long` stands for a line that is too long.
fn said(alloc: Global, line: &str) -> Result<Said, AllocError> {
    if line == "long" {
        return Ok(Said::Long);
    }
    Ok(Said::Line(Bytes::new(Vec::from_slice(alloc, line.as_bytes())?)))
}

// A port whose engine says so many lines of info and then these lines.
fn port(alloc: Global, noise: usize, lines: &[&str], fails: &[u64]) -> Result<MemPort, AllocError> {
    let mut script = Vec::new(alloc);
    for _ in 0..noise {
        script.push(said(alloc, "info x")?)?;
    }
    for line in lines {
        script.push(said(alloc, line)?)?;
    }
    Ok(MemPort::new(alloc, script, Vec::from_slice(alloc, fails)?))
}

// The name of a fault.
fn name(fault: &EngineFault) -> &'static str {
    match fault {
        EngineFault::Failed => "failed",
        EngineFault::Ended => "ended",
        EngineFault::Long => "long",
        EngineFault::Silent => "silent",
        EngineFault::Version(_) => "version",
        EngineFault::Memory => "memory",
    }
}

// Whether a port was sent so many lines.
fn has_sent(port: &MemPort, many: usize) -> bool {
    port.sent(many).is_none() && (many == 0 || port.sent(many - 1).is_some())
}

// Whether a session opens so.
fn opens_so(alloc: Global, row: &OpenRow) -> Result<bool, AllocError> {
    let (noise, lines, fails, want, many) = *row;
    let port = port(alloc, noise, lines, fails)?;
    match Session::open(alloc, port, &CONTROL) {
        Ok(session) => Ok(
            want == "open" && !session.broken() && has_sent(&session.into_port(), many),
        ),
        Err((fault, port)) => Ok(want == name(&fault) && has_sent(&port, many)),
    }
}

// The number of the first row that does not hold.
fn wrong_opening(alloc: Global, rows: &[OpenRow]) -> Result<Option<usize>, AllocError> {
    for (place, row) in rows.iter().enumerate() {
        if !opens_so(alloc, row)? {
            return Ok(Some(place));
        }
    }
    Ok(None)
}

// The number of the first of these lines that was not sent so.
fn wrong_line(port: &MemPort, lines: &[&str]) -> Option<usize> {
    for (place, line) in lines.iter().enumerate() {
        match port.sent(place) {
            Some(sent) => {
                if sent != line.as_bytes() {
                    return Some(place);
                }
            }
            None => return Some(place),
        }
    }
    None
}

#[test]
fn openings(rt: HostRuntime) -> Result<(), Fail> {
    let wrong = wrong_opening(rt.alloc(), &OPENINGS)?;
    assert!(rt; wrong.is_none(), "{wrong:?}");
    Ok(())
}

// Asks twice of an engine that names one move: the text, the name of the second fault, and the
// port.
fn asked_twice(
    alloc: Global,
    mut session: Session<MemPort>,
) -> Result<(Vec<u8>, &'static str, bool, MemPort), AllocError> {
    if session.broken() {
        return Ok((Vec::new(alloc), "broken", true, session.into_port()));
    }
    match session.ask() {
        Ok(()) => {
            let words = Vec::from_slice(alloc, session.words())?;
            match session.ask() {
                Ok(()) => Ok((words, "answered", session.broken(), session.into_port())),
                Err(fault) => Ok((words, name(&fault), session.broken(), session.into_port())),
            }
        }
        Err(fault) => Ok((Vec::new(alloc), name(&fault), true, session.into_port())),
    }
}

#[test]
fn moves(rt: HostRuntime) -> Result<(), Fail> {
    let alloc = rt.alloc();
    let lines = [
        "aeiok",
        "readyok",
        "bestmoves x",
        "info",
        "bestmove  Ed2n Ed3n ",
    ];
    let port = port(alloc, 0, &lines, &[])?;
    let session = Session::open(alloc, port, &CONTROL).map_err(|_| AllocError)?;
    let (words, fault, broken, port) = asked_twice(alloc, session)?;
    assert!(rt; words.as_slice() == b"Ed2n Ed3n".as_slice());
    assert!(rt; fault == "ended" && broken);
    let wrong = wrong_line(&port, &SENT);
    assert!(rt; wrong.is_none(), "{wrong:?}");
    assert!(rt; has_sent(&port, 11));
    Ok(())
}

// The version that a fault keeps.
fn kept_version(alloc: Global, fault: &EngineFault) -> Result<Vec<u8>, AllocError> {
    match fault {
        EngineFault::Version(text) => Vec::from_slice(alloc, text.as_slice()),
        _ => Ok(Vec::new(alloc)),
    }
}

// The version that keeps a session from opening.
fn version(alloc: Global, line: &str) -> Result<Vec<u8>, AllocError> {
    let port = port(alloc, 0, &[line], &[])?;
    match Session::open(alloc, port, &CONTROL) {
        Ok(_session) => Ok(Vec::new(alloc)),
        Err((fault, _port)) => kept_version(alloc, &fault),
    }
}

#[test]
fn versions(rt: HostRuntime) -> Result<(), Fail> {
    let short = version(rt.alloc(), "protocol-version 1.1")?;
    assert!(rt; short.as_slice() == b"1.1".as_slice());
    let long = version(
        rt.alloc(),
        "protocol-version 0123456789012345678901234567890123456789012345678901234567890123456789",
    )?;
    assert!(rt; long.len() == 64 && long[63] == b'3');
    Ok(())
}
