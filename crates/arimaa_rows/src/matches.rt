//! Matches by the words of `play`, over engines and a clock in memory.
ghost use Rattle.std.specs.Prelude.{IfOk};
ghost use Rattle.arimaa_outside.specs.MemSpawner.{IsFresh};

use crate::runs::{Row, check, refuse_all};
use arimaa_cli::{run, run_play};
use arimaa_outside::{
    Bytes, CommandWords, MemClock, MemPort, MemSink, MemSource, MemSpawner, Said, Status,
};
use std::alloc::{AllocError, Global};
use std::process::Abort;
use std::test::Fail;
use std::thread::Threads;

const GOLD: &str = "Ra1 Rb1 Rc1 Dd1 De1 Rf1 Rg1 Rh1 Ra2 Hb2 Cc2 Md2 Ee2 Cf2 Hg2 Rh2";

const SILVER: &str = "ra7 hb7 cc7 ed7 me7 cf7 hg7 rh7 ra8 rb8 rc8 dd8 de8 rf8 rg8 rh8";

// Adds a line that an engine says.
fn say(alloc: Global, script: &mut Vec<Said>, parts: [&str; 2]) -> Result<(), AllocError> {
    let mut line = Vec::from_slice(alloc, parts[0].as_bytes())?;
    line.extend_from_slice(parts[1].as_bytes())?;
    script.push(Said::Line(Bytes::new(line)))?;
    Ok(())
}

// An engine that opens its session, and then sets up and plays as it is told here.
fn engine(alloc: Global, answers: &[&str]) -> Result<MemPort, AllocError>
    ensures { IfOk result IsFresh }
{
    let mut script = Vec::new(alloc);
    for line in ["protocol-version 1", "id name x", "aeiok", "readyok"] {
        say(alloc, &mut script, [line, ""])?;
    }
    for answer in answers {
        say(alloc, &mut script, ["bestmove ", answer])?;
    }
    Ok(MemPort::new(alloc, script, Vec::new(alloc)))
}

// How a match of these engines ends, by `run` or by `run_play`, and what it writes.
fn played<R: Threads + Sync + AllocGlobal>(
    rt: &R,
    by_run: bool,
    gold: &[&str],
    silver: &[&str],
) -> Result<(Status, Vec<u8>), Fail> {
    let alloc = rt.alloc();
    let mut words = CommandWords::new(alloc);
    for word in ["play", "one", "two", "1/5"] {
        words.push(word)?;
    }
    let ports = Vec::from_array(alloc, [engine(alloc, gold)?, engine(alloc, silver)?])?;
    let mut spawner = MemSpawner::new(alloc, ports, Vec::new(alloc))?;
    let mut clock = MemClock::new(Vec::new(alloc));
    let mut sink = MemSink::new(alloc, 1 << 20, Vec::new(alloc));
    let status = if by_run {
        let mut source = MemSource::new(Vec::new(alloc), 1, Vec::new(alloc));
        run(
            rt,
            alloc,
            &words,
            &mut source,
            &mut sink,
            &mut spawner,
            &mut clock,
        )
    } else {
        run_play(alloc, &words, &mut sink, &mut spawner, &mut clock)
    };
    Ok((status, Vec::from_slice(alloc, sink.written())?))
}

// Plays a match in which Silver answers so, by both calls: it ends so, with this status.
fn ends_so<R: Threads + Sync + AllocGlobal + Abort>(
    rt: &R,
    silver: &[&str],
    end: &str,
    wanted: Status,
) -> Result<(), Fail> {
    let alloc = rt.alloc();
    let text = format!(in alloc; "1g {GOLD}\n1s {SILVER}\n2g Cc2n Cc3x\n2s\n{end}\n")?;
    for by_run in [true, false] {
        let (status, written) = played(rt, by_run, &[GOLD, "Cc2n"], silver)?;
        assert_eq!(rt; status, wanted);
        assert_eq!(rt; written.as_slice(), text.as_bytes());
    }
    Ok(())
}

// Silver's turn is unlawful, since d8 is occupied; or Silver's program ends in its place.
#[test]
fn a_turn_that_is_unlawful_and_an_engine_that_ends(rt: HostRuntime) -> Result<(), Fail> {
    ends_so(
        &rt,
        &[SILVER, "ed7n"],
        "# winner gold illegal",
        Status::Done,
    )?;
    ends_so(&rt, &[SILVER], "# engine silver ended", Status::EngineFault)
}

// A program that can't be started, and words that ask for no match.
#[test]
fn matches_that_do_not_begin(rt: HostRuntime) -> Result<(), Fail> {
    check(
        &rt,
        &[Row {
            words: "play a b 1/5",
            input: "",
            output: "# engine gold failed\n",
            status: Status::EngineFault,
        }],
    )?;
    refuse_all(
        &rt,
        &[
            "play a b 1/2/101",
            "play a b",
            "play a b 1/5 1/5",
            "play -a b 1/5",
            "play a -b 1/5",
            "play a b -1/5",
            "Play a b 1/5",
        ],
        b"",
    )
}
