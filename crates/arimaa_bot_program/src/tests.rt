//! Sessions of the bot over ports in memory, with what it was to say worked out by hand.
use arimaa_bot::{BotEnd, run_bot};
use arimaa_outside::{Bytes, CommandWords, MemPort, Said};
use std::alloc::{AllocError, Global};
use std::process::Abort;
use std::test::Fail;
use std::thread::Threads;

const GREETING: [&str; 4] = [
    "protocol-version 1",
    "id name arimaa_bot",
    "id author arimaa",
    "aeiok",
];

const GOLD: &str = "Ra1 Rb1 Rc1 Dd1 De1 Rf1 Rg1 Rh1 Ra2 Hb2 Cc2 Md2 Ee2 Cf2 Hg2 Rh2";

const SILVER: &str = "ra7 hb7 cc7 ed7 me7 cf7 hg7 rh7 ra8 rb8 rc8 dd8 de8 rf8 rg8 rh8";

// What a controller says; `..long` stands for a line that is too long.
fn said(alloc: Global, line: &str) -> Result<Said, AllocError> {
    if line == "..long" {
        return Ok(Said::Long);
    }
    Ok(Said::Line(Bytes::new(Vec::from_slice(alloc, line.as_bytes())?)))
}

// Runs the bot over a port that says these lines and whose call of this number fails, and answers
// how it ended and the port.
fn run<R: Threads + Sync + AllocGlobal>(
    rt: &R,
    words: &str,
    lines: &[&str],
    fails: u64,
) -> Result<(BotEnd, MemPort), AllocError> {
    let alloc = rt.alloc();
    let mut list = CommandWords::new(alloc);
    for word in words.split_whitespace() {
        list.push(word)?;
    }
    let mut script = Vec::new(alloc);
    for line in lines {
        script.push(said(alloc, line)?)?;
    }
    let mut port = MemPort::new(alloc, script, vec![in alloc; fails]?);
    let end = run_bot(rt, alloc, &list, &mut port);
    Ok((end, port))
}

// Checks how the bot ended and what it said.
fn expect(rt: &impl Abort, done: &(BotEnd, MemPort), end: BotEnd, lines: &[&str]) {
    assert_eq!(rt; done.0, end);
    for (k, line) in lines.iter().enumerate() {
        assert_eq!(rt; done.1.sent(k), Some(line.as_bytes()));
    }
    assert_eq!(rt; done.1.sent(lines.len()), None);
}

#[test]
fn a_win_in_one_turn(rt: HostRuntime) -> Result<(), Fail> {
    let heard = [
        "aei",
        "isready",
        "newgame",
        "setposition g [        R      r                   E                            ]",
        "go",
        "quit",
    ];
    let said = [
        GREETING[0],
        GREETING[1],
        GREETING[2],
        GREETING[3],
        "readyok",
        "bestmove Ra7n",
    ];
    expect(&rt, &run(&rt, "", &heard, 0)?, BotEnd::Quit, &said);
    Ok(())
}

#[test]
fn setups_and_plain_turns(rt: HostRuntime) -> Result<(), Fail> {
    let alloc = rt.alloc();
    let gold = format!(in alloc; "makemove {GOLD}")?;
    let silver = format!(in alloc; "makemove {SILVER}")?;
    let heard = [
        "newgame",
        "go",
        gold.as_str(),
        "go",
        silver.as_str(),
        "go",
        "makemove Ra2n",
        "makemove ra7s",
        "go",
    ];
    let best_gold = format!(in alloc; "bestmove {GOLD}")?;
    let best_silver = format!(in alloc; "bestmove {SILVER}")?;
    let said = [
        best_gold.as_str(),
        best_silver.as_str(),
        "bestmove Ra2n",
        "bestmove Ra1n",
    ];
    expect(&rt, &run(&rt, "", &heard, 0)?, BotEnd::Ended, &said);
    Ok(())
}

// What is heard after the words, and what is said.
type Row = (
    &'static str,
    &'static [&'static str],
    &'static [&'static str],
);

const ROWS: [Row; 14] = [
    // a move before a game, and one that isn't lawful
    ("", &["makemove Ra2n"], &["log illegal"]),
    (
        "",
        &[
            "setposition g [        R      r                   E                            ]",
            "makemove Ra7s",
            "makemove rh7s",
            "go",
        ],
        &["log illegal", "log illegal", "bestmove Ra7n"],
    ),
    // a setup of the wrong side
    (
        "",
        &["makemove ra7 hb7 cc7 ed7 me7 cf7 hg7 rh7 ra8 rb8 rc8 dd8 de8 rf8 rg8 rh8"],
        &["log illegal"],
    ),
    // a setup where a turn is due
    (
        "",
        &[
            "setposition s [        R      r                   E                            ]",
            "makemove Ra1 Rb1 Rc1 Dd1 De1 Rf1 Rg1 Rh1 Ra2 Hb2 Cc2 Md2 Ee2 Cf2 Hg2 Rh2",
        ],
        &["log illegal"],
    ),
    // a game that has ended, by a turn and as it stands
    (
        "",
        &[
            "setposition w [        R      r                   E                            ]",
            "makemove Ra7n",
            "go",
            "makemove rh7s",
            "newgame",
            "go",
        ],
        &[
            "bestmove resign",
            "log illegal",
            "bestmove Ra1 Rb1 Rc1 Dd1 De1 Rf1 Rg1 Rh1 Ra2 Hb2 Cc2 Md2 Ee2 Cf2 Hg2 Rh2",
        ],
    ),
    (
        "",
        &[
            "setposition b [R              r                   E                            ]",
            "go",
        ],
        &["bestmove resign"],
    ),
    // positions told with either letter
    (
        "",
        &[
            "setposition w [        R      r                   E                            ]",
            "go",
        ],
        &["bestmove Ra7n"],
    ),
    (
        "",
        &[
            "setposition b [        R      r                   E                            ]",
            "go",
        ],
        &["bestmove rh7s"],
    ),
    // options, which are not answered, in and out of form; lines that are not understood
    (
        "",
        &[
            "setoption name tcmove value 60",
            "stop",
            "setoption name tcmove value",
            "setoption name hash value 1",
            "",
            "go ponder",
            "setposition g [R]",
        ],
        &[
            "log argument",
            "log unknown",
            "log unknown",
            "log argument",
            "log argument",
        ],
    ),
    // a win in three turns is played only where the bot looks so far
    (
        "--depth 3",
        &[
            "setposition g [                       r                                R       ]",
            "go",
        ],
        &["bestmove Ra1n Ra2n Ra3n"],
    ),
    (
        "",
        &[
            "setposition g [                       r                                R       ]",
            "go",
        ],
        &["bestmove Ra1n"],
    ),
    // nor where a question costs more than the budget or needs more room
    (
        "--depth 3 --budget 1",
        &[
            "setposition g [                       r                                R       ]",
            "go",
        ],
        &["bestmove Ra1n"],
    ),
    (
        "--room 1 --depth 3",
        &[
            "setposition g [                       r                                R       ]",
            "go",
        ],
        &["bestmove Ra1n"],
    ),
    // marks may be left out, and are right where they stand
    (
        "",
        &[
            "setposition g [                                            R          r       E]",
            "makemove Re3e cf3x",
        ],
        &["log illegal"],
    ),
];

#[test]
fn a_table_of_sessions(rt: HostRuntime) -> Result<(), Fail> {
    for (words, heard, said) in ROWS {
        expect(&rt, &run(&rt, words, heard, 0)?, BotEnd::Ended, said);
    }
    Ok(())
}

#[test]
fn ends(rt: HostRuntime) -> Result<(), Fail> {
    for words in [
        "1",
        "--depth",
        "--depth 21",
        "--depth 1 --depth 1",
        "--workers 0",
        "--turns 1",
    ] {
        expect(&rt, &run(&rt, words, &["aei"], 0)?, BotEnd::Words, &[]);
    }
    expect(
        &rt,
        &run(&rt, "", &["..long", "quit"], 0)?,
        BotEnd::Long,
        &[],
    );
    expect(
        &rt,
        &run(&rt, "", &["isready", "quit"], 1)?,
        BotEnd::Fault,
        &[],
    );
    expect(
        &rt,
        &run(&rt, "", &["aei", "quit"], 4)?,
        BotEnd::Fault,
        &GREETING[..2],
    );
    expect(
        &rt,
        &run(&rt, "", &["quit now", "quit"], 0)?,
        BotEnd::Quit,
        &["log argument"],
    );
    Ok(())
}
