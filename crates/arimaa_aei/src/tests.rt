//! Lines of both sides, right ones and ones that are bad in one place.
use crate::{
    Answer, Command, CommandFault, OptionName, answer_bytes, command_bytes, read_answer,
    read_command,
};
use std::alloc::{AllocError, Global};
use std::test::Fail;

// A controller's line, and what it is written as or refused for.
type CommandRow = (&'static str, Result<&'static str, CommandFault>);

// An engine's line, and what it is written as. None stands for a line that says nothing.
type AnswerRow = (&'static str, Option<&'static str>);

// Lines of a controller that are one word or none.
const WORDS: [CommandRow; 23] = [
    ("aei", Ok("aei")),
    (" \taei\t ", Ok("aei")),
    ("aei 1", Err(CommandFault::Argument)),
    ("AEI", Err(CommandFault::Unknown)),
    ("isready", Ok("isready")),
    ("isready now", Err(CommandFault::Argument)),
    ("newgame", Ok("newgame")),
    ("newgame\t", Ok("newgame")),
    ("newgame 1", Err(CommandFault::Argument)),
    ("go", Ok("go")),
    ("go ponder", Err(CommandFault::Argument)),
    ("go\r", Err(CommandFault::Unknown)),
    ("go\n", Err(CommandFault::Unknown)),
    ("stop", Ok("stop")),
    ("stop 1", Err(CommandFault::Argument)),
    (" quit", Ok("quit")),
    ("quit quit", Err(CommandFault::Argument)),
    ("", Err(CommandFault::Unknown)),
    (" \t", Err(CommandFault::Unknown)),
    ("ponderhit", Err(CommandFault::Unknown)),
    ("\u{e9}", Err(CommandFault::Unknown)),
    ("go\u{a0}", Err(CommandFault::Unknown)),
    ("bestmove Ed2n", Err(CommandFault::Unknown)),
];

// Lines that set an option.
const OPTIONS: [CommandRow; 26] = [
    (
        "setoption name tcmove value 30",
        Ok("setoption name tcmove value 30"),
    ),
    ("setoption name hash value 5", Err(CommandFault::Unknown)),
    (
        "setoption  name\tgreserve   value 0 ",
        Ok("setoption name greserve value 0"),
    ),
    (
        "setoption name sreserve value 18446744073709551615",
        Ok("setoption name sreserve value 18446744073709551615"),
    ),
    (
        "setoption name sreserve value 18446744073709551616",
        Err(CommandFault::Argument),
    ),
    (
        "setoption name tcturntime value 99999999999999999999",
        Err(CommandFault::Argument),
    ),
    (
        "setoption name tcreserve value 300",
        Ok("setoption name tcreserve value 300"),
    ),
    (
        "setoption name tcpercent value 100",
        Ok("setoption name tcpercent value 100"),
    ),
    (
        "setoption name tcmax value 10",
        Ok("setoption name tcmax value 10"),
    ),
    (
        "setoption name tctotal value 28800",
        Ok("setoption name tctotal value 28800"),
    ),
    (
        "setoption name tcturntime value 240",
        Ok("setoption name tcturntime value 240"),
    ),
    ("setoption name tcmax value 05", Err(CommandFault::Argument)),
    (
        "setoption name tctotal value +5",
        Err(CommandFault::Argument),
    ),
    (
        "setoption name tctotal value -5",
        Err(CommandFault::Argument),
    ),
    (
        "setoption name tcreserve value 1e3",
        Err(CommandFault::Argument),
    ),
    (
        "setoption name tcreserve value \u{663}",
        Err(CommandFault::Argument),
    ),
    (
        "setoption name tcpercent value",
        Err(CommandFault::Argument),
    ),
    (
        "setoption name tcpercent value 5 6",
        Err(CommandFault::Argument),
    ),
    ("setoption name tcpercent 5", Err(CommandFault::Argument)),
    (
        "setoption name tcpercent values 5",
        Err(CommandFault::Argument),
    ),
    ("setoption name tcpercent", Err(CommandFault::Argument)),
    ("setoption name hash", Err(CommandFault::Unknown)),
    ("setoption name", Err(CommandFault::Argument)),
    ("setoption", Err(CommandFault::Argument)),
    ("setoption nome hash value 5", Err(CommandFault::Argument)),
    ("setoption name TCMOVE value 5", Err(CommandFault::Unknown)),
];

// Lines that set a position.
const POSITIONS: [CommandRow; 14] = [
    (
        "setposition w [        R      r                   E                            ]",
        Ok("setposition g [        R      r                   E                            ]"),
    ),
    (
        "setposition b [        R      r                   E                            ]",
        Ok("setposition s [        R      r                   E                            ]"),
    ),
    (
        "\tsetposition  s\t [        R      r                   E                            ] ",
        Ok("setposition s [        R      r                   E                            ]"),
    ),
    (
        "setposition g [        R      r     X             E      x                     ]",
        Ok("setposition g [        R      r                   E                            ]"),
    ),
    ("setposition g", Err(CommandFault::Argument)),
    ("setposition", Err(CommandFault::Argument)),
    (
        "setposition x [        R      r                   E                            ]",
        Err(CommandFault::Argument),
    ),
    (
        "setposition gg [        R      r                   E                            ]",
        Err(CommandFault::Argument),
    ),
    (
        "setposition g[        R      r                   E                            ]",
        Err(CommandFault::Argument),
    ),
    (
        "setposition [        R      r                   E                            ]",
        Err(CommandFault::Argument),
    ),
    (
        "setposition g [        R      r                   E                            ] 1",
        Err(CommandFault::Argument),
    ),
    (
        "setposition g [        R      r                   E                            ",
        Err(CommandFault::Argument),
    ),
    (
        "setposition g [        R      r                   E      R                     ]",
        Err(CommandFault::Argument),
    ),
    (
        "setposition g [x       R      r                   E                            ]",
        Err(CommandFault::Argument),
    ),
];

// Lines that tell a turn or a setup.
const MOVES: [CommandRow; 18] = [
    ("makemove Ed2n Ed3n", Ok("makemove Ed2n Ed3n")),
    ("makemove\tre6e  rf6x Ed6e ", Ok("makemove re6e rf6x Ed6e")),
    ("makemove", Err(CommandFault::Argument)),
    ("makemove cc3x", Err(CommandFault::Argument)),
    (
        "makemove Ra1n Ra2n Ra3n Ra4n Ra5n",
        Err(CommandFault::Argument),
    ),
    ("makemove Ed2n Ed3", Err(CommandFault::Argument)),
    ("makemove resign", Err(CommandFault::Argument)),
    ("makemove \u{c9}d2n", Err(CommandFault::Argument)),
    (
        "makemove Ra1 Rb1 Rc1 Dd1 De1 Rf1 Rg1 Rh1 Ra2 Hb2 Cc2 Md2 Ee2 Cf2 Hg2 Rh2",
        Ok("makemove Ra1 Rb1 Rc1 Dd1 De1 Rf1 Rg1 Rh1 Ra2 Hb2 Cc2 Md2 Ee2 Cf2 Hg2 Rh2"),
    ),
    (
        "makemove ra7 hb7 cc7 ed7 me7 cf7 hg7 rh7 ra8 rb8 rc8 dd8 de8 rf8 rg8 rh8",
        Ok("makemove ra7 hb7 cc7 ed7 me7 cf7 hg7 rh7 ra8 rb8 rc8 dd8 de8 rf8 rg8 rh8"),
    ),
    (
        "makemove  Rh2 Hg2 Cf2 Ee2 Md2 Cc2 Hb2 Ra2 Rh1 Rg1 Rf1 De1 Dd1 Rc1 Rb1 Ra1",
        Ok("makemove Ra1 Rb1 Rc1 Dd1 De1 Rf1 Rg1 Rh1 Ra2 Hb2 Cc2 Md2 Ee2 Cf2 Hg2 Rh2"),
    ),
    (
        "makemove rh8 rg8 rf8 de8 dd8 rc8 rb8 ra8 rh7 hg7 cf7 me7 ed7 cc7 hb7 ra7",
        Ok("makemove ra7 hb7 cc7 ed7 me7 cf7 hg7 rh7 ra8 rb8 rc8 dd8 de8 rf8 rg8 rh8"),
    ),
    (
        "makemove ra1 Rb1 Rc1 Dd1 De1 Rf1 Rg1 Rh1 Ra2 Hb2 Cc2 Md2 Ee2 Cf2 Hg2 Rh2",
        Err(CommandFault::Argument),
    ),
    (
        "makemove Ra1 Rb1 Rc1 Dd1 De1 Rf1 Rg1 Rh1 Ra2 Hb2 Cc2 Md2 Ee2 Cf2 Hg2",
        Err(CommandFault::Argument),
    ),
    (
        "makemove Ra1 Rb1 Rc1 Dd1 De1 Rf1 Rg1 Rh1 Ra2 Hb2 Cc2 Md2 Ee2 Cf2 Hg2 Rh2 Ra3",
        Err(CommandFault::Argument),
    ),
    ("makemove Ra1", Err(CommandFault::Argument)),
    (
        "makemove Xa1 Rb1 Rc1 Dd1 De1 Rf1 Rg1 Rh1 Ra2 Hb2 Cc2 Md2 Ee2 Cf2 Hg2 Rh2",
        Err(CommandFault::Argument),
    ),
    ("makemove Ed2", Err(CommandFault::Argument)),
];

// Lines of an engine.
const ANSWERS: [AnswerRow; 32] = [
    ("protocol-version 1", Some("protocol-version 1")),
    (" protocol-version\t1 ", Some("protocol-version 1")),
    ("protocol-version", Some("protocol-version")),
    ("protocol-version 1 beta", Some("protocol-version 1 beta")),
    ("id name x", Some("id name x")),
    ("id  name   Bot  2\t", Some("id name   Bot  2")),
    ("id", Some("id")),
    ("identity x", None),
    ("aeiok", Some("aeiok")),
    ("\taeiok ", Some("aeiok")),
    ("aeiok now", None),
    ("aeiok\r", None),
    ("AEIOK", None),
    ("readyok", Some("readyok")),
    ("readyok 1", None),
    (" readyok", Some("readyok")),
    ("bestmove   Ed2n Ed3n ", Some("bestmove Ed2n Ed3n")),
    ("bestmove", Some("bestmove")),
    ("bestmove resign", Some("bestmove resign")),
    ("Bestmove Ed2n", None),
    ("bestmoves Ed2n", None),
    ("bestmove\rEd2n", None),
    ("info score 12", Some("info score 12")),
    ("info", Some("info")),
    ("log Debug: caf\u{e9}", Some("log Debug: caf\u{e9}")),
    ("log", Some("log")),
    ("log\t", Some("log")),
    ("", None),
    (" \t", None),
    ("go", None),
    ("\u{e9}", None),
    ("protocolversion 1", None),
];

// Whether a controller's line is written so or refused so.
fn command_is(
    alloc: Global,
    line: &str,
    want: &Result<&str, CommandFault>,
) -> Result<bool, AllocError> {
    match read_command(line.as_bytes()) {
        Ok(command) => match want {
            Ok(text) => Ok(command_bytes(alloc, &command)?.as_slice() == text.as_bytes()),
            Err(_) => Ok(false),
        },
        Err(fault) => match want {
            Ok(_) => Ok(false),
            Err(wanted) => Ok(fault == *wanted),
        },
    }
}

// Whether an engine's line is written so, or says nothing.
fn answer_is(alloc: Global, line: &str, want: &Option<&str>) -> Result<bool, AllocError> {
    match read_answer(line.as_bytes()) {
        Answer::Other => Ok(want.is_none()),
        answer => match want {
            Some(text) => Ok(answer_bytes(alloc, &answer)?.as_slice() == text.as_bytes()),
            None => Ok(false),
        },
    }
}

// The first of a controller's lines that is written or refused otherwise.
fn wrong_command(alloc: Global, rows: &[CommandRow]) -> Result<Option<&'static str>, AllocError> {
    for (line, want) in rows {
        if !command_is(alloc, line, want)? {
            return Ok(Some(line));
        }
    }
    Ok(None)
}

// The first of an engine's lines that is written otherwise.
fn wrong_answer(alloc: Global, rows: &[AnswerRow]) -> Result<Option<&'static str>, AllocError> {
    for (line, want) in rows {
        if !answer_is(alloc, line, want)? {
            return Ok(Some(line));
        }
    }
    Ok(None)
}

#[test]
fn words(rt: HostRuntime) -> Result<(), Fail> {
    let wrong = wrong_command(rt.alloc(), &WORDS)?;
    assert!(rt; wrong.is_none(), "{wrong:?}");
    Ok(())
}

#[test]
fn options(rt: HostRuntime) -> Result<(), Fail> {
    let wrong = wrong_command(rt.alloc(), &OPTIONS)?;
    assert!(rt; wrong.is_none(), "{wrong:?}");
    Ok(())
}

#[test]
fn positions(rt: HostRuntime) -> Result<(), Fail> {
    let wrong = wrong_command(rt.alloc(), &POSITIONS)?;
    assert!(rt; wrong.is_none(), "{wrong:?}");
    Ok(())
}

#[test]
fn moves(rt: HostRuntime) -> Result<(), Fail> {
    let wrong = wrong_command(rt.alloc(), &MOVES)?;
    assert!(rt; wrong.is_none(), "{wrong:?}");
    Ok(())
}

#[test]
fn answers(rt: HostRuntime) -> Result<(), Fail> {
    let wrong = wrong_answer(rt.alloc(), &ANSWERS)?;
    assert!(rt; wrong.is_none(), "{wrong:?}");
    Ok(())
}

#[test]
fn seconds(rt: HostRuntime) -> Result<(), Fail> {
    let option = Command::SetOption {
        name: OptionName::TcMove,
        value: 30,
    };
    let written = command_bytes(rt.alloc(), &option)?;
    assert!(rt; written.as_slice() == b"setoption name tcmove value 30".as_slice());
    Ok(())
}
