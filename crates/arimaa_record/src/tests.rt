//! Records, right ones and ones with a faulty line.
use crate::{LineFault, RecordFault, read_record, record_text};
use arimaa_board::{BoardFault, Color};
use arimaa_notation::NoteFault;
use std::alloc::{AllocError, Global};
use std::test::Fail;

// Lines of each form, and what they are written as.
const FORMS: [(&[u8], &[u8]); 15] = [
    (b" \t", b""),
    (b"# 1g is no label here", b""),
    (b"\t #\x00 \r in a comment \xff", b""),
    (
        b"start 2g [                         R      rH                              ]",
        b"start 2g [                         R      rH                              ]",
    ),
    (
        b" \tstart\t 2b\t[                  X  x   R      rH        x  X                  ] \t",
        b"start 2s [                         R      rH                              ]",
    ),
    (
        b"1g Ra1 Rb1 Rc1 Dd1 De1 Rf1 Rg1 Rh1 Ra2 Hb2 Cc2 Md2 Ee2 Cf2 Hg2 Rh2",
        b"1g Ra1 Rb1 Rc1 Dd1 De1 Rf1 Rg1 Rh1 Ra2 Hb2 Cc2 Md2 Ee2 Cf2 Hg2 Rh2",
    ),
    (
        b"  1w\tRh2\tHg2  Cf2 Ee2 Md2 Cc2 Hb2 Ra2 Rh1\t\tRg1 Rf1 De1 Dd1 Rc1 Rb1 Ra1 ",
        b"1g Ra1 Rb1 Rc1 Dd1 De1 Rf1 Rg1 Rh1 Ra2 Hb2 Cc2 Md2 Ee2 Cf2 Hg2 Rh2",
    ),
    (
        b"1b ra7 hb7 cc7 ed7 me7 cf7 hg7 rh7 ra8 rb8 rc8 dd8 de8 rf8 rg8 rh8",
        b"1s ra7 hb7 cc7 ed7 me7 cf7 hg7 rh7 ra8 rb8 rc8 dd8 de8 rf8 rg8 rh8",
    ),
    (b"2g Ed2n", b"2g Ed2n"),
    (b"\t12w  re6e\trf6x Ed6e\t", b"12g re6e rf6x Ed6e"),
    (
        b"3b Hb2n cc3x Hb3e Rf3x mc6w cc6x rh8s ef6x",
        b"3s Hb2n cc3x Hb3e Rf3x mc6w cc6x rh8s ef6x",
    ),
    (b"7s resigns", b"7s resigns"),
    (b" 999999999w\ttime ", b"999999999g time"),
    (b"3g", b"3g"),
    (b"\t3b ", b"3s"),
];

// What ends a line, or an input.
const ENDS: [&[u8]; 4] = [b"\n", b"\r\n", b"", b"\r"];

// Inputs that are records, and what they are written as.
const RECORDS: [(&[u8], &[u8]); 8] = [
    (
        b"start 2g [                         R      rH                              ]\n2g ra4n Hb4w Ha4e\n2s ra5s\n3g ra4n Hb4w Ha4e\n",
        b"start 2g [                         R      rH                              ]\n2g ra4n Hb4w Ha4e\n2s ra5s\n3g ra4n Hb4w Ha4e\n",
    ),
    (b"", b""),
    (b"\n", b"\n"),
    (b"\r\n", b"\n"),
    (b"\r", b"\n"),
    (b"\n\n", b"\n\n"),
    (b"3g\n\r", b"3g\n\n"),
    (b"3g\r\n\n# end\r\n3s", b"3g\n\n\n3s\n"),
];

// Inputs with a fault: the number of the first faulty line, what is wrong with it, and the number
// of its label, or 0.
const FAULTS: [(&[u8], u64, &str, u32); 32] = [
    (b"0g", 1, "text", 0),
    (b"01g", 1, "text", 0),
    (b"+1g", 1, "text", 0),
    (b"1000000000g", 1, "text", 0),
    (b"1 g", 1, "text", 0),
    (b"1x", 1, "text", 0),
    (b"1gg", 1, "text", 0),
    (b"g", 1, "text", 0),
    (b"resigns", 1, "text", 0),
    (b"2g Resigns", 1, "text", 0),
    (b"2g resigns now", 1, "text", 0),
    (b"2g time time", 1, "text", 0),
    (b"2g # no comment", 1, "text", 0),
    (b"start", 1, "text", 0),
    (
        b"start 0g [                         R      rH                              ]",
        1,
        "text",
        0,
    ),
    (
        b"Start 2g [                         R      rH                              ]",
        1,
        "text",
        0,
    ),
    (
        b"2g start [                         R      rH                              ]",
        1,
        "text",
        0,
    ),
    (b"start 2g", 1, "start", 2),
    (
        b"start 3g [                         R      rHx                             ]",
        1,
        "start",
        3,
    ),
    (
        b"start 4g [                         R      rH                              ]2",
        1,
        "start",
        4,
    ),
    (b"2g Ra1n Ra2n Ra3n Ra4n Ra5n", 1, "steps", 2),
    (b"2g cc3x Ra1n", 1, "text", 0),
    (b"2g Ra1n cc3x cf3x", 1, "text", 0),
    (b"2g Ra1n Ra2n Ra3n Ra4n Ra5q", 1, "text", 0),
    (b"5g Ra1", 1, "setup", 5),
    (
        b"6s Ra1 Rb1 Rc1 Dd1 De1 Rf1 Rg1 Rh1 Ra2 Hb2 Cc2 Md2 Ee2 Cf2 Hg2 Rh2",
        1,
        "setup",
        6,
    ),
    (b"1g Ra1 Ed2n", 1, "text", 0),
    (b"3g\r\r\n", 1, "text", 0),
    (b"3g\r3s", 1, "text", 0),
    (b"#\n\x00", 2, "text", 0),
    (b"\n# a\r\n3g\n2q\n0g\n", 4, "text", 0),
    (b"3g\n4g Ra1\n2q", 2, "setup", 4),
];

// Whether an input is read as a record that is written so.
fn is_written(alloc: Global, input: &[u8], want: &[u8]) -> Result<bool, AllocError> {
    match read_record(alloc, input) {
        Ok(record) => {
            let text = record_text(alloc, &record)?;
            Ok(text.as_slice() == want)
        }
        Err(_) => Ok(false),
    }
}

// What is wrong with a line, and the number of its label.
fn fault_parts(fault: LineFault) -> (&'static str, u32) {
    match fault {
        LineFault::Text => ("text", 0),
        LineFault::Steps { number, .. } => ("steps", number),
        LineFault::BadStart { number, .. } => ("start", number),
        LineFault::BadSetup { number, .. } => ("setup", number),
    }
}

// The line of a fault, what is wrong with it, and the number of its label.
fn place_of(fault: RecordFault) -> Option<(u64, &'static str, u32)> {
    match fault {
        RecordFault::Memory => None,
        RecordFault::Line { line, fault } => {
            let (word, number) = fault_parts(fault);
            Some((line, word, number))
        }
    }
}

// The first faulty line of an input.
fn fault_of(alloc: Global, input: &[u8]) -> Option<(u64, &'static str, u32)> {
    place_of(read_record(alloc, input).err()?)
}

// Whether an input is refused at this line for this, with a label of this number.
fn is_refused(alloc: Global, input: &[u8], line: u64, word: &str, number: u32) -> bool {
    match fault_of(alloc, input) {
        None => false,
        Some((place, found, label)) => place == line && found == word && label == number,
    }
}

#[test]
fn forms_and_ends(rt: HostRuntime) -> Result<(), Fail> {
    for (form, want) in FORMS.iter() {
        for end in ENDS.iter() {
            let mut input = Vec::from_slice(rt.alloc(), form)?;
            input.extend_from_slice(end)?;
            let mut text = Vec::from_slice(rt.alloc(), want)?;
            text.push(b'\n')?;
            let held = is_written(rt.alloc(), &input, &text)?;
            assert!(rt; held, "{input:?}");
        }
    }
    Ok(())
}

#[test]
fn records_and_faults(rt: HostRuntime) -> Result<(), Fail> {
    for (input, want) in RECORDS.iter() {
        let held = is_written(rt.alloc(), input, want)?;
        assert!(rt; held, "{input:?}");
    }
    for (input, line, word, number) in FAULTS.iter() {
        let held = is_refused(rt.alloc(), input, *line, word, *number);
        assert!(rt; held, "{input:?}");
    }
    Ok(())
}

// What each fault of items, lines and records says.
#[test]
fn texts_of_faults(rt: HostRuntime) -> Result<(), Fail> {
    let alloc = rt.alloc();
    let notes = [
        (NoteFault::Token(7), "item 7 is out of place"),
        (NoteFault::Steps, "more than four steps"),
        (NoteFault::Setup, "no setup of the side"),
    ];
    for (fault, text) in notes.iter() {
        assert_eq!(rt; format!(in alloc; "{fault}")?.as_str(), *text);
    }
    let side = Color::Gold;
    let lines = [
        (LineFault::Text, "not a line of a record"),
        (
            LineFault::Steps { number: 12, side },
            "more than four steps in turn 12",
        ),
        (
            LineFault::BadStart {
                number: 2,
                side,
                fault: BoardFault::BadLength,
            },
            "the start line of turn 2 has no board",
        ),
        (
            LineFault::BadSetup { number: 1, side },
            "no setup in line 1",
        ),
    ];
    for (fault, text) in lines.iter() {
        assert_eq!(rt; format!(in alloc; "{fault}")?.as_str(), *text);
    }
    let line = RecordFault::Line {
        line: 9,
        fault: LineFault::Text,
    };
    assert_eq!(rt;
        format!(in alloc; "{line}")?.as_str(),
        "line 9: not a line of a record"
    );
    assert_eq!(rt;
        format!(in alloc; "{}", RecordFault::Memory)?.as_str(),
        "no memory left"
    );
    Ok(())
}
