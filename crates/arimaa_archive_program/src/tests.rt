//! What the program answers to words and archives that were worked out by hand from the rules, and
//! what it does where the outside fails.
use arimaa_archive::{Part, judge_many, run_archive};
use arimaa_outside::{CommandWords, MemSink, MemSource, Status};
use arimaa_pool::MeetGate;
use std::alloc::{AllocError, Global};
use std::process::Abort;
use std::test::Fail;
use std::thread::Threads;

// Three records: a game that ends by a push, one without lines, and one whose line has no form.
const THREE: &str = "game\n\
    start 2g [       e                                  RDr                   ]\n\
    2g re3e rf3x Dd3e Rc3x\n\
    game\n\
    game\n\
    hello\n";

const THREE_REPORTED: &str = "game 1\nlawful 1\nwinner gold elimination\n\
    game 2\nlawful 0\nnext 1g\n\
    game 3\nbad 1 1g text\n\
    games 3 lawful 2 bad 1\n";

// How a run ended, and what it wrote.
#[derive(Drop)]
struct Done {
    status: Status,
    output: Vec<u8>,
}

// The number of the read and of the write that fail, from 1; 0 for none.
#[derive(Clone, Copy)]
struct Failing {
    read: u64,
    write: u64,
}

const SOUND: Failing = Failing { read: 0, write: 0 };

// Runs the program over objects in memory, 16 bytes a read and 8 bytes a write where one of them
// fails.
fn run<R: Threads + Sync + AllocGlobal>(
    rt: &R,
    words: &str,
    input: &[u8],
    failing: Failing,
) -> Result<Done, AllocError> {
    let alloc = rt.alloc();
    let mut list = CommandWords::new(alloc);
    for word in words.split_whitespace() {
        list.push(word)?;
    }
    let is_sound = failing.read == 0 && failing.write == 0;
    let pieces = if is_sound {
        (1 << 20, 1 << 20)
    } else {
        (16, 8)
    };
    let bytes = Vec::from_slice(alloc, input)?;
    let mut source = MemSource::new(bytes, pieces.0, vec![in alloc; failing.read]?);
    let mut sink = MemSink::new(alloc, pieces.1, vec![in alloc; failing.write]?);
    let status = run_archive(rt, alloc, &list, &mut source, &mut sink);
    let output = Vec::from_slice(alloc, sink.written())?;
    Ok(Done { status, output })
}

// Runs one example: the words, the input, and the output and status that are wanted.
fn check<R: Threads + Sync + AllocGlobal + Abort>(
    rt: &R,
    words: &str,
    input: &str,
    output: &str,
    status: Status,
) -> Result<(), Fail> {
    let done = run(rt, words, input.as_bytes(), SOUND)?;
    assert_eq!(rt; done.status, status, "{words}: {input}");
    assert_eq!(rt;
        done.output.as_slice(),
        output.as_bytes(),
        "{words}: {input}"
    );
    Ok(())
}

const NONE: &str = "games 0 lawful 0 bad 0\n";

// Words that ask for workers, whose number changes no answer.
const WORKERS: [&str; 6] = [
    "",
    "--workers 1",
    "--workers 2",
    "--workers 3",
    "--workers 4",
    "--workers 16",
];

// Inputs and the reports that are wanted.
const REPORTS: [(&str, &str); 9] = [
    (THREE, THREE_REPORTED),
    // no record
    ("", NONE),
    ("# a comment\n\n \t \n", NONE),
    // an empty record, and one with comments alone
    (
        "game\n",
        "game 1\nlawful 0\nnext 1g\ngames 1 lawful 1 bad 0\n",
    ),
    (
        "game\ngame\n\n# a comment\n",
        "game 1\nlawful 0\nnext 1g\ngame 2\nlawful 0\nnext 1g\ngames 2 lawful 2 bad 0\n",
    ),
    // lines are counted from 1 after the line `game`
    (
        "# 1999\ngame\n\n# a comment\nhello\n",
        "game 1\nbad 3 1g text\ngames 1 lawful 0 bad 1\n",
    ),
    // carriage returns, and no line feed at the end
    (
        "\r\ngame\r\n\r\nhello\r\ngame\r",
        "game 1\nbad 2 1g text\ngame 2\nlawful 0\nnext 1g\ngames 2 lawful 1 bad 1\n",
    ),
    // blanks round the word
    (
        " \tgame \n",
        "game 1\nlawful 0\nnext 1g\ngames 1 lawful 1 bad 0\n",
    ),
    // other words begin no record
    (
        "game\ngames\ngame\nGame\n",
        "game 1\nbad 1 1g text\ngame 2\nbad 1 1g text\ngames 2 lawful 0 bad 2\n",
    ),
];

// Inputs with a line before the first record, and the answers that are wanted.
const STRAYS: [(&str, &str); 5] = [
    ("hello", "no game 1\n"),
    ("# 1999\n\n1g\ngame\n", "no game 3\n"),
    ("games\ngame\n", "no game 1\n"),
    ("\r\n# 1999\r\n\r\nhello\r\ngame\r\n", "no game 4\n"),
    ("1g\n1s\n2g\ngame\nhello\n", "no game 1\n"),
];

// Words that are not in form.
const MISFORMED: [&str; 8] = [
    "--workers 0",
    "--workers 17",
    "--workers 04",
    "--workers",
    "--workers 4 4",
    "--workers=4",
    "--worker 4",
    "4",
];

#[test]
fn reports(rt: HostRuntime) -> Result<(), Fail> {
    for words in WORKERS {
        for (input, output) in REPORTS {
            check(&rt, words, input, output, Status::Done)?;
        }
    }
    Ok(())
}

#[test]
fn lines_before_the_first_record(rt: HostRuntime) -> Result<(), Fail> {
    for words in WORKERS {
        for (input, output) in STRAYS {
            check(&rt, words, input, output, Status::Answered)?;
        }
    }
    Ok(())
}

#[test]
fn misformed_words(rt: HostRuntime) -> Result<(), Fail> {
    for words in MISFORMED {
        for input in ["", "hello"] {
            check(&rt, words, input, "bad words\n", Status::Words)?;
        }
    }
    Ok(())
}

// The 120 bytes of three records come in 8 reads of at most 16, and a last one finds the end; the
// 108 bytes of their report go out in 14 writes of at most 8.
#[test]
fn failing_reads_and_writes(rt: HostRuntime) -> Result<(), Fail> {
    for (read, write, status, written) in [
        (1, 0, Status::ReadFault, 0),
        (9, 0, Status::ReadFault, 0),
        (10, 0, Status::Done, 108),
        (0, 1, Status::WriteFault, 0),
        (0, 2, Status::WriteFault, 8),
        (0, 14, Status::WriteFault, 104),
        (0, 15, Status::Done, 108),
    ] {
        let done = run(&rt, "", THREE.as_bytes(), Failing { read, write })?;
        assert_eq!(rt; done.status, status, "{read} {write}");
        assert_eq!(rt;
            Some(done.output.as_slice()),
            THREE_REPORTED.as_bytes().get(..written),
            "{read} {write}"
        );
    }
    Ok(())
}

// One byte more than are taken.
#[test]
fn too_long_an_archive(rt: HostRuntime) -> Result<(), Fail> {
    let bytes = vec![in rt.alloc(); b' '; 67_108_865]?;
    let done = run(&rt, "", &bytes, SOUND)?;
    assert_eq!(rt; done.status, Status::TooLong);
    assert_eq!(rt; done.output.as_slice(), b"too long\n".as_slice());
    Ok(())
}

// 2,000 records, every other one bad in its fourth line.
#[test]
fn many_records(rt: HostRuntime) -> Result<(), Fail> {
    let alloc = rt.alloc();
    let mut archive = Vec::new(alloc);
    let mut wanted = Vec::new(alloc);
    for pair in 0..1000u64 {
        archive.extend_from_slice(b"game\n# lawful\ngame\n\n\n1g\n1s\n")?;
        let (first, second) = (2 * pair + 1, 2 * pair + 2);
        let lines = format!(in alloc;
            "game {first}\nlawful 0\nnext 1g\ngame {second}\nbad 4 1g after\n"
        )?;
        wanted.extend_from_slice(lines.as_bytes())?;
    }
    wanted.extend_from_slice(b"games 2000 lawful 1000 bad 1000\n")?;
    for words in ["--workers 1", "--workers 2", "", "--workers 16"] {
        let done = run(&rt, words, &archive, SOUND)?;
        assert_eq!(rt; done.status, Status::Done, "{words}");
        assert_eq!(rt; done.output.as_slice(), wanted.as_slice(), "{words}");
    }
    Ok(())
}

// An archive of 100,000 records: so many empty ones, and then a bad one, six times over. The bad
// ones are 1, 25000, 25001, 50000, 99999 and 100000.
const LARGE: [(usize, &str); 6] = [
    (0, "game\nhello\n"),
    (24_998, "game\n\n# a comment\nhello\n"),
    (0, "game\n1g\n1s\n"),
    (24_998, "game\r\n\r\n1g\r\n1s\r\n"),
    (49_998, "game\ngames\n"),
    (0, "game\nhello"),
];

// How many bytes the report on it has.
const LARGE_SIZE: usize = 2_788_911;

// Parts of that report, each after the number of bytes before it.
const LARGE_REPORTED: [(usize, &str); 4] = [
    (0, "game 1\nbad 1 1g text\ngame 2\nlawful 0\nnext 1g\n"),
    (
        688_835,
        "game 24999\nlawful 0\nnext 1g\ngame 25000\nbad 3 1g text\n\
            game 25001\nbad 2 1g after\ngame 25002\nlawful 0\nnext 1g\n",
    ),
    (
        1_388_830,
        "game 49999\nlawful 0\nnext 1g\ngame 50000\nbad 3 1g after\n\
            game 50001\nlawful 0\nnext 1g\n",
    ),
    (
        2_788_800,
        "game 99998\nlawful 0\nnext 1g\ngame 99999\nbad 1 1g text\n\
            game 100000\nbad 1 1g text\ngames 100000 lawful 99994 bad 6\n",
    ),
];

// The bytes of that archive.
fn large_archive(alloc: Global) -> Result<Vec<u8>, AllocError> {
    let mut archive = Vec::new(alloc);
    for (empty, bad) in LARGE {
        for _ in 0..empty {
            archive.extend_from_slice(b"game\n")?;
        }
        archive.extend_from_slice(bad.as_bytes())?;
    }
    Ok(archive)
}

#[test]
fn a_hundred_thousand_records(rt: HostRuntime) -> Result<(), Fail> {
    let archive = large_archive(rt.alloc())?;
    let one = run(&rt, "--workers 1", &archive, SOUND)?;
    assert_eq!(rt; one.status, Status::Done);
    let report = one.output.as_slice();
    assert_eq!(rt; report.len(), LARGE_SIZE);
    for (place, part) in LARGE_REPORTED {
        let rest = report.get(place..);
        assert!(rt;
            rest.is_some_and(|rest| rest.starts_with(part.as_bytes())),
            "at {place}"
        );
    }
    let four = run(&rt, "--workers 4", &archive, SOUND)?;
    assert_eq!(rt; four.status, Status::Done);
    assert!(rt; four.output.as_slice() == report);
    Ok(())
}

// Two records are judged by two workers at a time: each waits at the gate until the other has come.
#[test]
fn workers_meet(rt: HostRuntime) -> Result<(), Fail> {
    let gate = MeetGate::new();
    let parts = [Part { start: 0, end: 3 }, Part { start: 3, end: 6 }];
    let told = judge_many(&rt, rt.alloc(), b"1g\n1s\n", &parts, 2, &gate)?;
    assert!(rt; !gate.starved());
    assert_eq!(rt; told.len(), 2);
    assert!(rt; told[0].is_lawful());
    assert!(rt; !told[1].is_lawful());
    Ok(())
}
