//! Records that come in pieces: what is answered doesn't depend on where a read ends.
use crate::runs::{Outside, run, spaces};
use arimaa_outside::Status;
use std::alloc::{AllocError, Global};
use std::process::Abort;
use std::test::Fail;
use std::thread::Threads;

// A position of 75 bytes, and three turns of 44 after it, which end by the repetition of its start.
const START: &[u8] = b"start 2g [                         R      rH                              ]";

const TURNS: &[u8] = b"\n2g ra4n Hb4w Ha4e\n2s ra5s\n3g ra4n Hb4w Ha4e";

// What `judge` answers over them.
const JUDGED: &[u8] = b"lawful 3\nwinner gold repetition\n";

// The start line with blanks after it up to so many bytes, this end, and the turns.
fn widened(alloc: Global, size: usize, end: &[u8]) -> Result<Vec<u8>, AllocError> {
    let mut text = Vec::from_slice(alloc, START)?;
    text.extend_from_slice(&spaces(alloc, size.saturating_sub(START.len()))?)?;
    text.extend_from_slice(end)?;
    text.extend_from_slice(TURNS)?;
    Ok(text)
}

// Judges an input that comes in pieces.
fn judge_pieces<R: Threads + Sync + AllocGlobal + Abort>(
    rt: &R,
    input: &[u8],
    read_piece: usize,
) -> Result<(), Fail> {
    let done = run(
        rt,
        "judge",
        &Outside {
            read_piece,
            ..Outside::plain(input)
        },
    )?;
    assert_eq!(rt; done.status, Status::Done, "{read_piece}");
    assert_eq!(rt; done.output.as_slice(), JUDGED, "{read_piece}");
    Ok(())
}

// Each place of the record, which has 120 bytes with its last line feed, is the end of the first
// piece once.
#[test]
fn each_cut(rt: HostRuntime) -> Result<(), Fail> {
    let mut game = widened(rt.alloc(), 75, b"")?;
    for read_piece in 1..120usize {
        judge_pieces(&rt, &game, read_piece)?;
    }
    game.push(b'\n')?;
    for read_piece in [1, 7, 64, 4096] {
        judge_pieces(&rt, &game, read_piece)?;
    }
    Ok(())
}

// Lines up to and beyond what is taken at a time, with a carriage return before, at and after the
// cut.
#[test]
fn long_lines(rt: HostRuntime) -> Result<(), Fail> {
    for size in [4094, 4095, 4096, 4097, 8191, 8192, 9000] {
        let plain = widened(rt.alloc(), size, b"")?;
        judge_pieces(&rt, &plain, 4096)?;
        let returned = widened(rt.alloc(), size, b"\r")?;
        judge_pieces(&rt, &returned, 4096)?;
        judge_pieces(&rt, &returned, 1000)?;
    }
    Ok(())
}

// A record that is bad at its first line is read to its end: `hello` and its line feed come in the
// first read, and the second fails or finds the end.
#[test]
fn a_read_fails_after_a_bad_line(rt: HostRuntime) -> Result<(), Fail> {
    for words in ["judge", "show", "prove gold 1"] {
        let failed = run(
            &rt,
            words,
            &Outside {
                failing_read: 2,
                ..Outside::plain(b"hello\n")
            },
        )?;
        assert_eq!(rt; failed.status, Status::ReadFault, "{words}");
        assert_eq!(rt; failed.output.len(), 0, "{words}");
        let done = run(
            &rt,
            words,
            &Outside {
                failing_read: 3,
                ..Outside::plain(b"hello\n")
            },
        )?;
        assert_eq!(rt; done.status, Status::Answered, "{words}");
        assert_eq!(rt;
            done.output.as_slice(),
            b"bad 1 1g text\n".as_slice(),
            "{words}"
        );
    }
    Ok(())
}
