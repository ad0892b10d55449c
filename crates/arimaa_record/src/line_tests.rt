//! The reader of lines: what no clause says, that calls succeed, and lines that pieces cut.
use crate::{LineReader, first_line};
use arimaa_outside::{MemSource, ReadAll, Source, StdSource};
use std::alloc::{AllocError, Global};
use std::io::Read;
use std::test::Fail;

// A game of three turns.
const GAME: &[u8] =
    b"start 2g [                         R      rH                              ]\n2g ra4n Hb4w Ha4e\n2s ra5s\n3g ra4n Hb4w Ha4e\n";

// Inputs whose ends of lines are of each kind.
const ENDS: [&[u8]; 10] = [
    b"",
    b"\n",
    b"\r",
    b"\r\n",
    b"\n\n",
    b"\r\r\n",
    b"1g\n\r",
    b"1g\r\n1s",
    b"1g\r1s\r",
    b"\n#\r\n\r\n1g",
];

// Whether a reader gives the lines of a text, and then twice none.
fn gives_lines<I: Source>(alloc: Global, input: &mut I, text: &[u8]) -> Result<bool, ReadAll> {
    let mut reader = LineReader::new(alloc)?;
    let mut rest = text;
    'lines: while let Some((line, later)) = first_line(rest) {
        match reader.next(input)? {
            Some(given) if given == line => (),
            _ => return Ok(false),
        }
        rest = later;
    }
    let ends = reader.next(input)?.is_none();
    let stays = reader.next(input)?.is_none();
    Ok(ends && stays)
}

// A source that gives a text in pieces, and of which the call of this number fails.
fn source_of(
    alloc: Global,
    text: &[u8],
    piece: usize,
    fails: u64,
) -> Result<MemSource, AllocError> {
    let bytes = Vec::from_slice(alloc, text)?;
    Ok(MemSource::new(bytes, piece.max(1), Vec::from_slice(alloc, &[fails])?))
}

#[test]
fn pieces_of_each_size(rt: HostRuntime) -> Result<(), Fail> {
    let alloc = rt.alloc();
    for piece in 1..=GAME.len() {
        let mut input = source_of(alloc, GAME, piece, 0)?;
        assert!(rt; gives_lines(alloc, &mut input, GAME)?, "pieces of {piece}");
    }
    for text in ENDS.iter() {
        for piece in 1..=4 {
            let mut input = source_of(alloc, text, piece, 0)?;
            assert!(rt;
                gives_lines(alloc, &mut input, text)?,
                "{text:?} by {piece}"
            );
        }
    }
    Ok(())
}

#[test]
fn a_cut_at_each_byte(rt: HostRuntime) -> Result<(), Fail> {
    let alloc = rt.alloc();
    for at in 0..=GAME.len() {
        let mut input = StdSource::new((&GAME[..at]).chain(&GAME[at..]));
        assert!(rt; gives_lines(alloc, &mut input, GAME)?, "cut at {at}");
    }
    Ok(())
}

// Lines shorter and longer than the buffer, each followed by a short one, with and without a
// carriage return at the buffer's end.
#[test]
fn long_lines(rt: HostRuntime) -> Result<(), Fail> {
    let alloc = rt.alloc();
    for len in [4094, 4095, 4096, 4097, 8191, 8192, 10_000] {
        for end in [b"\n".as_slice(), b"\r\n", b"\r\r\n", b"\rx\n"] {
            let mut text = vec![in alloc; b'x'; len]?;
            text.extend_from_slice(end)?;
            text.extend_from_slice(b"1g\n")?;
            for piece in [1000, 4096, 20_000] {
                let mut input = source_of(alloc, &text, piece, 0)?;
                assert!(rt;
                    gives_lines(alloc, &mut input, &text)?,
                    "{len} bytes by {piece}"
                );
            }
        }
    }
    Ok(())
}

// A read that fails is answered after the lines before it, and in place of a line that it cuts.
#[test]
fn a_read_that_fails(rt: HostRuntime) -> Result<(), Fail> {
    let alloc = rt.alloc();
    for fails in 1..=3 {
        let mut input = source_of(alloc, b"1g\n1s", 3, fails)?;
        assert_eq!(rt;
            gives_lines(alloc, &mut input, b"1g\n1s"),
            Err(ReadAll::Fault)
        );
    }
    let mut input = source_of(alloc, b"1g\n1s", 3, 4)?;
    assert!(rt; gives_lines(alloc, &mut input, b"1g\n1s")?);
    Ok(())
}
