//! The judge over sources: pieces of several sizes, and what comes in place of a bad line.
use crate::{JudgeStop, Judged, bad_text, judge_from, lawful_text};
use arimaa_outside::{MemSource, Source, StdSource};
use std::alloc::Global;
use std::io;
use std::io::Read;
use std::test::Fail;

// A game of three turns that ends by the repetition of its start.
const GAME: &[u8] =
    b"start 2g [                         R      rH                              ]\n2g ra4n Hb4w Ha4e\n2s ra5s\n3g ra4n Hb4w Ha4e\n";

// What a judgement is written as.
fn text_of<I: Source>(alloc: Global, input: &mut I) -> Result<Vec<u8>, JudgeStop> {
    match judge_from(alloc, input)? {
        Judged::Lawful {
            history: _,
            turns,
            ending,
            next,
        } => Ok(lawful_text(alloc, turns, ending, next)?),
        Judged::Bad { line, label, rule } => Ok(bad_text(alloc, line, label, rule)?),
    }
}

// What the judgement of a text is written as that comes in pieces. The call of this number fails.
fn judged_text(alloc: Global, text: &[u8], piece: usize, fails: u64) -> Result<Vec<u8>, JudgeStop> {
    let bytes = Vec::from_slice(alloc, text)?;
    let fails = Vec::from_slice(alloc, &[fails])?;
    text_of(alloc, &mut MemSource::new(bytes, piece.max(1), fails))
}

#[test]
fn pieces_of_a_game(rt: HostRuntime) -> Result<(), Fail> {
    let alloc = rt.alloc();
    for piece in [1, 7, 64, 4096] {
        let text = judged_text(alloc, GAME, piece, 0)?;
        assert_eq!(rt;
            text.as_slice(),
            b"lawful 3\nwinner gold repetition\n".as_slice()
        );
    }
    Ok(())
}

#[test]
fn after_a_bad_line(rt: HostRuntime) -> Result<(), Fail> {
    let alloc = rt.alloc();
    let text = judged_text(alloc, b"hello\n1g", 6, 0)?;
    assert_eq!(rt; text.as_slice(), b"bad 1 1g text\n".as_slice());
    let stop = judged_text(alloc, b"hello\n1g", 6, 2).err();
    assert_eq!(rt; stop, Some(JudgeStop::Fault));
    let start: &[u8] = b"hello\n";
    let mut long = StdSource::new(start.chain(io::repeat(b'#').take(67_108_859)));
    assert_eq!(rt; text_of(alloc, &mut long).err(), Some(JudgeStop::TooLong));
    Ok(())
}
