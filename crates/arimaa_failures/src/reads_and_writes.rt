//! Reads and writes that fail.
use crate::runs::{Done, answer};
use arimaa_outside::{MemSink, MemSource, Status};
use std::alloc::AllocError;
use std::test::Fail;
use std::thread::Threads;

// A game of 120 bytes, which come in two reads of at most 64; a third finds the end.
const GAME: &[u8] =
    b"start 2g [                         R      rH                              ]\n2g ra4n Hb4w Ha4e\n2s ra5s\n3g ra4n Hb4w Ha4e\n";

// The 32 bytes that are written of it, in eight writes of 4.
const JUDGED: &[u8] = b"lawful 3\nwinner gold repetition\n";

// The judgement where the read and the write of these numbers fail; there is none of number 0.
fn judged<R: Threads + Sync + AllocGlobal>(
    rt: &R,
    read: u64,
    write: u64,
) -> Result<Done, AllocError> {
    let alloc = rt.alloc();
    let input = Vec::from_slice(alloc, GAME)?;
    let source = MemSource::new(input, 64, Vec::from_slice(alloc, &[read])?);
    let sink = MemSink::new(alloc, 4, Vec::from_slice(alloc, &[write])?);
    answer(rt, &["judge"], source, sink)
}

#[test]
fn each_read_of_a_game_fails(rt: HostRuntime) -> Result<(), Fail> {
    for number in 1..4u64 {
        let done = judged(&rt, number, 0)?;
        assert!(rt; done.is(Status::ReadFault, b""), "{number}");
    }
    let done = judged(&rt, 4, 0)?;
    assert!(rt; done.is(Status::Done, JUDGED));
    Ok(())
}

#[test]
fn each_write_of_a_judgement_fails(rt: HostRuntime) -> Result<(), Fail> {
    for number in 1..9u64 {
        let done = judged(&rt, 0, number)?;
        let (before, _) = JUDGED.split_at(4 * (number as usize - 1));
        assert!(rt; done.is(Status::WriteFault, before), "{number}");
    }
    let done = judged(&rt, 0, 9)?;
    assert!(rt; done.is(Status::Done, JUDGED));
    Ok(())
}
