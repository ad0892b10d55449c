//! What `prove` and `judge` do where a read or a write fails, and with inputs at the limit of their
//! size.
use crate::runs::{Outside, run, spaces};
use arimaa_outside::Status;
use std::test::Fail;

const INPUT: &[u8] =
    b"start 2g [        R      r                   E                            ]\n";

const OUTPUT: &[u8] =
    b"yes 1\nstrategy\n1 [        R      r                   E                            ] Ra7n\n";

// The 76 bytes come in 5 reads of at most 16, and a last one finds the end.
#[test]
fn each_read_fails(rt: HostRuntime) -> Result<(), Fail> {
    for number in 1..7u64 {
        let done = run(
            &rt,
            "prove gold 1",
            &Outside {
                read_piece: 16,
                failing_read: number,
                ..Outside::plain(INPUT)
            },
        )?;
        assert_eq!(rt; done.status, Status::ReadFault, "{number}");
        assert_eq!(rt; done.output.len(), 0, "{number}");
    }
    let done = run(
        &rt,
        "prove gold 1",
        &Outside {
            read_piece: 16,
            failing_read: 7,
            ..Outside::plain(INPUT)
        },
    )?;
    assert_eq!(rt; done.status, Status::Done);
    Ok(())
}

// The 89 bytes go out in 23 writes of at most 4.
#[test]
fn each_write_fails(rt: HostRuntime) -> Result<(), Fail> {
    for number in 1..24u64 {
        let done = run(
            &rt,
            "prove gold 1",
            &Outside {
                write_piece: 4,
                failing_write: number,
                ..Outside::plain(INPUT)
            },
        )?;
        assert_eq!(rt; done.status, Status::WriteFault, "{number}");
        let before = 4 * (number as usize - 1);
        assert_eq!(rt;
            Some(done.output.as_slice()),
            OUTPUT.get(..before),
            "{number}"
        );
    }
    let done = run(
        &rt,
        "prove gold 1",
        &Outside {
            write_piece: 4,
            failing_write: 24,
            ..Outside::plain(INPUT)
        },
    )?;
    assert_eq!(rt; done.status, Status::Done);
    assert_eq!(rt; done.output.as_slice(), OUTPUT);
    Ok(())
}

// A game of 120 bytes, which come in two reads of at most 64; a third finds the end.
const GAME: &[u8] =
    b"start 2g [                         R      rH                              ]\n2g ra4n Hb4w Ha4e\n2s ra5s\n3g ra4n Hb4w Ha4e\n";

// The reads and writes of `judge` over that game, and what then was written.
#[test]
fn a_judgement_fails(rt: HostRuntime) -> Result<(), Fail> {
    let whole: &[u8] = b"lawful 3\nwinner gold repetition\n";
    for (failing_read, failing_write, status, written) in [
        (0, 0, Status::Done, 32),
        (1, 0, Status::ReadFault, 0),
        (3, 0, Status::ReadFault, 0),
        (4, 0, Status::Done, 32),
        (0, 1, Status::WriteFault, 0),
        (0, 2, Status::WriteFault, 4),
        (0, 8, Status::WriteFault, 28),
        (0, 9, Status::Done, 32),
    ] {
        let done = run(
            &rt,
            "judge",
            &Outside {
                input: GAME,
                read_piece: 64,
                failing_read,
                write_piece: 4,
                failing_write,
            },
        )?;
        assert_eq!(rt; done.status, status, "{failing_read} {failing_write}");
        assert_eq!(rt;
            Some(done.output.as_slice()),
            whole.get(..written),
            "{failing_read} {failing_write}"
        );
    }
    Ok(())
}

// An input of 64 MiB is read whole, and one byte more is too long.
#[test]
fn the_longest_input(rt: HostRuntime) -> Result<(), Fail> {
    let done = run(
        &rt,
        "judge",
        &Outside::plain(&spaces(rt.alloc(), 67_108_864)?),
    )?;
    assert_eq!(rt; done.output.as_slice(), b"lawful 0\nnext 1g\n".as_slice());
    let done = run(
        &rt,
        "judge",
        &Outside::plain(&spaces(rt.alloc(), 67_108_865)?),
    )?;
    assert_eq!(rt; done.status, Status::TooLong);
    assert_eq!(rt; done.output.as_slice(), b"too long\n".as_slice());
    Ok(())
}
