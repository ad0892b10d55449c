//! Inputs that are cut at each of their bytes.
use crate::runs::answer_to;
use arimaa_outside::Status;
use std::alloc::AllocError;
use std::test::Fail;
use std::thread::Threads;

// A record as a user has it, with carriage returns, older letters and a comment.
const RECORD: &[u8] =
    b"# club game\r\n1w Ra1 Rb1 Rc1 Dd1 De1 Rf1 Rg1 Rh1 Ra2 Hb2 Cc2 Md2 Ee2 Cf2 Hg2 Rh2\r\n1b ra7 hb7 cc7 ed7 me7 cf7 hg7 rh7 ra8 rb8 rc8 dd8 de8 rf8 rg8 rh8\r\n2w Ee2n Ee3n Ee4n Hb2n\r\n2b ed7s ed6s ra7s ra6s\r\n3w Ee5n me7w Ee6n Hb3n\r\n3b resigns\r\n";

// A record and a strategy that wins: Gold's rabbit goes to a4, and then to a8 whatever the silver
// rabbit does.
const STRATEGY: &[u8] =
    b"start 2g [                       r                                R       ]\nstrategy\n3 [                       r                                R       ] Ra1n Ra2n Ra3n\n1 [                               rR                               ] Ra4n Ra5n Ra6n Ra7n\n1 [                      r         R                               ] Ra4n Ra5n Ra6n Ra7n\n1 [                                R      r                        ] Ra4n Ra5n Ra6n Ra7n\n1 [                              r R                               ] Ra4n Ra5n Ra6n Ra7n\n1 [                                R              r                ] Ra4n Ra5n Ra6n Ra7n\n1 [                                R     r                         ] Ra4n Ra5n Ra6n Ra7n\n1 [                             r  R                               ] Ra4n Ra5n Ra6n Ra7n\n1 [                                R                      r        ] Ra4n Ra5n Ra6n Ra7n\n1 [                                R             r                 ] Ra4n Ra5n Ra6n Ra7n\n1 [                                R    r                          ] Ra4n Ra5n Ra6n Ra7n\n1 [                            r   R                               ] Ra4n Ra5n Ra6n Ra7n\n";

// The status of a command over the first so many bytes.
fn status_of<R: Threads + Sync + AllocGlobal>(
    rt: &R,
    list: &[&str],
    input: &[u8],
    count: usize,
) -> Result<Status, AllocError> {
    match input.get(..count) {
        Some(first) => Ok(answer_to(rt, list, first)?.status),
        None => Ok(Status::ReadFault),
    }
}

// A cut record has a judgement.
#[test]
fn a_record_is_cut(rt: HostRuntime) -> Result<(), Fail> {
    for count in 0..RECORD.len() + 1 {
        let status = status_of(&rt, &["judge"], RECORD, count)?;
        assert!(rt;
            matches!(status, Status::Done | Status::Answered),
            "{count}"
        );
    }
    Ok(())
}

// A strategy wins whole, or without its last line feed, and in no shorter part.
#[test]
fn a_strategy_is_cut(rt: HostRuntime) -> Result<(), Fail> {
    for count in 0..STRATEGY.len() + 1 {
        let status = status_of(&rt, &["check", "gold", "3"], STRATEGY, count)?;
        let wanted = if count < STRATEGY.len() - 1 {
            Status::Answered
        } else {
            Status::Done
        };
        assert_eq!(rt; status, wanted, "{count}");
    }
    Ok(())
}
