//! Questions to `prove` at several depths, budgets and rooms.
//!
//! What is expected was worked out by a plain program that is no part of this repository: it lists
//! the next positions of a position step by step, asks the definition with no table, counts every
//! question, and names the first one that is above the budget or the room. Each question stands
//! beside the same one with the colours changed. What `prove` answers with yes is handed to
//! `check`.
use crate::runs::{Outside, Row, check, refuse_all, run};
use arimaa_outside::Status;
use std::alloc::{AllocError, Global};
use std::process::Abort;
use std::test::Fail;
use std::thread::Threads;

// A question, the first line of its answer, and the number of entries of the strategy.
struct Question<'a> {
    words: &'a str,
    start: &'a str,
    first: &'a str,
    entries: usize,
    status: Status,
}

// Questions of at most two turns that matter, of both attackers.
const SHALLOW: [Question<'static>; 34] = [
    // a rabbit goes home; then the same for Silver
    Question {
        words: "prove gold 1",
        start: "start 2g [              R                                  r              ]\n",
        first: "yes 1",
        entries: 1,
        status: Status::Done,
    },
    Question {
        words: "prove silver 1",
        start: "start 2s [         R                                            r         ]\n",
        first: "yes 1",
        entries: 1,
        status: Status::Done,
    },
    // it does not in no turn
    Question {
        words: "prove gold 0",
        start: "start 2g [              R                                  r              ]\n",
        first: "no",
        entries: 0,
        status: Status::Answered,
    },
    Question {
        words: "prove silver 0",
        start: "start 2s [         R                                            r         ]\n",
        first: "no",
        entries: 0,
        status: Status::Answered,
    },
    // nor does the other side win
    Question {
        words: "prove silver 2",
        start: "start 2g [              R                                  r              ]\n",
        first: "no",
        entries: 0,
        status: Status::Answered,
    },
    Question {
        words: "prove gold 2",
        start: "start 2s [         R                                            r         ]\n",
        first: "no",
        entries: 0,
        status: Status::Answered,
    },
    // the defender moves first, and the rabbit goes home after each of its turns
    Question {
        words: "prove gold 2",
        start: "start 2s [        rR                                                      ]\n",
        first: "yes 2",
        entries: 8,
        status: Status::Done,
    },
    Question {
        words: "prove silver 2",
        start: "start 2g [                                                Rr              ]\n",
        first: "yes 2",
        entries: 8,
        status: Status::Done,
    },
    // one turn is too few
    Question {
        words: "prove gold 1",
        start: "start 2s [        rR                                                      ]\n",
        first: "no",
        entries: 0,
        status: Status::Answered,
    },
    Question {
        words: "prove silver 1",
        start: "start 2g [                                                Rr              ]\n",
        first: "no",
        entries: 0,
        status: Status::Answered,
    },
    // more turns change neither the rank nor the strategy
    Question {
        words: "prove gold 20",
        start: "start 2s [        rR                                                      ]\n",
        first: "yes 2",
        entries: 8,
        status: Status::Done,
    },
    // the last silver piece is frozen, and can not move
    Question {
        words: "prove gold 1",
        start: "start 2g [         r      MR                                              ]\n",
        first: "yes 1",
        entries: 1,
        status: Status::Done,
    },
    Question {
        words: "prove silver 1",
        start: "start 2s [                                        mr       R              ]\n",
        first: "yes 1",
        entries: 1,
        status: Status::Done,
    },
    // it can before
    Question {
        words: "prove gold 0",
        start: "start 2g [         r      MR                                              ]\n",
        first: "no",
        entries: 0,
        status: Status::Answered,
    },
    Question {
        words: "prove silver 0",
        start: "start 2s [                                        mr       R              ]\n",
        first: "no",
        entries: 0,
        status: Status::Answered,
    },
    // the attacker's last turn but one, and a win by what the other side then has to play
    Question {
        words: "prove silver 2",
        start: "start 2s [                r        r               R                      ]\n",
        first: "yes 2",
        entries: 1,
        status: Status::Done,
    },
    Question {
        words: "prove gold 2",
        start: "start 2g [                 r               R      R                       ]\n",
        first: "yes 2",
        entries: 1,
        status: Status::Done,
    },
    // one turn is too few
    Question {
        words: "prove silver 1",
        start: "start 2s [                r        r               R                      ]\n",
        first: "no",
        entries: 0,
        status: Status::Answered,
    },
    Question {
        words: "prove gold 1",
        start: "start 2g [                 r               R      R                       ]\n",
        first: "no",
        entries: 0,
        status: Status::Answered,
    },
    // the root is stuck: the silver rabbit is frozen
    Question {
        words: "prove gold 5",
        start: "start 2s [                        r       H                              R]\n",
        first: "yes 0",
        entries: 0,
        status: Status::Done,
    },
    Question {
        words: "prove silver 5",
        start: "start 2g [       r                h       R                               ]\n",
        first: "yes 0",
        entries: 0,
        status: Status::Done,
    },
    // and the other side has lost
    Question {
        words: "prove silver 5",
        start: "start 2s [                        r       H                              R]\n",
        first: "no",
        entries: 0,
        status: Status::Answered,
    },
    Question {
        words: "prove gold 5",
        start: "start 2g [       r                h       R                               ]\n",
        first: "no",
        entries: 0,
        status: Status::Answered,
    },
    // the root is decided
    Question {
        words: "prove gold 5",
        start: "start 2s [R              r                                                ]\n",
        first: "yes 0",
        entries: 0,
        status: Status::Done,
    },
    Question {
        words: "prove silver 5",
        start: "start 2g [                                                       Rr       ]\n",
        first: "yes 0",
        entries: 0,
        status: Status::Done,
    },
    // and the other side has lost
    Question {
        words: "prove silver 5",
        start: "start 2s [R              r                                                ]\n",
        first: "no",
        entries: 0,
        status: Status::Answered,
    },
    Question {
        words: "prove gold 5",
        start: "start 2g [                                                       Rr       ]\n",
        first: "no",
        entries: 0,
        status: Status::Answered,
    },
    // each turn of Silver would make a position stand for the third time
    Question {
        words: "prove gold 5",
        start: "start 2g [                         R      rH                              ]\n2g ra4n Hb4w Ha4e\n2s ra5s\n3g ra4n Hb4w Ha4e\n",
        first: "yes 0",
        entries: 0,
        status: Status::Done,
    },
    // and Silver has lost
    Question {
        words: "prove silver 5",
        start: "start 2g [                         R      rH                              ]\n2g ra4n Hb4w Ha4e\n2s ra5s\n3g ra4n Hb4w Ha4e\n",
        first: "no",
        entries: 0,
        status: Status::Answered,
    },
    // without that history Silver has one turn, and Gold wins after it
    Question {
        words: "prove gold 2",
        start: "start 2s [                        rR       H                              ]\n",
        first: "yes 2",
        entries: 1,
        status: Status::Done,
    },
    // of 87 replies one alone keeps the rabbit from its goal row, and it would make a position stand
    // for the third time
    Question {
        words: "prove gold 2",
        start: "start 2s [   e    RC      r                                              E]\n2s ed8w ec8w eb8w\n3g Eh1w\n3s ea8e eb8e ec8e\n4g Eg1e\n4s ed8w ec8w eb8w\n5g Eh1n\n5s ea8e eb8e ec8e ed8e\n6g Eh2s\n",
        first: "yes 2",
        entries: 86,
        status: Status::Done,
    },
    Question {
        words: "prove silver 2",
        start: "start 2g [       e                                R       rc         E    ]\n2g Ed1w Ec1w Eb1w\n2s eh8w\n3g Ea1e Eb1e Ec1e\n3s eg8e\n4g Ed1w Ec1w Eb1w\n4s eh8s\n5g Ea1e Eb1e Ec1e Ed1e\n5s eh7n\n",
        first: "yes 2",
        entries: 86,
        status: Status::Done,
    },
    // without that history it may be played
    Question {
        words: "prove gold 2",
        start: "start 6s [    e   RC      r                                              E]\n",
        first: "no",
        entries: 0,
        status: Status::Answered,
    },
    Question {
        words: "prove silver 2",
        start: "start 6g [       e                                R       rc          E   ]\n",
        first: "no",
        entries: 0,
        status: Status::Answered,
    },
];

// Questions of three turns.
const DEEP: [Question<'static>; 4] = [
    // two turns of its own, and each of the other between
    Question {
        words: "prove gold 3",
        start: "start 2g [                 r               R                              ]\n",
        first: "yes 3",
        entries: 6,
        status: Status::Done,
    },
    Question {
        words: "prove silver 3",
        start: "start 2s [                         r               R                      ]\n",
        first: "yes 3",
        entries: 6,
        status: Status::Done,
    },
    // two turns are too few
    Question {
        words: "prove gold 2",
        start: "start 2g [                 r               R                              ]\n",
        first: "no",
        entries: 0,
        status: Status::Answered,
    },
    Question {
        words: "prove silver 2",
        start: "start 2s [                         r               R                      ]\n",
        first: "no",
        entries: 0,
        status: Status::Answered,
    },
];

// Questions of four turns.
const FOUR: [Question<'static>; 4] = [
    // the defender moves first, and the attacker has two turns
    Question {
        words: "prove gold 4",
        start: "start 2s [     r                                 R                        ]\n",
        first: "yes 4",
        entries: 37,
        status: Status::Done,
    },
    Question {
        words: "prove silver 4",
        start: "start 2g [                               r                             R  ]\n",
        first: "yes 4",
        entries: 37,
        status: Status::Done,
    },
    // three turns are too few
    Question {
        words: "prove gold 3",
        start: "start 2s [     r                                 R                        ]\n",
        first: "no",
        entries: 0,
        status: Status::Answered,
    },
    Question {
        words: "prove silver 3",
        start: "start 2g [                               r                             R  ]\n",
        first: "no",
        entries: 0,
        status: Status::Answered,
    },
];

// Questions of five turns.
const FIVE: [Question<'static>; 4] = [
    // three turns of its own
    Question {
        words: "prove gold 5",
        start: "start 2g [     r                                                       R  ]\n",
        first: "yes 5",
        entries: 108,
        status: Status::Done,
    },
    Question {
        words: "prove silver 5",
        start: "start 2s [     r                                                       R  ]\n",
        first: "yes 5",
        entries: 137,
        status: Status::Done,
    },
    // four turns are too few
    Question {
        words: "prove gold 4",
        start: "start 2g [     r                                                       R  ]\n",
        first: "no",
        entries: 0,
        status: Status::Answered,
    },
    Question {
        words: "prove silver 4",
        start: "start 2s [     r                                                       R  ]\n",
        first: "no",
        entries: 0,
        status: Status::Answered,
    },
];

// Budgets and rooms at what is needed, and one below it.
const LIMITS: [Question<'static>; 12] = [
    // at the dearest question, and one below it
    Question {
        words: "prove gold 3 --budget 45 --workers 1 --lines 1",
        start: "start 2g [                 r               R                              ]\n",
        first: "yes 3",
        entries: 6,
        status: Status::Done,
    },
    Question {
        words: "prove gold 3 --budget 44 --workers 1 --lines 1",
        start: "start 2g [                 r               R                              ]\n",
        first: "spent s [                 r       R                                      ] 2 44",
        entries: 0,
        status: Status::Spent,
    },
    Question {
        words: "prove silver 3 --budget 60 --workers 1 --lines 1",
        start: "start 2s [                         r               R                      ]\n",
        first: "yes 3",
        entries: 6,
        status: Status::Done,
    },
    Question {
        words: "prove silver 3 --budget 59 --workers 1 --lines 1",
        start: "start 2s [                         r               R                      ]\n",
        first: "spent g [                                 r       R                      ] 2 59",
        entries: 0,
        status: Status::Spent,
    },
    // the same where the defender moves first
    Question {
        words: "prove gold 2 --budget 2 --workers 1 --lines 1",
        start: "start 2s [        rR                                                      ]\n",
        first: "yes 2",
        entries: 8,
        status: Status::Done,
    },
    Question {
        words: "prove gold 2 --budget 1 --workers 1 --lines 1",
        start: "start 2s [        rR                                                      ]\n",
        first: "spent g [         R      r                                               ] 1 1",
        entries: 0,
        status: Status::Spent,
    },
    // the list of the root's next positions, and one below its length
    Question {
        words: "prove gold 1 --room 10 --workers 1 --lines 1",
        start: "start 2g [              R                                  r              ]\n",
        first: "yes 1",
        entries: 1,
        status: Status::Done,
    },
    Question {
        words: "prove gold 1 --room 9 --workers 1 --lines 1",
        start: "start 2g [              R                                  r              ]\n",
        first: "crowded g [              R                                  r              ] 1",
        entries: 0,
        status: Status::Crowded,
    },
    Question {
        words: "prove silver 1 --room 57 --workers 1 --lines 1",
        start: "start 2s [                r        r               R                      ]\n",
        first: "no",
        entries: 0,
        status: Status::Answered,
    },
    Question {
        words: "prove silver 1 --room 56 --workers 1 --lines 1",
        start: "start 2s [                r        r               R                      ]\n",
        first: "crowded s [                r        r               R                      ] 1",
        entries: 0,
        status: Status::Crowded,
    },
    Question {
        words: "prove gold 2 --room 9 --workers 1 --lines 1",
        start: "start 2s [        rR                                                      ]\n",
        first: "crowded g [         R      r                                               ] 1",
        entries: 0,
        status: Status::Crowded,
    },
    Question {
        words: "prove gold 2 --room 8 --workers 1 --lines 1",
        start: "start 2s [        rR                                                      ]\n",
        first: "crowded s [        rR                                                      ] 1",
        entries: 0,
        status: Status::Crowded,
    },
];

// The rabbits of both sides far apart: Gold needs seven steps, and no reply of Silver stops it. The
// reply that walks into the trap f6 has no entry, since it loses at once.
const TWELVE_ENTRIES: &str = "yes 3\n\
strategy\n\
3 [                       r                                R       ] Ra1n Ra2n Ra3n\n\
1 [                               rR                               ] Ra4n Ra5n Ra6n Ra7n\n\
1 [                      r         R                               ] Ra4n Ra5n Ra6n Ra7n\n\
1 [                                R      r                        ] Ra4n Ra5n Ra6n Ra7n\n\
1 [                              r R                               ] Ra4n Ra5n Ra6n Ra7n\n\
1 [                                R              r                ] Ra4n Ra5n Ra6n Ra7n\n\
1 [                                R     r                         ] Ra4n Ra5n Ra6n Ra7n\n\
1 [                             r  R                               ] Ra4n Ra5n Ra6n Ra7n\n\
1 [                                R                      r        ] Ra4n Ra5n Ra6n Ra7n\n\
1 [                                R             r                 ] Ra4n Ra5n Ra6n Ra7n\n\
1 [                                R    r                          ] Ra4n Ra5n Ra6n Ra7n\n\
1 [                            r   R                               ] Ra4n Ra5n Ra6n Ra7n\n\
";

const RABBITS: &str =
    "start 2g [                       r                                R       ]\n";

// One row for each way of saying how much may be used.
const ROWS: [Row<'static>; 5] = [
    Row {
        words: "prove gold 3",
        input: RABBITS,
        output: TWELVE_ENTRIES,
        status: Status::Done,
    },
    Row {
        words: "prove gold 3 --lines 1 --workers 1",
        input: RABBITS,
        output: TWELVE_ENTRIES,
        status: Status::Done,
    },
    Row {
        words: "prove gold 4 --room 70 --budget 390 --workers 2",
        input: RABBITS,
        output: TWELVE_ENTRIES,
        status: Status::Done,
    },
    // the first question that costs more than one: Silver moves, and nothing is won yet
    Row {
        words: "prove gold 3 --workers 1 --budget 1",
        input: RABBITS,
        output: "spent s [                       r                        R               ] 1 1\n",
        status: Status::Spent,
    },
    // the root has 14 next positions
    Row {
        words: "prove gold 3 --workers 1 --room 1",
        input: RABBITS,
        output: "crowded g [                       r                                R       ] 1\n",
        status: Status::Crowded,
    },
];

// Words of `prove` that are in form, on a question that nothing has to be looked for.
const GOOD_WORDS: [&str; 8] = [
    "prove gold 20",
    "prove gold 0 --workers 1",
    "prove gold 0 --workers 16 --room 1",
    "prove gold 0 --lines 262144 --budget 1 --room 1 --workers 1",
    "prove gold 0 --budget 1099511627776 --lines 1",
    "prove gold 0 --room 1048576 --workers 1",
    "prove gold 0 --room 262144 --workers 1 --lines 1 --budget 7",
    "prove gold 0 --workers 2 --budget 7 --room 9 --lines 3",
];

// Words of `prove` that are not.
const BAD_WORDS: [&str; 20] = [
    "prove gold 21",
    "prove gold 0 --workers 0",
    "prove gold 0 --workers 17",
    "prove gold 0 --lines 0",
    "prove gold 0 --lines 262145",
    "prove gold 0 --budget 0",
    "prove gold 0 --budget 1099511627777",
    "prove gold 0 --budget 18446744073709551616",
    "prove gold 0 --room 0",
    "prove gold 0 --room 1048577",
    "prove gold 1 --workers 16 --room 1048576",
    "prove gold 0 --room 1048576 --workers 5",
    "prove gold 0 --lines 5 --lines 5",
    "prove gold 0 --lines 5 --room 7 --lines 6",
    "prove gold 0 --lines",
    "prove gold 0 --lines 5 --room",
    "prove gold 0 --line 5",
    "prove gold 0 5 --lines",
    "prove gold 0 --lines 05",
    "prove gold 0 --lines +5",
];

const AT_HOME: &str =
    "start 2s [R              r                                                ]\n";

fn first_line(text: &[u8]) -> &[u8] {
    match text.iter().position(|byte| *byte == b'\n') {
        Some(end) => text.get(..end).unwrap_or(text),
        None => text,
    }
}

fn lines(text: &[u8]) -> usize {
    text.iter().filter(|byte| **byte == b'\n').count()
}

// The words that ask a command what these ask `prove`: its side and its number of turns. Less room
// than usual is quicker to take.
fn words_of(alloc: Global, command: &str, words: &str) -> Result<String, AllocError> {
    let asked = match words.split_once(" --") {
        Some((asked, _)) => asked,
        None => words,
    };
    let rest = asked.strip_prefix("prove").unwrap_or(asked);
    format!(in alloc; "{command}{rest} --room 20000")
}

// The record of a question, and after it an answer without the first line, is accepted by a command
// that checks such answers, with this text.
fn is_accepted<R: AllocGlobal + Threads + Sync + Abort>(
    rt: &R,
    command: &str,
    question: &Question<'_>,
    answer: &[u8],
    wanted: &str,
) -> Result<(), Fail> {
    let alloc = rt.alloc();
    let words = words_of(alloc, command, question.words)?;
    let mut both = Vec::from_slice(alloc, question.start.as_bytes())?;
    let first = first_line(answer).len();
    both.extend_from_slice(answer.get(first + 1..).unwrap_or(answer))?;
    let done = run(rt, &words, &Outside::plain(&both))?;
    assert_eq!(rt; done.status, Status::Done, "{words}");
    assert_eq!(rt; done.output.as_slice(), wanted.as_bytes(), "{words}");
    Ok(())
}

// Asks each question that is answered with yes, and then `check` about the strategy.
fn accept_all<R: AllocGlobal + Threads + Sync + Abort>(
    rt: &R,
    questions: &[Question<'_>],
) -> Result<(), Fail> {
    for question in questions {
        if let Some(rank) = question.first.strip_prefix("yes ") {
            let start = question.start.as_bytes();
            let done = run(rt, question.words, &Outside::plain(start))?;
            let wanted = format!(in rt.alloc(); "accepted {rank}\n")?;
            is_accepted(rt, "check", question, &done.output, &wanted)?;
        }
    }
    Ok(())
}

// Asks `refute` each question that is answered with no, and then `verify` about the escapes.
fn refute_all<R: AllocGlobal + Threads + Sync + Abort>(
    rt: &R,
    questions: &[Question<'_>],
) -> Result<(), Fail> {
    for question in questions {
        if question.first == "no" {
            let words = words_of(rt.alloc(), "refute", question.words)?;
            let done = run(rt, &words, &Outside::plain(question.start.as_bytes()))?;
            assert_eq!(rt; done.status, Status::Done, "{words}");
            is_accepted(rt, "verify", question, &done.output, "accepted\n")?;
        }
    }
    Ok(())
}

// Asks each question.
fn ask_all<R: AllocGlobal + Threads + Sync + Abort>(
    rt: &R,
    questions: &[Question<'_>],
) -> Result<(), Fail> {
    for question in questions {
        let done = run(
            rt,
            question.words,
            &Outside::plain(question.start.as_bytes()),
        )?;
        let words = question.words;
        assert_eq!(rt; done.status, question.status, "{words}");
        assert_eq!(rt;
            first_line(&done.output),
            question.first.as_bytes(),
            "{words}"
        );
        let head = if question.entries == 0 && lines(&done.output) == 1 {
            1
        } else {
            2
        };
        assert_eq!(rt;
            lines(&done.output),
            question.entries.saturating_add(head),
            "{words}"
        );
    }
    Ok(())
}

#[test]
fn two_turns(rt: HostRuntime) -> Result<(), Fail> {
    ask_all(&rt, &SHALLOW)
}

#[test]
fn three_turns(rt: HostRuntime) -> Result<(), Fail> {
    ask_all(&rt, &DEEP)
}

#[test]
fn four_turns(rt: HostRuntime) -> Result<(), Fail> {
    ask_all(&rt, &FOUR)
}

#[test]
fn five_turns(rt: HostRuntime) -> Result<(), Fail> {
    ask_all(&rt, &FIVE)
}

#[test]
fn each_yes_is_accepted_by_check(rt: HostRuntime) -> Result<(), Fail> {
    accept_all(&rt, &SHALLOW)?;
    accept_all(&rt, &DEEP)?;
    accept_all(&rt, &FOUR)?;
    accept_all(&rt, &FIVE)?;
    accept_all(&rt, &LIMITS)
}

#[test]
fn each_no_is_refuted_and_verified(rt: HostRuntime) -> Result<(), Fail> {
    refute_all(&rt, &SHALLOW)?;
    refute_all(&rt, &DEEP)?;
    refute_all(&rt, &FOUR)?;
    refute_all(&rt, &FIVE)?;
    refute_all(&rt, &LIMITS)
}

#[test]
fn budgets_and_rooms(rt: HostRuntime) -> Result<(), Fail> {
    ask_all(&rt, &LIMITS)
}

#[test]
fn whole_strategies(rt: HostRuntime) -> Result<(), Fail> {
    check(&rt, &ROWS)
}

#[test]
fn options(rt: HostRuntime) -> Result<(), Fail> {
    for words in &GOOD_WORDS {
        let done = run(&rt, words, &Outside::plain(AT_HOME.as_bytes()))?;
        assert_eq!(rt; done.status, Status::Done, "{words}");
        assert_eq!(rt;
            done.output.as_slice(),
            b"yes 0\nstrategy\n".as_slice(),
            "{words}"
        );
    }
    refuse_all(&rt, &BAD_WORDS, AT_HOME.as_bytes())
}
