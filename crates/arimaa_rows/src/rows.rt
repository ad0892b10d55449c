//! What `prove` answers over one start line, what `control` and `make` answer, and words out of
//! form.
use crate::runs::{Row, check, refuse_all};
use arimaa_outside::Status;
use std::test::Fail;

const ROWS: [Row<'static>; 36] = [
    // the elephant's steps come first and win nothing
    Row {
        words: "prove gold 1",
        input: "start 2g [        R      r                   E                            ]\n",
        output: "yes 1\nstrategy\n1 [        R      r                   E                            ] Ra7n\n",
        status: Status::Done,
    },
    // the rabbit is frozen, and no turn frees it and still reaches the goal
    Row {
        words: "prove gold 1",
        input: "start 2g [        Re     r                   E                            ]\n",
        output: "no\n",
        status: Status::Answered,
    },
    // a frozen rabbit is all that Silver has: it can't move
    Row {
        words: "prove gold 0",
        input: "start 2s [                        r       H                              R]\n",
        output: "yes 0\nstrategy\n",
        status: Status::Done,
    },
    // nothing is barred: Silver may step back
    Row {
        words: "prove gold 0",
        input: "start 3s [                        rR       H                              ]\n",
        output: "no\n",
        status: Status::Answered,
    },
    // more turns change nothing
    Row {
        words: "prove gold 2",
        input: "start 2g [        R      r                   E                            ]\n",
        output: "yes 1\nstrategy\n1 [        R      r                   E                            ] Ra7n\n",
        status: Status::Done,
    },
    // Silver does not win
    Row {
        words: "prove silver 1",
        input: "start 2g [        R      r                   E                            ]\n",
        output: "no\n",
        status: Status::Answered,
    },
    // pushes and pulls are in reach, and change nothing
    Row {
        words: "prove gold 1",
        input: "start 2g [        R                    r     E                            ]\n",
        output: "yes 1\nstrategy\n1 [        R                    r     E                            ] Ra7n\n",
        status: Status::Done,
    },
    // pushes and pulls are out of reach
    Row {
        words: "prove gold 1",
        input: "start 2g [        R                     r    E                            ]\n",
        output: "yes 1\nstrategy\n1 [        R                     r    E                            ] Ra7n\n",
        status: Status::Done,
    },
    // a cat stands on a trap alone
    Row {
        words: "prove gold 1",
        input: "start 2g [       r                                  C             R       ]\n",
        output: "bad 1 1g start\n",
        status: Status::Answered,
    },
    // an empty input
    Row {
        words: "prove gold 1",
        input: "",
        output: "no position\n",
        status: Status::Answered,
    },
    // the last silver rabbit is pushed onto a trap
    Row {
        words: "prove gold 1",
        input: "start 2g [       h           Er                                   R       ]\n",
        output: "yes 1\nstrategy\n1 [       h           Er                                   R       ] re6e rf6x Ed6e\n",
        status: Status::Done,
    },
    // Silver to move: Gold's rabbit is at home
    Row {
        words: "prove gold 0",
        input: "start 2s [R              r                                                ]\n",
        output: "yes 0\nstrategy\n",
        status: Status::Done,
    },
    // and Silver has lost
    Row {
        words: "prove silver 1",
        input: "start 2s [R              r                                                ]\n",
        output: "no\n",
        status: Status::Answered,
    },
    // the horse freezes the last silver piece, which then can't move
    Row {
        words: "prove gold 1",
        input: "start 2g [                        r               H                      R]\n",
        output: "yes 1\nstrategy\n1 [                        r               H                      R] Ha3n\n",
        status: Status::Done,
    },
    // Silver goes home
    Row {
        words: "prove silver 1",
        input: "start 2s [                           e                    R      r        ]\n",
        output: "yes 1\nstrategy\n1 [                           e                    R      r        ] rh2s\n",
        status: Status::Done,
    },
    // in no turn it isn't there
    Row {
        words: "prove silver 0",
        input: "start 2s [                           e                    R      r        ]\n",
        output: "no\n",
        status: Status::Answered,
    },
    // and Gold does not win
    Row {
        words: "prove gold 1",
        input: "start 2s [                           e                    R      r        ]\n",
        output: "no\n",
        status: Status::Answered,
    },
    // blanks before, between and after, an older letter, no line feed
    Row {
        words: "prove gold 1",
        input: " \tstart \t 2w\t[        R      r                   E                            ] \t",
        output: "yes 1\nstrategy\n1 [        R      r                   E                            ] Ra7n\n",
        status: Status::Done,
    },
    // the greatest label
    Row {
        words: "prove gold 1",
        input: "start 999999999g [        R      r                   E                            ]\n",
        output: "yes 1\nstrategy\n1 [        R      r                   E                            ] Ra7n\n",
        status: Status::Done,
    },
    // a label above it
    Row {
        words: "prove gold 1",
        input: "start 1000000000g [        R      r                   E                            ]\n",
        output: "bad 1 1g text\n",
        status: Status::Answered,
    },
    // a label of 0
    Row {
        words: "prove gold 1",
        input: "start 0g [        R      r                   E                            ]\n",
        output: "bad 1 1g text\n",
        status: Status::Answered,
    },
    // a label with a zero before it
    Row {
        words: "prove gold 1",
        input: "start 02g [        R      r                   E                            ]\n",
        output: "bad 1 1g text\n",
        status: Status::Answered,
    },
    // no blank after the label
    Row {
        words: "prove gold 1",
        input: "start 2g[        R      r                   E                            ]\n",
        output: "bad 1 1g text\n",
        status: Status::Answered,
    },
    // another word
    Row {
        words: "prove gold 1",
        input: "begin 2g [        R      r                   E                            ]\n",
        output: "bad 1 1g text\n",
        status: Status::Answered,
    },
    // a carriage return before the line feed
    Row {
        words: "prove gold 1",
        input: "start 2g [        R      r                   E                            ]\r\n",
        output: "yes 1\nstrategy\n1 [        R      r                   E                            ] Ra7n\n",
        status: Status::Done,
    },
    // a second line, which is blank
    Row {
        words: "prove gold 1",
        input: "start 2g [        R      r                   E                            ]\n\n",
        output: "yes 1\nstrategy\n1 [        R      r                   E                            ] Ra7n\n",
        status: Status::Done,
    },
    // no board text
    Row {
        words: "prove gold 1",
        input: "start 2g\n",
        output: "bad 1 1g start\n",
        status: Status::Answered,
    },
    // a board text that is too short
    Row {
        words: "prove gold 1",
        input: "start 2g [Ra7]\n",
        output: "bad 1 1g start\n",
        status: Status::Answered,
    },
    // a ninth gold rabbit
    Row {
        words: "prove gold 1",
        input: "start 2g [       r                                        R       RRRRRRRR]\n",
        output: "bad 1 1g start\n",
        status: Status::Answered,
    },
    // all six fields of a time control
    Row {
        words: "control 0:30/5/100/5/8/4",
        input: "",
        output: "0:30/5:00/100/5:00/8:00/4:00\nturn 30000 reserve 300000 percent 100 cap 300000 game 28800000 limit 240000\n",
        status: Status::Done,
    },
    // fields left off, and a game limit in turns
    Row {
        words: "control 1m30s/0/50/0/60t",
        input: "",
        output: "1:30/0:00/50/0:00/60t/0:00\nturn 90000 reserve 0 percent 50 cap 0 game 60t limit 0\n",
        status: Status::Done,
    },
    // a percent of 101
    Row {
        words: "control 1/2/101",
        input: "",
        output: "control field 3\n",
        status: Status::Answered,
    },
    // a seventh field
    Row {
        words: "control 1/2/3/4/5/6/7",
        input: "",
        output: "control field 7\n",
        status: Status::Answered,
    },
    // the setups alone
    Row {
        words: "make 5 0",
        input: "",
        output: "turns 0\nbytes 134\nnext 2g\n",
        status: Status::Done,
    },
    // Ra2n Ra1n Rb1w Rh2n, hb7s hb6s cc7w ed7s and Rc1w Cc2n Cc3x Md2n Md3n
    Row {
        words: "make 7 3",
        input: "",
        output: "turns 3\nbytes 208\nnext 3s\n",
        status: Status::Done,
    },
    // the game ends before so many turns are made: its values are those of the generator in plain
    // Rust
    Row {
        words: "make 7 100",
        input: "",
        output: "turns 72\nbytes 1856\nwinner silver goal\n",
        status: Status::Done,
    },
];

// Words that are not in the form of the command.
const BAD_WORDS: [&str; 19] = [
    "control",
    "control -1",
    "control 1 2",
    "",
    "prove",
    "prove gold",
    "judge 1",
    "Judge",
    "show 1",
    "judge show",
    "prove Gold 1",
    "prove gold 01",
    "prove gold +1",
    "prove gold 21",
    "prove gold 1 1",
    "prove gold 1 --workers",
    "prove gold one",
    "make 5",
    "make 7 1001",
];

#[test]
fn one_start_line(rt: HostRuntime) -> Result<(), Fail> {
    check(&rt, &ROWS)
}

#[test]
fn bad_words(rt: HostRuntime) -> Result<(), Fail> {
    refuse_all(&rt, &BAD_WORDS, b"start")
}
