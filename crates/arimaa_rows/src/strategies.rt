//! What `check` answers: strategies that win, and each fault of one that doesn't.
use crate::runs::{Change, Row, check, check_changes, check_cut_off, refuse_all};
use arimaa_outside::Status;
use std::test::Fail;

// A record, and a strategy for Gold of twelve entries: its rabbit goes to a4, and then to a8
// whatever the silver rabbit does.
const RUN: [&str; 14] = [
    "start 2g [                       r                                R       ]",
    "strategy",
    "3 [                       r                                R       ] Ra1n Ra2n Ra3n",
    "1 [                               rR                               ] Ra4n Ra5n Ra6n Ra7n",
    "1 [                      r         R                               ] Ra4n Ra5n Ra6n Ra7n",
    "1 [                                R      r                        ] Ra4n Ra5n Ra6n Ra7n",
    "1 [                              r R                               ] Ra4n Ra5n Ra6n Ra7n",
    "1 [                                R              r                ] Ra4n Ra5n Ra6n Ra7n",
    "1 [                                R     r                         ] Ra4n Ra5n Ra6n Ra7n",
    "1 [                             r  R                               ] Ra4n Ra5n Ra6n Ra7n",
    "1 [                                R                      r        ] Ra4n Ra5n Ra6n Ra7n",
    "1 [                                R             r                 ] Ra4n Ra5n Ra6n Ra7n",
    "1 [                                R    r                          ] Ra4n Ra5n Ra6n Ra7n",
    "1 [                            r   R                               ] Ra4n Ra5n Ra6n Ra7n",
];

// The same lines with another in the place of one.
const CHANGES: [Change<'static>; 10] = [
    // as it is
    Change {
        words: "check gold 3",
        number: 0,
        line: "",
        output: "accepted 3\n",
        status: Status::Done,
    },
    // with more turns, and room for each list
    Change {
        words: "check gold 4 --room 12",
        number: 0,
        line: "",
        output: "accepted 3\n",
        status: Status::Done,
    },
    // fewer turns than its rank
    Change {
        words: "check gold 2",
        number: 0,
        line: "",
        output: "refused 0 deep\n",
        status: Status::Answered,
    },
    // another rank of the first entry
    Change {
        words: "check gold 5",
        number: 3,
        line: "5 [                       r                                R       ] Ra1n Ra2n Ra3n",
        output: "refused 1 rank\n",
        status: Status::Answered,
    },
    // another rank of the second
    Change {
        words: "check gold 3",
        number: 4,
        line: "3 [                               rR                               ] Ra4n Ra5n Ra6n Ra7n",
        output: "refused 1 rank\n",
        status: Status::Answered,
    },
    // without the second entry
    Change {
        words: "check gold 3",
        number: 4,
        line: "",
        output: "refused 1 reply\n",
        status: Status::Answered,
    },
    // the last entry cut off within its board
    Change {
        words: "check gold 3",
        number: 14,
        line: "1 [                           ",
        output: "strategy 14 text\n",
        status: Status::Answered,
    },
    // without the word
    Change {
        words: "check gold 3",
        number: 2,
        line: "",
        output: "bad 3 2g text\n",
        status: Status::Answered,
    },
    // too little room for the replies to the first turn
    Change {
        words: "check gold 3 --room 1",
        number: 0,
        line: "",
        output: "crowded s [                       r        R                               ] 1\n",
        status: Status::Crowded,
    },
    // one too few
    Change {
        words: "check gold 3 --room 11",
        number: 0,
        line: "",
        output: "crowded s [                       r        R                               ] 1\n",
        status: Status::Crowded,
    },
];

const ROWS: [Row<'static>; 38] = [
    // the rabbit goes to the goal
    Row {
        words: "check gold 1",
        input: "start 2g [        R      r                   E                            ]\nstrategy\n1 [        R      r                   E                            ] Ra7n\n",
        output: "accepted 1\n",
        status: Status::Done,
    },
    // the other side has no such strategy
    Row {
        words: "check silver 1",
        input: "start 2g [        R      r                   E                            ]\nstrategy\n1 [        R      r                   E                            ] Ra7n\n",
        output: "refused 1 turn\n",
        status: Status::Answered,
    },
    // the most turns and the most room that may be asked about
    Row {
        words: "check gold 20 --room 1048576",
        input: "start 2g [        R      r                   E                            ]\nstrategy\n1 [        R      r                   E                            ] Ra7n\n",
        output: "accepted 1\n",
        status: Status::Done,
    },
    // a game that Gold has won needs no entry
    Row {
        words: "check gold 0",
        input: "start 2s [R      r c                                                      ]\nstrategy\n",
        output: "accepted 0\n",
        status: Status::Done,
    },
    // blanks round the word, carriage returns, comments, and no line feed at the end
    Row {
        words: "check gold 1",
        input: "# a game\r\nstart 2g [        R      r                   E                            ]\r\n\t strategy \r\n\r\n# its win\r\n1 [        R      r                   E                            ] Ra7n",
        output: "accepted 1\n",
        status: Status::Done,
    },
    // an entry twice
    Row {
        words: "check gold 1",
        input: "start 2g [        R      r                   E                            ]\nstrategy\n1 [        R      r                   E                            ] Ra7n\n1 [        R      r                   E                            ] Ra7n\n",
        output: "refused 2 twice\n",
        status: Status::Answered,
    },
    // two entries of a position, with other turns
    Row {
        words: "check gold 2",
        input: "start 2g [        R      r                   E                            ]\nstrategy\n1 [        R      r                   E                            ] Ra7n\n2 [        R      r                   E                            ] Ed4n\n",
        output: "refused 2 twice\n",
        status: Status::Answered,
    },
    // a position with a rabbit on its goal
    Row {
        words: "check gold 1",
        input: "start 2g [        R      r                   E                            ]\nstrategy\n1 [R              r                   E                            ] Ra8e\n",
        output: "refused 1 decided\n",
        status: Status::Answered,
    },
    // a position in which Silver has no rabbit
    Row {
        words: "check gold 1",
        input: "start 2g [        R      r                   E                            ]\nstrategy\n1 [        R      r                   E                            ] Ra7n\n1 [        R                          E                            ] Ra7n\n",
        output: "refused 2 decided\n",
        status: Status::Answered,
    },
    // a removal mark too many
    Row {
        words: "check gold 1",
        input: "start 2g [        R      r                   E                            ]\nstrategy\n1 [        R      r                   E                            ] Ra7n Rc3x\n",
        output: "refused 1 turn\n",
        status: Status::Answered,
    },
    // the last gold rabbit is lost on a trap
    Row {
        words: "check gold 1",
        input: "start 2g [        R      r                   E                            ]\nstrategy\n1 [               r                   E              R             ] Rc2n Rc3x\n",
        output: "refused 1 lost\n",
        status: Status::Answered,
    },
    // a silver rabbit is pushed to its goal
    Row {
        words: "check gold 1",
        input: "start 2g [        R      r                   E                            ]\nstrategy\n1 [                                R        E       r              ] rb2s Eb3s\n",
        output: "refused 1 lost\n",
        status: Status::Answered,
    },
    // a reply has no entry
    Row {
        words: "check gold 2",
        input: "start 2g [        R      r                   E                            ]\nstrategy\n2 [        R      r                   E                            ] Ed4n\n",
        output: "refused 1 reply\n",
        status: Status::Answered,
    },
    // a rank that is one too large
    Row {
        words: "check gold 2",
        input: "start 2g [        R      r                   E                            ]\nstrategy\n2 [        R      r                   E                            ] Ra7n\n",
        output: "refused 1 rank\n",
        status: Status::Answered,
    },
    // no entry
    Row {
        words: "check gold 2",
        input: "start 2g [        R      r                   E                            ]\nstrategy\n",
        output: "refused 0 root\n",
        status: Status::Answered,
    },
    // an entry for another position
    Row {
        words: "check gold 2",
        input: "start 2g [        R      r                   E                            ]\nstrategy\n1 [        R      r                           E                    ] Ra7n\n",
        output: "refused 0 root\n",
        status: Status::Answered,
    },
    // a rank above the turns that are asked about
    Row {
        words: "check gold 0",
        input: "start 2g [        R      r                   E                            ]\nstrategy\n1 [        R      r                   E                            ] Ra7n\n",
        output: "refused 0 deep\n",
        status: Status::Answered,
    },
    // the first bad line counts from the first line of the input
    Row {
        words: "check gold 1",
        input: "# one\nstart 2g [        R      r                   E                            ]\n\nstrategy\n1 [        R      r                   E                            ] Ra7n\n\nRa7n\n100 [        R      r                   E                            ] Ra7n\n",
        output: "strategy 7 text\n",
        status: Status::Answered,
    },
    // a rank of three digits
    Row {
        words: "check gold 1",
        input: "start 2g [        R      r                   E                            ]\nstrategy\n100 [        R      r                   E                            ] Ra7n\n",
        output: "strategy 3 text\n",
        status: Status::Answered,
    },
    // a rank with a digit 0 before it
    Row {
        words: "check gold 1",
        input: "start 2g [        R      r                   E                            ]\nstrategy\n01 [        R      r                   E                            ] Ra7n\n",
        output: "strategy 3 text\n",
        status: Status::Answered,
    },
    // no rank
    Row {
        words: "check gold 1",
        input: "start 2g [        R      r                   E                            ]\nstrategy\n[        R      r                   E                            ] Ra7n\n",
        output: "strategy 3 text\n",
        status: Status::Answered,
    },
    // no turn
    Row {
        words: "check gold 1",
        input: "start 2g [        R      r                   E                            ]\nstrategy\n1 [        R      r                   E                            ]\n",
        output: "strategy 3 text\n",
        status: Status::Answered,
    },
    // a step of no direction
    Row {
        words: "check gold 1",
        input: "start 2g [        R      r                   E                            ]\nstrategy\n1 [        R      r                   E                            ] Ra7u\n",
        output: "strategy 3 text\n",
        status: Status::Answered,
    },
    // five steps
    Row {
        words: "check gold 1",
        input: "start 2g [        R      r                   E                            ]\nstrategy\n1 [        R      r                   E                            ] Ed4n Ed5n Ed6n Ed7n Ra7n\n",
        output: "strategy 3 text\n",
        status: Status::Answered,
    },
    // no blank after the board
    Row {
        words: "check gold 1",
        input: "start 2g [        R      r                   E                            ]\nstrategy\n1 [        R      r                   E                            ]Ra7n\n",
        output: "strategy 3 text\n",
        status: Status::Answered,
    },
    // nine rabbits of a side
    Row {
        words: "check gold 1",
        input: "start 2g [        R      r                   E                            ]\nstrategy\n1 [        RRRRRRRRR      r                                        ] Ra7n\n",
        output: "strategy 3 text\n",
        status: Status::Answered,
    },
    // a second line that says strategy is no entry
    Row {
        words: "check gold 1",
        input: "start 2g [        R      r                   E                            ]\nstrategy\n1 [        R      r                   E                            ] Ra7n\nstrategy\n",
        output: "strategy 4 text\n",
        status: Status::Answered,
    },
    // a bad line is named before a fault of an entry
    Row {
        words: "check gold 1",
        input: "start 2g [        R      r                   E                            ]\nstrategy\n1 [        R      r                   E                            ] Ra7s\n1 [        R      r           \n",
        output: "strategy 4 text\n",
        status: Status::Answered,
    },
    // no line says strategy
    Row {
        words: "check gold 1",
        input: "start 2g [        R      r                   E                            ]\n",
        output: "no strategy\n",
        status: Status::Answered,
    },
    // the same, on the run to the goal
    Row {
        words: "check gold 3",
        input: "start 2g [                       r                                R       ]\n",
        output: "no strategy\n",
        status: Status::Answered,
    },
    // a comment says it
    Row {
        words: "check gold 1",
        input: "start 2g [        R      r                   E                            ]\n# strategy\n",
        output: "no strategy\n",
        status: Status::Answered,
    },
    // a line that says more is one of the record
    Row {
        words: "check gold 1",
        input: "start 2g [        R      r                   E                            ]\nstrategy 1\n1 [        R      r                   E                            ] Ra7n\n",
        output: "bad 2 2g text\n",
        status: Status::Answered,
    },
    // a bad record is named before a missing strategy
    Row {
        words: "check gold 1",
        input: "start 2g [        R      r                   E                            ]\n2g Ra7s\n",
        output: "bad 2 2g rabbit\n",
        status: Status::Answered,
    },
    // and before a bad line of a strategy
    Row {
        words: "check gold 1",
        input: "start 2g [        R      r                   E                            ]\n2g Ra1n\nstrategy\nhello\n",
        output: "bad 2 2g piece\n",
        status: Status::Answered,
    },
    // a closed record
    Row {
        words: "check gold 1",
        input: "start 2g [        R      r                   E                            ]\n2g resigns\nstrategy\n",
        output: "ended resign\n",
        status: Status::Answered,
    },
    // closed, and without a strategy
    Row {
        words: "check silver 1",
        input: "1g time\n",
        output: "ended time\n",
        status: Status::Answered,
    },
    // no position yet
    Row {
        words: "check gold 1",
        input: "strategy\n",
        output: "no position\n",
        status: Status::Answered,
    },
    // no position, and no strategy
    Row {
        words: "check gold 1",
        input: "",
        output: "no position\n",
        status: Status::Answered,
    },
];

const BAD_WORDS: [&str; 17] = [
    "check",
    "check gold",
    "check 1 gold",
    "check Gold 1",
    "check gold 21",
    "check gold 01",
    "check gold -1",
    "check gold 1 2",
    "check gold 1 --room",
    "check gold 1 --room 0",
    "check gold 1 --room 1048577",
    "check gold 1 --room 01",
    "check gold 1 room 5",
    "check gold 1 --room 5 --room 5",
    "check gold 1 --lines 5",
    "Check gold 1",
    "--room 5",
];

#[test]
fn a_run_to_the_goal(rt: HostRuntime) -> Result<(), Fail> {
    check_changes(&rt, &RUN, &CHANGES)
}

#[test]
fn small_inputs(rt: HostRuntime) -> Result<(), Fail> {
    check(&rt, &ROWS)
}

#[test]
fn words_of_no_check(rt: HostRuntime) -> Result<(), Fail> {
    refuse_all(&rt, &BAD_WORDS, b"strategy")
}

#[test]
fn a_run_cut_off(rt: HostRuntime) -> Result<(), Fail> {
    check_cut_off(&rt, "check gold 3 --room 100", &RUN)
}
