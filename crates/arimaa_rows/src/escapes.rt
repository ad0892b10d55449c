//! What `refute` and `verify` answer: what is played so that a side doesn't win, and each flaw of a
//! list of escapes.
use crate::runs::{Change, Row, check, check_changes, check_cut_off, refuse_all};
use arimaa_outside::Status;
use std::test::Fail;

// A record with a gold rabbit on a1 and a silver one on h6, Gold to move, and the escapes that show
// that Gold does not win within two turns: after each of its moves Silver has one.
const BOTH: [&str; 15] = [
    "start 2g [                       r                                R       ]",
    "escapes",
    "1 [                       r                        R               ] rh6s",
    "1 [                       r                                 R      ] rh6s",
    "1 [                       r                R                       ] rh6s",
    "1 [                       r                         R              ] rh6s",
    "1 [                       r                                  R     ] rh6s",
    "1 [                       r        R                               ] rh6s",
    "1 [                       r                 R                      ] rh6s",
    "1 [                       r                          R             ] rh6s",
    "1 [                       r                                   R    ] rh6s",
    "1 [                       rR                                       ] rh6s",
    "1 [                       r         R                              ] rh6s",
    "1 [                       r                           R            ] rh6s",
    "1 [                       r                                    R   ] rh6s",
];

// The same lines with another in the place of one.
const CHANGES: [Change<'static>; 40] = [
    // as they are
    Change {
        words: "verify gold 2",
        number: 0,
        line: "",
        output: "accepted\n",
        status: Status::Done,
    },
    // fewer turns are held, too
    Change {
        words: "verify gold 1",
        number: 0,
        line: "",
        output: "accepted\n",
        status: Status::Done,
    },
    // room for each list
    Change {
        words: "verify gold 2 --room 14",
        number: 0,
        line: "",
        output: "accepted\n",
        status: Status::Done,
    },
    // too little room for the moves of the root
    Change {
        words: "verify gold 2 --room 13",
        number: 0,
        line: "",
        output: "crowded g [                       r                                R       ] 1\n",
        status: Status::Crowded,
    },
    // and for one position alone
    Change {
        words: "verify gold 2 --room 1",
        number: 0,
        line: "",
        output: "crowded g [                       r                                R       ] 1\n",
        status: Status::Crowded,
    },
    // no room is needed where no turn is left to the root
    Change {
        words: "verify gold 0 --room 1",
        number: 0,
        line: "",
        output: "accepted\n",
        status: Status::Done,
    },
    // three turns are won
    Change {
        words: "verify gold 3",
        number: 0,
        line: "",
        output: "refused 0 root\n",
        status: Status::Answered,
    },
    // without the first escape
    Change {
        words: "verify gold 2",
        number: 3,
        line: "",
        output: "refused 0 root\n",
        status: Status::Answered,
    },
    // without the last
    Change {
        words: "verify gold 2",
        number: 15,
        line: "",
        output: "refused 0 root\n",
        status: Status::Answered,
    },
    // a first escape that is deeper, by one turn that Gold has no use for
    Change {
        words: "verify gold 2",
        number: 3,
        line: "2 [                       r                        R               ] rh6s",
        output: "accepted\n",
        status: Status::Done,
    },
    // by two, for which there are no escapes
    Change {
        words: "verify gold 2",
        number: 3,
        line: "3 [                       r                        R               ] rh6s",
        output: "refused 1 reply\n",
        status: Status::Answered,
    },
    // Gold reaches its goal in one turn after it
    Change {
        words: "verify gold 2",
        number: 8,
        line: "2 [                       r        R                               ] rh6s",
        output: "refused 6 reply\n",
        status: Status::Answered,
    },
    // too little room for the replies to an escape
    Change {
        words: "verify gold 2 --room 14",
        number: 4,
        line: "2 [                       r                                 R      ] rh6s",
        output: "crowded g [                               r                         R      ] 1\n",
        status: Status::Crowded,
    },
    // the list of the first escape comes before that of the root
    Change {
        words: "verify gold 2 --room 1",
        number: 3,
        line: "2 [                       r                        R               ] rh6s",
        output: "crowded g [                               r                R               ] 1\n",
        status: Status::Crowded,
    },
    // an escape twice
    Change {
        words: "verify gold 2",
        number: 4,
        line: "1 [                       r                        R               ] rh6s",
        output: "refused 2 twice\n",
        status: Status::Answered,
    },
    // two of a position, with other depths and turns
    Change {
        words: "verify gold 2",
        number: 15,
        line: "2 [                       r                R                       ] rh6w",
        output: "refused 13 twice\n",
        status: Status::Answered,
    },
    // a position with a rabbit on its goal
    Change {
        words: "verify gold 2",
        number: 3,
        line: "1 [R                      r                                        ] rh6s",
        output: "refused 1 decided\n",
        status: Status::Answered,
    },
    // one in which Silver has no rabbit
    Change {
        words: "verify gold 2",
        number: 4,
        line: "1 [                                                         R      ] rh6s",
        output: "refused 2 decided\n",
        status: Status::Answered,
    },
    // a rabbit's step back
    Change {
        words: "verify gold 2",
        number: 3,
        line: "1 [                       r                        R               ] rh6n",
        output: "refused 1 turn\n",
        status: Status::Answered,
    },
    // a removal mark too many
    Change {
        words: "verify gold 2",
        number: 4,
        line: "1 [                       r                                 R      ] rh6s rh5x",
        output: "refused 2 turn\n",
        status: Status::Answered,
    },
    // Silver loses its last rabbit on a trap
    Change {
        words: "verify gold 2",
        number: 3,
        line: "1 [          r                                             R       ] rc7s rc6x",
        output: "refused 1 lost\n",
        status: Status::Answered,
    },
    // Silver pushes a gold rabbit to its goal
    Change {
        words: "verify gold 2",
        number: 15,
        line: "1 [        R       e      r                                        ] Ra7n ea6n",
        output: "refused 13 lost\n",
        status: Status::Answered,
    },
    // the first flaw of two lines
    Change {
        words: "verify gold 2",
        number: 14,
        line: "1 [                       r                        R               ] rh6n",
        output: "refused 12 twice\n",
        status: Status::Answered,
    },
    // no depth of 0
    Change {
        words: "verify gold 2",
        number: 3,
        line: "0 [                       r                        R               ] rh6s",
        output: "escapes 3 text\n",
        status: Status::Answered,
    },
    // nor of 21
    Change {
        words: "verify gold 2",
        number: 15,
        line: "21 [                       r                                    R   ] rh6s",
        output: "escapes 15 text\n",
        status: Status::Answered,
    },
    // nor with a digit 0 before it
    Change {
        words: "verify gold 2",
        number: 4,
        line: "01 [                       r                                 R      ] rh6s",
        output: "escapes 4 text\n",
        status: Status::Answered,
    },
    // no depth
    Change {
        words: "verify gold 2",
        number: 4,
        line: "[                       r                                 R      ] rh6s",
        output: "escapes 4 text\n",
        status: Status::Answered,
    },
    // no turn
    Change {
        words: "verify gold 2",
        number: 5,
        line: "1 [                       r                R                       ]",
        output: "escapes 5 text\n",
        status: Status::Answered,
    },
    // an escape cut off within its board
    Change {
        words: "verify gold 2",
        number: 15,
        line: "1 [                           ",
        output: "escapes 15 text\n",
        status: Status::Answered,
    },
    // a bad line is named before a flaw
    Change {
        words: "verify gold 2",
        number: 15,
        line: "hello",
        output: "escapes 15 text\n",
        status: Status::Answered,
    },
    // a second line that says escapes is none
    Change {
        words: "verify gold 2",
        number: 15,
        line: "escapes",
        output: "escapes 15 text\n",
        status: Status::Answered,
    },
    // without the word
    Change {
        words: "verify gold 2",
        number: 2,
        line: "",
        output: "bad 3 2g text\n",
        status: Status::Answered,
    },
    // a line that says more is one of the record
    Change {
        words: "verify gold 2",
        number: 2,
        line: "escapes 13",
        output: "bad 2 2g text\n",
        status: Status::Answered,
    },
    // a comment does not part them
    Change {
        words: "verify gold 2",
        number: 2,
        line: "# escapes",
        output: "bad 3 2g text\n",
        status: Status::Answered,
    },
    // another word doesn't, either
    Change {
        words: "verify gold 2",
        number: 2,
        line: "strategy",
        output: "bad 2 2g text\n",
        status: Status::Answered,
    },
    // blanks round the word do
    Change {
        words: "verify gold 2",
        number: 2,
        line: "\t escapes \r",
        output: "accepted\n",
        status: Status::Done,
    },
    // a bad record is named first
    Change {
        words: "verify gold 2",
        number: 1,
        line: "hello",
        output: "bad 1 1g text\n",
        status: Status::Answered,
    },
    // and then a closed one
    Change {
        words: "verify gold 2",
        number: 1,
        line: "1g resigns",
        output: "ended resign\n",
        status: Status::Answered,
    },
    // and one without a position
    Change {
        words: "verify gold 2",
        number: 1,
        line: "",
        output: "no position\n",
        status: Status::Answered,
    },
    // against Silver each escape has the wrong side to move
    Change {
        words: "verify silver 2",
        number: 0,
        line: "",
        output: "refused 1 turn\n",
        status: Status::Answered,
    },
];

const ROWS: [Row<'static>; 29] = [
    // the first of Silver's turns would make a position stand for the third time
    Row {
        words: "refute gold 1",
        input: "start 2s [   r   e                                                E  R    ]\n2s eh8w\n3g Ea1e\n3s eg8e\n4g Eb1w\n4s eh8w\n5g Ea1n\n5s eg8s\n6g Ea2s\n",
        output: "held\nescapes\n1 [   r          e                                         E  R    ] eg7e\n",
        status: Status::Done,
    },
    // without that history it may be played
    Row {
        words: "refute gold 1",
        input: "start 6s [   r          e                                         E  R    ]\n",
        output: "held\nescapes\n1 [   r          e                                         E  R    ] eg7n\n",
        status: Status::Done,
    },
    // it is no escape where it would make a position stand for the third time
    Row {
        words: "verify gold 1",
        input: "start 2s [   r   e                                                E  R    ]\n2s eh8w\n3g Ea1e\n3s eg8e\n4g Eb1w\n4s eh8w\n5g Ea1n\n5s eg8s\n6g Ea2s\nescapes\n1 [   r          e                                         E  R    ] eg7n\n",
        output: "refused 1 turn\n",
        status: Status::Answered,
    },
    // another turn is one
    Row {
        words: "verify gold 1",
        input: "start 2s [   r   e                                                E  R    ]\n2s eh8w\n3g Ea1e\n3s eg8e\n4g Eb1w\n4s eh8w\n5g Ea1n\n5s eg8s\n6g Ea2s\nescapes\n1 [   r          e                                         E  R    ] eg7e\n",
        output: "accepted\n",
        status: Status::Done,
    },
    // without that history it is one too
    Row {
        words: "verify gold 1",
        input: "start 6s [   r          e                                         E  R    ]\nescapes\n1 [   r          e                                         E  R    ] eg7n\n",
        output: "accepted\n",
        status: Status::Done,
    },
    // after each of Gold's moves Silver has one
    Row {
        words: "refute gold 2",
        input: "start 2g [                       r                                R       ]\n",
        output: "held\nescapes\n1 [                       r                        R               ] rh6s\n1 [                       r                                 R      ] rh6s\n1 [                       r                R                       ] rh6s\n1 [                       r                         R              ] rh6s\n1 [                       r                                  R     ] rh6s\n1 [                       r        R                               ] rh6s\n1 [                       r                 R                      ] rh6s\n1 [                       r                          R             ] rh6s\n1 [                       r                                   R    ] rh6s\n1 [                       rR                                       ] rh6s\n1 [                       r         R                              ] rh6s\n1 [                       r                           R            ] rh6s\n1 [                       r                                    R   ] rh6s\n",
        status: Status::Done,
    },
    // lines, budget and room, in any order, change nothing
    Row {
        words: "refute gold 2 --room 1000 --budget 1000000 --lines 16",
        input: "start 2g [                       r                                R       ]\n",
        output: "held\nescapes\n1 [                       r                        R               ] rh6s\n1 [                       r                                 R      ] rh6s\n1 [                       r                R                       ] rh6s\n1 [                       r                         R              ] rh6s\n1 [                       r                                  R     ] rh6s\n1 [                       r        R                               ] rh6s\n1 [                       r                 R                      ] rh6s\n1 [                       r                          R             ] rh6s\n1 [                       r                                   R    ] rh6s\n1 [                       rR                                       ] rh6s\n1 [                       r         R                              ] rh6s\n1 [                       r                           R            ] rh6s\n1 [                       r                                    R   ] rh6s\n",
        status: Status::Done,
    },
    // no turn is left to Silver
    Row {
        words: "refute gold 1 --room 1000",
        input: "start 2g [                       r                                R       ]\n",
        output: "held\nescapes\n",
        status: Status::Done,
    },
    // nor to Gold
    Row {
        words: "refute gold 0 --room 1000",
        input: "start 2g [                       r                                R       ]\n",
        output: "held\nescapes\n",
        status: Status::Done,
    },
    // Gold wins in three turns
    Row {
        words: "refute gold 3",
        input: "start 2g [                       r                                R       ]\n",
        output: "wins\n",
        status: Status::Answered,
    },
    // the side to move escapes
    Row {
        words: "refute silver 2 --room 1000",
        input: "start 2g [                       r                                R       ]\n",
        output: "held\nescapes\n2 [                       r                                R       ] Ra1n\n",
        status: Status::Done,
    },
    // the first step of the elephant
    Row {
        words: "refute silver 2 --room 20000",
        input: "start 2g [        R      r                   E                            ]\n",
        output: "held\nescapes\n2 [        R      r                   E                            ] Ed4n\n",
        status: Status::Done,
    },
    // a budget of one question
    Row {
        words: "refute gold 2 --budget 1 --room 1000",
        input: "start 2g [                       r                                R       ]\n",
        output: "spent g [                       r                                R       ] 2 1\n",
        status: Status::Spent,
    },
    // room for one move too few
    Row {
        words: "refute gold 2 --room 13",
        input: "start 2g [                       r                                R       ]\n",
        output: "crowded g [                       r                                R       ] 2\n",
        status: Status::Crowded,
    },
    // a game that Gold has won
    Row {
        words: "refute gold 0 --room 1000",
        input: "start 2s [Rc     r                                                        ]\n",
        output: "wins\n",
        status: Status::Answered,
    },
    // and that Silver can't win any more
    Row {
        words: "refute silver 2 --room 1000",
        input: "start 2s [Rc     r                                                        ]\n",
        output: "held\nescapes\n",
        status: Status::Done,
    },
    // a bad record
    Row {
        words: "refute gold 2 --room 1000",
        input: "start 2g [                       r                                R       ]\n2g Ra1s\n",
        output: "bad 2 2g target\n",
        status: Status::Answered,
    },
    // a closed one
    Row {
        words: "refute gold 2 --room 1000",
        input: "start 2g [                       r                                R       ]\n2g resigns\n",
        output: "ended resign\n",
        status: Status::Answered,
    },
    // another
    Row {
        words: "refute silver 2 --room 1000",
        input: "1g time\n",
        output: "ended time\n",
        status: Status::Answered,
    },
    // no position yet
    Row {
        words: "refute gold 2 --room 1000",
        input: "",
        output: "no position\n",
        status: Status::Answered,
    },
    // no line says escapes
    Row {
        words: "verify gold 2",
        input: "start 2g [                       r                                R       ]\n",
        output: "no escapes\n",
        status: Status::Answered,
    },
    // a comment says it
    Row {
        words: "verify gold 2",
        input: "start 2g [                       r                                R       ]\n# escapes\n",
        output: "no escapes\n",
        status: Status::Answered,
    },
    // no position, and no escapes
    Row {
        words: "verify gold 2",
        input: "",
        output: "no position\n",
        status: Status::Answered,
    },
    // closed, and without escapes
    Row {
        words: "verify silver 1",
        input: "1g time\n",
        output: "ended time\n",
        status: Status::Answered,
    },
    // a root that is decided for Silver needs no escape
    Row {
        words: "verify gold 20 --room 1048576",
        input: "start 2g [ c      R                                                      r]\nescapes\n",
        output: "accepted\n",
        status: Status::Done,
    },
    // one that is decided for Gold has none
    Row {
        words: "verify gold 0",
        input: "start 2s [Rc     r                                                        ]\nescapes\n",
        output: "refused 0 root\n",
        status: Status::Answered,
    },
    // a root with Silver to move needs one of its own
    Row {
        words: "verify gold 1",
        input: "start 2s [                       r        R                               ]\nescapes\n",
        output: "refused 0 root\n",
        status: Status::Answered,
    },
    // where a turn is left
    Row {
        words: "verify gold 0",
        input: "start 2s [                       r        R                               ]\nescapes\n",
        output: "accepted\n",
        status: Status::Done,
    },
    // and one is enough
    Row {
        words: "verify gold 1",
        input: "start 2s [                       r        R                               ]\nescapes\n1 [                       r        R                               ] rh6s",
        output: "accepted\n",
        status: Status::Done,
    },
];

const BAD_WORDS: [&str; 29] = [
    "refute",
    "refute gold",
    "refute 2 gold",
    "refute Gold 2",
    "refute gold 21",
    "refute gold 02",
    "refute gold -1",
    "refute gold 2 3",
    "refute gold 2 --workers 1",
    "refute gold 2 --lines",
    "refute gold 2 --lines 0",
    "refute gold 2 --lines 262145",
    "refute gold 2 --budget 0",
    "refute gold 2 --room 1048577",
    "refute gold 2 --room 5 --room 5",
    "refute gold 2 lines 5",
    "Refute gold 2",
    "verify",
    "verify gold",
    "verify 2 gold",
    "verify gold 21",
    "verify gold 2 3",
    "verify gold 2 --room",
    "verify gold 2 --room 0",
    "verify gold 2 --room 1048577",
    "verify gold 2 --room 5 --room 5",
    "verify gold 2 --lines 5",
    "verify gold 2 --budget 5",
    "Verify gold 2",
];

#[test]
fn escapes_of_two_rabbits(rt: HostRuntime) -> Result<(), Fail> {
    check_changes(&rt, &BOTH, &CHANGES)
}

#[test]
fn refuted_positions(rt: HostRuntime) -> Result<(), Fail> {
    check(&rt, &ROWS)
}

#[test]
fn words_of_no_refutation(rt: HostRuntime) -> Result<(), Fail> {
    refuse_all(&rt, &BAD_WORDS, b"escapes")
}

#[test]
fn escapes_cut_off(rt: HostRuntime) -> Result<(), Fail> {
    check_cut_off(&rt, "verify gold 2 --room 100", &BOTH)
}
