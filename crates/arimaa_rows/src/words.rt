//! Words outside the plain form: what the same words in the plain form are answered, or `bad
//! words`.
use crate::runs::{Row, check, refuse_all};
use arimaa_outside::Status;
use std::test::Fail;

const ONE_TURN: &str =
    "start 2s [        rR                                                      ]\n";

const SPENT: &str =
    "spent g [         R      r                                               ] 1 1\n";

const CROWDED: &str =
    "crowded g [         R      r                                               ] 1\n";

const CONTROL: &str =
    "1:30/0:00/50/0:00/60t/0:00\nturn 90000 reserve 0 percent 50 cap 0 game 60t limit 0\n";

// What `clap` reads.
const READ: [Row<'static>; 12] = [
    // a value after an equals sign, and two words
    Row {
        words: "prove gold 2 --budget=1 --workers=1 --lines=1",
        input: ONE_TURN,
        output: SPENT,
        status: Status::Spent,
    },
    Row {
        words: "prove gold 2 --budget=1 --workers 1 --lines=1",
        input: ONE_TURN,
        output: SPENT,
        status: Status::Spent,
    },
    // options before and between the other words
    Row {
        words: "prove --budget 1 gold --workers=1 2 --lines 1",
        input: ONE_TURN,
        output: SPENT,
        status: Status::Spent,
    },
    // each option's own value
    Row {
        words: "prove gold 2 --room=9 --workers=1 --lines=1 --budget=10000000",
        input: ONE_TURN,
        output: CROWDED,
        status: Status::Crowded,
    },
    // the words of a game that Silver has lost, and of an input without a strategy
    Row {
        words: "prove --lines 5 gold 0",
        input: "start 2s [R              r                                                ]\n",
        output: "yes 0\nstrategy\n",
        status: Status::Done,
    },
    Row {
        words: "check --room 5 gold 1",
        input: ONE_TURN,
        output: "no strategy\n",
        status: Status::Answered,
    },
    Row {
        words: "check gold 1 --room=5",
        input: ONE_TURN,
        output: "no strategy\n",
        status: Status::Answered,
    },
    // two dashes end the options
    Row {
        words: "prove --room=9 --workers=1 --lines=1 -- gold 2",
        input: ONE_TURN,
        output: CROWDED,
        status: Status::Crowded,
    },
    Row {
        words: "control -- 1m30s/0/50/0/60t",
        input: "",
        output: CONTROL,
        status: Status::Done,
    },
    Row {
        words: "control 1m30s/0/50/0/60t --",
        input: "",
        output: CONTROL,
        status: Status::Done,
    },
    Row {
        words: "play -- a b 1/5",
        input: "",
        output: "# engine gold failed\n",
        status: Status::EngineFault,
    },
    Row {
        words: "judge --",
        input: "hello\n",
        output: "bad 1 1g text\n",
        status: Status::Answered,
    },
];

// What it refuses, or reads as words that are in no plain form.
const REFUSED: [&str; 32] = [
    // an option twice, as two words or one
    "prove gold 2 --lines=5 --lines=5",
    "prove gold 2 --lines 5 --lines=6",
    "prove --lines=5 gold 2 --lines 5",
    // without a value, or with an empty one
    "prove gold 2 --lines",
    "prove gold 2 --lines=",
    "prove gold 2 --lines --room=9",
    // values that begin with a dash
    "prove gold 2 --lines=-5",
    "prove gold 2 --lines -5",
    "control -- -5",
    "play -- a -b 1/5",
    // numbers in another spelling or out of range
    "prove gold 2 --lines=05",
    "prove gold 2 --lines=+5",
    "prove gold 2 --lines=0",
    "prove gold 2 --lines=262145",
    "prove gold 2 --workers=16 --room=1048576",
    "prove --lines=5 gold 21",
    "check gold 2 --room=0",
    // help and versions are off
    "--help",
    "-h",
    "prove --help",
    "prove -h",
    "prove gold 2 --help",
    "judge --version",
    "help",
    // unknown options, or those of another command
    "prove gold 2 --line=5",
    "prove gold 2 -l5",
    "judge --lines=5",
    "check gold 2 --lines=5",
    "make 5 0 --room=9",
    "play a b 1/5 --room=9",
    // too many words, and one that two dashes make no option
    "prove -- gold 2 --lines 5",
    "prove -- gold 2 --lines",
];

#[test]
fn words_that_clap_reads(rt: HostRuntime) -> Result<(), Fail> {
    check(&rt, &READ)
}

#[test]
fn words_that_it_refuses(rt: HostRuntime) -> Result<(), Fail> {
    refuse_all(&rt, &REFUSED, ONE_TURN.as_bytes())
}
