//! Texts of turns and of setups, right ones and ones that are bad in one place.
use crate::{NoteFault, read_setup, read_turn, setup_text, turn_text};
use arimaa_board::Color;

const GOLD: &str = "Ra1 Rb1 Rc1 Dd1 De1 Rf1 Rg1 Rh1 Ra2 Hb2 Cc2 Md2 Ee2 Cf2 Hg2 Rh2";

const SILVER: &str = "ra7 hb7 cc7 ed7 me7 cf7 hg7 rh7 ra8 rb8 rc8 dd8 de8 rf8 rg8 rh8";

// Texts of turns, and what they are written as or refused for.
const TURNS: [(&str, Result<&str, NoteFault>); 26] = [
    ("Ed2n", Ok("Ed2n")),
    (" \tEd2n  Ed3n\t", Ok("Ed2n Ed3n")),
    ("re6e rf6x Ed6e", Ok("re6e rf6x Ed6e")),
    ("Ra1n Ra2e Rb2s Rb1w", Ok("Ra1n Ra2e Rb2s Rb1w")),
    (
        "Hb2n cc3x\tHb3e Rf3x mc6w cc6x rh8s ef6x",
        Ok("Hb2n cc3x Hb3e Rf3x mc6w cc6x rh8s ef6x"),
    ),
    ("Ed2n Ed3q", Err(NoteFault::Token(2))),
    ("Ed2n Xd3n", Err(NoteFault::Token(2))),
    ("Ei2n", Err(NoteFault::Token(1))),
    ("E`2n", Err(NoteFault::Token(1))),
    ("Ed9n", Err(NoteFault::Token(1))),
    ("Ed0n", Err(NoteFault::Token(1))),
    ("Ed2N", Err(NoteFault::Token(1))),
    ("Ed2", Err(NoteFault::Token(1))),
    ("Ed2nn", Err(NoteFault::Token(1))),
    ("Ed2n,Ed3n", Err(NoteFault::Token(1))),
    ("Ed2n\rEd3n", Err(NoteFault::Token(1))),
    ("Ed2n\nEd3n", Err(NoteFault::Token(1))),
    ("", Err(NoteFault::Token(1))),
    (" \t ", Err(NoteFault::Token(1))),
    ("cc3x Ed2n", Err(NoteFault::Token(1))),
    ("Ed2n cc3x cf3x", Err(NoteFault::Token(3))),
    ("Ed2n cc9x", Err(NoteFault::Token(2))),
    ("Ed2n Ed3q Ed4q", Err(NoteFault::Token(2))),
    ("Ra1n Ra2n Ra3n Ra4n Ra5n", Err(NoteFault::Steps)),
    ("Ra1n Ra2n Ra3n Ra4n Ra5n Ra6", Err(NoteFault::Token(6))),
    ("Ra1n Ra2n Ra3n Ra4n Ra5n cc3x", Err(NoteFault::Steps)),
];

// Texts of setups with their sides, and what they are written as or refused for.
const SETUPS: [(&str, Color, Result<&str, NoteFault>); 18] = [
    (GOLD, Color::Gold, Ok(GOLD)),
    (SILVER, Color::Silver, Ok(SILVER)),
    (
        "\tRh2 Hg2  Cf2 Ee2 Md2 Cc2 Hb2 Ra2 Rh1\t\tRg1 Rf1 De1 Dd1 Rc1 Rb1 Ra1 ",
        Color::Gold,
        Ok(GOLD),
    ),
    (GOLD, Color::Silver, Err(NoteFault::Setup)),
    (SILVER, Color::Gold, Err(NoteFault::Setup)),
    ("", Color::Gold, Err(NoteFault::Setup)),
    ("Ra1", Color::Gold, Err(NoteFault::Setup)),
    // Fifteen entries, and seventeen.
    (
        "Ra1 Rb1 Rc1 Dd1 De1 Rf1 Rg1 Rh1 Ra2 Hb2 Cc2 Md2 Ee2 Cf2 Hg2",
        Color::Gold,
        Err(NoteFault::Setup),
    ),
    (
        "Ra1 Rb1 Rc1 Dd1 De1 Rf1 Rg1 Rh1 Ra2 Hb2 Cc2 Md2 Ee2 Cf2 Hg2 Rh2 Ra3",
        Color::Gold,
        Err(NoteFault::Setup),
    ),
    // A square twice.
    (
        "Ra1 Ra1 Rc1 Dd1 De1 Rf1 Rg1 Rh1 Ra2 Hb2 Cc2 Md2 Ee2 Cf2 Hg2 Rh2",
        Color::Gold,
        Err(NoteFault::Setup),
    ),
    // A piece too often.
    (
        "Ra1 Rb1 Rc1 Dd1 De1 Rf1 Rg1 Rh1 Ra2 Cb2 Cc2 Md2 Ee2 Cf2 Hg2 Rh2",
        Color::Gold,
        Err(NoteFault::Setup),
    ),
    // A home square of the other side, and a piece of the other side.
    (
        "Ra1 Rb1 Rc1 Dd1 De1 Rf1 Rg1 Rh1 Ra2 Hb2 Cc2 Md2 Ee2 Cf2 Hg2 Rh7",
        Color::Gold,
        Err(NoteFault::Setup),
    ),
    (
        "ra1 Rb1 Rc1 Dd1 De1 Rf1 Rg1 Rh1 Ra2 Hb2 Cc2 Md2 Ee2 Cf2 Hg2 Rh2",
        Color::Gold,
        Err(NoteFault::Setup),
    ),
    // A bad letter, a bad square, a step, and a bad item after sixteen entries.
    (
        "Ra1 Rb1 Xc1 Dd1 De1 Rf1 Rg1 Rh1 Ra2 Hb2 Cc2 Md2 Ee2 Cf2 Hg2 Rh2",
        Color::Gold,
        Err(NoteFault::Token(3)),
    ),
    (
        "Ra1 Rb1 Rc1 Di1 De1 Rf1 Rg1 Rh1 Ra2 Hb2 Cc2 Md2 Ee2 Cf2 Hg2 Rh0",
        Color::Gold,
        Err(NoteFault::Token(4)),
    ),
    ("Ra1n", Color::Gold, Err(NoteFault::Token(1))),
    (
        "Ra1 Rb1 Rc1 Dd1 De1 Rf1 Rg1 Rh1 Ra2 Hb2 Cc2 Md2 Ee2 Cf2 Hg2 Rh2 R",
        Color::Gold,
        Err(NoteFault::Token(17)),
    ),
    ("Ra1,Rb1", Color::Gold, Err(NoteFault::Token(1))),
];

// Whether a turn's text is written so or refused so.
fn turn_is(text: &str, want: &Result<&str, NoteFault>) -> bool {
    match read_turn(text.as_bytes()) {
        Ok(turn) => match want {
            Ok(written) => !turn.steps().is_empty() && turn_text(&turn).as_str() == *written,
            Err(_) => false,
        },
        Err(fault) => match want {
            Ok(_) => false,
            Err(wanted) => fault == *wanted,
        },
    }
}

// Whether a setup's text is written so or refused so.
fn setup_is(text: &str, color: Color, want: &Result<&str, NoteFault>) -> bool {
    match read_setup(text.as_bytes(), color) {
        Ok(setup) => match want {
            Ok(written) => setup_text(&setup).as_str() == *written,
            Err(_) => false,
        },
        Err(fault) => match want {
            Ok(_) => false,
            Err(wanted) => fault == *wanted,
        },
    }
}

#[test]
fn texts(rt: HostRuntime) {
    for (text, want) in TURNS.iter() {
        let held = turn_is(text, want);
        assert!(rt; held, "turn {text}");
    }
    for (text, color, want) in SETUPS.iter() {
        let held = setup_is(text, *color, want);
        assert!(rt; held, "setup {text}");
    }
}
