//! Matches over ports, spawners and clocks in memory.
ghost use Rattle.std.specs.Prelude.{IfOk};
ghost use Rattle.arimaa_outside.specs.MemSpawner.{IsFresh};

use crate::{match_text, play_programs};
use arimaa_outside::{Bytes, MemClock, MemPort, MemSpawner, Said};
use arimaa_time::read_control;
use std::alloc::{AllocError, Global};
use std::fmt::Write;
use std::test::Fail;

// A match: what the engines say, the time control, the moments, the calls that fail of Gold's port,
// of Silver's and of the spawner, and the text of the match. `open` stands for the two lines that
// open a session, `G` and `S` for the setups below, `H` for Silver's other setup, `long` for a line
// that is too long, and `noise` for 10,000 lines that say nothing.
#[derive(Clone, Copy)]
struct Row {
    gold: &'static [&'static str],
    silver: &'static [&'static str],
    control: &'static str,
    moments: &'static [u64],
    fails: [&'static [u64]; 3],
    text: &'static [&'static str],
}

const GOLD: &str = "Ra1 Rb1 Rc1 Dd1 De1 Rf1 Rg1 Rh1 Ra2 Hb2 Cc2 Md2 Ee2 Cf2 Hg2 Rh2";

const SILVER: &str = "ra7 hb7 cc7 ed7 me7 cf7 hg7 rh7 ra8 rb8 rc8 dd8 de8 rf8 rg8 rh8";

const OTHER: &str = "ra7 rb7 cc7 ed7 me7 cf7 hg7 rh7 ra8 hb8 rc8 dd8 de8 rf8 rg8 rh8";

// Gold's setup for the matches that the rules end.
const APART: &str = "Ra1 Rb1 Cc1 Dd1 De1 Rf1 Mg1 Hh1 Ra2 Rb2 Cc2 Rd2 Re2 Hf2 Rg2 Eh2";

const NONE: [&[u64]; 3] = [&[], &[], &[]];

// A match under the control `1/5`, in which no call fails and no time passes.
fn plain(
    gold: &'static [&'static str],
    silver: &'static [&'static str],
    text: &'static [&'static str],
) -> Row {
    Row {
        gold,
        silver,
        control: "1/5",
        moments: &[],
        fails: NONE,
        text,
    }
}

impl Row {
    // The match in which these calls fail of Gold's port, of Silver's and of the spawner.
    fn failing(self, gold: &'static [u64], silver: &'static [u64], spawner: &'static [u64]) -> Row {
        Row {
            fails: [gold, silver, spawner],
            ..self
        }
    }

    // The match under this control, at these moments.
    fn timed(self, control: &'static str, moments: &'static [u64]) -> Row {
        Row {
            control,
            moments,
            ..self
        }
    }
}

// Faults while programs are started and sessions opened.
fn opening_rows() -> [Row; 13] {
    [
        plain(&[], &[], &["# engine gold failed"]).failing(&[], &[], &[1]),
        plain(&["open"], &[], &["# engine silver failed"]).failing(&[], &[], &[2]),
        plain(&[], &["open"], &["# engine gold ended"]),
        plain(&["open"], &[], &["# engine silver ended"]),
        plain(&["aeiok", "long"], &["open"], &["# engine gold long"]),
        plain(&["open"], &["aeiok", "long"], &["# engine silver long"]),
        plain(&["noise", "open"], &["open"], &["# engine gold silent"]),
        plain(&["open"], &["aeiok", "noise"], &["# engine silver silent"]),
        plain(
            &["protocol-version 2", "open"],
            &["open"],
            &["# engine gold version"],
        ),
        plain(
            &["open"],
            &["protocol-version 2", "open"],
            &["# engine silver version"],
        ),
        plain(&["open"], &["open"], &["# engine gold failed"]).failing(&[1], &[], &[]),
        plain(&["open"], &["open"], &["# engine gold failed"]).failing(&[11], &[], &[]),
        plain(&["open"], &["open"], &["# engine silver failed"]).failing(&[], &[4], &[]),
    ]
}

// Faults of sessions while a match goes on: the reserves, `go`, the answer, and what was booked.
fn break_rows() -> [Row; 12] {
    [
        plain(&["open", "G"], &["open"], &["1g", "# engine gold failed"]).failing(&[14], &[], &[]),
        plain(&["open", "G"], &["open"], &["1g", "# engine gold failed"]).failing(&[16], &[], &[]),
        plain(&["open", "G"], &["open"], &["1g", "# engine gold failed"]).failing(&[17], &[], &[]),
        plain(
            &["open", "G"],
            &["open"],
            &["1g G", "1s", "# engine gold failed"],
        )
        .failing(&[18], &[], &[]),
        plain(
            &["open", "G"],
            &["open"],
            &["1g G", "1s", "# engine silver failed"],
        )
        .failing(&[], &[14], &[]),
        plain(&["open"], &["open"], &["1g", "# engine gold ended"]),
        plain(&["open", "long"], &["open"], &["1g", "# engine gold long"]),
        plain(
            &["open", "noise", "G"],
            &["open"],
            &["1g", "# engine gold silent"],
        ),
        plain(
            &["open", "G"],
            &["open"],
            &["1g G", "1s", "# engine silver ended"],
        ),
        plain(
            &["open", "G"],
            &["open", "long"],
            &["1g G", "1s", "# engine silver long"],
        ),
        plain(
            &["open", "G"],
            &["open", "noise"],
            &["1g G", "1s", "# engine silver silent"],
        ),
        plain(
            &["open", "G", "Cc2n"],
            &["open", "S"],
            &[
                "1g G",
                "1s S",
                "2g Cc2n Cc3x",
                "2s",
                "# engine silver ended",
            ],
        ),
    ]
}

// Matches that are won by an answer.
fn win_rows() -> [Row; 10] {
    [
        plain(
            &["open", "G", "Cc2n"],
            &["open", "S", "ed7n"],
            &[
                "1g G",
                "1s S",
                "2g Cc2n Cc3x",
                "2s",
                "# winner gold illegal",
            ],
        ),
        plain(
            &["open", "G", "Cc2n Cc3x"],
            &["open", "S", "resigns"],
            &[
                "1g G",
                "1s S",
                "2g Cc2n Cc3x",
                "2s resigns",
                "# winner gold resign",
            ],
        ),
        plain(
            &["open", "G", "Cc2n Cf3x"],
            &["open", "S"],
            &["1g G", "1s S", "2g", "# winner silver illegal"],
        ),
        plain(
            &["open", "Ra1 Rb1"],
            &["open"],
            &["1g", "# winner silver illegal"],
        ),
        plain(
            &["open", "S"],
            &["open"],
            &["1g", "# winner silver illegal"],
        ),
        plain(
            &["open", "G"],
            &["open", "G"],
            &["1g G", "1s", "# winner gold illegal"],
        ),
        plain(
            &["open", "resign"],
            &["open"],
            &["1g resigns", "# winner silver resign"],
        ),
        plain(
            &["open", "G"],
            &["open", "resign"],
            &["1g G", "1s resigns", "# winner gold resign"],
        ),
        plain(
            &["open", "G", "Ra2n", "Ra3n", "Ra4n Ra5n Ra6n Ra7n"],
            &["open", "H", "ra7s ra6s ra5e", "ra8s ra7s ra6e"],
            &[
                "1g G",
                "1s H",
                "2g Ra2n",
                "2s ra7s ra6s ra5e",
                "3g Ra3n",
                "3s ra8s ra7s ra6e",
                "4g Ra4n Ra5n Ra6n Ra7n",
                "# winner gold goal",
            ],
        ),
        plain(
            &["open", "G", "Ee2n", "Ee3s", "Ee2n", "Ee3s"],
            &["open", "S", "ed7s", "ed6n", "ed7s", "ed6n"],
            &[
                "1g G",
                "1s S",
                "2g Ee2n",
                "2s ed7s",
                "3g Ee3s",
                "3s ed6n",
                "4g Ee2n",
                "4s ed7s",
                "5g Ee3s",
                "5s",
                "# winner gold illegal",
            ],
        ),
    ]
}

// Matches that the time or a limit ends.
fn time_rows() -> [Row; 8] {
    [
        plain(
            &["open", "G"],
            &["open", "resign"],
            &["1g G", "1s resigns", "# winner gold resign"],
        )
        .timed("0:01/0:02", &[0, 3_000]),
        plain(
            &["open", "G"],
            &["open"],
            &["1g time", "# winner silver time"],
        )
        .timed("0:01/0:02", &[0, 3_001]),
        plain(
            &["open", "resign"],
            &["open"],
            &["1g time", "# winner silver time"],
        )
        .timed("0:01/0:02", &[0, 3_001]),
        plain(
            &["open", "G"],
            &["open", "S"],
            &["1g G", "1s time", "# winner gold time"],
        )
        .timed("0:01/0:02", &[0, 0, 5, 3_006]),
        plain(
            &["open", "G"],
            &["open"],
            &["1g time", "# winner silver time"],
        )
        .timed("1/5/100/0/0/0:04", &[7, 4_008]),
        plain(
            &["open", "G", "Ra2n"],
            &["open", "S"],
            &["1g G", "1s S", "2g Ra2n", "2s", "# limit"],
        )
        .timed("1/5/100/0/1t", &[]),
        plain(&["open", "G"], &["open"], &["1g G", "1s", "# limit"]).timed(
            "5/5/100/0/0:01",
            &[0, 60_000],
        ),
        plain(
            &["open", "G"],
            &["open", "resign"],
            &["1g G", "1s resigns", "# winner gold resign"],
        )
        .timed("5/5/100/0/0:01", &[0, 59_999]),
    ]
}

// A match whose setups and turns are all lawful until the rules end it: what the engines say, how
// many setups and turns are booked, and the last line of its text. `T` stands for the setup above.
struct Whole {
    gold: &'static [&'static str],
    silver: &'static [&'static str],
    booked: usize,
    end: &'static str,
}

// Silver gives up all its pieces but the rabbit on a8, which then goes to a5, and to and fro
// between two squares.
const SHED: [&str; 15] = [
    "open",
    "S",
    "cc7s cc6x hb7e cf7s cf6x hc7s hc6x",
    "ed7s me7e ed6w ec6x mf7s mf6x",
    "hg7s rc8s hg6w hf6x rc7s rc6x",
    "ra7e rh7s rf8s rf7s rf6x",
    "rb7e rh6w rc7s rc6x rg6w rf6x",
    "rb8e dd8s rc8s rc7s rc6x",
    "de8e rg8s dd7s dd6w dc6x",
    "df8s df7s df6x rg7s rg6w rf6x",
    "rh8s rh7s rh6w rg6w rf6x",
    "ra8s ra7s ra6s",
    "ra5e",
    "rb5w",
    "ra5e",
];

// Silver has no rabbit left; its last rabbit is frozen; its last rabbit has one step, which would
// give a position for the third time.
const ENDS: [Whole; 3] = [
    Whole {
        gold: &[
            "open", "T", "Eh2n", "Eh3s", "Eh2n", "Eh3s", "Eh2n", "Eh3s", "Eh2n",
        ],
        silver: &[
            "open",
            "S",
            "ra7s cc7s cc6x rc8s rc7s rc6x",
            "cf7s cf6x rh7s rf8s rf7s rf6x",
            "ra6e rh6w rb6e rc6x rg6w rf6x",
            "ra8s rb8e rc8s rc7s rc6x",
            "rg8w rh8s rf8s rf7s rf6x",
            "ra7s rh7s ra6e rb6e rc6x",
            "rh6w rg6w rf6x",
        ],
        booked: 16,
        end: "# winner gold elimination\n",
    },
    Whole {
        gold: &[
            "open",
            "T",
            "Eh2n Eh3w Eg3n Eg4w",
            "Ef4w Ee4w Ed4w Ec4w",
            "Eb4w Ea4n",
            "Ea5s",
            "Ea4n",
            "Ea5s",
            "Ea4n",
            "Ea5s",
            "Ea4n",
            "Ea5n Ea6n",
        ],
        silver: &SHED,
        booked: 21,
        end: "# winner gold immobile\n",
    },
    Whole {
        gold: &[
            "open",
            "T",
            "Ra2n Ra3n Rb2n Rb3n",
            "Rd2n Rd3n Rd4n Rd5w",
            "Eh2n",
            "Eh3s",
            "Eh2n",
            "Eh3s",
            "Eh2n",
            "Eh3s",
            "Eh2n",
            "Eh3s",
            "Eh2n",
            "Eh3s",
            "Eh2n",
            "Eh3s",
        ],
        silver: &SHED,
        booked: 29,
        end: "# winner gold repetition\n",
    },
];

// Adds a line that an engine says.
fn say(alloc: Global, script: &mut Vec<Said>, line: &str) -> Result<(), AllocError> {
    script.push(Said::Line(Bytes::new(Vec::from_slice(alloc, line.as_bytes())?)))?;
    Ok(())
}

// Adds what a word of a row stands for.
fn say_word(alloc: Global, script: &mut Vec<Said>, word: &str) -> Result<(), AllocError> {
    match word {
        "open" => {
            say(alloc, script, "protocol-version 1")?;
            say(alloc, script, "id name x")?;
            say(alloc, script, "aeiok")?;
            say(alloc, script, "readyok")
        }
        "long" => {
            script.push(Said::Long)?;
            Ok(())
        }
        "noise" => {
            for _ in 0..10_000 {
                say(alloc, script, "info x")?;
            }
            Ok(())
        }
        "aeiok" | "protocol-version 2" => say(alloc, script, word),
        _ => say(
            alloc,
            script,
            format!(in alloc; "bestmove {}", setup_or(word))?.as_str(),
        ),
    }
}

// The setup that a word stands for, and else the word.
fn setup_or(word: &str) -> &str {
    match word {
        "G" => GOLD,
        "S" => SILVER,
        "H" => OTHER,
        "T" => APART,
        _ => word,
    }
}

// A port whose engine says these words.
fn port(alloc: Global, words: &[&str], fails: &[u64]) -> Result<MemPort, AllocError>
    ensures { IfOk result IsFresh }
{
    let mut script = Vec::new(alloc);
    for word in words {
        say_word(alloc, &mut script, word)?;
    }
    Ok(MemPort::new(alloc, script, Vec::from_slice(alloc, fails)?))
}

// A clock of these moments, in order.
fn clock(alloc: Global, moments: &[u64]) -> Result<MemClock, AllocError> {
    let mut moments = Vec::from_slice(alloc, moments)?;
    moments.sort_unstable();
    Ok(MemClock::new(moments))
}

// The text that a row wants.
fn wanted(alloc: Global, lines: &[&str]) -> Result<String, AllocError> {
    let mut text = String::new(alloc);
    for line in lines {
        match line.split_once(' ') {
            Some((label, rest)) => {
                text.push_str(label)?;
                text.push_str(" ")?;
                text.push_str(setup_or(rest))?;
            }
            None => text.push_str(line)?,
        }
        text.push_str("\n")?;
    }
    Ok(text)
}

// The text of a match between two programs whose engines say these words, where the control is
// read.
fn played(
    alloc: Global,
    words: [&[&str]; 2],
    fails: [&[u64]; 3],
    control: &str,
    moments: &[u64],
) -> Result<Option<String>, AllocError> {
    let gold = port(alloc, words[0], fails[0])?;
    let silver = port(alloc, words[1], fails[1])?;
    let ports = Vec::from_array(alloc, [gold, silver])?;
    let mut spawner = MemSpawner::new(alloc, ports, Vec::from_slice(alloc, fails[2])?)?;
    let mut clock = clock(alloc, moments)?;
    let Ok(control) = read_control(control.as_bytes()) else {
        return Ok(None);
    };
    let done = play_programs(alloc, &mut spawner, "gold", "silver", &control, &mut clock)?;
    Ok(String::from_utf8(match_text(alloc, &done)?).ok())
}

// Whether a match comes to the text of its row.
fn comes_so(alloc: Global, row: &Row) -> Result<bool, AllocError> {
    let text = played(
        alloc,
        [row.gold, row.silver],
        row.fails,
        row.control,
        row.moments,
    )?;
    Ok(text == Some(wanted(alloc, row.text)?))
}

// The text of a match whose setups and turns are all booked until the rules end it.
fn whole_text(alloc: Global, whole: &Whole) -> Result<String, AllocError> {
    let mut text = String::new(alloc);
    for place in 0..whole.booked {
        let number = place / 2 + 1;
        if place % 2 == 0 {
            push_line(&mut text, number, "g", whole.gold.get(number))?;
        } else {
            push_line(&mut text, number, "s", whole.silver.get(number))?;
        }
    }
    text.push_str(whole.end)?;
    Ok(text)
}

// Adds the line of a setup or turn, if there is one.
fn push_line(
    text: &mut String,
    number: usize,
    side: &str,
    turn: Option<&&str>,
) -> Result<(), AllocError> {
    match turn {
        Some(turn) => write!(text, "{}{} {}\n", number, side, setup_or(turn)),
        None => Ok(()),
    }
}

// Whether the rules end a match so.
fn ends_so(alloc: Global, whole: &Whole) -> Result<bool, AllocError> {
    let text = played(alloc, [whole.gold, whole.silver], NONE, "1/5", &[])?;
    Ok(text == Some(whole_text(alloc, whole)?))
}

// The number of the first row that does not come so.
fn wrong_row(alloc: Global, rows: &[Row]) -> Result<Option<usize>, AllocError> {
    for (place, row) in rows.iter().enumerate() {
        if !comes_so(alloc, row)? {
            return Ok(Some(place));
        }
    }
    Ok(None)
}

#[test]
fn openings(rt: HostRuntime) -> Result<(), Fail> {
    let wrong = wrong_row(rt.alloc(), &opening_rows())?;
    assert!(rt; wrong.is_none(), "{wrong:?}");
    Ok(())
}

#[test]
fn breaks(rt: HostRuntime) -> Result<(), Fail> {
    let wrong = wrong_row(rt.alloc(), &break_rows())?;
    assert!(rt; wrong.is_none(), "{wrong:?}");
    Ok(())
}

#[test]
fn wins(rt: HostRuntime) -> Result<(), Fail> {
    let wrong = wrong_row(rt.alloc(), &win_rows())?;
    assert!(rt; wrong.is_none(), "{wrong:?}");
    Ok(())
}

#[test]
fn times(rt: HostRuntime) -> Result<(), Fail> {
    let wrong = wrong_row(rt.alloc(), &time_rows())?;
    assert!(rt; wrong.is_none(), "{wrong:?}");
    Ok(())
}

#[test]
fn ends(rt: HostRuntime) -> Result<(), Fail> {
    for whole in &ENDS {
        assert!(rt; ends_so(rt.alloc(), whole)?, "{}", whole.end);
    }
    Ok(())
}
