//! Texts of escapes.
use crate::{EscapeFault, escapes_text, read_escapes};
use arimaa_board::Color;
use std::test::Fail;

// Texts, and their first bad line.
const BAD: [(&[u8], u64); 16] = [
    // the depth
    (
        b"0 [        R                                              r        ] rh7s\n",
        1,
    ),
    (
        b"21 [        R                                              r        ] rh7s\n",
        1,
    ),
    (
        b"01 [        R                                              r        ] rh7s\n",
        1,
    ),
    (
        b"+1 [        R                                              r        ] rh7s\n",
        1,
    ),
    (
        b"[        R                                              r        ] rh7s\n",
        1,
    ),
    // the board
    (
        b"1 [        R                                             r        ] rh7s\n",
        1,
    ),
    (
        b"1 [        R                                               r        ] rh7s\n",
        1,
    ),
    (
        b"1 [        Q                                              r        ] rh7s\n",
        1,
    ),
    // the blanks
    (
        b"1[        R                                              r        ] rh7s\n",
        1,
    ),
    (
        b"1 [        R                                              r        ]rh7s\n",
        1,
    ),
    // the turn
    (
        b"1 [        R                                              r        ]\n",
        1,
    ),
    (
        b"1 [        R                                              r        ] \n",
        1,
    ),
    (
        b"1 [        R                                              r        ] rh7s rh6s rh5s rh4s rh3s",
        1,
    ),
    // later lines
    (b"\n# none\n\t\nescapes\n", 4),
    (
        b"1 [        R                                              r        ] rh7s\r\n\r\n2\n0\n",
        3,
    ),
    (
        b"20 [        R                                              r        ] rh7s\n0 [        R                                              r        ] rh7s\nx\n",
        2,
    ),
];

// A text with blanks and comments, and how it is written.
const LOOSE: &[u8] =
    b"# a comment\r\n\n \t1\t [        R         x  X                    x  x         r        ]\t rh7s\trh6s  \r\n20 [        R                                              r        ] rh7w";

const PLAIN: &[u8] =
    b"1 [        R                                              r        ] rh7s rh6s\n20 [        R                                              r        ] rh7w\n";

#[test]
fn bad_texts(rt: HostRuntime) -> Result<(), Fail> {
    for (text, bad) in BAD {
        match read_escapes(rt.alloc(), text, Color::Gold) {
            Err(EscapeFault::Text { line }) => assert_eq!(rt; line, bad),
            _ => assert!(rt; false, "escapes"),
        }
    }
    Ok(())
}

#[test]
fn texts(rt: HostRuntime) -> Result<(), Fail> {
    let escapes = read_escapes(rt.alloc(), LOOSE, Color::Gold)?;
    let [first, second] = escapes.entries() else {
        return Err("not two escapes".into());
    };
    assert_eq!(rt; first.depth, 1);
    assert_eq!(rt; first.position.side, Color::Silver);
    assert_eq!(rt; second.depth, 20);
    assert_eq!(rt; escapes_text(rt.alloc(), &escapes)?.as_slice(), PLAIN);
    Ok(())
}
