use super::*;
use arimaa_board::{Board, Color, Dir, Kind, Piece, Position, Square, Step, contains};
use std::test::Fail;

fn step(from: u8, dir: Dir) -> Result<Step, Fail> {
    Ok(Step {
        piece: Piece {
            color: Color::Gold,
            kind: Kind::Elephant,
        },
        from: Square::new(from).ok_or("off the board")?,
        dir,
    })
}

// The masks that a count over all squares gives, square by square, with no bits.
#[test]
fn masks_of_steps_that_commute(rt: HostRuntime) -> Result<(), Fail> {
    let earlier = EarlierSteps::commuting_with(&step(27, Dir::North)?);
    assert_eq!(rt; earlier.north, 0x3e3_f7ff);
    assert_eq!(rt; earlier.east, 0x173_7f7f);
    assert_eq!(rt; earlier.south, 0x3f7_ff00);
    assert_eq!(rt; earlier.west, 0x2e6_fefe);
    let beside_trap = EarlierSteps::commuting_with(&step(19, Dir::North)?);
    assert_eq!(rt; beside_trap.north, 0x1_e1f3);
    assert_eq!(rt; beside_trap.east, 0x717f);
    assert_eq!(rt; beside_trap.south, 0x1_f300);
    assert_eq!(rt; beside_trap.west, 0xe2fe);
    let last = EarlierSteps::commuting_with(&step(63, Dir::West)?);
    assert_eq!(rt; last.south, 0x1f3f_ffff_ffff_ff00);
    assert_eq!(rt; last.west, 0x1e3e_fefe_fefe_fefe);
    Ok(())
}

// The board of letters and numbers of squares.
fn board(pieces: &[(u8, u8)]) -> Result<Board, Fail> {
    let mut board = Board::empty();
    for (letter, number) in pieces {
        let piece = Piece::from_letter(*letter).ok_or("no piece")?;
        board.put(Square::new(*number).ok_or("off the board")?, Some(piece));
    }
    Ok(board)
}

// What a step ends a turn with.
fn end_after(state: &TurnState, step: &Step) -> Option<Position> {
    let done = state.step(*step).ok()?;
    done.state.finish().ok()
}

// Whether a step that ends a turn after a first one ends it the same when it comes before it.
fn ends_turned(start: &TurnState, first: &Step, then: &TurnState, second: &Step) -> bool {
    match end_after(then, second) {
        None => true,
        Some(end) => match start.step(*second) {
            Ok(done) => end_after(&done.state, first) == Some(end),
            Err(_) => false,
        },
    }
}

// How many steps after a first one are left out, each of which ends the turn the same when it comes
// before it.
fn left_out(start: &TurnState, first: &Step) -> Result<u32, Fail> {
    let then = start.step(*first).map_err(|_| "not accepted")?.state;
    let accepted = then.accepted();
    let others = EarlierSteps::commuting_with(first).left_out_of(&accepted);
    let mut count = 0u32;
    for dir in Dir::ALL {
        for number in 0..64u8 {
            let square = Square::new(number).ok_or("off the board")?;
            let out = accepted.towards(dir) & !others.towards(dir);
            if let Some(piece) = then.board().at(square) {
                if contains(out, square) {
                    let second = Step {
                        piece,
                        from: square,
                        dir,
                    };
                    if !ends_turned(start, first, &then, &second) {
                        return Err("another end".into());
                    }
                    count = count.saturating_add(1);
                }
            }
        }
    }
    Ok(count)
}

// A rabbit's step, with a camel far from it, one beside a trap, and a piece that is held on a trap.
#[test]
fn steps_that_commute_end_the_same(rt: HostRuntime) -> Result<(), Fail> {
    let pieces = [(b'R', 48), (b'M', 27), (b'C', 18), (b'D', 10), (b'r', 55)];
    let start = TurnState::start(&Position {
        board: board(&pieces)?,
        side: Color::Gold,
    });
    let rabbit = Step {
        piece: Piece {
            color: Color::Gold,
            kind: Kind::Rabbit,
        },
        from: Square::new(48).ok_or("off the board")?,
        dir: Dir::North,
    };
    // Four steps of the camel, three of the cat, and three of the dog.
    assert_eq!(rt; left_out(&start, &rabbit)?, 10);
    // One step of the cat, and three of the dog.
    let camel = Step {
        piece: Piece {
            color: Color::Gold,
            kind: Kind::Camel,
        },
        from: Square::new(27).ok_or("off the board")?,
        dir: Dir::East,
    };
    assert_eq!(rt; left_out(&start, &camel)?, 4);
    Ok(())
}
