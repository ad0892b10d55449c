//! Games that were worked out by hand from the rules.
ghost use Rattle.std.specs.Prelude.{◌≡◌, IfOk};

use super::*;
use arimaa_board::{Board, Color, Dir, Piece, Position, Setup, Square, Step, Turn};
use arimaa_model::{Cause, Ending, StepFault, TurnFault, Word};
use std::alloc::Global;
use std::test::Fail;

// The steps of a turn, as they are written in game records.
type Steps<'a> = &'a [&'a [u8; 4]];

type Answer = Result<Option<Ending>, GameFault>;

// A game by its pieces and the side to move at its start, how it has ended then, and its turns with
// their answers.
struct Row<'a> {
    pieces: &'a [&'a [u8; 3]],
    side: Color,
    start: Option<Ending>,
    turns: &'a [(Steps<'a>, Answer)],
    // how many positions the history has in the end, and how many of them are barred
    positions: usize,
    barred: usize,
}

const OVER: Answer = Err(GameFault::Over);

const GOES_ON: Answer = Ok(None);

const ROWS: [Row<'static>; 12] = [
    // elephants go to and fro; the start position would stand for the third time, and another turn
    // may be played
    Row {
        pieces: &[b"Ed4", b"Ra1", b"ed7", b"rh8"],
        side: Color::Gold,
        start: None,
        turns: &[
            (&[b"Ed4n"], GOES_ON),
            (&[b"ed7n"], GOES_ON),
            (&[b"Ed5s"], GOES_ON),
            (&[b"ed8s"], GOES_ON),
            (&[b"Ed4n"], GOES_ON),
            (&[b"ed7n"], GOES_ON),
            (&[b"Ed5s"], GOES_ON),
            (&[b"ed8s"], Err(GameFault::Repeat)),
            (&[b"ed8w"], GOES_ON),
        ],
        positions: 9,
        barred: 4,
    },
    // both last rabbits are removed: the side that has just moved wins
    Row {
        pieces: &[b"Rc3", b"Dd3", b"re3", b"eh8"],
        side: Color::Gold,
        start: None,
        turns: &[
            (
                &[b"re3e", b"Dd3e"],
                Ok(Some(Ending {
                    winner: Color::Gold,
                    cause: Cause::Elimination,
                })),
            ),
            (&[b"eh8s"], OVER),
        ],
        positions: 2,
        barred: 0,
    },
    // a rabbit is pushed to its own goal
    Row {
        pieces: &[b"Ra7", b"cb7", b"rh8"],
        side: Color::Silver,
        start: None,
        turns: &[(
            &[b"Ra7n", b"cb7w"],
            Ok(Some(Ending {
                winner: Color::Gold,
                cause: Cause::Goal,
            })),
        )],
        positions: 2,
        barred: 0,
    },
    // a frozen rabbit is all that Silver has
    Row {
        pieces: &[b"Ha4", b"Rh1", b"ra5"],
        side: Color::Silver,
        start: Some(Ending {
            winner: Color::Gold,
            cause: Cause::Immobile,
        }),
        turns: &[(&[b"ra5s"], OVER)],
        positions: 1,
        barred: 0,
    },
    // Silver's only turn would bring the start position about for the third time
    Row {
        pieces: &[b"Hb4", b"Rb5", b"ra4"],
        side: Color::Gold,
        start: None,
        turns: &[
            (&[b"ra4n", b"Hb4w", b"Ha4e"], GOES_ON),
            (&[b"ra5s"], GOES_ON),
            (
                &[b"ra4n", b"Hb4w", b"Ha4e"],
                Ok(Some(Ending {
                    winner: Color::Gold,
                    cause: Cause::Repetition,
                })),
            ),
            (&[b"ra5s"], OVER),
        ],
        positions: 4,
        barred: 2,
    },
    // the same position alone: the turn may be played
    Row {
        pieces: &[b"Hb4", b"Rb5", b"ra5"],
        side: Color::Silver,
        start: None,
        turns: &[(&[b"ra5s"], GOES_ON)],
        positions: 2,
        barred: 0,
    },
    // a rabbit is pushed to its goal and pulled away in one turn: no goal
    Row {
        pieces: &[b"Eb3", b"Rh2", b"rb2", b"eh8"],
        side: Color::Gold,
        start: None,
        turns: &[(&[b"rb2s", b"Eb3s", b"Eb2e", b"rb1n"], GOES_ON)],
        positions: 2,
        barred: 0,
    },
    // a rabbit of each side is on its goal: that of the side that has just moved comes first
    Row {
        pieces: &[b"Ra8", b"rb1"],
        side: Color::Silver,
        start: Some(Ending {
            winner: Color::Gold,
            cause: Cause::Goal,
        }),
        turns: &[],
        positions: 1,
        barred: 0,
    },
    // no side has a rabbit: the side to move has lost
    Row {
        pieces: &[b"Ea1", b"ea8"],
        side: Color::Gold,
        start: Some(Ending {
            winner: Color::Silver,
            cause: Cause::Elimination,
        }),
        turns: &[],
        positions: 1,
        barred: 0,
    },
    // Silver has no piece, so no rabbit: that comes before having no turn
    Row {
        pieces: &[b"Ra1"],
        side: Color::Silver,
        start: Some(Ending {
            winner: Color::Gold,
            cause: Cause::Elimination,
        }),
        turns: &[],
        positions: 1,
        barred: 0,
    },
    // faults of steps by their place
    Row {
        pieces: &[b"Ed4", b"Ra1", b"ed7", b"rh8"],
        side: Color::Gold,
        start: None,
        turns: &[
            (
                &[b"Ed5n"],
                Err(GameFault::Step {
                    place: 1,
                    fault: StepFault::Piece,
                }),
            ),
            (
                &[b"Ed4n", b"Ed5n", b"Ed6n"],
                Err(GameFault::Step {
                    place: 3,
                    fault: StepFault::Target,
                }),
            ),
            (
                &[b"Ra1n", b"Ra2s"],
                Err(GameFault::Step {
                    place: 2,
                    fault: StepFault::RabbitBack,
                }),
            ),
            (&[b"Ra1n"], GOES_ON),
        ],
        positions: 2,
        barred: 0,
    },
    // faults of whole turns
    Row {
        pieces: &[b"Ed4", b"Ra1", b"rd5", b"rh8"],
        side: Color::Gold,
        start: None,
        turns: &[
            (&[], Err(GameFault::Turn(TurnFault::Empty))),
            (&[b"rd5n"], Err(GameFault::Turn(TurnFault::Unfinished))),
            (&[b"Ed4s", b"Ed3n"], Err(GameFault::Turn(TurnFault::Same))),
            (&[b"rd5n", b"Ed4n"], GOES_ON),
        ],
        positions: 2,
        barred: 0,
    },
];

// The square of a column's letter and a row's digit.
fn square(column: u8, row: u8) -> Result<Square, Fail> {
    let column = column.checked_sub(b'a').ok_or("no column")?;
    let row = row.checked_sub(b'1').ok_or("no row")?;
    if column > 7 || row > 7 {
        return Err("off the board".into());
    }
    Ok(Square::from_number(8 * row + column))
}

fn turn(steps: Steps<'_>) -> Result<Turn, Fail> {
    let mut turn = Turn::empty();
    for text in steps {
        let [letter, column, row, dir] = **text;
        let piece = Piece::from_letter(letter).ok_or("no piece")?;
        let from = square(column, row)?;
        let dir = match dir {
            b'n' => Dir::North,
            b'e' => Dir::East,
            b's' => Dir::South,
            b'w' => Dir::West,
            _ => return Err("no direction".into()),
        };
        turn.push(Step { piece, from, dir });
    }
    Ok(turn)
}

fn position(pieces: &[&[u8; 3]], side: Color) -> Result<Position, Fail> {
    let mut board = Board::empty();
    for text in pieces {
        let [letter, column, row] = **text;
        board.put(square(column, row)?, Piece::from_letter(letter));
    }
    Ok(Position { board, side })
}

fn game(alloc: Global, pieces: &[&[u8; 3]], side: Color) -> Result<Game, Fail> {
    let start = position(pieces, side)?;
    if start.board.fit().is_err() {
        return Err("not fit".into());
    }
    Ok(Game::from_start(alloc, start)?)
}

#[test]
fn plays_turns(rt: HostRuntime) -> Result<(), Fail> {
    for (number, row) in ROWS.iter().enumerate() {
        let mut game = game(rt.alloc(), row.pieces, row.side)?;
        assert_eq!(rt; game.ending(), row.start, "{number}");
        for (steps, answer) in row.turns.iter() {
            let before = (game.now(), game.ending());
            assert_eq!(rt; game.play(&turn(steps)?), *answer, "{number}");
            match answer {
                Ok(ending) => assert_eq!(rt; game.ending(), *ending, "{number}"),
                Err(_) => assert_eq!(rt; (game.now(), game.ending()), before, "{number}"),
            }
        }
        assert_eq!(rt; game.history().as_slice().len(), row.positions, "{number}");
        let barred = game.history().barred().copy(rt.alloc())?;
        assert_eq!(rt; barred.as_slice().len(), row.barred, "{number}");
        for p in barred.as_slice() {
            assert!(rt;
                barred.contains(p) && 2 <= game.history().count(p),
                "{number}"
            );
        }
        assert!(rt;
            barred.contains(&game.now()) == (2 <= game.history().count(&game.now())),
            "{number}"
        );
        assert_eq!(rt; game.history().last(), Some(game.now()), "{number}");
    }
    Ok(())
}

// A setup by the letters on its squares, in order.
fn setup(color: Color, first: u8, letters: &[u8; 16]) -> Result<Setup, Fail>
    ensures { IfOk result (λ s. s.color ≡ color) }
{
    let mut pairs = [(Square::C3, Piece::ALL[0]); 16];
    for place in 0..16u8 {
        let number = first.checked_add(place).ok_or("off the board")?;
        let piece = Piece::from_letter(letters[place as usize]).ok_or("no piece")?;
        pairs[place as usize] = (Square::new(number).ok_or("off the board")?, piece);
    }
    match Setup::new(color, &pairs) {
        None => Err("no setup".into()),
        Some(setup) => Ok(setup),
    }
}

#[test]
fn closes_games(rt: HostRuntime) -> Result<(), Fail> {
    for (turns, word, ending) in [
        (
            0,
            Word::Resigns,
            Ending {
                winner: Color::Silver,
                cause: Cause::Resign,
            },
        ),
        (
            0,
            Word::Time,
            Ending {
                winner: Color::Silver,
                cause: Cause::Time,
            },
        ),
        (
            1,
            Word::Resigns,
            Ending {
                winner: Color::Gold,
                cause: Cause::Resign,
            },
        ),
        (
            1,
            Word::Time,
            Ending {
                winner: Color::Gold,
                cause: Cause::Time,
            },
        ),
    ] {
        let gold = setup(Color::Gold, 0, b"RRRRRRRRDHCMECHD")?;
        let silver = setup(Color::Silver, 48, b"dhcmechdrrrrrrrr")?;
        let mut game = Game::from_setups(rt.alloc(), &gold, &silver)?;
        let start = game.now();
        assert_eq!(rt;
            start.board.at(square(b'e', b'7')?),
            Piece::from_letter(b'e')
        );
        let first = turn(&[b"Ee2n", b"Ee3n"])?;
        if turns == 1 {
            assert_eq!(rt; game.play(&first), GOES_ON);
        }
        assert_eq!(rt; game.ending(), None);
        assert_eq!(rt; game.close(word), Ok(ending));
        assert_eq!(rt; game.ending(), Some(ending));
        assert_eq!(rt; game.close(word), Err(GameFault::Over));
        assert_eq!(rt; game.play(&first), OVER);
        assert_eq!(rt; game.into_history().count(&start), 1);
    }
    Ok(())
}
