//! Tests of lists: what the layers list, the walk lists too.
ghost use Rattle.std.specs.Prelude.{◌≡◌, ◌<◌, [], length, IfOk};

use super::*;
use arimaa_board::{Piece, Square};
use arimaa_results::{Full, LayerFull};
use std::process::Abort;
use std::test::Fail;

// The position of a board text.
fn position(text: &str, side: Color) -> Result<Position, Fail> {
    let board = read_board(text.as_bytes()).ok().ok_or("no board")?;
    Ok(Position { board, side })
}

// A region in which lists by layers have no room for more than one state.
fn region_of_walks(rt: &impl AllocGlobal) -> Result<Region, Fail>
    ensures { IfOk result (λ r. r.segments ≡ []) }
{
    Ok(Region::with_work(rt.alloc(), 32_768, 1)?)
}

// Asserts that the layers and the walk list the same results of a position; how many there are.
fn listed_alike<R: Abort + AllocGlobal>(rt: &R, p: &Position) -> Result<u32, Fail> {
    let barred = Barred::new(rt.alloc());
    let mut by_layers = Region::with_room(rt.alloc(), 32_768)?;
    let mut by_walk = region_of_walks(rt)?;
    assert!(rt; layered(p, &barred, &mut by_layers).is_ok());
    assert!(rt; results(p, &barred, &mut by_walk).is_ok());
    assert!(rt; same_lists(&by_layers, &by_walk));
    Ok(by_layers.live())
}

// Asserts that the layers alone stop where they have too little room, and leave no position.
fn layers_stop<R: Abort + AllocGlobal>(rt: &R, p: &Position) -> Result<(), Fail> {
    let barred = Barred::new(rt.alloc());
    let mut region = region_of_walks(rt)?;
    assert_eq!(rt;
        layered(p, &barred, &mut region).err(),
        Some(LayerFull::Work)
    );
    assert_eq!(rt; region.live(), 0);
    Ok(())
}

// The position after both setups, from which plain Rust finds 3,331 results too.
#[test]
fn opening(rt: HostRuntime) -> Result<(), Fail> {
    let text = "[rrrddrrrrhcemchr                                RHCMECHRRRRDDRRR]";
    let p = &position(text, Color::Gold)?;
    assert_eq!(rt; listed_alike(&rt, p)?, 3331);
    layers_stop(&rt, p)
}

const MELEE: &str = "[                    hc     r      DE m    C             R       ]";

// Pushes, pulls and traps, with as many results as plain Rust finds.
#[test]
fn pushes_and_pulls(rt: HostRuntime) -> Result<(), Fail> {
    let gold = &position(MELEE, Color::Gold)?;
    assert_eq!(rt; listed_alike(&rt, gold)?, 1673);
    let silver = &position(MELEE, Color::Silver)?;
    assert_eq!(rt; listed_alike(&rt, silver)?, 986);
    Ok(())
}

// A start board on which a cat stands on a trap without a friend.
#[test]
fn unsettled_start(rt: HostRuntime) -> Result<(), Fail> {
    let text = "[       r                    r       E                   R       ]";
    let mut p = position(text, Color::Gold)?;
    p.board.put(Square::C3, Piece::from_letter(b'C'));
    listed_alike(&rt, &p)?;
    p.side = Color::Silver;
    listed_alike(&rt, &p)?;
    Ok(())
}

// Start boards on which the first step bears on a piece that stands on a trap without a friend.
#[test]
fn unsettled_first_step(rt: HostRuntime) -> Result<(), Fail> {
    // each first step of the elephant takes it off its trap, which frees the cat
    let text = "[r                           E                     C            R]";
    let mut freed = position(text, Color::Gold)?;
    freed.board.put(Square::C3, Piece::from_letter(b'e'));
    assert_eq!(rt; listed_alike(&rt, &freed)?, 619);
    // the camel is saved where it leaves its trap first
    let text = "[       r                                    e           R       ]";
    let mut saved = position(text, Color::Silver)?;
    saved.board.put(Square::F6, Piece::from_letter(b'm'));
    assert_eq!(rt; listed_alike(&rt, &saved)?, 623);
    Ok(())
}

// The position that Gold's rabbit brings about on a square, or off the board.
fn rabbit_on(square: u8) -> Result<Position, Fail> {
    let text = "[                       r                                        ]";
    let mut p = position(text, Color::Silver)?;
    if let Some(square) = Square::new(square) {
        p.board.put(square, Piece::from_letter(b'R'));
    }
    Ok(p)
}

// Asserts that a region lists what a rabbit on a1 brings about, in turn order; 64 stands for the
// turn to c3.
fn rabbit_listed(rt: &impl Abort, region: &Region) -> Result<(), Fail> {
    assert_eq!(rt; region.live(), 14);
    let squares = [8, 1, 16, 9, 2, 24, 17, 10, 3, 32, 25, 64, 11, 4];
    for (place, square) in squares.iter().enumerate() {
        if (place as u32) < region.live() {
            assert!(rt; region.get(place as u32) == rabbit_on(*square)?);
        }
    }
    Ok(())
}

// By layers, by the walk, and with one place too few.
#[test]
fn rabbit(rt: HostRuntime) -> Result<(), Fail> {
    let mut start = rabbit_on(0)?;
    start.side = Color::Gold;
    let barred = Barred::new(rt.alloc());
    let mut region = Region::with_room(rt.alloc(), 14)?;
    assert!(rt; results(&start, &barred, &mut region).is_ok());
    rabbit_listed(&rt, &region)?;
    let mut walks = region_of_walks(&rt)?;
    assert!(rt; results(&start, &barred, &mut walks).is_ok());
    rabbit_listed(&rt, &walks)?;
    let mut small = Region::with_room(rt.alloc(), 13)?;
    let full = Some(Full { live: 0 });
    assert_eq!(rt; results(&start, &barred, &mut small).err(), full);
    assert_eq!(rt; small.live(), 0);
    Ok(())
}
