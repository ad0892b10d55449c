//! The matches of a meet: who plays whom, in order.
ghost use Rattle.std.specs.Prelude.{◌≡◌, ◌+◌, ◌≤◌, ◌++◌, IfOk, OnOk, vec_len};
ghost use Rattle.arimaa_meet.specs.Pairs.{pairs_of, pairs_with_gold, program_at};
ghost use Rattle.arimaa_meet.specs.declared.words.TheConstants.{MOST_PROGRAMS as MOST};

use arimaa_board::Color;
use std::alloc::{AllocError, Global};

/// The most matches of a meet, which no meet of `MOST_PROGRAMS` programs reaches.
pub const MOST_PAIRS: usize = 64;

/// The two programs of a match, by their numbers, from 1.
#[derive(Clone, Copy, Debug, PartialEq, Eq)]
pub struct Pair {
    /// The program that plays Gold.
    pub gold: usize,
    /// The program that plays Silver.
    pub silver: usize,
}

impl Pair {
    /// The program of a side.
    pub fn program(self, side: Color) -> usize
        ensures { result ≡ program_at self side }
    {
        match side {
            Color::Gold => self.gold,
            Color::Silver => self.silver,
        }
    }
}

// Adds the pairs in which one of so many programs plays Gold.
fn push_with_gold(pairs: &mut Vec<Pair>, programs: usize, gold: usize) -> Result<(), AllocError>
    requires { programs ≤ MOST }
    ensures added { OnOk result (pairs.new.items
        ≡ pairs.old.items ++ pairs_with_gold programs gold) }
    ensures few { OnOk result (vec_len pairs.new ≤ vec_len pairs.old + programs) }
{
    for place in 0..programs {
        let silver = place + 1;
        if silver == gold {
            continue;
        }
        pairs.push(Pair { gold, silver })?;
    }
    Ok(())
}

// The pairs of so many programs: each with each other one, by the number of the program that plays
// Gold, and then by that of the other.
pub(crate) fn all_pairs(alloc: Global, programs: usize) -> Result<Vec<Pair>, AllocError>
    requires { programs ≤ MOST }
    ensures pairs { IfOk result (λ pairs. pairs.items ≡ pairs_of programs) }
    ensures few { IfOk result (λ pairs. vec_len pairs ≤ MOST_PAIRS) }
{
    let mut pairs = Vec::new(alloc);
    for place in 0..programs {
        push_with_gold(&mut pairs, programs, place + 1)?;
    }
    Ok(pairs)
}
