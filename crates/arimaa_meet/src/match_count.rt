//! What a match counts in the table.
ghost use Rattle.std.specs.Prelude.{◌≡◌};
ghost use Rattle.arimaa_meet.specs.Scores.{counted_by, is_fault_of, is_limit_of, is_loss_of, is_of, is_win_of, loser};

use crate::pairs::Pair;
use arimaa_board::Color;
use arimaa_match::MatchEnd;

/// What a match counts in the table.
#[derive(Clone, Copy, Debug, PartialEq, Eq)]
pub(crate) struct Counted {
    /// Its two programs.
    pub(crate) pair: Pair,
    /// The side that has won, if one has.
    pub(crate) winner: Option<Color>,
    /// Whether it reached the limit of the game.
    pub(crate) at_limit: bool,
    /// The side whose engine failed, if one did.
    pub(crate) faulty: Option<Color>,
}

impl Counted {
    // What a match of these programs that has ended so counts.
    pub(crate) fn of(pair: Pair, ending: &MatchEnd) -> Counted
        ensures { result ≡ counted_by pair ending.now }
    {
        match ending {
            MatchEnd::Won { winner, .. } => Counted {
                pair,
                winner: Some(*winner),
                at_limit: false,
                faulty: None,
            },
            MatchEnd::Limit => Counted {
                pair,
                winner: None,
                at_limit: true,
                faulty: None,
            },
            MatchEnd::Engine { side, .. } => Counted {
                pair,
                winner: None,
                at_limit: false,
                faulty: Some(*side),
            },
        }
    }

    // Whether a side is there, and this program plays it.
    fn is_of(&self, program: usize, side: Option<Color>) -> bool
        ensures { result ≡ is_of program self.now.pair side }
    {
        match side {
            Some(side) => self.pair.program(side) == program,
            None => false,
        }
    }

    // The side that has lost, if one has.
    fn loser(&self) -> Option<Color>
        ensures { result ≡ loser self.now.winner }
    {
        match self.winner {
            Some(winner) => Some(winner.other()),
            None => None,
        }
    }

    // Whether a program has won.
    pub(crate) fn is_win_of(&self, program: usize) -> bool
        ensures { result ≡ is_win_of program self.now }
    {
        self.is_of(program, self.winner)
    }

    // Whether a program has lost.
    pub(crate) fn is_loss_of(&self, program: usize) -> bool
        ensures { result ≡ is_loss_of program self.now }
    {
        self.is_of(program, self.loser())
    }

    // Whether a program played, and the limit was reached.
    pub(crate) fn is_limit_of(&self, program: usize) -> bool
        ensures { result ≡ is_limit_of program self.now }
    {
        self.at_limit && (self.pair.gold == program || self.pair.silver == program)
    }

    // Whether a program's engine failed.
    pub(crate) fn is_fault_of(&self, program: usize) -> bool
        ensures { result ≡ is_fault_of program self.now }
    {
        self.is_of(program, self.faulty)
    }
}
