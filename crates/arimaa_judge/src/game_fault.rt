//! The rules that turns and takebacks break in a game.
ghost use Rattle.std.specs.Prelude.{◌≡◌};
ghost use Rattle.arimaa_judge.specs.Rules.{rule_of_step, rule_of_turn, rule_of_game_fault};

use crate::rule::Rule;
use arimaa_game::GameFault;
use arimaa_model::{StepFault, TurnFault};

// The rule of a step that is refused.
fn rule_of_step(fault: StepFault) -> Rule
    ensures { result ≡ rule_of_step fault }
{
    match fault {
        StepFault::Fifth => Rule::Steps,
        StepFault::Piece => Rule::Piece,
        StepFault::Target => Rule::Target,
        StepFault::OpenPush => Rule::OpenPush,
        StepFault::Dislodge => Rule::Dislodge,
        StepFault::Frozen => Rule::Frozen,
        StepFault::RabbitBack => Rule::Rabbit,
    }
}

// The rule of steps that are no turn.
fn rule_of_turn(fault: TurnFault) -> Rule
    ensures { result ≡ rule_of_turn fault }
{
    match fault {
        TurnFault::Empty => Rule::Unfinished,
        TurnFault::Unfinished => Rule::Unfinished,
        TurnFault::Same => Rule::Same,
    }
}

// The rule that a line breaks which a game refuses. Want of memory breaks none.
pub(crate) fn rule_of_game_fault(fault: GameFault) -> Option<Rule>
    ensures { result ≡ rule_of_game_fault fault }
{
    match fault {
        GameFault::Over => Some(Rule::Over),
        GameFault::NoTurn => Some(Rule::Takeback),
        GameFault::Step { place: _, fault } => Some(rule_of_step(fault)),
        GameFault::Mark => Some(Rule::Mark),
        GameFault::Turn(fault) => Some(rule_of_turn(fault)),
        GameFault::Repeat => Some(Rule::Repeat),
        GameFault::Memory => None,
    }
}
