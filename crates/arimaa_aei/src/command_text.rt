//! The written form of a controller's lines.
ghost use Rattle.std.specs.Prelude.{◌≡◌, ◌<◌, length, IfOk, Ok};
ghost use Rattle.arimaa_board.specs.Fit.{IsFit};
ghost use Rattle.arimaa_aei.specs.Commands.{command_of};
ghost use Rattle.arimaa_aei.specs.Words.{text_of_command_word};
ghost use Rattle.arimaa_aei.specs.Written.{IsSayable, letter_of_side, text_of_command};

use crate::command::{Command, OptionName};
use crate::line::word_with_text;
use crate::words::{CommandWord, command_word_text, option_text};
use arimaa_board::{Color, Noted, Position, Setup, board_text};
use arimaa_notation::{setup_text, turn_text};
use itoa::Buffer;
use std::alloc::{AllocError, Global};

/// The line of a command, without a line feed. It is read back, except where a turn without steps
/// or a board that is not fit is told.
pub fn command_bytes(alloc: Global, command: &Command) -> Result<Vec<u8>, AllocError>
    ensures text { IfOk result (λ line. line.items ≡ text_of_command command.now) }
    ensures reads_back { IfOk result (λ line. IsSayable command.now
        → command_of line.items ≡ Ok command.now) }
{
    match command {
        Command::Aei => word_bytes(alloc, CommandWord::Aei),
        Command::IsReady => word_bytes(alloc, CommandWord::IsReady),
        Command::NewGame => word_bytes(alloc, CommandWord::NewGame),
        Command::SetPosition(position) => position_bytes(alloc, position),
        Command::SetOption { name, value } => option_bytes(alloc, *name, *value),
        Command::MakeMove(noted) => turn_bytes(alloc, noted),
        Command::MakeSetup(setup) => setup_bytes(alloc, setup),
        Command::Go => word_bytes(alloc, CommandWord::Go),
        Command::Stop => word_bytes(alloc, CommandWord::Stop),
        Command::Quit => word_bytes(alloc, CommandWord::Quit),
    }
}

// The line of a command that stands alone.
fn word_bytes(alloc: Global, word: CommandWord) -> Result<Vec<u8>, AllocError>
    ensures { IfOk result (λ line. line.items ≡ text_of_command_word word) }
{
    Vec::from_slice(alloc, command_word_text(word))
}

// The letter of a side.
fn side_letter(side: Color) -> u8
    ensures { result ≡ letter_of_side side }
{
    match side {
        Color::Gold => b'g',
        Color::Silver => b's',
    }
}

// The line that sets a position.
fn position_bytes(alloc: Global, position: &Position) -> Result<Vec<u8>, AllocError>
    ensures text { IfOk result
        (λ line. line.items ≡ text_of_command (Command.SetPosition position.now)) }
    ensures reads_back { IfOk result (λ line. IsFit position.now.board
        → command_of line.items ≡ Ok (Command.SetPosition position.now)) }
{
    let mut text = Vec::from_slice(alloc, b"setposition ")?;
    text.push(side_letter(position.side))?;
    text.push(b' ')?;
    text.extend_from_slice(&board_text(&position.board))?;
    Ok(text)
}

// The line that sets an option.
fn option_bytes(alloc: Global, name: OptionName, value: u64) -> Result<Vec<u8>, AllocError>
    ensures text { IfOk result
        (λ line. line.items ≡ text_of_command (Command.SetOption name value)) }
    ensures reads_back { IfOk result (λ line. command_of line.items
        ≡ Ok (Command.SetOption name value)) }
{
    let mut text = Vec::from_slice(alloc, b"setoption name ")?;
    text.extend_from_slice(option_text(name))?;
    text.extend_from_slice(b" value ")?;
    text.extend_from_slice(Buffer::new().format(value).as_bytes())?;
    Ok(text)
}

// The line that tells a turn.
fn turn_bytes(alloc: Global, noted: &Noted) -> Result<Vec<u8>, AllocError>
    ensures text { IfOk result (λ line. line.items ≡ text_of_command (Command.MakeMove noted.now)) }
    ensures reads_back { IfOk result (λ line. 0 < length noted.now
        → command_of line.items ≡ Ok (Command.MakeMove noted.now)) }
{
    if noted.steps().is_empty() {
        return Vec::from_slice(alloc, b"makemove");
    }
    word_with_text(alloc, b"makemove", turn_text(noted).as_bytes())
}

// The line that tells a setup.
fn setup_bytes(alloc: Global, setup: &Setup) -> Result<Vec<u8>, AllocError>
    ensures text { IfOk result
        (λ line. line.items ≡ text_of_command (Command.MakeSetup setup.now)) }
    ensures reads_back { IfOk result (λ line. command_of line.items
        ≡ Ok (Command.MakeSetup setup.now)) }
{
    word_with_text(alloc, b"makemove", setup_text(setup).as_bytes())
}
