//! The reader of a controller's lines.
ghost use Rattle.std.specs.Prelude.{◌≡◌};
ghost use Rattle.arimaa_board.specs.Piece.{piece_of_letter};
ghost use Rattle.arimaa_notation.specs.Items.{items_of, word_of};
ghost use Rattle.arimaa_aei.specs.Commands.{alone, side_of, position_said, value_said, option_said, setup_said, move_said, command_said, command_of};

use crate::command::{Command, CommandFault, OptionName};
use crate::words::{CommandWord, read_command_word, read_option_name, same};
use arimaa_board::{Color, Piece, Position, read_board};
use arimaa_notation::{first_item, read_number, read_setup, read_turn, trim};

/// What a controller's line says, without its line end.
///
/// Items are separated by one or more blanks, which may also stand at both ends. The first item is
/// the command's word, and the rest of the line its argument. `Unknown` is answered where the first
/// item is no command's word, or is `setoption` with a name that no option has. `Argument` is
/// answered where the rest of the line is not what belongs there. A `makemove` whose first item has
/// three bytes is read as a setup, of the side of its first letter.
#[tactic(auto, unfolding(crate::specs::Commands::command_of))]
pub fn read_command(line: &[u8]) -> Result<Command, CommandFault>
    ensures { result ≡ command_of line.now }
{
    let Some((word, rest)) = first_item(line) else {
        return Err(CommandFault::Unknown);
    };
    match read_command_word(word) {
        None => Err(CommandFault::Unknown),
        Some(word) => read_argument(word, rest),
    }
}

// The command of a first word, with the rest of its line.
fn read_argument(word: CommandWord, rest: &[u8]) -> Result<Command, CommandFault>
    ensures { result ≡ command_said (Some word) rest.now }
{
    match word {
        CommandWord::Aei => if_alone(rest, Command::Aei),
        CommandWord::IsReady => if_alone(rest, Command::IsReady),
        CommandWord::NewGame => if_alone(rest, Command::NewGame),
        CommandWord::SetPosition => read_position(rest),
        CommandWord::SetOption => read_option(rest),
        CommandWord::MakeMove => read_move(rest),
        CommandWord::Go => if_alone(rest, Command::Go),
        CommandWord::Stop => if_alone(rest, Command::Stop),
        CommandWord::Quit => if_alone(rest, Command::Quit),
    }
}

// A command that stands alone.
fn if_alone(rest: &[u8], command: Command) -> Result<Command, CommandFault>
    ensures { result ≡ alone (items_of rest.now) command }
{
    match first_item(rest) {
        None => Ok(command),
        Some(_) => Err(CommandFault::Argument),
    }
}

// The side that an item names.
fn read_side(item: &[u8]) -> Option<Color>
    ensures { result ≡ side_of item.now }
{
    match item {
        [b'g' | b'w'] => Some(Color::Gold),
        [b's' | b'b'] => Some(Color::Silver),
        _ => None,
    }
}

// The position of a side's letter and a board's text.
fn read_position(rest: &[u8]) -> Result<Command, CommandFault>
    ensures { result ≡ position_said rest.now }
{
    let Some((letter, text)) = first_item(rest) else {
        return Err(CommandFault::Argument);
    };
    let Some(side) = read_side(letter) else {
        return Err(CommandFault::Argument);
    };
    match read_board(trim(text)) {
        Ok(board) => Ok(Command::SetPosition(Position { board, side })),
        Err(_) => Err(CommandFault::Argument),
    }
}

// The option that is set, with its value.
fn read_option(rest: &[u8]) -> Result<Command, CommandFault>
    ensures { result ≡ option_said (items_of rest.now) }
{
    let Some((keyword, rest)) = first_item(rest) else {
        return Err(CommandFault::Argument);
    };
    let Some((name, rest)) = first_item(rest) else {
        return Err(CommandFault::Argument);
    };
    if !same(keyword, b"name") {
        return Err(CommandFault::Argument);
    }
    match read_option_name(name) {
        None => Err(CommandFault::Unknown),
        Some(name) => read_value(name, rest),
    }
}

// The value of an option.
fn read_value(name: OptionName, rest: &[u8]) -> Result<Command, CommandFault>
    ensures { result ≡ value_said name (items_of rest.now) }
{
    let Some((keyword, rest)) = first_item(rest) else {
        return Err(CommandFault::Argument);
    };
    let Some((number, rest)) = first_item(rest) else {
        return Err(CommandFault::Argument);
    };
    if !same(keyword, b"value") || first_item(rest).is_some() {
        return Err(CommandFault::Argument);
    }
    match read_number(number) {
        Some(value) => Ok(Command::SetOption { name, value }),
        None => Err(CommandFault::Argument),
    }
}

// The setup or the turn that is told.
fn read_move(rest: &[u8]) -> Result<Command, CommandFault>
    ensures { result ≡ move_said (word_of rest.now) rest.now }
{
    let Some((item, _)) = first_item(rest) else {
        return Err(CommandFault::Argument);
    };
    match item {
        [letter, _, _] => read_lineup(Piece::from_letter(*letter), rest),
        _ => match read_turn(rest) {
            Ok(turn) => Ok(Command::MakeMove(turn)),
            Err(_) => Err(CommandFault::Argument),
        },
    }
}

// The setup of a piece's side.
fn read_lineup(piece: Option<Piece>, text: &[u8]) -> Result<Command, CommandFault>
    ensures { result ≡ setup_said piece text.now }
{
    let Some(piece) = piece else {
        return Err(CommandFault::Argument);
    };
    match read_setup(text, piece.color) {
        Ok(setup) => Ok(Command::MakeSetup(setup)),
        Err(_) => Err(CommandFault::Argument),
    }
}
