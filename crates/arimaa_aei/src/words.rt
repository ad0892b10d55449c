//! The words of the protocol.
ghost use Rattle.std.specs.Prelude.{◌≡◌};
ghost use Rattle.std.specs.Str.{bytes_eq};
ghost use Rattle.arimaa_aei.specs.Words.{text_of_command_word, command_word_of, name_of, option_of, text_of_answer_word, answer_word_of};

use crate::command::OptionName;

/// The first word of a controller's line.
#[derive(Clone, Copy)]
pub enum CommandWord {
    Aei,
    IsReady,
    NewGame,
    SetPosition,
    SetOption,
    MakeMove,
    Go,
    Stop,
    Quit,
}

const COMMAND_WORDS: [CommandWord; 9] = [
    CommandWord::Aei,
    CommandWord::IsReady,
    CommandWord::NewGame,
    CommandWord::SetPosition,
    CommandWord::SetOption,
    CommandWord::MakeMove,
    CommandWord::Go,
    CommandWord::Stop,
    CommandWord::Quit,
];

const OPTION_NAMES: [OptionName; 8] = [
    OptionName::TcMove,
    OptionName::TcReserve,
    OptionName::TcPercent,
    OptionName::TcMax,
    OptionName::TcTotal,
    OptionName::TcTurnTime,
    OptionName::GReserve,
    OptionName::SReserve,
];

/// The first word of an engine's line that says something.
#[derive(Clone, Copy)]
pub enum AnswerWord {
    Version,
    Id,
    AeiOk,
    ReadyOk,
    BestMove,
    Info,
    Log,
}

const ANSWER_WORDS: [AnswerWord; 7] = [
    AnswerWord::Version,
    AnswerWord::Id,
    AnswerWord::AeiOk,
    AnswerWord::ReadyOk,
    AnswerWord::BestMove,
    AnswerWord::Info,
    AnswerWord::Log,
];

// Whether two texts are the same.
pub fn same(left: &[u8], right: &[u8]) -> bool
    ensures { result ≡ bytes_eq left.now right.now }
{
    left == right
}

/// The text of a controller's first word.
pub fn command_word_text(word: CommandWord) -> &'static [u8]
    ensures { result.now ≡ text_of_command_word word }
{
    match word {
        CommandWord::Aei => b"aei",
        CommandWord::IsReady => b"isready",
        CommandWord::NewGame => b"newgame",
        CommandWord::SetPosition => b"setposition",
        CommandWord::SetOption => b"setoption",
        CommandWord::MakeMove => b"makemove",
        CommandWord::Go => b"go",
        CommandWord::Stop => b"stop",
        CommandWord::Quit => b"quit",
    }
}

/// The name of an option in the protocol.
pub fn option_text(name: OptionName) -> &'static [u8]
    ensures { result.now ≡ name_of name }
{
    match name {
        OptionName::TcMove => b"tcmove",
        OptionName::TcReserve => b"tcreserve",
        OptionName::TcPercent => b"tcpercent",
        OptionName::TcMax => b"tcmax",
        OptionName::TcTotal => b"tctotal",
        OptionName::TcTurnTime => b"tcturntime",
        OptionName::GReserve => b"greserve",
        OptionName::SReserve => b"sreserve",
    }
}

/// The text of an engine's first word.
pub fn answer_word_text(word: AnswerWord) -> &'static [u8]
    ensures { result.now ≡ text_of_answer_word word }
{
    match word {
        AnswerWord::Version => b"protocol-version",
        AnswerWord::Id => b"id",
        AnswerWord::AeiOk => b"aeiok",
        AnswerWord::ReadyOk => b"readyok",
        AnswerWord::BestMove => b"bestmove",
        AnswerWord::Info => b"info",
        AnswerWord::Log => b"log",
    }
}

/// The controller's first word with this text.
#[tactic(auto, unfolding(crate::specs::Words::command_word_of))]
pub fn read_command_word(text: &[u8]) -> Option<CommandWord>
    ensures { result ≡ command_word_of text.now }
{
    COMMAND_WORDS
        .iter()
        .copied()
        .find(|word| same(command_word_text(*word), text))
}

/// The option with this name.
#[tactic(auto, unfolding(crate::specs::Words::option_of))]
pub fn read_option_name(text: &[u8]) -> Option<OptionName>
    ensures { result ≡ option_of text.now }
{
    OPTION_NAMES
        .iter()
        .copied()
        .find(|name| same(option_text(*name), text))
}

/// The engine's first word with this text.
#[tactic(auto, unfolding(crate::specs::Words::answer_word_of))]
pub fn read_answer_word(text: &[u8]) -> Option<AnswerWord>
    ensures { result ≡ answer_word_of text.now }
{
    ANSWER_WORDS
        .iter()
        .copied()
        .find(|word| same(answer_word_text(*word), text))
}
