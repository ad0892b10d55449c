//! The words that ask for a command.
ghost use Rattle.std.specs.Prelude.{◌≡◌, ◌<◌, ◌^◌, ◌≤◌, ◌↔◌, ℕ, List, IfNone, IfSome, IsTrue, Option, Some, codes};
ghost use Rattle.std.specs.Fmt.{decimal};
ghost use Rattle.arimaa_board.specs.declared.piece.Color.{Color as Side};
ghost use Rattle.arimaa_judge.specs.Texts.{side_word};
ghost use Rattle.arimaa_cli.specs.declared.commands.prove.Asked.{Asked as Inquiry};
ghost use Rattle.arimaa_cli.specs.declared.commands.Command.{Command as Order};
ghost use Rattle.arimaa_cli.specs.declared.commands.check.Checking.{Checking as Inspection};
ghost use Rattle.arimaa_cli.specs.declared.commands.make.Making.{Making as Wish};
ghost use Rattle.arimaa_cli.specs.declared.commands.Command.TheVariants as order;
ghost use Rattle.arimaa_cli.specs.declared.commands.Question.TheVariants as question;
ghost use Rattle.arimaa_cli.specs.Commands.{AreWords, IsNamed, IsTextWord};
ghost use Rattle.arimaa_cli.specs.Commands.Check.{AreCheckingWords, EndWithRoom, IsRoom};

use crate::commands::{
    Asked, Checking, Command, MOST_MADE, MOST_ROOM, MOST_TURNS, Making, Question,
};
use crate::options::{read_settings, read_settings_of_one};
use arimaa_board::Color;
use arimaa_options::read_up_to;
use arimaa_outside::CommandWords;
use std::marker::Model;

/// A word that stands for a text. It isn't empty, and begins with no dash.
#[derive(Drop)]
pub struct TextWord<'a> {
    word: &'a str,
}

impl<'a> Model for TextWord<'a> {
    ghost use Rattle.std.specs.Prelude.{List, ℕ};

    ghost Value = { List ℕ };

    ghost view = { λ t. t.word.now };
}

impl TextWord<'_> {
    /// The word.
    pub fn as_str(&self) -> &str
        ensures { result.now ≡ self.now }
    {
        self.word
    }

    /// The bytes of the word.
    pub fn as_bytes(&self) -> &[u8]
        ensures { result.now ≡ self.now }
    {
        self.word.as_bytes()
    }
}

// Whether there are so many words, the first of which is a command's name.
pub(crate) fn is_named(words: &CommandWords, name: &str, count: usize) -> bool
    ensures { IsTrue result ↔ IsNamed words.now name.now count }
{
    match words.get(0) {
        Some(first) => words.len() == count && first == name,
        None => false,
    }
}

// The side that a word names.
fn read_side(word: &str) -> Option<Color>
    ensures { (side : Side) → (result ≡ Some side) ↔ (word.now ≡ side_word side) }
{
    match word.as_bytes() {
        b"gold" => Some(Color::Gold),
        b"silver" => Some(Color::Silver),
        _ => None,
    }
}

// Whether a word may stand for a text.
fn is_text(word: &[u8]) -> bool
    ensures { IsTrue result ↔ IsTextWord word.now }
{
    match word {
        [] => false,
        [first, ..] => *first != b'-',
    }
}

// The text that a word stands for, if it may stand for one.
pub(crate) fn text_word(word: &str) -> Option<TextWord<'_>>
    ensures form { IfSome result (λ text. (text ≡ word.now) × IsTextWord word.now) }
    ensures none { IfNone result (¬ IsTextWord word.now) }
{
    if is_text(word.as_bytes()) {
        Some(TextWord { word })
    } else {
        None
    }
}

// What the words ask of `prove`: the name, a side, a number of turns, and options.
fn read_prove(words: &CommandWords) -> Option<Asked>
    ensures form { IfSome result (λ asked. AreWords words.now (order.Prove asked)) }
    ensures none { IfNone result ((asked : Inquiry)
        → ¬ AreWords words.now (order.Prove asked)) }
{
    if words.get(0)? != "prove" {
        return None;
    }
    let attacker = read_side(words.get(1)?)?;
    let depth = read_up_to(words.get(2)?, MOST_TURNS as u64)? as u8;
    let settings = read_settings(words, 3)?;
    Some(Asked {
        attacker,
        depth,
        settings,
    })
}

// The room that an option gives: its name and a number of positions.
fn read_room(name: &str, number: &str) -> Option<u32>
    ensures { (n : ℕ) → (result ≡ Some n)
        ↔ (IsRoom n × (name.now ≡ codes "--room") × (number.now ≡ decimal n)) }
{
    if name != "--room" {
        return None;
    }
    match read_up_to(number, u64::from(MOST_ROOM)) {
        None => None,
        Some(0) => None,
        Some(room) => Some(room as u32),
    }
}

// What the words ask of `refute`: the name, a side, a number of turns, and options for one worker.
fn read_refute(words: &CommandWords) -> Option<Asked>
    ensures form { IfSome result (λ asked. AreWords words.now (order.Refute asked)) }
    ensures none { IfNone result ((asked : Inquiry)
        → ¬ AreWords words.now (order.Refute asked)) }
{
    if words.get(0)? != "refute" {
        return None;
    }
    let attacker = read_side(words.get(1)?)?;
    let depth = read_up_to(words.get(2)?, MOST_TURNS as u64)? as u8;
    let settings = read_settings_of_one(words, 3)?;
    Some(Asked {
        attacker,
        depth,
        settings,
    })
}

// The room that the words after a command's name and two more give, if there are any.
fn read_last_room(words: &CommandWords, name: &str) -> Option<Option<u32>>
    ensures form { IfSome result (λ room. EndWithRoom name.now words.now room) }
    ensures none { IfNone result ((room : Option ℕ) → ¬ EndWithRoom name.now words.now room) }
{
    if is_named(words, name, 3) {
        return Some(None);
    }
    if !is_named(words, name, 5) {
        return None;
    }
    match read_room(words.get(3)?, words.get(4)?) {
        None => None,
        Some(room) => Some(Some(room)),
    }
}

// What the words ask of a command of this name: a side, a number of turns, and maybe a room.
fn read_checking(words: &CommandWords, name: &str) -> Option<Checking>
    ensures form { IfSome result (AreCheckingWords name.now words.now) }
    ensures none { IfNone result ((asked : Inspection)
        → ¬ AreCheckingWords name.now words.now asked) }
{
    let room = read_last_room(words, name)?;
    let attacker = read_side(words.get(1)?)?;
    let depth = read_up_to(words.get(2)?, u64::from(MOST_TURNS))? as u8;
    Some(Checking {
        attacker,
        depth,
        room,
    })
}

// What the words ask of `make`: the name, a number and a number of turns.
fn read_make(words: &CommandWords) -> Option<Making>
    ensures form { IfSome result (λ asked. AreWords words.now (order.Make asked)) }
    ensures none { IfNone result ((asked : Wish) → ¬ AreWords words.now (order.Make asked)) }
{
    if !is_named(words, "make", 3) {
        return None;
    }
    let number = read_up_to(words.get(1)?, u64::MAX)?;
    let turns = read_up_to(words.get(2)?, MOST_MADE)?;
    Some(Making { number, turns })
}

// The text that the words ask `control` about.
#[tactic(auto, using(crate::proofs::CommandForms::words))]
fn read_control(words: &CommandWords) -> Option<TextWord<'_>>
    ensures form { IfSome result (λ text. AreWords words.now (order.Control text)) }
    ensures none { IfNone result ((text : List ℕ) → ¬ AreWords words.now (order.Control text)) }
{
    if !is_named(words, "control", 2) {
        return None;
    }
    text_word(words.get(1)?)
}

/// The command that the words are in the form of. None exactly where they are in no command's form.
#[tactic(auto, using(crate::proofs::CommandForms::words))]
pub fn read_command(words: &CommandWords) -> Option<Command<'_>>
    ensures form { IfSome result (AreWords words.now) }
    ensures none { IfNone result ((command : Order) → ¬ AreWords words.now command) }
{
    if is_named(words, "judge", 1) {
        return Some(Command::About(Question::Judge));
    }
    if is_named(words, "show", 1) {
        return Some(Command::About(Question::Show));
    }
    if let Some(asked) = read_prove(words) {
        return Some(Command::Prove(asked));
    }
    if let Some(asked) = read_checking(words, "check") {
        return Some(Command::Check(asked));
    }
    if let Some(asked) = read_refute(words) {
        return Some(Command::Refute(asked));
    }
    if let Some(asked) = read_checking(words, "verify") {
        return Some(Command::Verify(asked));
    }
    if let Some(text) = read_control(words) {
        return Some(Command::Control(text));
    }
    if let Some(asked) = read_make(words) {
        return Some(Command::Make(asked));
    }
    None
}
