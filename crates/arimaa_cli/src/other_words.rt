//! Words outside the plain form, as `clap` reads them.
ghost use Rattle.std.specs.Prelude.{◌≡◌, ◌≢◌, ◌++◌, [], List, ℕ, IfOk, IfSome, IfNone, OnOk, map, unwrap_or};
ghost use Rattle.clap.specs.Words.{app_of, first_of, found_of, rows_of};
ghost use Rattle.arimaa_cli.specs.OtherWords.{AreMatched, faults_of, option_in, rows_for, values_of, word_in, words_app};
ghost use Rattle.arimaa_cli.specs.Reading.{AreReadAs};

use crate::play::read_play;
use crate::words::read_command;
use arimaa_outside::CommandWords;
use clap::error::ErrorKind;
use clap::{Arg, ArgMatches, Command};
use std::alloc::{AllocError, Global};

// What `clap` reads after a command's name: up to three words, and options, each with a value. Help
// is off.
fn command<'a>(alloc: Global) -> Result<Command<'a>, AllocError>
    ensures { IfOk result (λ command. app_of command ≡ words_app) }
{
    Command::new(alloc, "arimaa")
        .disable_help_flag(true)
        .arg(Arg::new(alloc, "first"))?
        .arg(Arg::new(alloc, "second"))?
        .arg(Arg::new(alloc, "third"))?
        .arg(Arg::new(alloc, "--workers").long("workers"))?
        .arg(Arg::new(alloc, "--lines").long("lines"))?
        .arg(Arg::new(alloc, "--budget").long("budget"))?
        .arg(Arg::new(alloc, "--room").long("room"))
}

// What it finds in the words. None where it refuses them.
fn matches_of<'a>(alloc: Global, words: &'a [&'a str]) -> Result<Option<ArgMatches<'a>>, AllocError>
    ensures some { IfOk result (λ found. IfSome found (λ m.
        (faults_of (map (λ w. w.now) words.entry.now) ≡ [])
        × (rows_of (found_of m) ≡ rows_for (map (λ w. w.now) words.entry.now)))) }
    ensures none { IfOk result (λ found. IfNone found (
        faults_of (map (λ w. w.now) words.entry.now) ≢ [])) }
{
    match command(alloc)?.try_get_matches_from(words) {
        Ok(matches) => Ok(Some(matches)),
        Err(error) => match error.kind() {
            ErrorKind::OutOfMemory => Err(AllocError),
            _ => Ok(None),
        },
    }
}

// The words in a vector.
fn texts_of(alloc: Global, words: &CommandWords) -> Result<Vec<&str>, AllocError>
    ensures { IfOk result (λ texts. map (λ w. w.now) texts.items ≡ words.now) }
{
    let mut texts = Vec::new(alloc);
    for place in 0..words.len() {
        match words.get(place) {
            Some(word) => texts.push(word)?,
            None => unreachable!(),
        }
    }
    Ok(texts)
}

// Adds the word that matches give for one of the first three.
fn push_word(list: &mut CommandWords, matches: &ArgMatches, id: &str) -> Result<(), AllocError>
    ensures { OnOk result (list.new ≡ list.old ++ word_in id.now (rows_of (found_of matches.now))) }
{
    match matches.get_str(id) {
        Some(word) => list.push(word),
        None => Ok(()),
    }
}

// Adds an option with the value that matches give for it.
fn push_option(list: &mut CommandWords, matches: &ArgMatches, id: &str) -> Result<(), AllocError>
    ensures { OnOk result
        (list.new ≡ list.old ++ option_in id.now (rows_of (found_of matches.now))) }
{
    match matches.get_str(id) {
        Some(value) => {
            list.push(id)?;
            list.push(value)
        }
        None => Ok(()),
    }
}

// The words that matches give, in the order of the plain form.
fn words_in(alloc: Global, name: &str, matches: &ArgMatches) -> Result<CommandWords, AllocError>
    ensures { IfOk result (λ list. list ≡ values_of name.now (rows_of (found_of matches.now))) }
{
    let mut list = CommandWords::new(alloc);
    list.push(name)?;
    push_word(&mut list, matches, "first")?;
    push_word(&mut list, matches, "second")?;
    push_word(&mut list, matches, "third")?;
    push_option(&mut list, matches, "--workers")?;
    push_option(&mut list, matches, "--lines")?;
    push_option(&mut list, matches, "--budget")?;
    push_option(&mut list, matches, "--room")?;
    Ok(list)
}

// The list in the order of the plain form that `clap` reads from these words. None where it refuses
// them.
fn matched(alloc: Global, words: &CommandWords) -> Result<Option<CommandWords>, AllocError>
    ensures some { IfOk result (λ found. IfSome found (AreMatched words.now)) }
    ensures none { IfOk result (λ found. IfNone found (
        (list : List (List ℕ)) → ¬ AreMatched words.now list)) }
{
    let Some(name) = words.get(0) else {
        return Ok(None);
    };
    let texts = texts_of(alloc, words)?;
    match matches_of(alloc, texts.as_slice())? {
        None => Ok(None),
        Some(matches) => Ok(Some(words_in(alloc, name, &matches)?)),
    }
}

// The list that the words are read as, where it isn't the words themselves.
pub(crate) fn other_words(
    alloc: Global,
    words: &CommandWords,
) -> Result<Option<CommandWords>, AllocError>
    ensures { IfOk result (λ other. AreReadAs words.now (unwrap_or other words.now)) }
{
    if let Some(_) = read_command(words) {
        return Ok(None);
    }
    if let Some(_) = read_play(words) {
        return Ok(None);
    }
    matched(alloc, words)
}

// The other list, if there is one, and else the words themselves.
pub(crate) fn as_read<'a>(
    words: &'a CommandWords,
    other: &'a Option<CommandWords>,
) -> &'a CommandWords
    ensures { result.now ≡ unwrap_or other.now words.now }
{
    match other {
        Some(list) => list,
        None => words,
    }
}
