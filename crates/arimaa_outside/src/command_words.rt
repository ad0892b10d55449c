//! The words of a command line.
ghost use Rattle.std.specs.Prelude.{◌≡◌, ◌≤◌, ◌++◌, ◌∷◌, [], ◌↔◌, IsNone, IsTrue, OnErr, OnOk, length, option_map, slice_get};

use std::alloc::{AllocError, Global};
use std::marker::Model;
use std::rt::Env;
use std::{env, io};

/// The words of a command line in order, without the program's own name.
#[derive(Drop)]
pub struct CommandWords {
    alloc: Global,
    words: Vec<String>,
}

impl Model for CommandWords {
    ghost use Rattle.std.specs.Prelude.{List, ℕ, map, string_bytes};

    ghost Value = { List (List ℕ) };

    ghost view = { λ c. map string_bytes c.words.items };
}

impl CommandWords {
    /// No words. It takes no memory.
    pub fn new(alloc: Global) -> Self
        ensures { result ≡ [] }
    {
        CommandWords {
            alloc,
            words: Vec::new(alloc),
        }
    }

    /// The words after the program's own name. Where one of them is not UTF-8 there is one word
    /// alone, an empty one, which is in no program's form.
    ///
    /// # Errors
    ///
    /// Where no memory is left.
    pub fn of_program(rt: &(impl Env + AllocGlobal)) -> Result<Self, AllocError> {
        let mut words = CommandWords::new(rt.alloc());
        match env::args(rt) {
            Ok(args) => {
                for word in args.skip(1) {
                    words.push(word.as_str())?;
                }
            }
            Err(error) => {
                if error.kind() == io::ErrorKind::OutOfMemory {
                    return Err(AllocError);
                }
                words.push("")?;
            }
        }
        Ok(words)
    }

    /// Adds a word at the end.
    ///
    /// # Errors
    ///
    /// Where no memory is left. The words are as before.
    pub fn push(&mut self, word: &str) -> Result<(), AllocError>
        ensures ok { OnOk result (self.new ≡ self.old ++ word.now ∷ []) }
        ensures err { OnErr result (self.new ≡ self.old) }
    {
        let word = String::from_str(self.alloc, word)?;
        self.words.push(word)?;
        Ok(())
    }

    /// How many words there are.
    pub fn len(&self) -> usize
        ensures { result ≡ length self.now }
    {
        self.words.len()
    }

    /// Whether there are none.
    pub fn is_empty(&self) -> bool
        ensures { IsTrue result ↔ (self.now ≡ []) }
    {
        self.words.is_empty()
    }

    /// The word at this place, from 0, or `None` from `len` on.
    pub fn get(&self, k: usize) -> Option<&str>
        ensures word { option_map (λ word. word.now) result ≡ slice_get self.now k }
        ensures none { IsNone result ↔ (length self.now ≤ k) }
    {
        Some(self.words.get(k)?.as_str())
    }
}
