//! The fields of a text.
ghost use Rattle.std.specs.Prelude.{◌≡◌, ◌<◌, ◌↔◌, List, ℕ, IsTrue, drop, length, slice_get, option_copied};

use crate::spans::split_once;
use std::marker::Model;

/// The fields of a text that are not read yet. Slashes stand between them.
#[derive(Drop)]
pub struct Fields<'a> {
    left: Option<&'a [u8]>,
}

impl<'a> Model for Fields<'a> {
    ghost use Rattle.std.specs.Prelude.{List, ℕ, option_copied};
    ghost use Rattle.arimaa_time.specs.Fields.{fields_left};

    ghost Value = { List (List ℕ) };

    ghost view = { λ f. fields_left (option_copied f.left) };
}

impl<'a> Fields<'a> {
    ghost use Rattle.arimaa_time.specs.Fields.{fields};

    /// All fields of a text.
    pub fn of(text: &'a [u8]) -> Fields<'a>
        ensures { result ≡ fields text.now }
    {
        Fields { left: Some(text) }
    }

    /// The next field, if one is left.
    pub fn next_field(&mut self) -> Option<&'a [u8]>
        ensures value { option_copied result ≡ slice_get self.old 0 }
        ensures rest { self.new ≡ drop 1 self.old }
    {
        let text = self.left?;
        match split_once(text, b'/') {
            Some((field, rest)) => {
                self.left = Some(rest);
                Some(field)
            }
            None => {
                self.left = None;
                Some(text)
            }
        }
    }

    /// Whether a field is left.
    pub fn has_more(&self) -> bool
        ensures { IsTrue result ↔ (0 < length self.now) }
    {
        self.left.is_some()
    }
}
