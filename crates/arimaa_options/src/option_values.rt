//! The numbers that options give.
ghost use Rattle.std.specs.Prelude.{◌≡◌, ◌≤◌, ◌↔◌, ℕ, Some, drop, length, is_some, IfNone, IfSome};
ghost use Rattle.std.specs.Fmt.{decimal};
ghost use Rattle.arimaa_options.specs.declared.option_values.Given.{Given as Numbers};
ghost use Rattle.arimaa_options.specs.declared.setting.Setting.{Setting as Name};
ghost use Rattle.arimaa_options.specs.Options.{Give, IsOption, given_for, most_of, nothing_given, options_of, with_number};

use crate::search_options::SearchOptions;
use crate::setting::Setting;
use arimaa_notation::read_number;
use arimaa_outside::CommandWords;
use arimaa_pool::Settings;

// The numbers that options give.
#[derive(Clone, Copy, Debug, PartialEq, Eq)]
pub(crate) struct Given {
    depth: Option<u8>,
    workers: Option<u32>,
    lines: Option<u32>,
    budget: Option<u64>,
    room: Option<u32>,
}

impl Given {
    // No option is given.
    fn nothing() -> Given
        ensures { result ≡ nothing_given }
    {
        Given {
            depth: None,
            workers: None,
            lines: None,
            budget: None,
            room: None,
        }
    }

    // Whether a number is given for a setting.
    fn has(&self, setting: Setting) -> bool
        ensures { result ≡ is_some (given_for setting self.now) }
    {
        match setting {
            Setting::Depth => self.depth.is_some(),
            Setting::Workers => self.workers.is_some(),
            Setting::Lines => self.lines.is_some(),
            Setting::Budget => self.budget.is_some(),
            Setting::Room => self.room.is_some(),
        }
    }

    // With a number for a setting.
    fn with(self, setting: Setting, number: u64) -> Given
        requires { number ≤ most_of setting }
        ensures { result ≡ with_number setting number self }
    {
        let mut given = self;
        match setting {
            Setting::Depth => given.depth = Some(number as u8),
            Setting::Workers => given.workers = Some(number as u32),
            Setting::Lines => given.lines = Some(number as u32),
            Setting::Budget => given.budget = Some(number),
            Setting::Room => given.room = Some(number as u32),
        }
        given
    }

    // What the numbers set. What isn't given of the settings has its usual value.
    pub(crate) fn options(self) -> SearchOptions
        ensures { result ≡ options_of self }
    {
        SearchOptions {
            depth: self.depth,
            workers: self.workers,
            settings: Settings {
                workers: self.workers.unwrap_or(4),
                lines: self.lines.unwrap_or(65_536),
                budget: self.budget.unwrap_or(10_000_000),
                room: self.room.unwrap_or(262_144),
            },
        }
    }
}

// What is given where two words are an option and its number.
fn read_option(given: Given, name: &str, number: &str) -> Option<Given>
    ensures form { IfSome result (λ after. (o : Name) × (n : ℕ)
        × IsOption given name.now number.now o n × (after ≡ with_number o n given)) }
    ensures none { IfNone result ((o : Name) (n : ℕ) → ¬ IsOption given name.now number.now o n) }
{
    let setting = Setting::named(name)?;
    let number = read_up_to(number, setting.most())?;
    if number < setting.least() || given.has(setting) {
        return None;
    }
    Some(given.with(setting, number))
}

/// The number up to a bound that a word gives in decimal digits.
pub fn read_up_to(word: &str, most: u64) -> Option<u64>
    ensures { (n : ℕ) → (result ≡ Some n) ↔ ((n ≤ most) × (word.now ≡ decimal n)) }
{
    match read_number(word.as_bytes()) {
        None => None,
        Some(number) => { if number <= most { Some(number) } else { None } }
    }
}

// What is given by the words from a place on.
pub(crate) fn read_given(words: &CommandWords, from: usize) -> Option<Given>
    requires { from ≤ length words.now }
    ensures form { IfSome result (Give nothing_given (drop from words.now)) }
    ensures none { IfNone result ((after : Numbers)
        → ¬ Give nothing_given (drop from words.now) after) }
{
    let mut given = Given::nothing();
    let mut place = from;
    while place < words.len() {
        let name = words.get(place)?;
        let number = words.get(place + 1)?;
        given = read_option(given, name, number)?;
        place += 2;
    }
    Some(given)
}
