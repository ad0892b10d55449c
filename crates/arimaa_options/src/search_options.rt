//! Options and their reader.
ghost use Rattle.std.specs.Prelude.{◌≤◌, drop, length, IfNone, IfSome};
ghost use Rattle.arimaa_options.specs.declared.search_options.SearchOptions.{SearchOptions as Values};
ghost use Rattle.arimaa_options.specs.Options.{AreOptions, AreWithinRanges};

use crate::option_values::read_given;
use arimaa_outside::CommandWords;
use arimaa_pool::Settings;

/// The most positions that all workers together may hold at once.
pub const MOST_PLACES_OF_ALL: u64 = 4_194_304;

/// What options ask for.
#[derive(Clone, Copy, Debug, PartialEq, Eq)]
pub struct SearchOptions {
    /// The most turns of both sides within which a win is looked for, 0 to 20, where it is given.
    pub depth: Option<u8>,
    /// The number of workers, where it is given.
    pub workers: Option<u32>,
    /// How much a search may use.
    pub settings: Settings,
}

/// What the words from a place on ask for: options and their numbers, each at most once and in any
/// order. None exactly where they are not in this form.
///
/// `--depth` has a number of turns from 0 to 20. `--workers` has 1 to 16, and 4 where it isn't
/// given; `--lines` 1 to 262,144, and 65,536; `--budget` 1 to 2 to the power of 40, and 10,000,000;
/// `--room` 1 to 1,048,576, and 262,144. The room of all workers together is at most
/// `MOST_PLACES_OF_ALL`.
pub fn read_options(words: &CommandWords, from: usize) -> Option<SearchOptions>
    requires { from ≤ length words.now }
    ensures form { IfSome result (AreOptions (drop from words.now)) }
    ensures ranges { IfSome result AreWithinRanges }
    ensures none { IfNone result ((o : Values)
        → AreOptions (drop from words.now) o → ¬ AreWithinRanges o) }
{
    let options = read_given(words, from)?.options();
    let settings = options.settings;
    if u64::from(settings.workers) * u64::from(settings.room) <= MOST_PLACES_OF_ALL {
        Some(options)
    } else {
        None
    }
}
