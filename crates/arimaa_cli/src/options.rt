//! The options of `prove` and `refute`, which say how much the search may use.
ghost use Rattle.std.specs.Prelude.{◌≤◌, drop, length, IfNone, IfSome};
ghost use Rattle.arimaa_pool.specs.declared.settings.Settings.{Settings as Amounts};
ghost use Rattle.arimaa_pool.specs.Limits.{AreWithinLimits};
ghost use Rattle.arimaa_cli.specs.Options.{AreOptions, AreOptionsOfOne};

use arimaa_options::read_options;
use arimaa_outside::CommandWords;
use arimaa_pool::Settings;

// What the words from a place on set, where they are options other than a depth.
pub(crate) fn read_settings(words: &CommandWords, from: usize) -> Option<Settings>
    requires { from ≤ length words.now }
    ensures form { IfSome result (AreOptions (drop from words.now)) }
    ensures limits { IfSome result AreWithinLimits }
    ensures none { IfNone result ((s : Amounts)
        → AreOptions (drop from words.now) s → ¬ AreWithinLimits s) }
{
    let options = read_options(words, from)?;
    match options.depth {
        Some(_) => None,
        None => Some(options.settings),
    }
}

// What the words from a place on set for one worker, where they are options other than a depth and
// a number of workers.
pub(crate) fn read_settings_of_one(words: &CommandWords, from: usize) -> Option<Settings>
    requires { from ≤ length words.now }
    ensures form { IfSome result (AreOptionsOfOne (drop from words.now)) }
    ensures limits { IfSome result AreWithinLimits }
    ensures none { IfNone result ((s : Amounts)
        → AreOptionsOfOne (drop from words.now) s → ¬ AreWithinLimits s) }
{
    let options = read_options(words, from)?;
    match (options.depth, options.workers) {
        (None, None) => Some(Settings {
            workers: 1,
            ..options.settings
        }),
        _ => None,
    }
}
