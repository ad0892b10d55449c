//! How far the bot looks ahead.
ghost use Rattle.std.specs.Prelude.{◌≡◌, IfNone, IfSome};
ghost use Rattle.arimaa_bot.specs.declared.lookahead.Lookahead.{Lookahead as Values};
ghost use Rattle.arimaa_bot.specs.Lookaheads.{AreWithinRanges, AskFor, lookahead_of};

use arimaa_options::{SearchOptions, read_options};
use arimaa_outside::CommandWords;
use arimaa_pool::Settings;

/// How far the bot looks ahead for a win.
#[derive(Clone, Copy, Debug, PartialEq, Eq)]
pub struct Lookahead {
    /// The most turns of both sides within which it looks for a win, 0 to 20.
    pub depth: u8,
    /// How much each search may use.
    pub settings: Settings,
}

// What options set. Where no depth is given, it is 1.
fn lookahead_of(options: SearchOptions) -> Lookahead
    ensures { result ≡ lookahead_of options }
{
    Lookahead {
        depth: options.depth.unwrap_or(1),
        settings: options.settings,
    }
}

// How far the words say that the bot looks ahead. None exactly where they are no options.
pub(crate) fn read_lookahead(words: &CommandWords) -> Option<Lookahead>
    ensures asked { IfSome result (AskFor words.now) }
    ensures ranges { IfSome result AreWithinRanges }
    ensures none { IfNone result ((l : Values) → ¬ AskFor words.now l) }
{
    let options = read_options(words, 0)?;
    Some(lookahead_of(options))
}
