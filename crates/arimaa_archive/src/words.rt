//! The words of a run.
ghost use Rattle.std.specs.Prelude.{◌≡◌, ◌≤◌, ◌↔◌, ℕ, Some, IfNone, IfSome, IsTrue};
ghost use Rattle.std.specs.Fmt.{decimal};
ghost use Rattle.arimaa_archive.specs.Words.{AreMisformed, AskFor, HaveOption};

use arimaa_outside::CommandWords;
use arimaa_record::read_number;

/// The most workers.
pub const MOST_WORKERS: u32 = 16;

/// The number of workers where the words ask for none.
pub const USUAL_WORKERS: u32 = 4;

// The number of workers that a word gives in decimal digits.
fn read_count(word: &str) -> Option<u32>
    ensures { (n : ℕ) → (result ≡ Some n)
        ↔ ((1 ≤ n) × (n ≤ MOST_WORKERS) × (word.now ≡ decimal n)) }
{
    match read_number(word.as_bytes()) {
        None => None,
        Some(number) => {
            if 1 <= number && number <= MOST_WORKERS as u64 {
                Some(number as u32)
            } else {
                None
            }
        }
    }
}

// Whether there are two words, the first of which is the option.
fn have_option(words: &CommandWords) -> bool
    ensures { IsTrue result ↔ HaveOption words.now }
{
    match words.get(0) {
        Some(first) => words.len() == 2 && first == "--workers",
        None => false,
    }
}

// The number of workers that the words ask for: `--workers` and a number from 1 to `MOST_WORKERS`,
// or no words. None exactly where they are in neither form.
pub(crate) fn read_workers(words: &CommandWords) -> Option<u32>
    ensures form { IfSome result (AskFor words.now) }
    ensures none { IfNone result (AreMisformed words.now) }
{
    if words.is_empty() {
        return Some(USUAL_WORKERS);
    }
    if !have_option(words) {
        return None;
    }
    let word = words.get(1)?;
    read_count(word)
}
