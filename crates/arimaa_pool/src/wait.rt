//! A wait that ends.
use std::thread::yield_now;

// How often a gate looks for what it waits for.
const MOST_TURNS: u32 = 10_000_000;

/// Looks until the test holds, for at most 10,000,000 turns, and answers whether it held.
pub(crate) fn wait_until<F: Fn() -> bool>(test: &F) -> bool
    requires { F.IsAlwaysCallable test.now }
{
    for _ in 0..MOST_TURNS {
        if test() {
            return true;
        }
        yield_now();
    }
    false
}
