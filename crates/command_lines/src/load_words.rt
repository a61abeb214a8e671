//! The words of `load`.

ghost use Rattle.std.specs.Prelude.{◌≡◌, ℕ, ◌≤◌, MatchOption};
ghost use Rattle.command_lines.specs.Commands.{AreLoad, texts};

use crate::commands::{count_of, seed_of};

/// The most pages.
const MOST_PAGES: u32 = 10_000;

/// What follows `load`: a seed, and a count of pages.
#[derive(Clone, Copy)]
pub struct LoadRun {
    pub seed: u64,
    pub count: u32,
    ghost some: { 1 ≤ count },
    ghost few: { count ≤ 10000 },
}

/// Reads what follows `load`.
pub(crate) fn load_line(words: &[String]) -> Option<LoadRun>
    ensures { MatchOption result ((seed count : ℕ) → AreLoad (texts words.now) seed count → ⊥) (λ run. AreLoad (texts words.now) run.seed run.count) }
{
    let [seed, count] = words else {
        return None;
    };
    let Some(seed) = seed_of(seed.as_str()) else {
        return None;
    };
    let Some(count) = count_of(count.as_str(), MOST_PAGES) else {
        return None;
    };
    Some(LoadRun { seed, count })
}
