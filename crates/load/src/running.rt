//! The command `load`.

ghost use Rattle.std.specs.Prelude.{◌≡◌, ℕ, ◌+◌, ◌-◌, ◌*◌, ◌≤◌, [], IfOk};
ghost use Rattle.bits.specs.Bits.{word_bits};
ghost use Rattle.page_pool.specs.Pool.{Sound, pages};
ghost use Rattle.receiver.specs.Listeners.{StandsFor, is_one_of};
ghost use Rattle.load.specs.Counting.{HasHeardAll};
ghost use Rattle.load.specs.Draws.{draw, generator_at};
ghost use Rattle.load.specs.Loads.{IsLoad, Loads};
ghost use Rattle.load.specs.Subscribers.{load_capcodes, load_cells, load_settings};
ghost use Rattle.load.specs.WordNoises.{first_word_noise, preamble_words, second_word_noise};

use crate::counts::{Lines, hear_lines, hear_pages};
use crate::draws::Draws;
use crate::network::{CELLS, receivers, settings};
use crate::noises::{Flips, draw_flips};
use crate::report::Report;
use crate::sessions::feed_session;
use air::Words;
use codeword::BATCH_WORDS;
use endings::Status;
use page_pool::Pool;
use receiver::Group;
use std::alloc::Global;
use subscribers::Settings;
use tap_terminal::Terminal;
use wires::sink::Sink;
use wires::steps::{Steps, Work};
use wires::{Failed, Memory};

/// How many words the preamble has.
const PREAMBLE: u64 = 18;

/// What a run needs: settings, a pool, and two groups of receivers.
#[derive(Drop)]
struct Network {
    settings: Settings,
    pool: Pool,
    first: Group,
    second: Group,
}

impl Network {
    /// Takes all memory of a run.
    fn new(alloc: Global) -> Result<Network, Memory>
        ensures settings { IfOk result (λ n. n.settings ≡ load_settings) }
        ensures live { IfOk result (λ n. n.pool.live ≡ []) }
        ensures spare { IfOk result (λ n. n.pool.spare ≡ load_cells) }
        ensures first { IfOk result (λ n. (c : ℕ) → is_one_of n.first.capcodes c ≡ is_one_of load_capcodes c) }
        ensures second { IfOk result (λ n. (c : ℕ) → is_one_of n.second.capcodes c ≡ is_one_of load_capcodes c) }
        ensures first_unfed { IfOk result (λ n. StandsFor n.first []) }
        ensures second_unfed { IfOk result (λ n. StandsFor n.second []) }
    {
        let settings = settings(alloc)?;
        let pool = Pool::new(alloc, CELLS)?;
        let first = receivers(alloc)?;
        let second = receivers(alloc)?;
        Ok(Network {
            settings,
            pool,
            first,
            second,
        })
    }

    /// Runs the session of the draws, and what is heard of its pages.
    fn run(&mut self, seed: u64, count: u32) -> Report
        requires settings { self.old.settings ≡ load_settings }
        requires live { self.old.pool.live ≡ [] }
        requires spare { self.old.pool.spare ≡ load_cells }
        requires first { (c : ℕ) → is_one_of self.old.first.capcodes c ≡ is_one_of load_capcodes c }
        requires second { (c : ℕ) → is_one_of self.old.second.capcodes c ≡ is_one_of load_capcodes c }
        requires first_unfed { StandsFor self.old.first [] }
        requires second_unfed { StandsFor self.old.second [] }
        ensures { IsLoad seed count result }
    {
        let mut draws = Draws::of(seed);
        let mut terminal = Terminal::new(None);
        feed_session(
            count,
            &mut draws,
            &mut terminal,
            &self.settings,
            &mut self.pool,
        );
        let pages = u64::from(self.pool.count());
        let heard = hear_all(
            &mut self.pool,
            &mut draws,
            &mut self.first,
            &mut self.second,
        );
        Report {
            pages,
            batches: heard.words.saturating_sub(PREAMBLE) / u64::from(BATCH_WORDS),
            lines: heard.lines.count,
            bytes: heard.lines.bytes,
            sum: heard.lines.sum,
            kept: heard.kept,
        }
    }
}

/// What was counted of a transmission: its words, the lines of the pages that were heard through the first noise, and the pages that were
/// heard through the second.
#[derive(Clone, Copy, Debug, PartialEq, Eq)]
struct Heard {
    words: u64,
    lines: Lines,
    kept: u64,
}

/// The noise of the word of this number. The preamble has none.
fn flips_at(number: u64, draws: &mut Draws) -> Flips
    ensures further { (seed k : ℕ) → draws.old.generator ≡ generator_at seed (k + 3 * (number - preamble_words))
        → draws.new.generator ≡ generator_at seed (k + 3 * (number + 1 - preamble_words)) }
    ensures first { (seed k : ℕ) → draws.old.generator ≡ generator_at seed (k + 3 * (number - preamble_words)) → word_bits result.first ≡ first_word_noise (draw seed) k number }
    ensures second { (seed k : ℕ) → draws.old.generator ≡ generator_at seed (k + 3 * (number - preamble_words)) → word_bits result.second ≡ second_word_noise (draw seed) k number }
{
    if number < PREAMBLE {
        return Flips {
            first: 0,
            second: 0,
        };
    }
    draw_flips((number - PREAMBLE) % u64::from(BATCH_WORDS) != 0, draws)
}

/// Hears the transmission of a pool's pages, word by word: the first group through the first noise, and the second through the second.
fn hear_all(pool: &mut Pool, draws: &mut Draws, first: &mut Group, second: &mut Group) -> Heard
    requires { Sound pool.old }
    ensures first { first.new.capcodes ≡ first.old.capcodes }
    ensures second { second.new.capcodes ≡ second.old.capcodes }
    ensures heard { (seed k : ℕ) → draws.old.generator ≡ generator_at seed k → StandsFor first.old [] → StandsFor second.old []
        → HasHeardAll (draw seed) k (pages pool.old) first.new second.new result.words result.lines.count result.lines.bytes result.lines.sum result.kept }
{
    let mut steps = Steps::<Work>::new();
    let mut heard = Heard {
        words: 0,
        lines: Lines::NONE,
        kept: 0,
    };
    let mut words = Words::over(pool);
    while let Some(word) = words.next(&mut steps) {
        let flips = flips_at(heard.words, draws);
        heard.words += 1;
        hear_lines(word ^ flips.first, first, &mut steps, &mut heard.lines);
        hear_pages(word ^ flips.second, second, &mut steps, &mut heard.kept);
    }
    heard
}

/// Makes a session of so many pages, 1 to 10,000, from a seed, runs it through the terminal, hears the transmission of its pages through
/// two noises, and puts six lines about it. Memory comes before anything is put; OutFault where the put failed.
pub fn load<O: Sink>(alloc: Global, seed: u64, count: u32, out: &mut O) -> Status
    requires some { 1 ≤ count }
    requires few { count ≤ 10000 }
    ensures { Loads seed count (O.state out.old) (O.state out.new) result }
{
    let mut network = match Network::new(alloc) {
        Ok(network) => network,
        Err(Memory) => return Status::Memory,
    };
    let report = network.run(seed, count);
    match out.put(report.lines().as_slice()) {
        Ok(()) => Status::Done,
        Err(Failed) => Status::OutFault,
    }
}
