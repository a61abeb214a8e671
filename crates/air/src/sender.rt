//! The transmission of a pool's pages, written to a sink.

ghost use Rattle.std.specs.Prelude.{◌≡◌, ◌≢◌, ◌+◌, ◌*◌, ◌<◌, ◌≤◌, ◌^◌, ◌++◌, ℕ, List, [], ◌∷◌, IfOk, OnOk, OnErr, drop, length, take};
ghost use Rattle.bits.specs.Bits.{words_bits};
ghost use Rattle.codeword.specs.declared.words.TheConstants.{SYNC};
ghost use Rattle.page_text.specs.Page.{Page};
ghost use Rattle.page_pool.specs.Pool.{pages};
ghost use Rattle.scheduler.specs.Sendings.{KeepsPool};
ghost use Rattle.scheduler.specs.Pooled.{ScheduleStands, lender, pool_of, slots_left};
ghost use Rattle.scheduler.specs.declared.slots.Slot.{Slot};
ghost use Rattle.wires.specs.Written.{Puts};
ghost use Rattle.air.specs.Air.{preamble, transmission};
ghost use Rattle.air.specs.Sends.{HasBatches, SendsTransmission, SendingStops, most_slots, words_of_slots};

use crate::codewords::word;
use arrayvec::ArrayVec;
use codeword::{BATCH_WORDS, SLOTS, SYNC};
use page_pool::Pool;
use scheduler::Schedule;
use std::sync::ledger::Ledger;
use wires::Failed;
use wires::sink::BitSink;
use wires::steps::Steps;

/// 32 bits of the preamble (M.584-2: reversals, 1 first).
pub(crate) const FILLER: u32 = 0xAAAA_AAAA;

/// How many words the preamble has: 576 bits (M.584-2).
pub(crate) const PREAMBLE: usize = 18;

/// The room for the words of a batch.
const BATCH: usize = BATCH_WORDS as usize;

/// What was sent.
#[derive(Clone, Copy, Debug, PartialEq, Eq)]
pub struct Sent {
    /// How many pages.
    pub pages: u32,
    /// In how many batches.
    pub batches: u32,
}

/// Writes the transmission of a pool's pages, the preamble and then a batch at a time, and empties the pool. A pool without pages
/// gives no transmission: nothing is written.
///
/// It fails only where the sink does. The pool then holds the pages whose runs weren't handed to the sink whole, in order. A word
/// counts as handed also where the call with its batch failed.
///
/// It counts a step for each slot in which it looks at the head of a page.
pub fn transmit<K: BitSink, L: Ledger>(
    pool: &mut Pool,
    sink: &mut K,
    steps: &mut Steps<L>,
) -> Result<Sent, Failed>
    ensures sends { SendsTransmission (pages pool.old) (K.state sink.old) (K.state sink.new) result }
    ensures pages { IfOk result (λ sent. sent.pages ≡ length pool.old.live) }
    ensures batches { IfOk result (λ sent. HasBatches (pages pool.old) sent.batches) }
    ensures few { IfOk result (λ sent. SLOTS * sent.batches ≤ most_slots (pages pool.old)) }
    ensures empties { OnOk result (pool.new.live ≡ []) }
    ensures stops { OnErr result (SendingStops (pages pool.old) (K.state sink.old) (K.state sink.new) (pages pool.new)) }
    ensures keeps { KeepsPool pool.old pool.new }
    ensures later { steps.old ≤ steps.new }
    ensures heads { IfOk result (λ sent. steps.new ≤ steps.old + SLOTS * sent.batches) }
{
    let pages = pool.count();
    if pages == 0 {
        return Ok(Sent { pages, batches: 0 });
    }
    let mut schedule = Schedule::over(pool);
    let batches = send(&mut schedule, sink, steps)?;
    Ok(Sent { pages, batches })
}

/// Writes the preamble and the batches of what is still to come. Answers how many batches.
fn send<K: BitSink, L: Ledger>(
    schedule: &mut Schedule<'_>,
    sink: &mut K,
    steps: &mut Steps<L>,
) -> Result<u32, Failed>
    requires whole { (b : ℕ) × (length (slots_left schedule.old) ≡ SLOTS * b) }
    requires few { length (slots_left schedule.old) < 2 ^ 32 }
    ensures lends { lender schedule.new ≡ lender schedule.old }
    ensures puts { Puts (K.state sink.old) (K.state sink.new) (words_bits (transmission (words_of_slots (slots_left schedule.old)))) result }
    ensures batches { IfOk result (λ b. length (slots_left schedule.old) ≡ SLOTS * b) }
    ensures empties { OnOk result (pages (pool_of schedule.new) ≡ []) }
    ensures stops { OnErr result ((accepted : List Page) → ScheduleStands accepted [] schedule.old → SendingStops accepted (K.state sink.old) (K.state sink.new) (pages (pool_of schedule.new))) }
    ensures keeps { KeepsPool (pool_of schedule.old) (pool_of schedule.new) }
    ensures later { steps.old ≤ steps.new }
    ensures heads { IfOk result (λ b. steps.new ≤ steps.old + SLOTS * b) }
{
    send_preamble(sink)?;
    let mut batches = 0;
    while !schedule.done() {
        let words = batch(schedule, steps);
        sink.words(words.as_slice())?;
        batches += 1;
    }
    Ok(batches)
}

/// Writes the preamble.
fn send_preamble<K: BitSink>(sink: &mut K) -> Result<(), Failed>
    ensures { Puts (K.state sink.old) (K.state sink.new) (words_bits preamble) result }
{
    sink.words(&[FILLER; PREAMBLE])
}

/// The next batch: the sync word and its slots.
fn batch<L: Ledger>(schedule: &mut Schedule<'_>, steps: &mut Steps<L>) -> ArrayVec<u32, BATCH>
    requires { SLOTS ≤ length (slots_left schedule.old) }
    ensures lends { lender schedule.new ≡ lender schedule.old }
    ensures words { result.items ≡ SYNC ∷ words_of_slots (take SLOTS (slots_left schedule.old)) }
    ensures left { slots_left schedule.new ≡ drop SLOTS (slots_left schedule.old) }
    ensures stands { (accepted : List Page) (given : List Slot) → ScheduleStands accepted given schedule.old → ScheduleStands accepted (given ++ take SLOTS (slots_left schedule.old)) schedule.new }
    ensures keeps { KeepsPool (pool_of schedule.old) (pool_of schedule.new) }
    ensures later { steps.old ≤ steps.new }
    ensures heads { steps.new ≤ steps.old + SLOTS }
{
    let mut words = ArrayVec::new();
    words.push(SYNC);
    for _ in 0..SLOTS {
        words.push(word(schedule.slot(steps)));
    }
    words
}
