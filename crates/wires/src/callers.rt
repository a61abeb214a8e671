//! Callers that are generic over the traits: each is proved from the clauses of its bounds alone.
ghost use Rattle.bits.specs.Bits.{bytes_bits, word_bits, words_bits};
ghost use Rattle.std.specs.Prelude.{◌≡◌, ◌≢◌, ℕ, ◌+◌, ◌-◌, ◌*◌, ◌<◌, ◌≤◌, ◌^◌, List, [], ◌++◌, length, IfOk, IsFalse, IsOk, IsTrue, OnErr, OnOk};
ghost use Rattle.wires.specs.Causes.{HasCause, Rose};
ghost use Rattle.wires.specs.Below.{KeepsBeside, Speaks};
ghost use Rattle.wires.specs.Files.{AppendsTo, SameAt, all_files};
ghost use Rattle.wires.specs.Stacked.{noisy_bits};
ghost use Rattle.wires.specs.Line.{wire_faults};
ghost use Rattle.wires.specs.Written.{Appends, Puts};

use crate::Failed;
use crate::byte_bits::ShelfBits;
use crate::fake_shelf::MemoryShelf;
use crate::shelf::{Appending, Shelf};
use crate::sink::{BitSink, Sink, WordBytes};
use crate::source::{BitSource, Noisy, Source};
use crate::steps::{Steps, Work};
use crate::wire::{Saying, Wire};
use std::sync::ledger::Ledger;

/// How copying ended.
#[derive(Clone, Copy, Debug, PartialEq, Eq)]
pub enum Copied {
    /// All is copied.
    Whole,
    SourceFailed,
    SinkFailed,
    /// More came than is copied in one call.
    TooLong,
}

/// Copies what the source has left into the sink.
pub fn copy<S: Source, K: Sink>(source: &mut S, sink: &mut K) -> Copied
    ensures whole { IsTrue (S.state source.old).tells → IsTrue (K.state sink.old).tells → result ≡ Copied.Whole
        → (K.state sink.new).held ≡ (K.state sink.old).held ++ (S.state source.old).left }
    ensures source_failed { result ≡ Copied.SourceFailed → Rose (S.state source.old).faults (S.state source.new).faults }
    ensures sink_failed { result ≡ Copied.SinkFailed → Rose (K.state sink.old).faults (K.state sink.new).faults }
    ensures too_long { IsTrue (S.state source.old).tells → result ≡ Copied.TooLong → 2 ^ 64 - 1 ≤ length (S.state source.old).left }
    ensures steady_source { IsTrue (S.state source.old).tells → IsTrue (S.state source.old).steady
        → (S.state source.new).faults ≡ (S.state source.old).faults }
    ensures steady_sink { IsTrue (K.state sink.old).tells → IsTrue (K.state sink.old).steady
        → IsTrue (S.state source.old).tells → length (S.state source.old).left ≤ (K.state sink.old).room
        → (K.state sink.new).faults ≡ (K.state sink.old).faults }
    ensures lent_source { (S.state source.new).lent ≡ (S.state source.old).lent }
    ensures lent_sink { (K.state sink.new).lent ≡ (K.state sink.old).lent }
{
    let mut buffer = [0; 4];
    for _ in 0..u64::MAX {
        match source.take(&mut buffer) {
            Ok(0) => return Copied::Whole,
            Ok(n) => match sink.put(&buffer[..n]) {
                Ok(()) => {}
                Err(Failed) => return Copied::SinkFailed,
            },
            Err(Failed) => return Copied::SourceFailed,
        }
    }
    Copied::TooLong
}

/// Takes one bit and gives it away.
pub fn skip<B: BitSource>(bits: &mut B) -> Result<bool, Failed>
    ensures skipped { IsTrue (B.state bits.old).tells → IfOk result (λ some. IsTrue some → length (B.state bits.old).left ≡ length (B.state bits.new).left + 1) }
    ensures end { IsTrue (B.state bits.old).tells → IfOk result (λ some. IsFalse some → (B.state bits.old).left ≡ []) }
    ensures there { IsTrue (B.state bits.old).tells → OnOk result (IsTrue (B.state bits.old).there) }
    ensures steady { IsTrue (B.state bits.old).tells → IsTrue (B.state bits.old).steady → (B.state bits.new).faults ≡ (B.state bits.old).faults }
    ensures cause { HasCause (B.state bits.old).faults (B.state bits.new).faults result }
    ensures lent { (B.state bits.new).lent ≡ (B.state bits.old).lent }
{
    Ok(bits.bit()?.is_some())
}

/// Writes two words.
pub fn two_words<K: BitSink>(sink: &mut K, first: u32, second: u32) -> Result<(), Failed>
    ensures { Puts (K.state sink.old) (K.state sink.new) (word_bits first ++ word_bits second) result }
{
    sink.word(first)?;
    sink.word(second)
}

/// Writes words over a sink of bytes.
pub fn words_over<K: Sink>(sink: &mut K, words: &[u32]) -> Result<(), Failed>
    ensures bits { IsTrue (K.state sink.old).tells → Appends (bytes_bits (K.state sink.old).held) (bytes_bits (K.state sink.new).held) (words_bits words.now) result }
    ensures steady { IsTrue (K.state sink.old).tells → IsTrue (K.state sink.old).steady → 4 * length words.now ≤ (K.state sink.old).room → IsOk result × IsTrue (K.state sink.new).steady }
    ensures cause { HasCause (K.state sink.old).faults (K.state sink.new).faults result }
    ensures lent { (K.state sink.new).lent ≡ (K.state sink.old).lent }
{
    let mut over = WordBytes::over(sink);
    over.words(words)
}

/// Makes a file that holds this piece and nothing else.
pub fn write_file<F: Shelf>(shelf: &mut F, name: &str, piece: &[u8]) -> Result<(), Failed>
    ensures written { IsTrue (F.state shelf.old).tells → OnOk result ((F.state shelf.new).file name.now ≡ piece.now) }
    ensures others { (other : List ℕ) → other ≢ name.now → SameAt (F.state shelf.old) (F.state shelf.new) other }
    ensures steady { IsTrue (F.state shelf.old).tells → IsTrue (F.state shelf.old).steady → IsTrue ((F.state shelf.old).there name.now)
        → length piece.now ≤ (F.state shelf.old).fresh_room → (F.state shelf.new).faults ≡ (F.state shelf.old).faults }
    ensures cause { HasCause (F.state shelf.old).faults (F.state shelf.new).faults result }
    ensures lent { (F.state shelf.new).lent ≡ (F.state shelf.old).lent }
{
    shelf.fresh(name)?;
    shelf.append(name, piece)
}

/// Whether a file holds a byte.
pub fn holds_a_byte<F: Shelf>(shelf: &mut F, name: &str) -> Result<bool, Failed>
    ensures byte { IsTrue (F.state shelf.old).tells → IfOk result (λ some. IsFalse some → (F.state shelf.old).file name.now ≡ []) }
    ensures there { IsTrue (F.state shelf.old).tells → OnOk result (IsTrue ((F.state shelf.old).there name.now)) }
    ensures others { (other : List ℕ) → SameAt (F.state shelf.old) (F.state shelf.new) other }
    ensures lent { (F.state shelf.new).lent ≡ (F.state shelf.old).lent }
{
    let mut buffer = [0; 1];
    Ok(shelf.read(name, 0, &mut buffer)? > 0)
}

/// Whether a file has a bit.
pub fn has_a_bit<F: Shelf>(shelf: &mut F, name: &str) -> Result<bool, Failed>
    ensures bit { IsTrue (F.state shelf.old).tells → IfOk result (λ some. IsFalse some → bytes_bits ((F.state shelf.old).file name.now) ≡ []) }
    ensures there { IsTrue (F.state shelf.old).tells → OnOk result (IsTrue ((F.state shelf.old).there name.now)) }
    ensures files { all_files (F.state shelf.new) ≡ all_files (F.state shelf.old) }
    ensures steady { IsTrue (F.state shelf.old).tells → IsTrue (F.state shelf.old).steady → IsTrue ((F.state shelf.old).there name.now)
        → (F.state shelf.new).faults ≡ (F.state shelf.old).faults }
    ensures cause { HasCause (F.state shelf.old).faults (F.state shelf.new).faults result }
    ensures lent { (F.state shelf.new).lent ≡ (F.state shelf.old).lent }
{
    let mut bits = ShelfBits::over(shelf, name);
    skip(&mut bits)
}

/// Appends words to a file.
pub fn append_words<F: Shelf>(shelf: &mut F, name: &str, words: &[u32]) -> Result<(), Failed>
    ensures bits { IsTrue (F.state shelf.old).tells → Appends (bytes_bits ((F.state shelf.old).file name.now)) (bytes_bits ((F.state shelf.new).file name.now)) (words_bits words.now) result }
    ensures beside { KeepsBeside (F.state shelf.old) (F.state shelf.new) name.now }
    ensures cause { HasCause (F.state shelf.old).faults (F.state shelf.new).faults result }
{
    let mut file = Appending::over(shelf, name);
    words_over(&mut file, words)
}

/// Appends two pieces to a file.
pub fn append_two<F: Shelf>(
    shelf: &mut F,
    name: &str,
    first: &[u8],
    second: &[u8],
) -> Result<(), Failed>
    ensures { AppendsTo (F.state shelf.old) (F.state shelf.new) name.now (first.now ++ second.now) result }
{
    let mut file = Appending::over(shelf, name);
    put_two(&mut file, first, second)
}

/// Puts two pieces.
fn put_two<K: Sink>(sink: &mut K, first: &[u8], second: &[u8]) -> Result<(), Failed>
    ensures { Puts (K.state sink.old) (K.state sink.new) (first.now ++ second.now) result }
{
    sink.put(first)?;
    sink.put(second)
}

/// Says two pieces on the open connection.
pub fn say_two<W: Wire>(wire: &mut W, first: &[u8], second: &[u8]) -> Result<(), Failed>
    ensures { Speaks (W.state wire.old) (W.state wire.new) (first.now ++ second.now) result }
{
    let mut open = Saying::over(wire);
    put_two(&mut open, first, second)
}

/// Whether there is a bit with noise.
pub fn skip_noisy<B: BitSource + Drop, N: BitSource>(bits: B, noise: &mut N) -> Result<bool, Failed>
    ensures end { IsTrue (B.state bits).tells → IsTrue (N.state noise.old).tells
        → IfOk result (λ some. IsFalse some → noisy_bits (B.state bits).left (N.state noise.old).left ≡ []) }
    ensures lent { (N.state noise.new).lent ≡ (N.state noise.old).lent }
{
    let mut noisy = Noisy::over(bits, noise);
    skip(&mut noisy)
}

/// Waits for a connection, answers what is heard first by one piece, and hangs up.
pub fn answer_one<W: Wire>(wire: &mut W, at: &str, piece: &[u8]) -> Result<bool, Failed>
    ensures answered { IsTrue (W.state wire.old).tells → IfOk result (λ came. IsTrue came
        → ((W.state wire.new).opened ≡ (W.state wire.old).opened + 1) × IsFalse (W.state wire.new).is_open
        × (((W.state wire.new).connection (W.state wire.old).opened).said ≡ piece.now)) }
    ensures none { IsTrue (W.state wire.old).tells → IfOk result (λ came. IsFalse came → (W.state wire.old).count ≤ (W.state wire.old).opened) }
    ensures lent { (W.state wire.new).lent ≡ (W.state wire.old).lent }
    ensures cause { OnErr result (Rose (wire_faults (W.state wire.old)) (wire_faults (W.state wire.new))) }
    ensures steady { IsTrue (W.state wire.old).tells → IsTrue (W.state wire.old).steady → (W.state wire.old).opened < (W.state wire.old).count
        → length piece.now ≤ ((W.state wire.old).connection (W.state wire.old).opened).room → wire_faults (W.state wire.new) ≡ wire_faults (W.state wire.old) }
{
    wire.listen(at)?;
    if !wire.next()? {
        return Ok(false);
    }
    let mut buffer = [0; 1];
    wire.hear(&mut buffer)?;
    wire.say(piece)?;
    wire.hang_up()?;
    Ok(true)
}

/// Dials and hangs up.
pub fn ring<W: Wire>(wire: &mut W, at: &str) -> Result<(), Failed>
    ensures rang { IsTrue (W.state wire.old).tells → OnOk result (((W.state wire.old).opened < (W.state wire.old).count)
        × ((W.state wire.new).opened ≡ (W.state wire.old).opened + 1) × IsFalse (W.state wire.new).is_open) }
    ensures blank { IsTrue (W.state wire.old).tells → OnOk result (((W.state wire.new).connection (W.state wire.old).opened).said ≡ []) }
    ensures lent { (W.state wire.new).lent ≡ (W.state wire.old).lent }
{
    wire.dial(at)?;
    wire.hang_up()
}

/// The first byte, by at most one step.
pub fn first_byte<L: Ledger>(bytes: &[u8], steps: &mut Steps<L>) -> Option<u8>
    ensures cost { steps.new ≤ steps.old + 1 }
{
    let first = *bytes.first()?;
    steps.tick();
    Some(first)
}

/// The first byte of each of two texts, in a counter of its own.
pub fn first_bytes(one: &[u8], two: &[u8]) -> (Option<u8>, Option<u8>, Steps<Work>)
    ensures cost { result.2 ≤ 2 }
{
    let mut steps = Steps::new();
    let first = first_byte(one, &mut steps);
    let second = first_byte(two, &mut steps);
    (first, second, steps)
}

/// Whether a file of a shelf in memory holds these bytes.
pub fn holds(shelf: &MemoryShelf, name: &str, bytes: &[u8]) -> bool {
    match shelf.bytes(name) {
        Some(held) => held == bytes,
        None => false,
    }
}
