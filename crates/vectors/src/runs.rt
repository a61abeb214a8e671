//! A run of the program over objects in memory, and what it left; and the bytes of transmissions: docs/profile.md, "preamble" and "batch".

ghost use Rattle.std.specs.Prelude.{◌≡◌, ◌<◌, IfOk};
ghost use Rattle.wires.specs.FakeWire.{wire_tells};

use station::{Status, run};
use std::alloc::{AllocError, Global};
use std::test::Fail;
use wires::fake_shelf::MemoryShelf;
use wires::fake_wire::MemoryWire;
use wires::fakes::{MemorySink, MemorySource};
use wires::shelf::Shelf;
use wires::sink::Sink;
use wires::source::Source;
use wires::wire::Wire;

/// How many bytes can be said, written, or appended to a file.
const ROOM: usize = 2400;

/// The file that a station makes fresh.
const AIR: &str = "air.bin";

/// An object that a run is handed.
#[derive(Clone, Copy, PartialEq, Eq)]
pub(crate) enum Object {
    Wire,
    Shelf,
    Input,
    Output,
    Errors,
}

/// The objects of a run. `faults` has the calls that fail, each by its object and its number among the calls of this object, from 1.
#[derive(Clone, Copy)]
pub(crate) struct Objects<'a> {
    /// What is heard on the one connection.
    pub(crate) heard: &'a [u8],
    pub(crate) files: &'a [(String, Vec<u8>)],
    pub(crate) input: &'a [u8],
    /// How many bytes the wire and the input give at a time, at most. It is at least 1.
    pub(crate) cut: usize,
    pub(crate) faults: &'a [(Object, u64)],
}

/// What a run left.
#[derive(Drop)]
pub(crate) struct Left {
    pub(crate) status: Status,
    /// What was said on the connection.
    pub(crate) said: Vec<u8>,
    /// For each time that something was heard, how many bytes had been heard and how many said before it.
    pub(crate) turns: Vec<(u64, u64)>,
    pub(crate) out: Vec<u8>,
    pub(crate) err: Vec<u8>,
    /// The file `air.bin`.
    pub(crate) air: Option<Vec<u8>>,
    /// Whether it is as it was.
    pub(crate) air_stands: bool,
    /// Whether every other file is as it was.
    pub(crate) others_stand: bool,
    /// Whether the run made all the calls that were to fail.
    pub(crate) failed: bool,
}

/// These words, each as a text of its own.
pub(crate) fn texts(alloc: Global, words: &[&str]) -> Result<Vec<String>, AllocError> {
    let mut owned = Vec::new(alloc);
    for word in words {
        owned.push(String::from_str(alloc, *word)?)?;
    }
    Ok(owned)
}

/// These files.
pub(crate) fn files(
    alloc: Global,
    files: &[(&str, &[u8])],
) -> Result<Vec<(String, Vec<u8>)>, AllocError> {
    let mut owned = Vec::new(alloc);
    for (name, bytes) in files {
        owned.push((
            String::from_str(alloc, *name)?,
            Vec::from_slice(alloc, *bytes)?,
        ))?;
    }
    Ok(owned)
}

/// The pieces, each with so many letters A behind it.
pub(crate) fn spelled(alloc: Global, pieces: &[(&[u8], usize)]) -> Result<Vec<u8>, AllocError> {
    let mut bytes = Vec::new(alloc);
    for (piece, letters) in pieces {
        bytes.extend_from_slice(*piece)?;
        push_letters(*letters, &mut bytes)?;
    }
    Ok(bytes)
}

/// The pieces, one behind the other.
pub(crate) fn joined(alloc: Global, pieces: &[&[u8]]) -> Result<Vec<u8>, AllocError> {
    let mut bytes = Vec::new(alloc);
    for piece in pieces {
        bytes.extend_from_slice(*piece)?;
    }
    Ok(bytes)
}

/// Appends so many letters A.
fn push_letters(letters: usize, bytes: &mut Vec<u8>) -> Result<(), AllocError> {
    for _ in 0..letters {
        bytes.push(b'A')?;
    }
    Ok(())
}

/// The numbers of the calls of an object that fail.
fn calls_of(
    alloc: Global,
    object: Object,
    faults: &[(Object, u64)],
) -> Result<Vec<u64>, AllocError> {
    let mut calls = Vec::new(alloc);
    for (failing, call) in faults {
        if *failing == object {
            calls.push(*call)?;
        }
    }
    Ok(calls)
}

/// A run over these objects. The wire has as many connections as before.
fn ran<W: Wire, F: Shelf, I: Source, O: Sink, E: Sink>(
    alloc: Global,
    words: &[String],
    wire: &mut W,
    shelf: &mut F,
    input: &mut I,
    out: &mut O,
    err: &mut E,
) -> Status
    ensures { (W.state wire.new).count ≡ (W.state wire.old).count }
{
    run(alloc, words, wire, shelf, input, out, err)
}

/// The wire of a run, which has one connection.
fn wire_of(alloc: Global, objects: Objects<'_>) -> Result<MemoryWire, Fail>
    ensures { IfOk result (λ wire. 0 < (wire_tells wire).count) }
{
    let heard = [Vec::from_slice(alloc, objects.heard)?];
    let calls = calls_of(alloc, Object::Wire, objects.faults)?;
    Ok(MemoryWire::new(alloc, &heard, objects.cut.max(1), ROOM, &calls)?)
}

/// The shelf of a run.
fn shelf_of(alloc: Global, objects: Objects<'_>) -> Result<MemoryShelf, Fail> {
    let calls = calls_of(alloc, Object::Shelf, objects.faults)?;
    Ok(MemoryShelf::new(alloc, objects.files, ROOM, &calls)?)
}

/// The input of a run.
fn input_of(alloc: Global, objects: Objects<'_>) -> Result<MemorySource, Fail> {
    let calls = calls_of(alloc, Object::Input, objects.faults)?;
    Ok(MemorySource::new(alloc, objects.input, objects.cut.max(1), &calls)?)
}

/// The output or the error stream of a run, with room for so many bytes.
fn sink_of(
    alloc: Global,
    object: Object,
    objects: Objects<'_>,
    room: usize,
) -> Result<MemorySink, Fail> {
    let calls = calls_of(alloc, object, objects.faults)?;
    Ok(MemorySink::new(alloc, room, &calls)?)
}

/// The bytes of the file `air.bin`.
fn air_in(alloc: Global, shelf: &MemoryShelf) -> Result<Option<Vec<u8>>, AllocError> {
    match shelf.bytes(AIR) {
        Some(bytes) => Ok(Some(Vec::from_slice(alloc, bytes)?)),
        None => Ok(None),
    }
}

/// Whether `air.bin` is as it was: it holds what it held, or isn't there.
fn air_stands(shelf: &MemoryShelf, files: &[(String, Vec<u8>)]) -> bool {
    for (name, bytes) in files {
        if name.as_str() == AIR {
            return shelf.bytes(AIR) == Some(bytes.as_slice());
        }
    }
    shelf.bytes(AIR).is_none()
}

/// Whether all files but `air.bin` hold what they held.
fn others_stand(shelf: &MemoryShelf, files: &[(String, Vec<u8>)]) -> bool {
    for (name, bytes) in files {
        let name = name.as_str();
        if name != AIR && shelf.bytes(name) != Some(bytes.as_slice()) {
            return false;
        }
    }
    true
}

/// The number of the last call of an object that is to fail, or 0.
fn last_call(object: Object, faults: &[(Object, u64)]) -> u64 {
    let mut last = 0;
    for (failing, call) in faults {
        if *failing == object {
            last = last.max(*call);
        }
    }
    last
}

/// Whether the wire was called so often. If not, one of as many further calls is the one that is to fail.
fn was_wire_called(wire: &mut MemoryWire, last: u64) -> bool {
    for _ in 0..last {
        if wire.listen("").is_err() {
            return false;
        }
    }
    true
}

/// The same of the shelf. A file that is there or was made fresh can be made fresh again.
fn was_shelf_called(shelf: &mut MemoryShelf, last: u64) -> bool {
    for _ in 0..last {
        if shelf.fresh(AIR).is_err() {
            return false;
        }
    }
    true
}

/// The same of the input.
fn was_source_called(source: &mut MemorySource, last: u64) -> bool {
    for _ in 0..last {
        if source.take(&mut [0]).is_err() {
            return false;
        }
    }
    true
}

/// The same of the output or the error stream.
fn was_sink_called(sink: &mut MemorySink, last: u64) -> bool {
    for _ in 0..last {
        if sink.put(b"").is_err() {
            return false;
        }
    }
    true
}

/// What the objects hold after a run.
fn left_by(
    alloc: Global,
    status: Status,
    wire: &MemoryWire,
    shelf: &MemoryShelf,
    out: &MemorySink,
    err: &MemorySink,
    files: &[(String, Vec<u8>)],
) -> Result<Left, Fail>
    requires { 0 < (wire_tells wire.now).count }
{
    Ok(Left {
        status,
        said: Vec::from_slice(alloc, wire.said(0))?,
        turns: Vec::from_slice(alloc, wire.turns(0))?,
        out: Vec::from_slice(alloc, out.bytes())?,
        err: Vec::from_slice(alloc, err.bytes())?,
        air: air_in(alloc, shelf)?,
        air_stands: air_stands(shelf, files),
        others_stand: others_stand(shelf, files),
        failed: false,
    })
}

/// Runs the program with these words over these objects.
pub(crate) fn run_over(alloc: Global, words: &[&str], objects: Objects<'_>) -> Result<Left, Fail> {
    run_into(alloc, words, objects, ROOM)
}

/// Runs the program with these words over these objects and an output with room for so many bytes.
pub(crate) fn run_into(
    alloc: Global,
    words: &[&str],
    objects: Objects<'_>,
    room: usize,
) -> Result<Left, Fail> {
    let words = texts(alloc, words)?;
    let mut wire = wire_of(alloc, objects)?;
    let mut shelf = shelf_of(alloc, objects)?;
    let mut input = input_of(alloc, objects)?;
    let mut out = sink_of(alloc, Object::Output, objects, room)?;
    let mut err = sink_of(alloc, Object::Errors, objects, ROOM)?;
    let status = ran(
        alloc, &words, &mut wire, &mut shelf, &mut input, &mut out, &mut err,
    );
    let mut left = left_by(alloc, status, &wire, &shelf, &out, &err, objects.files)?;
    left.failed = was_wire_called(&mut wire, last_call(Object::Wire, objects.faults))
        && was_shelf_called(&mut shelf, last_call(Object::Shelf, objects.faults))
        && was_source_called(&mut input, last_call(Object::Input, objects.faults))
        && was_sink_called(&mut out, last_call(Object::Output, objects.faults))
        && was_sink_called(&mut err, last_call(Object::Errors, objects.faults));
    Ok(left)
}

/// The sync word.
const SYNC: u32 = 0x7CD2_15D8;

/// The idle word.
pub(crate) const IDLE: u32 = 0x7A89_C197;

/// The words of a page with the text `ABC` to capcode 8, each by its slot.
pub(crate) const ABC: &[(usize, u32)] = &[(0, 0x0000_3B49), (1, 0xC143_87B8), (2, 0xC000_04DC)];

/// Those of the text `HELLO`.
pub(crate) const HELLO: &[(usize, u32)] = &[(0, 0x0000_3B49), (1, 0x89A2_634D), (2, 0xCCF9_05DE)];

/// Those of the text `A` to capcodes 8, 15 and 2000: two runs in frame 0, the second one in the second batch, and one in frame 7.
pub(crate) const TO_GROUP: &[(usize, u32)] = &[
    (0, 0x0000_3B49),
    (1, 0xC100_057F),
    (14, 0x0000_3B49),
    (15, 0xC100_057F),
    (16, 0x001F_5FA2),
    (17, 0xC100_057F),
];

/// Appends a preamble.
pub(crate) fn push_preamble(air: &mut Vec<u8>) -> Result<(), AllocError> {
    air.extend_from_slice(&[0xAA; 72])
}

/// Appends words, each xor a noise.
pub(crate) fn push_words(air: &mut Vec<u8>, words: &[u32], noise: u32) -> Result<(), AllocError> {
    for word in words {
        air.extend_from_slice(&(*word ^ noise).to_be_bytes())?;
    }
    Ok(())
}

/// Appends a batch, by its number, of idle slots but for these words, each xor a noise.
fn push_batch(
    air: &mut Vec<u8>,
    batch: usize,
    words: &[(usize, u32)],
    noise: u32,
) -> Result<(), AllocError> {
    push_words(air, &[SYNC], noise)?;
    for place in 0..16 {
        let word = word_at(batch.wrapping_mul(16).wrapping_add(place), words);
        push_words(air, &[word], noise)?;
    }
    Ok(())
}

/// The word of this slot, which is idle where none is given.
fn word_at(slot: usize, words: &[(usize, u32)]) -> u32 {
    for (place, word) in words {
        if *place == slot {
            return *word;
        }
    }
    IDLE
}

/// Appends a preamble, and so many batches of idle slots but for these words. Each word behind the preamble is xor a noise.
pub(crate) fn push_air(
    air: &mut Vec<u8>,
    batches: usize,
    words: &[(usize, u32)],
    noise: u32,
) -> Result<(), AllocError> {
    push_preamble(air)?;
    for batch in 0..batches {
        push_batch(air, batch, words, noise)?;
    }
    Ok(())
}

/// A preamble, and so many batches of idle slots but for these words.
pub(crate) fn air_of(
    alloc: Global,
    batches: usize,
    words: &[(usize, u32)],
) -> Result<Vec<u8>, AllocError> {
    let mut air = Vec::new(alloc);
    push_air(&mut air, batches, words, 0)?;
    Ok(air)
}
