//! A source and a sink in memory, which fail at the calls that they are told to.
ghost use Rattle.std.specs.Prelude.{◌≡◌, ◌+◌, ◌<◌, ◌≤◌, ◌||◌, [], length, min, nat_eq, not, take, IfOk, IsFalse, IsTrue};
ghost use Rattle.std.specs.List.{list_any};
ghost use Rattle.wires.specs.Calls.{no_calls, next_fails};
ghost use Rattle.wires.specs.Causes.{next_count};
ghost use Rattle.wires.specs.Fakes.{PutsInMemory, sink_tells, SinkInMemory, source_tells, SourceInMemory, TakesInMemory};
ghost use Rattle.wires.specs.Left.{Takes};
ghost use Rattle.wires.specs.Written.{Puts};

use crate::sink::Sink;
use crate::source::Source;
use crate::{Failed, Memory, raise};
use std::alloc::{AllocError, Global};
use std::marker::Model;

/// The calls of a fake, numbered from 1: which of them fail, how many were made, and how many failed.
#[derive(Drop)]
pub(crate) struct Calls {
    failing: Vec<u64>,
    made: u64,
    faults: u64,
}

impl Model for Calls {
    ghost use Rattle.wires.specs.Calls.{CallsMade};

    ghost Value = { CallsMade };

    ghost view = { λ c. record { failing = c.failing.items; made = c.made; faults = c.faults } };
}

impl Calls {
    /// None was made, and those of these numbers fail.
    pub(crate) fn new(alloc: Global, failing: &[u64]) -> Result<Calls, AllocError>
        ensures { IfOk result (λ c. c ≡ no_calls failing.now) }
    {
        let failing = Vec::from_slice(alloc, failing)?;
        Ok(Calls {
            failing,
            made: 0,
            faults: 0,
        })
    }

    /// Counts a call, and says whether it is one that fails.
    pub(crate) fn next(&mut self) -> bool
        ensures failing { self.new.failing ≡ self.old.failing }
        ensures made { self.new.made ≡ next_count self.old.made }
        ensures later { self.old.made ≤ self.new.made }
        ensures faults { self.new.faults ≡ self.old.faults }
        ensures fails { result ≡ next_fails self.old }
    {
        let fails = stands_next(&self.failing, self.made);
        raise(&mut self.made);
        fails
    }

    /// Counts a fault.
    pub(crate) fn fault(&mut self)
        ensures failing { self.new.failing ≡ self.old.failing }
        ensures made { self.new.made ≡ self.old.made }
        ensures faults { self.new.faults ≡ next_count self.old.faults }
        ensures later { self.old.faults ≤ self.new.faults }
    {
        raise(&mut self.faults);
    }

    /// Counts a call, and a fault where the call is one that fails or is not proper. Says whether it is so.
    pub(crate) fn fails_unless(&mut self, proper: bool) -> bool
        ensures fails { result ≡ (next_fails self.old || not proper) }
        ensures failing { self.new.failing ≡ self.old.failing }
        ensures made { self.new.made ≡ next_count self.old.made }
        ensures later { self.old.made ≤ self.new.made }
        ensures counted { IsTrue result → self.new.faults ≡ next_count self.old.faults }
        ensures kept { IsFalse result → self.new.faults ≡ self.old.faults }
        ensures faults_later { self.old.faults ≤ self.new.faults }
    {
        let fails = self.next() || !proper;
        if fails {
            self.fault();
        }
        fails
    }
}

/// Whether the number that comes after so many stands among these.
fn stands_next(numbers: &[u64], made: u64) -> bool
    ensures { result ≡ list_any (λ n. nat_eq n (made + 1)) numbers.now }
{
    match made.checked_add(1) {
        Some(number) => numbers.contains(&number),
        None => false,
    }
}

/// A source in memory.
#[derive(Drop)]
pub struct MemorySource {
    bytes: Vec<u8>,
    at: usize,
    cut: usize,
    calls: Calls,
}

impl Model for MemorySource {
    ghost use Rattle.std.specs.Prelude.{◌<◌, ◌≤◌, drop, length};
    ghost use Rattle.wires.specs.Fakes.{SourceInMemory};

    ghost Value = { SourceInMemory };

    ghost view = { λ s. record { left = drop s.at s.bytes.items; cut = s.cut; calls = s.calls } };

    ghost invariant = { λ s. (s.at ≤ length s.bytes.items) × (0 < s.cut) };
}

impl MemorySource {
    /// Gives these bytes, at most `cut` of them in one call, which is at least 1. Its calls whose numbers, from 1, stand
    /// in `failing` fail.
    pub fn new(
        alloc: Global,
        bytes: &[u8],
        cut: usize,
        failing: &[u64],
    ) -> Result<MemorySource, Memory>
        requires { 0 < cut }
        ensures { IfOk result (λ s. s ≡ record { left = bytes.now; cut = cut; calls = no_calls failing.now }) }
    {
        let Ok(bytes) = Vec::from_slice(alloc, bytes) else {
            return Err(Memory);
        };
        let Ok(calls) = Calls::new(alloc, failing) else {
            return Err(Memory);
        };
        Ok(MemorySource {
            bytes,
            at: 0,
            cut,
            calls,
        })
    }
}

impl Source for MemorySource {
    ghost state = { source_tells };

    /// Fails exactly where the number of the call is one that fails, and else moves as many bytes as are left and the
    /// buffer has room for, and at most `cut`.
    fn take(&mut self, into: &mut [u8]) -> Result<usize, Failed>
        requires { 0 < length into.old }
        ensures takes { Takes (source_tells self.old) (source_tells self.new) into.new result }
        ensures exactly { TakesInMemory self.old self.new into.new result }
    {
        if self.calls.next() {
            self.calls.fault();
            return Err(Failed);
        }
        let n = move_front(&self.bytes[self.at..], self.cut, into);
        self.at += n;
        Ok(n)
    }
}

/// Moves as many bytes as there are and the buffer has room for, and at most `cut`.
pub(crate) fn move_front(from: &[u8], cut: usize, into: &mut [u8]) -> usize
    ensures count { result ≡ min (min (length from.now) (length into.old)) cut }
    ensures moved { take result into.new ≡ take result from.now }
{
    let n = from.len().min(into.len()).min(cut);
    into[..n].copy_from_slice(&from[..n]);
    n
}

/// A sink in memory.
#[derive(Drop)]
pub struct MemorySink {
    bytes: Vec<u8>,
    room: usize,
    calls: Calls,
}

impl Model for MemorySink {
    ghost use Rattle.std.specs.Prelude.{◌≤◌, vec_capacity, vec_len};
    ghost use Rattle.wires.specs.Fakes.{SinkInMemory};

    ghost Value = { SinkInMemory };

    ghost view = { λ s. record { bytes = s.bytes.items; room = s.room; calls = s.calls } };

    ghost invariant = { λ s. (vec_len s.bytes ≤ s.room) × (s.room ≤ vec_capacity s.bytes) };
}

impl MemorySink {
    /// Holds at most `room` bytes, and none at first. Its calls whose numbers, from 1, stand in `failing` fail.
    pub fn new(alloc: Global, room: usize, failing: &[u64]) -> Result<MemorySink, Memory>
        ensures { IfOk result (λ s. s ≡ record { bytes = []; room = room; calls = no_calls failing.now }) }
    {
        let Ok(bytes) = Vec::with_capacity(alloc, room) else {
            return Err(Memory);
        };
        let Ok(calls) = Calls::new(alloc, failing) else {
            return Err(Memory);
        };
        Ok(MemorySink { bytes, room, calls })
    }

    /// What was written.
    pub fn bytes(&self) -> &[u8]
        ensures { result.now ≡ self.now.bytes }
    {
        &self.bytes
    }
}

impl Sink for MemorySink {
    ghost state = { sink_tells };

    /// Fails exactly where the number of the call is one that fails or the room would be passed, and then nothing was
    /// appended.
    fn put(&mut self, piece: &[u8]) -> Result<(), Failed>
        ensures puts { Puts (sink_tells self.old) (sink_tells self.new) piece.now result }
        ensures exactly { PutsInMemory self.old self.new piece.now result }
    {
        let fails = self.calls.next();
        if fails || piece.len() > self.room - self.bytes.len() {
            self.calls.fault();
            return Err(Failed);
        }
        match self.bytes.extend_from_slice(piece) {
            Ok(()) => Ok(()),
            Err(_) => {
                self.calls.fault();
                Err(Failed)
            }
        }
    }
}
