//! A wire in memory. All its room is taken when it is made.
ghost use Rattle.std.specs.Prelude.{◌≡◌, ◌+◌, ◌-◌, ◌<◌, ◌≤◌, ◌&&◌, IfOk, IsFalse, IsTrue, ◌++◌, ◌∷◌, [], drop, false, length, map, min, nat_le, take};
ghost use Rattle.wires.specs.Calls.{no_calls};
ghost use Rattle.wires.specs.FakeWire.{DialsInMemory, HangsUpInMemory, HearsInMemory, ListensInMemory, OpensInMemory, SaysInMemory, gate_fault, hang_fault, hear_fault, heard_on, said_on, say_fault, unused, wire_tells};
ghost use Rattle.wires.specs.Line.{Dials, HangsUp, Hears, Listens, Opens, Says};
ghost use Rattle.wires.specs.Silent.{no_faults};

use crate::asked::Asked;
use crate::fakes::{Calls, move_front};
use crate::wire::Wire;
use crate::{Failed, Memory, raise};
use std::alloc::{AllocError, Global};
use std::marker::Model;

/// A connection in memory. It has room for one turn for each byte that is heard.
#[derive(Drop)]
struct Talk {
    bytes: Vec<u8>,
    at: usize,
    said: Vec<u8>,
    most: usize,
    turns: Vec<(u64, u64)>,
}

impl Model for Talk {
    ghost use Rattle.std.specs.Prelude.{◌+◌, ◌-◌, ◌≤◌, drop, length, vec_capacity, vec_len};
    ghost use Rattle.wires.specs.Held.{Connection};

    ghost Value = { Connection };

    ghost view = { λ t. record { heard = t.at; rest = drop t.at t.bytes.items; said = t.said.items; turns = t.turns.items; room = t.most - length t.said.items } };

    ghost invariant = { λ t. (t.at ≤ vec_len t.bytes) × (vec_len t.said ≤ t.most) × (t.most ≤ vec_capacity t.said) × (vec_len t.turns + vec_len t.bytes ≤ vec_capacity t.turns + t.at) };
}

impl Talk {
    /// Nothing was heard or said, and these bytes are to be heard.
    fn new(alloc: Global, bytes: &[u8], most: usize) -> Result<Talk, AllocError>
        ensures { IfOk result (λ t. t ≡ unused bytes.now most) }
    {
        let bytes = Vec::from_slice(alloc, bytes)?;
        let said = Vec::with_capacity(alloc, most)?;
        let turns = Vec::with_capacity(alloc, bytes.len())?;
        Ok(Talk {
            bytes,
            at: 0,
            said,
            most,
            turns,
        })
    }

    /// Hears as many bytes as are left and the buffer has room for, and at most `cut`.
    fn hear(&mut self, cut: usize, into: &mut [u8]) -> usize
        ensures count { result ≡ min (min (length self.old.rest) (length into.new)) cut }
        ensures bytes { take result into.new ≡ take result self.old.rest }
        ensures heard { self.new ≡ heard_on self.old result }
    {
        let n = move_front(&self.bytes[self.at..], cut, into);
        if n > 0 {
            let turn = (self.at as u64, self.said.len() as u64);
            match self.turns.push(turn) {
                Ok(()) => {}
                Err(_) => unreachable!(),
            }
        }
        self.at += n;
        n
    }

    /// Says a piece, where there is room for it.
    fn say(&mut self, piece: &[u8]) -> bool
        ensures done { result ≡ nat_le (length piece.now) self.old.room }
        ensures said { IsTrue result → self.new ≡ said_on self.old piece.now }
        ensures not { IsFalse result → self.new ≡ self.old }
    {
        if piece.len() > self.most - self.said.len() {
            return false;
        }
        match self.said.extend_from_slice(piece) {
            Ok(()) => true,
            Err(_) => unreachable!(),
        }
    }

    fn said(&self) -> &[u8]
        ensures { result.now ≡ self.now.said }
    {
        &self.said
    }

    fn turns(&self) -> &[(u64, u64)]
        ensures { result.now ≡ self.now.turns }
    {
        &self.turns
    }
}

/// A connection for each list of bytes.
fn talks_of(alloc: Global, heard: &[Vec<u8>], room: usize) -> Result<Vec<Talk>, AllocError>
    ensures { IfOk result (λ talks. talks.items ≡ map (λ bytes. unused bytes.items room) heard.now) }
{
    let mut talks = Vec::new(alloc);
    for bytes in heard {
        talks.push(Talk::new(alloc, bytes, room)?)?;
    }
    Ok(talks)
}

/// How many calls of each kind failed.
#[derive(Drop)]
struct Faults {
    gate: u64,
    hear: u64,
    say: u64,
    hang: u64,
}

impl Model for Faults {
    ghost use Rattle.wires.specs.Silent.{LineFaults};

    ghost Value = { LineFaults };

    ghost view = { λ f. record { gate = f.gate; hear = f.hear; say = f.say; hang = f.hang } };
}

impl Faults {
    /// No call failed.
    fn none() -> Faults
        ensures { result ≡ no_faults }
    {
        Faults {
            gate: 0,
            hear: 0,
            say: 0,
            hang: 0,
        }
    }

    fn raise_gate(&mut self)
        ensures raised { self.new ≡ gate_fault self.old }
        ensures later { self.old.gate ≤ self.new.gate }
    {
        raise(&mut self.gate);
    }

    fn raise_hear(&mut self)
        ensures raised { self.new ≡ hear_fault self.old }
        ensures later { self.old.hear ≤ self.new.hear }
    {
        raise(&mut self.hear);
    }

    fn raise_say(&mut self)
        ensures raised { self.new ≡ say_fault self.old }
        ensures later { self.old.say ≤ self.new.say }
    {
        raise(&mut self.say);
    }

    fn raise_hang(&mut self)
        ensures raised { self.new ≡ hang_fault self.old }
        ensures later { self.old.hang ≤ self.new.hang }
    {
        raise(&mut self.hang);
    }
}

/// A wire in memory.
#[derive(Drop)]
pub struct MemoryWire {
    talks: Vec<Talk>,
    opened: usize,
    is_open: bool,
    asked: Asked,
    cut: usize,
    calls: Calls,
    faults: Faults,
}

impl Model for MemoryWire {
    ghost use Rattle.std.specs.Prelude.{◌<◌, ◌≤◌, IsTrue, length};
    ghost use Rattle.wires.specs.FakeWire.{AllBlankFrom, WireInMemory};

    ghost Value = { WireInMemory };

    ghost view = { λ w. record { connections = w.talks.items; opened = w.opened; is_open = w.is_open; asked = w.asked.address; cut = w.cut; calls = w.calls; faults = w.faults } };

    ghost invariant = { λ w. (0 < w.cut) × (w.opened ≤ length w.talks.items) × (IsTrue w.is_open → 0 < w.opened) × AllBlankFrom w.opened w.talks.items };
}

impl MemoryWire {
    /// One connection for each list of bytes that are to be heard, in order. `hear` gives at most `cut` bytes, which is
    /// at least 1. On each connection `room` bytes can be said. Its calls whose numbers, from 1, stand in `failing`
    /// fail.
    pub fn new(
        alloc: Global,
        heard: &[Vec<u8>],
        cut: usize,
        room: usize,
        failing: &[u64],
    ) -> Result<MemoryWire, Memory>
        requires { 0 < cut }
        ensures { IfOk result (λ w. w ≡ record { connections = map (λ bytes. unused bytes.items room) heard.now; opened = 0; is_open = false; asked = []; cut = cut; calls = no_calls failing.now; faults = no_faults }) }
    {
        let Ok(talks) = talks_of(alloc, heard, room) else {
            return Err(Memory);
        };
        let Ok(calls) = Calls::new(alloc, failing) else {
            return Err(Memory);
        };
        Ok(MemoryWire {
            talks,
            opened: 0,
            is_open: false,
            asked: Asked::of(&[]),
            cut,
            calls,
            faults: Faults::none(),
        })
    }

    /// What was said on the connection of this number, from 0.
    pub fn said(&self, k: usize) -> &[u8]
        requires { k < (wire_tells self.now).count }
        ensures { result.now ≡ ((wire_tells self.now).connection k).said }
    {
        self.talks[k].said()
    }

    /// The turns of the connection of this number, from 0: for each `hear` that gave at least one byte, how many bytes
    /// had been heard and how many said on this connection before it.
    pub fn turns(&self, k: usize) -> &[(u64, u64)]
        requires { k < (wire_tells self.now).count }
        ensures { result.now ≡ ((wire_tells self.now).connection k).turns }
    {
        self.talks[k].turns()
    }
}

impl Wire for MemoryWire {
    ghost state = { wire_tells };

    /// Fails exactly where the number of the call is one that fails.
    fn listen(&mut self, at: &str) -> Result<(), Failed>
        ensures listens { Listens (wire_tells self.old) (wire_tells self.new) at.now result }
        ensures exactly { ListensInMemory self.old self.new at.now result }
    {
        self.asked = Asked::of(at.as_bytes());
        if self.calls.fails_unless(true) {
            self.faults.raise_gate();
            return Err(Failed);
        }
        Ok(())
    }

    /// Fails exactly where the number of the call is one that fails.
    fn next(&mut self) -> Result<bool, Failed>
        ensures opens { Opens (wire_tells self.old) (wire_tells self.new) result }
        ensures exactly { OpensInMemory self.old self.new result }
    {
        self.is_open = false;
        if self.calls.fails_unless(true) {
            self.faults.raise_gate();
            return Err(Failed);
        }
        if self.opened == self.talks.len() {
            return Ok(false);
        }
        self.opened += 1;
        self.is_open = true;
        Ok(true)
    }

    /// Fails exactly where the number of the call is one that fails or no connection is left.
    fn dial(&mut self, to: &str) -> Result<(), Failed>
        ensures dials { Dials (wire_tells self.old) (wire_tells self.new) to.now result }
        ensures exactly { DialsInMemory self.old self.new to.now result }
    {
        self.is_open = false;
        self.asked = Asked::of(to.as_bytes());
        if self.calls.fails_unless(self.opened < self.talks.len()) {
            self.faults.raise_gate();
            return Err(Failed);
        }
        self.opened += 1;
        self.is_open = true;
        Ok(())
    }

    /// Fails exactly where the number of the call is one that fails or no connection is open.
    fn hear(&mut self, into: &mut [u8]) -> Result<usize, Failed>
        requires { 0 < length into.old }
        ensures hears { Hears (wire_tells self.old) (wire_tells self.new) into.new result }
        ensures exactly { HearsInMemory self.old self.new into.new result }
    {
        if self.calls.fails_unless(self.is_open) {
            self.faults.raise_hear();
            return Err(Failed);
        }
        let talk = &mut self.talks[self.opened - 1];
        Ok(talk.hear(self.cut, into))
    }

    /// Fails exactly where the number of the call is one that fails, no connection is open, or the room would be passed,
    /// and then nothing was said.
    fn say(&mut self, piece: &[u8]) -> Result<(), Failed>
        ensures says { Says (wire_tells self.old) (wire_tells self.new) piece.now result }
        ensures exactly { SaysInMemory self.old self.new piece.now result }
    {
        if self.calls.fails_unless(self.is_open) {
            self.faults.raise_say();
            return Err(Failed);
        }
        let talk = &mut self.talks[self.opened - 1];
        if talk.say(piece) {
            return Ok(());
        }
        self.calls.fault();
        self.faults.raise_say();
        Err(Failed)
    }

    /// Fails exactly where the number of the call is one that fails or no connection is open.
    fn hang_up(&mut self) -> Result<(), Failed>
        ensures hangs_up { HangsUp (wire_tells self.old) (wire_tells self.new) result }
        ensures exactly { HangsUpInMemory self.old self.new result }
    {
        let was_open = self.is_open;
        self.is_open = false;
        if self.calls.fails_unless(was_open) {
            self.faults.raise_hang();
            return Err(Failed);
        }
        Ok(())
    }
}
