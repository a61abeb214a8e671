//! Bits out of bytes, each byte's most significant bit first. Both readers read some kilobytes at a time, and hand out
//! the bits of what was read before they read on.
ghost use Rattle.bits.specs.Bits.{bytes_bits, word_bits};
ghost use Rattle.std.specs.Prelude.{◌≡◌, ◌≤◌, ◌<◌, ◌++◌, [], ◌∷◌, MatchOption, length, take};
ghost use Rattle.wires.specs.Ahead.{Fills};
ghost use Rattle.wires.specs.Stacked.{bits_left, shelf_bits};

use crate::Failed;
use crate::piece::Piece;
use crate::shelf::Shelf;
use crate::source::{BitSource, Source};
use std::marker::Model;

/// How many bytes are read at a time.
const BUFFER_SIZE: usize = 4096;

/// Bytes that were read, of which the first bits were taken. Contracts see the bits that are left.
#[derive(Drop)]
struct Ready {
    bytes: [u8; BUFFER_SIZE],
    /// How many of the bytes were read.
    end: usize,
    /// How many of the bytes were begun.
    at: usize,
    /// The byte that was begun last.
    byte: u8,
    /// How many bits of that byte are left.
    pending: u8,
}

impl Model for Ready {
    ghost use Rattle.bits.specs.Bits.{bits_of, bytes_bits};
    ghost use Rattle.std.specs.Prelude.{◌≤◌, ◌++◌, Bool, List, drop, take};

    ghost Value = { List Bool };

    ghost view = { λ r. bits_of r.pending r.byte ++ bytes_bits (drop r.at (take r.end r.bytes)) };

    ghost invariant = { λ r. (r.at ≤ r.end) × (r.end ≤ 4096) × (r.pending ≤ 8) };
}

impl Ready {
    /// No bit is left.
    fn none() -> Ready
        ensures { result ≡ [] }
    {
        Ready {
            bytes: [0; BUFFER_SIZE],
            end: 0,
            at: 0,
            byte: 0,
            pending: 0,
        }
    }

    /// The bits of the first bytes are left.
    fn of(bytes: [u8; BUFFER_SIZE], n: usize) -> Ready
        requires { n ≤ BUFFER_SIZE }
        ensures { result ≡ bytes_bits (take n bytes) }
    {
        Ready {
            bytes,
            end: n,
            at: 0,
            byte: 0,
            pending: 0,
        }
    }

    /// Takes the first bit, where one is left.
    fn pop(&mut self) -> Option<bool>
        ensures { MatchOption result ((self.old ≡ []) × (self.new ≡ [])) (λ bit. self.old ≡ bit ∷ self.new) }
    {
        if self.pending == 0 {
            if self.at == self.end {
                return None;
            }
            let byte = self.bytes[self.at];
            self.at += 1;
            self.byte = byte;
            self.pending = 7;
            return Some((byte >> 7) % 2 == 1);
        }
        self.pending -= 1;
        Some((self.byte >> self.pending) % 2 == 1)
    }

    /// Takes the next 32 bits, where no byte is begun and four are left.
    #[inline(always)]
    fn word(&mut self) -> Option<u32>
        ensures { MatchOption result (self.new ≡ self.old) (λ word. self.old ≡ word_bits word ++ self.new) }
    {
        if self.pending != 0 {
            return None;
        }
        if self.end - self.at < 4 {
            return None;
        }
        let first = u32::from(self.bytes[self.at]);
        let second = u32::from(self.bytes[self.at + 1]);
        let third = u32::from(self.bytes[self.at + 2]);
        let fourth = u32::from(self.bytes[self.at + 3]);
        self.at += 4;
        Some(((first * 256 + second) * 256 + third) * 256 + fourth)
    }

    /// Takes the next bits of one byte, at most so many.
    fn few(&mut self, most: u32) -> Piece
        requires { 0 < most }
        ensures pops { self.old ≡ result ++ self.new }
        ensures few { length result ≤ most }
        ensures end { result ≡ [] → self.old ≡ [] }
    {
        if self.pending == 0 {
            if self.at == self.end {
                return Piece::of(0, 0);
            }
            let byte = self.bytes[self.at];
            self.at += 1;
            self.byte = byte;
            let count = most.min(8);
            self.pending = (8 - count) as u8;
            return Piece::of(u32::from(byte) >> (8 - count), count);
        }
        let count = most.min(u32::from(self.pending));
        self.pending -= count as u8;
        Piece::of(u32::from(self.byte) >> self.pending, count)
    }

    /// Takes the next bits, at most so many.
    #[inline(always)]
    fn piece(&mut self, most: u32) -> Piece
        requires { 0 < most }
        ensures pops { self.old ≡ result ++ self.new }
        ensures few { length result ≤ most }
        ensures end { result ≡ [] → self.old ≡ [] }
    {
        if most < 32 {
            return self.few(most);
        }
        if let Some(word) = self.word() {
            return Piece::of(word, 32);
        }
        self.few(most)
    }
}

/// The bits of a source's bytes. Its faults are the source's.
#[derive(Drop)]
pub struct ByteBits<S: Source> {
    source: S,
    ready: Ready,
}

impl<S: Source> ByteBits<S> {
    /// The bits of what this source has left.
    pub fn over(source: S) -> ByteBits<S>
        ensures source { result.source ≡ source }
        ensures ready { result.ready ≡ [] }
    {
        ByteBits {
            source,
            ready: Ready::none(),
        }
    }

    /// Reads on, where no bit is ready.
    #[inline(never)]
    fn fill(&mut self) -> Result<(), Failed>
        requires { self.old.ready ≡ [] }
        ensures { Fills (bits_left self.old.ready (S.state self.old.source)) (bits_left self.new.ready (S.state self.new.source)) self.new.ready result }
    {
        let mut bytes = [0; BUFFER_SIZE];
        let n = self.source.take(&mut bytes)?;
        self.ready = Ready::of(bytes, n);
        Ok(())
    }
}

impl<S: Source> BitSource for ByteBits<S> {
    ghost state = { λ s. bits_left s.ready (S.state s.source) };

    fn bit(&mut self) -> Result<Option<bool>, Failed> {
        if let Some(bit) = self.ready.pop() {
            return Ok(Some(bit));
        }
        self.fill()?;
        Ok(self.ready.pop())
    }

    #[inline(always)]
    fn piece(&mut self, most: u32) -> Result<Piece, Failed> {
        let piece = self.ready.piece(most);
        if !piece.is_empty() {
            return Ok(piece);
        }
        self.fill()?;
        Ok(self.ready.piece(most))
    }
}

/// The bits of one file of a shelf. Its faults are the shelf's, and it is steady where the shelf is and the name is
/// there.
#[derive(Drop)]
pub struct ShelfBits<'a, F: Shelf> {
    shelf: &'a mut F,
    name: &'a str,
    /// The place of the next byte that is to be read.
    from: u64,
    ready: Ready,
}

impl<'a, F: Shelf> ShelfBits<'a, F> {
    /// The bits of the whole file of this name.
    pub fn over(shelf: &'a mut F, name: &'a str) -> ShelfBits<'a, F>
        ensures same_reference { result.shelf.ghost_name ≡ shelf.entry.ghost_name }
        ensures same { result.shelf.now ≡ shelf.old }
        ensures name { result.name.now ≡ name.now }
        ensures from { result.from ≡ 0 }
        ensures ready { result.ready ≡ [] }
    {
        ShelfBits {
            shelf,
            name,
            from: 0,
            ready: Ready::none(),
        }
    }

    /// Reads on, where no bit is ready.
    #[inline(never)]
    fn fill(&mut self) -> Result<(), Failed>
        requires { self.old.ready ≡ [] }
        ensures { Fills (shelf_bits self.old.shelf.ghost_name self.old.name.now self.old.ready self.old.from (F.state self.old.shelf.now))
            (shelf_bits self.new.shelf.ghost_name self.new.name.now self.new.ready self.new.from (F.state self.new.shelf.now)) self.new.ready result }
    {
        let mut bytes = [0; BUFFER_SIZE];
        let n = self.shelf.read(self.name, self.from, &mut bytes)?;
        self.from = self.from.saturating_add(n as u64);
        self.ready = Ready::of(bytes, n);
        Ok(())
    }
}

impl<'a, F: Shelf> BitSource for ShelfBits<'a, F> {
    ghost state = { λ s. shelf_bits s.shelf.ghost_name s.name.now s.ready s.from (F.state s.shelf.now) };

    fn bit(&mut self) -> Result<Option<bool>, Failed> {
        if let Some(bit) = self.ready.pop() {
            return Ok(Some(bit));
        }
        self.fill()?;
        Ok(self.ready.pop())
    }

    #[inline(always)]
    fn piece(&mut self, most: u32) -> Result<Piece, Failed> {
        let piece = self.ready.piece(most);
        if !piece.is_empty() {
            return Ok(piece);
        }
        self.fill()?;
        Ok(self.ready.piece(most))
    }
}
