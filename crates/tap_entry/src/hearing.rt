//! The marks in what is heard: docs/profile.md, "marks".

ghost use Rattle.std.specs.Prelude.{◌≡◌, ◌<◌, ℕ, List, [], ◌∷◌, ◌++◌};
ghost use Rattle.std.specs.Option.{option_to_list};
ghost use Rattle.entry_line.specs.Chars.{char_of};
ghost use Rattle.tap_entry.specs.MarkReaders.{MarkReader, ReaderStandsFor, reader_step, line_mark, seen_by};
ghost use Rattle.tap_entry.specs.declared.hearing.Mark.{Mark};

use arrayvec::ArrayVec;
use entry_line::characters::{CR, LF};
use entry_line::kept::push_within;
use std::marker::Model;

/// A byte stands for its remainder by this number, its low seven bits.
const CHARACTERS: u8 = 0x80;

/// The longest line that is a mark has three characters. One more tells it from a longer line.
const LINE_KEPT: usize = 4;

/// What a terminal says.
#[derive(Clone, Copy, Debug, PartialEq, Eq)]
pub enum Mark {
    /// `ID=`: the terminal waits for a logon.
    Id,
    /// ACK: the block, or the logon, was accepted.
    Ack,
    /// NAK: the block, or the logon, is to be said again.
    Nak,
    /// RS: the page is abandoned.
    Rs,
    /// ESC EOT: the terminal hangs up.
    End,
    /// `ESC [ p`: blocks may be sent.
    Go,
}

/// How much of `ID=` the characters so far end in.
#[derive(Clone, Copy, PartialEq, Eq)]
pub enum Seen {
    Nothing,
    I,
    Id,
}

impl Seen {
    /// What is seen after a further character.
    fn after(self, c: u8) -> Seen
        ensures { result ≡ seen_by self c }
    {
        match (self, c) {
            (_, b'I') => Seen::I,
            (Seen::I, b'D') => Seen::Id,
            _ => Seen::Nothing,
        }
    }
}

/// Hears characters one at a time.
#[derive(Drop)]
pub struct Listener {
    /// The first characters of what is no mark yet.
    line: ArrayVec<u8, LINE_KEPT>,
    /// How much of `ID=` they end in.
    seen: Seen,
}

impl Model for Listener {
    ghost use Rattle.tap_entry.specs.MarkReaders.{MarkReader};

    ghost Value = { MarkReader };

    ghost view = { λ s. record { line = s.line.items; seen = s.seen } };

    ghost invariant = { λ s. Unit {0} };
}

impl Listener {
    /// A listener that has heard nothing.
    pub fn new() -> Listener
        ensures { ReaderStandsFor result [] [] }
    {
        Listener {
            line: ArrayVec::new(),
            seen: Seen::Nothing,
        }
    }

    /// Takes a byte, and answers the mark that it completes. None where it completes none.
    pub fn feed(&mut self, byte: u8) -> Option<Mark>
        ensures { (x : List ℕ) (marks : List Mark) → ReaderStandsFor self.old x marks → ReaderStandsFor self.new (x ++ char_of byte ∷ []) (marks ++ option_to_list result) }
    {
        self.step(byte % CHARACTERS)
    }

    /// Takes a character, and answers the mark that it completes.
    fn step(&mut self, c: u8) -> Option<Mark>
        requires { c < CHARACTERS }
        ensures ear { self.new ≡ (reader_step self.old c).ear }
        ensures mark { result ≡ (reader_step self.old c).mark }
    {
        if c == LF {
            return None;
        }
        if c == CR {
            let mark = mark_of_line(self.line.as_slice());
            self.begin();
            return mark;
        }
        if c == b'=' && self.seen == Seen::Id {
            self.begin();
            return Some(Mark::Id);
        }
        push_within(&mut self.line, c);
        self.seen = self.seen.after(c);
        None
    }

    /// Begins a new line.
    fn begin(&mut self)
        ensures { self.new ≡ record { line = []; seen = Seen.Nothing } }
    {
        self.line.clear();
        self.seen = Seen::Nothing;
    }
}

/// The mark of a line without its CR. None where the line is skipped.
fn mark_of_line(line: &[u8]) -> Option<Mark>
    ensures { result ≡ line_mark line.now }
{
    match line {
        [0x06] => Some(Mark::Ack),
        [0x15] => Some(Mark::Nak),
        [0x1E] => Some(Mark::Rs),
        [0x1B, 0x04] => Some(Mark::End),
        [0x1B, b'[', b'p'] => Some(Mark::Go),
        _ => None,
    }
}
