//! The client between two pages, and while it sends one: docs/profile.md, "sending a page".

ghost use Rattle.std.specs.Prelude.{◌≡◌, ◌≤◌, ℕ, ◌+◌, List, [], ◌∷◌, ◌++◌, length};
ghost use Rattle.std.specs.List.{AllByRecursion};
ghost use Rattle.entry_line.specs.Chars.{char_of};
ghost use Rattle.tap_block.specs.Chars.{IsChar};
ghost use Rattle.tap_block.specs.Reading.{IsBody};
ghost use Rattle.tap_entry.specs.Client.{IsPage, content, body_at, end_at, block_at, is_last_at};
ghost use Rattle.tap_entry.specs.MarkReaders.{ReaderStandsFor};
ghost use Rattle.tap_entry.specs.States.{SendingFor, SendsFurther, send_by};
ghost use Rattle.tap_entry.specs.declared.hearing.Mark.{Mark};
ghost use Rattle.wires.specs.Written.{Puts};

use crate::goodbye::Leaving;
use crate::hearing::{Listener, Mark};
use crate::outcomes::Outcome;
use arrayvec::ArrayVec;
use entry_line::characters::{CR, MOST_DIGITS};
use page_text::LONGEST_TEXT;
use std::marker::Model;
use tap_block::{End, LONGEST_BODY, escape_into, put_block};
use wires::Failed;
use wires::sink::Sink;

/// The most characters of a field that spells a text.
const LONGEST_FIELD: usize = 2 * LONGEST_TEXT;

/// The most characters of a content: an id and a text, each with its CR.
const LONGEST_CONTENT: usize = MOST_DIGITS + 1 + LONGEST_FIELD + 1;

/// A block is refused at most this many times before its page is given up.
const MOST_NAKS: u8 = 2;

/// A client that is logged on and stands between two pages.
#[derive(Drop)]
pub struct LoggedOn {
    listener: Listener,
}

impl Model for LoggedOn {
    ghost use Rattle.tap_entry.specs.MarkReaders.{MarkReader};

    ghost Value = { MarkReader };

    ghost view = { λ s. s.listener };

    ghost invariant = { λ s. Unit {0} };
}

impl LoggedOn {
    /// A client that is logged on, with what it has heard.
    pub(crate) fn with(listener: Listener) -> LoggedOn
        ensures { result ≡ listener }
    {
        LoggedOn { listener }
    }

    /// Begins a page, whose first block is then to be said. The id has 1 to 10 digits, and the text at most `LONGEST_TEXT` characters,
    /// each at most 0x7E.
    pub fn start(self, id: &[u8], text: &[u8]) -> Sending
        requires page { IsPage (record { id = id.now; text = text.now }) }
        ensures stands { (x : List ℕ) (past : List Mark) → ReaderStandsFor self x past → SendingFor result x past [] }
        ensures held { result ≡ record { ear = self; content = content (record { id = id.now; text = text.now }); acks = 0; naks = 0 } }
    {
        let mut field = [0; LONGEST_FIELD];
        let n = escape_into(text, &mut field);
        let mut content = ArrayVec::new();
        append(&mut content, id);
        append(&mut content, &[CR]);
        append(&mut content, &field[..n]);
        append(&mut content, &[CR]);
        Sending {
            listener: self.listener,
            content,
            acks: 0,
            naks: 0,
        }
    }

    /// Leaves after the last page. EOT CR is then to be said.
    pub fn leave(self) -> Leaving
        ensures { result ≡ self }
    {
        Leaving::with(self.listener)
    }
}

/// Appends characters that there is room for.
fn append(content: &mut ArrayVec<u8, LONGEST_CONTENT>, piece: &[u8])
    requires { length content.old.items + length piece.now ≤ LONGEST_CONTENT }
    ensures { content.new.items ≡ content.old.items ++ piece.now }
{
    let _ = content.try_extend_from_slice(piece);
}

/// A client that sends a page.
#[derive(Drop)]
pub struct Sending {
    listener: Listener,
    /// The page's fields as characters.
    content: ArrayVec<u8, LONGEST_CONTENT>,
    /// How many of its blocks were acknowledged.
    acks: u8,
    /// How often the current block was refused.
    naks: u8,
}

impl Model for Sending {
    ghost use Rattle.tap_entry.specs.Held.{Sender};

    ghost Value = { Sender };

    ghost view = { λ s. record { ear = s.listener; content = s.content.items; acks = s.acks; naks = s.naks } };

    ghost use Rattle.tap_entry.specs.Sound.{IsSound};

    ghost invariant = { λ s. IsSound s.content.items s.acks s.naks };
}

/// What a byte brings while a page is sent.
#[derive(Drop)]
pub enum SendStep {
    /// Nothing is to be said and nothing is decided.
    Wait(Sending),
    /// The same block is to be said again.
    Again(Sending),
    /// The next block is to be said.
    NextBlock(Sending),
    /// The page is Sent or Abandoned.
    Done(LoggedOn, Outcome),
    /// The page is TriesSpent, after which EOT CR is to be said, or Disconnected.
    Closed(Outcome),
}

impl Sending {
    /// Puts the current block as one piece. After `Failed` the sink has got a prefix of it.
    pub fn put<K: Sink>(&self, sink: &mut K) -> Result<(), Failed>
        ensures { Puts (K.state sink.old) (K.state sink.new) (block_at self.now.content self.now.acks) result }
    {
        put_block(self.body(), self.end(), sink)
    }

    /// The body of the current block.
    fn body(&self) -> &[u8]
        ensures body { result.now ≡ body_at self.now.content self.now.acks }
        ensures size { length result.now ≤ LONGEST_BODY }
        ensures characters { AllByRecursion IsChar result.now }
        ensures no_block_inside { IsBody result.now }
    {
        let rest = &self.content.as_slice()[LONGEST_BODY * self.acks as usize..];
        &rest[..rest.len().min(LONGEST_BODY)]
    }

    /// The end of the current block.
    fn end(&self) -> End
        ensures { result ≡ end_at self.now.content self.now.acks }
    {
        if self.is_last() { End::Etx } else { End::Us }
    }

    /// Takes a byte that was heard.
    pub fn feed(self, byte: u8) -> SendStep
        ensures { (x : List ℕ) (past since : List Mark) → SendingFor self x past since → SendsFurther self x past since (char_of byte) result }
    {
        let mut client = self;
        let mark = client.listener.feed(byte);
        client.take(mark)
    }

    /// Takes the mark that a byte completed.
    fn take(self, mark: Option<Mark>) -> SendStep
        ensures { result ≡ send_by self mark }
    {
        let mut client = self;
        match mark {
            Some(Mark::Ack) => {
                if client.is_last() {
                    return SendStep::Done(client.rest(), Outcome::Sent);
                }
                client.acks += 1;
                client.naks = 0;
                SendStep::NextBlock(client)
            }
            Some(Mark::Nak) => {
                if client.naks >= MOST_NAKS {
                    return SendStep::Closed(Outcome::TriesSpent);
                }
                client.naks += 1;
                SendStep::Again(client)
            }
            Some(Mark::Rs) => SendStep::Done(client.rest(), Outcome::Abandoned),
            Some(Mark::End) => SendStep::Closed(Outcome::Disconnected),
            _ => SendStep::Wait(client),
        }
    }

    /// Whether the current block is the page's last.
    fn is_last(&self) -> bool
        ensures { result ≡ is_last_at self.now.content self.now.acks }
    {
        self.content.len() <= LONGEST_BODY * (self.acks as usize + 1)
    }

    /// The client without the page.
    fn rest(self) -> LoggedOn
        ensures { result ≡ self.ear }
    {
        LoggedOn::with(self.listener)
    }
}
