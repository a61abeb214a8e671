//! The commands `play` and `show`: what is heard in bits, as pages and as a table.

ghost use Rattle.std.specs.Prelude.{◌≡◌, ◌≤◌, ◌++◌, ℕ, [], IfSome, IsSome, List, Option, length, take};
ghost use Rattle.std.specs.List.{slice_get};
ghost use Rattle.page_text.specs.Line.{line_of};
ghost use Rattle.page_text.specs.Texts.{text_of};
ghost use Rattle.receiver.specs.Heard.{HeardPage};
ghost use Rattle.receiver.specs.Listeners.{StandsFor};
ghost use Rattle.receiver.specs.Receivers.{has_in, numbers_with};
ghost use Rattle.listening.specs.Listening.{HasListened, OutWell};
ghost use Rattle.listening.specs.PageLines.{ShowsReady, group_lines, lines_for, number_text};
ghost use Rattle.wires.specs.Written.{Puts};
ghost use Rattle.listening.specs.Table.{table_of};

use crate::listening::{Listener, listen};
use crate::table::Table;
use codeword::Capcode;
use endings::statuses::Status;
use page_text::{LONGEST_READ, line};
use receiver::{Group, MOST_RECEIVERS, Ready};
use wires::Failed;
use wires::piece::Piece;
use wires::sink::Sink;
use wires::source::BitSource;
use wires::steps::{Steps, Work};

/// Receivers with numbers, of which the last bit may have completed a page.
pub trait Showing {
    /// This page.
    ghost completed: { Self → Option HeardPage };

    /// Each capcode with the set of its receivers' numbers.
    ghost holders: { Self → List (ℕ × ℕ) };

    /// Writes the text of the page to the front of `into`, which has at least `LONGEST_READ` bytes, and answers its length.
    fn text_of(&self, into: &mut [u8]) -> usize
        requires ready { IsSome (completed self.now) }
        requires room { LONGEST_READ ≤ length into.old }
        ensures text { IfSome (completed self.now) (λ page. take result into.new ≡ text_of page.function page.groups) }
        ensures few { result ≤ LONGEST_READ };

    /// The number of the receiver that comes after so many among those that have this capcode. None exactly where there are no more.
    fn holder_of(&self, capcode: Capcode, k: u32) -> Option<u32>
        ensures { result ≡ slice_get (numbers_with (has_in (holders self.now)) capcode) k };
}

impl Showing for Group {
    ghost completed = { λ g. g.ready };

    ghost holders = { λ g. g.holders };

    fn text_of(&self, into: &mut [u8]) -> usize {
        self.text(into)
    }

    fn holder_of(&self, capcode: Capcode, k: u32) -> Option<u32> {
        self.holder(capcode, k)
    }
}

impl Listener for Group {
    ghost printed = { λ g. group_lines g };

    ghost fed = { λ g bits. StandsFor g bits };

    #[inline(always)]
    fn hear<O: Sink>(&mut self, piece: &mut Piece, out: &mut O) -> Result<(), Failed> {
        let mut steps = Steps::<Work>::new();
        let Some(page) = self.feed_piece(piece, &mut steps) else {
            return Ok(());
        };
        show_ready(self, &page, out)
    }
}

/// Puts the lines of the page that the group has complete. Its text lies here, and not in `hear`, which is entered for every piece.
#[inline(never)]
pub(crate) fn show_ready<G: Showing, O: Sink>(
    group: &G,
    page: &Ready,
    out: &mut O,
) -> Result<(), Failed>
    requires { IsSome (G.completed group.now) }
    ensures { ShowsReady (G.completed group.now) (G.holders group.now) page.now (O.state out.old) (O.state out.new) result }
{
    let mut text = [0; LONGEST_READ];
    let length = group.text_of(&mut text);
    show_page(group, page, &text[..length], out)
}

/// Puts the line of a page for each receiver of the group that has its capcode.
fn show_page<G: Showing, O: Sink>(
    group: &G,
    page: &Ready,
    text: &[u8],
    out: &mut O,
) -> Result<(), Failed>
    requires { length text.now ≤ LONGEST_READ }
    ensures { Puts (O.state out.old) (O.state out.new) (lines_for page.now.capcode page.now.function text.now (numbers_with (has_in (G.holders group.now)) page.now.capcode)) result }
{
    for k in 0..MOST_RECEIVERS {
        let Some(number) = group.holder_of(page.capcode, k) else {
            return Ok(());
        };
        if let Err(Failed) = show_line(number, page, text, out) {
            return Err(Failed);
        }
    }
    Ok(())
}

/// Puts the line of a page for the receiver of this number.
fn show_line<O: Sink>(number: u32, page: &Ready, text: &[u8], out: &mut O) -> Result<(), Failed>
    requires { length text.now ≤ LONGEST_READ }
    ensures { Puts (O.state out.old) (O.state out.new) (number_text number ++ line_of page.now.capcode page.now.function text.now) result }
{
    if let Err(Failed) = out.put(&number_digits(number)) {
        return Err(Failed);
    }
    line(page.capcode, page.function, text, out)
}

/// A receiver's number in two digits, and a space.
fn number_digits(number: u32) -> [u8; 3]
    ensures { result ≡ number_text number }
{
    [
        b'0' + (number / 10 % 10) as u8,
        b'0' + (number % 10) as u8,
        b' ',
    ]
}

/// Plays receivers over bits: puts the printed line of each page that the group hears, as it is complete, once for each receiver that has
/// its capcode, in the order of their numbers. The group was fed no bit.
/// At most the bits of 67,108,864 bytes are heard.
///
/// The answer is Done where all bits were heard; TooLong exactly where so many were and another bit follows; FileFault where a read
/// failed; OutFault where a write failed, which doesn't happen over a steady output with room for the lines of all bits. At both faults a
/// front of these lines was put.
pub fn play<B: BitSource, O: Sink>(bits: &mut B, group: &mut Group, out: &mut O) -> Status
    requires { StandsFor group.old [] }
    ensures listens { HasListened (group_lines group.old) (B.state bits.old) (B.state bits.new) (O.state out.old) (O.state out.new) result }
    ensures out_well { OutWell (group_lines group.old) (B.state bits.old) (O.state out.old) (O.state out.new) result }
{
    listen(bits, group, out)
}

/// Puts the table of what is heard in bits: a line for each sync word that was found or is good at its place, and for each slot. A
/// word that isn't whole has no line. The answers are those of `play`.
pub fn show<B: BitSource, O: Sink>(bits: &mut B, out: &mut O) -> Status
    ensures listens { HasListened table_of (B.state bits.old) (B.state bits.new) (O.state out.old) (O.state out.new) result }
    ensures out_well { OutWell table_of (B.state bits.old) (O.state out.old) (O.state out.new) result }
{
    listen(bits, &mut Table::new(), out)
}
