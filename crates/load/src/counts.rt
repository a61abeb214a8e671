//! What is counted of the pages that are heard.

ghost use Rattle.std.specs.Prelude.{◌≡◌, ◌+◌, ◌<◌, ◌≤◌, ◌*◌, ◌^◌, ◌++◌, Bool, List, Some, length, sum};
ghost use Rattle.bits.specs.Bits.{word_bits};
ghost use Rattle.receiver.specs.Listeners.{ready_answer};
ghost use Rattle.page_text.specs.declared.lines.TheConstants.{LONGEST_LINE};
ghost use Rattle.load.specs.Counting.{HasCounted, HasLines, ready_line};

use page_text::lines::written;
use page_text::{LONGEST_LINE, LONGEST_READ};
use receiver::{Group, Ready};
use wires::piece::Piece;
use wires::steps::{Steps, Work};

/// The lines of pages that were heard: how many, their bytes, and the sum of these.
#[derive(Clone, Copy, Debug, PartialEq, Eq)]
pub(crate) struct Lines {
    pub(crate) count: u64,
    pub(crate) bytes: u64,
    pub(crate) sum: u64,
    ghost bytes_few: { bytes ≤ LONGEST_LINE * count },
    ghost sum_few: { sum ≤ 255 * LONGEST_LINE * count },
}

impl Lines {
    /// Those of no page.
    pub(crate) const NONE: Lines = Lines {
        count: 0,
        bytes: 0,
        sum: 0,
    };

    /// Adds the line of a page.
    fn add(&mut self, line: &[u8])
        requires room { self.old.count < 2 ^ 40 }
        requires short { length line.now ≤ LONGEST_LINE }
        ensures count { self.new.count ≡ self.old.count + 1 }
        ensures bytes { self.new.bytes ≡ self.old.bytes + length line.now }
        ensures sum { self.new.sum ≡ self.old.sum + sum line.now }
    {
        self.count += 1;
        self.bytes += line.len() as u64;
        self.sum += sum_of(line);
    }
}

/// The sum of bytes.
fn sum_of(bytes: &[u8]) -> u64
    requires { length bytes.now ≤ LONGEST_LINE }
    ensures value { result ≡ sum bytes.now }
    ensures most { result ≤ 255 * LONGEST_LINE }
{
    let mut sum = 0;
    for byte in bytes {
        sum += u64::from(*byte);
    }
    sum
}

/// Hears a word, and adds the lines of the pages that it completes.
pub(crate) fn hear_lines(word: u32, group: &mut Group, steps: &mut Steps<Work>, lines: &mut Lines)
    requires { lines.old.count + 32 ≤ 2 ^ 40 }
    ensures capcodes { group.new.capcodes ≡ group.old.capcodes }
    ensures few { lines.new.count ≤ lines.old.count + 32 }
    ensures counted { (bits : List Bool) → HasLines group.old lines.old.count lines.old.bytes lines.old.sum bits
        → HasLines group.new lines.new.count lines.new.bytes lines.new.sum (bits ++ word_bits word) }
{
    let mut piece = Piece::of(word, 32);
    while !piece.is_empty() {
        if let Some(page) = group.feed_piece(&mut piece, steps) {
            add_page(group, page, lines);
        }
    }
}

/// Adds the line of the page that the group has complete. Its text lies here, and not in `hear_lines`, which is entered for every word.
#[inline(never)]
fn add_page(group: &Group, page: Ready, lines: &mut Lines)
    requires page { Some page ≡ ready_answer group.now.ready }
    requires room { lines.old.count < 2 ^ 40 }
    ensures count { lines.new.count ≡ lines.old.count + 1 }
    ensures bytes { lines.new.bytes ≡ lines.old.bytes + length (ready_line group.now.ready) }
    ensures sum { lines.new.sum ≡ lines.old.sum + sum (ready_line group.now.ready) }
{
    let mut text = [0; LONGEST_READ];
    let length = group.text(&mut text);
    lines.add(&written(page.capcode, page.function, &text[..length]));
}

/// Hears a word, and counts the pages that it completes.
pub(crate) fn hear_pages(word: u32, group: &mut Group, steps: &mut Steps<Work>, pages: &mut u64)
    requires { pages.old + 32 < 2 ^ 64 }
    ensures capcodes { group.new.capcodes ≡ group.old.capcodes }
    ensures few { pages.new ≤ pages.old + 32 }
    ensures counted { (bits : List Bool) → HasCounted group.old pages.old bits → HasCounted group.new pages.new (bits ++ word_bits word) }
{
    let mut piece = Piece::of(word, 32);
    while !piece.is_empty() {
        if group.feed_piece(&mut piece, steps).is_some() {
            *pages += 1;
        }
    }
}
