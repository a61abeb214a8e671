//! The table of the sync words and slots that are heard: docs/profile.md, "table".

ghost use Rattle.std.specs.Prelude.{◌≡◌, ◌++◌, ◌+◌, ◌%◌, ◌<◌, ◌≤◌, [], IfSome, length};
ghost use Rattle.arrayvec.specs.ArrayVec.{array_vec_len};
ghost use Rattle.bch31.specs.Fix.{fix_of};
ghost use Rattle.codeword.specs.Kinds.{IsSmall};
ghost use Rattle.page_text.specs.Line.{hex_digit as hex_digit_of};
ghost use Rattle.listening.specs.Table.{batch_line as batch_line_of, hex_digits as hex_digits_of, kind_text, slot_line as slot_line_of, TableStandsFor, table_of, word_text};

use crate::listening::Listener;
use arrayvec::ArrayVec;
use bch31::correct;
use codeword::{IDLE, SLOTS, WordKind, kind, number_in_slot};
use itoa::Buffer;
use page_text::lines::{digits, hex_digit};
use receiver::front::{Front, FrontEvent};
use wires::Failed;
use wires::piece::Piece;
use wires::sink::Sink;

/// The most bytes of a line: `batch `, at most 40 digits, LF.
const LINE: usize = 47;

/// The most bytes that a word's own part of a line has: `address `, seven digits, a space, a letter.
const MOST_SAID: usize = 17;

/// A line of the table.
type Line = ArrayVec<u8, LINE>;

/// Prints the table of the bits that it hears.
#[derive(Drop)]
pub struct Table {
    front: Front,
    /// The sync words that came.
    batches: u64,
}

impl Table {
    /// A table of no bits.
    pub fn new() -> Table
        ensures { TableStandsFor result.front result.batches [] }
    {
        Table {
            front: Front::new(),
            batches: 0,
        }
    }
}

impl Listener for Table {
    ghost printed = { λ t. table_of };

    ghost fed = { λ t bits. TableStandsFor t.front t.batches bits };

    fn hear<O: Sink>(&mut self, piece: &mut Piece, out: &mut O) -> Result<(), Failed> {
        match self.front.feed_piece(piece) {
            FrontEvent::Still => Ok(()),
            FrontEvent::Lost => Ok(()),
            FrontEvent::Batch => {
                self.batches = self.batches.saturating_add(1);
                out.put(&batch_line(self.batches))
            }
            FrontEvent::Slot(place, word) => out.put(&slot_line(place, word)),
        }
    }
}

/// The line of a sync word, of which there are so many with it.
fn batch_line(count: u64) -> Line
    ensures { result.items ≡ batch_line_of count }
{
    let mut line = Line::new();
    let mut buffer = Buffer::new();
    push_all(b"batch ", &mut line);
    push_all(buffer.format(count).as_bytes(), &mut line);
    line.push(b'\n');
    line
}

/// The line of a slot.
fn slot_line(place: u32, word: u32) -> Line
    requires { place < SLOTS }
    ensures { result.items ≡ slot_line_of place word }
{
    let mut line = Line::new();
    push_all(
        &[b'0' + (place / 10) as u8, b'0' + (place % 10) as u8, b' '],
        &mut line,
    );
    push_word(place, word, &mut line);
    line.push(b'\n');
    line
}

/// Appends what a word says in a slot.
fn push_word(place: u32, word: u32, line: &mut Line)
    requires place { place < SLOTS }
    requires room { array_vec_len line.old + MOST_SAID ≤ LINE }
    ensures items { line.new.items ≡ line.old.items ++ word_text place word (fix_of word) }
    ensures few { array_vec_len line.new ≤ array_vec_len line.old + MOST_SAID }
{
    let Some(corrected) = correct(word) else {
        push_all(b"bad", line);
        return;
    };
    if corrected == IDLE {
        push_all(b"idle", line);
        return;
    }
    push_kind(place, kind(word), line);
}

/// Appends what a word carries in a slot.
fn push_kind(place: u32, kind: Option<WordKind>, line: &mut Line)
    requires place { place < SLOTS }
    requires small { IfSome kind IsSmall }
    requires room { array_vec_len line.old + MOST_SAID ≤ LINE }
    ensures items { line.new.items ≡ line.old.items ++ kind_text place kind }
    ensures few { array_vec_len line.new ≤ array_vec_len line.old + MOST_SAID }
{
    let Some(kind) = kind else {
        return;
    };
    match kind {
        WordKind::Address { high, function } => {
            push_all(b"address ", line);
            push_all(&digits(number_in_slot(high, place)), line);
            push_all(&[b' ', function.letter()], line);
        }
        WordKind::Message { group } => {
            push_all(b"message ", line);
            push_all(&group_digits(group), line);
        }
    }
}

/// The five hexadecimal digits of a group, the highest first.
fn group_digits(group: u32) -> [u8; 5]
    ensures { result ≡ hex_digits_of 5 group }
{
    [
        nibble(group / 65_536),
        nibble(group / 4_096),
        nibble(group / 256),
        nibble(group / 16),
        nibble(group),
    ]
}

/// The lowest hexadecimal digit of a number.
fn nibble(number: u32) -> u8
    ensures { result ≡ hex_digit_of (number % 16) }
{
    hex_digit((number % 16) as u8)
}

/// Appends bytes that there is room for.
fn push_all(bytes: &[u8], line: &mut Line)
    requires { array_vec_len line.old + length bytes.now ≤ LINE }
    ensures items { line.new.items ≡ line.old.items ++ bytes.now }
    ensures len { array_vec_len line.new ≡ array_vec_len line.old + length bytes.now }
{
    let _ = line.try_extend_from_slice(bytes);
}
