//! The six lines of the report.

ghost use Rattle.std.specs.Prelude.{◌≡◌, ◌≤◌, ◌+◌, ◌++◌, length};
ghost use Rattle.arrayvec.specs.ArrayVec.{array_vec_len};
ghost use Rattle.load.specs.Report.{counted_line};

use arrayvec::ArrayVec;
use endings::lines::push;
use itoa::Buffer;

/// The most digits of a number.
const MOST_DIGITS: usize = 20;

/// The most bytes of the report: six lines of a word, a space, at most 20 digits, LF.
const LONGEST_REPORT: usize = 6 * 29;

/// What was counted.
#[derive(Clone, Copy, Debug, PartialEq, Eq)]
pub struct Report {
    /// The pages that were accepted.
    pub(crate) pages: u64,
    /// The batches of their transmission.
    pub(crate) batches: u64,
    /// The lines of the pages that were heard through the first noise, their bytes, and the sum of these.
    pub(crate) lines: u64,
    pub(crate) bytes: u64,
    pub(crate) sum: u64,
    /// The pages that were heard through the second noise.
    pub(crate) kept: u64,
}

impl Report {
    ghost use Rattle.load.specs.Report.{load_lines};

    /// Its lines.
    pub(crate) fn lines(&self) -> ArrayVec<u8, LONGEST_REPORT>
        ensures { result.items ≡ load_lines self.now }
    {
        let mut lines = ArrayVec::new();
        push_line(b"pages ", self.pages, &mut lines);
        push_line(b"batches ", self.batches, &mut lines);
        push_line(b"lines ", self.lines, &mut lines);
        push_line(b"bytes ", self.bytes, &mut lines);
        push_line(b"sum ", self.sum, &mut lines);
        push_line(b"kept ", self.kept, &mut lines);
        lines
    }
}

/// Appends a line: its word, and a number.
fn push_line(word: &[u8], number: u64, lines: &mut ArrayVec<u8, LONGEST_REPORT>)
    requires { array_vec_len lines.old + length word.now + MOST_DIGITS + 1 ≤ LONGEST_REPORT }
    ensures items { lines.new.items ≡ lines.old.items ++ counted_line word.now number }
    ensures few { array_vec_len lines.new ≤ array_vec_len lines.old + length word.now + MOST_DIGITS + 1 }
{
    let mut buffer = Buffer::new();
    push(word, lines);
    push(buffer.format(number).as_bytes(), lines);
    push(b"\n", lines);
}
