//! The line of a piece, and its verb and its argument.

ghost use Rattle.std.specs.Prelude.{◌≡◌, ◌≤◌, length};
ghost use Rattle.snpp_entry.specs.Lines.{argument, without_cr, verb};

use entry_line::characters::{CR, SPACE};

/// The line of a piece: without one CR at its end.
pub(crate) fn line_of(piece: &[u8]) -> &[u8]
    ensures line { result.now ≡ without_cr piece.now }
{
    match piece.split_last() {
        None => piece,
        Some((last, front)) => { if *last == CR { front } else { piece } }
    }
}

/// What stands before the first space, and what follows it, or nothing.
pub(crate) fn words(line: &[u8]) -> (&[u8], &[u8])
    ensures verb { result.0.now ≡ verb line.now }
    ensures argument { result.1.now ≡ argument line.now }
    ensures short { length result.1.now ≤ length line.now }
{
    for (i, c) in line.iter().enumerate() {
        if *c == SPACE {
            return (&line[..i], &line[i + 1..]);
        }
    }
    (line, &line[line.len()..])
}
