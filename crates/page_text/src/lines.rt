//! The printed line of a page: docs/profile.md, "printed line".

ghost use Rattle.std.specs.Prelude.{◌≡◌, ◌+◌, ◌*◌, ◌%◌, ◌<◌, ◌≤◌, [], ◌∷◌, ◌++◌, flat_map, length};
ghost use Rattle.arrayvec.specs.ArrayVec.{array_vec_len};
ghost use Rattle.wires.specs.Written.{Puts};
ghost use Rattle.page_text.specs.Line.{decimal_digits, escaped_byte, hex_digit as hex_digit_of, line_of};

use crate::limits::LONGEST_READ;
use arrayvec::ArrayVec;
use codeword::{Capcode, Function};
use wires::Failed;
use wires::sink::Sink;

/// The most bytes that one byte of a text is written by.
const ESCAPED: usize = 4;

/// The digits of a capcode.
const DIGITS: usize = 7;

/// The most bytes of a printed line: the digits, a space, the letter, a space, the text, LF.
pub const LONGEST_LINE: usize = DIGITS + 3 + ESCAPED * LONGEST_READ + 1;

/// A text of at most so many bytes gets its line in a small buffer, since a buffer is cleared at the size of its longest line.
const SHORT_TEXT: usize = 128;

/// The most bytes of the line of such a text.
const SHORT_LINE: usize = DIGITS + 3 + ESCAPED * SHORT_TEXT + 1;

/// The hexadecimal digits.
const HEX_DIGITS: [u8; 16] = *b"0123456789ABCDEF";

/// Puts the printed line of a page as one piece: the capcode in seven digits, the function's letter, and the text, between them
/// spaces. In the text a backslash is `\\`, LF `\n`, CR `\r`, the other characters 0x20 to 0x7E are themselves, and every other
/// byte is `\x` and two hexadecimal digits in capitals. `Failed` where the sink fails.
pub fn line<K: Sink>(
    capcode: Capcode,
    function: Function,
    text: &[u8],
    sink: &mut K,
) -> Result<(), Failed>
    requires { length text.now ≤ LONGEST_READ }
    ensures { Puts (K.state sink.old) (K.state sink.new) (line_of capcode function text.now) result }
{
    if text.len() <= SHORT_TEXT {
        put_short(capcode, function, text, sink)
    } else {
        put_long(capcode, function, text, sink)
    }
}

/// Puts the line of a short text. Each buffer lies in a call of its own.
#[inline(never)]
fn put_short<K: Sink>(
    capcode: Capcode,
    function: Function,
    text: &[u8],
    sink: &mut K,
) -> Result<(), Failed>
    requires { length text.now ≤ SHORT_TEXT }
    ensures { Puts (K.state sink.old) (K.state sink.new) (line_of capcode function text.now) result }
{
    let mut line = ArrayVec::<u8, SHORT_LINE>::new();
    push_line(capcode, function, text, &mut line);
    sink.put(&line)
}

/// Puts the line of any text.
#[inline(never)]
fn put_long<K: Sink>(
    capcode: Capcode,
    function: Function,
    text: &[u8],
    sink: &mut K,
) -> Result<(), Failed>
    requires { length text.now ≤ LONGEST_READ }
    ensures { Puts (K.state sink.old) (K.state sink.new) (line_of capcode function text.now) result }
{
    let line = written(capcode, function, text);
    sink.put(&line)
}

/// The line.
pub fn written(capcode: Capcode, function: Function, text: &[u8]) -> ArrayVec<u8, LONGEST_LINE>
    requires { length text.now ≤ LONGEST_READ }
    ensures { result.items ≡ line_of capcode function text.now }
{
    let mut line = ArrayVec::new();
    push_line(capcode, function, text, &mut line);
    line
}

/// Appends the line.
fn push_line<const N: usize>(
    capcode: Capcode,
    function: Function,
    text: &[u8],
    line: &mut ArrayVec<u8, N>,
)
    requires { array_vec_len line.old + DIGITS + 4 + ESCAPED * length text.now ≤ N }
    ensures { line.new.items ≡ line.old.items ++ line_of capcode function text.now }
{
    push_digits(capcode.number(), line);
    line.push(b' ');
    line.push(function.letter());
    line.push(b' ');
    push_text(text, line);
    line.push(b'\n');
}

/// Appends the seven lowest decimal digits of a number.
fn push_digits<const N: usize>(number: u32, line: &mut ArrayVec<u8, N>)
    requires { array_vec_len line.old + DIGITS ≤ N }
    ensures { line.new.items ≡ line.old.items ++ decimal_digits 7 number }
{
    for digit in &digits(number) {
        line.push(*digit);
    }
}

/// The seven lowest decimal digits of a number, the highest first.
pub fn digits(number: u32) -> [u8; 7]
    ensures { result ≡ decimal_digits 7 number }
{
    [
        digit(number / 1_000_000),
        digit(number / 100_000),
        digit(number / 10_000),
        digit(number / 1_000),
        digit(number / 100),
        digit(number / 10),
        digit(number),
    ]
}

/// The lowest decimal digit of a number.
fn digit(number: u32) -> u8
    ensures { result ≡ 48 + number % 10 }
{
    b'0' + (number % 10) as u8
}

/// Appends the bytes of a text as they are written.
fn push_text<const N: usize>(text: &[u8], line: &mut ArrayVec<u8, N>)
    requires { array_vec_len line.old + ESCAPED * length text.now ≤ N }
    ensures items { line.new.items ≡ line.old.items ++ flat_map escaped_byte text.now }
    ensures few { array_vec_len line.new ≤ array_vec_len line.old + ESCAPED * length text.now }
{
    for c in text {
        push_escaped(*c, line);
    }
}

/// Appends one byte of a text as it is written.
fn push_escaped<const N: usize>(c: u8, line: &mut ArrayVec<u8, N>)
    requires { array_vec_len line.old + ESCAPED ≤ N }
    ensures items { line.new.items ≡ line.old.items ++ escaped_byte c }
    ensures few { array_vec_len line.new ≤ array_vec_len line.old + ESCAPED }
{
    match c {
        b'\\' => push_pair(b'\\', line),
        b'\n' => push_pair(b'n', line),
        b'\r' => push_pair(b'r', line),
        0x20..=0x7E => line.push(c),
        _ => {
            push_pair(b'x', line);
            line.push(hex_digit(c / 16));
            line.push(hex_digit(c % 16));
        }
    }
}

/// Appends a backslash and a character.
fn push_pair<const N: usize>(c: u8, line: &mut ArrayVec<u8, N>)
    requires { array_vec_len line.old + 2 ≤ N }
    ensures items { line.new.items ≡ line.old.items ++ 92 ∷ c ∷ [] }
    ensures len { array_vec_len line.new ≡ array_vec_len line.old + 2 }
{
    line.push(b'\\');
    line.push(c);
}

/// A hexadecimal digit, in capitals.
pub fn hex_digit(n: u8) -> u8
    requires { n < 16 }
    ensures { result ≡ hex_digit_of n }
{
    HEX_DIGITS[usize::from(n)]
}
