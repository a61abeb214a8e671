//! Texts as a pages file writes them: docs/profile.md, "pages file".

ghost use Rattle.std.specs.Prelude.{◌≡◌, ◌<◌, ℕ, List, ◌∷◌, length, Some, None, IfSome, MatchOption};
ghost use Rattle.entry_line.specs.Chars.{lf};
ghost use Rattle.tap_entry.specs.PagesFile.{digit_of};
ghost use Rattle.tap_entry.specs.Signs.{sign_at, escape_at, hexadecimal_at, BeginsText};

use arrayvec::ArrayVec;
use entry_line::characters::{CR, LF};
use page_text::LONGEST_TEXT;

/// The highest character of a text.
const HIGHEST: u8 = 0x7E;

/// The value of a hexadecimal digit. None where it isn't one.
fn digit(c: u8) -> Option<u8>
    ensures value { result ≡ digit_of c }
    ensures small { IfSome result (λ n. n < 16) }
{
    match c {
        b'0'..=b'9' => Some(c - b'0'),
        b'A'..=b'F' => Some(c - b'A' + 10),
        b'a'..=b'f' => Some(c - b'a' + 10),
        _ => None,
    }
}

/// The character that stands behind `\x`, and what is behind its two digits. None where it is above 0x7E, or no two digits stand
/// there.
fn hexadecimal(x: &[u8]) -> Option<(u8, &[u8])>
    ensures value { MatchOption result (hexadecimal_at x.now ≡ None) (λ r. hexadecimal_at x.now ≡ Some (r.0, r.1.now)) }
    ensures shorter { IfSome result (λ r. length r.1.now < length x.now) }
{
    let [high, low, behind @ ..] = x else {
        return None;
    };
    let Some(high) = digit(*high) else {
        return None;
    };
    let Some(low) = digit(*low) else {
        return None;
    };
    let c = 16 * high + low;
    if c <= HIGHEST {
        Some((c, behind))
    } else {
        None
    }
}

/// The character that stands behind a backslash, and what is behind it. None where no escape stands there.
fn escape(x: &[u8]) -> Option<(u8, &[u8])>
    ensures value { MatchOption result (escape_at x.now ≡ None) (λ r. escape_at x.now ≡ Some (r.0, r.1.now)) }
    ensures shorter { IfSome result (λ r. length r.1.now < length x.now) }
{
    match x {
        [b'\\', behind @ ..] => Some((b'\\', behind)),
        [b'n', behind @ ..] => Some((LF, behind)),
        [b'r', behind @ ..] => Some((CR, behind)),
        [b'x', behind @ ..] => hexadecimal(behind),
        _ => None,
    }
}

/// The first character of a text, and what is behind it. None where no character of a text stands there.
fn sign(x: &[u8]) -> Option<(u8, &[u8])>
    ensures value { MatchOption result (sign_at x.now ≡ None) (λ r. sign_at x.now ≡ Some (r.0, r.1.now)) }
    ensures shorter { IfSome result (λ r. length r.1.now < length x.now) }
{
    match x {
        [b'\\', behind @ ..] => escape(behind),
        [c @ 0x20..=HIGHEST, behind @ ..] => Some((*c, behind)),
        _ => None,
    }
}

/// What is behind the LF that ends a line. None where no LF stands there.
fn line_end(x: &[u8]) -> Option<&[u8]>
    ensures { MatchOption result ((behind : List ℕ) → x.now ≡ lf ∷ behind → ⊥) (λ behind. x.now ≡ lf ∷ behind.now) }
{
    match x {
        [LF, behind @ ..] => Some(behind),
        _ => None,
    }
}

/// The text up to the end of the line, and what is behind the line. None where the line doesn't end there, or the text has more than
/// `LONGEST_TEXT` characters.
pub(crate) fn text_line(x: &[u8]) -> Option<(ArrayVec<u8, LONGEST_TEXT>, &[u8])>
    ensures { MatchOption result ((text behind : List ℕ) → BeginsText x.now text behind → ⊥) (λ r. BeginsText x.now r.0.items r.1.now) }
{
    let mut text = ArrayVec::new();
    let mut rest = x;
    loop {
        match sign(rest) {
            Some((c, behind)) => {
                if text.len() == LONGEST_TEXT {
                    return None;
                }
                text.push(c);
                rest = behind;
            }
            None => break,
        }
    }
    match line_end(rest) {
        Some(behind) => Some((text, behind)),
        None => None,
    }
}
