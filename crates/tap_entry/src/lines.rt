//! The lines of a pages file: docs/profile.md, "pages file".

ghost use Rattle.std.specs.Prelude.{◌≡◌, ◌≤◌, ℕ, List, length, Option, Some, None, IfSome, MatchOption};
ghost use Rattle.std.specs.List.{list_all};
ghost use Rattle.tap_entry.specs.Client.{PageToSend};
ghost use Rattle.tap_entry.specs.Seen.{seen_page};
ghost use Rattle.tap_entry.specs.Signs.{BeginsId, BeginsPage, is_visible, first_line_at, password_at};

use crate::signs::text_line;
use arrayvec::ArrayVec;
use entry_line::characters::{LF, MOST_DIGITS, PASSWORD_SIZE, SPACE};
use page_text::LONGEST_TEXT;

/// A page that was read.
#[derive(Drop)]
pub struct PageLine {
    pub id: ArrayVec<u8, MOST_DIGITS>,
    pub text: ArrayVec<u8, LONGEST_TEXT>,
}

/// Whether all characters are such that a password may have them.
fn are_visible(password: &[u8]) -> bool
    ensures { result ≡ list_all is_visible password.now }
{
    password.iter().all(|c| 0x21 <= *c && *c <= 0x7E)
}

/// The password or none behind `PG1`, and what is behind the line. None where the line isn't right.
fn password(x: &[u8]) -> Option<(Option<[u8; PASSWORD_SIZE]>, &[u8])>
    ensures { MatchOption result (password_at x.now ≡ None) (λ r. password_at x.now ≡ Some (r.0, r.1.now)) }
{
    match x {
        [LF, behind @ ..] => Some((None, behind)),
        [a, b, c, d, e, f, LF, behind @ ..] => {
            let password = [*a, *b, *c, *d, *e, *f];
            if are_visible(&password) {
                Some((Some(password), behind))
            } else {
                None
            }
        }
        _ => None,
    }
}

/// The password or none of the first line, and what is behind it. None where the first line isn't right.
pub(crate) fn first_line(x: &[u8]) -> Option<(Option<[u8; PASSWORD_SIZE]>, &[u8])>
    ensures { MatchOption result (first_line_at x.now ≡ None) (λ r. first_line_at x.now ≡ Some (r.0, r.1.now)) }
{
    match x {
        [b'P', b'G', b'1', behind @ ..] => password(behind),
        _ => None,
    }
}

/// The id at the front of a line, and what is behind its space. None where no id of 1 to 10 digits and a space stand there.
fn id_front(x: &[u8]) -> Option<(&[u8], &[u8])>
    ensures { MatchOption result ((id behind : List ℕ) → BeginsId x.now id behind → ⊥) (λ r. BeginsId x.now r.0.now r.1.now) }
{
    for (i, c) in x.iter().enumerate() {
        if *c < b'0' || b'9' < *c {
            if *c == SPACE && 0 < i && i <= MOST_DIGITS {
                return Some((&x[..i], &x[i + 1..]));
            }
            return None;
        }
    }
    None
}

/// An id as it is kept.
fn kept(id: &[u8]) -> ArrayVec<u8, MOST_DIGITS>
    requires { length id.now ≤ MOST_DIGITS }
    ensures { result.items ≡ id.now }
{
    let mut kept = ArrayVec::new();
    let _ = kept.try_extend_from_slice(id);
    kept
}

/// The page of a line, and what is behind the line. None where no line of a page stands there.
pub(crate) fn page_line(x: &[u8]) -> Option<(PageLine, &[u8])>
    ensures { MatchOption result ((page : PageToSend) (behind : List ℕ) → BeginsPage x.now page behind → ⊥) (λ r. BeginsPage x.now (seen_page r.0) r.1.now) }
{
    let Some((id, rest)) = id_front(x) else {
        return None;
    };
    let Some((text, behind)) = text_line(rest) else {
        return None;
    };
    Some((PageLine { id: kept(id), text }, behind))
}
