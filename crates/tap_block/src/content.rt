//! The sum of a block, and the parts of a content.

ghost use Rattle.std.specs.Prelude.{◌≡◌, ◌≢◌, ℕ, ◌+◌, ◌%◌, ◌<◌, List, [], ◌∷◌, ◌++◌, length, take, MatchOption, IfSome};
ghost use Rattle.std.specs.List.{AllByRecursion};
ghost use Rattle.entry_line.specs.Chars.{cr};
ghost use Rattle.tap_block.specs.Chars.{characters, sum_of, written};
ghost use Rattle.tap_block.specs.Fields.{AreParts};

use entry_line::characters::CR;

/// Sums are taken modulo this number.
pub(crate) const SUMS: u32 = 4096;

/// The sum of the characters that the bytes stand for, modulo 4096, as three characters of four bits each plus 0x30, the highest
/// first.
pub fn sum(chars: &[u8]) -> [u8; 3]
    ensures { result ≡ written (sum_of (characters chars.now)) }
{
    let mut total: u32 = 0;
    for byte in chars {
        total = (total + u32::from(*byte % 128)) % SUMS;
    }
    sum_written(total)
}

/// A sum as three characters of four bits each plus 0x30, the highest first.
pub(crate) fn sum_written(total: u32) -> [u8; 3]
    requires { total < SUMS }
    ensures { result ≡ written total }
{
    [
        b'0' + (total / 256) as u8,
        b'0' + (total / 16 % 16) as u8,
        b'0' + (total % 16) as u8,
    ]
}

/// The characters up to the first CR, and those behind it.
fn line_of(x: &[u8]) -> Option<(&[u8], &[u8])>
    ensures { MatchOption result (AllByRecursion (λ c. c ≢ cr) x.now) (λ r. (x.now ≡ r.0.now ++ cr ∷ r.1.now) × AllByRecursion (λ c. c ≢ cr) r.0.now) }
{
    for (i, c) in x.iter().enumerate() {
        if *c == CR {
            return Some((&x[..i], &x[i + 1..]));
        }
    }
    None
}

/// The two fields of a content. None exactly where the content isn't two parts without CR, each followed by one CR.
pub fn fields(content: &[u8]) -> Option<(&[u8], &[u8])>
    ensures { MatchOption result ((first second : List ℕ) → AreParts content.now first second → ⊥) (λ r. AreParts content.now r.0.now r.1.now) }
{
    let Some((first, rest)) = line_of(content) else {
        return None;
    };
    let Some((second, rest)) = line_of(rest) else {
        return None;
    };
    if rest.is_empty() {
        Some((first, second))
    } else {
        None
    }
}

#[cfg(test)]
mod tests {
    use super::*;

    #[test]
    fn a_content_has_two_fields_or_none(rt: HostRuntime) {
        let none: [&[u8]; 5] = [b"", b"123", b"123\rABC", b"123\rABC\r\r", b"123\rABC\rX"];
        for content in none {
            assert_eq!(rt; fields(content), None);
        }
        match fields(b"\rABC\r") {
            Some((id, text)) => {
                assert_eq!(rt; id, b"".as_slice());
                assert_eq!(rt; text, b"ABC".as_slice());
            }
            None => assert!(rt; false),
        }
    }
}
