//! Fields and their values: docs/profile.md, "fields".

ghost use Rattle.std.specs.Prelude.{◌≡◌, ℕ, ◌+◌, ◌*◌, ◌<◌, ◌≤◌, List, [], ◌∷◌, length, take, MatchResult, IfOk, Ok, Err};
ghost use Rattle.std.specs.List.{All};
ghost use Rattle.tap_block.specs.Fields.{read_field, front, escaped, HasValue, HasFault};

use crate::control::SUB;
use crate::faults::FieldFault;

/// SUB and a letter spell the letter less this number.
const SHIFT: u8 = 0x40;

/// What the first spelling of a field spells, and what is behind it. The fault is that of the first place.
fn spelled(field: &[u8]) -> Result<(u8, &[u8]), FieldFault>
    requires { 0 < length field.now }
    ensures value { MatchResult result (λ r. read_field field.now ≡ front (r.0 ∷ []) (read_field r.1.now)) (λ e. read_field field.now ≡ Err e) }
    ensures behind { IfOk result (λ r. length r.1.now < length field.now) }
{
    match field {
        [c @ 0x20..=0x7E, behind @ ..] => Ok((*c, behind)),
        [SUB, letter @ 0x40..=0x5F, behind @ ..] => Ok((*letter - SHIFT, behind)),
        [SUB] => Err(FieldFault::SubEnd),
        [SUB, ..] => Err(FieldFault::SubLetter),
        _ => Err(FieldFault::Control),
    }
}

/// Writes the value of a field to the front of `into`, and answers its length in characters. Where the field has no value, the
/// answer is the fault of its first place where no spelling begins, and what `into` then holds is open.
pub fn unescape(field: &[u8], into: &mut [u8]) -> Result<usize, FieldFault>
    requires room { length field.now ≤ length into.old }
    ensures value { MatchResult result (λ n. HasValue field.now (take n into.new)) (λ fault. HasFault field.now fault) }
    ensures fits { IfOk result (λ n. n ≤ length field.now) }
{
    let mut count = 0;
    let mut rest = field;
    while !rest.is_empty() {
        let (c, behind) = match spelled(rest) {
            Ok(first) => first,
            Err(fault) => return Err(fault),
        };
        into[count] = c;
        count += 1;
        rest = behind;
    }
    Ok(count)
}

/// Writes the field that spells a value to the front of `into`, and answers its length in characters: 0x00 to 0x1F as SUB and a
/// letter, and 0x20 to 0x7E as themselves.
pub fn escape_into(value: &[u8], into: &mut [u8]) -> usize
    requires spelled { All (λ c. c ≤ 126) value.now }
    requires room { 2 * length value.now ≤ length into.old }
    ensures field { take result into.new ≡ escaped value.now }
    ensures fits { result ≤ 2 * length value.now }
{
    let mut count = 0;
    for c in value {
        if *c < 0x20 {
            into[count] = SUB;
            into[count + 1] = *c + SHIFT;
            count += 2;
        } else {
            into[count] = *c;
            count += 1;
        }
    }
    count
}
