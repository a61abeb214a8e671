//! The capcodes of a group.

ghost use Rattle.std.specs.Prelude.{◌≡◌, IfOk, option_map};
ghost use Rattle.subscribers.specs.Entries.{capcode_of, members_of};

use crate::target::MOST_MEMBERS;
use codeword::Capcode;
use std::alloc::{AllocError, Global};

/// The usable capcode of this number. None where it isn't one.
pub fn capcode_from(n: i64) -> Option<Capcode>
    ensures { result ≡ capcode_of n }
{
    match u32::try_from(n) {
        Ok(n) => Capcode::of(n),
        Err(_) => None,
    }
}

/// The capcodes of these numbers. The inner None says that they aren't 1 to 16 usable ones that differ.
pub fn members_from(alloc: Global, numbers: &[i64]) -> Result<Option<Vec<Capcode>>, AllocError>
    ensures { IfOk result (λ o. option_map (λ v. v.items) o ≡ members_of numbers.now) }
{
    if numbers.is_empty() || numbers.len() > MOST_MEMBERS {
        return Ok(None);
    }
    let mut members = Vec::new(alloc);
    for number in numbers {
        let Some(capcode) = capcode_from(*number) else {
            return Ok(None);
        };
        if members.contains(&capcode) {
            return Ok(None);
        }
        members.push(capcode)?;
    }
    Ok(Some(members))
}
