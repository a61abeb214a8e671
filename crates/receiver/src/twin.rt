//! A plain program beside the receivers, which they are compared with: it has a whole list of bits, counts the wrong bits of each
//! window one by one, cuts what follows a sync word into words, and looks ahead from each address word for the end of its page.

use crate::ready::Ready;
use codeword::{Capcode, SYNC, WordKind, kind};
use page_text::{LONGEST_READ, TextReader};
use std::alloc::{AllocError, Global};

/// A page heard: how many bits there are up to the one that completes it, and its text.
#[derive(Debug, PartialEq, Drop)]
pub(crate) struct HeardPage {
    pub(crate) end: usize,
    pub(crate) ready: Ready,
    pub(crate) text: Vec<u8>,
}

/// The word of a slot: its place, and how many bits are left behind it.
#[derive(Drop)]
struct Slot {
    place: u64,
    word: u32,
    left: usize,
}

/// The pages to these capcodes, in order.
pub(crate) fn pages(
    alloc: Global,
    capcodes: &[Capcode],
    bits: &[bool],
) -> Result<Vec<HeardPage>, AllocError> {
    let mut heard = Vec::new(alloc);
    let mut rest = bits;
    for _ in bits {
        let Some(locked) = after_sync(rest) else {
            return Ok(heard);
        };
        let mut slots = Vec::new(alloc);
        let lost = read_slots(locked, &mut slots)?;
        add_pages(alloc, capcodes, bits.len(), &slots, &mut heard)?;
        let Some(more) = lost else {
            return Ok(heard);
        };
        rest = more;
    }
    Ok(heard)
}

/// What follows the first 32 bits that differ from SYNC in at most two.
fn after_sync(bits: &[bool]) -> Option<&[bool]> {
    let start = bits.windows(32).position(|window| wrong_bits(window) <= 2)?;
    bits.get(start + 32..)
}

/// In how many bits a window differs from SYNC.
fn wrong_bits(window: &[bool]) -> usize {
    let mut sync = SYNC;
    let mut wrong = 0usize;
    for bit in window {
        if *bit != (sync >= 1 << 31) {
            wrong = wrong.saturating_add(1);
        }
        sync = sync.wrapping_mul(2);
    }
    wrong
}

/// Adds the slots of the lock that these bits follow, and answers what follows the word at which it is lost.
fn read_slots<'a>(
    bits: &'a [bool],
    slots: &mut Vec<Slot>,
) -> Result<Option<&'a [bool]>, AllocError> {
    let mut rest = bits;
    for k in 0..bits.len() as u64 {
        let Some((word, more)) = rest.split_at_checked(32) else {
            return Ok(None);
        };
        if k % 17 < 16 {
            slots.push(Slot {
                place: k % 17,
                word: number(word),
                left: more.len(),
            })?;
        } else if wrong_bits(word) > 2 {
            return Ok(Some(more));
        }
        rest = more;
    }
    Ok(None)
}

/// The word that these bits make.
fn number(bits: &[bool]) -> u32 {
    let mut number = 0u32;
    for bit in bits {
        number = number.wrapping_mul(2) | u32::from(*bit);
    }
    number
}

/// Adds the pages that begin in these slots, of so many bits.
fn add_pages(
    alloc: Global,
    capcodes: &[Capcode],
    bits: usize,
    slots: &[Slot],
    heard: &mut Vec<HeardPage>,
) -> Result<(), AllocError> {
    let mut rest = slots;
    for slot in slots {
        let Some((_, behind)) = rest.split_first() else {
            return Ok(());
        };
        rest = behind;
        let Some(ready) = beginning(capcodes, slot) else {
            continue;
        };
        if let Some((reader, left)) = ending(behind) {
            let mut text = [0; LONGEST_READ];
            let length = reader.text(ready.function, &mut text);
            heard.push(HeardPage {
                end: bits.saturating_sub(left),
                ready,
                text: text[..length].to_vec(alloc)?,
            })?;
        }
    }
    Ok(())
}

/// The page that begins in a slot.
fn beginning(capcodes: &[Capcode], slot: &Slot) -> Option<Ready> {
    let said = kind(slot.word)?;
    let WordKind::Address { high, function } = said else {
        return None;
    };
    let number = 8 * u64::from(high) + slot.place / 2;
    let at = capcodes
        .iter()
        .position(|c| u64::from(c.number()) == number)?;
    let capcode = *capcodes.get(at)?;
    Some(Ready { capcode, function })
}

/// The groups before the address word that ends a page, at most `MOST_GROUPS`, and how many bits are left behind this word.
fn ending(slots: &[Slot]) -> Option<(TextReader, usize)> {
    let mut reader = TextReader::new();
    for slot in slots {
        let said = kind(slot.word)?;
        match said {
            WordKind::Address { .. } => return Some((reader, slot.left)),
            WordKind::Message { group } => {
                if !reader.push(group) {
                    return None;
                }
            }
        }
    }
    None
}
