//! Worked transmissions, slot by slot.

use crate::{Schedule, Slot};
use codeword::{Capcode, Function, IDLE, address_word, message_word};
use page_pool::Pool;
use page_text::fits;
use std::test::Fail;
use wires::steps::{Steps, Work};

/// Tones to the capcodes 15, 8 and 16: those to 8 and 16 come first, and that to 15 in the last frame.
const THREE_TONES: [u32; 16] = [
    0x0000_283F,
    0x0000_4DD8,
    IDLE,
    IDLE,
    IDLE,
    IDLE,
    IDLE,
    IDLE,
    IDLE,
    IDLE,
    IDLE,
    IDLE,
    IDLE,
    IDLE,
    0x0000_283F,
    IDLE,
];

/// The text `ABC` to capcode 8.
const ABC: [u32; 16] = [
    0x0000_3B49,
    0xC143_87B8,
    0xC000_04DC,
    IDLE,
    IDLE,
    IDLE,
    IDLE,
    IDLE,
    IDLE,
    IDLE,
    IDLE,
    IDLE,
    IDLE,
    IDLE,
    IDLE,
    IDLE,
];

/// Puts a page, and says whether there was such a page and room for it.
fn put(pool: &mut Pool, capcode: u32, function: Function, text: &[u8]) -> bool {
    let Some(capcode) = Capcode::of(capcode) else {
        return false;
    };
    fits(function, text).is_ok() && pool.put(capcode, function, text).is_ok()
}

/// The word of the next slot. None at the end.
fn next(schedule: &mut Schedule<'_>, steps: &mut Steps<Work>) -> Option<u32> {
    if schedule.done() {
        return None;
    }
    match schedule.slot(steps) {
        Slot::Idle => Some(IDLE),
        Slot::Address(capcode, function) => Some(address_word(capcode, function)),
        Slot::Message(group) => Some(message_word(group)),
    }
}

/// Whether these words are the next ones.
fn begins_with(schedule: &mut Schedule<'_>, words: &[u32]) -> bool {
    let mut steps = Steps::new();
    for w in words {
        if next(schedule, &mut steps) != Some(*w) {
            return false;
        }
    }
    true
}

#[test]
fn gives_the_slots_of_three_tones(rt: HostRuntime) -> Result<(), Fail> {
    let mut pool = Pool::new(rt.alloc(), 16)?;
    assert!(rt; put(&mut pool, 15, Function::Tone1, b""));
    assert!(rt; put(&mut pool, 8, Function::Tone1, b""));
    assert!(rt; put(&mut pool, 16, Function::Tone1, b""));
    let mut schedule = Schedule::over(&mut pool);
    assert!(rt; begins_with(&mut schedule, &THREE_TONES));
    assert!(rt; schedule.done());
    Ok(())
}

#[test]
fn a_page_leaves_the_pool_when_its_run_is_whole(rt: HostRuntime) -> Result<(), Fail> {
    let mut pool = Pool::new(rt.alloc(), 16)?;
    assert!(rt; put(&mut pool, 8, Function::Alpha, b"ABC"));
    let mut schedule = Schedule::over(&mut pool);
    assert!(rt; begins_with(&mut schedule, &ABC[..2]));
    assert_eq!(rt; pool.count(), 1);
    let mut schedule = Schedule::over(&mut pool);
    assert!(rt; begins_with(&mut schedule, &ABC[..3]));
    assert_eq!(rt; pool.count(), 0);
    let schedule = Schedule::over(&mut pool);
    assert!(rt; schedule.done());
    Ok(())
}
