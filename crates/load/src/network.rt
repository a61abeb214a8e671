//! The 64 subscribers, their settings and their receivers.

ghost use Rattle.std.specs.Prelude.{◌≡◌, ◌<◌, ℕ, [], IfOk};
ghost use Rattle.receiver.specs.Listeners.{StandsFor, is_one_of};
ghost use Rattle.load.specs.Subscribers.{capcode_number, function_number, id_number, load_capcodes, load_settings, receivers_before, subscribers_before};

use codeword::{Capcode, Function};
use receiver::Group;
use std::alloc::{AllocError, Global};
use subscribers::Settings;
use wires::Memory;

/// How many subscribers there are.
pub(crate) const SUBSCRIBERS: u32 = 64;

/// How many cells the pool has.
pub(crate) const CELLS: u32 = 65_536;

/// The id of the first subscriber. The others follow one another.
const FIRST_ID: u32 = 5_550_000;

/// The capcode of the first subscriber, and the step to the next.
const FIRST_CAPCODE: u32 = 1000;

const STEP: u32 = 37;

/// The id of the subscriber of this number, from 0.
pub(crate) fn id_at(i: u32) -> u32
    requires { i < SUBSCRIBERS }
    ensures { result ≡ id_number i }
{
    FIRST_ID + i
}

/// Its capcode.
fn capcode_at(i: u32) -> Capcode
    requires { i < SUBSCRIBERS }
    ensures { result ≡ capcode_number i }
{
    Capcode::of(FIRST_CAPCODE + STEP * i).unwrap()
}

/// Its function.
pub(crate) fn function_at(i: u32) -> Function
    ensures { result ≡ function_number i }
{
    match i % 4 {
        0 => Function::Numeric,
        1 => Function::Tone1,
        2 => Function::Tone2,
        _ => Function::Alpha,
    }
}

/// The number of each subscriber's id, its capcode and its function.
fn subscribers(alloc: Global) -> Result<Vec<(u32, Capcode, Function)>, AllocError>
    ensures { IfOk result (λ ids. ids.items ≡ subscribers_before 64) }
{
    let mut ids = Vec::new(alloc);
    for i in 0..SUBSCRIBERS {
        ids.push((id_at(i), capcode_at(i), function_at(i)))?;
    }
    Ok(ids)
}

/// The settings of these subscribers.
pub(crate) fn settings(alloc: Global) -> Result<Settings, Memory>
    ensures { IfOk result (λ s. s ≡ load_settings) }
{
    match subscribers(alloc) {
        Ok(ids) => Settings::made(alloc, CELLS, &ids),
        Err(_) => Err(Memory),
    }
}

/// A number for each of their receivers, from 1, with its capcode.
fn pairs(alloc: Global) -> Result<Vec<(u32, Capcode)>, AllocError>
    ensures { IfOk result (λ pairs. pairs.items ≡ receivers_before 64) }
{
    let mut pairs = Vec::new(alloc);
    for i in 0..SUBSCRIBERS {
        pairs.push((i + 1, capcode_at(i)))?;
    }
    Ok(pairs)
}

/// Their receivers, which were fed no bit.
pub(crate) fn receivers(alloc: Global) -> Result<Group, Memory>
    ensures capcodes { IfOk result (λ g. (c : ℕ) → is_one_of g.capcodes c ≡ is_one_of load_capcodes c) }
    ensures stands { IfOk result (λ g. StandsFor g []) }
{
    match pairs(alloc) {
        Ok(pairs) => Group::new(alloc, &pairs),
        Err(_) => Err(Memory),
    }
}
