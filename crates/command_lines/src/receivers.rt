//! The receivers that a command line lists.

ghost use Rattle.std.specs.Prelude.{◌≡◌, ℕ, ◌<◌, ◌≤◌, ◌++◌, ◌∷◌, [], All, IfOk, List, OnOk, length, MatchOption, IsTrue, ◌↔◌};
ghost use Rattle.listening.specs.PageLines.{group_lines, play_lines};
ghost use Rattle.listening.specs.TwinLines.{twice_lines, twin_group_lines};
ghost use Rattle.receiver.specs.Listeners.{StandsFor};
ghost use Rattle.receiver.specs.Receivers.{most_receivers};
ghost use Rattle.repeats.specs.TwinListeners.{StandsForTwice};
ghost use Rattle.command_lines.specs.Commands.{AreReceiverWords, texts};
ghost use Rattle.command_lines.specs.Pairs.{paired_with, pairs_from};

use crate::capcodes::{Capcodes, capcodes_of};
use codeword::Capcode;
use receiver::{Group, MOST_RECEIVERS};
use repeats::TwinGroup;
use std::alloc::Global;
use std::marker::Model;
use wires::Memory;

/// The most receivers that a command line may list.
const MOST_LISTED: usize = MOST_RECEIVERS as usize;

/// One to 64 receivers, by the capcodes of each. They are numbered from 1 in their order.
#[derive(Drop)]
pub struct Receivers {
    items: [Capcodes; MOST_LISTED],
    count: usize,
}

impl Model for Receivers {
    ghost use Rattle.std.specs.Prelude.{ℕ, ◌<◌, ◌≤◌, List, take};

    ghost Value = { List (List ℕ) };

    ghost view = { λ r. take r.count r.items };

    ghost invariant = { λ r. (0 < r.count) × (r.count ≤ 64) };
}

impl Receivers {
    /// One receiver.
    fn of(first: Capcodes) -> Receivers
        ensures { result ≡ first ∷ [] }
    {
        let mut items = [first.as_slice()[0]; MOST_LISTED].map(Capcodes::of);
        items[0] = first;
        Receivers { items, count: 1 }
    }

    /// The capcodes of each.
    fn as_slice(&self) -> &[Capcodes]
        ensures value { result.now ≡ self.now }
        ensures some { 0 < length result.now }
        ensures few { length result.now ≤ 64 }
    {
        &self.items[..self.count]
    }

    /// Whether there are 64.
    fn is_full(&self) -> bool
        ensures { IsTrue result ↔ (length self.now ≡ 64) }
    {
        self.as_slice().len() == MOST_LISTED
    }

    /// Adds a receiver at the end.
    fn push(&mut self, receiver: Capcodes)
        requires { length self.old < 64 }
        ensures { self.new ≡ self.old ++ receiver ∷ [] }
    {
        self.items[self.count] = receiver;
        self.count += 1;
    }
}

/// The receivers that the words say, one a word. None exactly where they aren't one to 64 words for receivers.
pub(crate) fn receivers_of(words: &[String]) -> Option<Receivers>
    ensures { MatchOption result ((receivers : List (List ℕ)) → AreReceiverWords (texts words.now) receivers → ⊥) (λ receivers. AreReceiverWords (texts words.now) receivers) }
{
    let (first, others) = words.split_first()?;
    let mut receivers = Receivers::of(capcodes_of(first.as_str())?);
    for word in others {
        let capcodes = capcodes_of(word.as_str())?;
        if receivers.is_full() {
            return None;
        }
        receivers.push(capcodes);
    }
    Some(receivers)
}

/// A group of these receivers, with their numbers. Memory comes only where there was none.
pub fn group_of(alloc: Global, receivers: &Receivers) -> Result<Group, Memory>
    ensures prints { IfOk result (λ g. group_lines g ≡ play_lines receivers.now) }
    ensures stands { IfOk result (λ g. StandsFor g []) }
{
    let Ok(pairs) = pairs_of(alloc, receivers) else {
        return Err(Memory);
    };
    Group::new(alloc, &pairs)
}

/// A group of these receivers, with their numbers, that hears each transmission twice. Memory comes only where there was none.
pub fn twin_group_of(alloc: Global, receivers: &Receivers) -> Result<TwinGroup, Memory>
    ensures prints { IfOk result (λ g. twin_group_lines g ≡ twice_lines receivers.now) }
    ensures stands { IfOk result (λ g. StandsForTwice g []) }
{
    let Ok(pairs) = pairs_of(alloc, receivers) else {
        return Err(Memory);
    };
    TwinGroup::new(alloc, &pairs)
}

/// The number of each of these receivers, paired with each of its capcodes. Memory comes only where there was none.
fn pairs_of(alloc: Global, receivers: &Receivers) -> Result<Vec<(u32, Capcode)>, Memory>
    ensures pairs { IfOk result (λ pairs. pairs.items ≡ pairs_from 1 receivers.now) }
    ensures numbers { IfOk result (λ pairs. All (λ pair. (1 ≤ pair.0) × (pair.0 ≤ most_receivers)) pairs.items) }
{
    let mut pairs = Vec::new(alloc);
    let mut number = 1;
    for capcodes in receivers.as_slice() {
        let Ok(()) = push_pairs(number, capcodes.as_slice(), &mut pairs) else {
            return Err(Memory);
        };
        number += 1;
    }
    Ok(pairs)
}

/// Appends a receiver's number, paired with each of its capcodes. Memory comes only where there was none.
fn push_pairs(
    number: u32,
    capcodes: &[Capcode],
    pairs: &mut Vec<(u32, Capcode)>,
) -> Result<(), Memory>
    ensures { OnOk result (pairs.new.items ≡ pairs.old.items ++ paired_with number capcodes.now) }
{
    for capcode in capcodes {
        let Ok(()) = pairs.push((number, *capcode)) else {
            return Err(Memory);
        };
    }
    Ok(())
}
