//! The checks of each subscriber and each group, and the map that they make.

ghost use Rattle.std.specs.Prelude.{◌≡◌, ◌⊎◌, ◌≤◌, List, map, Ok, Err, IfOk, IfErr, length};
ghost use Rattle.std.specs.List.{list_all};
ghost use Rattle.subscribers.specs.Entries.{is_between, is_id, function_of_class, subscriber_of, group_of, most_members, a_subscriber, id_entries, ids_of};
ghost use Rattle.subscribers.specs.Form.{SubscriberEntry};
ghost use Rattle.subscribers.specs.Seen.{seen_entry, seen_entries, seen_group, seen_groups, target_to, target_of_group};
ghost use Rattle.subscribers.specs.Settings.{most_entries, most_groups, IsOrMemory};

use crate::directory::Directory;
use crate::faults::SettingsFault;
use crate::members::{capcode_from, members_from};
use crate::tables::{Entry, GroupTable};
use codeword::{Capcode, Function};
use entry_line::characters::MOST_DIGITS;
use std::alloc::Global;

/// Whether all bytes are digits.
fn are_digits(text: &[u8]) -> bool
    ensures { result ≡ list_all (is_between 48 57) text.now }
{
    text.iter().all(|c| b'0' <= *c && *c <= b'9')
}

/// Whether the text is an id: 1 to 10 digits.
fn is_id(text: &str) -> bool
    ensures { result ≡ is_id text.now }
{
    !text.is_empty() && text.len() <= MOST_DIGITS && are_digits(text.as_bytes())
}

/// The function that a class names. None where it names none.
fn function_from(class: &str) -> Option<Function>
    ensures { result ≡ function_of_class class.now }
{
    match class {
        "numeric" => Some(Function::Numeric),
        "tone1" => Some(Function::Tone1),
        "tone2" => Some(Function::Tone2),
        "alpha" => Some(Function::Alpha),
        _ => None,
    }
}

/// A subscriber whose entry has no fault.
#[derive(Clone, Copy, Debug, PartialEq, Eq)]
pub struct Subscriber {
    function: Function,
    capcode: Capcode,
}

/// The subscriber of the entry of this number, whose id an earlier entry has or hasn't, or the first of its faults.
fn subscriber_from(number: u32, twice: bool, entry: &Entry<'_>) -> Result<Subscriber, SettingsFault>
    ensures subscriber { IfOk result (λ s. subscriber_of number twice (seen_entry entry.now) ≡ Ok (target_to s)) }
    ensures fault { IfErr result (λ f. subscriber_of number twice (seen_entry entry.now) ≡ Err f) }
{
    if !is_id(entry.id) {
        return Err(SettingsFault::Id(number));
    }
    if twice {
        return Err(SettingsFault::IdTwice(number));
    }
    let Some(capcode) = capcode_from(entry.capcode) else {
        return Err(SettingsFault::Capcode(number));
    };
    let Some(function) = function_from(entry.class) else {
        return Err(SettingsFault::Class(number));
    };
    Ok(Subscriber { function, capcode })
}

/// A group without a fault.
#[derive(Drop)]
pub struct CheckedGroup {
    function: Function,
    capcodes: Vec<Capcode>,
}

/// The group of this number, whose id an earlier entry has or hasn't, or the first of its faults.
fn checked_group_from(
    alloc: Global,
    number: u32,
    twice: bool,
    group: &GroupTable<'_>,
) -> Result<CheckedGroup, SettingsFault>
    ensures group { IfOk result (λ g. group_of number twice (seen_group group.now) ≡ Ok (target_of_group g)) }
    ensures some { IfOk result (λ g. 1 ≤ length g.capcodes.items) }
    ensures most { IfOk result (λ g. length g.capcodes.items ≤ most_members) }
    ensures fault { IfErr result (λ f. (f ≡ SettingsFault.Memory) ⊎ (group_of number twice (seen_group group.now) ≡ Err f)) }
{
    if !is_id(group.id) {
        return Err(SettingsFault::GroupId(number));
    }
    if twice {
        return Err(SettingsFault::GroupIdTwice(number));
    }
    let Ok(members) = members_from(alloc, &group.capcodes) else {
        return Err(SettingsFault::Memory);
    };
    let Some(capcodes) = members else {
        return Err(SettingsFault::GroupMembers(number));
    };
    let Some(function) = function_from(group.class) else {
        return Err(SettingsFault::GroupClass(number));
    };
    Ok(CheckedGroup { function, capcodes })
}

/// The map of the subscribers' ids, or the fault of the first faulty entry.
fn subscribers_from(alloc: Global, entries: &[Entry<'_>]) -> Result<Directory, SettingsFault>
    requires { length entries.now ≤ most_entries }
    ensures { IsOrMemory result (ids_of (map a_subscriber (seen_entries entries.now))) }
{
    let mut directory = Directory::new(alloc);
    for (k, entry) in entries.iter().enumerate() {
        let id = entry.id.as_bytes();
        let twice = directory.find(id).is_some();
        let subscriber = match subscriber_from(k as u32 + 1, twice, entry) {
            Ok(subscriber) => subscriber,
            Err(fault) => return Err(fault),
        };
        let capcodes = [subscriber.capcode];
        if directory
            .insert(alloc, id, subscriber.function, &capcodes)
            .is_err()
        {
            return Err(SettingsFault::Memory);
        }
    }
    Ok(directory)
}

/// The map of the subscribers' ids with those of the groups, or the fault of the first faulty group.
fn with_groups(
    alloc: Global,
    subscribers: Directory,
    groups: &[GroupTable<'_>],
) -> Result<Directory, SettingsFault>
    requires { length groups.now ≤ most_groups }
    ensures { (es : List SubscriberEntry) → ids_of (map a_subscriber es) ≡ Ok subscribers
        → IsOrMemory result (ids_of (id_entries es (seen_groups groups.now))) }
{
    let mut directory = subscribers;
    for (k, group) in groups.iter().enumerate() {
        let id = group.id.as_bytes();
        let twice = directory.find(id).is_some();
        let checked = match checked_group_from(alloc, k as u32 + 1, twice, group) {
            Ok(checked) => checked,
            Err(fault) => return Err(fault),
        };
        if directory
            .insert(alloc, id, checked.function, &checked.capcodes)
            .is_err()
        {
            return Err(SettingsFault::Memory);
        }
    }
    Ok(directory)
}

/// The map of all ids, or the fault of the first faulty subscriber, or else of the first faulty group.
pub fn directory_from(
    alloc: Global,
    entries: &[Entry<'_>],
    groups: &[GroupTable<'_>],
) -> Result<Directory, SettingsFault>
    requires few { length entries.now ≤ most_entries }
    requires few_groups { length groups.now ≤ most_groups }
    ensures { IsOrMemory result (ids_of (id_entries (seen_entries entries.now) (seen_groups groups.now))) }
{
    match subscribers_from(alloc, entries) {
        Ok(subscribers) => with_groups(alloc, subscribers, groups),
        Err(fault) => Err(fault),
    }
}
