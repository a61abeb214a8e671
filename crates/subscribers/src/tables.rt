//! The tables of the arrays `subscriber` and `group`: their keys, and the kinds of their values.

ghost use Rattle.std.specs.Prelude.{◌≡◌, ◌⊎◌, [], Some, None, IfOk, IfErr, codes, option_map, unwrap_or};
ghost use Rattle.std.specs.List.{list_any};
ghost use Rattle.std.specs.Str.{bytes_eq};
ghost use Rattle.toml.specs.Data.{as_integer};
ghost use Rattle.toml.specs.View.{view, items_view, table_view};
ghost use Rattle.subscribers.specs.Form.{entry_keys, group_keys, has_only, required, optional, all_of, array_of, entry_in, subscriber_entry_of, group_in, group_entry_of};
ghost use Rattle.subscribers.specs.Seen.{seen_entry, seen_entries, seen_group, seen_groups};

use crate::faults::SettingsFault;
use crate::values::{integer_at, text_at, value_at};
use std::alloc::Global;
use toml::{Table, Value};

/// One table of `subscriber`, as the document gives it.
#[derive(Drop)]
pub struct Entry<'a> {
    pub id: &'a str,
    pub capcode: i64,
    pub class: &'a str,
}

/// One table of `group`, as the document gives it.
#[derive(Drop)]
pub struct GroupTable<'a> {
    pub id: &'a str,
    pub capcodes: Vec<i64>,
    pub class: &'a str,
}

fn is_entry_key(key: &str) -> bool
    ensures { result ≡ list_any (bytes_eq key.now) entry_keys }
{
    key == "id" || key == "capcode" || key == "class"
}

fn is_group_key(key: &str) -> bool
    ensures { result ≡ list_any (bytes_eq key.now) group_keys }
{
    key == "id" || key == "capcodes" || key == "class"
}

fn has_only_entry_keys(table: &Table) -> bool
    ensures { result ≡ has_only entry_keys (table_view table.now) }
{
    table.keys().all(|key| is_entry_key(key.as_str()))
}

fn has_only_group_keys(table: &Table) -> bool
    ensures { result ≡ has_only group_keys (table_view table.now) }
{
    table.keys().all(|key| is_group_key(key.as_str()))
}

/// An entry. None where the table hasn't exactly the keys of an entry, each of its kind.
fn entry_in(table: &Table) -> Option<Entry<'_>>
    ensures { option_map seen_entry result ≡ entry_in (table_view table.now) }
{
    if !has_only_entry_keys(table) {
        return None;
    }
    let Some(id) = text_at(table, "id") else {
        return None;
    };
    let Some(capcode) = integer_at(table, "capcode") else {
        return None;
    };
    let Some(class) = text_at(table, "class") else {
        return None;
    };
    Some(Entry { id, capcode, class })
}

/// An entry. None where the value is no table, or one that isn't an entry.
fn entry_from(value: &Value) -> Option<Entry<'_>>
    ensures { option_map seen_entry result ≡ subscriber_entry_of (view value.now) }
{
    match value.as_table() {
        Some(table) => entry_in(table),
        None => None,
    }
}

/// The entries of an array. Form where an item isn't an entry.
fn entries_from(alloc: Global, items: &[Value]) -> Result<Vec<Entry<'_>>, SettingsFault>
    ensures form { IfOk result (λ v. all_of subscriber_entry_of (items_view items.now) ≡ Some (seen_entries v.items)) }
    ensures refused { IfErr result (λ e. (e ≡ SettingsFault.Memory) ⊎ ((e ≡ SettingsFault.Form) × (all_of subscriber_entry_of (items_view items.now) ≡ None))) }
{
    let mut entries = Vec::new(alloc);
    for value in items {
        let Some(entry) = entry_from(value) else {
            return Err(SettingsFault::Form);
        };
        if entries.push(entry).is_err() {
            return Err(SettingsFault::Memory);
        }
    }
    Ok(entries)
}

/// The entries of a document: none where `subscriber` isn't there. Form where it isn't an array of entries.
pub fn entries_at<'a>(alloc: Global, table: &'a Table) -> Result<Vec<Entry<'a>>, SettingsFault>
    ensures form { IfOk result (λ v. option_map (λ es. unwrap_or es []) (optional (array_of subscriber_entry_of) (codes "subscriber") (table_view table.now)) ≡ Some (seen_entries v.items)) }
    ensures refused { IfErr result (λ e. (e ≡ SettingsFault.Memory) ⊎ ((e ≡ SettingsFault.Form) × (optional (array_of subscriber_entry_of) (codes "subscriber") (table_view table.now) ≡ None))) }
{
    match value_at(table, "subscriber") {
        None => Ok(Vec::new(alloc)),
        Some(value) => match value.as_array() {
            Some(items) => entries_from(alloc, items),
            None => Err(SettingsFault::Form),
        },
    }
}

/// The integers of an array. Form where an item isn't one.
fn integers_from(alloc: Global, items: &[Value]) -> Result<Vec<i64>, SettingsFault>
    ensures form { IfOk result (λ v. all_of as_integer (items_view items.now) ≡ Some v.items) }
    ensures refused { IfErr result (λ e. (e ≡ SettingsFault.Memory) ⊎ ((e ≡ SettingsFault.Form) × (all_of as_integer (items_view items.now) ≡ None))) }
{
    let mut numbers = Vec::new(alloc);
    for value in items {
        let Some(number) = value.as_integer() else {
            return Err(SettingsFault::Form);
        };
        if numbers.push(number).is_err() {
            return Err(SettingsFault::Memory);
        }
    }
    Ok(numbers)
}

/// The capcodes of a group, as they stand there. Form where `capcodes` isn't there, or isn't an array of integers.
fn capcodes_at(alloc: Global, table: &Table) -> Result<Vec<i64>, SettingsFault>
    ensures form { IfOk result (λ v. required (array_of as_integer) (codes "capcodes") (table_view table.now) ≡ Some v.items) }
    ensures refused { IfErr result (λ e. (e ≡ SettingsFault.Memory) ⊎ ((e ≡ SettingsFault.Form) × (required (array_of as_integer) (codes "capcodes") (table_view table.now) ≡ None))) }
{
    match value_at(table, "capcodes") {
        None => Err(SettingsFault::Form),
        Some(value) => match value.as_array() {
            Some(items) => integers_from(alloc, items),
            None => Err(SettingsFault::Form),
        },
    }
}

/// A group. Form where the table hasn't exactly the keys of a group, each of its kind.
fn group_in(alloc: Global, table: &Table) -> Result<GroupTable<'_>, SettingsFault>
    ensures form { IfOk result (λ g. group_in (table_view table.now) ≡ Some (seen_group g)) }
    ensures refused { IfErr result (λ e. (e ≡ SettingsFault.Memory) ⊎ ((e ≡ SettingsFault.Form) × (group_in (table_view table.now) ≡ None))) }
{
    if !has_only_group_keys(table) {
        return Err(SettingsFault::Form);
    }
    let Some(id) = text_at(table, "id") else {
        return Err(SettingsFault::Form);
    };
    let Some(class) = text_at(table, "class") else {
        return Err(SettingsFault::Form);
    };
    match capcodes_at(alloc, table) {
        Ok(capcodes) => Ok(GroupTable {
            id,
            capcodes,
            class,
        }),
        Err(fault) => Err(fault),
    }
}

/// A group. Form where the value is no table, or one that isn't a group.
fn group_from(alloc: Global, value: &Value) -> Result<GroupTable<'_>, SettingsFault>
    ensures form { IfOk result (λ g. group_entry_of (view value.now) ≡ Some (seen_group g)) }
    ensures refused { IfErr result (λ e. (e ≡ SettingsFault.Memory) ⊎ ((e ≡ SettingsFault.Form) × (group_entry_of (view value.now) ≡ None))) }
{
    match value.as_table() {
        Some(table) => group_in(alloc, table),
        None => Err(SettingsFault::Form),
    }
}

/// The groups of an array. Form where an item isn't a group.
fn groups_from(alloc: Global, items: &[Value]) -> Result<Vec<GroupTable<'_>>, SettingsFault>
    ensures form { IfOk result (λ v. all_of group_entry_of (items_view items.now) ≡ Some (seen_groups v.items)) }
    ensures refused { IfErr result (λ e. (e ≡ SettingsFault.Memory) ⊎ ((e ≡ SettingsFault.Form) × (all_of group_entry_of (items_view items.now) ≡ None))) }
{
    let mut groups = Vec::new(alloc);
    for value in items {
        let group = match group_from(alloc, value) {
            Ok(group) => group,
            Err(fault) => return Err(fault),
        };
        if groups.push(group).is_err() {
            return Err(SettingsFault::Memory);
        }
    }
    Ok(groups)
}

/// The groups of a document: none where `group` isn't there. Form where it isn't an array of groups.
pub fn groups_at<'a>(alloc: Global, table: &'a Table) -> Result<Vec<GroupTable<'a>>, SettingsFault>
    ensures form { IfOk result (λ v. option_map (λ gs. unwrap_or gs []) (optional (array_of group_entry_of) (codes "group") (table_view table.now)) ≡ Some (seen_groups v.items)) }
    ensures refused { IfErr result (λ e. (e ≡ SettingsFault.Memory) ⊎ ((e ≡ SettingsFault.Form) × (optional (array_of group_entry_of) (codes "group") (table_view table.now) ≡ None))) }
{
    match value_at(table, "group") {
        None => Ok(Vec::new(alloc)),
        Some(value) => match value.as_array() {
            Some(items) => groups_from(alloc, items),
            None => Err(SettingsFault::Form),
        },
    }
}
