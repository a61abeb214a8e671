//! The form of the document: its version, its keys, and the kinds of their values.

ghost use Rattle.std.specs.Prelude.{◌≡◌, ◌⊎◌, Some, None, IfOk, IfErr};
ghost use Rattle.std.specs.List.{list_any};
ghost use Rattle.std.specs.Str.{bytes_eq};
ghost use Rattle.toml.specs.View.{table_view};
ghost use Rattle.subscribers.specs.Form.{file_keys, has_only, version_with, version_of, form_of};
ghost use Rattle.subscribers.specs.Seen.{seen_document};

use crate::faults::SettingsFault;
use crate::tables::{Entry, GroupTable, entries_at, groups_at};
use crate::values::{integer_at, integer_or_none_at, text_or_none_at};
use std::alloc::Global;
use toml::Table;

/// The version of a file, which says what keys it may have.
#[derive(Clone, Copy, Debug, PartialEq, Eq)]
pub enum Version {
    /// The version of a file that names none. It has no groups.
    One,
    /// A file may have groups.
    Two,
}

/// A document of the right form.
#[derive(Drop)]
pub struct Document<'a> {
    pub cells: i64,
    pub password: Option<&'a str>,
    pub entries: Vec<Entry<'a>>,
    pub groups: Vec<GroupTable<'a>>,
}

/// The version that a number names. None where it names none.
fn version_with(number: i64) -> Option<Version>
    ensures { result ≡ version_with number }
{
    match u32::try_from(number) {
        Ok(number) => {
            if number == 1 {
                Some(Version::One)
            } else if number == 2 {
                Some(Version::Two)
            } else {
                None
            }
        }
        Err(_) => None,
    }
}

/// The version of a document. Version where it names none of the two, Form where what it names isn't an integer.
pub fn version_of(table: &Table) -> Result<Version, SettingsFault>
    ensures { result ≡ version_of (table_view table.now) }
{
    let Some(named) = integer_or_none_at(table, "version") else {
        return Err(SettingsFault::Form);
    };
    let Some(number) = named else {
        return Ok(Version::One);
    };
    match version_with(number) {
        Some(version) => Ok(version),
        None => Err(SettingsFault::Version),
    }
}

fn is_first_key(key: &str) -> bool
    ensures { result ≡ list_any (bytes_eq key.now) (file_keys Version.One) }
{
    key == "cells" || key == "password" || key == "subscriber" || key == "version"
}

fn is_file_key(version: Version, key: &str) -> bool
    ensures { result ≡ list_any (bytes_eq key.now) (file_keys version) }
{
    match version {
        Version::One => is_first_key(key),
        Version::Two => key == "group" || is_first_key(key),
    }
}

fn has_only_file_keys(version: Version, table: &Table) -> bool
    ensures { result ≡ has_only (file_keys version) (table_view table.now) }
{
    table.keys().all(|key| is_file_key(version, key.as_str()))
}

/// A document of the right form. Form where a required key is missing, a key has no meaning in this version, or a value is of another kind.
pub fn document_from(
    alloc: Global,
    version: Version,
    table: &Table,
) -> Result<Document<'_>, SettingsFault>
    ensures form { IfOk result (λ d. form_of version (table_view table.now) ≡ Some (seen_document d)) }
    ensures refused { IfErr result (λ e. (e ≡ SettingsFault.Memory) ⊎ ((e ≡ SettingsFault.Form) × (form_of version (table_view table.now) ≡ None))) }
{
    if !has_only_file_keys(version, table) {
        return Err(SettingsFault::Form);
    }
    let Some(cells) = integer_at(table, "cells") else {
        return Err(SettingsFault::Form);
    };
    let Some(password) = text_or_none_at(table, "password") else {
        return Err(SettingsFault::Form);
    };
    let entries = match entries_at(alloc, table) {
        Ok(entries) => entries,
        Err(fault) => return Err(fault),
    };
    match groups_at(alloc, table) {
        Ok(groups) => Ok(Document {
            cells,
            password,
            entries,
            groups,
        }),
        Err(fault) => Err(fault),
    }
}
