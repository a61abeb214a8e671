//! The settings.

ghost use Rattle.std.specs.Prelude.{◌≡◌, ◌==◌, length, ◌≤◌, ◌⊎◌, Some, None, Ok, Err, IfOk, IfErr, option_map, if◌then◌else◌};
ghost use Rattle.toml.specs.View.{table_view};
ghost use Rattle.subscribers.specs.Seen.{seen_document};
ghost use Rattle.subscribers.specs.Settings.{most_cells, most_entries, is_password, is_password_or_none, cells_in_range, settings_of_form, settings_of_tree, tree_of, settings_of, IsOrMemory};
ghost use Rattle.std.specs.List.{list_all, IsDistinct};
ghost use Rattle.subscribers.specs.Made.{made_parts, numbers_of};
ghost use Rattle.subscribers.specs.Entries.{is_between};

use crate::directory::Directory;
use crate::document::{Document, document_from, version_of};
use crate::entries::directory_from;
use crate::faults::SettingsFault;
use crate::numbers::directory_of_numbers;
use crate::target::Target;
use codeword::{Capcode, Function};
use entry_line::characters::PASSWORD_SIZE;
use std::alloc::Global;
use std::marker::Model;
use toml::Table;
use wires::Memory;

/// A settings file has at most this many bytes.
pub const MOST_BYTES: usize = 1_048_576;

/// The pool has at most this many cells.
pub const MOST_CELLS: u32 = 65_536;

/// There are at most this many subscribers.
pub const MOST_SUBSCRIBERS: usize = 10_000;

/// There are at most this many groups.
pub const MOST_GROUPS: usize = 1_000;

/// The settings that a file gives.
#[derive(Drop)]
pub struct Settings {
    cells: u32,
    password: Option<[u8; PASSWORD_SIZE]>,
    ids: Directory,
}

impl Model for Settings {
    ghost use Rattle.std.specs.Prelude.{◌≤◌};
    ghost use Rattle.subscribers.specs.Parts.{Parts, parts_code};

    ghost Value = { Parts };

    ghost coded = { parts_code };

    ghost view = { λ s. record { cells = s.cells; password = s.password; ids = s.ids } };

    ghost invariant = { λ s. (1 ≤ s.cells) × (s.cells ≤ 65536) };
}

impl Settings {
    ghost use Rattle.std.specs.FinMap as map;

    /// The settings that the bytes of a file give, or why the file is refused. It refuses by the rule "settings", in its order. Memory
    /// may come in place of any answer. Nothing stays after a refusal.
    pub fn read(alloc: Global, bytes: &[u8]) -> Result<Settings, SettingsFault>
        ensures { IsOrMemory result (settings_of bytes.now) }
    {
        if bytes.len() > MOST_BYTES {
            return Err(SettingsFault::Long);
        }
        match tree_from(alloc, bytes) {
            Ok(tree) => settings_from_tree(alloc, &tree),
            Err(fault) => Err(fault),
        }
    }

    /// Settings of 1 to 65,536 cells without a password, whose ids are the decimal digits of these numbers, without zeros in front. There
    /// are at most 10,000 numbers, and they differ. Nothing stays after Memory.
    pub fn made(
        alloc: Global,
        cells: u32,
        ids: &[(u32, Capcode, Function)],
    ) -> Result<Settings, Memory>
        requires some { 1 ≤ cells }
        requires most { cells ≤ most_cells }
        requires few { length ids.now ≤ most_entries }
        requires differ { IsDistinct ◌==◌ (numbers_of ids.now) }
        ensures { IfOk result (λ s. s ≡ made_parts cells ids.now) }
    {
        match directory_of_numbers(alloc, ids) {
            Ok(ids) => Ok(Settings {
                cells,
                password: None,
                ids,
            }),
            Err(_) => Err(Memory),
        }
    }

    /// The number of cells of the pool of pages.
    pub fn cells(&self) -> u32
        ensures value { result ≡ self.now.cells }
        ensures some { 1 ≤ result }
        ensures most { result ≤ most_cells }
    {
        self.cells
    }

    /// The password of the entry line: six characters from 0x21 to 0x7E, or none.
    pub fn password(&self) -> Option<[u8; PASSWORD_SIZE]>
        ensures { result ≡ self.now.password }
    {
        self.password
    }

    /// What an id stands for. None exactly where no subscriber and no group has this id. The time grows with the logarithm of the number
    /// of ids.
    pub fn find(&self, id: &[u8]) -> Option<Target<'_>>
        ensures { result ≡ map.get self.now.ids id.now }
    {
        self.ids.find(id)
    }
}

/// The document that the bytes are. NotToml where they aren't one.
fn tree_from(alloc: Global, bytes: &[u8]) -> Result<Table, SettingsFault>
    ensures tree { IfOk result (λ t. tree_of bytes.now ≡ Some (table_view t)) }
    ensures refused { IfErr result (λ e. (e ≡ SettingsFault.Memory) ⊎ ((e ≡ SettingsFault.NotToml) × (tree_of bytes.now ≡ None))) }
{
    match toml::table_from_slice(alloc, bytes) {
        Ok(tree) => Ok(tree),
        Err(error) => {
            if error.is_memory() {
                Err(SettingsFault::Memory)
            } else {
                Err(SettingsFault::NotToml)
            }
        }
    }
}

/// The settings of a document.
fn settings_from_tree(alloc: Global, tree: &Table) -> Result<Settings, SettingsFault>
    ensures { IsOrMemory result (settings_of_tree (table_view tree.now)) }
{
    let version = match version_of(tree) {
        Ok(version) => version,
        Err(fault) => return Err(fault),
    };
    match document_from(alloc, version, tree) {
        Ok(document) => settings_from(alloc, &document),
        Err(fault) => Err(fault),
    }
}

/// The settings of a document of the right form.
fn settings_from(alloc: Global, document: &Document<'_>) -> Result<Settings, SettingsFault>
    ensures { IsOrMemory result (settings_of_form (seen_document document.now)) }
{
    let password = match password_or_none(document.password) {
        Ok(password) => password,
        Err(fault) => return Err(fault),
    };
    let Some(cells) = cells_from(document.cells) else {
        return Err(SettingsFault::Cells);
    };
    if document.entries.len() > MOST_SUBSCRIBERS {
        return Err(SettingsFault::TooMany);
    }
    if document.groups.len() > MOST_GROUPS {
        return Err(SettingsFault::TooMany);
    }
    match directory_from(alloc, &document.entries, &document.groups) {
        Ok(ids) => Ok(Settings {
            cells,
            password,
            ids,
        }),
        Err(fault) => Err(fault),
    }
}

/// The number of cells. None where it is out of its range.
fn cells_from(n: i64) -> Option<u32>
    ensures { result ≡ cells_in_range n }
{
    match u32::try_from(n) {
        Ok(n) => {
            if 1 <= n && n <= MOST_CELLS {
                Some(n)
            } else {
                None
            }
        }
        Err(_) => None,
    }
}

fn password_or_none(text: Option<&str>) -> Result<Option<[u8; PASSWORD_SIZE]>, SettingsFault>
    ensures { let read = option_map (λ s. s.now) text.entry in result ≡ (if is_password_or_none read then Ok read else Err SettingsFault.Password) }
{
    match text {
        None => Ok(None),
        Some(text) => match password_from(text) {
            Some(password) => Ok(Some(password)),
            None => Err(SettingsFault::Password),
        },
    }
}

/// Whether each character is one of a password: from 0x21 to 0x7E.
fn are_password_characters(text: &[u8]) -> bool
    ensures { result ≡ list_all (is_between 33 126) text.now }
{
    text.iter().all(|c| b'!' <= *c && *c <= b'~')
}

/// The password of these characters. None where they aren't six from 0x21 to 0x7E.
fn password_from(text: &str) -> Option<[u8; PASSWORD_SIZE]>
    ensures { result ≡ (if is_password text.now then Some text.now else None) }
{
    let characters = text.as_bytes();
    if characters.len() != PASSWORD_SIZE || !are_password_characters(characters) {
        return None;
    }
    let mut password = [0; PASSWORD_SIZE];
    password.copy_from_slice(characters);
    Some(password)
}
