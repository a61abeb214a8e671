//! The settings file: how many cells the pool of pages has, the password of the entry line, and what ids stand for: a
//! subscriber or a group of up to 16 capcodes.
//!
//! The file is a TOML document, which the crate `toml` reads. `Settings::read` checks it by the rule "settings" of
//! docs/profile.md, in the order that stands there, and keeps an ordered map of ids.
//!
//! - `target`: what an id stands for.
//! - `faults`: why a settings file is refused.
//! - `document`: the form of the document, that is its version, its keys and the kinds of their values.
//! - `tables`: the same of the tables of `subscriber` and `group`.
//! - `values`: the values at the keys of a table.
//! - `entries`: the checks of each subscriber and each group, and the map that they make.
//! - `members`: the capcodes of a group.
//! - `numbers`: the map that numbers make, for settings without a file.
//! - `directory`: the ordered map of ids.
//! - `settings`: the settings.
//! - `laws`: the test of a capcode passes those that are usable.
#![tactic(auto)]

mod directory;
mod document;
mod entries;
pub mod faults;
pub mod laws;
mod members;
mod numbers;
pub mod settings;
mod tables;
pub mod target;
mod values;

pub use faults::SettingsFault;
pub use settings::Settings;
pub use target::{MOST_MEMBERS, Target};

#[cfg(test)]
mod group_tests;
#[cfg(test)]
mod tests;
