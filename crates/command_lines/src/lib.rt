//! The command lines: the words after the program's name become a command, or are no command's form. docs/profile.md, "command lines".
//!
//! - `commands`: `parse`, from the words to the command.
//! - `load_words`: the words of `load`.
//! - `capcodes`: the capcodes of a word.
//! - `receivers`: the receivers that a command line lists, and the groups of receivers that hear as they say.
#![tactic(auto)]

mod capcodes;
pub mod commands;
pub mod load_words;
pub mod receivers;

pub use commands::{CommandLine, StationLine, parse};
pub use load_words::LoadRun;
pub use receivers::{Receivers, group_of, twin_group_of};
