//! The commands of the program, over what it reads, writes and talks over.
//!
//! `run` is the top call: it reads the words of the command line, runs the command, and puts a line about a refusal or a fault. Its
//! contract says what each status means for every object that it is handed. docs/profile.md, "commands", says what each command does.
//!
//! - `top`: `run`.
//! - `outcomes`: what a command comes to, with `tell`, which puts the line about a status.
//! - `settings_runs`: the commands `station`, `snpp`, `trial` and `twice`, which read settings.
//! - `pages_runs`: the command `send`, with its pages file.
//! - `files`: reading a file into memory, and the settings that it gives.
//! - `laws`: what one run comes to, the way from clients to receivers, and the room that a station takes.
//!
//! The parts that a command is made of are crates of their own: `command_lines` (the words of a command), `one_block` (the command `one`),
//! `listening` (bits to printed lines), `calling` (the client), `serving` (the station), `load` (the load mode), and `endings` (how a run
//! ends); `near` and `both_ends` have the laws of the air and of the line.
#![tactic(auto)]

mod files;
pub mod laws;
pub mod outcomes;
mod pages_runs;
mod settings_runs;
pub mod top;

pub use calling::send;
pub use endings::Status;
pub use listening::{play, show};
pub use load::load;
pub use one_block::one;
pub use outcomes::tell;
pub use serving::{SessionEnd, Station};
pub use top::run;
