//! Writing the samples of a file's bits to another file: the command `line`. docs/profile.md, "line".
//!
//! - `writing`: `write_line`, over two files of a shelf.
//! - `sample_bytes`: samples as bytes, eight in each.
//! - `memory`: bytes in memory as a source.
#![tactic(auto)]

mod memory;
mod sample_bytes;
#[cfg(test)]
mod tests;
pub mod writing;

pub use writing::write_line;
