//! How a run ends, and the lines that are printed: what all commands share.
//!
//! - `statuses`: the statuses of a run, each with its exit code and its line.
//! - `lines`: bytes and numbers, appended to a line that is to be put.
//!
//! `specs/Wrote.antt` says what was written of an output, whole or up to a fault, and `specs/Talk.antt` what was heard and said on the
//! open connection of a wire.
#![tactic(auto)]

pub mod lines;
pub mod statuses;

pub use statuses::Status;

#[cfg(test)]
mod tests;
