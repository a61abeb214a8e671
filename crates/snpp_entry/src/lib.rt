//! One session of the second entry line, after the Simple Network Paging Protocol (RFC 1861), level 1.
//! docs/profile.md, "SNPP lines", "SNPP session" and "SNPP replies", has the rules.
//!
//! - `answers`: what a character is answered, and the bytes of a reply.
//! - `report`: the counts of a session.
//! - `verbs`: the verbs of the commands; `words`: the verb and the argument of a line.
//! - `front`: the first characters of a line.
//! - `pending`: what is pending, and how a line is answered.
//! - `laws`: what the definitions say, whatever the characters.
//! - `snpp`: the session itself.
#![tactic(auto)]

pub mod answers;
mod front;
pub mod laws;
mod pending;
pub mod report;
pub mod snpp;
mod verbs;
mod words;

pub use answers::{SnppAnswer, greeting, reply};
pub use report::SnppReport;
pub use snpp::Snpp;

#[cfg(test)]
mod tests;
