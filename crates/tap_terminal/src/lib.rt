//! One session of the entry line, as the terminal answers it. It keeps the rules "session", "judgement", "length of a session",
//! "replies" and "report" of docs/profile.md.
//!
//! - `answers`: what a character is answered, and the bytes of a reply.
//! - `report`: how often each answer came.
//! - `contents`: the judgement of a whole content.
//! - `laws`: what the definitions say, whatever the characters.
//! - `terminal`: the terminal itself.
#![tactic(auto)]

pub mod answers;
mod contents;
#[cfg(test)]
mod examples;
pub mod laws;
pub mod report;
pub mod terminal;
#[cfg(test)]
mod tests;
#[cfg(test)]
mod twin;

pub use answers::{Answer, Reason, reply};
pub use report::Report;
pub use terminal::Terminal;
