//! The client of the entry line: it logs on to a terminal, sends pages in blocks, and leaves. It keeps the rules "marks", "calling",
//! "sending a page", "leaving" and "pages file" of docs/profile.md.
//!
//! The client is a chain of states, each a type that owns the client and is handed on by value: `Calling`, `LoggedOn`, `Sending`,
//! `Leaving`. Each `feed` takes one heard byte, and its answer says what is to be said and which state comes next. The caller says
//! CR once it has dialled, and it ends the connection at the 1,000,000th character that it heard.
//!
//! - `hearing`: the marks in what is heard.
//! - `outcomes`: what becomes of a page.
//! - `logon`: the state before the logon is decided.
//! - `transfer`: the states between two pages, and while a page is sent.
//! - `goodbye`: the state after the last page.
//! - `faults`: why a pages file is refused.
//! - `file`: the pages file.
//! - `lines`: its lines.
//! - `signs`: its texts.
//! - `laws`: what the definitions say, whatever is heard.
#![tactic(auto)]

#[cfg(test)]
mod examples;
pub mod faults;
pub mod file;
#[cfg(test)]
mod file_tests;
pub mod goodbye;
pub mod hearing;
pub mod laws;
mod lines;
pub mod logon;
pub mod outcomes;
mod signs;
#[cfg(test)]
mod tests;
pub mod transfer;

pub use faults::PagesFault;
pub use file::Pages;
pub use goodbye::{LeaveStep, Leaving};
pub use hearing::Mark;
pub use logon::{CallStep, Calling};
pub use outcomes::Outcome;
pub use transfer::{LoggedOn, SendStep, Sending};
