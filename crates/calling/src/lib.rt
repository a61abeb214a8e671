//! The client's side: a call over a wire that sends pages to a terminal, and what became of each page.
//!
//! - `sending_pages`: `send`, the whole call.
//! - `conversing`: the conversation over the open connection, until it ends.
//! - `stages`: where the client stands in it, and what a byte brings.
//! - `outcome_lines`: what became of the pages, line by line.
#![tactic(auto)]

mod conversing;
mod outcome_lines;
pub mod sending_pages;
#[cfg(test)]
mod sending_tests;
pub mod stages;

pub use sending_pages::send;
