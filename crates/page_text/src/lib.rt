//! Pages and their texts: which texts fit a function, the groups of 20 bits that carry a text (M.584-2, message formats), the text
//! that groups carry, and the printed line of a page. It keeps the rules "functions", "numeric text", "alphanumeric text" and
//! "printed line" of docs/profile.md.
//!
//! - `fitting`: which texts fit a function; `faults`: why one doesn't.
//! - `packing`: the groups of a text.
//! - `reader`: the text of groups.
//! - `lines`: the printed line of a page.
//! - `coding`: how characters are coded in bits.
//! - `limits`: how long texts are at most.
//! - `laws`: a text that fits is read back from its groups.
#![tactic(auto)]

mod coding;
pub mod faults;
pub mod fitting;
pub mod laws;
pub mod limits;
pub mod lines;
pub mod packing;
pub mod reader;

pub use faults::TextFault;
pub use fitting::fits;
pub use limits::{LONGEST_NUMERIC, LONGEST_READ, LONGEST_TEXT, MOST_GROUPS};
pub use lines::{LONGEST_LINE, line};
pub use packing::{group, word_count};
pub use reader::TextReader;

#[cfg(test)]
mod tests;
