//! The entry line's blocks: characters, sums, blocks, and the values of fields. It keeps the rules "characters", "lines",
//! "between blocks", "block", "sum", "content" and "fields" of docs/profile.md: the scanner reads lines and blocks one byte at a
//! time, and fields and blocks are written and read back.
//!
//! - `content`: the sum of a block, the parts of a content.
//! - `control`: the control characters.
//! - `ends`: how a block ends.
//! - `escapes`: fields and their values.
//! - `faults`: why a field has no value.
//! - `items`: what a character completes.
//! - `laws`: what the definitions say, whatever the input.
//! - `scanner`: the reader of the entry line.
//! - `writer`: writing blocks.
#![tactic(auto)]

pub mod content;
pub mod control;
pub mod ends;
pub mod escapes;
pub mod faults;
pub mod items;
pub mod laws;
pub mod scanner;
#[cfg(test)]
mod tests;
#[cfg(test)]
mod twin;
pub mod writer;

pub use content::{fields, sum};
pub use ends::End;
pub use escapes::{escape_into, unescape};
pub use faults::FieldFault;
pub use items::Item;
pub use scanner::Scanner;
pub use writer::put_block;

/// The most characters that a body may have.
pub const LONGEST_BODY: usize = 250;

/// The most characters that a trailer has. A right one is the three of the sum, and CR.
pub const TRAILER: usize = 4;

/// The most characters that a block has: STX, the body, its end and the trailer.
pub const LONGEST_BLOCK: usize = 1 + LONGEST_BODY + 1 + TRAILER;
