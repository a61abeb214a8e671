//! A transmission as words and as bits: the preamble, and the batches (M.584-2). It keeps the rules "preamble" and "batch" of
//! docs/profile.md.
//!
//! A transmission of at least one page is the preamble and then batches of the sync word and 16 slots, which the crate `scheduler`
//! chooses. No page gives no transmission.
//!
//! - `specs/Air`: the words and the bits of a transmission.
//! - `specs/Sends`, `sender`: the transmission of a pool's pages, written to a sink.
//! - `specs/Left`, `order`, `reader`: its words, one at a time.
//! - `bit_reader`: its bits, one at a time, as a source.
//! - `codewords`: the word of a slot.
#![tactic(auto)]

pub mod bit_reader;
mod codewords;
pub mod order;
pub mod reader;
pub mod sender;

pub use bit_reader::AirBits;
pub use reader::Words;
pub use sender::{Sent, transmit};

#[cfg(test)]
mod tests;
