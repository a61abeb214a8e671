//! The words of POCSAG: receiver addresses, functions, address words and message words (M.584-2).
//!
//! An address word carries the high bits of a capcode and a function, and a message word carries 20 bits of a text. Both are
//! codewords of the crate `bch31`, which repairs two wrong bits of what was heard. Sixteen capcodes aren't used, since their address words could be the idle word or the sync word:
//! so no word of a page is taken for either.
//!
//! - `addresses`: capcodes, which of them are usable, their frames and high bits.
//! - `batches`: how many slots a batch and a frame have, and the number of the capcode whose high bits stand in a slot.
//! - `functions`: the four functions, by number and by letter.
//! - `kinds`: what a word says, once its wrong bits are repaired.
//! - `words`: the idle word, the sync word, address words, message words.
//! - `laws`: the words of pages are neither the idle word nor the sync word; a word has at most one kind;
//!   words with at most two wrong bits are read as they were sent.
#![tactic(auto)]

pub mod addresses;
pub mod batches;
pub mod functions;
pub mod kinds;
pub mod laws;
pub mod words;

pub use addresses::Capcode;
pub use batches::{BATCH_WORDS, FRAME_SLOTS, SLOTS, number_in_slot};
pub use functions::Function;
pub use kinds::{WordKind, kind};
pub use words::{IDLE, SYNC, address_word, message_word};

#[cfg(test)]
mod tests;
