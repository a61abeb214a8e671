//! What a slot says.

use codeword::{Capcode, Function};

/// What stands in a slot.
#[derive(Clone, Copy, Debug, PartialEq, Eq)]
pub enum Slot {
    /// The idle word.
    Idle,
    /// The address word of a page: its capcode and its function.
    Address(Capcode, Function),
    /// A message word: its group of 20 bits.
    Message(u32),
}
