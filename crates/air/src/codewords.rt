//! The word of a slot.

ghost use Rattle.std.specs.Prelude.{◌≡◌};
ghost use Rattle.scheduler.specs.Said.{HasGroup, word_in};

use codeword::{IDLE, address_word, message_word};
use scheduler::Slot;

/// The word that stands in a slot.
pub(crate) fn word(slot: Slot) -> u32
    requires { HasGroup slot }
    ensures { result ≡ word_in slot }
{
    match slot {
        Slot::Idle => IDLE,
        Slot::Address(capcode, function) => address_word(capcode, function),
        Slot::Message(group) => message_word(group),
    }
}
