//! Batches: the slots between two sync words, and the frames that they make (M.584-2).

ghost use Rattle.std.specs.Prelude.{◌≡◌, ◌<◌, ◌^◌};
ghost use Rattle.codeword.specs.Capcodes.{capcode_at};

/// How many slots a batch has.
pub const SLOTS: u32 = 16;

/// How many slots a frame has.
pub const FRAME_SLOTS: u32 = 2;

/// How many words a batch has: its slots and the sync word.
pub const BATCH_WORDS: u32 = SLOTS + 1;

/// The number of the capcode whose high bits stand in the slot at this place of its batch. It may be that of no usable capcode.
pub fn number_in_slot(high: u32, place: u32) -> u32
    requires high { high < 2 ^ 18 }
    requires place { place < SLOTS }
    ensures value { result ≡ capcode_at place high }
    ensures small { result < 2 ^ 21 }
{
    8 * high + place / FRAME_SLOTS
}
