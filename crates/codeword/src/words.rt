//! Address words and message words.

ghost use Rattle.std.specs.Prelude.{◌≡◌, ◌<◌, ◌^◌};
ghost use Rattle.bch31.specs.Word.{word_of};
ghost use Rattle.codeword.specs.Words.{address_of, message_of};

use crate::addresses::Capcode;
use crate::functions::Function;
use bch31::check_bits;

/// M.584-2: the idle codeword.
pub const IDLE: u32 = 0x7A89_C197;

/// M.584-2: the synchronization codeword.
pub const SYNC: u32 = 0x7CD2_15D8;

/// Bit 1 of a message word, above the 20 bits of its group.
pub(crate) const MESSAGE: u32 = 1 << 20;

/// The codeword whose first 21 bits are these: the check bits behind them, and a bit that makes the number of ones even.
fn word(front: u32) -> u32
    requires { front < 2 ^ 21 }
    ensures { result ≡ word_of front }
{
    let bits = (front << 10) | check_bits(front);
    (bits << 1) | (bits.count_ones() & 1)
}

/// The address word of a capcode and a function: bit 1 is 0, then the 18 high bits of the capcode, the two bits of the function,
/// and the check bits.
pub fn address_word(c: Capcode, f: Function) -> u32
    ensures { result ≡ address_of c f }
{
    word((c.high() << 2) | f.number())
}

/// The message word of a group of 20 bits: bit 1 is 1, then the group and the check bits.
pub fn message_word(group: u32) -> u32
    requires { group < 2 ^ 20 }
    ensures { result ≡ message_of group }
{
    word(MESSAGE | group)
}
