//! What a word says: an address or a message.

ghost use Rattle.std.specs.Prelude.{◌≡◌, ℕ, ◌<◌, ◌^◌, ◌↔◌, IfSome, IsNone, Some};
ghost use Rattle.bch31.specs.Fix.{HasNoFix};
ghost use Rattle.codeword.specs.Kinds.{IsKind, IsSmall, kind_from, kind_of};

use crate::functions::Function;
use crate::words::MESSAGE;
use bch31::correct;

/// What a codeword carries in its first 21 bits.
#[derive(Clone, Copy, Debug, PartialEq, Eq)]
pub enum WordKind {
    /// An address word: the 18 high bits of a capcode, below 2^18, and a function. The idle word and the sync word are of this kind.
    Address { high: u32, function: Function },
    /// A message word: the 20 bits of its group, below 2^20.
    Message { group: u32 },
}

/// What the codeword with these first 21 bits says.
fn kind_of_front(front: u32) -> WordKind
    requires { front < 2 ^ 21 }
    ensures value { result ≡ kind_from front }
    ensures small { IsSmall result }
{
    if front < MESSAGE {
        WordKind::Address {
            high: front / 4,
            function: Function::with_number(front % 4),
        }
    } else {
        WordKind::Message {
            group: front - MESSAGE,
        }
    }
}

/// What the codeword within two bits of the word says. None exactly where `correct` gives None: where there is no such codeword.
pub fn kind(w: u32) -> Option<WordKind>
    ensures value { result ≡ kind_of w }
    ensures some { (kind : WordKind) → (result ≡ Some kind) ↔ IsKind w kind }
    ensures small { IfSome result IsSmall }
    ensures none { IsNone result ↔ HasNoFix w }
{
    match correct(w) {
        Some(codeword) => Some(kind_of_front(codeword >> 11)),
        None => None,
    }
}
