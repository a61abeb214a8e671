//! How a block ends.

ghost use Rattle.std.specs.Prelude.{◌≡◌};
ghost use Rattle.tap_block.specs.Chars.{end_char};

use crate::control::{ETB, ETX, US};

/// The character that ends a block's body.
#[derive(Clone, Copy, Debug, PartialEq, Eq)]
pub enum End {
    /// ETX: the transaction ends here.
    Etx,
    /// ETB: the transaction goes on in the next block.
    Etb,
    /// US: the field goes on in the next block.
    Us,
}

impl End {
    /// The character itself.
    pub fn character(self) -> u8
        ensures { result ≡ end_char self }
    {
        match self {
            End::Etx => ETX,
            End::Etb => ETB,
            End::Us => US,
        }
    }
}
