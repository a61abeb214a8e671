//! An address that contracts see and the machine doesn't keep.
ghost use Rattle.std.specs.Prelude.{◌≡◌, ℕ, List};
ghost use Rattle.std.specs.Borrow.{ftrue};

use std::marker::Model;

/// The address that a wire in memory was asked for last, as bytes. It takes no bytes itself.
#[derive(Drop)]
pub(crate) struct Asked {
    pub ghost address: { List ℕ },
}

impl Model for Asked {
    ghost also_owns = { λ _. ftrue };
}

impl Asked {
    /// This address was asked for.
    pub(crate) fn of(_at: &[u8]) -> Asked
        ensures { result.address ≡ _at.now }
    {
        Asked {}
    }
}
