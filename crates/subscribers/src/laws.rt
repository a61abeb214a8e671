//! What the definitions say, whatever the file.

ghost use Rattle.std.specs.Prelude.{◌≡◌, ◌↔◌, ℕ, true};
ghost use Rattle.codeword.specs.Capcodes.{IsUsable};
ghost use Rattle.subscribers.specs.Entries.{is_usable};

/// The test of a capcode passes exactly those that are usable.
pub fn usable()
    ensures { (capcode : ℕ) → (is_usable capcode ≡ true) ↔ IsUsable capcode }
{}
