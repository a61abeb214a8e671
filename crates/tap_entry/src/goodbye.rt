//! The client after its last page: docs/profile.md, "leaving".

ghost use Rattle.std.specs.Prelude.{◌≡◌, ℕ, List};
ghost use Rattle.entry_line.specs.Chars.{char_of};
ghost use Rattle.tap_entry.specs.MarkReaders.{ReaderStandsFor};
ghost use Rattle.tap_entry.specs.States.{LeavesFurther};
ghost use Rattle.tap_entry.specs.declared.hearing.Mark.{Mark};

use crate::hearing::{Listener, Mark};
use std::marker::Model;

/// A client that has said EOT CR and waits for the terminal to hang up.
#[derive(Drop)]
pub struct Leaving {
    listener: Listener,
}

impl Model for Leaving {
    ghost use Rattle.tap_entry.specs.MarkReaders.{MarkReader};

    ghost Value = { MarkReader };

    ghost view = { λ s. s.listener };

    ghost invariant = { λ s. Unit {0} };
}

/// What a byte brings while the client leaves.
#[derive(Drop)]
pub enum LeaveStep {
    /// The terminal hasn't hung up.
    Wait(Leaving),
    /// The terminal said `ESC EOT`.
    Gone,
}

impl Leaving {
    /// A client that leaves with what it has heard.
    pub(crate) fn with(listener: Listener) -> Leaving
        ensures { result ≡ listener }
    {
        Leaving { listener }
    }

    /// Takes a byte that was heard.
    pub fn feed(self, byte: u8) -> LeaveStep
        ensures { (x : List ℕ) (marks : List Mark) → ReaderStandsFor self x marks → LeavesFurther x marks (char_of byte) result }
    {
        let mut client = self;
        match client.listener.feed(byte) {
            Some(Mark::End) => LeaveStep::Gone,
            _ => LeaveStep::Wait(client),
        }
    }
}
