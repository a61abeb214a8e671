//! The first characters of a line. They lie in place, and those of the next line are written over them.

ghost use Rattle.std.specs.Prelude.{◌≡◌, []};
ghost use Rattle.entry_line.specs.Kept.{push_within};

use std::marker::Model;

/// How many characters are kept: one more than the longest line has.
const KEPT: usize = 1101;

/// Up to 1,101 characters.
#[derive(Drop)]
pub(crate) struct LineFront {
    chars: [u8; KEPT],
    count: usize,
}

impl Model for LineFront {
    ghost use Rattle.std.specs.Prelude.{ℕ, ◌≤◌, List, take};

    ghost Value = { List ℕ };

    ghost view = { λ l. take l.count l.chars };

    ghost invariant = { λ l. l.count ≤ 1101 };
}

impl LineFront {
    /// No character.
    pub(crate) fn new() -> LineFront
        ensures { result ≡ [] }
    {
        LineFront {
            chars: [0; KEPT],
            count: 0,
        }
    }

    /// One character more, where there is room.
    #[inline(always)]
    pub(crate) fn push(&mut self, c: u8)
        ensures { self.new ≡ push_within 1101 self.old c }
    {
        if self.count < KEPT {
            self.chars[self.count] = c;
            self.count += 1;
        }
    }

    /// No character, from now on.
    pub(crate) fn clear(&mut self)
        ensures { self.new ≡ [] }
    {
        self.count = 0;
    }

    /// The characters.
    pub(crate) fn as_slice(&self) -> &[u8]
        ensures { result.now ≡ self.now }
    {
        &self.chars[..self.count]
    }
}
