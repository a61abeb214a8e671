//! Marks of numbers, by their lowest bits.

ghost use Rattle.std.specs.Prelude.{◌≡◌, ℕ, true};
ghost use Rattle.receiver.specs.Receivers.{is_marked};

use std::marker::Model;

/// So many marks.
const MARKS: usize = 4096;

/// A mark for the twelve lowest bits of a number. Each number that was marked has one. Of the others those have one whose lowest bits
/// are those of a marked number.
#[derive(Drop)]
pub struct Marks {
    marks: [bool; MARKS],
}

impl Model for Marks {
    ghost use Rattle.std.specs.Prelude.{List, Bool};

    ghost Value = { List Bool };

    ghost view = { λ m. m.marks };
}

impl Marks {
    /// No number is marked.
    pub fn none() -> Marks {
        Marks {
            marks: [false; MARKS],
        }
    }

    /// Marks a number.
    pub fn mark(&mut self, number: u32)
        ensures marked { is_marked self.new number ≡ true }
        ensures kept { (n : ℕ) → is_marked self.old n ≡ true → is_marked self.new n ≡ true }
    {
        self.marks[number as usize % MARKS] = true;
    }

    /// Whether a number has a mark.
    #[inline(always)]
    pub fn has(&self, number: u32) -> bool
        ensures { result ≡ is_marked self.now number }
    {
        self.marks[number as usize % MARKS]
    }
}
