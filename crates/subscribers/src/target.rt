//! What an id stands for.

ghost use Rattle.std.specs.Prelude.{◌≡◌, ◌<◌, ◌≤◌, length, slice_index};
ghost use Rattle.subscribers.specs.Entries.{most_members};

use codeword::{Capcode, Function};
use std::marker::Model;

/// The most capcodes of a group.
pub const MOST_MEMBERS: usize = 16;

/// What an id stands for: the function of each page to it, and its capcodes, one of a subscriber and 1 to 16 of a group. It borrows the
/// settings, and takes no memory.
#[derive(Drop)]
pub struct Target<'a> {
    function: Function,
    capcodes: &'a [Capcode],
}

impl<'a> Model for Target<'a> {
    ghost use Rattle.std.specs.Prelude.{◌≤◌, length};
    ghost use Rattle.subscribers.specs.Entries.{most_members};
    ghost use Rattle.subscribers.specs.Parts.{Target as IdTarget, target_code};

    ghost Value = { IdTarget };

    ghost coded = { target_code };

    ghost view = { λ t. record { function = t.function; capcodes = t.capcodes.now } };

    ghost invariant = { λ t. (1 ≤ length t.capcodes.now) × (length t.capcodes.now ≤ most_members) };
}

impl<'a> Target<'a> {
    /// 1 to 16 capcodes with this function.
    pub(crate) fn new(function: Function, capcodes: &'a [Capcode]) -> Target<'a>
        requires some { 1 ≤ length capcodes.now }
        requires most { length capcodes.now ≤ most_members }
        ensures function { result.function ≡ function }
        ensures capcodes { result.capcodes ≡ capcodes.now }
    {
        Target { function, capcodes }
    }

    /// The function of each page to the id.
    pub fn function(&self) -> Function
        ensures { result ≡ self.now.function }
    {
        self.function
    }

    /// The capcodes, in the order of the settings.
    pub fn capcodes(&self) -> &'a [Capcode]
        ensures value { result.now ≡ self.now.capcodes }
        ensures some { 1 ≤ length result.now }
        ensures most { length result.now ≤ most_members }
    {
        self.capcodes
    }

    /// The number of capcodes, from 1 to 16.
    pub fn count(&self) -> usize
        ensures value { result ≡ length self.now.capcodes }
        ensures some { 1 ≤ result }
        ensures most { result ≤ most_members }
    {
        self.capcodes.len()
    }

    /// The capcode at a place, from 0. The place is below the count.
    pub fn member(&self, k: usize) -> Capcode
        requires { k < length self.now.capcodes }
        ensures { result ≡ slice_index self.now.capcodes k }
    {
        let capcodes = self.capcodes();
        capcodes[k]
    }
}
