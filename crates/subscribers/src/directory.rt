//! The ordered map of ids.

ghost use Rattle.std.specs.Prelude.{◌≡◌, ◌≤◌, length, OnOk, OnErr, Option, option_map};
ghost use Rattle.std.specs.FinMap as map;
ghost use Rattle.subscribers.specs.Entries.{most_members};
ghost use Rattle.subscribers.specs.Placed.{IsPlaceIn, target_at};

use crate::target::Target;
use codeword::{Capcode, Function};
use std::alloc::{AllocError, Global};
use std::collections::BTreeMap;
use std::marker::Model;

/// Where the capcodes of an id stand, and the function of its pages.
#[derive(Clone, Copy, Debug, PartialEq, Eq)]
pub(crate) struct Place {
    function: Function,
    start: usize,
    count: usize,
}

/// What stands at a place.
fn target_in(capcodes: &[Capcode], place: Place) -> Target<'_>
    requires { IsPlaceIn capcodes.now place }
    ensures { result ≡ target_at capcodes.now place }
{
    let end = place.start + place.count;
    Target::new(place.function, &capcodes[place.start..end])
}

/// A map from ids to what they stand for, in the order of the ids' bytes. The capcodes of all ids stand in one list.
#[derive(Drop)]
pub struct Directory {
    ids: BTreeMap<Vec<u8>, Place>,
    capcodes: Vec<Capcode>,
}

impl Model for Directory {
    ghost use Rattle.std.specs.FinMap as map;
    ghost use Rattle.std.specs.Ordering.{nat_cmp};
    ghost use Rattle.std.specs.Cmp.Lexicographic.{slice_cmp};
    ghost use Rattle.std.specs.Coded.{coded_ℕ, coded_list};
    ghost use Rattle.subscribers.specs.Parts.{Target as IdTarget, target_code};
    ghost use Rattle.subscribers.specs.Placed.{seen_ids, ArePlacesIn};

    ghost Value = { map.FinMap (slice_cmp nat_cmp) IdTarget };

    ghost coded = { map.code (coded_list coded_ℕ) target_code };

    ghost view = { λ a. map.from_entries (seen_ids a.capcodes.items a.ids.entries) };

    ghost invariant = { λ a. ArePlacesIn a.capcodes.items a.ids.entries };
}

impl Directory {
    /// The map of no ids.
    pub fn new(alloc: Global) -> Directory
        ensures { result ≡ map.empty }
    {
        Directory {
            ids: BTreeMap::new(alloc),
            capcodes: Vec::new(alloc),
        }
    }

    /// What an id stands for. None where the map hasn't this id. The time grows with the logarithm of the number of ids.
    pub fn find(&self, id: &[u8]) -> Option<Target<'_>>
        ensures { result ≡ map.get self.now id.now }
    {
        match self.ids.get(id) {
            Some(place) => Some(target_in(&self.capcodes, *place)),
            None => None,
        }
    }

    /// Adds an id with what it stands for. Where there is no memory, the map stays as it was.
    pub fn insert(
        &mut self,
        alloc: Global,
        id: &[u8],
        function: Function,
        capcodes: &[Capcode],
    ) -> Result<(), AllocError>
        requires some { 1 ≤ length capcodes.now }
        requires most { length capcodes.now ≤ most_members }
        ensures ok { OnOk result (self.new ≡ map.insert self.old id.now (record { function = function; capcodes = capcodes.now })) }
        ensures err { OnErr result (self.new ≡ self.old) }
    {
        let key = Vec::from_slice(alloc, id)?;
        let start = self.capcodes.len();
        self.capcodes.extend_from_slice(capcodes)?;
        let place = Place {
            function,
            start,
            count: capcodes.len(),
        };
        self.ids.insert(key, place)?;
        Ok(())
    }
}
