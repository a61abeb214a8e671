//! A shelf and a wire that are not there: every call raises its count and answers `Failed`.
ghost use Rattle.std.specs.Prelude.{◌≡◌};
ghost use Rattle.wires.specs.Causes.{Refuses};
ghost use Rattle.wires.specs.Files.{AppendsTo, Freshens, ReadsAt};
ghost use Rattle.wires.specs.Line.{Dials, HangsUp, Hears, Listens, Opens, Says};
ghost use Rattle.wires.specs.Silent.{no_faults, silent_shelf, silent_wire};

use crate::shelf::Shelf;
use crate::wire::Wire;
use crate::{Failed, raise};
use std::marker::Model;

/// No shelf. It tells nothing but its faults.
#[derive(Drop)]
pub struct NoShelf {
    faults: u64,
}

impl Model for NoShelf {
    ghost use Rattle.std.specs.Prelude.{ℕ};

    ghost Value = { ℕ };

    ghost view = { λ s. s.faults };
}

impl NoShelf {
    /// A shelf that is not there, with no faults.
    pub fn new() -> NoShelf
        ensures { result ≡ 0 }
    {
        NoShelf { faults: 0 }
    }
}

impl Shelf for NoShelf {
    ghost state = { silent_shelf };

    fn read(&mut self, name: &str, from: u64, into: &mut [u8]) -> Result<usize, Failed>
        ensures reads { ReadsAt (silent_shelf self.old) (silent_shelf self.new) name.now from into.new result }
        ensures refuses { Refuses self.old self.new result }
    {
        raise(&mut self.faults);
        Err(Failed)
    }

    fn fresh(&mut self, name: &str) -> Result<(), Failed>
        ensures freshens { Freshens (silent_shelf self.old) (silent_shelf self.new) name.now result }
        ensures refuses { Refuses self.old self.new result }
    {
        raise(&mut self.faults);
        Err(Failed)
    }

    fn append(&mut self, name: &str, piece: &[u8]) -> Result<(), Failed>
        ensures appends { AppendsTo (silent_shelf self.old) (silent_shelf self.new) name.now piece.now result }
        ensures refuses { Refuses self.old self.new result }
    {
        raise(&mut self.faults);
        Err(Failed)
    }
}

/// No wire. It tells nothing but its counts.
#[derive(Drop)]
pub struct NoWire {
    gate: u64,
    hear: u64,
    say: u64,
    hang: u64,
}

impl Model for NoWire {
    ghost use Rattle.wires.specs.Silent.{LineFaults};

    ghost Value = { LineFaults };

    ghost view = { λ w. record { gate = w.gate; hear = w.hear; say = w.say; hang = w.hang } };
}

impl NoWire {
    /// A wire that is not there, with no faults.
    pub fn new() -> NoWire
        ensures { result ≡ no_faults }
    {
        NoWire {
            gate: 0,
            hear: 0,
            say: 0,
            hang: 0,
        }
    }
}

impl Wire for NoWire {
    ghost state = { silent_wire };

    fn listen(&mut self, _at: &str) -> Result<(), Failed>
        ensures listens { Listens (silent_wire self.old) (silent_wire self.new) _at.now result }
        ensures refuses { Refuses self.old.gate self.new.gate result }
    {
        raise(&mut self.gate);
        Err(Failed)
    }

    fn next(&mut self) -> Result<bool, Failed>
        ensures opens { Opens (silent_wire self.old) (silent_wire self.new) result }
        ensures refuses { Refuses self.old.gate self.new.gate result }
    {
        raise(&mut self.gate);
        Err(Failed)
    }

    fn dial(&mut self, _at: &str) -> Result<(), Failed>
        ensures dials { Dials (silent_wire self.old) (silent_wire self.new) _at.now result }
        ensures refuses { Refuses self.old.gate self.new.gate result }
    {
        raise(&mut self.gate);
        Err(Failed)
    }

    fn hear(&mut self, into: &mut [u8]) -> Result<usize, Failed>
        ensures hears { Hears (silent_wire self.old) (silent_wire self.new) into.new result }
        ensures refuses { Refuses self.old.hear self.new.hear result }
    {
        raise(&mut self.hear);
        Err(Failed)
    }

    fn say(&mut self, piece: &[u8]) -> Result<(), Failed>
        ensures says { Says (silent_wire self.old) (silent_wire self.new) piece.now result }
        ensures refuses { Refuses self.old.say self.new.say result }
    {
        raise(&mut self.say);
        Err(Failed)
    }

    fn hang_up(&mut self) -> Result<(), Failed>
        ensures hangs_up { HangsUp (silent_wire self.old) (silent_wire self.new) result }
        ensures refuses { Refuses self.old.hang self.new.hang result }
    {
        raise(&mut self.hang);
        Err(Failed)
    }
}
