//! Capcodes: the 21-bit addresses of receivers.

ghost use Rattle.std.specs.Prelude.{◌≡◌, ◌≢◌, ℕ, ◌%◌, ◌<◌, ◌/◌, ◌^◌, SomeIff};
ghost use Rattle.codeword.specs.Capcodes.{IsUsable, high_of, frame_of};

use std::marker::Model;

/// Capcodes have 21 bits: their numbers are below this.
const CAPCODES: u32 = 1 << 21;

/// The high bits of the capcodes 2007664 to 2007671, whose address word with function 0 is the idle word.
const IDLE_HIGH: u32 = 2_007_664 / 8;

/// The high bits of the capcodes 2045056 to 2045063, whose address word with function 2 is the sync word.
const SYNC_HIGH: u32 = 2_045_056 / 8;

/// A usable capcode: a number below 2^21 whose high bits are those of neither the idle word nor the sync word.
#[derive(Clone, Copy, Debug, PartialEq, Eq)]
pub struct Capcode {
    number: u32,
}

impl Model for Capcode {
    ghost use Rattle.std.specs.Prelude.{ℕ};
    ghost use Rattle.codeword.specs.Capcodes.{IsUsable};

    ghost Value = { ℕ };

    ghost view = { λ c. c.number };

    ghost invariant = { λ c. IsUsable c.number };

    ghost inverse = { λ n. record { number = n } };
}

impl Capcode {
    /// The capcode of this number. None exactly for numbers of 2^21 and above, for 2007664 to 2007671 (the idle word's) and for
    /// 2045056 to 2045063 (the sync word's).
    pub fn of(n: u32) -> Option<Capcode>
        ensures { SomeIff result (IsUsable n) n }
    {
        let high = n / 8;
        if n < CAPCODES && high != IDLE_HIGH && high != SYNC_HIGH {
            Some(Capcode { number: n })
        } else {
            None
        }
    }

    /// Its number, from 0 to 2^21 - 1.
    pub fn number(self) -> u32
        ensures value { result ≡ self }
        ensures usable { IsUsable result }
    {
        self.number
    }

    /// The frame that its pages start in, from 0 to 7: its three low bits.
    pub fn frame(self) -> u32
        ensures value { result ≡ frame_of self }
        ensures small { result < 8 }
    {
        self.number % 8
    }

    /// Its 18 high bits, which its address words carry.
    pub fn high(self) -> u32
        ensures value { result ≡ high_of self }
        ensures small { result < 2 ^ 18 }
    {
        self.number / 8
    }
}
