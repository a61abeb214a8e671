//! The capcodes that a word says: docs/profile.md, "command lines".

ghost use Rattle.std.specs.Prelude.{◌≡◌, ℕ, ◌<◌, ◌≤◌, ◌++◌, ◌∷◌, [], List, length, Option, MatchOption, IsTrue, ◌↔◌};
ghost use Rattle.command_lines.specs.Commands.{IsCapcodeWord, IsReceiverWord};
ghost use Rattle.command_lines.specs.ReadWords.{GrowsBy, IsNext};

use codeword::Capcode;
use receiver::MOST_CAPCODES;
use std::marker::Model;

/// The most digits that a capcode has in a word.
const CAPCODE_DIGITS: usize = 7;

/// One to four capcodes.
#[derive(Drop)]
pub(crate) struct Capcodes {
    items: [Capcode; MOST_CAPCODES],
    count: usize,
}

impl Model for Capcodes {
    ghost use Rattle.std.specs.Prelude.{ℕ, ◌<◌, ◌≤◌, List, take};

    ghost Value = { List ℕ };

    ghost view = { λ c. take c.count c.items };

    ghost invariant = { λ c. (0 < c.count) × (c.count ≤ 4) };
}

impl Capcodes {
    /// One capcode.
    pub(crate) fn of(first: Capcode) -> Capcodes
        ensures { result ≡ first ∷ [] }
    {
        Capcodes {
            items: [first; MOST_CAPCODES],
            count: 1,
        }
    }

    /// The capcodes.
    pub(crate) fn as_slice(&self) -> &[Capcode]
        ensures value { result.now ≡ self.now }
        ensures some { 0 < length result.now }
        ensures few { length result.now ≤ 4 }
    {
        &self.items[..self.count]
    }

    /// Whether there are four.
    fn is_full(&self) -> bool
        ensures { IsTrue result ↔ (length self.now ≡ 4) }
    {
        self.as_slice().len() == MOST_CAPCODES
    }

    /// Adds a capcode at the end.
    fn push(&mut self, capcode: Capcode)
        requires { length self.old < 4 }
        ensures { self.new ≡ self.old ++ capcode ∷ [] }
    {
        self.items[self.count] = capcode;
        self.count += 1;
    }

    /// These capcodes, and behind them that of a part of a word. None exactly where the part says none, or one of these, and where there
    /// are four.
    fn with(mut self, part: &str) -> Option<Capcodes>
        ensures { MatchOption result ((capcode : ℕ) → IsNext self part.now capcode → ⊥) (λ more. GrowsBy self part.now more) }
    {
        let capcode = capcode_of(part)?;
        if self.is_full() || self.as_slice().contains(&capcode) {
            return None;
        }
        self.push(capcode);
        Some(self)
    }
}

/// The capcode that decimal digits say, without sign, with zeros in front or not. None exactly where there aren't one to seven of them, or
/// where their value is no usable capcode.
pub(crate) fn capcode_of(word: &str) -> Option<Capcode>
    ensures { MatchOption result ((capcode : ℕ) → IsCapcodeWord word.now capcode → ⊥) (λ capcode. IsCapcodeWord word.now capcode) }
{
    if word.len() > CAPCODE_DIGITS || word.starts_with('+') {
        return None;
    }
    let Ok(number) = word.parse::<u32>() else {
        return None;
    };
    Capcode::of(number)
}

/// The capcodes that a receiver's word says, with a plus sign between two. None exactly where they aren't one to four different capcodes.
pub(crate) fn capcodes_of(word: &str) -> Option<Capcodes>
    ensures { MatchOption result ((capcodes : List ℕ) → IsReceiverWord word.now capcodes → ⊥) (λ capcodes. IsReceiverWord word.now capcodes) }
{
    let Some((first, others)) = word.split_once('+') else {
        return Some(Capcodes::of(capcode_of(word)?));
    };
    let mut capcodes = Capcodes::of(capcode_of(first)?);
    let mut rest = others;
    'parts: while let Some((part, more)) = rest.split_once('+') {
        capcodes = capcodes.with(part)?;
        rest = more;
    }
    capcodes.with(rest)
}
