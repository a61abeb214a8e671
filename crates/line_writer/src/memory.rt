//! Bytes in memory as a source.

ghost use Rattle.std.specs.Prelude.{◌≡◌};

use wires::Failed;
use wires::source::Source;

/// Bytes that are read from their front. It never fails.
#[derive(Drop)]
pub(crate) struct InMemory<'a> {
    rest: &'a [u8],
}

impl<'a> InMemory<'a> {
    /// These bytes.
    pub(crate) fn of(bytes: &'a [u8]) -> InMemory<'a>
        ensures { result.rest.now ≡ bytes.now }
    {
        InMemory { rest: bytes }
    }
}

impl<'a> Source for InMemory<'a> {
    ghost use Rattle.std.specs.Prelude.{[], true};

    ghost state = { λ s. record { tells = true; left = s.rest.now; there = true; steady = true; faults = 0; lent = [] } };

    fn take(&mut self, into: &mut [u8]) -> Result<usize, Failed> {
        let count = into.len().min(self.rest.len());
        let (first, rest) = self.rest.split_at(count);
        let (front, _) = into.split_at_mut(count);
        front.copy_from_slice(first);
        self.rest = rest;
        Ok(count)
    }
}
