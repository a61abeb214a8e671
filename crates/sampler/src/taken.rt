//! Bits taken one by one out of pieces.
ghost use Rattle.sampler.specs.Stacked.{ready_over};
ghost use Rattle.std.specs.Prelude.{◌≡◌, [], ◌∷◌, MatchOption};
ghost use Rattle.wires.specs.Ahead.{Fills};

use wires::Failed;
use wires::piece::Piece;
use wires::source::BitSource;

/// The bits of a source, which is asked for pieces. It is asked for the next piece where a bit of that is needed, so it
/// fails at the bit at which the source does.
#[derive(Drop)]
pub(crate) struct OneByOne<B: BitSource> {
    source: B,
    ready: Piece,
}

impl<B: BitSource> OneByOne<B> {
    /// The bits that this source has left.
    pub(crate) fn over(source: B) -> OneByOne<B>
        ensures source { result.source ≡ source }
        ensures ready { result.ready ≡ [] }
    {
        OneByOne {
            source,
            ready: Piece::of(0, 0),
        }
    }

    /// Takes the next bit that is ready.
    #[inline(always)]
    pub(crate) fn next_ready(&mut self) -> Option<bool>
        ensures source { self.new.source ≡ self.old.source }
        ensures ready { MatchOption result (self.new ≡ self.old) (λ bit. self.old.ready ≡ bit ∷ self.new.ready) }
    {
        self.ready.pop()
    }

    /// Reads on, where no bit is ready.
    fn fill(&mut self) -> Result<(), Failed>
        requires { self.old.ready ≡ [] }
        ensures { Fills (ready_over self.old.ready (B.state self.old.source)) (ready_over self.new.ready (B.state self.new.source)) self.new.ready result }
    {
        self.ready = self.source.piece(u32::BITS)?;
        Ok(())
    }
}

impl<B: BitSource> BitSource for OneByOne<B> {
    ghost state = { λ s. ready_over s.ready (B.state s.source) };

    fn bit(&mut self) -> Result<Option<bool>, Failed> {
        if let Some(bit) = self.ready.pop() {
            return Ok(Some(bit));
        }
        self.fill()?;
        Ok(self.ready.pop())
    }
}
