//! A trial: the session of an input, and what receivers hear of its pages through a noise.
//!
//! How it is built. `Station::trial` reads the session and prints the answers. What hears the pages, and how often they are sent to it, is
//! a `Hearing` (module `sending`).

ghost use Rattle.std.specs.Prelude.{◌≡◌, []};
ghost use Rattle.page_pool.specs.Pool.{cells};
ghost use Rattle.wires.specs.Fronts.{Grows};
ghost use Rattle.serving.specs.Leaves.{HasTried};
ghost use Rattle.serving.specs.Trying.{TrialOutWell};

use crate::answering::InputEnd;
use crate::sending::Hearing;
use crate::session::Station;
use endings::statuses::Status;
use wires::Failed;
use wires::sink::Sink;
use wires::source::{BitSource, Source};

/// The line between the answers and the pages.
const BETWEEN: &[u8] = b"---\n";

impl Station {
    /// Reads one session from the input, up to its End or to the end of the input, and prints each answer but Nothing; then a line of
    /// three hyphens; then the line of each page that the receivers hear of the transmission of the accepted pages, which is sent once to a
    /// `Group` and twice to a `SentTwice`, each bit xor the noise's, which is 0 behind its end. It begins by clearing the pool. The
    /// receivers were fed no bit. The noise is read no further than what is sent, and not where no page was accepted.
    ///
    /// The answer is Done where all was printed; InputFault where a read of the input failed; FileFault where one of the noise did;
    /// OutFault where a write did, which doesn't happen over a steady output with room for all lines. At each fault a front of all lines
    /// was put. No page is left in the pool behind Done. `report` is then that of the session that was tried, at every answer.
    pub fn trial<I: Source, N: BitSource, H: Hearing, O: Sink>(
        &mut self,
        input: &mut I,
        noise: &mut N,
        hearing: &mut H,
        out: &mut O,
    ) -> Status
        requires none { H.fresh hearing.old }
        requires silent { H.prints hearing.old [] ≡ [] }
        requires grows { Grows (H.prints hearing.old) }
        ensures settings { self.new.settings ≡ self.old.settings }
        ensures cells_are { cells self.new.pool ≡ self.old.settings.cells }
        ensures tries { HasTried (H.times hearing.old) self.old.settings self.old.settings.cells (H.prints hearing.old) (I.state input.old) (I.state input.new) (N.state noise.old) (N.state noise.new) (O.state out.old) (O.state out.new)
            self.new.pool self.new.desk result }
        ensures out_well { TrialOutWell (H.times hearing.old) self.old.settings self.old.settings.cells (H.prints hearing.old) (I.state input.old) (N.state noise.old) (O.state out.old) (O.state out.new) result }
    {
        self.pool.clear();
        match self.answer_input(input, out) {
            InputEnd::Answered => {}
            InputEnd::Broken => return Status::InputFault,
            InputEnd::Unprinted => return Status::OutFault,
        }
        if let Err(Failed) = out.put(BETWEEN) {
            return Status::OutFault;
        }
        hearing.hear_pages(&mut self.pool, noise, out)
    }
}
