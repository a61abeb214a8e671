//! How many pages came of a session, and how many lines were refused.

ghost use Rattle.std.specs.Prelude.{◌≡◌, ◌+◌, ◌<◌, ◌^◌};
ghost use Rattle.snpp_entry.specs.Reports.{snpp_added, is_refusal};

use crate::answers::SnppAnswer;

/// The counts of a session.
#[derive(Clone, Copy, Debug, PartialEq, Eq)]
pub struct SnppReport {
    /// The pages that were queued.
    pub pages: u32,
    /// The lines that were refused: answered Command, Twice, Missing, Pager, Text or Room.
    pub refused: u32,
}

/// The report of a session in which nothing has come.
pub(crate) const EMPTY: SnppReport = SnppReport {
    pages: 0,
    refused: 0,
};

impl SnppReport {
    /// Counts an answer and its pages.
    pub(crate) fn count(&mut self, answer: SnppAnswer, pages: u32)
        requires pages { self.old.pages + pages < 2 ^ 32 }
        requires refused { self.old.refused + 1 < 2 ^ 32 }
        ensures { self.new ≡ snpp_added self.old answer pages }
    {
        self.pages += pages;
        if is_refusal(answer) {
            self.refused += 1;
        }
    }
}

/// Whether an answer refuses a line.
fn is_refusal(answer: SnppAnswer) -> bool
    ensures { result ≡ is_refusal answer }
{
    match answer {
        SnppAnswer::Nothing | SnppAnswer::Ok | SnppAnswer::Bye | SnppAnswer::TooLong => false,
        SnppAnswer::Command
        | SnppAnswer::Twice
        | SnppAnswer::Missing
        | SnppAnswer::Pager
        | SnppAnswer::Text
        | SnppAnswer::Room => true,
    }
}
