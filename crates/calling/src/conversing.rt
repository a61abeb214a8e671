//! A client's call over the open connection, from its first CR to the end.
//!
//! How it is built. `hold` hears up to 4,096 bytes at a time, `feed_all` goes through what was heard, and `feed` hands one byte to the
//! client, which says what is then due. So each piece is said by one call before anything further is heard.
//!
//! What to mind. What a call comes to is the record `Came` of `specs/Conversations.antt`. The 1,000,000th character ends the call and
//! isn't fed, so the loop of `hold` never comes to its end.

ghost use Rattle.std.specs.Prelude.{◌≡◌, ℕ, ◌+◌, ◌≤◌, IsTrue, List, [], ◌∷◌, ◌++◌, length};
ghost use Rattle.calling.specs.Conversations.{Came, GoesOnSo, CallStaysOpen, CallUnderWay};
ghost use Rattle.calling.specs.Progress.{logon_of, logon_of_stage, outcomes_of};
ghost use Rattle.tap_entry.specs.PagesFile.{most_pages};
ghost use Rattle.wires.specs.Line.{Line};

use crate::stages::{Ending, Logon, Outcomes, Stage, Step, say, take};
use entry_line::characters::{CR, LAST_CHARACTER};
use tap_entry::{Calling, Pages};
use wires::Failed;
use wires::wire::Wire;

/// So many bytes are heard at a time.
const HEARD_AT_ONCE: usize = 4096;

/// So many characters are fed at most. The next one ends the call.
const MOST_FED: u32 = LAST_CHARACTER - 1;

/// The carriage return that the client says at first.
const FIRST: [u8; 1] = [CR];

impl Stage {
    /// Whether the client was logged on.
    fn logon(&self) -> Logon
        ensures { result ≡ logon_of_stage self.now }
    {
        match self {
            Stage::Calling(_) => Logon::Pending,
            Stage::Sending(_) => Logon::Granted,
            Stage::Leaving(_) => Logon::Granted,
        }
    }
}

/// Sends the pages over the open connection. The outcomes of the pages that were decided are appended to the list, which is empty at
/// first.
pub(crate) fn converse<W: Wire>(pages: &Pages, done: &mut Outcomes, wire: &mut W) -> Ending
    ensures { length pages.now.pages ≤ most_pages → done.old.items ≡ [] → CallStaysOpen pages.now (W.state wire.old) (W.state wire.new) (outcomes_of pages.now (logon_of result) done.new.items) result }
{
    let calling = Calling::new(pages.password());
    if let Err(Failed) = say(&FIRST, wire) {
        return Ending::Lost(Logon::Pending);
    }
    hold(Stage::Calling(calling), pages, done, wire)
}

/// Hears and answers, until the call ends.
fn hold<W: Wire>(stage: Stage, pages: &Pages, done: &mut Outcomes, wire: &mut W) -> Ending
    ensures { (first : Line) → CallUnderWay pages.now first (W.state wire.old) stage MOST_FED done.old.items [] []
        → CallStaysOpen pages.now first (W.state wire.new) (outcomes_of pages.now (logon_of result) done.new.items) result }
{
    let mut now = stage;
    let mut left = MOST_FED;
    let mut buffer = [0; HEARD_AT_ONCE];
    for _ in 0..=MOST_FED {
        match wire.hear(&mut buffer) {
            Ok(0) => return Ending::Over(now.logon()),
            Ok(n) => match feed_all(now, &buffer[..n], &mut left, pages, done, wire) {
                Step::On(next) => now = next,
                Step::Ends(ending) => return ending,
            },
            Err(Failed) => return Ending::Lost(now.logon()),
        }
    }
    Ending::Over(now.logon())
}

/// Feeds what was heard, byte by byte.
fn feed_all<W: Wire>(
    stage: Stage,
    bytes: &[u8],
    left: &mut u32,
    pages: &Pages,
    done: &mut Outcomes,
    wire: &mut W,
) -> Step
    ensures { (first : Line) (heard : List ℕ) → CallUnderWay pages.now first (W.state wire.old) stage left.old done.old.items heard bytes.now
        → GoesOnSo pages.now first (W.state wire.new) left.new done.new.items heard [] result }
{
    let mut now = stage;
    for byte in bytes {
        match feed(now, *byte, left, pages, done, wire) {
            Step::On(next) => now = next,
            Step::Ends(ending) => return Step::Ends(ending),
        }
    }
    Step::On(now)
}

/// Feeds a byte that was heard, and says what is then due.
fn feed<W: Wire>(
    stage: Stage,
    byte: u8,
    left: &mut u32,
    pages: &Pages,
    done: &mut Outcomes,
    wire: &mut W,
) -> Step
    ensures { (first : Line) (heard ahead : List ℕ) → CallUnderWay pages.now first (W.state wire.old) stage left.old done.old.items heard (byte ∷ ahead)
        → GoesOnSo pages.now first (W.state wire.new) left.new done.new.items heard ahead result }
{
    if *left == 0 {
        return Step::Ends(Ending::Over(stage.logon()));
    }
    *left -= 1;
    take(stage, byte, pages, done, wire)
}
