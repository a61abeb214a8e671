//! The command `send`: docs/profile.md, "send".
//!
//! How it is built. `call` dials, lets the client talk over the connection, and hangs up. `send` then puts the line of each page, and
//! answers by how the call ended.
//!
//! What to mind. What a call comes to is said in `specs/Calls.antt`, also where dialling fails, and what each status means. After a fault
//! of the wire every outcome is still printed.

ghost use Rattle.std.specs.Prelude.{◌≡◌, ◌≤◌, [], length};
ghost use Rattle.calling.specs.Calls.{CallsUp, HasSent, status_of};
ghost use Rattle.calling.specs.Conversations.{CallStaysOpen};
ghost use Rattle.calling.specs.OutcomeLines.{all_sent};
ghost use Rattle.calling.specs.Progress.{logon_of, unfinished};
ghost use Rattle.tap_entry.specs.PagesFile.{most_pages};

use crate::conversing::converse;
use crate::outcome_lines::{are_all_sent, fill, put_outcomes};
use crate::stages::{Ending, Logon, Outcomes};
use arrayvec::ArrayVec;
use endings::statuses::Status;
use tap_entry::{Outcome, Pages};
use wires::Failed;
use wires::sink::Sink;
use wires::wire::Wire;

/// Sends pages as a client: dials the address, says CR, hears what the terminal says and says what is then due, and hangs up. It hears
/// nothing once the terminal has hung up, the logon is refused, a page's tries are spent, or 1,000,000 characters were heard. Then it
/// puts a line for each page to `out`, in the order of the pages: the page's number from 1 and what became of it. It takes no memory.
///
/// Done comes where every page was sent. LogonRefused comes exactly where the wire didn't fail and no Go was heard, and SomeUnsent
/// exactly where it didn't fail, Go was heard and some page wasn't sent. WireFault comes only where the wire failed. The lines were put in
/// each of these cases. OutFault comes only where `out` failed, and a front of the lines was put then.
pub fn send<W: Wire, O: Sink>(wire: &mut W, address: &str, pages: &Pages, out: &mut O) -> Status
    ensures { HasSent pages.now address.now (W.state wire.old) (W.state wire.new) (O.state out.old) (O.state out.new) result }
{
    let mut outcomes = ArrayVec::new();
    let ending = call(wire, address, pages, &mut outcomes);
    if let Err(Failed) = put_outcomes(outcomes.as_slice(), out) {
        return Status::OutFault;
    }
    status(ending, outcomes.as_slice())
}

/// The status for how a call ended and for the outcomes of the pages.
fn status(ending: Ending, outcomes: &[Outcome]) -> Status
    ensures { result ≡ status_of ending (all_sent outcomes.now) }
{
    match ending {
        Ending::Lost(_) => Status::WireFault,
        Ending::Over(Logon::Pending) => Status::LogonRefused,
        Ending::Over(Logon::Granted) => {
            if are_all_sent(outcomes) {
                Status::Done
            } else {
                Status::SomeUnsent
            }
        }
    }
}

/// Dials, talks and hangs up. The outcomes of all pages are appended to the list, which is empty at first.
fn call<W: Wire>(wire: &mut W, address: &str, pages: &Pages, outcomes: &mut Outcomes) -> Ending
    ensures calls { outcomes.old.items ≡ [] → CallsUp pages.now address.now (W.state wire.old) (W.state wire.new) outcomes.new.items result }
    ensures few { length pages.now.pages ≤ most_pages }
{
    if let Err(Failed) = wire.dial(address) {
        fill(Outcome::NoLogon, pages, outcomes);
        return Ending::Lost(Logon::Pending);
    }
    let ending = talk(wire, pages, outcomes);
    match wire.hang_up() {
        Ok(()) => ending,
        Err(Failed) => Ending::Lost(logon(ending)),
    }
}

/// Sends the pages over the open connection. The outcomes of all pages are appended to the list, which is empty at first.
fn talk<W: Wire>(wire: &mut W, pages: &Pages, outcomes: &mut Outcomes) -> Ending
    ensures held { outcomes.old.items ≡ [] → CallStaysOpen pages.now (W.state wire.old) (W.state wire.new) outcomes.new.items result }
    ensures few { length pages.now.pages ≤ most_pages }
{
    let ending = converse(pages, outcomes, wire);
    fill(rest(logon(ending)), pages, outcomes);
    ending
}

/// Whether the client was logged on.
fn logon(ending: Ending) -> Logon
    ensures { result ≡ logon_of ending }
{
    match ending {
        Ending::Over(logon) | Ending::Lost(logon) => logon,
    }
}

/// What becomes of the pages that have no outcome where the connection ends.
fn rest(logon: Logon) -> Outcome
    ensures { result ≡ unfinished logon }
{
    match logon {
        Logon::Pending => Outcome::NoLogon,
        Logon::Granted => Outcome::Disconnected,
    }
}
