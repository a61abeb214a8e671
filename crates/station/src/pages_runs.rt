//! The command `send`, which reads its pages from a file.

ghost use Rattle.std.specs.Prelude.{◌≡◌};
ghost use Rattle.station.specs.SendRows.{SendRow, pages_outcome};

use crate::files::read_file;
use crate::outcomes::Outcome;
use calling::sending_pages::send;
use endings::statuses::Status;
use std::alloc::Global;
use tap_entry::{Pages, PagesFault};
use wires::shelf::Shelf;
use wires::sink::Sink;
use wires::wire::Wire;

/// Runs `send`.
pub(crate) fn run_send<W: Wire, F: Shelf, O: Sink>(
    alloc: Global,
    address: &str,
    pages: &str,
    wire: &mut W,
    shelf: &mut F,
    out: &mut O,
) -> Outcome
    ensures { SendRow address.now pages.now
        (record { wire = W.state wire.old; shelf = F.state shelf.old; out = O.state out.old })
        (record { wire = W.state wire.new; shelf = F.state shelf.new; out = O.state out.new }) result }
{
    let bytes = match read_file(alloc, shelf, pages) {
        Ok(bytes) => bytes,
        Err(status) => return Outcome::Ended(status),
    };
    match Pages::read(alloc, &bytes) {
        Ok(pages) => Outcome::Ended(send(wire, address, &pages, out)),
        Err(fault) => without_pages(fault),
    }
}

/// What a command comes to whose pages file is refused.
fn without_pages(fault: PagesFault) -> Outcome
    ensures { result ≡ pages_outcome fault }
{
    match fault {
        PagesFault::Memory => Outcome::Ended(Status::Memory),
        _ => Outcome::Misread(fault),
    }
}
