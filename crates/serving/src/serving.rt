//! The connections of the station, one after another.
//!
//! How it is built. `serve` empties the pool, and `serve_on` makes the file of the air fresh, and listens. `serve_next` opens the next connection,
//! serves its session, appends the transmission of its pages to the file, and puts its report line. Where one of these calls fails, the
//! serving ends with the status that names the fault. A session ends no serving.
//!
//! What to mind. What serving comes to is said for the list of the sessions that were served (`specs/Served.antt`), status by status
//! (`specs/Serving.antt`). The lines are numbered from 1.

ghost use Rattle.std.specs.Prelude.{◌≡◌, ℕ, ◌+◌, ◌≤◌, List, length, OnOk, []};
ghost use Rattle.air.specs.Sends.{SendsTransmission};
ghost use Rattle.page_pool.specs.Pool.{cells, pages};
ghost use Rattle.serving.specs.Protocols.{StateIn, snpp, tap};
ghost use Rattle.serving.specs.Served.{Served};
ghost use Rattle.serving.specs.Leaves.{Further, Serves, state_after};
ghost use Rattle.serving.specs.Serving.{Around, SendsTo, SoFar};
ghost use Rattle.snpp_entry.specs.State.{SnppState};
ghost use Rattle.wires.specs.Stacked.{bits_over};

use crate::entry::EntryLine;
use crate::session::Station;
use crate::talking::session_on;
use air::{Sent, transmit};
use endings::statuses::Status;
use page_pool::Pool;
use snpp_entry::Snpp;
use subscribers::Settings;
use wires::Failed;
use wires::shelf::{Appending, Shelf};
use wires::sink::{Sink, WordBytes};
use wires::steps::{Steps, Work};
use wires::wire::Wire;

impl Station {
    /// Listens at an address and serves `count` connections, or as many as come. After each session it appends the transmission of the
    /// pages that were accepted in it to the file of this name, which it makes fresh at first, and puts the session's report line to
    /// `out`. It begins by taking all pages out of the pool, and takes no memory.
    ///
    /// Done comes where `count` connections were served or no further one came. FileFault comes only where the shelf failed, WireFault
    /// only where `listen` or `next` did, and OutFault only where `out` did. A session whose line was lost, or whose `hang_up` failed, is
    /// reported like any other, and the serving goes on. No page is left in the pool, but where an append failed. `report` is then that of
    /// the last session that was served, and where none was the one before.
    pub fn serve<W: Wire, F: Shelf, O: Sink>(
        &mut self,
        wire: &mut W,
        shelf: &mut F,
        address: &str,
        air: &str,
        count: u32,
        out: &mut O,
    ) -> Status
        ensures settings { self.new.settings ≡ self.old.settings }
        ensures cells_are { cells self.new.pool ≡ self.old.settings.cells }
        ensures serves { Serves tap self.old.settings self.old.settings.cells
            (record { wire = W.state wire.old; shelf = F.state shelf.old; out = O.state out.old })
            (record { wire = W.state wire.new; shelf = F.state shelf.new; out = O.state out.new }) address.now air.now count self.old.desk self.new.pool self.new.desk result }
    {
        self.pool.clear();
        serve_on(
            &mut self.terminal,
            &self.settings,
            &mut self.pool,
            wire,
            shelf,
            address,
            air,
            count,
            out,
        )
    }

    /// Listens at an address and serves `count` connections by the SNPP entry line, or as many as come. After each session it appends the
    /// transmission of the pages that were queued in it to the file of this name, which it makes fresh at first, and puts the session's
    /// report line to `out`. It begins by taking all pages out of the pool, and takes no memory. `report` stays that of the last TAP
    /// session.
    ///
    /// The statuses and their causes are those of `serve`.
    pub fn serve_snpp<W: Wire, F: Shelf, O: Sink>(
        &mut self,
        wire: &mut W,
        shelf: &mut F,
        address: &str,
        air: &str,
        count: u32,
        out: &mut O,
    ) -> Status
        ensures settings { self.new.settings ≡ self.old.settings }
        ensures terminal { self.new.desk ≡ self.old.desk }
        ensures cells_are { cells self.new.pool ≡ self.old.settings.cells }
        ensures serves { (first last : SnppState) × Serves snpp self.old.settings self.old.settings.cells
            (record { wire = W.state wire.old; shelf = F.state shelf.old; out = O.state out.old })
            (record { wire = W.state wire.new; shelf = F.state shelf.new; out = O.state out.new }) address.now air.now count first self.new.pool last result }
    {
        self.pool.clear();
        serve_on(
            &mut Snpp::new(),
            &self.settings,
            &mut self.pool,
            wire,
            shelf,
            address,
            air,
            count,
            out,
        )
    }
}

/// Listens, and serves connections by an entry line, with an empty pool of so many cells. It answers as `Station::serve` does.
fn serve_on<E: EntryLine, W: Wire, F: Shelf, O: Sink>(
    entry: &mut E,
    settings: &Settings,
    pool: &mut Pool,
    wire: &mut W,
    shelf: &mut F,
    address: &str,
    air: &str,
    count: u32,
    out: &mut O,
) -> Status
    requires { pool.old.live ≡ [] }
    ensures cells_stay { cells pool.new ≡ cells pool.old }
    ensures serves { Serves E.protocol settings.now pool.old.spare
        (record { wire = W.state wire.old; shelf = F.state shelf.old; out = O.state out.old })
        (record { wire = W.state wire.new; shelf = F.state shelf.new; out = O.state out.new }) address.now air.now count (E.state entry.old) pool.new (E.state entry.new) result }
{
    if let Err(Failed) = shelf.fresh(air) {
        return Status::FileFault;
    }
    if let Err(Failed) = wire.listen(address) {
        return Status::WireFault;
    }
    for k in 0..count {
        if let Some(status) = serve_next(entry, settings, pool, wire, shelf, air, k + 1, out) {
            return status;
        }
    }
    Status::Done
}

/// Serves the next connection, whose line has this number. It answers the status where the serving ends.
fn serve_next<E: EntryLine, W: Wire, F: Shelf, O: Sink>(
    entry: &mut E,
    settings: &Settings,
    pool: &mut Pool,
    wire: &mut W,
    shelf: &mut F,
    air: &str,
    number: u32,
    out: &mut O,
) -> Option<Status>
    ensures cells_stay { cells pool.new ≡ cells pool.old }
    ensures further { (spare most : ℕ) (first : Around) (begun : StateIn E.protocol) (address : List ℕ) (sessions : List (Served E.protocol settings.now spare))
        → SoFar first (record { wire = W.state wire.old; shelf = F.state shelf.old; out = O.state out.old }) address air.now most pool.old sessions
        → E.state entry.old ≡ state_after begun sessions → length sessions + 1 ≡ number → number ≤ most
        → Further E.protocol settings.now spare first (record { wire = W.state wire.new; shelf = F.state shelf.new; out = O.state out.new }) address air.now most begun pool.new (E.state entry.new) number result }
{
    match wire.next() {
        Ok(true) => {}
        Ok(false) => return Some(Status::Done),
        Err(Failed) => return Some(Status::WireFault),
    }
    let end = session_on(entry, settings, pool, wire);
    if let Err(Failed) = send(pool, shelf, air) {
        return Some(Status::FileFault);
    }
    if let Err(Failed) = entry.put_line(number, end, out) {
        return Some(Status::OutFault);
    }
    None
}

/// Appends the transmission of a pool's pages to a file, and empties the pool.
fn send<F: Shelf>(pool: &mut Pool, shelf: &mut F, name: &str) -> Result<Sent, Failed>
    ensures { SendsTo pool.old pool.new (F.state shelf.old) (F.state shelf.new) name.now result }
{
    let mut file = Appending::over(shelf, name);
    send_bytes(pool, &mut file)
}

/// Puts the transmission of a pool's pages as bytes, and empties the pool.
fn send_bytes<K: Sink>(pool: &mut Pool, sink: &mut K) -> Result<Sent, Failed>
    ensures sends { SendsTransmission (pages pool.old) (bits_over sink.entry.ghost_name (K.state sink.old)) (bits_over sink.entry.ghost_name (K.state sink.new)) result }
    ensures emptied { OnOk result (pool.new.live ≡ []) }
    ensures cells_stay { cells pool.new ≡ cells pool.old }
{
    let mut words = WordBytes::over(sink);
    let mut steps: Steps<Work> = Steps::new();
    transmit(pool, &mut words, &mut steps)
}
