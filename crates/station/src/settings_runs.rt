//! The commands `station`, `snpp`, `trial` and `twice`, which read their settings from a file.

ghost use Rattle.std.specs.Prelude.{◌≡◌, [], IfOk};
ghost use Rattle.listening.specs.TwinLines.{twice_lines, twin_group_lines};
ghost use Rattle.repeats.specs.TwinListeners.{StandsForTwice};
ghost use Rattle.wires.specs.Fronts.{Grows};
ghost use Rattle.serving.specs.Sent.{once, twice};
ghost use Rattle.serving.specs.Protocols.{snpp, tap};
ghost use Rattle.station.specs.StationRows.{OpensStation, StationRow, TrialRow, TriesFile};

use crate::files::read_settings;
use crate::outcomes::Outcome;
use command_lines::commands::StationLine;
use command_lines::receivers::{Receivers, group_of, twin_group_of};
use endings::statuses::Status;
use repeats::Recording;
use serving::sending::{Hearing, SentTwice};
use serving::session::Station;
use std::alloc::Global;
use wires::Memory;
use wires::byte_bits::ShelfBits;
use wires::shelf::Shelf;
use wires::sink::Sink;
use wires::source::Source;
use wires::wire::Wire;

/// A station with the settings of a file, or what a command comes to that has none.
fn open_station<F: Shelf>(alloc: Global, shelf: &mut F, name: &str) -> Result<Station, Outcome>
    ensures { OpensStation name.now (F.state shelf.old) (F.state shelf.new) result }
{
    let settings = match read_settings(alloc, shelf, name) {
        Ok(settings) => settings,
        Err(outcome) => return Err(outcome),
    };
    let Ok(station) = Station::new(alloc, settings) else {
        return Err(Outcome::Ended(Status::Memory));
    };
    Ok(station)
}

/// Runs `station`.
pub(crate) fn run_station<W: Wire, F: Shelf, O: Sink>(
    alloc: Global,
    line: &StationLine<'_>,
    wire: &mut W,
    shelf: &mut F,
    out: &mut O,
) -> Outcome
    ensures { StationRow tap line.now.address.now line.now.settings.now line.now.air.now line.now.count
        (record { wire = W.state wire.old; shelf = F.state shelf.old; out = O.state out.old })
        (record { wire = W.state wire.new; shelf = F.state shelf.new; out = O.state out.new }) result }
{
    let mut station = match open_station(alloc, shelf, line.settings) {
        Ok(station) => station,
        Err(outcome) => return outcome,
    };
    Outcome::Ended(station.serve(wire, shelf, line.address, line.air, line.count, out))
}

/// Runs `snpp`.
pub(crate) fn run_snpp<W: Wire, F: Shelf, O: Sink>(
    alloc: Global,
    line: &StationLine<'_>,
    wire: &mut W,
    shelf: &mut F,
    out: &mut O,
) -> Outcome
    ensures { StationRow snpp line.now.address.now line.now.settings.now line.now.air.now line.now.count
        (record { wire = W.state wire.old; shelf = F.state shelf.old; out = O.state out.old })
        (record { wire = W.state wire.new; shelf = F.state shelf.new; out = O.state out.new }) result }
{
    let mut station = match open_station(alloc, shelf, line.settings) {
        Ok(station) => station,
        Err(outcome) => return outcome,
    };
    Outcome::Ended(station.serve_snpp(wire, shelf, line.address, line.air, line.count, out))
}

/// Runs `trial`.
pub(crate) fn run_trial<F: Shelf, I: Source, O: Sink>(
    alloc: Global,
    settings: &str,
    noise: &str,
    receivers: &Receivers,
    shelf: &mut F,
    input: &mut I,
    out: &mut O,
) -> Outcome
    ensures { TrialRow once settings.now noise.now receivers.now (I.state input.old) (I.state input.new) (F.state shelf.old) (F.state shelf.new) (O.state out.old) (O.state out.new) result }
{
    let settings = match read_settings(alloc, shelf, settings) {
        Ok(settings) => settings,
        Err(outcome) => return outcome,
    };
    let Ok(mut group) = group_of(alloc, receivers) else {
        return Outcome::Ended(Status::Memory);
    };
    let Ok(mut station) = Station::new(alloc, settings) else {
        return Outcome::Ended(Status::Memory);
    };
    Outcome::Ended(try_file(&mut station, noise, &mut group, shelf, input, out))
}

/// Runs `twice`.
pub(crate) fn run_twice<F: Shelf, I: Source, O: Sink>(
    alloc: Global,
    settings: &str,
    noise: &str,
    receivers: &Receivers,
    shelf: &mut F,
    input: &mut I,
    out: &mut O,
) -> Outcome
    ensures { TrialRow twice settings.now noise.now receivers.now (I.state input.old) (I.state input.new) (F.state shelf.old) (F.state shelf.new) (O.state out.old) (O.state out.new) result }
{
    let settings = match read_settings(alloc, shelf, settings) {
        Ok(settings) => settings,
        Err(outcome) => return outcome,
    };
    let Ok(mut hearing) = sent_twice_to(alloc, receivers) else {
        return Outcome::Ended(Status::Memory);
    };
    let Ok(mut station) = Station::new(alloc, settings) else {
        return Outcome::Ended(Status::Memory);
    };
    Outcome::Ended(try_file(&mut station, noise, &mut hearing, shelf, input, out))
}

/// A transmission that is sent twice to these receivers. Memory comes only where there was none.
fn sent_twice_to(alloc: Global, receivers: &Receivers) -> Result<SentTwice, Memory>
    ensures prints { IfOk result (λ s. twin_group_lines s.group ≡ twice_lines receivers.now) }
    ensures stands { IfOk result (λ s. StandsForTwice s.group []) }
{
    let Ok(group) = twin_group_of(alloc, receivers) else {
        return Err(Memory);
    };
    let Ok(recording) = Recording::new(alloc) else {
        return Err(Memory);
    };
    Ok(SentTwice { recording, group })
}

/// Tries the session of the input, with the bits of a file as noise.
fn try_file<H: Hearing, F: Shelf, I: Source, O: Sink>(
    station: &mut Station,
    noise: &str,
    hearing: &mut H,
    shelf: &mut F,
    input: &mut I,
    out: &mut O,
) -> Status
    requires none { H.fresh hearing.old }
    requires silent { H.prints hearing.old [] ≡ [] }
    requires grows { Grows (H.prints hearing.old) }
    ensures { TriesFile (H.times hearing.old) station.old.settings station.old.settings.cells (H.prints hearing.old) noise.now (I.state input.old) (I.state input.new) (F.state shelf.old) (F.state shelf.new)
        (O.state out.old) (O.state out.new) result }
{
    let mut bits = ShelfBits::over(shelf, noise);
    station.trial(input, &mut bits, hearing, out)
}
