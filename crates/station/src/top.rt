//! The top call.

ghost use Rattle.std.specs.Prelude.{◌≡◌};
ghost use Rattle.command_lines.specs.Commands.{FilesDiffer, texts};
ghost use Rattle.command_lines.specs.Meant.{meant};
ghost use Rattle.listening.specs.HeardFile.{Plays};
ghost use Rattle.listening.specs.HeardLine.{PlaysSamples};
ghost use Rattle.listening.specs.PageLines.{play_lines};
ghost use Rattle.station.specs.Rows.{Acts, Runs};

use crate::outcomes::{Outcome, tell_outcome};
use crate::pages_runs::run_send;
use crate::settings_runs::{run_snpp, run_station, run_trial, run_twice};
use command_lines::commands::{CommandLine, parse};
use command_lines::receivers::{Receivers, group_of};
use endings::statuses::Status;
use line_writer::write_line;
use listening::hearing::{play_file, play_samples, show_file};
use load::running::load;
use one_block::one_page::one;
use std::alloc::Global;
use wires::Memory;
use wires::shelf::Shelf;
use wires::sink::Sink;
use wires::source::Source;
use wires::wire::Wire;

/// Runs a command.
fn act<W: Wire, F: Shelf, I: Source, O: Sink>(
    alloc: Global,
    line: Option<CommandLine<'_>>,
    wire: &mut W,
    shelf: &mut F,
    input: &mut I,
    out: &mut O,
) -> Outcome
    requires { FilesDiffer (meant line) }
    ensures { Acts (meant line.entry)
        (record { wire = W.state wire.old; shelf = F.state shelf.old; streams = record { input = I.state input.old; out = O.state out.old } })
        (record { wire = W.state wire.new; shelf = F.state shelf.new; streams = record { input = I.state input.new; out = O.state out.new } })
        result }
{
    let Some(line) = line else {
        return Outcome::Ended(Status::Usage);
    };
    match line {
        CommandLine::One(capcode) => Outcome::Ended(one(alloc, capcode, input, out)),
        CommandLine::Load(run) => Outcome::Ended(load(alloc, run.seed, run.count, out)),
        CommandLine::Play(air, receivers) => {
            Outcome::Ended(play_air(alloc, air, &receivers, shelf, out))
        }
        CommandLine::PlayLine(line, receivers) => {
            Outcome::Ended(play_sampled(alloc, line, &receivers, shelf, out))
        }
        CommandLine::WriteLine(air, line, seed) => {
            Outcome::Ended(write_line(alloc, air, line, seed, shelf))
        }
        CommandLine::Show(air) => Outcome::Ended(show_file(shelf, air, out)),
        CommandLine::Station(line) => run_station(alloc, &line, wire, shelf, out),
        CommandLine::Snpp(line) => run_snpp(alloc, &line, wire, shelf, out),
        CommandLine::Trial(settings, noise, receivers) => {
            run_trial(alloc, settings, noise, &receivers, shelf, input, out)
        }
        CommandLine::Twice(settings, noise, receivers) => {
            run_twice(alloc, settings, noise, &receivers, shelf, input, out)
        }
        CommandLine::Send(address, pages) => run_send(alloc, address, pages, wire, shelf, out),
    }
}

/// Runs `play`.
fn play_air<F: Shelf, O: Sink>(
    alloc: Global,
    air: &str,
    receivers: &Receivers,
    shelf: &mut F,
    out: &mut O,
) -> Status
    ensures { Plays (play_lines receivers.now) air.now (F.state shelf.old) (F.state shelf.new) (O.state out.old) (O.state out.new) result }
{
    match group_of(alloc, receivers) {
        Ok(mut group) => play_file(shelf, air, &mut group, out),
        Err(Memory) => Status::Memory,
    }
}

/// Runs `play-line`.
fn play_sampled<F: Shelf, O: Sink>(
    alloc: Global,
    line: &str,
    receivers: &Receivers,
    shelf: &mut F,
    out: &mut O,
) -> Status
    ensures { PlaysSamples (play_lines receivers.now) line.now (F.state shelf.old) (F.state shelf.new) (O.state out.old) (O.state out.new) result }
{
    match group_of(alloc, receivers) {
        Ok(mut group) => play_samples(shelf, line, &mut group, out),
        Err(Memory) => Status::Memory,
    }
}

/// Runs the command that the words after the program's name say, and puts a line about every status but Done and OutFault to
/// `err`. docs/profile.md, "commands" and "statuses", has the words and when each status comes.
///
/// Words that are no command's form are answered Usage, and nothing is read or written but the line. In the other cases the status
/// is that of the command, or OutFault where the line couldn't be put.
pub fn run<W: Wire, F: Shelf, I: Source, O: Sink, E: Sink>(
    alloc: Global,
    words: &[String],
    wire: &mut W,
    shelf: &mut F,
    input: &mut I,
    out: &mut O,
    err: &mut E,
) -> Status
    ensures { Runs (texts words.now)
        (record { objects = record { wire = W.state wire.old; shelf = F.state shelf.old; streams = record { input = I.state input.old; out = O.state out.old } }; err = E.state err.old })
        (record { objects = record { wire = W.state wire.new; shelf = F.state shelf.new; streams = record { input = I.state input.new; out = O.state out.new } }; err = E.state err.new })
        result }
{
    let outcome = act(alloc, parse(words), wire, shelf, input, out);
    tell_outcome(outcome, err)
}
