//! Hearing the bits of a file, and those of the samples in a file.

ghost use Rattle.std.specs.Prelude.{◌≡◌, []};
ghost use Rattle.receiver.specs.Listeners.{StandsFor};
ghost use Rattle.listening.specs.HeardFile.{HearsFile};
ghost use Rattle.listening.specs.HeardLine.{HearsSampled, HearsSamples};
ghost use Rattle.listening.specs.PageLines.{group_lines};
ghost use Rattle.listening.specs.Table.{table_of};

use crate::listening::MOST_BITS;
use crate::playing::{play, show};
use endings::statuses::Status;
use receiver::Group;
use sampler::sampled::SampledFrom;
use wires::Failed;
use wires::byte_bits::ShelfBits;
use wires::shelf::Shelf;
use wires::sink::Sink;
use wires::source::BitSource;

/// Plays receivers over the bits of a file.
pub fn play_file<F: Shelf, O: Sink>(
    shelf: &mut F,
    name: &str,
    group: &mut Group,
    out: &mut O,
) -> Status
    requires { StandsFor group.old [] }
    ensures { HearsFile (group_lines group.old) name.now (F.state shelf.old) (F.state shelf.new) (O.state out.old) (O.state out.new) result }
{
    let mut bits = ShelfBits::over(shelf, name);
    play(&mut bits, group, out)
}

/// Plays receivers over the bits of the samples in a file, eight samples a byte, at most those of 67,108,864 bytes.
///
/// The answers are those of `play`, but that TooLong comes exactly where so many samples were read and another one follows. What is
/// heard in so many is printed then.
pub fn play_samples<F: Shelf, O: Sink>(
    shelf: &mut F,
    name: &str,
    group: &mut Group,
    out: &mut O,
) -> Status
    requires { StandsFor group.old [] }
    ensures { HearsSamples (group_lines group.old) name.now (F.state shelf.old) (F.state shelf.new) (O.state out.old) (O.state out.new) result }
{
    let mut samples = ShelfBits::over(shelf, name);
    play_sampled(&mut samples, group, out)
}

/// Plays receivers over the bits of samples, at most those of 67,108,864 bytes.
fn play_sampled<B: BitSource, O: Sink>(samples: &mut B, group: &mut Group, out: &mut O) -> Status
    requires { StandsFor group.old [] }
    ensures { HearsSampled (group_lines group.old) (B.state samples.old) (B.state samples.new) (O.state out.old) (O.state out.new) result }
{
    let mut bits = SampledFrom::over(samples, u64::from(MOST_BITS));
    let status = play(&mut bits, group, out);
    match status {
        Status::Done => match bits.end() {
            Ok(false) => Status::Done,
            Ok(true) => Status::TooLong,
            Err(Failed) => Status::FileFault,
        },
        _ => status,
    }
}

/// Shows the bits of a file.
pub fn show_file<F: Shelf, O: Sink>(shelf: &mut F, name: &str, out: &mut O) -> Status
    ensures { HearsFile table_of name.now (F.state shelf.old) (F.state shelf.new) (O.state out.old) (O.state out.new) result }
{
    let mut bits = ShelfBits::over(shelf, name);
    show(&mut bits, out)
}
