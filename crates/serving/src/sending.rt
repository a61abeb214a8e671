//! How the pages of a trial are sent, and what hears them: once, to a `Group`, or twice, to a `SentTwice`.

ghost use Rattle.std.specs.Prelude.{◌≡◌, [], Bool, List, ℕ};
ghost use Rattle.air.specs.Left.{AreWords};
ghost use Rattle.page_pool.specs.Pool.{Sound, cells, pages};
ghost use Rattle.receiver.specs.Listeners.{StandsFor as HasHeard};
ghost use Rattle.repeats.specs.TwinListeners.{StandsForTwice};
ghost use Rattle.listening.specs.PageLines.{group_lines};
ghost use Rattle.listening.specs.TwinLines.{twin_group_lines};
ghost use Rattle.serving.specs.Leaves.{HearingLeaves};
ghost use Rattle.serving.specs.Sent.{Times, once, twice};
ghost use Rattle.serving.specs.Trying.{HearsPages};

use air::{AirBits, Words};
use endings::statuses::Status;
use listening::noise::listen_through;
use page_pool::Pool;
use receiver::Group;
use repeats::{Recording, TwinGroup};
use wires::sink::Sink;
use wires::source::BitSource;
use wires::steps::{Steps, Work};

/// What hears the pages of a trial.
pub trait Hearing {
    /// How often the transmission is sent.
    ghost times: { Self → Times };

    /// What it prints of a list of bits.
    ghost prints: { Self → List Bool → List ℕ };

    /// It was fed no bit.
    ghost fresh: { Self → Type 0 };

    /// Prints what it hears of the transmission of a pool's pages through a noise.
    fn hear_pages<N: BitSource, O: Sink>(
        &mut self,
        pool: &mut Pool,
        noise: &mut N,
        out: &mut O,
    ) -> Status
        requires { fresh self.old }
        ensures leaves { HearingLeaves pool.old pool.new result }
        ensures hears { HearsPages (times self.old) (pages pool.old) (prints self.old) (N.state noise.old) (N.state noise.new) (O.state out.old) (O.state out.new) result };
}

impl Hearing for Group {
    ghost times = { λ g. once };

    ghost prints = { λ g. group_lines g };

    ghost fresh = { λ g. HasHeard g [] };

    fn hear_pages<N: BitSource, O: Sink>(
        &mut self,
        pool: &mut Pool,
        noise: &mut N,
        out: &mut O,
    ) -> Status {
        if pool.count() == 0 {
            return Status::Done;
        }
        let mut steps = Steps::<Work>::new();
        let mut air = AirBits::over(pool, &mut steps);
        listen_through(&mut air, noise, self, out)
    }
}

/// A transmission that is sent twice: the room for its words, and the receivers that hear it.
#[derive(Drop)]
pub struct SentTwice {
    pub recording: Recording,
    pub group: TwinGroup,
}

impl Hearing for SentTwice {
    ghost times = { λ s. twice };

    ghost prints = { λ s. twin_group_lines s.group };

    ghost fresh = { λ s. StandsForTwice s.group [] };

    fn hear_pages<N: BitSource, O: Sink>(
        &mut self,
        pool: &mut Pool,
        noise: &mut N,
        out: &mut O,
    ) -> Status {
        if pool.count() == 0 {
            return Status::Done;
        }
        record(pool, &mut self.recording);
        let mut bits = self.recording.bits();
        listen_through(&mut bits, noise, &mut self.group, out)
    }
}

/// Records the words of the transmission of a pool's pages, which leaves the pool empty.
fn record(pool: &mut Pool, recording: &mut Recording)
    requires { Sound pool.old }
    ensures words { AreWords (pages pool.old) recording.new }
    ensures empties { pool.new.live ≡ [] }
    ensures cells_stay { cells pool.new ≡ cells pool.old }
{
    let mut steps = Steps::<Work>::new();
    recording.clear();
    let mut words = Words::over(pool);
    while let Some(word) = words.next(&mut steps) {
        recording.push(word);
    }
}
