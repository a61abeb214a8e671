//! Connections one after another, and what is said on the open one as a sink.
ghost use Rattle.std.specs.Prelude.{◌≡◌, ◌<◌, length};
ghost use Rattle.wires.specs.Line.{Dials, HangsUp, Hears, Line, Listens, Opens, Says};
ghost use Rattle.wires.specs.Stacked.{saying_over};

use crate::Failed;
use crate::sink::Sink;

/// A line that waits for connections or dials them, one after another. It tells four counts: gate faults are those of
/// `listen`, `next` and `dial`, hear faults those of `hear`, say faults those of `say`, hang faults those of `hang_up`.
/// Each call leaves the three counts that are not its own. With no connection open `hear`, `say` and `hang_up` answer
/// `Failed`. Whatever they answer, `hear` and `say` change no connection but the open one, and the other calls none, and
/// the address of `listen` and of `dial` is then the one that was asked for last, which the other calls leave.
pub trait Wire {
    /// Its content is the list of connections.
    ghost state: { Self → Line };

    /// Waits for connections at an address. It is always proper.
    fn listen(&mut self, at: &str) -> Result<(), Failed>
        ensures { Listens (state self.old) (state self.new) at.now result };

    /// Opens the next connection, and answers false exactly where no further one comes. It first closes a connection
    /// that is still open, whatever it then answers. It is always proper.
    fn next(&mut self) -> Result<bool, Failed>
        ensures { Opens (state self.old) (state self.new) result };

    /// Opens the next connection, to this address. It first closes a connection that is still open, whatever it then
    /// answers. It is proper where a connection is left.
    fn dial(&mut self, at: &str) -> Result<(), Failed>
        ensures { Dials (state self.old) (state self.new) at.now result };

    /// Moves some of the bytes still to be heard on the open connection into the front of `into`, which is not empty,
    /// and answers how many. It answers 0 exactly where none are left. After `Failed` nothing was heard. It is proper
    /// while a connection is open.
    fn hear(&mut self, into: &mut [u8]) -> Result<usize, Failed>
        requires { 0 < length into.old }
        ensures { Hears (state self.old) (state self.new) into.new result };

    /// Says the piece on the open connection. After `Failed` a prefix of it was said. It is proper while a connection is
    /// open and the piece fits in the room left there.
    fn say(&mut self, piece: &[u8]) -> Result<(), Failed>
        ensures { Says (state self.old) (state self.new) piece.now result };

    /// Closes the open connection, also where it answers `Failed`. It is proper while a connection is open.
    fn hang_up(&mut self) -> Result<(), Failed>
        ensures { HangsUp (state self.old) (state self.new) result };
}

/// What is said on the open connection as a sink: each write is a `say`. Its content is the bytes said there, its room
/// the connection's, and its faults the wire's say faults. It is steady where the wire is and a connection is open.
#[derive(Drop)]
pub struct Saying<'a, W: Wire> {
    wire: &'a mut W,
}

impl<'a, W: Wire> Saying<'a, W> {
    /// The open connection of this wire.
    pub fn over(wire: &'a mut W) -> Saying<'a, W>
        ensures same_reference { result.wire.ghost_name ≡ wire.entry.ghost_name }
        ensures same { result.wire.now ≡ wire.old }
    {
        Saying { wire }
    }
}

impl<'a, W: Wire> Sink for Saying<'a, W> {
    ghost state = { λ s. saying_over s.wire.ghost_name (W.state s.wire.now) };

    fn put(&mut self, piece: &[u8]) -> Result<(), Failed> {
        self.wire.say(piece)
    }
}
