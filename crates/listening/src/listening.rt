//! Listening to bits, some at a time, and printing what they give.

ghost use Rattle.std.specs.Prelude.{◌≡◌, ℕ, ◌+◌, ◌<◌, ◌^◌, ◌++◌, [], Bool, List, OnOk, length};
ghost use Rattle.wires.specs.Fronts.{Grows};
ghost use Rattle.listening.specs.Listening.{HasListened, Prints, put_of};
ghost use Rattle.wires.specs.Pieces.{taken_of};

use endings::statuses::Status;
use wires::Failed;
use wires::piece::Piece;
use wires::sink::Sink;
use wires::source::BitSource;

/// So many bits are listened to: those of 67,108,864 bytes.
pub(crate) const MOST_BITS: u32 = 8 * 67_108_864;

/// The most bits that are read at a time.
pub const MOST_AT_A_TIME: u32 = 32;

/// Hears bits, and prints what they give.
pub trait Listener {
    /// What it prints of a list of bits.
    ghost printed: { Self → List Bool → List ℕ };

    /// It was fed these bits.
    ghost fed: { Self → List Bool → Type 0 };

    /// Takes the first bits of a piece, at least one, of fewer than 2^32, and puts what they give. After `Failed` a front was put of
    /// what the whole piece gives.
    fn hear<O: Sink>(&mut self, piece: &mut Piece, out: &mut O) -> Result<(), Failed>
        requires { 0 < length piece.old }
        ensures same { printed self.new ≡ printed self.old }
        ensures whole { piece.old ≡ taken_of piece.old piece.new ++ piece.new }
        ensures some { length piece.new < length piece.old }
        ensures fed { (bits : List Bool) → length bits < 2 ^ 32 → fed self.old bits → fed self.new (bits ++ taken_of piece.old piece.new) }
        ensures prints { (bits : List Bool) → length bits < 2 ^ 32 → fed self.old bits
            → Prints (printed self.old) bits (put_of result piece.old piece.new) (O.state out.old) (O.state out.new) result };
}

/// Hears a whole piece, of fewer than 2^32 bits with those before it.
#[inline(always)]
pub fn hear_all<P: Listener, O: Sink>(
    piece: Piece,
    listener: &mut P,
    out: &mut O,
) -> Result<(), Failed>
    ensures same { P.printed listener.new ≡ P.printed listener.old }
    ensures fed { OnOk result ((bits : List Bool) → length bits + length piece < 2 ^ 32 → P.fed listener.old bits → P.fed listener.new (bits ++ piece)) }
    ensures prints { (bits : List Bool) → length bits + length piece < 2 ^ 32 → P.fed listener.old bits
        → Prints (P.printed listener.old) bits piece (O.state out.old) (O.state out.new) result }
{
    let mut rest = piece;
    while !rest.is_empty() {
        if let Err(Failed) = listener.hear(&mut rest, out) {
            return Err(Failed);
        }
    }
    Ok(())
}

/// Hears all bits, at most those of 67,108,864 bytes, and prints what they give.
pub fn listen<B: BitSource, P: Listener, O: Sink>(
    bits: &mut B,
    listener: &mut P,
    out: &mut O,
) -> Status
    requires none { P.fed listener.old [] }
    requires silent { P.printed listener.old [] ≡ [] }
    requires grows { Grows (P.printed listener.old) }
    ensures { HasListened (P.printed listener.old) (B.state bits.old) (B.state bits.new) (O.state out.old) (O.state out.new) result }
{
    let mut to_come = MOST_BITS;
    while to_come > 0 {
        let piece = match bits.piece(to_come.min(MOST_AT_A_TIME)) {
            Ok(piece) => piece,
            Err(Failed) => return Status::FileFault,
        };
        if piece.is_empty() {
            return Status::Done;
        }
        to_come -= piece.len();
        if let Err(Failed) = hear_all(piece, listener, out) {
            return Status::OutFault;
        }
    }
    match bits.bit() {
        Ok(None) => Status::Done,
        Ok(Some(_)) => Status::TooLong,
        Err(Failed) => Status::FileFault,
    }
}
