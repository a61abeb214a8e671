//! Listening to bits through a noise, some at a time.

ghost use Rattle.std.specs.Prelude.{◌≡◌, ◌<◌, ◌≤◌, ◌^◌, [], ◌++◌, IfOk, IsFalse, IsTrue, drop, length, take};
ghost use Rattle.listening.specs.Noise.{LeavesBits, ListensThrough, NoiseGives};
ghost use Rattle.wires.specs.Stacked.{noisy_bits};

use crate::listening::{Listener, MOST_AT_A_TIME, hear_all};
use endings::statuses::Status;
use wires::Failed;
use wires::piece::Piece;
use wires::sink::Sink;
use wires::source::BitSource;

/// Sees to it that a bit of a piece is left, where one is left of the piece or of a source that tells its bits and is steady: it has
/// no fault. It answers whether one is.
fn refill<A: BitSource>(bits: &mut A, piece: &mut Piece) -> bool
    requires told { IsTrue (A.state bits.old).tells }
    requires steady { IsTrue (A.state bits.old).steady }
    ensures told { IsTrue (A.state bits.new).tells }
    ensures steady { IsTrue (A.state bits.new).steady }
    ensures same { piece.new ++ (A.state bits.new).left ≡ piece.old ++ (A.state bits.old).left }
    ensures some { IsTrue result → 0 < length piece.new }
    ensures end { IsFalse result → piece.old ++ (A.state bits.old).left ≡ [] }
    ensures lent { (A.state bits.new).lent ≡ (A.state bits.old).lent }
{
    if !piece.is_empty() {
        return true;
    }
    match bits.piece(MOST_AT_A_TIME) {
        Ok(next) => {
            let is_some = !next.is_empty();
            *piece = next;
            is_some
        }
        Err(Failed) => false,
    }
}

/// Some next bits of a noise, at most so many, which are 0 behind its end.
fn noise_piece<N: BitSource>(noise: &mut N, ended: &mut bool, most: u32) -> Result<Piece, Failed>
    requires some { 0 < most }
    requires few { most ≤ 32 }
    ensures gives { NoiseGives ended.old ended.new (N.state noise.old) (N.state noise.new) result }
    ensures some { IfOk result (λ flips. 0 < length flips) }
    ensures few { IfOk result (λ flips. length flips ≤ most) }
{
    if *ended {
        return Ok(Piece::of(0, most));
    }
    let piece = match noise.piece(most) {
        Ok(piece) => piece,
        Err(Failed) => return Err(Failed),
    };
    if !piece.is_empty() {
        return Ok(piece);
    }
    *ended = true;
    Ok(Piece::of(0, most))
}

/// Takes the first bits of a piece, one for each bit of the noise, each xor that bit.
fn flip_first(piece: &mut Piece, flips: &Piece) -> Piece
    requires { length flips.now ≤ length piece.old }
    ensures flipped { result ≡ noisy_bits (take (length flips.now) piece.old) flips.now }
    ensures left { piece.new ≡ drop (length flips.now) piece.old }
{
    let count = flips.len();
    let first = piece.take(count);
    Piece::of((first ^ flips.number()) as u32, count)
}

/// Hears all bits that are left, which are told and fewer than 2^32, each xor the bit of the noise, and prints what they give. The
/// noise is read no further than the bits.
pub fn listen_through<A: BitSource, N: BitSource, P: Listener, O: Sink>(
    bits: &mut A,
    noise: &mut N,
    listener: &mut P,
    out: &mut O,
) -> Status
    requires told { IsTrue (A.state bits.old).tells }
    requires steady { IsTrue (A.state bits.old).steady }
    requires few { length (A.state bits.old).left < 2 ^ 32 }
    requires none { P.fed listener.old [] }
    requires silent { P.printed listener.old [] ≡ [] }
    ensures leaves { LeavesBits (A.state bits.old) (A.state bits.new) result }
    ensures listens { ListensThrough (P.printed listener.old) (A.state bits.old).left (N.state noise.old) (N.state noise.new) (O.state out.old) (O.state out.new) result }
{
    let mut ended = false;
    let mut piece = Piece::of(0, 0);
    while refill(bits, &mut piece) {
        let flips = match noise_piece(noise, &mut ended, piece.len()) {
            Ok(flips) => flips,
            Err(Failed) => return Status::FileFault,
        };
        let flipped = flip_first(&mut piece, &flips);
        if let Err(Failed) = hear_all(flipped, listener, out) {
            return Status::OutFault;
        }
    }
    Status::Done
}
