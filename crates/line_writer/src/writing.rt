//! Writing the samples of a file's bits to another file.

ghost use Rattle.bits.specs.Bits.{bytes_bits};
ghost use Rattle.line_writer.specs.LineFile.{AppendsBits, ReadsWhole, WritesLine};
ghost use Rattle.sampler.specs.Strayed.{strayed};
ghost use Rattle.std.specs.Prelude.{◌≡◌, ◌≢◌, ◌*◌, ◌+◌, ◌≤◌, ◌++◌, IsTrue, length};
ghost use Rattle.wires.specs.Files.{AppendsTo};
ghost use Rattle.wires.specs.Stacked.{are_bytes};

use crate::memory::InMemory;
use crate::sample_bytes::fill;
use endings::statuses::Status;
use sampler::sampling::Sampling;
use std::alloc::Global;
use wires::Failed;
use wires::byte_bits::ByteBits;
use wires::shelf::Shelf;
use wires::source::BitSource;

/// So many bytes of a file are read at most.
const MOST_READ: usize = 8_388_608;

/// So many bytes of samples has a byte: eight samples for each of its bits, eight in a byte.
const BYTES_OF_SAMPLES: usize = 8;

/// So many bytes are appended at a time.
const APPENDED_AT_ONCE: usize = 4096;

/// Writes the samples of the bits of the file `air` to the file `line`, with the edges moved by the generator of this seed. The two names
/// differ.
///
/// It takes its memory, makes `line` fresh, reads `air` whole, and then appends. The answer is Memory where there was none, and nothing is
/// touched then; FileFault where a call of the shelf failed; TooLong exactly where 8,388,608 bytes of `air` were read and more follows.
pub fn write_line<F: Shelf>(
    alloc: Global,
    air: &str,
    line: &str,
    seed: u64,
    shelf: &mut F,
) -> Status
    requires { air.now ≢ line.now }
    ensures { WritesLine air.now line.now seed (F.state shelf.old) (F.state shelf.new) result }
{
    let Ok(mut bytes) = vec![in alloc; 0u8; MOST_READ] else {
        return Status::Memory;
    };
    if let Err(Failed) = shelf.fresh(line) {
        return Status::FileFault;
    }
    let count = match read_whole(shelf, air, &mut bytes) {
        Ok(count) => count,
        Err(status) => return status,
    };
    match append_samples(shelf, line, &bytes[..count], seed) {
        Ok(()) => Status::Done,
        Err(Failed) => Status::FileFault,
    }
}

/// Reads a file whole into the front of a buffer, and answers how many bytes it has. The status is TooLong where the buffer is filled and
/// more follows, and FileFault where a read failed.
fn read_whole<F: Shelf>(shelf: &mut F, name: &str, into: &mut [u8]) -> Result<usize, Status>
    ensures { ReadsWhole name.now into.new (F.state shelf.old) (F.state shelf.new) result }
{
    let mut count = 0;
    while count < into.len() {
        let (_, rest) = into.split_at_mut(count);
        match shelf.read(name, count as u64, rest) {
            Ok(0) => return Ok(count),
            Ok(n) => count += n,
            Err(Failed) => return Err(Status::FileFault),
        }
    }
    match shelf.read(name, count as u64, &mut [0]) {
        Ok(0) => Ok(count),
        Ok(_) => Err(Status::TooLong),
        Err(Failed) => Err(Status::FileFault),
    }
}

/// Appends the samples of the bits of these bytes to a file.
fn append_samples<F: Shelf>(
    shelf: &mut F,
    name: &str,
    bytes: &[u8],
    seed: u64,
) -> Result<(), Failed>
    requires { length bytes.now ≤ MOST_READ }
    ensures { AppendsBits name.now (strayed (bytes_bits bytes.now) seed) (F.state shelf.old) (F.state shelf.new) result }
{
    let mut samples = Sampling::over(ByteBits::over(InMemory::of(bytes)), seed);
    append_bits(shelf, name, &mut samples, BYTES_OF_SAMPLES * bytes.len())
}

/// Appends all bits that are left of a source to a file. The source tells its bits, is steady, and has the bits of so many bytes.
fn append_bits<F: Shelf, B: BitSource>(
    shelf: &mut F,
    name: &str,
    bits: &mut B,
    count: usize,
) -> Result<(), Failed>
    requires told { IsTrue (B.state bits.old).tells }
    requires steady { IsTrue (B.state bits.old).steady }
    requires whole { length (B.state bits.old).left ≡ 8 * count }
    ensures { AppendsBits name.now (B.state bits.old).left (F.state shelf.old) (F.state shelf.new) result }
{
    let mut piece = [0; APPENDED_AT_ONCE];
    let mut to_come = count;
    while to_come > 0 {
        let (front, _) = piece.split_at_mut(to_come.min(APPENDED_AT_ONCE));
        if let Err(Failed) = append_next(shelf, name, bits, front) {
            return Err(Failed);
        }
        to_come -= front.len();
    }
    Ok(())
}

/// Appends the next bits of a source to a file, as many as fill the buffer.
fn append_next<F: Shelf, B: BitSource>(
    shelf: &mut F,
    name: &str,
    bits: &mut B,
    buffer: &mut [u8],
) -> Result<(), Failed>
    requires told { IsTrue (B.state bits.old).tells }
    requires steady { IsTrue (B.state bits.old).steady }
    requires enough { 8 * length buffer.old ≤ length (B.state bits.old).left }
    ensures told { IsTrue (B.state bits.new).tells }
    ensures steady { IsTrue (B.state bits.new).steady }
    ensures takes { (B.state bits.old).left ≡ bytes_bits buffer.new ++ (B.state bits.new).left }
    ensures are { IsTrue (are_bytes buffer.new) }
    ensures appends { AppendsTo (F.state shelf.old) (F.state shelf.new) name.now buffer.new result }
{
    fill(bits, buffer);
    shelf.append(name, buffer)
}
