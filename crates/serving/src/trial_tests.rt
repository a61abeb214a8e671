//! How much of a noise a trial leaves, and that it doesn't ask for any where no page was accepted.

ghost use Rattle.std.specs.Prelude.{[], IfOk};
ghost use Rattle.receiver.specs.Listeners.{StandsFor};

use crate::session_tests::{ONE_PAGE, TWO, station};
use codeword::Capcode;
use endings::statuses::Status;
use receiver::Group;
use std::alloc::Global;
use std::test::Fail;
use wires::byte_bits::ByteBits;
use wires::fakes::{MemorySink, MemorySource};
use wires::source::BitSource;

/// A logon, and goodbye.
const NO_PAGE: &[u8] = b"\r\x1BPG1\r\x04\r";

/// What is printed of them, and of a session with a page.
const NOTHING_HEARD: &[u8] = b"ID\nGO\nEND\n---\n";

const HEARD: &[u8] = b"ID\nGO\nACK\nEND\n---\n01 0000008 A HELLO\n";

/// So many bits are counted at most.
const MOST: u32 = 2000;

/// What a row shows, the input, how many bytes of 0 the noise has, the calls of its source that fail, the status, what is printed, and how many bits of
/// the noise are left, where the reads behind don't fail. A page is transmitted in 140 bytes, and the source gives 50 at a time.
type Row = (
    &'static str,
    &'static [u8],
    usize,
    &'static [u64],
    Status,
    &'static [u8],
    Option<u32>,
);

const ROWS: [Row; 8] = [
    (
        "more noise than air",
        ONE_PAGE,
        150,
        &[],
        Status::Done,
        HEARD,
        Some(80),
    ),
    (
        "a byte more",
        ONE_PAGE,
        141,
        &[],
        Status::Done,
        HEARD,
        Some(8),
    ),
    (
        "as much noise as air",
        ONE_PAGE,
        140,
        &[],
        Status::Done,
        HEARD,
        Some(0),
    ),
    (
        "half as much",
        ONE_PAGE,
        70,
        &[],
        Status::Done,
        HEARD,
        Some(0),
    ),
    (
        "a read that fails",
        ONE_PAGE,
        150,
        &[2],
        Status::FileFault,
        b"ID\nGO\nACK\nEND\n---\n",
        Some(800),
    ),
    (
        "no page",
        NO_PAGE,
        150,
        &[],
        Status::Done,
        NOTHING_HEARD,
        Some(1200),
    ),
    (
        "no page and no noise",
        NO_PAGE,
        0,
        &[],
        Status::Done,
        NOTHING_HEARD,
        Some(0),
    ),
    (
        "no page and a read that would fail",
        NO_PAGE,
        150,
        &[1],
        Status::Done,
        NOTHING_HEARD,
        None,
    ),
];

/// How many bits are left, at most so many as are counted. None where a read fails.
fn bits_left<N: BitSource>(noise: &mut N) -> Option<u32> {
    for count in 0..MOST {
        match noise.bit() {
            Ok(Some(_)) => {}
            Ok(None) => return Some(count),
            Err(_) => return None,
        }
    }
    None
}

/// What a trial leaves: its status, what is printed, and how many bits of the noise are left.
#[derive(Drop)]
struct TrialLeft {
    status: Status,
    printed: Vec<u8>,
    left: Option<u32>,
}

/// A receiver of capcode 8.
fn receiver(alloc: Global) -> Result<Group, Fail>
    ensures { IfOk result (λ g. StandsFor g []) }
{
    let Some(capcode) = Capcode::of(8) else {
        return Err(Fail::from("the capcode isn't usable"));
    };
    match Group::new(alloc, &[(1, capcode)]) {
        Ok(group) => Ok(group),
        Err(_) => Err(Fail::from("there is no memory")),
    }
}

/// A noise of so many bytes 0.
fn noise_of(alloc: Global, size: usize, failing: &[u64]) -> Result<ByteBits<MemorySource>, Fail> {
    let noise = vec![in alloc; 0u8; size]?;
    Ok(ByteBits::over(MemorySource::new(alloc, &noise, 50, failing)?))
}

/// Tries the session of an input through a noise of so many bytes, whose calls fail.
fn tried(alloc: Global, input: &[u8], noise: usize, failing: &[u64]) -> Result<TrialLeft, Fail> {
    let mut station = station(alloc, TWO)?;
    let mut group = receiver(alloc)?;
    let mut noise = noise_of(alloc, noise, failing)?;
    let mut input = MemorySource::new(alloc, input, 7, &[])?;
    let mut out = MemorySink::new(alloc, 100, &[])?;
    let status = station.trial(&mut input, &mut noise, &mut group, &mut out);
    Ok(TrialLeft {
        status,
        printed: Vec::from_slice(alloc, out.bytes())?,
        left: bits_left(&mut noise),
    })
}

#[test]
fn a_noise_is_read_as_far_as_the_transmission(rt: HostRuntime) -> Result<(), Fail> {
    for (name, input, noise, failing, status, printed, left) in &ROWS {
        let tried = tried(rt.alloc(), *input, *noise, *failing)?;
        assert_eq!(rt; tried.status, *status, "{name}");
        assert_eq!(rt; tried.printed.as_slice(), *printed, "{name}");
        assert_eq!(rt; tried.left, *left, "{name}");
    }
    Ok(())
}
