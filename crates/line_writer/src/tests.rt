//! Lines of files in memory.

use crate::writing::write_line;
use endings::statuses::Status;
use sampler::sampled::Sampled;
use std::alloc::Global;
use std::test::Fail;
use wires::byte_bits::ShelfBits;
use wires::fake_shelf::MemoryShelf;
use wires::source::BitSource;

/// So many bytes a fresh file can hold.
const ROOM: usize = 2400;

/// A shelf with these bytes as the file `a`, and three bytes as the file `l`. Its calls of these numbers, from 1, fail.
fn shelf_of(alloc: Global, air: &[u8], failing: &[u64]) -> Result<MemoryShelf, Fail> {
    let files = [
        (String::from_str(alloc, "a")?, Vec::from_slice(alloc, air)?),
        (
            String::from_str(alloc, "l")?,
            Vec::from_slice(alloc, b"old")?,
        ),
    ];
    Ok(MemoryShelf::new(alloc, &files, ROOM, failing)?)
}

/// Whether the bits of the samples in the file `l` are those of these bytes.
fn holds_line_of(shelf: &mut MemoryShelf, bytes: &[u8]) -> bool {
    let mut bits = Sampled::over(ShelfBits::over(shelf, "l"), u64::MAX);
    for byte in bytes {
        let Ok(mut read) = bits.piece(8) else {
            return false;
        };
        for place in (0..8u32).rev() {
            if read.is_empty() {
                match bits.piece(8) {
                    Ok(next) => read = next,
                    Err(_) => return false,
                }
            }
            if read.pop() != Some((*byte >> place) % 2 == 1) {
                return false;
            }
        }
    }
    true
}

#[test]
fn a_line_gives_its_bits_back(rt: HostRuntime) -> Result<(), Fail> {
    let mut air = Vec::new(rt.alloc());
    for byte in 0..140u8 {
        air.push(byte)?;
    }
    for seed in 0..3u64 {
        let mut shelf = shelf_of(rt.alloc(), &air, &[])?;
        let status = write_line(rt.alloc(), "a", "l", seed, &mut shelf);
        assert_eq!(rt; status, Status::Done);
        assert_eq!(rt; shelf.bytes("l").map(|bytes| bytes.len()), Some(1120));
        assert!(rt; holds_line_of(&mut shelf, &air));
    }
    Ok(())
}

/// The call that fails, and how many bytes the line holds then.
const FAILING: [(u64, usize); 4] = [(1, 3), (2, 0), (3, 0), (4, 0)];

#[test]
fn each_call_fails_in_turn(rt: HostRuntime) -> Result<(), Fail> {
    for (call, left) in &FAILING {
        let mut shelf = shelf_of(rt.alloc(), &[0xAA; 140], &[*call])?;
        let status = write_line(rt.alloc(), "a", "l", 1, &mut shelf);
        assert_eq!(rt; status, Status::FileFault);
        assert!(rt;
            shelf.bytes("l").is_some_and(|bytes| bytes.len() <= *left),
            "{call}"
        );
    }
    Ok(())
}

#[test]
fn a_longer_file_is_refused(rt: HostRuntime) -> Result<(), Fail> {
    let air = vec![in rt.alloc(); 0u8; 8_388_609]?;
    let mut shelf = shelf_of(rt.alloc(), &air, &[])?;
    let status = write_line(rt.alloc(), "a", "l", 1, &mut shelf);
    assert_eq!(rt; status, Status::TooLong);
    assert_eq!(rt; shelf.bytes("l").map(|bytes| bytes.len()), Some(0));
    Ok(())
}
