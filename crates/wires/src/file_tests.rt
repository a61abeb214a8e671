//! What no clause says of bits out of bytes and of the shelf in memory: each through its bound, at the calls that fail.
use crate::Failed;
use crate::byte_bits::{ByteBits, ShelfBits};
use crate::callers::{has_a_bit, holds, holds_a_byte, skip, write_file};
use crate::fake_shelf::MemoryShelf;
use crate::fakes::MemorySource;
use crate::shelf::Shelf;
use crate::source::BitSource;
use std::test::Fail;

/// The bits of 0xA5, of which the most significant comes first.
const BITS: [bool; 8] = [true, false, true, false, false, true, false, true];

/// Longer than a read of the readers of bits.
const LONG_FILE: [u8; 4098] = [0xA5; 4098];

#[test]
fn bits_come_from_bytes_the_most_significant_first(rt: HostRuntime) -> Result<(), Fail> {
    let source = MemorySource::new(rt.alloc(), &[0xA5, 0xA5], 1, &[2])?;
    let mut bits = ByteBits::over(source);
    for (k, bit) in BITS.into_iter().enumerate() {
        assert_eq!(rt; bits.bit(), Ok(Some(bit)), "bit {k} of the first byte");
    }
    assert_eq!(rt; bits.bit(), Err(Failed));
    for (k, bit) in BITS.into_iter().enumerate() {
        assert_eq!(rt; bits.bit(), Ok(Some(bit)), "bit {k} of the second byte");
    }
    assert_eq!(rt; skip(&mut bits), Ok(false));
    Ok(())
}

#[test]
fn bits_come_from_a_file_that_is_longer_than_one_read(rt: HostRuntime) -> Result<(), Fail> {
    let name = String::from_str(rt.alloc(), "air")?;
    let bytes = Vec::from_slice(rt.alloc(), &LONG_FILE)?;
    let mut shelf = MemoryShelf::new(rt.alloc(), &[(name, bytes)], 0, &[3])?;
    let mut bits = ShelfBits::over(&mut shelf, "air");
    for byte in 0..LONG_FILE.len() {
        for bit in BITS {
            assert_eq!(rt; bits.bit(), Ok(Some(bit)), "byte {byte}");
        }
    }
    assert_eq!(rt; bits.bit(), Err(Failed));
    assert_eq!(rt; bits.bit(), Ok(None));
    assert_eq!(rt; has_a_bit(&mut shelf, "air"), Ok(true));
    assert_eq!(rt; has_a_bit(&mut shelf, "other"), Err(Failed));
    Ok(())
}

#[test]
fn a_file_is_read_from_any_place(rt: HostRuntime) -> Result<(), Fail> {
    let name = String::from_str(rt.alloc(), "a")?;
    let bytes = Vec::from_slice(rt.alloc(), b"bcd")?;
    let mut shelf = MemoryShelf::new(rt.alloc(), &[(name, bytes)], 0, &[])?;
    for (from, count, first) in [
        (0, 2, b'b'),
        (1, 2, b'c'),
        (2, 1, b'd'),
        (3, 0, b'.'),
        (u64::MAX, 0, b'.'),
    ] {
        let mut buffer = [b'.'; 2];
        assert_eq!(rt;
            shelf.read("a", from, &mut buffer),
            Ok(count),
            "from {from}"
        );
        assert_eq!(rt; buffer[0], first, "from {from}");
    }
    assert_eq!(rt; shelf.read("b", 0, &mut [0; 2]), Err(Failed));
    assert_eq!(rt; holds_a_byte(&mut shelf, "a"), Ok(true));
    assert_eq!(rt; shelf.bytes("b"), None);
    Ok(())
}

#[test]
fn the_first_file_of_a_name_counts(rt: HostRuntime) -> Result<(), Fail> {
    let one = (
        String::from_str(rt.alloc(), "a")?,
        Vec::from_slice(rt.alloc(), b"one")?,
    );
    let two = (
        String::from_str(rt.alloc(), "a")?,
        Vec::from_slice(rt.alloc(), b"two")?,
    );
    let shelf = MemoryShelf::new(rt.alloc(), &[one, two], 0, &[])?;
    assert!(rt; holds(&shelf, "a", b"one"));
    Ok(())
}

#[test]
fn files_that_were_made_fresh_grow_up_to_their_room(rt: HostRuntime) -> Result<(), Fail> {
    let name = String::from_str(rt.alloc(), "a")?;
    let bytes = Vec::from_slice(rt.alloc(), b"bcd")?;
    let mut shelf = MemoryShelf::new(rt.alloc(), &[(name, bytes)], 4, &[4])?;
    assert_eq!(rt; shelf.append("a", b"e"), Err(Failed), "not made fresh");
    assert_eq!(rt; shelf.append("b", b"e"), Err(Failed), "not there");
    assert_eq!(rt; shelf.fresh("a"), Ok(()));
    assert_eq!(rt; shelf.append("a", b"f"), Err(Failed), "the fourth call");
    assert_eq!(rt; shelf.append("a", b"fgh"), Ok(()));
    assert_eq!(rt; shelf.append("a", b"ij"), Err(Failed), "past its room");
    assert_eq!(rt; shelf.append("a", b"k"), Ok(()));
    assert!(rt; holds(&shelf, "a", b"fghk"));
    assert_eq!(rt; write_file(&mut shelf, "a", b"lmno"), Ok(()));
    assert!(rt; holds(&shelf, "a", b"lmno"));
    Ok(())
}

#[test]
fn one_further_file_can_be_added(rt: HostRuntime) -> Result<(), Fail> {
    let mut names = [String::new(rt.alloc()), String::new(rt.alloc())];
    for _ in 0..255 {
        names[0].push_str("n")?;
        names[1].push_str("n")?;
    }
    names[1].push_str("n")?;
    let mut shelf = MemoryShelf::new(rt.alloc(), &[], 2, &[])?;
    assert_eq!(rt; shelf.fresh(&names[1]), Err(Failed), "a name of 256 bytes");
    assert_eq!(rt; shelf.fresh(&names[0]), Ok(()));
    assert_eq!(rt; shelf.append(&names[0], b"b"), Ok(()));
    assert_eq!(rt; shelf.fresh("other"), Err(Failed), "a second further file");
    assert_eq!(rt; shelf.bytes("other"), None);
    assert!(rt; holds(&shelf, &names[0], b"b"));
    Ok(())
}
