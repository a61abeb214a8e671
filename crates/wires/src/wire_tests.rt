//! What no clause says of the wire in memory, of the sinks over a file and a connection, and of noise: each through its
//! bound, at the calls that fail.
use crate::Failed;
use crate::byte_bits::ByteBits;
use crate::callers::{
    answer_one, append_two, append_words, holds, ring, say_two, skip_noisy, words_over,
};
use crate::fake_shelf::MemoryShelf;
use crate::fake_wire::MemoryWire;
use crate::fakes::MemorySource;
use crate::shelf::{Appending, Shelf};
use crate::sink::Sink;
use crate::source::{BitSource, Noisy};
use crate::wire::{Saying, Wire};
use std::test::Fail;

/// What comes of 0xA5 with the noise 0xC0, and then of 0x81 after the noise's end.
const NOISY: [bool; 16] = [
    false, true, true, false, false, true, false, true, true, false, false, false, false, false,
    false, true,
];

#[test]
fn a_wire_tells_its_turns_before_the_bytes_are_heard(rt: HostRuntime) -> Result<(), Fail> {
    let heard = [Vec::from_slice(rt.alloc(), b"abcde")?];
    let mut wire = MemoryWire::new(rt.alloc(), &heard, 3, 9, &[])?;
    let mut buffer = [0; 4];
    assert_eq!(rt;
        wire.hear(&mut buffer),
        Err(Failed),
        "no connection is open"
    );
    assert_eq!(rt; wire.dial("a"), Ok(()));
    assert_eq!(rt; wire.hear(&mut buffer), Ok(3));
    assert_eq!(rt; &buffer[..3], b"abc".as_slice());
    assert_eq!(rt; say_two(&mut wire, b"fg", b"h"), Ok(()));
    assert_eq!(rt; wire.hear(&mut buffer), Ok(2));
    assert_eq!(rt; wire.hear(&mut buffer), Ok(0));
    assert_eq!(rt; wire.turns(0), [(0, 0), (3, 3)].as_slice());
    assert_eq!(rt; wire.said(0), b"fgh".as_slice());
    Ok(())
}

#[test]
fn connections_come_in_order(rt: HostRuntime) -> Result<(), Fail> {
    let heard = [
        Vec::from_slice(rt.alloc(), b"a")?,
        Vec::from_slice(rt.alloc(), b"b")?,
    ];
    let mut wire = MemoryWire::new(rt.alloc(), &heard, 1, 1, &[])?;
    assert_eq!(rt; answer_one(&mut wire, "here", b"c"), Ok(true));
    assert_eq!(rt; ring(&mut wire, "there"), Ok(()));
    assert_eq!(rt; ring(&mut wire, "there"), Err(Failed), "none is left");
    assert_eq!(rt; answer_one(&mut wire, "here", b"d"), Ok(false));
    assert_eq!(rt; wire.hang_up(), Err(Failed), "none is open");
    Ok(())
}

#[test]
fn each_connection_keeps_what_was_said_on_it(rt: HostRuntime) -> Result<(), Fail> {
    let heard = [Vec::new(rt.alloc()), Vec::new(rt.alloc())];
    let mut wire = MemoryWire::new(rt.alloc(), &heard, 1, 1, &[])?;
    assert_eq!(rt; wire.next(), Ok(true));
    assert_eq!(rt; wire.say(b"a"), Ok(()));
    assert_eq!(rt; wire.next(), Ok(true), "the first is closed");
    assert_eq!(rt; wire.say(b"b"), Ok(()));
    assert_eq!(rt; wire.said(0), b"a".as_slice());
    assert_eq!(rt; wire.said(1), b"b".as_slice());
    Ok(())
}

#[test]
fn a_wire_fails_exactly_at_its_failing_calls_and_past_its_room(
    rt: HostRuntime,
) -> Result<(), Fail> {
    let heard = [Vec::from_slice(rt.alloc(), b"a")?];
    let mut wire = MemoryWire::new(rt.alloc(), &heard, 1, 2, &[1, 3, 5, 8])?;
    assert_eq!(rt; wire.listen("here"), Err(Failed));
    assert_eq!(rt; wire.listen("here"), Ok(()));
    assert_eq!(rt; wire.next(), Err(Failed));
    assert_eq!(rt; wire.next(), Ok(true));
    assert_eq!(rt; wire.hear(&mut [0; 1]), Err(Failed));
    assert_eq!(rt; wire.hear(&mut [0; 1]), Ok(1));
    assert_eq!(rt; wire.say(b"bcd"), Err(Failed), "past its room");
    assert_eq!(rt; wire.hang_up(), Err(Failed));
    assert_eq!(rt; wire.say(b"b"), Err(Failed), "closed all the same");
    Ok(())
}

#[test]
fn what_is_said_goes_to_the_open_connection(rt: HostRuntime) -> Result<(), Fail> {
    let heard = [Vec::new(rt.alloc())];
    let mut wire = MemoryWire::new(rt.alloc(), &heard, 1, 4, &[])?;
    assert_eq!(rt; wire.dial("there"), Ok(()));
    let mut open = Saying::over(&mut wire);
    assert_eq!(rt; open.put(b"abc"), Ok(()));
    assert_eq!(rt; open.put(b"de"), Err(Failed));
    assert_eq!(rt; open.put(b"f"), Ok(()));
    assert_eq!(rt; wire.said(0), b"abcf".as_slice());
    assert_eq!(rt; wire.hang_up(), Ok(()));
    Ok(())
}

#[test]
fn words_go_to_a_file(rt: HostRuntime) -> Result<(), Fail> {
    let mut shelf = MemoryShelf::new(rt.alloc(), &[], 12, &[])?;
    assert_eq!(rt; shelf.fresh("air"), Ok(()));
    assert_eq!(rt;
        append_words(&mut shelf, "air", &[0x0102_0304, 0x0506_0708]),
        Ok(())
    );
    let mut file = Appending::over(&mut shelf, "air");
    assert_eq!(rt;
        words_over(&mut file, &[0, 0]),
        Err(Failed),
        "past its room"
    );
    assert_eq!(rt; append_two(&mut shelf, "air", &[9], &[10]), Ok(()));
    assert!(rt; holds(&shelf, "air", &[1, 2, 3, 4, 5, 6, 7, 8, 9, 10]));
    Ok(())
}

#[test]
fn a_bit_is_kept_where_its_noise_fails(rt: HostRuntime) -> Result<(), Fail> {
    let mut noise = ByteBits::over(MemorySource::new(rt.alloc(), &[0xC0], 1, &[1])?);
    let bits = ByteBits::over(MemorySource::new(rt.alloc(), &[0xA5, 0x81], 1, &[2])?);
    let mut noisy = Noisy::over(bits, &mut noise);
    assert_eq!(rt; noisy.bit(), Err(Failed), "the noise");
    for (k, bit) in NOISY[..8].iter().enumerate() {
        assert_eq!(rt; noisy.bit(), Ok(Some(*bit)), "bit {k} of the first byte");
    }
    assert_eq!(rt; noisy.bit(), Err(Failed), "the bits");
    for (k, bit) in NOISY[8..].iter().enumerate() {
        assert_eq!(rt; noisy.bit(), Ok(Some(*bit)), "bit {k} of the second byte");
    }
    assert_eq!(rt; noisy.bit(), Ok(None));
    Ok(())
}

#[test]
fn noise_alone_is_no_bit(rt: HostRuntime) -> Result<(), Fail> {
    let mut noise = ByteBits::over(MemorySource::new(rt.alloc(), &[0xFF], 1, &[])?);
    let bits = ByteBits::over(MemorySource::new(rt.alloc(), &[], 1, &[])?);
    assert_eq!(rt; skip_noisy(bits, &mut noise), Ok(false));
    assert_eq!(rt; noise.bit(), Ok(Some(true)));
    Ok(())
}
