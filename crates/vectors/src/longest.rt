//! Sessions of very many characters or blocks, a client with more pages than a session has characters for, and the longest files that are
//! played, and longer ones: docs/profile.md, "length of a session", "room", "sending a page", "play and show" and "play-line".

use crate::runs::{Left, Objects, air_of, run_over, spelled};
use crate::sessions::{S1, served};
use page_pool::Pool;
use station::{Status, send};
use std::alloc::{AllocError, Global};
use std::test::Fail;
use subscribers::Settings;
use tap_entry::Pages;
use tap_terminal::{Terminal, reply};
use wires::fake_wire::MemoryWire;
use wires::fakes::MemorySink;

/// The line of a session of wrong characters, or of one block without an end.
const FORCED_LINE: &[u8] =
    b"session 1 forced pages 0 continued 0 nak 0 body 0 content 0 form 0 unknown 0 text 0 room 0 wrong 0\n";

/// Serves a session that begins with these bytes and goes on with more letters `x` than are judged. The last reply is End.
fn without_end(alloc: Global, front: &[u8]) -> Result<Left, Fail> {
    let mut heard = Vec::from_slice(alloc, front)?;
    heard.extend_from_slice(&vec![in alloc; b'x'; 1_000_001]?)?;
    served(alloc, S1, &heard, 4096)
}

#[test]
fn the_millionth_character_ends_a_run(rt: HostRuntime) -> Result<(), Fail> {
    let left = without_end(rt.alloc(), b"")?;
    assert_eq!(rt; left.status, Status::Done);
    assert_eq!(rt; left.said.as_slice(), b"\x1B\x04\r".as_slice());
    assert_eq!(rt; left.out.as_slice(), FORCED_LINE);
    assert_eq!(rt; left.air.as_deref(), Some(&[] as &[u8]));
    Ok(())
}

/// After Go the only reply is End.
#[test]
fn the_millionth_character_ends_an_open_block(rt: HostRuntime) -> Result<(), Fail> {
    let left = without_end(rt.alloc(), b"\r\x1BPG1\r\x02")?;
    assert_eq!(rt; left.status, Status::Done);
    assert_eq!(rt;
        left.said.as_slice(),
        b"ID=\x06\r\x1B[p\r\x1B\x04\r".as_slice()
    );
    assert_eq!(rt; left.out.as_slice(), FORCED_LINE);
    assert_eq!(rt; left.air.as_deref(), Some(&[] as &[u8]));
    Ok(())
}

/// How many blocks a session of tones has, one more than there are cells.
const BLOCKS: usize = 65;

/// A logon, blocks with a tone to capcode 15, and goodbye; and what is said: the last block finds no room.
fn tones(alloc: Global) -> Result<(Vec<u8>, Vec<u8>), AllocError> {
    let mut heard = b"\r\x1BPG1\r".to_vec(alloc)?;
    let mut said = b"ID=\x06\r\x1B[p\r".to_vec(alloc)?;
    for block in 1..=BLOCKS {
        heard.extend_from_slice(b"\x0215\r\r\x03085\r")?;
        said.extend_from_slice(if block < BLOCKS { b"\x06\r" } else { b"\x1E\r" })?;
    }
    heard.extend_from_slice(b"\x04\r")?;
    said.extend_from_slice(b"\x1B\x04\r")?;
    Ok((heard, said))
}

/// Two pages a batch, and a last batch that is idle.
fn slots(alloc: Global) -> Result<Vec<(usize, u32)>, AllocError> {
    let mut slots = Vec::new(alloc);
    for batch in 0..32usize {
        let slot = batch.wrapping_mul(16).wrapping_add(14);
        slots.push((slot, 0x0000_283F))?;
        slots.push((slot.wrapping_add(1), 0x0000_283F))?;
    }
    Ok(slots)
}

#[test]
fn a_full_pool_becomes_33_batches_of_a_file(rt: HostRuntime) -> Result<(), Fail> {
    let (heard, said) = tones(rt.alloc())?;
    let left = served(rt.alloc(), S1, &heard, 100)?;
    let slots = slots(rt.alloc())?;
    let air = air_of(rt.alloc(), 33, &slots)?;
    assert_eq!(rt; left.status, Status::Done);
    assert_eq!(rt; left.said.as_slice(), said.as_slice());
    assert_eq!(rt;
        left.out.as_slice(),
        b"session 1 ended pages 64 continued 0 nak 0 body 0 content 0 form 0 unknown 0 text 0 room 1 wrong 0\n".as_slice()
    );
    assert_eq!(rt; left.air.as_deref(), Some(air.as_slice()));
    assert_eq!(rt; air.len(), 2316);
    Ok(())
}

/// A subscriber, and the most cells.
const SETTINGS: &[u8] = b"cells = 65536
subscriber = [
  {id = \"5551234\", capcode = 8, class = \"alpha\"},
]
";

/// How many pages the file has.
const PAGES: usize = 1000;

/// CR and the logon are 6 characters, and a page of 1,000 letters is five blocks of 1,039. So the first 999,999 characters hold so many
/// whole pages and the first block of the next one.
const SENT: usize = 962;

/// A pages file of 1,000 pages, each of 1,000 letters.
fn long_pages(alloc: Global) -> Result<Vec<u8>, AllocError> {
    let page = spelled(alloc, &[(b"5551234 ", 1000), (b"\n", 0)])?;
    let mut file = Vec::from_slice(alloc, b"PG1\n")?;
    for _ in 0..PAGES {
        file.extend_from_slice(&page)?;
    }
    Ok(file)
}

/// What the terminal replies to them: ID, GO, an ACK to each block, and END within a page.
fn replies(alloc: Global) -> Result<Vec<u8>, AllocError> {
    let mut replies = Vec::from_slice(alloc, b"ID=\x06\r\x1B[p\r")?;
    for _ in 0..5 * SENT + 1 {
        replies.extend_from_slice(b"\x06\r")?;
    }
    replies.extend_from_slice(b"\x1B\x04\r")?;
    Ok(replies)
}

/// The lines of the pages: the whole ones are sent.
fn lines(alloc: Global) -> Result<Vec<u8>, AllocError> {
    let mut lines = Vec::new(alloc);
    for number in 1..=PAGES {
        let outcome = if number <= SENT {
            "sent"
        } else {
            "disconnected"
        };
        let line = format!(in alloc; "{number} {outcome}\n")?;
        lines.extend_from_slice(line.as_bytes())?;
    }
    Ok(lines)
}

/// What a client says of the file that hears the replies, and the lines that it prints.
fn called(alloc: Global) -> Result<(Vec<u8>, Vec<u8>), Fail> {
    let Ok(pages) = Pages::read(alloc, &long_pages(alloc)?) else {
        return Err(Fail::from("the pages file is refused"));
    };
    let mut wire = MemoryWire::new(alloc, &[replies(alloc)?], 4096, 1_100_000, &[])?;
    let mut out = MemorySink::new(alloc, 20_000, &[])?;
    if send(&mut wire, "host:7000", &pages, &mut out) != Status::SomeUnsent {
        return Err(Fail::from("another status"));
    }
    Ok((
        Vec::from_slice(alloc, wire.said(0))?,
        Vec::from_slice(alloc, out.bytes())?,
    ))
}

/// What the terminal replies to these bytes, and how many pages then wait.
fn answered(alloc: Global, said: &[u8]) -> Result<(Vec<u8>, u32), Fail> {
    let Ok(settings) = Settings::read(alloc, SETTINGS) else {
        return Err(Fail::from("the settings are refused"));
    };
    let mut pool = Pool::new(alloc, 65_536)?;
    let mut terminal = Terminal::new(None);
    let mut replies = Vec::new(alloc);
    for byte in said {
        replies.extend_from_slice(reply(terminal.feed(*byte, &settings, &mut pool)))?;
    }
    Ok((replies, pool.count()))
}

#[test]
fn a_session_ends_within_a_page(rt: HostRuntime) -> Result<(), Fail> {
    let (said, printed) = called(rt.alloc())?;
    let (replied, waiting) = answered(rt.alloc(), &said)?;
    assert!(rt;
        replied == replies(rt.alloc())?,
        "what is replied isn't what was heard"
    );
    assert!(rt; printed == lines(rt.alloc())?, "the lines of the pages");
    assert_eq!(rt; waiting as usize, SENT);
    Ok(())
}

/// Plays a file of so many bytes 0, by this command.
fn played(alloc: Global, command: &str, size: usize) -> Result<Left, Fail> {
    let files = [(
        String::from_str(alloc, "air.bin")?,
        vec![in alloc; 0u8; size]?,
    )];
    let objects = Objects {
        heard: &[],
        input: b"",
        files: &files,
        cut: 1,
        faults: &[],
    };
    run_over(alloc, &[command, "air.bin", "8"], objects)
}

#[test]
fn the_longest_file_is_played(rt: HostRuntime) -> Result<(), Fail> {
    let left = played(rt.alloc(), "play", 67_108_864)?;
    assert_eq!(rt; left.status, Status::Done);
    assert!(rt; left.out.is_empty() && left.err.is_empty());
    Ok(())
}

#[test]
fn a_longer_file_is_refused(rt: HostRuntime) -> Result<(), Fail> {
    let left = played(rt.alloc(), "play", 67_108_865)?;
    assert_eq!(rt; left.status, Status::TooLong);
    assert_eq!(rt; left.status.code(), 11);
    assert!(rt; left.out.is_empty());
    assert_eq!(rt; left.err.as_slice(), b"pocsag: air too long\n".as_slice());
    Ok(())
}

#[test]
fn the_longest_line_is_played(rt: HostRuntime) -> Result<(), Fail> {
    let left = played(rt.alloc(), "play-line", 67_108_864)?;
    assert_eq!(rt; left.status, Status::Done);
    assert!(rt; left.out.is_empty() && left.err.is_empty());
    Ok(())
}

#[test]
fn a_longer_line_is_refused(rt: HostRuntime) -> Result<(), Fail> {
    let left = played(rt.alloc(), "play-line", 67_108_865)?;
    assert_eq!(rt; left.status, Status::TooLong);
    assert!(rt; left.out.is_empty());
    assert_eq!(rt; left.err.as_slice(), b"pocsag: air too long\n".as_slice());
    Ok(())
}
