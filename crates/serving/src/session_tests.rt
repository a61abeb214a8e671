//! A session over a wire in memory, in every cut, and sessions whose line fails. `vectors` has the worked sessions.
ghost use Rattle.std.specs.Prelude.{◌≡◌, ◌<◌};

use crate::session::{SessionEnd, Station};
use std::alloc::Global;
use std::test::Fail;
use subscribers::Settings;
use wires::Failed;
use wires::fake_wire::MemoryWire;
use wires::wire::Wire;

/// Two subscribers.
pub(crate) const TWO: &[u8] = b"cells = 64
subscriber = [
  {id = \"5551234\", capcode = 8, class = \"alpha\"},
  {id = \"5550002\", capcode = 9, class = \"numeric\"},
]
";

/// A logon, a block, and goodbye.
pub(crate) const ONE_PAGE: &[u8] = b"\r\x1BPG1\r\x025551234\rHELLO\r\x032?<\r\x04\r";

/// How many bytes are said once so many bytes of this session were heard, the last first.
const OWED: [(u64, u64); 5] = [(28, 14), (26, 11), (6, 9), (1, 3), (0, 0)];

/// Which call of the session of one page fails, what is said, how the session ends, and the pages in the pool. The calls are
/// `next`, a `hear`, three times `say`, a `hear`, `say`, and `hang_up`.
const FAILING: [(u64, &[u8], SessionEnd, u32); 7] = [
    (2, b"", SessionEnd::LineLost, 0),
    (3, b"", SessionEnd::LineLost, 0),
    (4, b"ID=", SessionEnd::LineLost, 0),
    (5, b"ID=\x06\r\x1B[p\r", SessionEnd::LineLost, 1),
    (6, b"ID=\x06\r\x1B[p\r\x06\r", SessionEnd::LineLost, 1),
    (7, b"ID=\x06\r\x1B[p\r\x06\r", SessionEnd::Ended, 1),
    (
        8,
        b"ID=\x06\r\x1B[p\r\x06\r\x1B\x04\r",
        SessionEnd::Ended,
        1,
    ),
];

/// A station with the settings of a file.
pub(crate) fn station(alloc: Global, file: &[u8]) -> Result<Station, Fail> {
    let Ok(settings) = Settings::read(alloc, file) else {
        return Err(Fail::from("the settings are refused"));
    };
    match Station::new(alloc, settings) {
        Ok(station) => Ok(station),
        Err(_) => Err(Fail::from("there is no memory")),
    }
}

/// The protocol of an entry line.
#[derive(Clone, Copy)]
pub(crate) enum Protocol {
    Tap,
    Snpp,
}

/// The session of the next connection.
fn play<W: Wire>(
    station: &mut Station,
    protocol: Protocol,
    wire: &mut W,
) -> Result<SessionEnd, Failed>
    ensures { (W.state wire.new).count ≡ (W.state wire.old).count }
{
    if !wire.next()? {
        return Err(Failed);
    }
    Ok(match protocol {
        Protocol::Tap => station.session(wire),
        Protocol::Snpp => station.snpp_session(wire),
    })
}

/// What a session leaves: its end, what was said, how many bytes were heard and said each time that something was heard, the pages in the
/// pool, and those of the report.
#[derive(Drop)]
pub(crate) struct Left {
    pub(crate) end: SessionEnd,
    pub(crate) said: Vec<u8>,
    pub(crate) turns: Vec<(u64, u64)>,
    pub(crate) pages: u32,
    pub(crate) reported: u32,
}

/// Holds one session of a station with two subscribers. The bytes are heard in pieces of so many at most, as many can be said as the room,
/// and these calls of the wire fail.
pub(crate) fn held(
    alloc: Global,
    protocol: Protocol,
    heard: &[u8],
    cut: usize,
    room: usize,
    failing: &[u64],
) -> Result<Left, Fail>
    requires { 0 < cut }
{
    let mut station = station(alloc, TWO)?;
    let heard = [Vec::from_slice(alloc, heard)?];
    let mut wire = MemoryWire::new(alloc, &heard, cut, room, failing)?;
    let Ok(end) = play(&mut station, protocol, &mut wire) else {
        return Err(Fail::from("no connection came"));
    };
    Ok(Left {
        end,
        said: Vec::from_slice(alloc, wire.said(0))?,
        turns: Vec::from_slice(alloc, wire.turns(0))?,
        pages: station.pages(),
        reported: station.report().pages,
    })
}

/// Whether each time that something was heard so many bytes had been said as this table says, the last first.
pub(crate) fn are_owed(turns: &[(u64, u64)], table: &[(u64, u64)]) -> bool {
    for (heard, said) in turns {
        if said_by(table, *heard) != Some(*said) {
            return false;
        }
    }
    true
}

/// How many bytes are said once so many were heard.
fn said_by(table: &[(u64, u64)], heard: u64) -> Option<u64> {
    for (from, said) in table {
        if *from <= heard {
            return Some(*said);
        }
    }
    None
}

#[test]
fn each_reply_is_said_before_more_is_heard(rt: HostRuntime) -> Result<(), Fail> {
    for cut in 1..=ONE_PAGE.len() {
        let left = held(rt.alloc(), Protocol::Tap, ONE_PAGE, cut, 14, &[])?;
        assert_eq!(rt; left.end, SessionEnd::Ended, "cut {cut}");
        assert_eq!(rt; left.turns.len(), ONE_PAGE.len().div_ceil(cut), "cut {cut}");
        assert!(rt; are_owed(&left.turns, &OWED), "cut {cut}");
    }
    Ok(())
}

#[test]
fn a_line_that_fails_is_told(rt: HostRuntime) -> Result<(), Fail> {
    for (call, said, end, pages) in &FAILING {
        let left = held(rt.alloc(), Protocol::Tap, ONE_PAGE, 26, 14, &[*call])?;
        assert_eq!(rt; left.end, *end, "call {call}");
        assert_eq!(rt; left.said.as_slice(), *said, "call {call}");
        assert_eq!(rt; left.pages, *pages, "call {call}");
        assert_eq!(rt; left.reported, *pages, "call {call}");
    }
    Ok(())
}

/// What is said at the end of a session of more than a million letters x.
const TOO_LONG: [(Protocol, &[u8]); 2] = [
    (Protocol::Tap, b"\x1B\x04\r"),
    (Protocol::Snpp, b"220 pocsag\r\n421 too long\r\n"),
];

#[test]
fn the_millionth_character_ends_a_session(rt: HostRuntime) -> Result<(), Fail> {
    let heard = vec![in rt.alloc(); b'x'; 1_000_001]?;
    for (protocol, said) in &TOO_LONG {
        let left = held(rt.alloc(), *protocol, &heard, 4096, said.len(), &[])?;
        assert_eq!(rt; left.end, SessionEnd::Forced);
        assert_eq!(rt; left.said.as_slice(), *said);
    }
    Ok(())
}
