//! Connections that are served one after another, over a wire, a shelf and an output in memory.

use crate::session::Station;
use crate::session_tests::{ONE_PAGE, Protocol, TWO, station};
use endings::statuses::Status;
use std::alloc::{AllocError, Global};
use std::process::Abort;
use std::test::Fail;
use wires::fake_shelf::MemoryShelf;
use wires::fake_wire::MemoryWire;
use wires::fakes::MemorySink;
use wires::shelf::Shelf;
use wires::sink::Sink;
use wires::wire::Wire;

/// A logon, a block to an id that no subscriber has, and goodbye.
const UNKNOWN: &[u8] = b"\r\x1BPG1\r\x02999\rX\r\x03122\r\x04\r";

/// What is heard on each connection, how many are to be served, the calls of the wire, of the shelf and of the output that fail, and
/// then the status, how many bytes of the transmissions the file has, and the lines. The calls of a wire with one page are `listen`,
/// `next`, a `hear`, three times `say`, a `hear`, `say`, and `hang_up`. Those of the shelf are `fresh`, and for each page two `append`.
pub(crate) struct Case {
    pub(crate) name: &'static str,
    pub(crate) heard: &'static [&'static [u8]],
    pub(crate) count: u32,
    pub(crate) wire: &'static [u64],
    pub(crate) shelf: &'static [u64],
    pub(crate) out: &'static [u64],
    pub(crate) status: Status,
    pub(crate) file: Option<usize>,
    pub(crate) lines: &'static [u8],
}

const CASES: [Case; 12] = [
    Case {
        name: "a page",
        heard: &[ONE_PAGE],
        count: 1,
        wire: &[],
        shelf: &[],
        out: &[],
        status: Status::Done,
        file: Some(140),
        lines: b"session 1 ended pages 1 continued 0 nak 0 body 0 content 0 form 0 unknown 0 text 0 room 0 wrong 0\n",
    },
    Case {
        name: "two sessions of a page each",
        heard: &[ONE_PAGE, ONE_PAGE],
        count: 2,
        wire: &[],
        shelf: &[],
        out: &[],
        status: Status::Done,
        file: Some(280),
        lines: b"session 1 ended pages 1 continued 0 nak 0 body 0 content 0 form 0 unknown 0 text 0 room 0 wrong 0\nsession 2 ended pages 1 continued 0 nak 0 body 0 content 0 form 0 unknown 0 text 0 room 0 wrong 0\n",
    },
    Case {
        name: "more connections are wanted than come",
        heard: &[ONE_PAGE, UNKNOWN],
        count: 5,
        wire: &[],
        shelf: &[],
        out: &[],
        status: Status::Done,
        file: Some(140),
        lines: b"session 1 ended pages 1 continued 0 nak 0 body 0 content 0 form 0 unknown 0 text 0 room 0 wrong 0\nsession 2 ended pages 0 continued 0 nak 0 body 0 content 0 form 0 unknown 1 text 0 room 0 wrong 0\n",
    },
    Case {
        name: "fewer are wanted than come",
        heard: &[UNKNOWN, ONE_PAGE],
        count: 1,
        wire: &[],
        shelf: &[],
        out: &[],
        status: Status::Done,
        file: Some(0),
        lines: b"session 1 ended pages 0 continued 0 nak 0 body 0 content 0 form 0 unknown 1 text 0 room 0 wrong 0\n",
    },
    Case {
        name: "the line is lost in the session",
        heard: &[ONE_PAGE],
        count: 1,
        wire: &[7],
        shelf: &[],
        out: &[],
        status: Status::Done,
        file: Some(140),
        lines: b"session 1 lost pages 1 continued 0 nak 0 body 0 content 0 form 0 unknown 0 text 0 room 0 wrong 0\n",
    },
    Case {
        name: "no hanging up",
        heard: &[ONE_PAGE],
        count: 1,
        wire: &[9],
        shelf: &[],
        out: &[],
        status: Status::Done,
        file: Some(140),
        lines: b"session 1 ended pages 1 continued 0 nak 0 body 0 content 0 form 0 unknown 0 text 0 room 0 wrong 0\n",
    },
    Case {
        name: "no listening",
        heard: &[ONE_PAGE],
        count: 1,
        wire: &[1],
        shelf: &[],
        out: &[],
        status: Status::WireFault,
        file: Some(0),
        lines: b"",
    },
    Case {
        name: "no second connection",
        heard: &[ONE_PAGE],
        count: 2,
        wire: &[10],
        shelf: &[],
        out: &[],
        status: Status::WireFault,
        file: Some(140),
        lines: b"session 1 ended pages 1 continued 0 nak 0 body 0 content 0 form 0 unknown 0 text 0 room 0 wrong 0\n",
    },
    Case {
        name: "the file is not made fresh",
        heard: &[ONE_PAGE],
        count: 1,
        wire: &[],
        shelf: &[1],
        out: &[],
        status: Status::FileFault,
        file: None,
        lines: b"",
    },
    Case {
        name: "no preamble is appended",
        heard: &[ONE_PAGE],
        count: 1,
        wire: &[],
        shelf: &[2],
        out: &[],
        status: Status::FileFault,
        file: Some(0),
        lines: b"",
    },
    Case {
        name: "no batch is appended",
        heard: &[ONE_PAGE],
        count: 1,
        wire: &[],
        shelf: &[3],
        out: &[],
        status: Status::FileFault,
        file: Some(72),
        lines: b"",
    },
    Case {
        name: "the report line is not put",
        heard: &[ONE_PAGE],
        count: 1,
        wire: &[],
        shelf: &[],
        out: &[1],
        status: Status::OutFault,
        file: Some(140),
        lines: b"",
    },
];

/// So many bytes of the transmission of `HELLO` to capcode 8, and of the same once more.
fn airs(alloc: Global, size: usize) -> Result<Vec<u8>, AllocError> {
    let mut air = Vec::new(alloc);
    for _ in 0..2 {
        for _ in 0..72 {
            air.push(0xAA)?;
        }
        for word in [0x7CD2_15D8, 0x0000_3B49, 0x89A2_634D, 0xCCF9_05DEu32] {
            air.extend_from_slice(&word.to_be_bytes())?;
        }
        for _ in 0..13 {
            air.extend_from_slice(&0x7A89_C197u32.to_be_bytes())?;
        }
    }
    air.truncate(size);
    Ok(air)
}

/// What the connections leave: the status, the lines, and the file of the transmissions.
#[derive(Drop)]
pub(crate) struct ServingLeft {
    status: Status,
    lines: Vec<u8>,
    air: Option<Vec<u8>>,
}

/// The bytes that are heard on each connection.
fn owned(alloc: Global, heard: &[&[u8]]) -> Result<Vec<Vec<u8>>, AllocError> {
    let mut connections = Vec::new(alloc);
    for bytes in heard {
        connections.push(Vec::from_slice(alloc, *bytes)?)?;
    }
    Ok(connections)
}

/// The bytes of a file, where it is there.
fn file_in(alloc: Global, shelf: &MemoryShelf) -> Result<Option<Vec<u8>>, AllocError> {
    match shelf.bytes("air.bin") {
        Some(bytes) => Ok(Some(Vec::from_slice(alloc, bytes)?)),
        None => Ok(None),
    }
}

/// Serves the connections of a case over these objects.
fn serve<W: Wire, F: Shelf, O: Sink>(
    station: &mut Station,
    protocol: Protocol,
    count: u32,
    wire: &mut W,
    shelf: &mut F,
    out: &mut O,
) -> Status {
    let address = "127.0.0.1:7000";
    match protocol {
        Protocol::Tap => station.serve(wire, shelf, address, "air.bin", count, out),
        Protocol::Snpp => station.serve_snpp(wire, shelf, address, "air.bin", count, out),
    }
}

/// Serves the connections of a case, on which so many bytes can be said.
pub(crate) fn served(
    alloc: Global,
    protocol: Protocol,
    room: usize,
    case: &Case,
) -> Result<ServingLeft, Fail> {
    let mut station = station(alloc, TWO)?;
    let heard = owned(alloc, case.heard)?;
    let mut wire = MemoryWire::new(alloc, &heard, 26, room, case.wire)?;
    let mut shelf = MemoryShelf::new(alloc, &[], 280, case.shelf)?;
    let mut out = MemorySink::new(alloc, 400, case.out)?;
    let status = serve(
        &mut station,
        protocol,
        case.count,
        &mut wire,
        &mut shelf,
        &mut out,
    );
    Ok(ServingLeft {
        status,
        lines: Vec::from_slice(alloc, out.bytes())?,
        air: file_in(alloc, &shelf)?,
    })
}

/// Compares what each case says with what its connections leave.
pub(crate) fn compare(
    rt: &impl Abort,
    alloc: Global,
    protocol: Protocol,
    room: usize,
    cases: &[Case],
) -> Result<(), Fail> {
    for case in cases {
        let name = case.name;
        let served = served(alloc, protocol, room, case)?;
        assert_eq!(rt; served.status, case.status, "{name}");
        assert_eq!(rt; served.lines.as_slice(), case.lines, "{name}");
        let size = served.air.as_ref().map(|bytes| bytes.len());
        assert_eq!(rt; size, case.file, "{name}");
        let air = airs(alloc, case.file.unwrap_or(0))?;
        let bytes = served.air.as_deref().unwrap_or(&[]);
        assert_eq!(rt; bytes, air.as_slice(), "{name}");
    }
    Ok(())
}

#[test]
fn connections_are_served_sent_and_reported(rt: HostRuntime) -> Result<(), Fail> {
    compare(&rt, rt.alloc(), Protocol::Tap, 14, &CASES)
}
