//! Sessions of a station over real connections on loopback.

use station::{SessionEnd, Station};
use std::alloc::Global;
use std::io::{Read, Write};
use std::net::{Net, OpenListener, OpenStream, Shutdown, TcpListener, TcpStream};
use std::test::Fail;
use subscribers::Settings;
use system_io::tcp_wire::TcpWire;
use wires::wire::Wire;

/// One subscriber.
const SETTINGS: &[u8] =
    b"cells = 64\nsubscriber = [{id = \"5551234\", capcode = 8, class = \"alpha\"}]\n";

/// A logon, a block, and goodbye.
const ONE_PAGE: &[u8] = b"\r\x1BPG1\r\x025551234\rHELLO\r\x032?<\r\x04\r";

/// What is said to all of it.
const REPLIES: &[u8] = b"ID=\x06\r\x1B[p\r\x06\r\x1B\x04\r";

/// A station with one subscriber.
fn station(alloc: Global) -> Result<Station, Fail> {
    let Ok(settings) = Settings::read(alloc, SETTINGS) else {
        return Err(Fail::from("the settings are refused"));
    };
    match Station::new(alloc, settings) {
        Ok(station) => Ok(station),
        Err(_) => Err(Fail::from("there is no memory")),
    }
}

/// A port of loopback that nothing listens on.
fn free_address<R: Net>(rt: &R, alloc: Global) -> Result<String, Fail> {
    let at = TcpListener::bind(rt, "127.0.0.1:0")?.local_addr()?;
    Ok(format!(in alloc; "{at}")?)
}

/// How a caller leaves behind its bytes: it hears the replies, having ended or not, or is gone at once.
#[derive(Clone, Copy, PartialEq, Eq)]
enum Manner {
    Stays,
    Ends,
    IsGone,
}

/// A caller of this address that sent its bytes. None where it is gone.
fn called<R: Net>(
    rt: &R,
    address: &str,
    bytes: &[u8],
    manner: Manner,
) -> Result<Option<R::Stream>, Fail> {
    let mut caller = TcpStream::connect(rt, address)?;
    caller.write_all(bytes)?;
    if manner == Manner::Ends {
        caller.shutdown(Shutdown::Write)?;
    }
    Ok(if manner == Manner::IsGone {
        None
    } else {
        Some(caller)
    })
}

/// The session of the next connection.
fn served<W: Wire>(station: &mut Station, wire: &mut W) -> Result<SessionEnd, Fail> {
    if wire.next() != Ok(true) {
        return Err(Fail::from("no connection came"));
    }
    Ok(station.session(wire))
}

/// What a caller hears to the end of its connection.
fn replies<S: Read + Drop>(alloc: Global, caller: Option<S>) -> Result<Vec<u8>, Fail> {
    let mut replies = Vec::new(alloc);
    if let Some(mut caller) = caller {
        caller.read_to_end(&mut replies)?;
    }
    Ok(replies)
}

/// What a session leaves: its end, what its caller hears, the pages in the pool, and those of its report.
#[derive(Drop)]
struct Left {
    end: SessionEnd,
    replies: Vec<u8>,
    pages: u32,
    reported: u32,
}

/// The session of one caller of a listening wire.
fn session_of<R: Net + Drop, W: Wire>(
    rt: &R,
    alloc: Global,
    address: &str,
    station: &mut Station,
    wire: &mut W,
    bytes: &[u8],
    manner: Manner,
) -> Result<Left, Fail> {
    let caller = called(rt, address, bytes, manner)?;
    let end = served(station, wire)?;
    Ok(Left {
        end,
        replies: replies(alloc, caller)?,
        pages: station.pages(),
        reported: station.report().pages,
    })
}

/// The sessions of a first caller, which sends so many bytes in this manner, and of a second one with a whole session.
fn sessions_of<R: Net + Drop>(
    rt: &R,
    alloc: Global,
    cut: usize,
    manner: Manner,
) -> Result<(Left, Left), Fail> {
    let mut station = station(alloc)?;
    let address = free_address(rt, alloc)?;
    let mut wire = TcpWire::over(rt);
    if wire.listen(&address).is_err() {
        return Err(Fail::from("no listening"));
    }
    let part = ONE_PAGE.get(..cut).unwrap_or(ONE_PAGE);
    let first = session_of(rt, alloc, &address, &mut station, &mut wire, part, manner)?;
    let whole = Manner::Stays;
    let next = session_of(
        rt,
        alloc,
        &address,
        &mut station,
        &mut wire,
        ONE_PAGE,
        whole,
    )?;
    Ok((first, next))
}

/// Whether a whole session was heard, and its page is the only one.
fn is_whole(left: &Left) -> bool {
    left.end == SessionEnd::Ended
        && left.replies.as_slice() == REPLIES
        && left.pages == 1
        && left.reported == 1
}

/// A caller ends in the middle of its block, wherever that is. The next one is served as ever.
#[test]
fn a_caller_that_ends_in_a_block(rt: HostRuntime) -> Result<(), Fail> {
    for cut in [7, 12, 20, 25] {
        let (broken, whole) = sessions_of(&rt, rt.alloc(), cut, Manner::Ends)?;
        assert_eq!(rt; broken.end, SessionEnd::HungUp, "cut {cut}");
        assert_eq!(rt;
            Some(broken.replies.as_slice()),
            REPLIES.get(..9),
            "cut {cut}"
        );
        assert_eq!(rt; broken.pages, 0, "cut {cut}");
        assert!(rt; is_whole(&whole), "cut {cut}");
    }
    Ok(())
}

/// A caller that is gone in the middle of its block, so that nobody hears the replies. The session ends, hung up or lost, with
/// no page, and the next one is served as ever.
#[test]
fn a_caller_that_is_gone_in_a_block(rt: HostRuntime) -> Result<(), Fail> {
    let (gone, whole) = sessions_of(&rt, rt.alloc(), 20, Manner::IsGone)?;
    assert!(rt; gone.end == SessionEnd::HungUp || gone.end == SessionEnd::LineLost);
    assert_eq!(rt; gone.pages, 0);
    assert!(rt; is_whole(&whole));
    Ok(())
}
