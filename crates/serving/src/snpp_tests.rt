//! SNPP sessions over a wire in memory that no goodbye ends, sessions whose line fails, and connections that are served one after another.
//! `vectors` has the worked sessions.
use crate::serving_tests::{Case, compare};
use crate::session::SessionEnd;
use crate::session_tests::{Protocol, are_owed, held};
use endings::statuses::Status;
use std::test::Fail;

/// A page, and goodbye.
const ONE_PAGE: &[u8] = b"PAGE 5551234\r\nMESS HELLO\r\nSEND\r\nQUIT\r\n";

/// Lines that are refused, and goodbye.
const REFUSED: &[u8] = b"SEND\r\npage 999\r\nPAGE 5550002\r\nMESS abc\r\nSEND\r\nSEND\r\nQUIT\r\n";

/// What a row shows, what is heard, what is said, how the session ends, and how many pages are in the pool.
type Row = (&'static str, &'static [u8], &'static [u8], SessionEnd, u32);

const ROWS: [Row; 3] = [
    (
        "a caller that ends before its page is sent",
        b"PAGE 5551234\r\nMESS HELLO\r\n",
        b"220 pocsag\r\n250 OK\r\n250 OK\r\n",
        SessionEnd::HungUp,
        0,
    ),
    (
        "two pages, and a line that is no command",
        b"MESS A\r\nPAGE 5551234\r\nSEND\r\nPAGE 5550002\r\nMESS 1\r\nSEND\r\nHELP\r\n",
        b"220 pocsag\r\n250 OK\r\n250 OK\r\n250 OK\r\n250 OK\r\n250 OK\r\n250 OK\r\n500 command\r\n",
        SessionEnd::HungUp,
        2,
    ),
    (
        "nothing is heard",
        b"",
        b"220 pocsag\r\n",
        SessionEnd::HungUp,
        0,
    ),
];

/// How many bytes are said once so many bytes of the session of one page were heard, the last first.
const OWED: [(u64, u64); 5] = [(38, 45), (32, 36), (26, 28), (14, 20), (0, 12)];

/// Which call of the session of one page fails, what is said, how the session ends, and the pages in the pool. The calls are `next`,
/// a `say`, a `hear`, twice `say`, a `hear`, twice `say`, and `hang_up`.
const FAILING: [(u64, &[u8], SessionEnd, u32); 7] = [
    (2, b"", SessionEnd::LineLost, 0),
    (3, b"220 pocsag\r\n", SessionEnd::LineLost, 0),
    (4, b"220 pocsag\r\n", SessionEnd::LineLost, 0),
    (
        6,
        b"220 pocsag\r\n250 OK\r\n250 OK\r\n",
        SessionEnd::LineLost,
        0,
    ),
    (
        7,
        b"220 pocsag\r\n250 OK\r\n250 OK\r\n",
        SessionEnd::LineLost,
        1,
    ),
    (
        8,
        b"220 pocsag\r\n250 OK\r\n250 OK\r\n250 OK\r\n",
        SessionEnd::Ended,
        1,
    ),
    (
        9,
        b"220 pocsag\r\n250 OK\r\n250 OK\r\n250 OK\r\n221 bye\r\n",
        SessionEnd::Ended,
        1,
    ),
];

/// The calls of a wire are those of a session.
const CASES: [Case; 2] = [
    Case {
        name: "fewer connections are wanted than come",
        heard: &[REFUSED, ONE_PAGE, ONE_PAGE],
        count: 2,
        wire: &[],
        shelf: &[],
        out: &[],
        status: Status::Done,
        file: Some(140),
        lines: b"snpp 1 ended pages 0 refused 4\nsnpp 2 ended pages 1 refused 0\n",
    },
    Case {
        name: "no greeting on the first of two",
        heard: &[ONE_PAGE, ONE_PAGE],
        count: 5,
        wire: &[3],
        shelf: &[],
        out: &[],
        status: Status::Done,
        file: Some(140),
        lines: b"snpp 1 lost pages 0 refused 0\nsnpp 2 ended pages 1 refused 0\n",
    },
];

#[test]
fn snpp_sessions_are_answered(rt: HostRuntime) -> Result<(), Fail> {
    for (name, heard, said, end, pages) in &ROWS {
        for cut in [1, 7, 100] {
            let left = held(rt.alloc(), Protocol::Snpp, *heard, cut, 100, &[])?;
            assert_eq!(rt; left.end, *end, "{name}, cut {cut}");
            assert_eq!(rt; left.said.as_slice(), *said, "{name}, cut {cut}");
            assert_eq!(rt; left.pages, *pages, "{name}, cut {cut}");
        }
    }
    Ok(())
}

#[test]
fn the_greeting_and_each_reply_are_said_before_more_is_heard(rt: HostRuntime) -> Result<(), Fail> {
    for cut in 1..=ONE_PAGE.len() {
        let left = held(rt.alloc(), Protocol::Snpp, ONE_PAGE, cut, 45, &[])?;
        assert_eq!(rt; left.end, SessionEnd::Ended, "cut {cut}");
        assert_eq!(rt; left.turns.len(), ONE_PAGE.len().div_ceil(cut), "cut {cut}");
        assert!(rt; are_owed(&left.turns, &OWED), "cut {cut}");
    }
    Ok(())
}

#[test]
fn an_snpp_line_that_fails_is_told(rt: HostRuntime) -> Result<(), Fail> {
    for (call, said, end, pages) in &FAILING {
        let left = held(rt.alloc(), Protocol::Snpp, ONE_PAGE, 26, 45, &[*call])?;
        assert_eq!(rt; left.end, *end, "call {call}");
        assert_eq!(rt; left.said.as_slice(), *said, "call {call}");
        assert_eq!(rt; left.pages, *pages, "call {call}");
    }
    Ok(())
}

#[test]
fn snpp_connections_are_served_sent_and_reported(rt: HostRuntime) -> Result<(), Fail> {
    compare(&rt, rt.alloc(), Protocol::Snpp, 100, &CASES)
}
