//! Report lines as they are put.

use crate::reporting::put_report;
use crate::session::SessionEnd;
use std::test::Fail;
use tap_terminal::Report;
use wires::fakes::MemorySink;

/// One page and no other answer.
const ONE_PAGE: Report = Report {
    pages: 1,
    continued: 0,
    nak: 0,
    body: 0,
    content: 0,
    form: 0,
    unknown: 0,
    text: 0,
    room: 0,
    wrong: 0,
};

/// Each number is another.
const MIXED: Report = Report {
    pages: 0,
    continued: 10,
    nak: 2,
    body: 30,
    content: 4,
    form: 5,
    unknown: 600,
    text: 7,
    room: 8,
    wrong: 9,
};

/// Each number is the greatest.
const GREATEST: Report = Report {
    pages: u32::MAX,
    continued: u32::MAX,
    nak: u32::MAX,
    body: u32::MAX,
    content: u32::MAX,
    form: u32::MAX,
    unknown: u32::MAX,
    text: u32::MAX,
    room: u32::MAX,
    wrong: u32::MAX,
};

/// The number of a session, its end, its report, and the line.
type Row = (u32, SessionEnd, Report, &'static [u8]);

const ROWS: [Row; 4] = [
    (
        1,
        SessionEnd::Ended,
        ONE_PAGE,
        b"session 1 ended pages 1 continued 0 nak 0 body 0 content 0 form 0 unknown 0 text 0 room 0 wrong 0\n",
    ),
    (
        20,
        SessionEnd::Forced,
        MIXED,
        b"session 20 forced pages 0 continued 10 nak 2 body 30 content 4 form 5 unknown 600 text 7 room 8 wrong 9\n",
    ),
    (
        3,
        SessionEnd::LineLost,
        ONE_PAGE,
        b"session 3 lost pages 1 continued 0 nak 0 body 0 content 0 form 0 unknown 0 text 0 room 0 wrong 0\n",
    ),
    (
        u32::MAX,
        SessionEnd::HungUp,
        GREATEST,
        b"session 4294967295 hung-up pages 4294967295 continued 4294967295 nak 4294967295 body 4294967295 content 4294967295 form 4294967295 unknown 4294967295 text 4294967295 room 4294967295 wrong 4294967295\n",
    ),
];

#[test]
fn a_report_is_put_as_one_line(rt: HostRuntime) -> Result<(), Fail> {
    for (number, end, report, line) in &ROWS {
        let mut out = MemorySink::new(rt.alloc(), 200, &[2])?;
        let put = put_report(*number, *end, *report, &mut out);
        assert!(rt; put.is_ok(), "session {number}");
        assert_eq!(rt; out.bytes(), *line, "session {number}");
    }
    Ok(())
}
