//! The conversations that the tests play.

use crate::Outcome;

/// A conversation: a pages file, what is heard, what is said, what becomes of the pages, and whether the client has gone.
pub(crate) struct Row {
    pub(crate) file: &'static [u8],
    pub(crate) heard: &'static [u8],
    pub(crate) said: &'static [u8],
    pub(crate) outcomes: &'static [Outcome],
    pub(crate) is_over: bool,
}

/// Two pages.
const TWO: &[u8] = b"PG1\n5551234 HELLO\n999 X\n";

/// The conversations.
pub(crate) const ROWS: [Row; 18] = [
    // one page is sent, and one is abandoned
    Row {
        file: TWO,
        heard: b"ID=\x06\r\x1B[p\r\x06\r\x1E\r\x1B\x04\r",
        said: b"\r\x1BPG1\r\x025551234\rHELLO\r\x032?<\r\x02999\rX\r\x03122\r\x04\r",
        outcomes: &[Outcome::Sent, Outcome::Abandoned],
        is_over: true,
    },
    // the third NAK refuses the logon
    Row {
        file: TWO,
        heard: b"ID=\x15\r\x15\r\x15\r",
        said: b"\r\x1BPG1\r\x1BPG1\r\x1BPG1\r",
        outcomes: &[Outcome::NoLogon, Outcome::NoLogon],
        is_over: true,
    },
    // the third NAK for a block
    Row {
        file: TWO,
        heard: b"ID=\x06\r\x1B[p\r\x15\r\x15\r\x15\r",
        said: b"\r\x1BPG1\r\x025551234\rHELLO\r\x032?<\r\x025551234\rHELLO\r\x032?<\r\x025551234\rHELLO\r\x032?<\r\x04\r",
        outcomes: &[Outcome::TriesSpent, Outcome::Disconnected],
        is_over: true,
    },
    // the second NAK for a block
    Row {
        file: TWO,
        heard: b"ID=\x06\r\x1B[p\r\x15\r\x15\r\x06\r",
        said: b"\r\x1BPG1\r\x025551234\rHELLO\r\x032?<\r\x025551234\rHELLO\r\x032?<\r\x025551234\rHELLO\r\x032?<\r\x02999\rX\r\x03122\r",
        outcomes: &[Outcome::Sent],
        is_over: false,
    },
    // a page isn't sent before its block is acknowledged
    Row {
        file: TWO,
        heard: b"ID=\x06\r\x1B[p\r",
        said: b"\r\x1BPG1\r\x025551234\rHELLO\r\x032?<\r",
        outcomes: &[],
        is_over: false,
    },
    // the terminal hangs up in a page
    Row {
        file: TWO,
        heard: b"ID=\x06\r\x1B[p\r\x1B\x04\r",
        said: b"\r\x1BPG1\r\x025551234\rHELLO\r\x032?<\r",
        outcomes: &[Outcome::Disconnected, Outcome::Disconnected],
        is_over: true,
    },
    // a password
    Row {
        file: b"PG1SECRET\n999 X\n",
        heard: b"ID=\x15\r\x06\r\x1B[p\r",
        said: b"\r\x1BPG1SECRET\r\x1BPG1SECRET\r\x02999\rX\r\x03122\r",
        outcomes: &[],
        is_over: false,
    },
    // before `ID=` only `ESC EOT` counts
    Row {
        file: TWO,
        heard: b"\x06\r\x1B[p\r\x15\r\x15\r\x15\r\x1E\rID=",
        said: b"\r\x1BPG1\r",
        outcomes: &[],
        is_over: false,
    },
    // `ESC EOT` before `ID=`
    Row {
        file: TWO,
        heard: b"\x1B\x04\r",
        said: b"\r",
        outcomes: &[Outcome::NoLogon, Outcome::NoLogon],
        is_over: true,
    },
    // `ESC EOT` behind the logon line
    Row {
        file: TWO,
        heard: b"ID=\x1B\x04\r",
        said: b"\r\x1BPG1\r",
        outcomes: &[Outcome::NoLogon, Outcome::NoLogon],
        is_over: true,
    },
    // a line that ends in `ID=`, `ID=` a second time, and RS before the logon
    Row {
        file: TWO,
        heard: b"x ID=\x1E\rID=\x1E\r",
        said: b"\r\x1BPG1\r",
        outcomes: &[],
        is_over: false,
    },
    // LF inside marks and between them
    Row {
        file: b"PG1\n999 X\n",
        heard: b"I\nD\n=\n\x06\n\r\n\n\x1B\n[\np\n\r\n\x06\n\r\n\x1B\n\x04\n\r",
        said: b"\r\x1BPG1\r\x02999\rX\r\x03122\r\x04\r",
        outcomes: &[Outcome::Sent],
        is_over: true,
    },
    // bytes with their eighth bit
    Row {
        file: b"PG1\n999 X\n",
        heard: b"\xC9\xC4\xBD\x86\x8D\x9B\xDB\xF0\x8D\x86\x8D",
        said: b"\r\x1BPG1\r\x02999\rX\r\x03122\r\x04\r",
        outcomes: &[Outcome::Sent],
        is_over: false,
    },
    // lines that are skipped
    Row {
        file: b"PG1\n999 X\n",
        heard: b"IID=\x06 OK\r\x1B[p\rx\x06\r\x06x\r\x06\x06\r\r\x15ID\r\x1E ID \r\x1B\x04x\r\x1B[p\r",
        said: b"\r\x1BPG1\r\x02999\rX\r\x03122\r",
        outcomes: &[],
        is_over: false,
    },
    // a mark that `ID=` empties
    Row {
        file: b"PG1\n999 X\n",
        heard: b"ID=\x1B[p\r\x15ID=\r\x06\r",
        said: b"\r\x1BPG1\r\x02999\rX\r\x03122\r\x04\r",
        outcomes: &[Outcome::Sent],
        is_over: false,
    },
    // a client that leaves hears nothing but `ESC EOT`
    Row {
        file: b"PG1\n999 X\n",
        heard: b"ID=\x1B[p\r\x1E\r\x15\r\x06\r\x1E\r\x1B[p\rID=\x1B\x04\r",
        said: b"\r\x1BPG1\r\x02999\rX\r\x03122\r\x04\r",
        outcomes: &[Outcome::Abandoned],
        is_over: true,
    },
    // no page
    Row {
        file: b"PG1\n",
        heard: b"ID=\x1B[p\r",
        said: b"\r\x1BPG1\r\x04\r",
        outcomes: &[],
        is_over: false,
    },
    // an escape in a field
    Row {
        file: b"PG1\n7 \\x01\n",
        heard: b"ID=\x1B[p\r",
        said: b"\r\x1BPG1\r\x027\r\x1AA\r\x030;1\r",
        outcomes: &[],
        is_over: false,
    },
];
