//! Sessions with six subscribers, of lines that are refused: what is said, and the report. `vectors` has the worked sessions.

ghost use Rattle.std.specs.Prelude.{◌≤◌};

use crate::*;
use codeword::Capcode;
use page_pool::Pool;
use std::alloc::{AllocError, Global};
use std::test::Fail;
use subscribers::Settings;

/// Six subscribers.
const SIX: &[u8] = b"cells = 64
subscriber = [
  {id = \"5551234\", capcode = 8, class = \"alpha\"},
  {id = \"5550002\", capcode = 9, class = \"numeric\"},
  {id = \"15\", capcode = 15, class = \"tone1\"},
  {id = \"8\", capcode = 8, class = \"tone1\"},
  {id = \"16\", capcode = 16, class = \"tone1\"},
  {id = \"7\", capcode = 15, class = \"alpha\"},
]
";

/// What a row shows, how many cells there are, what is heard, what is said behind the greeting, and the numbers of pages and of refused lines.
type Row = (&'static str, u32, &'static [u8], &'static [u8], u32, u32);

const ROWS: [Row; 7] = [
    (
        "LF alone, any case, a second PAGE",
        64,
        b"PAGER 15\nPAGE 8\nSEND\n\nRESET x\nquit\nSEND\n",
        b"250 OK\r\n503 already entered\r\n250 OK\r\n500 command\r\n500 command\r\n221 bye\r\n",
        1,
        3,
    ),
    (
        "CR without LF, and two of them before it",
        64,
        b"PAGE 8\rSEND\nPAGE 8\r\r\nPAGE 8\r\n\rSEND\r\nSEND\r\n",
        b"550 pager\r\n550 pager\r\n250 OK\r\n500 command\r\n250 OK\r\n",
        1,
        3,
    ),
    (
        "NUL, and bytes above 7F, which stand for their low seven bits",
        64,
        b"PAGE 8\x00\nPAGE\x00 8\n\x00\n\xD0\xC1\xC7\xC5\xA0\xB8\x8D\x8A\xFF\xFE\nSEND\n",
        b"550 pager\r\n500 command\r\n500 command\r\n250 OK\r\n500 command\r\n250 OK\r\n",
        1,
        4,
    ),
    (
        "SEND, RESE and QUIT with an argument, and with an empty one",
        64,
        b"PAGE 8\nSEND now\nSEND  \nQUIT 1\nRESE 1\nSEND \nRESET \nQUIT \n",
        b"250 OK\r\n500 command\r\n500 command\r\n500 command\r\n500 command\r\n250 OK\r\n250 OK\r\n221 bye\r\n",
        1,
        4,
    ),
    (
        "QUIT within a line",
        64,
        b"x QUIT\n QUIT\nMESS QUIT\nquitter\n",
        b"500 command\r\n500 command\r\n250 OK\r\n500 command\r\n",
        0,
        3,
    ),
    (
        "an empty text, which fits, and one to a tone, which does not",
        64,
        b"PAGE 7\nMESS\nSEND\nPAGE 5550002\nMESS \nSEND\nPAGE 15\nMESS a\nSEND\n",
        b"250 OK\r\n250 OK\r\n250 OK\r\n250 OK\r\n250 OK\r\n250 OK\r\n250 OK\r\n250 OK\r\n554 text\r\n",
        2,
        1,
    ),
    (
        "a second page without room, and then nothing is pending",
        1,
        b"PAGE 7\nMESS a\nSEND\nPAGE 7\nMESS b\nSEND\nSEND\n",
        b"250 OK\r\n250 OK\r\n250 OK\r\n250 OK\r\n250 OK\r\n554 room\r\n503 incomplete\r\n",
        1,
        2,
    ),
];

/// The most letters of a text whose line with `MESS` and a space has 1,100 characters.
const LONGEST_TEXT: usize = 1095;

/// The settings of a file.
fn settings(alloc: Global, file: &[u8]) -> Result<Settings, Fail> {
    match Settings::read(alloc, file) {
        Ok(settings) => Ok(settings),
        Err(_) => Err(Fail::from("the settings are refused")),
    }
}

/// A pool.
fn pool(alloc: Global, cells: u32) -> Result<Pool, Fail>
    requires { (1 ≤ cells) × (cells ≤ 65536) }
{
    match Pool::new(alloc, cells) {
        Ok(pool) => Ok(pool),
        Err(_) => Err(Fail::from("there is no memory for the pool")),
    }
}

/// Feeds bytes, and answers what is said.
fn said(
    alloc: Global,
    session: &mut Snpp,
    settings: &Settings,
    pool: &mut Pool,
    bytes: &[u8],
) -> Result<Vec<u8>, AllocError> {
    let mut said = Vec::new(alloc);
    for byte in bytes {
        said.extend_from_slice(reply(session.feed(*byte, settings, pool)))?;
    }
    Ok(said)
}

#[test]
fn sessions_are_answered(rt: HostRuntime) -> Result<(), Fail> {
    let alloc = rt.alloc();
    let settings = settings(alloc, SIX)?;
    let mut session = Snpp::new();
    for (name, cells, heard, replies, pages, refused) in ROWS {
        let mut pool = pool(alloc, cells)?;
        session.begin();
        let said = said(alloc, &mut session, &settings, &mut pool, heard)?;
        assert_eq!(rt; said.as_slice(), replies, "{name}");
        let report = session.report();
        assert_eq!(rt; report.pages, pages, "{name}");
        assert_eq!(rt; report.refused, refused, "{name}");
        assert_eq!(rt; pool.count(), pages, "{name}");
    }
    Ok(())
}

/// What is said to MESS with so many letters, and to SEND after it, where an id is pending.
fn said_to_letters(alloc: Global, letters: usize, end: &[u8]) -> Result<Vec<u8>, Fail> {
    let settings = settings(alloc, SIX)?;
    let mut pool = pool(alloc, 64)?;
    let mut session = Snpp::new();
    let mut heard = Vec::from_slice(alloc, b"PAGE 7\nMESS ")?;
    for _ in 0..letters {
        heard.push(b'A')?;
    }
    heard.extend_from_slice(end)?;
    heard.extend_from_slice(b"SEND\n")?;
    Ok(said(alloc, &mut session, &settings, &mut pool, &heard)?)
}

#[test]
fn a_line_of_more_than_1100_characters_is_no_command(rt: HostRuntime) -> Result<(), Fail> {
    let alloc = rt.alloc();
    for end in [b"\r\n".as_slice(), b"\n"] {
        let fits = said_to_letters(alloc, LONGEST_TEXT, end)?;
        assert_eq!(rt;
            fits.as_slice(),
            b"250 OK\r\n250 OK\r\n554 text\r\n".as_slice()
        );
        let longer = said_to_letters(alloc, LONGEST_TEXT + 1, end)?;
        assert_eq!(rt;
            longer.as_slice(),
            b"250 OK\r\n500 command\r\n503 incomplete\r\n".as_slice()
        );
    }
    Ok(())
}

/// A subscriber, and a group of three capcodes.
const BRIGADE: &[u8] = b"version = 2
cells = 64
subscriber = [{id = \"8\", capcode = 8, class = \"tone1\"}]
group = [{id = \"900\", capcodes = [8, 15, 2000], class = \"alpha\"}]
";

/// A page to the group.
const TO_THE_BRIGADE: &[u8] = b"PAGE 900\nMESS A\nSEND\n";

/// What a row shows, how many cells there are, what is said to a page to the group, and the capcodes of its pages.
type GroupRow = (&'static str, u32, &'static [u8], &'static [u32]);

const GROUP_ROWS: [GroupRow; 4] = [
    (
        "room for more",
        64,
        b"250 OK\r\n250 OK\r\n250 OK\r\n",
        &[8, 15, 2000],
    ),
    (
        "room for all three",
        3,
        b"250 OK\r\n250 OK\r\n250 OK\r\n",
        &[8, 15, 2000],
    ),
    (
        "room for two, so for none",
        2,
        b"250 OK\r\n250 OK\r\n554 room\r\n",
        &[],
    ),
    (
        "room for one, so for none",
        1,
        b"250 OK\r\n250 OK\r\n554 room\r\n",
        &[],
    ),
];

/// Takes the first page of the capcode's frame out, and answers whether it is one to this capcode.
fn takes_page_to(pool: &mut Pool, capcode: u32) -> bool {
    let Some(wanted) = Capcode::of(capcode) else {
        return false;
    };
    let Some(ticket) = pool.first(wanted.frame()) else {
        return false;
    };
    if !pool.live(ticket) {
        return false;
    }
    let found = pool.capcode(ticket);
    pool.take(ticket);
    found == wanted
}

#[test]
fn a_page_to_a_group_is_one_page_for_each_capcode(rt: HostRuntime) -> Result<(), Fail> {
    let alloc = rt.alloc();
    let settings = settings(alloc, BRIGADE)?;
    let mut session = Snpp::new();
    for (name, cells, replies, capcodes) in GROUP_ROWS {
        let mut pool = pool(alloc, cells)?;
        session.begin();
        let said = said(alloc, &mut session, &settings, &mut pool, TO_THE_BRIGADE)?;
        assert_eq!(rt; said.as_slice(), replies, "{name}");
        let pages = capcodes.len() as u32;
        assert_eq!(rt; session.report().pages, pages, "{name}");
        assert_eq!(rt; pool.count(), pages, "{name}");
        assert_eq!(rt; pool.spare(), cells - pages, "{name}");
        for capcode in capcodes {
            assert!(rt; takes_page_to(&mut pool, *capcode), "{name}: {capcode}");
        }
    }
    Ok(())
}

#[test]
fn the_greeting_is_a_line(rt: HostRuntime) {
    assert_eq!(rt; greeting(), b"220 pocsag\r\n".as_slice());
}
