//! Worked sessions with six subscribers and a group, in cuts, and sessions beside those of a plain program; the length of a session, its
//! password, and the replies.
ghost use Rattle.std.specs.Prelude.{IfSome};
ghost use Rattle.page_pool.specs.Pool.{IsLive};

use crate::examples::{Page, Piece, ROWS, Row, SESSIONS};
use crate::twin::played;
use crate::*;
use page_pool::{Pool, Ticket};
use page_text::LONGEST_TEXT;
use std::alloc::{AllocError, Global};
use std::process::Abort;
use std::test::Fail;
use subscribers::Settings;

/// Six subscribers and a group of three capcodes.
const SIX_AND_A_GROUP: &[u8] = b"version = 2
cells = 64
subscriber = [
  {id = \"5551234\", capcode = 8, class = \"alpha\"},
  {id = \"5550002\", capcode = 9, class = \"numeric\"},
  {id = \"15\", capcode = 15, class = \"tone1\"},
  {id = \"8\", capcode = 8, class = \"tone1\"},
  {id = \"16\", capcode = 16, class = \"tone1\"},
  {id = \"7\", capcode = 15, class = \"alpha\"},
]
group = [{id = \"900\", capcodes = [8, 15, 2000], class = \"alpha\"}]
";

/// The settings of a file.
fn settings(alloc: Global, file: &[u8]) -> Result<Settings, Fail> {
    match Settings::read(alloc, file) {
        Ok(settings) => Ok(settings),
        Err(_) => Err(Fail::from("the settings are refused")),
    }
}

/// The characters of pieces.
fn characters(alloc: Global, pieces: &[Piece]) -> Result<Vec<u8>, AllocError> {
    let mut all = Vec::new(alloc);
    for (front, letters) in pieces {
        all.extend_from_slice(*front)?;
        for _ in 0..*letters {
            all.push(b'A')?;
        }
    }
    Ok(all)
}

/// Feeds bytes, and appends what is answered.
fn hear(
    terminal: &mut Terminal,
    settings: &Settings,
    pool: &mut Pool,
    bytes: &[u8],
    answers: &mut Vec<Answer>,
) -> Result<(), AllocError> {
    for byte in bytes {
        let answer = terminal.feed(*byte, settings, pool);
        if answer != Answer::Nothing {
            answers.push(answer)?;
        }
    }
    Ok(())
}

/// The counts of a report, in its order.
fn counts(report: Report) -> [u32; 10] {
    [
        report.pages,
        report.continued,
        report.nak,
        report.body,
        report.content,
        report.form,
        report.unknown,
        report.text,
        report.room,
        report.wrong,
    ]
}

/// The ticket of the first page of a frame.
fn first(pool: &Pool, frame: u32) -> Option<Ticket>
    ensures { IfSome result (λ t. IsLive pool.now t) }
{
    if frame >= 8 {
        return None;
    }
    let t = pool.first(frame)?;
    if pool.live(t) { Some(t) } else { None }
}

/// The text of a page.
fn text(alloc: Global, pool: &Pool, t: Ticket) -> Result<Vec<u8>, AllocError>
    requires { IsLive pool.now t }
{
    let mut text = [0; LONGEST_TEXT];
    let length = pool.copy_text(t, &mut text);
    match text.get(..length) {
        Some(text) => text.to_vec(alloc),
        None => Ok(Vec::new(alloc)),
    }
}

/// Takes a page out of the pool: whether the first of its frame is this one.
fn take(alloc: Global, pool: &mut Pool, wanted: Page<'_>) -> Result<bool, AllocError> {
    let (capcode, function, letters) = wanted;
    let Some(t) = first(pool, capcode % 8) else {
        return Ok(false);
    };
    let is_addressed = pool.capcode(t).number() == capcode && pool.function(t) == function;
    let found = text(alloc, pool, t)?;
    pool.take(t);
    Ok(is_addressed && found.as_slice() == letters)
}

/// Hears a session in two pieces, or in one where it is shorter than the first, and compares all that comes of it.
fn compare(
    rt: &impl Abort,
    alloc: Global,
    settings: &Settings,
    row: &Row,
    cut: usize,
) -> Result<(), Fail> {
    assert!(rt; 0 < row.cells && row.cells <= 65_536, "the cells of a row");
    let mut pool = Pool::new(alloc, row.cells)?;
    let mut terminal = Terminal::new(None);
    let heard = characters(alloc, row.heard)?;
    let mut answers = Vec::new(alloc);
    let (front, rest) = heard.as_slice().split_at(cut.min(heard.len()));
    hear(&mut terminal, settings, &mut pool, front, &mut answers)?;
    hear(&mut terminal, settings, &mut pool, rest, &mut answers)?;
    assert!(rt; answers.as_slice() == row.answers, "cut at {cut}");
    assert_eq!(rt; counts(terminal.report()), row.counts, "cut at {cut}");
    assert_eq!(rt; terminal.forced(), row.counts[9] == 3, "cut at {cut}");
    for page in row.pages {
        assert!(rt; take(alloc, &mut pool, *page)?, "cut at {cut}");
    }
    assert_eq!(rt; pool.count(), 0, "cut at {cut}");
    assert_eq!(rt; pool.spare(), row.cells, "cut at {cut}");
    Ok(())
}

#[test]
fn sessions_are_answered(rt: HostRuntime) -> Result<(), Fail> {
    let settings = settings(rt.alloc(), SIX_AND_A_GROUP)?;
    for row in &ROWS {
        for cut in 0..=60 {
            compare(&rt, rt.alloc(), &settings, row, cut)?;
        }
    }
    Ok(())
}

/// Hears characters in two pieces, or in one where they are fewer than the first has, and compares what comes of it with the plain program.
fn agree(
    rt: &impl Abort,
    alloc: Global,
    settings: &Settings,
    heard: &[u8],
    cut: usize,
) -> Result<(), Fail> {
    let mut pool = Pool::new(alloc, 2)?;
    let mut terminal = Terminal::new(None);
    let mut answers = Vec::new(alloc);
    let plain = played(alloc, settings, 2, heard)?;
    let (front, rest) = heard.split_at(cut.min(heard.len()));
    hear(&mut terminal, settings, &mut pool, front, &mut answers)?;
    hear(&mut terminal, settings, &mut pool, rest, &mut answers)?;
    assert!(rt;
        answers.as_slice() == plain.answers.as_slice(),
        "cut at {cut}"
    );
    for page in &plain.pages {
        let wanted = (page.capcode, page.function, page.text.as_slice());
        assert!(rt; take(alloc, &mut pool, wanted)?, "cut at {cut}");
    }
    assert_eq!(rt; pool.count(), 0, "cut at {cut}");
    Ok(())
}

#[test]
fn sessions_are_those_of_the_plain_program(rt: HostRuntime) -> Result<(), Fail> {
    let settings = settings(rt.alloc(), SIX_AND_A_GROUP)?;
    for pieces in &SESSIONS {
        let heard = characters(rt.alloc(), pieces)?;
        for cut in 0..=80 {
            agree(&rt, rt.alloc(), &settings, &heard, cut)?;
        }
    }
    for row in &ROWS {
        let heard = characters(rt.alloc(), row.heard)?;
        agree(&rt, rt.alloc(), &settings, &heard, 0)?;
    }
    Ok(())
}

#[test]
fn the_millionth_character_ends_a_session(rt: HostRuntime) -> Result<(), Fail> {
    let settings = settings(rt.alloc(), SIX_AND_A_GROUP)?;
    let mut pool = Pool::new(rt.alloc(), 1)?;
    let mut terminal = Terminal::new(None);
    for k in 0..999_999u32 {
        assert_eq!(rt;
            terminal.feed(b'x', &settings, &mut pool),
            Answer::Nothing,
            "{k} characters came before"
        );
    }
    assert!(rt; !terminal.forced());
    assert_eq!(rt; terminal.feed(b'\r', &settings, &mut pool), Answer::End);
    assert!(rt; terminal.forced());
    assert_eq!(rt; terminal.feed(b'\r', &settings, &mut pool), Answer::Nothing);
    assert_eq!(rt; counts(terminal.report()), [0; 10]);
    terminal.begin();
    assert!(rt; !terminal.forced());
    assert_eq!(rt; terminal.feed(b'\r', &settings, &mut pool), Answer::Id);
    Ok(())
}

#[test]
fn only_the_logon_with_the_password_counts(rt: HostRuntime) -> Result<(), Fail> {
    let settings = settings(rt.alloc(), b"cells = 1\npassword = \"SECRET\"\n")?;
    let mut pool = Pool::new(rt.alloc(), 1)?;
    let mut terminal = Terminal::new(settings.password());
    for session in 1..=2u32 {
        let mut answers = Vec::new(rt.alloc());
        hear(
            &mut terminal,
            &settings,
            &mut pool,
            b"\x1BPG1\r\x1BPG1SECRET\r",
            &mut answers,
        )?;
        assert!(rt;
            answers.as_slice() == [Answer::Nak, Answer::Go].as_slice(),
            "session {session}"
        );
        assert_eq!(rt; terminal.report().wrong, 1, "session {session}");
        terminal.begin();
    }
    Ok(())
}

#[test]
fn replies_are_bytes(rt: HostRuntime) {
    let wanted: [(Answer, &[u8]); 7] = [
        (Answer::Nothing, &[]),
        (Answer::Id, &[0x49, 0x44, 0x3D]),
        (Answer::Go, &[0x06, 0x0D, 0x1B, 0x5B, 0x70, 0x0D]),
        (Answer::Ack, &[0x06, 0x0D]),
        (Answer::Nak, &[0x15, 0x0D]),
        (Answer::Rs(Reason::Room), &[0x1E, 0x0D]),
        (Answer::End, &[0x1B, 0x04, 0x0D]),
    ];
    for (answer, bytes) in wanted {
        assert_eq!(rt; reply(answer), bytes, "{answer:?}");
    }
}
