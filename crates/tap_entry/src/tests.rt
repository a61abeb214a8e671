//! Conversations through the states, and pages files.

use crate::examples::{ROWS, Row};
use crate::*;
use std::alloc::{AllocError, Global};
use std::process::Abort;
use std::test::Fail;
use wires::Failed;
use wires::fakes::MemorySink;
use wires::sink::Sink;

/// Where a client stands.
#[derive(Drop)]
enum Stage {
    Calling(Calling),
    Sending(Sending),
    Leaving(Leaving),
    Over,
}

/// What came of a conversation.
#[derive(Drop)]
struct Talk {
    said: MemorySink,
    outcomes: Vec<Outcome>,
}

impl Talk {
    /// Says a block.
    fn say_block(&mut self, client: Sending) -> Result<Stage, Fail> {
        client.put(&mut self.said)?;
        Ok(Stage::Sending(client))
    }

    /// The logon line.
    fn say_logon(&mut self, client: Calling) -> Result<Stage, Fail> {
        let mut line = [0; 11];
        let n = client.logon(&mut line);
        self.said.put(&line[..n])?;
        Ok(Stage::Calling(client))
    }

    /// The first block of the next page, or the end.
    fn next_page(&mut self, client: LoggedOn, pages: &Pages) -> Result<Stage, Fail> {
        let k = self.outcomes.len();
        if k < pages.count() {
            return self.say_block(client.start(pages.id(k), pages.text(k)));
        }
        self.said.put(b"\x04\r")?;
        Ok(Stage::Leaving(client.leave()))
    }

    /// All further pages have this outcome.
    fn end(&mut self, pages: &Pages, outcome: Outcome) -> Result<Stage, Fail> {
        for _ in self.outcomes.len()..pages.count() {
            self.outcomes.push(outcome)?;
        }
        Ok(Stage::Over)
    }

    /// One byte further while a page is sent.
    fn send(&mut self, client: Sending, byte: u8, pages: &Pages) -> Result<Stage, Fail> {
        match client.feed(byte) {
            SendStep::Wait(client) => Ok(Stage::Sending(client)),
            SendStep::Again(client) | SendStep::NextBlock(client) => self.say_block(client),
            SendStep::Done(client, outcome) => {
                self.outcomes.push(outcome)?;
                self.next_page(client, pages)
            }
            SendStep::Closed(outcome) => {
                self.outcomes.push(outcome)?;
                if outcome == Outcome::TriesSpent {
                    self.said.put(b"\x04\r")?;
                }
                self.end(pages, Outcome::Disconnected)
            }
        }
    }

    /// One byte further.
    fn hear(&mut self, stage: Stage, byte: u8, pages: &Pages) -> Result<Stage, Fail> {
        match stage {
            Stage::Calling(client) => match client.feed(byte) {
                CallStep::Wait(client) => Ok(Stage::Calling(client)),
                CallStep::SayLogon(client) => self.say_logon(client),
                CallStep::Go(client) => self.next_page(client, pages),
                CallStep::Refused => self.end(pages, Outcome::NoLogon),
            },
            Stage::Sending(client) => self.send(client, byte, pages),
            Stage::Leaving(client) => match client.feed(byte) {
                LeaveStep::Wait(client) => Ok(Stage::Leaving(client)),
                LeaveStep::Gone => Ok(Stage::Over),
            },
            Stage::Over => Ok(Stage::Over),
        }
    }
}

/// The pages of a file.
fn pages(alloc: Global, file: &[u8]) -> Result<Pages, Fail> {
    match Pages::read(alloc, file) {
        Ok(pages) => Ok(pages),
        Err(_) => Err(Fail::from("the pages file is refused")),
    }
}

/// Whether the conversation is over.
fn is_over(stage: &Stage) -> bool {
    match stage {
        Stage::Over => true,
        _ => false,
    }
}

/// Hears a conversation, and compares all that comes of it.
fn compare(rt: &impl Abort, alloc: Global, number: usize, row: &Row) -> Result<(), Fail> {
    let pages = pages(alloc, row.file)?;
    let mut talk = Talk {
        said: MemorySink::new(alloc, 4000, &[])?,
        outcomes: Vec::new(alloc),
    };
    let mut stage = Stage::Calling(Calling::new(pages.password()));
    talk.said.put(b"\r")?;
    for byte in row.heard {
        stage = talk.hear(stage, *byte, &pages)?;
    }
    assert!(rt; talk.said.bytes() == row.said, "row {number}");
    assert!(rt; talk.outcomes.as_slice() == row.outcomes, "row {number}");
    assert_eq!(rt; is_over(&stage), row.is_over, "row {number}");
    Ok(())
}

#[test]
fn conversations_are_held(rt: HostRuntime) -> Result<(), Fail> {
    for (number, row) in ROWS.iter().enumerate() {
        compare(&rt, rt.alloc(), number, row)?;
    }
    Ok(())
}

/// Bytes, then so many letters `A`, then bytes.
fn filled(alloc: Global, front: &[u8], letters: usize, end: &[u8]) -> Result<Vec<u8>, AllocError> {
    let mut all = Vec::from_slice(alloc, front)?;
    for _ in 0..letters {
        all.push(b'A')?;
    }
    all.extend_from_slice(end)?;
    Ok(all)
}

#[test]
fn naks_are_counted_anew_for_each_block(rt: HostRuntime) -> Result<(), Fail> {
    let file = filled(rt.alloc(), b"PG1\n5551234 ", 242, b"\n")?;
    let pages = pages(rt.alloc(), &file)?;
    let first = filled(rt.alloc(), b"\x025551234\r", 242, b"\x1F?09\r")?;
    let mut wanted = Vec::from_slice(rt.alloc(), b"\x1BPG1\r")?;
    for _ in 0..3 {
        wanted.extend_from_slice(&first)?;
    }
    wanted.extend_from_slice(b"\x02\r\x03012\r\x02\r\x03012\r\x02\r\x03012\r\x04\r")?;
    let mut talk = Talk {
        said: MemorySink::new(rt.alloc(), 4000, &[])?,
        outcomes: Vec::new(rt.alloc()),
    };
    let mut stage = Stage::Calling(Calling::new(None));
    for byte in b"ID=\x1B[p\r\x15\r\x15\r\x06\r\x15\r\x15\r\x06" {
        stage = talk.hear(stage, *byte, &pages)?;
        assert!(rt; talk.outcomes.is_empty(), "byte {byte}");
    }
    stage = talk.hear(stage, b'\r', &pages)?;
    assert!(rt; !is_over(&stage));
    assert!(rt; talk.said.bytes() == wanted.as_slice());
    assert!(rt; talk.outcomes.as_slice() == [Outcome::Sent].as_slice());
    Ok(())
}

/// A client that is logged on.
fn logged_on() -> Option<LoggedOn> {
    let mut client = Calling::new(None);
    for byte in b"ID=\x1B[p\r" {
        match client.feed(*byte) {
            CallStep::Wait(next) | CallStep::SayLogon(next) => client = next,
            CallStep::Go(next) => return Some(next),
            CallStep::Refused => return None,
        }
    }
    None
}

#[test]
fn a_block_fails_where_its_sink_does(rt: HostRuntime) -> Result<(), Fail> {
    let pages = pages(rt.alloc(), b"PG1\n999 X\n")?;
    let mut sink = MemorySink::new(rt.alloc(), 40, &[1])?;
    let client = logged_on().expect(&rt, "a client that is logged on");
    assert!(rt; pages.count() > 0);
    let client = client.start(pages.id(0), pages.text(0));
    assert_eq!(rt; client.put(&mut sink), Err(Failed));
    assert_eq!(rt; client.put(&mut sink), Ok(()));
    assert!(rt; sink.bytes() == b"\x02999\rX\r\x03122\r".as_slice());
    Ok(())
}
