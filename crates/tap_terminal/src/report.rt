//! How often each answer came.

ghost use Rattle.std.specs.Prelude.{◌≡◌, ◌<◌, ◌≤◌};
ghost use Rattle.tap_terminal.specs.Reports.{added, added_pages, block_counter, counter_of, refusal, tally};

use crate::answers::{Answer, Judgement, Reason};
use tap_block::{End, Item};

/// How many pages a session queued, and how many of its items had each other answer: docs/profile.md, "report".
#[derive(Clone, Copy, Debug, PartialEq, Eq)]
pub struct Report {
    /// Pages that were queued. A block may queue up to 16.
    pub pages: u32,
    /// Blocks that were taken and whose transaction goes on.
    pub continued: u32,
    /// Blocks whose trailer is wrong.
    pub nak: u32,
    /// Blocks refused with `Reason::Body`.
    pub body: u32,
    /// Blocks refused with `Reason::Content`.
    pub content: u32,
    /// Blocks refused with `Reason::Form`.
    pub form: u32,
    /// Blocks refused with `Reason::Unknown`.
    pub unknown: u32,
    /// Blocks refused with `Reason::Text`.
    pub text: u32,
    /// Blocks refused with `Reason::Room`.
    pub room: u32,
    /// Wrong lines.
    pub wrong: u32,
}

/// The report of a session in which nothing has come.
pub(crate) const EMPTY: Report = Report {
    pages: 0,
    continued: 0,
    nak: 0,
    body: 0,
    content: 0,
    form: 0,
    unknown: 0,
    text: 0,
    room: 0,
    wrong: 0,
};

impl Report {
    /// Counts an item by its answer, and the pages that it queued.
    pub(crate) fn count(&mut self, item: Item, judged: Judgement)
        requires room { tally self.old < 16000000 }
        requires few { judged.pages ≤ 16 }
        ensures { self.new ≡ added_pages self.old (counter_of item judged.answer) judged.pages }
    {
        match item {
            Item::EmptyLine | Item::Logon | Item::Bye => {}
            Item::WrongLine => self.wrong += 1,
            Item::Block { end, .. } => self.count_block(end, judged),
        }
    }

    /// Counts a block by its answer, and the pages that it queued.
    fn count_block(&mut self, end: End, judged: Judgement)
        requires room { tally self.old < 16000000 }
        requires few { judged.pages ≤ 16 }
        ensures { self.new ≡ added_pages self.old (block_counter end judged.answer) judged.pages }
    {
        match judged.answer {
            Answer::Ack if end == End::Etx => self.pages += judged.pages,
            Answer::Ack => self.continued += 1,
            Answer::Nak => self.nak += 1,
            Answer::Rs(reason) => self.count_refusal(reason),
            Answer::Nothing | Answer::Id | Answer::Go | Answer::End => {}
        }
    }

    /// Counts a refusal.
    fn count_refusal(&mut self, reason: Reason)
        requires { tally self.old < 16000000 }
        ensures { self.new ≡ added self.old (refusal reason) }
    {
        match reason {
            Reason::Body => self.body += 1,
            Reason::Content => self.content += 1,
            Reason::Form => self.form += 1,
            Reason::Unknown => self.unknown += 1,
            Reason::Text => self.text += 1,
            Reason::Room => self.room += 1,
        }
    }
}
