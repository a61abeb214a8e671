//! The terminal: docs/profile.md, "session", "judgement" and "length of a session".
//!
//! How it is built. A terminal holds a scanner, which reads the characters, and the content of the transaction so far. `feed` takes
//! one character. Where it completes an item, `judge` answers it, and the item is counted. A whole content goes to `contents`.
//!
//! What to mind. A contract sees a terminal as what it holds (`TerminalState`, `specs/State.antt`), and says for which characters it stands
//! (`Stands`). The session of a whole list is defined without the terminal (`specs/Session.antt`). The body of a block is read from
//! the scanner before the next character is fed.

ghost use Rattle.std.specs.Prelude.{◌≡◌, ℕ, ◌+◌, ◌≤◌, ◌<◌, ◌++◌, ◌∷◌, [], List, Option, Some, min, take, length, length as length_of};
ghost use Rattle.page_pool.specs.Pool.{cells};
ghost use Rattle.entry_line.specs.Chars.{char_of};
ghost use Rattle.tap_block.specs.Reading.{Entry, a_block};
ghost use Rattle.tap_block.specs.Brief.{answer_of, BodyIs};
ghost use Rattle.subscribers.specs.Directory.{Directory, directory_of};
ghost use Rattle.tap_terminal.specs.Session.{Session};
ghost use Rattle.tap_terminal.specs.State.{Stands, HearsOn, IsItemJudged, KeepsSession, unheard};

use crate::answers::{Answer, Judgement, Reason, refused, without_pages};
use crate::contents::{Values, judge_content};
use crate::report::{EMPTY, Report};
use arrayvec::ArrayVec;
use entry_line::characters::LAST_CHARACTER;
use page_pool::Pool;
use std::marker::Model;
use subscribers::Settings;
use tap_block::{End, Item, LONGEST_BODY, Scanner};

/// The most characters that the content of a transaction may have.
pub const LONGEST_CONTENT: usize = 2_200;

/// The wrong line of this number ends a session.
pub const LAST_WRONG_LINE: u32 = 3;

/// Whether a session goes on.
#[derive(Clone, Copy, Debug, PartialEq, Eq)]
pub enum Stage {
    /// No End was answered.
    Open,
    /// Goodbye was answered End.
    Ended,
    /// A wrong line or the length of the session was answered End.
    Forced,
}

/// One session of the entry line. A contract sees it as what it holds (`TerminalState`).
#[derive(Drop)]
pub struct Terminal {
    password: Option<[u8; 6]>,
    scanner: Scanner,
    /// The content of the transaction so far.
    joined: ArrayVec<u8, LONGEST_CONTENT>,
    /// Room for the values of a whole content.
    values: Values,
    /// How many characters came.
    heard: u32,
    /// How many wrong lines came.
    wrong: u32,
    report: Report,
    stage: Stage,
}

impl Model for Terminal {
    ghost use Rattle.tap_terminal.specs.State.{TerminalState};

    ghost Value = { TerminalState };

    ghost use Rattle.tap_terminal.specs.StateView.{terminal_state_of, TerminalIsInRange};

    ghost view = { terminal_state_of };

    ghost invariant = { TerminalIsInRange };
}

impl Terminal {
    /// Starts before a session. With a password only the logon with it counts, and without one every logon.
    pub fn new(password: Option<[u8; 6]>) -> Terminal
        ensures password { result.password ≡ password }
        ensures stands { (directory : Directory) (spare : ℕ) → Stands password directory spare result [] unheard spare }
    {
        Terminal {
            password,
            scanner: Scanner::new(password),
            joined: ArrayVec::new(),
            values: Values::new(),
            heard: 0,
            wrong: 0,
            report: EMPTY,
            stage: Stage::Open,
        }
    }

    /// Starts a new session, with the same password.
    pub fn begin(&mut self)
        ensures password { self.new.password ≡ self.old.password }
        ensures stands { (directory : Directory) (spare : ℕ) → Stands self.old.password directory spare self.new [] unheard spare }
    {
        *self = Terminal::new(self.password);
    }

    /// Takes the character of a byte, and answers it. Nothing is answered exactly where the character completes no item and isn't
    /// the session's millionth, or an End came before.
    ///
    /// Whatever was fed before: where the terminal stands for those characters, it now stands for them and this one. The answers of
    /// the longer session are those before and this one, and its pages are those before and those that the pool gained. The
    /// pool has the cells that it had.
    pub fn feed(&mut self, byte: u8, settings: &Settings, pool: &mut Pool) -> Answer
        ensures password { self.new.password ≡ self.old.password }
        ensures hears { (password : Option (List ℕ)) (spare : ℕ) (x : List ℕ) (session : Session)
            → Stands password (directory_of settings.now) spare self.old x session pool.old.spare
            → HearsOn password (directory_of settings.now) spare self.new x (char_of byte) session result pool.old pool.new }
        ensures cells_stay { cells pool.new ≡ cells pool.old }
    {
        match self.stage {
            Stage::Ended | Stage::Forced => return Answer::Nothing,
            Stage::Open => {}
        }
        if self.heard + 1 == LAST_CHARACTER {
            self.stage = Stage::Forced;
            return Answer::End;
        }
        self.heard += 1;
        match self.scanner.feed(byte) {
            None => Answer::Nothing,
            Some(item) => {
                let judged = self.judge(item, settings, pool);
                self.report.count(item, judged);
                judged.answer
            }
        }
    }

    /// Whether a wrong line or the length ended this session.
    pub fn forced(&self) -> bool
        ensures { (password : Option (List ℕ)) (directory : Directory) (spare left : ℕ) (x : List ℕ) (session : Session)
            → Stands password directory spare self.now x session left → result ≡ session.forced }
    {
        match self.stage {
            Stage::Open | Stage::Ended => false,
            Stage::Forced => true,
        }
    }

    /// How often each answer came in this session.
    pub fn report(&self) -> Report
        ensures { (password : Option (List ℕ)) (directory : Directory) (spare left : ℕ) (x : List ℕ) (session : Session)
            → Stands password directory spare self.now x session left → result ≡ session.report }
    {
        self.report
    }

    /// Answers an item.
    fn judge(&mut self, item: Item, settings: &Settings, pool: &mut Pool) -> Judgement
        requires room { self.old.wrong < self.old.heard }
        requires stage { self.old.stage ≡ Stage.Open }
        ensures keeps { KeepsSession self.old self.new }
        ensures judged { (e : Entry) → item ≡ answer_of e → BodyIs (Some e) self.old.scanner.kept
            → IsItemJudged (directory_of settings.now) self.old self.new e result pool.old pool.new }
        ensures few { result.pages ≤ 16 }
        ensures cells_stay { cells pool.new ≡ cells pool.old }
    {
        match item {
            Item::EmptyLine => without_pages(Answer::Id),
            Item::Logon => without_pages(Answer::Go),
            Item::WrongLine => {
                self.wrong += 1;
                if self.wrong == LAST_WRONG_LINE {
                    self.stage = Stage::Forced;
                    without_pages(Answer::End)
                } else {
                    without_pages(Answer::Nak)
                }
            }
            Item::Bye => {
                self.stage = Stage::Ended;
                without_pages(Answer::End)
            }
            Item::Block {
                end,
                sum_ok,
                length,
            } => self.judge_block(end, sum_ok, length, settings, pool),
        }
    }

    /// Answers a block.
    fn judge_block(
        &mut self,
        end: End,
        sum_ok: bool,
        length: u32,
        settings: &Settings,
        pool: &mut Pool,
    ) -> Judgement
        requires { self.old.stage ≡ Stage.Open }
        ensures keeps { KeepsSession self.old self.new }
        ensures judged { (b : List ℕ) → length ≡ min (length_of b) 251 → self.old.scanner.kept ≡ take 250 b
            → IsItemJudged (directory_of settings.now) self.old self.new (a_block b end sum_ok) result pool.old pool.new }
        ensures few { result.pages ≤ 16 }
        ensures cells_stay { cells pool.new ≡ cells pool.old }
    {
        if !sum_ok {
            return without_pages(Answer::Nak);
        }
        if length as usize > LONGEST_BODY {
            self.joined.clear();
            return refused(Reason::Body);
        }
        let body = self.scanner.body();
        if self.joined.len() + body.len() > LONGEST_CONTENT {
            self.joined.clear();
            return refused(Reason::Content);
        }
        append(&mut self.joined, body);
        match end {
            End::Etb | End::Us => without_pages(Answer::Ack),
            End::Etx => {
                let judged = judge_content(
                    self.joined.as_slice(),
                    &mut self.values,
                    settings,
                    pool,
                );
                self.joined.clear();
                judged
            }
        }
    }
}

/// Appends a body to the content so far.
fn append(joined: &mut ArrayVec<u8, LONGEST_CONTENT>, body: &[u8])
    requires { length joined.old.items + length body.now ≤ LONGEST_CONTENT }
    ensures { joined.new.items ≡ joined.old.items ++ body.now }
{
    let _ = joined.try_extend_from_slice(body);
}
