//! The session, one character at a time.
//!
//! How it is built. An `Snpp` keeps what is pending, and of the characters after the last LF the first 1,101, with their number up to
//! 1,102: so a longer piece is known to be no line of at most 1,100 characters, with a CR at its end or without. `feed` takes one
//! character. Where it is an LF, `answer_piece` answers the line, and the answer is counted.
//!
//! What to mind. A contract sees an `Snpp` as what it holds (`SnppState`, `specs/State.antt`), and says for which characters it stands
//! (`SnppStands`). The session of a whole list is defined without the `Snpp` (`specs/Session.antt`).

ghost use Rattle.std.specs.Prelude.{◌≡◌, ℕ, List, []};
ghost use Rattle.entry_line.specs.Chars.{char_of};
ghost use Rattle.subscribers.specs.Directory.{Directory, directory_of};
ghost use Rattle.snpp_entry.specs.Reports.{snpp_report_of};
ghost use Rattle.snpp_entry.specs.Session.{is_bye, session};
ghost use Rattle.snpp_entry.specs.State.{SnppStands, SnppHearsOn};

use crate::answers::SnppAnswer;
use crate::front::LineFront;
use crate::pending::{Held, answer_piece};
use crate::report::{EMPTY, SnppReport};
use entry_line::characters::{LAST_CHARACTER, LF};
use entry_line::kept::count_within;
use page_pool::Pool;
use std::marker::Model;
use subscribers::Settings;

/// The count that stands for all greater numbers of the characters after the last LF.
const MORE: u32 = 1102;

/// One session of the SNPP entry line. A contract sees it as what it holds (`SnppState`).
#[derive(Drop)]
pub struct Snpp {
    pending: Held,
    /// The first characters after the last LF.
    kept: LineFront,
    /// How many there are.
    count: u32,
    /// How many characters came.
    heard: u32,
    report: SnppReport,
    over: bool,
}

impl Model for Snpp {
    ghost use Rattle.snpp_entry.specs.State.{SnppState};

    ghost Value = { SnppState };

    ghost use Rattle.snpp_entry.specs.StateView.{snpp_state_of, SnppIsInRange};

    ghost view = { snpp_state_of };

    ghost invariant = { SnppIsInRange };
}

impl Snpp {
    /// Starts before a session.
    pub fn new() -> Snpp
        ensures { (directory : Directory) (spare : ℕ) → SnppStands directory spare result [] spare }
    {
        Snpp {
            pending: Held::nothing(),
            kept: LineFront::new(),
            count: 0,
            heard: 0,
            report: EMPTY,
            over: false,
        }
    }

    /// Starts a new session.
    pub fn begin(&mut self)
        ensures { (directory : Directory) (spare : ℕ) → SnppStands directory spare self.new [] spare }
    {
        *self = Snpp::new();
    }

    /// Takes the character of a byte, and answers it. Nothing is answered exactly where the character ends no line and isn't the
    /// session's millionth, or the session is over.
    ///
    /// Whatever was fed before: where the `Snpp` stands for those characters, it now stands for them and this one. The answers of
    /// the longer session are those before and this one, and its pages are those before and those that the pool gained.
    pub fn feed(&mut self, byte: u8, settings: &Settings, pool: &mut Pool) -> SnppAnswer
        ensures { (spare : ℕ) (x : List ℕ) → SnppStands (directory_of settings.now) spare self.old x pool.old.spare
            → SnppHearsOn (directory_of settings.now) spare self.new x (char_of byte) result pool.old pool.new }
    {
        if self.over {
            return SnppAnswer::Nothing;
        }
        if self.heard + 1 == LAST_CHARACTER {
            self.over = true;
            return SnppAnswer::TooLong;
        }
        self.heard += 1;
        let c = byte % 128;
        if c != LF {
            self.kept.push(c);
            self.count = count_within(self.count, MORE);
            return SnppAnswer::Nothing;
        }
        let (answer, pages) = answer_piece(
            &mut self.pending,
            self.kept.as_slice(),
            self.count,
            settings,
            pool,
        );
        self.kept.clear();
        self.count = 0;
        self.report.count(answer, pages);
        self.over = is_bye(answer);
        answer
    }

    /// How many pages were queued in this session, and how many lines were refused.
    pub fn report(&self) -> SnppReport
        ensures { (directory : Directory) (spare left : ℕ) (x : List ℕ) → SnppStands directory spare self.now x left
            → result ≡ snpp_report_of (session directory spare x).answers (session directory spare x).pages }
    {
        self.report
    }
}

/// Whether an answer ends the session.
fn is_bye(answer: SnppAnswer) -> bool
    ensures { result ≡ is_bye answer }
{
    match answer {
        SnppAnswer::Bye => true,
        SnppAnswer::Nothing
        | SnppAnswer::Ok
        | SnppAnswer::TooLong
        | SnppAnswer::Command
        | SnppAnswer::Twice
        | SnppAnswer::Missing
        | SnppAnswer::Pager
        | SnppAnswer::Text
        | SnppAnswer::Room => false,
    }
}
