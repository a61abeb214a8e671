//! The entry lines, as a connection sees them: what each says to a byte, and the line about its session.
//!
//! How it is built. `EntryLine` is what the loop over a connection and the serving of connections want of a protocol. `Terminal` (TAP) and
//! `Snpp` are its two instances, which hand each byte over and answer the bytes of the reply.
//!
//! What to mind. What a session is in each protocol, its answers, its pages and its end, stands in `specs/Protocols.antt`, by cases of
//! `Protocol`.

ghost use Rattle.std.specs.Prelude.{◌≡◌, ℕ, ◌≤◌, [], false, List, Option, Some, None, length, if◌then◌else◌};
ghost use Rattle.serving.specs.declared.session.SessionEnd.TheVariants.{Ended, Forced};
ghost use Rattle.serving.specs.Protocols.{Protocol, SessionIn, StandsIn, StateIn, greeting_in, has_last, line_in, snpp, tap, unheard_in};
ghost use Rattle.serving.specs.ReportLine.{longest_line};
ghost use Rattle.serving.specs.Sessions.{Fed};
ghost use Rattle.serving.specs.TapSessions.{end_decided};
ghost use Rattle.snpp_entry.specs.Session.{is_final, is_for_length};
ghost use Rattle.subscribers.specs.Directory.{Directory};
ghost use Rattle.subscribers.specs.Parts.{Parts};
ghost use Rattle.tap_terminal.specs.Session.{Session, is_end};
ghost use Rattle.tap_terminal.specs.State.{Stands};
ghost use Rattle.wires.specs.Written.{Puts};

use crate::reporting::{put_report, put_snpp_report};
use crate::session::SessionEnd;
use page_pool::Pool;
use snpp_entry::{Snpp, SnppAnswer, greeting, reply as snpp_reply};
use subscribers::Settings;
use tap_terminal::{Answer, Terminal, reply};
use wires::Failed;
use wires::sink::Sink;

/// What an entry line says to a byte.
#[derive(Clone, Copy)]
pub(crate) struct Response {
    /// The reply. It is empty where nothing is said.
    pub(crate) reply: &'static [u8],
    /// How the session ended, where it did.
    pub(crate) end: Option<SessionEnd>,
}

/// An entry line: one session after another.
pub(crate) trait EntryLine {
    /// Its protocol.
    ghost protocol: { Protocol };

    /// What it holds.
    ghost state: { Self → StateIn protocol };

    /// Starts a session under these settings.
    fn start(&mut self, settings: &Settings)
        ensures { (spare : ℕ) → StandsIn protocol settings.now spare (state self.new) [] (unheard_in protocol) spare };

    /// What is said before anything is heard. It is empty where nothing is.
    fn greeting(&self) -> &'static [u8]
        ensures { result.now ≡ greeting_in protocol };

    /// Takes a byte of a session that no answer has ended. Whatever was fed before: where it stands for those bytes, it now stands for
    /// them and this one, and the pool gained the pages of the longer session.
    fn respond(&mut self, byte: u8, settings: &Settings, pool: &mut Pool) -> Response
        ensures { (spare : ℕ) (bytes : List ℕ) (session : SessionIn protocol)
            → StandsIn protocol settings.now spare (state self.old) bytes session pool.old.spare → has_last protocol session ≡ false
            → Fed protocol settings.now spare (state self.new) bytes byte session result.reply.now result.end pool.old pool.new };

    /// Puts the report line of its session, at most 200 bytes.
    fn put_line<O: Sink>(&self, number: u32, end: SessionEnd, out: &mut O) -> Result<(), Failed>
        ensures puts { (settings : Parts) (spare left : ℕ) (bytes : List ℕ) (session : SessionIn protocol)
            → StandsIn protocol settings spare (state self.now) bytes session left
            → Puts (O.state out.old) (O.state out.new) (line_in protocol number end session) result }
        ensures few { (settings : Parts) (spare left : ℕ) (bytes : List ℕ) (session : SessionIn protocol)
            → StandsIn protocol settings spare (state self.now) bytes session left
            → length (line_in protocol number end session) ≤ longest_line };
}

impl EntryLine for Terminal {
    ghost protocol = { tap };

    ghost state = { λ t. t };

    fn start(&mut self, settings: &Settings) {
        *self = Terminal::new(settings.password());
    }

    fn greeting(&self) -> &'static [u8] {
        b""
    }

    fn respond(&mut self, byte: u8, settings: &Settings, pool: &mut Pool) -> Response {
        let answer = self.feed(byte, settings, pool);
        Response {
            reply: reply(answer),
            end: ended(self, answer),
        }
    }

    fn put_line<O: Sink>(&self, number: u32, end: SessionEnd, out: &mut O) -> Result<(), Failed> {
        put_report(number, end, self.report(), out)
    }
}

/// How a terminal's session ended, where this answer ended it.
fn ended(terminal: &Terminal, answer: Answer) -> Option<SessionEnd>
    ensures { (password : Option (List ℕ)) (directory : Directory) (spare left : ℕ) (x : List ℕ) (session : Session)
        → Stands password directory spare terminal.now x session left → result ≡ (if is_end answer then Some (end_decided session.forced) else None) }
{
    match answer {
        Answer::End => {
            if terminal.forced() {
                Some(SessionEnd::Forced)
            } else {
                Some(SessionEnd::Ended)
            }
        }
        Answer::Nothing | Answer::Id | Answer::Go | Answer::Ack | Answer::Nak | Answer::Rs(_) =>
            None,
    }
}

impl EntryLine for Snpp {
    ghost protocol = { snpp };

    ghost state = { λ s. s };

    fn start(&mut self, _settings: &Settings) {
        self.begin();
    }

    fn greeting(&self) -> &'static [u8] {
        greeting()
    }

    fn respond(&mut self, byte: u8, settings: &Settings, pool: &mut Pool) -> Response {
        let answer = self.feed(byte, settings, pool);
        Response {
            reply: snpp_reply(answer),
            end: snpp_ended(answer),
        }
    }

    fn put_line<O: Sink>(&self, number: u32, end: SessionEnd, out: &mut O) -> Result<(), Failed> {
        put_snpp_report(number, end, self.report(), out)
    }
}

/// How a session ended, where this answer ended it.
fn snpp_ended(answer: SnppAnswer) -> Option<SessionEnd>
    ensures { result ≡ (if is_final answer then Some (if is_for_length answer then Forced else Ended) else None) }
{
    match answer {
        SnppAnswer::Bye => Some(SessionEnd::Ended),
        SnppAnswer::TooLong => Some(SessionEnd::Forced),
        SnppAnswer::Nothing
        | SnppAnswer::Ok
        | SnppAnswer::Command
        | SnppAnswer::Twice
        | SnppAnswer::Missing
        | SnppAnswer::Pager
        | SnppAnswer::Text
        | SnppAnswer::Room => None,
    }
}
