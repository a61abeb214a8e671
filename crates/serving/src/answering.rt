//! A session that is read from an input, and whose answers are printed.

ghost use Rattle.std.specs.Prelude.{◌≡◌, ℕ, [], ◌∷◌, List};
ghost use Rattle.page_pool.specs.Pool.{Pool as Waiting, cells};
ghost use Rattle.serving.specs.Answering.{Answering, AnswersInput, AnswersOn};
ghost use Rattle.serving.specs.Answers.{answer_line as answer_line_of, reason_line as reason_line_of};
ghost use Rattle.wires.specs.Left.{Left};
ghost use Rattle.wires.specs.Written.{Written};

use crate::entry::EntryLine;
use crate::session::Station;
use entry_line::characters::LAST_CHARACTER;
use tap_terminal::{Answer, Reason};
use wires::Failed;
use wires::sink::Sink;
use wires::source::Source;

/// So many bytes are read at a time.
const READ_AT_ONCE: usize = 4096;

/// Whether a session goes on.
pub(crate) enum Course {
    GoesOn,
    Ended,
}

/// How the answers to an input ended.
#[derive(Clone, Copy, Debug, PartialEq, Eq)]
pub(crate) enum InputEnd {
    /// The session of the input was answered, up to its End or to the end of the input.
    Answered,
    /// A read failed.
    Broken,
    /// A write failed.
    Unprinted,
}

impl Station {
    /// Reads a session from the input, up to its End or to the end of the input, and prints each answer but Nothing.
    pub(crate) fn answer_input<I: Source, O: Sink>(
        &mut self,
        input: &mut I,
        out: &mut O,
    ) -> InputEnd
        ensures settings { self.new.settings ≡ self.old.settings }
        ensures answers { AnswersInput self.old.settings self.old.pool.spare (I.state input.old) (I.state input.new) self.old.pool self.new.pool self.new.desk (O.state out.old) (O.state out.new) result }
        ensures cells_stay { cells self.new.pool ≡ cells self.old.pool }
    {
        self.terminal.start(&self.settings);
        let mut buffer = [0; READ_AT_ONCE];
        for _ in 0..LAST_CHARACTER {
            match input.take(&mut buffer) {
                Ok(0) => return InputEnd::Answered,
                Ok(n) => match self.answer_all(&buffer[..n], out) {
                    Ok(Course::GoesOn) => {}
                    Ok(Course::Ended) => return InputEnd::Answered,
                    Err(Failed) => return InputEnd::Unprinted,
                },
                Err(Failed) => return InputEnd::Broken,
            }
        }
        InputEnd::Answered
    }

    /// Feeds bytes and prints their answers.
    fn answer_all<O: Sink>(&mut self, bytes: &[u8], out: &mut O) -> Result<Course, Failed>
        ensures settings { self.new.settings ≡ self.old.settings }
        ensures on { (spare : ℕ) (first now : Left ℕ) (before : Waiting) (out0 : Written ℕ) (taken : List ℕ)
            → Answering self.old.settings spare first now before self.old.pool self.old.desk out0 (O.state out.old) taken bytes.now
            → AnswersOn self.new.settings spare first now before self.new.pool self.new.desk out0 (O.state out.new) taken [] result }
        ensures cells_stay { cells self.new.pool ≡ cells self.old.pool }
    {
        for byte in bytes {
            match self.answer(*byte, out) {
                Ok(Course::GoesOn) => {}
                Ok(Course::Ended) => return Ok(Course::Ended),
                Err(Failed) => return Err(Failed),
            }
        }
        Ok(Course::GoesOn)
    }

    /// Feeds a byte and prints its answer.
    fn answer<O: Sink>(&mut self, byte: u8, out: &mut O) -> Result<Course, Failed>
        ensures settings { self.new.settings ≡ self.old.settings }
        ensures on { (spare : ℕ) (first now : Left ℕ) (before : Waiting) (out0 : Written ℕ) (taken ahead : List ℕ)
            → Answering self.old.settings spare first now before self.old.pool self.old.desk out0 (O.state out.old) taken (byte ∷ ahead)
            → AnswersOn self.new.settings spare first now before self.new.pool self.new.desk out0 (O.state out.new) taken ahead result }
        ensures cells_stay { cells self.new.pool ≡ cells self.old.pool }
    {
        let answer = self.terminal.feed(byte, &self.settings, &mut self.pool);
        if let Answer::Nothing = answer {
            return Ok(Course::GoesOn);
        }
        if let Err(Failed) = out.put(answer_line(answer)) {
            return Err(Failed);
        }
        if let Answer::End = answer {
            return Ok(Course::Ended);
        }
        Ok(Course::GoesOn)
    }
}

/// The line of an answer, and none for Nothing.
fn answer_line(answer: Answer) -> &'static [u8]
    ensures { result.now ≡ answer_line_of answer }
{
    match answer {
        Answer::Nothing => b"",
        Answer::Id => b"ID\n",
        Answer::Go => b"GO\n",
        Answer::Ack => b"ACK\n",
        Answer::Nak => b"NAK\n",
        Answer::Rs(reason) => reason_line(reason),
        Answer::End => b"END\n",
    }
}

/// The line of a refusal.
fn reason_line(reason: Reason) -> &'static [u8]
    ensures { result.now ≡ reason_line_of reason }
{
    match reason {
        Reason::Body => b"RS body\n",
        Reason::Content => b"RS content\n",
        Reason::Form => b"RS form\n",
        Reason::Unknown => b"RS unknown\n",
        Reason::Text => b"RS text\n",
        Reason::Room => b"RS room\n",
    }
}
