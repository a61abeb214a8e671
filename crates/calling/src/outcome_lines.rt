//! The outcomes of the pages, filled up and printed: docs/profile.md, "outcomes".

ghost use Rattle.std.specs.Prelude.{◌≡◌, ◌+◌, ◌≤◌, ◌++◌, drop, length};
ghost use Rattle.calling.specs.OutcomeLines.{all_sent, is_sent, outcome_line, outcome_lines, outcome_word};
ghost use Rattle.tap_entry.specs.Client.{all_are};
ghost use Rattle.tap_entry.specs.PagesFile.{most_pages};
ghost use Rattle.wires.specs.Written.{Puts};

use crate::stages::{Outcomes, note};
use arrayvec::ArrayVec;
use endings::lines::{push, push_number};
use tap_entry::{Outcome, Pages};
use wires::Failed;
use wires::sink::Sink;

/// The most bytes of a line.
const LONGEST_LINE: usize = 200;

/// Gives this outcome to the pages that have none.
pub(crate) fn fill(outcome: Outcome, pages: &Pages, done: &mut Outcomes)
    ensures filled { done.new.items ≡ done.old.items ++ all_are outcome (drop (length done.old.items) pages.now.pages) }
    ensures few { length pages.now.pages ≤ most_pages }
{
    for _ in done.len()..pages.count() {
        note(outcome, done);
    }
}

/// Whether every page is Sent.
pub(crate) fn are_all_sent(outcomes: &[Outcome]) -> bool
    ensures { result ≡ all_sent outcomes.now }
{
    for outcome in outcomes {
        if !is_sent(*outcome) {
            return false;
        }
    }
    true
}

/// Whether a page is Sent.
fn is_sent(outcome: Outcome) -> bool
    ensures { result ≡ is_sent outcome }
{
    match outcome {
        Outcome::Sent => true,
        _ => false,
    }
}

/// Puts the lines of the pages, in their order. After `Failed` a prefix of them was put.
pub(crate) fn put_outcomes<O: Sink>(outcomes: &[Outcome], out: &mut O) -> Result<(), Failed>
    requires { length outcomes.now ≤ most_pages }
    ensures { Puts (O.state out.old) (O.state out.new) (outcome_lines outcomes.now) result }
{
    for k in 0..outcomes.len() {
        if let Err(Failed) = put_outcome(k as u32 + 1, outcomes[k], out) {
            return Err(Failed);
        }
    }
    Ok(())
}

/// Puts the line of a page as one piece.
fn put_outcome<O: Sink>(number: u32, outcome: Outcome, out: &mut O) -> Result<(), Failed>
    ensures { Puts (O.state out.old) (O.state out.new) (outcome_line number outcome) result }
{
    let line = written(number, outcome);
    out.put(&line)
}

/// The line of a page.
fn written(number: u32, outcome: Outcome) -> ArrayVec<u8, LONGEST_LINE>
    ensures { result.items ≡ outcome_line number outcome }
{
    let mut line = ArrayVec::new();
    push_number(number, &mut line);
    push(b" ", &mut line);
    push(word(outcome), &mut line);
    push(b"\n", &mut line);
    line
}

/// The word for an outcome.
fn word(outcome: Outcome) -> &'static [u8]
    ensures word { result.now ≡ outcome_word outcome }
    ensures few { length result.now ≤ 12 }
{
    match outcome {
        Outcome::Sent => b"sent",
        Outcome::Abandoned => b"abandoned",
        Outcome::TriesSpent => b"tries-spent",
        Outcome::Disconnected => b"disconnected",
        Outcome::NoLogon => b"no-logon",
    }
}
