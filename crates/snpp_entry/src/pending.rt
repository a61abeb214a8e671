//! What is pending, and how a line is answered.

ghost use Rattle.std.specs.Prelude.{◌≡◌, ◌≤◌, List, ℕ, length, None, Option, option_map, Some, take, min};
ghost use Rattle.snpp_entry.specs.Lines.{without_cr};
ghost use Rattle.subscribers.specs.Directory.{directory_of};
ghost use Rattle.snpp_entry.specs.Rows.{alone, mess_row, nothing, outcome, page_row, without_page, send_row, send_text, pending_text};
ghost use Rattle.snpp_entry.specs.Seen.{pending_of};
ghost use Rattle.snpp_entry.specs.State.{AreKept, IsOutcomeDone};

use crate::answers::SnppAnswer;
use crate::verbs::{Verb, verb_of};
use crate::words::{line_of, words};
use codeword::Function;
use page_pool::Pool;
use page_text::fits;
use std::marker::Model;
use subscribers::{Settings, Target};

/// The most characters of a line.
pub(crate) const LONGEST_LINE: usize = 1100;

/// Characters that are pending, or none. They lie in place: none are moved, and only those that are new are written.
#[derive(Drop)]
pub(crate) struct Kept {
    chars: [u8; LONGEST_LINE],
    count: usize,
    is_there: bool,
}

impl Model for Kept {
    ghost use Rattle.std.specs.Prelude.{ℕ, ◌≤◌, List, Option, Some, None, if◌then◌else◌, take};

    ghost Value = { Option (List ℕ) };

    ghost view = { λ k. if k.is_there then Some (take k.count k.chars) else None };

    ghost invariant = { λ k. k.count ≤ 1100 };
}

impl Kept {
    /// None.
    fn none() -> Kept
        ensures { result ≡ None }
    {
        Kept {
            chars: [0; LONGEST_LINE],
            count: 0,
            is_there: false,
        }
    }

    /// These characters, from now on.
    fn set(&mut self, chars: &[u8])
        requires { length chars.now ≤ 1100 }
        ensures { self.new ≡ Some chars.now }
    {
        self.chars[..chars.len()].copy_from_slice(chars);
        self.count = chars.len();
        self.is_there = true;
    }

    /// None, from now on.
    fn forget(&mut self)
        ensures { self.new ≡ None }
    {
        self.is_there = false;
    }

    /// The characters, if there are any.
    fn get(&self) -> Option<&[u8]>
        ensures { option_map (λ t. t.now) result ≡ self.now }
    {
        if self.is_there {
            Some(&self.chars[..self.count])
        } else {
            None
        }
    }
}

/// The id and the text that are pending, or none.
#[derive(Drop)]
pub(crate) struct Held {
    pub(crate) id: Kept,
    pub(crate) text: Kept,
}

impl Held {
    /// Nothing is pending.
    pub(crate) fn nothing() -> Held
        ensures { pending_of result ≡ nothing }
    {
        Held {
            id: Kept::none(),
            text: Kept::none(),
        }
    }

    /// Nothing is pending, from now on.
    fn forget(&mut self)
        ensures { pending_of self.new ≡ nothing }
    {
        self.id.forget();
        self.text.forget();
    }
}

/// Answers PAGE.
fn page(pending: &mut Held, id: &[u8], settings: &Settings) -> SnppAnswer
    requires { length id.now ≤ 1100 }
    ensures { page_row (directory_of settings.now) (pending_of pending.old) id.now (pending_of pending.old).id ≡ without_page result (pending_of pending.new) }
{
    match pending.id.get() {
        Some(_) => SnppAnswer::Twice,
        None => match settings.find(id) {
            None => SnppAnswer::Pager,
            Some(_) => {
                pending.id.set(id);
                SnppAnswer::Ok
            }
        },
    }
}

/// Answers MESS.
fn mess(pending: &mut Held, text: &[u8]) -> SnppAnswer
    requires { length text.now ≤ 1100 }
    ensures { mess_row (pending_of pending.old) text.now (pending_of pending.old).text ≡ without_page result (pending_of pending.new) }
{
    match pending.text.get() {
        Some(_) => SnppAnswer::Twice,
        None => {
            pending.text.set(text);
            SnppAnswer::Ok
        }
    }
}

/// The text of the pages of an id with this function: the one that is pending, or else the empty one of a tone, or none.
fn text_for(function: Function, text: &Kept) -> Option<&[u8]>
    ensures { option_map (λ t. t.now) result ≡ pending_text function text.now }
{
    match text.get() {
        Some(text) => Some(text),
        None => match function {
            Function::Tone1 | Function::Tone2 => Some(b""),
            Function::Numeric | Function::Alpha => None,
        },
    }
}

/// Queues the pages of an id with this text: the answer, and how many they are.
fn send_text(target: &Target<'_>, text: &[u8], pool: &mut Pool) -> (SnppAnswer, u32)
    ensures done { IsOutcomeDone (send_text pool.old.spare target.now text.now) result.0 result.1 nothing pool.old pool.new }
    ensures few { result.1 ≤ 16 }
{
    match fits(target.function(), text) {
        Err(_) => (SnppAnswer::Text, 0),
        Ok(()) => match pool.put_all(target.capcodes(), target.function(), text) {
            Ok(()) => (SnppAnswer::Ok, target.count() as u32),
            Err(_) => (SnppAnswer::Room, 0),
        },
    }
}

/// Answers SEND: the answer, and how many pages were queued.
fn send(pending: &mut Held, settings: &Settings, pool: &mut Pool) -> (SnppAnswer, u32)
    ensures done { IsOutcomeDone (send_row (directory_of settings.now) pool.old.spare (pending_of pending.old) (pending_of pending.old).id) result.0 result.1 (pending_of pending.new) pool.old pool.new }
    ensures few { result.1 ≤ 16 }
{
    match pending.id.get() {
        None => (SnppAnswer::Missing, 0),
        Some(id) => match settings.find(id) {
            None => (SnppAnswer::Missing, 0),
            Some(target) => match text_for(target.function(), &pending.text) {
                None => (SnppAnswer::Missing, 0),
                Some(text) => {
                    let sent = send_text(&target, text, pool);
                    pending.forget();
                    sent
                }
            },
        },
    }
}

/// Answers a line: the answer, and how many pages were queued.
fn answer(
    pending: &mut Held,
    line: &[u8],
    settings: &Settings,
    pool: &mut Pool,
) -> (SnppAnswer, u32)
    ensures done { IsOutcomeDone (outcome (directory_of settings.now) pool.old.spare (pending_of pending.old) line.now) result.0 result.1 (pending_of pending.new) pool.old pool.new }
    ensures few { result.1 ≤ 16 }
{
    if line.len() > LONGEST_LINE {
        return (SnppAnswer::Command, 0);
    }
    let (verb, argument) = words(line);
    match verb_of(verb) {
        Verb::Page => (page(pending, argument, settings), 0),
        Verb::Mess => (mess(pending, argument), 0),
        Verb::Rese => {
            if argument.is_empty() {
                pending.forget();
                (SnppAnswer::Ok, 0)
            } else {
                (SnppAnswer::Command, 0)
            }
        }
        Verb::Send => {
            if argument.is_empty() {
                send(pending, settings, pool)
            } else {
                (SnppAnswer::Command, 0)
            }
        }
        Verb::Quit => {
            if argument.is_empty() {
                (SnppAnswer::Bye, 0)
            } else {
                (SnppAnswer::Command, 0)
            }
        }
        Verb::Other => (SnppAnswer::Command, 0),
    }
}

/// Answers a piece that an LF ended, of which the first 1,101 characters are kept: the answer, and how many pages were queued.
pub(crate) fn answer_piece(
    pending: &mut Held,
    kept: &[u8],
    count: u32,
    settings: &Settings,
    pool: &mut Pool,
) -> (SnppAnswer, u32)
    ensures done { (piece : List ℕ) → AreKept piece kept.now count
        → IsOutcomeDone (outcome (directory_of settings.now) pool.old.spare (pending_of pending.old) (without_cr piece)) result.0 result.1 (pending_of pending.new) pool.old pool.new }
    ensures few { result.1 ≤ 16 }
{
    if count as usize > LONGEST_LINE + 1 {
        return (SnppAnswer::Command, 0);
    }
    answer(pending, line_of(kept), settings, pool)
}
