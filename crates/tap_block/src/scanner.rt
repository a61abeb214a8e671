//! The reader of the entry line: docs/profile.md, "characters", "lines", "between blocks" and "block".
//!
//! How it is built. A scanner takes one byte at a time, and never looks ahead or back. `Place` says where it stands, `step` is the
//! one match over the places, and each place has a function that takes the next character there. What is not read as a whole yet
//! is kept only as far as its item needs it: of a line the first eleven characters, one more than the longest logon has; of a body
//! the first 250, its length up to 251, and a running total; of a trailer what has come.
//!
//! What to mind. The definition reads whole lists of characters (`specs/Reading.antt`). `specs/Brief.antt` says what a scanner keeps
//! of the rest that is not read yet, and `specs/Step.antt` is one step on that. `proofs/Grows.antt` shows that a step reads on by one
//! character: a change of an arm here is a change of its line there, and of its lemma. The work for a character does not grow with
//! what was read before, but that `begin_item` blanks what an earlier body left, at most a place for each character of it.

ghost use Rattle.std.specs.Prelude.{◌≡◌, ◌↔◌, ℕ, ◌+◌, ◌<◌, ◌≤◌, List, [], ◌∷◌, ◌++◌, length, None, nat_eq};
ghost use lib.Pointwise.{pointwise};
ghost use Rattle.entry_line.specs.Chars.{cr, char_of};
ghost use Rattle.tap_block.specs.Chars.{written, end_char};
ghost use Rattle.tap_block.specs.Reading.{Mode, BeforeLogon, AfterLogon, Entry, line_item, is_password_word};
ghost use Rattle.tap_block.specs.Brief.{ScannerStandsFor, ReadsOn, in_line, in_body, in_trailer, answer_of};
ghost use Rattle.tap_block.specs.Step.{scanner_step, step_by, begin_item, end_body};

use crate::content::{SUMS, sum_written};
use crate::control::{EOT, ESC, ETB, ETX, STX, US};
use crate::ends::End;
use crate::items::Item;
use crate::{LONGEST_BODY, TRAILER};
use arrayvec::ArrayVec;
use entry_line::characters::{CR, LF, PASSWORD_SIZE};
use entry_line::kept::push_within;
use std::marker::Model;

/// How many characters of a line are kept: one more than the longest logon has.
const LINE_KEPT: usize = 11;

/// The length that stands for all bodies that are too long.
const TOO_LONG: u32 = 251;

/// Where a scanner stands: what has been read since the last item.
#[derive(Clone, Copy)]
enum Place {
    /// Before logon: the beginning of a line.
    InLine,
    /// After logon: nothing that is kept.
    Between,
    /// After logon: an EOT. Its CR would be goodbye.
    AfterEot,
    /// STX and the beginning of a body.
    InBody,
    /// STX, a body, its end, and the beginning of a trailer.
    InTrailer(End),
}

/// Reads the entry line, one byte at a time. A contract sees it as what it keeps (`ScannerState`).
#[derive(Drop)]
pub struct Scanner {
    password: Option<[u8; PASSWORD_SIZE]>,
    place: Place,
    /// The first characters of the line, without LF.
    line: ArrayVec<u8, LINE_KEPT>,
    /// The first characters of the body.
    body: ArrayVec<u8, LONGEST_BODY>,
    /// The length of the body, at most 251.
    size: u32,
    /// The sum of the block so far.
    total: u32,
    /// The trailer so far.
    trailer: ArrayVec<u8, TRAILER>,
}

impl Model for Scanner {
    ghost use Rattle.std.specs.Prelude.{ℕ, ◌≤◌, ◌<◌};
    ghost use Rattle.tap_block.specs.Brief.{ScannerState};

    ghost Value = { ScannerState };

    ghost use Rattle.tap_block.specs.View.{brief_of, ScannerIsInRange};

    ghost view = { λ s. record { password = s.password; kept = s.body.items; brief = brief_of s } };

    ghost invariant = { ScannerIsInRange };
}

impl Scanner {
    /// Starts before logon. With a password only the logon with it counts, and without one every logon.
    pub fn new(password: Option<[u8; PASSWORD_SIZE]>) -> Scanner
        ensures password { result.password ≡ password }
        ensures stands { ScannerStandsFor BeforeLogon result [] [] }
    {
        Scanner {
            password,
            place: Place::InLine,
            line: ArrayVec::new(),
            body: ArrayVec::new(),
            size: 0,
            total: 0,
            trailer: ArrayVec::new(),
        }
    }

    /// Starts after logon.
    pub fn blocks() -> Scanner
        ensures password { result.password ≡ None }
        ensures stands { ScannerStandsFor AfterLogon result [] [] }
    {
        Scanner {
            password: None,
            place: Place::Between,
            line: ArrayVec::new(),
            body: ArrayVec::new(),
            size: 0,
            total: 0,
            trailer: ArrayVec::new(),
        }
    }

    /// Takes the character of a byte, and answers the item that it completes, None exactly where it completes none.
    ///
    /// Whatever was fed before: where the scanner stands for those characters, it now stands for them and this one, and the items
    /// of the longer list are those before it and this answer. Where the answer is a block, `body` lends the front of its body.
    pub fn feed(&mut self, byte: u8) -> Option<Item>
        ensures password { self.new.password ≡ self.old.password }
        ensures reads { (from : Mode) (x : List ℕ) (items : List Entry) → ScannerStandsFor from self.old x items → ReadsOn from self.new x items (char_of byte) result }
    {
        self.step(byte % 128)
    }

    /// Directly after a block: the first 250 characters of its body. At any other time at most 250 characters.
    pub fn body(&self) -> &[u8]
        ensures value { result.now ≡ self.now.kept }
        ensures fits { length result.now ≤ LONGEST_BODY }
    {
        self.body.as_slice()
    }

    /// Takes a character.
    fn step(&mut self, c: u8) -> Option<Item>
        requires { c < 128 }
        ensures held { self.new ≡ (scanner_step self.old c).held }
        ensures answer { result ≡ (scanner_step self.old c).answer }
    {
        match self.place {
            Place::InLine => self.step_line(c),
            Place::AfterEot if c == CR => {
                self.place = Place::Between;
                Some(Item::Bye)
            }
            Place::Between | Place::AfterEot => {
                self.begin_item(c);
                None
            }
            Place::InBody => {
                self.step_body(c);
                None
            }
            Place::InTrailer(end) => self.step_trailer(c, end),
        }
    }

    /// A character that is no part of what was read before it.
    fn begin_item(&mut self, c: u8)
        ensures { self.new ≡ begin_item self.old c }
    {
        if c == STX {
            self.body.clear();
            self.size = 0;
            self.total = u32::from(STX);
            self.place = Place::InBody;
        } else if c == EOT {
            self.place = Place::AfterEot;
        } else {
            self.place = Place::Between;
        }
    }

    /// The next character of a line.
    fn step_line(&mut self, c: u8) -> Option<Item>
        requires { c < 128 }
        ensures held { (l : List ℕ) → self.old.brief ≡ in_line l → self.new ≡ (step_by self.old (in_line l) c).held }
        ensures answer { (l : List ℕ) → self.old.brief ≡ in_line l → result ≡ (step_by self.old (in_line l) c).answer }
    {
        if c != CR {
            if c != LF {
                push_within(&mut self.line, c);
            }
            return None;
        }
        let item = line_item(&self.password, self.line.as_slice());
        if item == Item::Logon {
            self.place = Place::Between;
        }
        self.line.clear();
        Some(item)
    }

    /// The next character of a body.
    fn step_body(&mut self, c: u8)
        requires { c < 128 }
        ensures { (size total : ℕ) → self.old.brief ≡ in_body size total → self.new ≡ (step_by self.old (in_body size total) c).held }
    {
        match c {
            STX => self.begin_item(c),
            ETX => self.end_body(End::Etx, c),
            ETB => self.end_body(End::Etb, c),
            US => self.end_body(End::Us, c),
            _ => {
                push_within(&mut self.body, c);
                if self.size < TOO_LONG {
                    self.size += 1;
                }
                self.total = (self.total + u32::from(c)) % SUMS;
            }
        }
    }

    /// The end of a body.
    fn end_body(&mut self, end: End, c: u8)
        requires { c ≡ end_char end }
        ensures { (size total : ℕ) → self.old.brief ≡ in_body size total → self.new ≡ end_body self.old size total end }
    {
        self.total = (self.total + u32::from(c)) % SUMS;
        self.trailer.clear();
        self.place = Place::InTrailer(end);
    }

    /// The next character of a trailer.
    fn step_trailer(&mut self, c: u8, end: End) -> Option<Item>
        ensures held { (size total : ℕ) (t : List ℕ) → self.old.brief ≡ in_trailer size total end t → self.new ≡ (step_by self.old (in_trailer size total end t) c).held }
        ensures answer { (size total : ℕ) (t : List ℕ) → self.old.brief ≡ in_trailer size total end t → result ≡ (step_by self.old (in_trailer size total end t) c).answer }
    {
        let is_whole = c == CR || self.trailer.len() + 1 == TRAILER;
        self.trailer.push(c);
        if !is_whole {
            return None;
        }
        let sum_ok = is_right(self.trailer.as_slice(), self.total);
        self.trailer.clear();
        self.place = Place::Between;
        Some(Item::Block {
            end,
            sum_ok,
            length: self.size,
        })
    }
}

/// Whether a trailer is this sum and CR.
fn is_right(trailer: &[u8], total: u32) -> bool
    requires { total < SUMS }
    ensures { result ≡ pointwise nat_eq trailer.now (written total ++ cr ∷ []) }
{
    let [high, middle, low] = sum_written(total);
    trailer == [high, middle, low, CR].as_slice()
}

/// The item of a line without LF and CR.
fn line_item(password: &Option<[u8; PASSWORD_SIZE]>, line: &[u8]) -> Item
    ensures { result ≡ answer_of (line_item password.now line.now) }
{
    match line {
        [] => Item::EmptyLine,
        [ESC, b'P', b'G', b'1', word @ ..] if is_password(password, word) => Item::Logon,
        _ => Item::WrongLine,
    }
}

/// Whether this is the password, or where there is none, whether it is none or has six characters.
fn is_password(password: &Option<[u8; PASSWORD_SIZE]>, word: &[u8]) -> bool
    ensures { result ≡ is_password_word password.now word.now }
{
    match password {
        None => word.is_empty() || word.len() == PASSWORD_SIZE,
        Some(password) => word.len() == PASSWORD_SIZE && word == password.as_slice(),
    }
}
