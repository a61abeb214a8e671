//! A text read back from its groups: docs/profile.md, "numeric text" and "alphanumeric text".

ghost use Rattle.std.specs.Prelude.{◌≡◌, ◌↔◌, ◌+◌, ◌*◌, ◌/◌, ◌<◌, ◌≤◌, ◌^◌, [], ◌∷◌, ◌++◌, IsFalse, IsTrue, false, length, slice_index, slice_index_or, take};
ghost use Rattle.bits.specs.Bits.{bit_value};
ghost use Rattle.page_text.specs.Coding.{blank_of, characters_of, width_of};
ghost use Rattle.page_text.specs.Texts.{codes_of, group_bits, rising_number, stripped, text_of};

use crate::coding::Coding;
use crate::limits::{LONGEST_READ, MOST_GROUPS};
use crate::packing::GROUP_BITS;
use arrayvec::ArrayVec;
use codeword::Function;
use std::marker::Model;

/// The groups of a page that were read so far, from which its text is read back.
#[derive(Drop)]
pub struct TextReader {
    groups: ArrayVec<u32, MOST_GROUPS>,
}

impl Model for TextReader {
    ghost use Rattle.std.specs.Prelude.{ℕ, List};

    ghost Value = { List ℕ };

    ghost view = { λ r. r.groups.items };
}

impl TextReader {
    /// Holds no group.
    pub fn new() -> TextReader
        ensures { result ≡ [] }
    {
        TextReader {
            groups: ArrayVec::new(),
        }
    }

    /// Drops the groups.
    pub fn start(&mut self)
        ensures { self.new ≡ [] }
    {
        self.groups.clear();
    }

    /// Adds a group of 20 bits. False, and nothing is changed, exactly where `MOST_GROUPS` are held.
    pub fn push(&mut self, group: u32) -> bool
        requires { group < 2 ^ 20 }
        ensures full { IsTrue result ↔ (length self.old < MOST_GROUPS) }
        ensures added { IsTrue result → self.new ≡ self.old ++ group ∷ [] }
        ensures kept { IsFalse result → self.new ≡ self.old }
        ensures few { length self.new ≤ MOST_GROUPS }
    {
        let has_room = !self.groups.is_full();
        if has_room {
            self.groups.push(group);
        }
        has_room
    }

    /// Writes the text of the groups to the front of `into`, which has at least `LONGEST_READ` bytes, and answers its length. Spaces at the
    /// end of a numeric text and zeros at the end of an alphanumeric one are dropped. A tone has an empty text, whatever the
    /// groups. What stands behind the text in `into` is open.
    pub fn text(&self, function: Function, into: &mut [u8]) -> usize
        requires { LONGEST_READ ≤ length into.old }
        ensures text { take result into.new ≡ text_of function self.now }
        ensures length { result ≡ length (text_of function self.now) }
        ensures few { result ≤ LONGEST_READ }
    {
        match function {
            Function::Numeric => spell(Coding::Numeric, &self.groups, into),
            Function::Tone1 | Function::Tone2 => 0,
            Function::Alpha => spell(Coding::Alphanumeric, &self.groups, into),
        }
    }
}

/// Writes the characters of groups to the front of `into`, and answers how many there are without the blanks at the end.
fn spell(coding: Coding, groups: &[u32], into: &mut [u8]) -> usize
    requires few { length groups.now ≤ MOST_GROUPS }
    requires room { LONGEST_READ ≤ length into.old }
    ensures text { take result into.new ≡ stripped (blank_of coding) (characters_of coding (codes_of (width_of coding) groups.now)) }
    ensures few { result ≤ LONGEST_READ }
{
    let width = coding.width();
    let count = GROUP_BITS * groups.len() / width;
    for k in 0..count {
        into[k] = coding.character(code(groups, width, k));
    }
    without_blanks(&into[..count], coding.blank())
}

/// How many characters are left without the blanks at the end.
fn without_blanks(text: &[u8], blank: u8) -> usize
    ensures text { take result text.now ≡ stripped blank text.now }
    ensures within { result ≤ length text.now }
{
    let mut left = text.len();
    while left > 0 && text[left - 1] == blank {
        left -= 1;
    }
    left
}

/// Code `k` of the groups, counted from 0, of this many bits. Its first bit is its least significant one.
fn code(groups: &[u32], width: usize, k: usize) -> u8
    requires width { (4 ≤ width) × (width ≤ 7) }
    requires few { length groups.now ≤ MOST_GROUPS }
    requires within { k < 20 * length groups.now / width }
    ensures value { result ≡ slice_index (codes_of width groups.now) k }
    ensures small { result < 2 ^ width }
{
    let mut code = 0;
    let mut i = width;
    while i > 0 {
        i -= 1;
        code = code * 2 + bit(groups, width * k + i);
    }
    code
}

/// One bit of groups run together, each one's most significant bit first.
fn bit(groups: &[u32], place: usize) -> u8
    requires { place < 20 * length groups.now }
    ensures { result ≡ bit_value (slice_index_or (group_bits groups.now) place false) }
{
    ((groups[place / GROUP_BITS] >> (GROUP_BITS - 1 - place % GROUP_BITS)) & 1) as u8
}
