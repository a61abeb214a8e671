//! The groups of a text: docs/profile.md, "numeric text" and "alphanumeric text".

ghost use Rattle.std.specs.Prelude.{◌≡◌, ◌+◌, ◌*◌, ◌<◌, ◌≤◌, ◌^◌, ◌++◌, All, false, length, replicate, slice_index, slice_index_or};
ghost use Rattle.bits.specs.Bits.{bit_value};
ghost use Rattle.page_text.specs.Coding.{HasCode, fill_of, text_codes, width_of};
ghost use Rattle.page_text.specs.Fits.{Fits};
ghost use Rattle.page_text.specs.Groups.{HasGroups, code_bits, group_count, groups, groups_of};

use crate::coding::Coding;
use crate::limits::{LONGEST_TEXT, MOST_GROUPS};
use codeword::Function;

/// How many bits of a text a message codeword carries (M.584-2).
pub(crate) const GROUP_BITS: usize = 20;

/// How many groups a text of this length has: as many message words follow the address word. None for a tone.
pub fn word_count(function: Function, length: usize) -> usize
    requires { length ≤ LONGEST_TEXT }
    ensures groups { HasGroups function length result }
    ensures few { result ≤ MOST_GROUPS }
{
    match function {
        Function::Numeric => count(Coding::Numeric, length),
        Function::Tone1 | Function::Tone2 => 0,
        Function::Alpha => count(Coding::Alphanumeric, length),
    }
}

/// Group `k` of a text that fits, counted from 0. Its first bit is its most significant one.
pub fn group(function: Function, text: &[u8], k: usize) -> u32
    requires fits { Fits function text.now }
    requires within { k < length (groups function text.now) }
    ensures value { result ≡ slice_index (groups function text.now) k }
    ensures small { result < 2 ^ 20 }
{
    match function {
        Function::Numeric => packed(Coding::Numeric, text, k),
        // A tone has no group.
        Function::Tone1 | Function::Tone2 => 0,
        Function::Alpha => packed(Coding::Alphanumeric, text, k),
    }
}

/// How many groups so many characters need.
fn count(coding: Coding, length: usize) -> usize
    requires { length ≤ LONGEST_TEXT }
    ensures { result ≡ group_count (width_of coding) length }
{
    (coding.width() * length).div_ceil(GROUP_BITS)
}

/// Group `k` of a text of coded characters.
fn packed(coding: Coding, text: &[u8], k: usize) -> u32
    requires short { length text.now ≤ LONGEST_TEXT }
    requires coded { All (HasCode coding) text.now }
    requires within { k < group_count (width_of coding) (length text.now) }
    ensures value { result ≡ slice_index (groups_of (width_of coding) (fill_of coding) (text_codes coding text.now)) k }
    ensures small { result < 2 ^ 20 }
{
    let mut group = 0;
    for i in 0..GROUP_BITS {
        group = group * 2 + bit(coding, text, GROUP_BITS * k + i);
    }
    group
}

/// One bit of a text, its characters run together, each one's least significant bit first. Fill follows the text.
fn bit(coding: Coding, text: &[u8], place: usize) -> u32
    requires coded { All (HasCode coding) text.now }
    requires within { place < (length text.now + 20) * width_of coding }
    ensures { result ≡ bit_value (slice_index_or (code_bits (width_of coding) (text_codes coding text.now ++ replicate 20 (fill_of coding))) place false) }
{
    let width = coding.width();
    u32::from((coding.code_at(text, place / width) >> (place % width)) & 1)
}
