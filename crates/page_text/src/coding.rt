//! How the characters of a text are coded in bits: docs/profile.md, "numeric text" and "alphanumeric text".

ghost use Rattle.std.specs.Prelude.{◌≡◌, Contains};
ghost use Rattle.page_text.specs.Groups.{numeric_characters, numeric_code as numeric_code_of};

/// The numeric characters, in the order of their codes 0 to 15 (M.584-2, numeric message format).
pub(crate) const NUMERIC_CHARACTERS: [u8; 16] = *b"0123456789*U -][";

/// How the characters of a text are coded in bits.
#[derive(Clone, Copy)]
pub(crate) enum Coding {
    /// Four bits a character.
    Numeric,
    /// Seven bits a character.
    Alphanumeric,
}

impl Coding {
    ghost use Rattle.std.specs.Prelude.{◌≡◌, ◌<◌, ◌≤◌, ◌^◌, All, slice_index_or};
    ghost use Rattle.page_text.specs.Coding.{HasCode, blank_of, character_of, code_of, fill_of, text_codes, width_of};

    /// How many bits a character has.
    pub(crate) fn width(self) -> usize
        ensures value { result ≡ width_of self }
        ensures few { (4 ≤ result) × (result ≤ 7) }
    {
        match self {
            Coding::Numeric => 4,
            Coding::Alphanumeric => 7,
        }
    }

    /// The code that a text's last group is filled with.
    pub(crate) fn fill(self) -> u8
        ensures { result ≡ fill_of self }
    {
        match self {
            Coding::Numeric => 12,
            Coding::Alphanumeric => 0,
        }
    }

    /// The character of that code, which texts lose at their end.
    pub(crate) fn blank(self) -> u8
        ensures { result ≡ blank_of self }
    {
        match self {
            Coding::Numeric => b' ',
            Coding::Alphanumeric => 0,
        }
    }

    /// The code of a character.
    pub(crate) fn code(self, character: u8) -> u8
        requires { HasCode self character }
        ensures { result ≡ code_of self character }
    {
        match self {
            Coding::Numeric => numeric_code(character),
            Coding::Alphanumeric => character,
        }
    }

    /// The code at a place of a text, and behind the text the fill.
    pub(crate) fn code_at(self, text: &[u8], at: usize) -> u8
        requires { All (HasCode self) text.now }
        ensures { result ≡ slice_index_or (text_codes self text.now) at (fill_of self) }
    {
        match text.get(at) {
            Some(character) => self.code(*character),
            None => self.fill(),
        }
    }

    /// The character of a code.
    pub(crate) fn character(self, code: u8) -> u8
        requires { code < 2 ^ width_of self }
        ensures { result ≡ character_of self code }
    {
        match self {
            Coding::Numeric => NUMERIC_CHARACTERS[usize::from(code)],
            Coding::Alphanumeric => code,
        }
    }
}

/// The code of a numeric character.
fn numeric_code(character: u8) -> u8
    requires { Contains numeric_characters character }
    ensures { result ≡ numeric_code_of character }
{
    match character {
        b'0'..=b'9' => character - b'0',
        b'*' => 10,
        b'U' => 11,
        b' ' => 12,
        b'-' => 13,
        b']' => 14,
        _ => 15,
    }
}
