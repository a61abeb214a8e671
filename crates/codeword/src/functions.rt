//! The function of a page: M.584-2, the function bits of an address word.

ghost use Rattle.std.specs.Prelude.{◌≡◌, ◌<◌, ◌^◌};

/// The function of a page: what its text is, or which tone it sounds.
#[derive(Clone, Copy, Debug, PartialEq, Eq)]
pub enum Function {
    /// A numeric text.
    Numeric,
    /// No text, tone 1.
    Tone1,
    /// No text, tone 2.
    Tone2,
    /// An alphanumeric text.
    Alpha,
}

impl Function {
    ghost use Rattle.codeword.specs.Functions.{letter_of, number_of};
    ghost use Rattle.codeword.specs.Kinds.{function_of};

    /// The function with this number, from 0 to 3.
    pub(crate) fn with_number(number: u32) -> Function
        requires { number < 2 ^ 2 }
        ensures { result ≡ function_of number }
    {
        match number {
            0 => Function::Numeric,
            1 => Function::Tone1,
            2 => Function::Tone2,
            _ => Function::Alpha,
        }
    }

    /// The number in bits 20 and 21 of the address word, from 0 to 3.
    pub fn number(self) -> u32
        ensures { result ≡ number_of self }
    {
        match self {
            Function::Numeric => 0,
            Function::Tone1 => 1,
            Function::Tone2 => 2,
            Function::Alpha => 3,
        }
    }

    /// The letter of the function in printed lines.
    pub fn letter(self) -> u8
        ensures { result ≡ letter_of self }
    {
        match self {
            Function::Numeric => b'N',
            Function::Tone1 => b'1',
            Function::Tone2 => b'2',
            Function::Alpha => b'A',
        }
    }
}
