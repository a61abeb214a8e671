//! Which texts fit a function: docs/profile.md, "functions".

ghost use Rattle.std.specs.Prelude.{◌≡◌, ◌↔◌, All, Contains, IsOk, IsTrue};
ghost use Rattle.codeword.specs.declared.functions.Function.TheVariants.{Numeric, Alpha};
ghost use Rattle.page_text.specs.declared.faults.TextFault.{TextFault as Fault};
ghost use Rattle.page_text.specs.Faults.{IsFirstFault, IsJudged};
ghost use Rattle.page_text.specs.Fits.{Fits, IsAlpha};
ghost use Rattle.page_text.specs.Groups.{numeric_characters};

use crate::coding::NUMERIC_CHARACTERS;
use crate::faults::TextFault;
use crate::limits::{LONGEST_NUMERIC, LONGEST_TEXT};
use codeword::Function;

/// Whether a text fits a function, and if not, the first of the faults: `NotEmpty`, `TooLong`, `Alphabet`, `EndsInSpace`.
pub fn fits(function: Function, text: &[u8]) -> Result<(), TextFault>
    ensures fits { IsOk result ↔ Fits function text.now }
    ensures faults { (fault : Fault) → (result ≡ Err fault) ↔ IsFirstFault function text.now fault }
{
    judge(function, text)
}

/// The same, as one fact for each answer.
fn judge(function: Function, text: &[u8]) -> Result<(), TextFault>
    ensures { IsJudged function text.now result }
{
    match function {
        Function::Numeric => judge_numeric(text),
        Function::Tone1 | Function::Tone2 => {
            if text.is_empty() {
                Ok(())
            } else {
                Err(TextFault::NotEmpty)
            }
        }
        Function::Alpha => judge_alpha(text),
    }
}

/// Judges a numeric text.
fn judge_numeric(text: &[u8]) -> Result<(), TextFault>
    ensures { IsJudged Numeric text.now result }
{
    if text.len() > LONGEST_NUMERIC {
        Err(TextFault::TooLong)
    } else if !are_numeric(text) {
        Err(TextFault::Alphabet)
    } else if text.last() == Some(&b' ') {
        Err(TextFault::EndsInSpace)
    } else {
        Ok(())
    }
}

/// Judges an alphanumeric text.
fn judge_alpha(text: &[u8]) -> Result<(), TextFault>
    ensures { IsJudged Alpha text.now result }
{
    if text.len() > LONGEST_TEXT {
        Err(TextFault::TooLong)
    } else if !are_alpha(text) {
        Err(TextFault::Alphabet)
    } else {
        Ok(())
    }
}

/// Whether all characters are numeric.
fn are_numeric(text: &[u8]) -> bool
    ensures { IsTrue result ↔ All (Contains numeric_characters) text.now }
{
    for c in text {
        if !is_numeric(*c) {
            return false;
        }
    }
    true
}

/// Whether all characters may stand in an alphanumeric text.
fn are_alpha(text: &[u8]) -> bool
    ensures { IsTrue result ↔ All IsAlpha text.now }
{
    for c in text {
        if !is_alpha(*c) {
            return false;
        }
    }
    true
}

/// Whether a character is one of the sixteen numeric ones.
fn is_numeric(c: u8) -> bool
    ensures { IsTrue result ↔ Contains numeric_characters c }
{
    NUMERIC_CHARACTERS.contains(&c)
}

/// Whether a character may stand in an alphanumeric text: 0x20 to 0x7E, CR or LF.
fn is_alpha(c: u8) -> bool
    ensures { IsTrue result ↔ IsAlpha c }
{
    matches!(c, 0x20..=0x7E | b'\r' | b'\n')
}
