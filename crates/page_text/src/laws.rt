//! What the definitions say, whatever the text.

ghost use Rattle.std.specs.Prelude.{◌≡◌, ℕ, ◌≤◌, ◌↔◌, List, length, true};
ghost use Rattle.codeword.specs.declared.functions.Function.{Function};
ghost use Rattle.page_text.specs.Fits.{Fits};
ghost use Rattle.page_text.specs.FitTest.{fits};
ghost use Rattle.page_text.specs.Groups.{groups};
ghost use Rattle.page_text.specs.Texts.{text_of};

use crate::limits::MOST_GROUPS;

/// A text that fits is read back from its groups, which are at most `MOST_GROUPS`.
pub fn back()
    ensures text { (function : Function) (text : List ℕ) → Fits function text → text_of function (groups function text) ≡ text }
    ensures few { (function : Function) (text : List ℕ) → Fits function text → length (groups function text) ≤ MOST_GROUPS }
{}

/// The test of a text passes exactly those that fit.
pub fn fit_test()
    ensures { (function : Function) (text : List ℕ) → (fits function text ≡ true) ↔ Fits function text }
{}
