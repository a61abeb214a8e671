//! The verbs of the commands.

ghost use Rattle.std.specs.Prelude.{◌≡◌};
ghost use Rattle.snpp_entry.specs.Rows.{is_word, verb_of};

/// The verb of a line.
#[derive(Clone, Copy, Debug, PartialEq, Eq)]
pub(crate) enum Verb {
    /// PAGE or PAGER.
    Page,
    /// MESS or MESSAGE.
    Mess,
    /// RESE or RESET.
    Rese,
    /// SEND.
    Send,
    /// QUIT.
    Quit,
    /// Any other word.
    Other,
}

/// Whether a word is this one, read without regard to case.
fn is_word(word: &[u8], other: &[u8]) -> bool
    ensures { result ≡ is_word word.now other.now }
{
    word.eq_ignore_ascii_case(other)
}

/// The verb that a word is.
pub(crate) fn verb_of(word: &[u8]) -> Verb
    ensures { result ≡ verb_of word.now }
{
    if is_word(word, b"PAGE") || is_word(word, b"PAGER") {
        Verb::Page
    } else if is_word(word, b"MESS") || is_word(word, b"MESSAGE") {
        Verb::Mess
    } else if is_word(word, b"RESE") || is_word(word, b"RESET") {
        Verb::Rese
    } else if is_word(word, b"SEND") {
        Verb::Send
    } else if is_word(word, b"QUIT") {
        Verb::Quit
    } else {
        Verb::Other
    }
}
