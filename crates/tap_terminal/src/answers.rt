//! Answers, and the replies that say them.

ghost use Rattle.std.specs.Prelude.{◌≡◌};
ghost use Rattle.tap_terminal.specs.Replies.{reply_of};

/// Why a transaction is refused: docs/profile.md, "judgement".
#[derive(Clone, Copy, Debug, PartialEq, Eq)]
pub enum Reason {
    /// A body has more than 250 characters.
    Body,
    /// The content has more than 2,200 characters.
    Content,
    /// The content has no two fields with a value.
    Form,
    /// The value of the first field is the id of no subscriber and no group.
    Unknown,
    /// The value of the second field doesn't fit the id's function.
    Text,
    /// The text needs more cells for all capcodes of the id than are spare.
    Room,
}

/// What a character is answered: docs/profile.md, "session" and "judgement".
#[derive(Clone, Copy, Debug, PartialEq, Eq)]
pub enum Answer {
    /// Nothing is said: the character completes no item, or the session has ended.
    Nothing,
    /// An empty line came. The logon is wanted.
    Id,
    /// A logon came. Blocks are wanted.
    Go,
    /// A block is taken. A page for each capcode of its id is queued, or the transaction goes on.
    Ack,
    /// The trailer of a block is wrong, or a line is. It may be sent again.
    Nak,
    /// The transaction is refused, and no page comes of it.
    Rs(Reason),
    /// The session has ended.
    End,
}

/// An answer, and how many pages were queued with it, from 0 to 16.
#[derive(Clone, Copy, Debug, PartialEq, Eq)]
pub(crate) struct Judgement {
    pub(crate) answer: Answer,
    pub(crate) pages: u32,
}

/// An answer without pages.
pub(crate) fn without_pages(answer: Answer) -> Judgement
    ensures answer { result.answer ≡ answer }
    ensures pages { result.pages ≡ 0 }
{
    Judgement { answer, pages: 0 }
}

/// The transaction is refused.
pub(crate) fn refused(reason: Reason) -> Judgement
    ensures answer { result.answer ≡ Answer.Rs reason }
    ensures pages { result.pages ≡ 0 }
{
    without_pages(Answer::Rs(reason))
}

/// The bytes of an answer, and none for Nothing: docs/profile.md, "replies".
pub fn reply(answer: Answer) -> &'static [u8]
    ensures { result.now ≡ reply_of answer }
{
    match answer {
        Answer::Nothing => b"",
        Answer::Id => b"ID=",
        Answer::Go => b"\x06\r\x1B[p\r",
        Answer::Ack => b"\x06\r",
        Answer::Nak => b"\x15\r",
        Answer::Rs(_) => b"\x1E\r",
        Answer::End => b"\x1B\x04\r",
    }
}
