//! Answers, and the replies that say them.

ghost use Rattle.std.specs.Prelude.{◌≡◌};
ghost use Rattle.snpp_entry.specs.Replies.{snpp_reply, the_greeting};

/// What a character is answered.
#[derive(Clone, Copy, Debug, PartialEq, Eq)]
pub enum SnppAnswer {
    /// Nothing is said: the character ends no line, or the session has ended.
    Nothing,
    /// The line is taken.
    Ok,
    /// The session has ended.
    Bye,
    /// The session is too long, and has ended.
    TooLong,
    /// The line is no command, or is too long.
    Command,
    /// An id or a text is pending already.
    Twice,
    /// No id is pending, or no text for it.
    Missing,
    /// The id is no subscriber's.
    Pager,
    /// The text doesn't fit the id's function. Nothing is pending any more.
    Text,
    /// The pages need more cells than are spare. Nothing is pending any more.
    Room,
}

/// The bytes of an answer, and none for Nothing.
pub fn reply(answer: SnppAnswer) -> &'static [u8]
    ensures { result.now ≡ snpp_reply answer }
{
    match answer {
        SnppAnswer::Nothing => b"",
        SnppAnswer::Ok => b"250 OK\r\n",
        SnppAnswer::Bye => b"221 bye\r\n",
        SnppAnswer::TooLong => b"421 too long\r\n",
        SnppAnswer::Command => b"500 command\r\n",
        SnppAnswer::Twice => b"503 already entered\r\n",
        SnppAnswer::Missing => b"503 incomplete\r\n",
        SnppAnswer::Pager => b"550 pager\r\n",
        SnppAnswer::Text => b"554 text\r\n",
        SnppAnswer::Room => b"554 room\r\n",
    }
}

/// What is said before the first line is heard.
pub fn greeting() -> &'static [u8]
    ensures { result.now ≡ the_greeting }
{
    b"220 pocsag\r\n"
}
