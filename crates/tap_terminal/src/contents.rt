//! The judgement of a whole content: docs/profile.md, "judgement", from the form of the content on.

ghost use Rattle.std.specs.Prelude.{◌≤◌, length};
ghost use Rattle.tap_terminal.specs.Verdict.{judge_content, text_for};
ghost use Rattle.subscribers.specs.Directory.{directory_of};
ghost use Rattle.tap_terminal.specs.State.{IsVerdictDone};

use crate::answers::{Answer, Judgement, Reason, refused};
use crate::terminal::LONGEST_CONTENT;
use page_pool::Pool;
use page_text::fits;
use subscribers::Settings;
use tap_block::{fields, unescape};

/// Room for the values of the two fields of a content. A terminal makes it once, so that no block costs the blanking of it.
#[derive(Drop)]
pub(crate) struct Values {
    id: [u8; LONGEST_CONTENT],
    text: [u8; LONGEST_CONTENT],
}

impl Values {
    /// Room that is blank.
    pub(crate) fn new() -> Values {
        Values {
            id: [0; LONGEST_CONTENT],
            text: [0; LONGEST_CONTENT],
        }
    }
}

/// Answers a whole content, and queues its pages. What stood in the room for values before doesn't matter.
pub(crate) fn judge_content(
    content: &[u8],
    values: &mut Values,
    settings: &Settings,
    pool: &mut Pool,
) -> Judgement
    requires { length content.now ≤ LONGEST_CONTENT }
    ensures done { IsVerdictDone (judge_content (directory_of settings.now) pool.old.spare content.now) result pool.old pool.new }
    ensures few { result.pages ≤ 16 }
{
    let Some((first, second)) = fields(content) else {
        return refused(Reason::Form);
    };
    let Ok(id_length) = unescape(first, &mut values.id) else {
        return refused(Reason::Form);
    };
    let Ok(text_length) = unescape(second, &mut values.text) else {
        return refused(Reason::Form);
    };
    queue(
        &values.id[..id_length],
        &values.text[..text_length],
        settings,
        pool,
    )
}

/// Answers the values of two fields, an id and a text, and queues their pages.
fn queue(id: &[u8], text: &[u8], settings: &Settings, pool: &mut Pool) -> Judgement
    ensures done { IsVerdictDone (text_for (directory_of settings.now id.now) text.now pool.old.spare) result pool.old pool.new }
    ensures few { result.pages ≤ 16 }
{
    let Some(target) = settings.find(id) else {
        return refused(Reason::Unknown);
    };
    match fits(target.function(), text) {
        Err(_) => refused(Reason::Text),
        Ok(()) => match pool.put_all(target.capcodes(), target.function(), text) {
            Ok(()) => Judgement {
                answer: Answer::Ack,
                pages: target.count() as u32,
            },
            Err(_) => refused(Reason::Room),
        },
    }
}
