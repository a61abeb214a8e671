//! A plain program beside the terminal, which it is compared with: it reads a whole session at once, looks as far ahead as it likes,
//! counts each sum anew, and keeps pages as a list.

use crate::answers::{Answer, Reason};
use codeword::Function;
use page_text::fits;
use std::alloc::{AllocError, Global};
use subscribers::Settings;
use tap_block::{End, fields, unescape};

/// A page that was queued: its capcode, its function, its text.
#[derive(Debug, PartialEq, Drop)]
pub(crate) struct Queued {
    pub(crate) capcode: u32,
    pub(crate) function: Function,
    pub(crate) text: Vec<u8>,
}

/// What comes of a session.
#[derive(Debug, Drop)]
pub(crate) struct Outcome {
    pub(crate) answers: Vec<Answer>,
    pub(crate) pages: Vec<Queued>,
}

/// A block: its body, its end, and whether its trailer is right.
#[derive(Clone, Copy)]
struct TapBlock<'a> {
    body: &'a [u8],
    end: End,
    is_right: bool,
}

/// The session of these characters without a password, in a pool with so many cells.
pub(crate) fn played(
    alloc: Global,
    settings: &Settings,
    cells: u32,
    chars: &[u8],
) -> Result<Outcome, AllocError> {
    let mut played = Outcome {
        answers: Vec::new(alloc),
        pages: Vec::new(alloc),
    };
    if let Some(rest) = log_on(alloc, chars, &mut played.answers)? {
        take_blocks(alloc, settings, cells, rest, &mut played)?;
    }
    Ok(played)
}

/// Answers the lines up to a logon. None where the session ends before one.
fn log_on<'a>(
    alloc: Global,
    chars: &'a [u8],
    answers: &mut Vec<Answer>,
) -> Result<Option<&'a [u8]>, AllocError> {
    let mut rest = chars;
    let mut wrong = 0u8;
    for _ in chars {
        let Some(size) = rest.iter().position(|c| *c == b'\r') else {
            return Ok(None);
        };
        let (line, behind) = rest.split_at(size);
        rest = match behind {
            [_, behind @ ..] => behind,
            [] => &[],
        };
        let mut word = Vec::new(alloc);
        for c in line {
            if *c != b'\n' {
                word.push(*c)?;
            }
        }
        match word.as_slice() {
            [] => answers.push(Answer::Id)?,
            [0x1B, b'P', b'G', b'1', password @ ..] if password.is_empty() || password.len() == 6 =>
                {
                    answers.push(Answer::Go)?;
                    return Ok(Some(rest));
                }
            _ => {
                wrong = wrong.wrapping_add(1);
                answers.push(if wrong == 3 { Answer::End } else { Answer::Nak })?;
                if wrong == 3 {
                    return Ok(None);
                }
            }
        }
    }
    Ok(None)
}

/// Answers blocks up to a goodbye.
fn take_blocks(
    alloc: Global,
    settings: &Settings,
    cells: u32,
    chars: &[u8],
    played: &mut Outcome,
) -> Result<(), AllocError> {
    let mut rest = chars;
    let mut content = Vec::new(alloc);
    let mut spare = cells;
    for _ in chars {
        match rest {
            [] => return Ok(()),
            [0x04, b'\r', ..] => {
                played.answers.push(Answer::End)?;
                return Ok(());
            }
            [0x02, behind @ ..] => match block(behind) {
                None => rest = behind,
                Some((block, behind)) => {
                    let answer = judge(
                        alloc,
                        settings,
                        block,
                        &mut content,
                        &mut spare,
                        &mut played.pages,
                    )?;
                    played.answers.push(answer)?;
                    rest = behind;
                }
            },
            [_, behind @ ..] => rest = behind,
        }
    }
    Ok(())
}

/// The block whose body begins here, and what is behind it. None where the list ends in it, or an STX drops it.
fn block(rest: &[u8]) -> Option<(TapBlock<'_>, &[u8])> {
    let size = rest
        .iter()
        .position(|c| matches!(*c, 0x02 | 0x03 | 0x17 | 0x1F))?;
    let (body, behind) = rest.split_at(size);
    let (end, character, behind) = match behind {
        [0x03, behind @ ..] => (End::Etx, 0x03u8, behind),
        [0x17, behind @ ..] => (End::Etb, 0x17, behind),
        [0x1F, behind @ ..] => (End::Us, 0x1F, behind),
        _ => return None,
    };
    let wanted = match behind {
        [b'\r', ..] => 1,
        [_, b'\r', ..] => 2,
        [_, _, b'\r', ..] => 3,
        _ => 4,
    };
    if behind.len() < wanted {
        return None;
    }
    let (trailer, behind) = behind.split_at(wanted);
    let mut total = 2 + u32::from(character);
    for c in body {
        total = total.wrapping_add(u32::from(*c));
    }
    let right = [
        0x30 + (total >> 8 & 15) as u8,
        0x30 + (total >> 4 & 15) as u8,
        0x30 + (total & 15) as u8,
        b'\r',
    ];
    let is_right = trailer == right.as_slice();
    Some((
        TapBlock {
            body,
            end,
            is_right,
        },
        behind,
    ))
}

/// Answers a block.
fn judge(
    alloc: Global,
    settings: &Settings,
    block: TapBlock<'_>,
    content: &mut Vec<u8>,
    spare: &mut u32,
    pages: &mut Vec<Queued>,
) -> Result<Answer, AllocError> {
    if !block.is_right {
        return Ok(Answer::Nak);
    }
    let mut joined = content.as_slice().to_vec(alloc)?;
    joined.extend_from_slice(block.body)?;
    *content = Vec::new(alloc);
    if block.body.len() > 250 {
        return Ok(Answer::Rs(Reason::Body));
    }
    if joined.len() > 2_200 {
        return Ok(Answer::Rs(Reason::Content));
    }
    if block.end != End::Etx {
        *content = joined;
        return Ok(Answer::Ack);
    }
    queue(alloc, settings, joined.as_slice(), spare, pages)
}

/// Answers a whole content, and queues its pages.
fn queue(
    alloc: Global,
    settings: &Settings,
    content: &[u8],
    spare: &mut u32,
    pages: &mut Vec<Queued>,
) -> Result<Answer, AllocError> {
    let Some((first, second)) = fields(content) else {
        return Ok(Answer::Rs(Reason::Form));
    };
    let (Some(id), Some(text)) = (value(alloc, first)?, value(alloc, second)?) else {
        return Ok(Answer::Rs(Reason::Form));
    };
    let Some(target) = settings.find(&id) else {
        return Ok(Answer::Rs(Reason::Unknown));
    };
    if fits(target.function(), &text).is_err() {
        return Ok(Answer::Rs(Reason::Text));
    }
    let cells = ((text.len() / 32 + (text.len() % 32).min(1)).max(1)) as u32;
    let Some(left) = left_after(*spare, cells, target.count()) else {
        return Ok(Answer::Rs(Reason::Room));
    };
    *spare = left;
    for capcode in target.capcodes() {
        pages.push(Queued {
            capcode: capcode.number(),
            function: target.function(),
            text: text.as_slice().to_vec(alloc)?,
        })?;
    }
    Ok(Answer::Ack)
}

/// The cells that are spare after so many pages of so many cells each. None where they have no room.
fn left_after(spare: u32, cells: u32, pages: usize) -> Option<u32> {
    let mut left = spare;
    for _ in 0..pages {
        left = left.checked_sub(cells)?;
    }
    Some(left)
}

/// The value of a field.
fn value(alloc: Global, field: &[u8]) -> Result<Option<Vec<u8>>, AllocError> {
    let mut room = Vec::from_slice(alloc, field)?;
    let Ok(size) = unescape(field, &mut room) else {
        return Ok(None);
    };
    if size > room.len() {
        return Ok(None);
    }
    Ok(Some(Vec::from_slice(alloc, &room[..size])?))
}
