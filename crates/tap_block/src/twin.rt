//! A plain program beside the scanner, which it is compared with: it reads a whole list of characters, looks as far ahead as it
//! likes, and counts each sum anew.

use crate::control::{EOT, ESC, ETB, ETX, STX, US};
use crate::ends::End;
use crate::items::Item;
use entry_line::characters::{CR, LF};
use std::alloc::{AllocError, Global};

/// An item and, of a block, the first 250 characters of its body.
#[derive(Debug, PartialEq, Drop)]
pub(crate) struct Found {
    pub(crate) item: Item,
    pub(crate) body: Vec<u8>,
}

/// What stands at the front of the list: its item, if it is one, the body of a block, and what is behind it.
#[derive(Clone, Copy)]
struct Front<'a> {
    item: Option<Item>,
    body: &'a [u8],
    behind: &'a [u8],
}

/// The items of a list of characters, from before logon on.
pub(crate) fn items(
    alloc: Global,
    password: Option<&[u8]>,
    chars: &[u8],
) -> Result<Vec<Found>, AllocError> {
    let mut found = Vec::new(alloc);
    let mut rest = chars;
    let mut is_logged_on = false;
    for _ in chars {
        let front = if is_logged_on {
            after_logon(rest)
        } else {
            before_logon(alloc, password, rest)?
        };
        let Some(front) = front else {
            return Ok(found);
        };
        if let Some(item) = front.item {
            is_logged_on = is_logged_on || item == Item::Logon;
            let body = front.body[..front.body.len().min(250)].to_vec(alloc)?;
            found.push(Found { item, body })?;
        }
        rest = front.behind;
    }
    Ok(found)
}

/// The first line.
fn before_logon<'a>(
    alloc: Global,
    password: Option<&[u8]>,
    rest: &'a [u8],
) -> Result<Option<Front<'a>>, AllocError> {
    let Some(end) = rest.iter().position(|c| *c == CR) else {
        return Ok(None);
    };
    let mut line = Vec::new(alloc);
    for c in &rest[..end] {
        if *c != LF {
            line.push(*c)?;
        }
    }
    Ok(Some(Front {
        item: Some(line_item(password, line.as_slice())),
        body: &[],
        behind: &rest[end + 1..],
    }))
}

/// The item of a line without LF.
fn line_item(password: Option<&[u8]>, line: &[u8]) -> Item {
    let [ESC, b'P', b'G', b'1', word @ ..] = line else {
        return if line.is_empty() {
            Item::EmptyLine
        } else {
            Item::WrongLine
        };
    };
    let counts = match password {
        Some(password) => word == password,
        None => word.len() == 0 || word.len() == 6,
    };
    if counts { Item::Logon } else { Item::WrongLine }
}

/// The first block, goodbye or skipped character.
fn after_logon(rest: &[u8]) -> Option<Front<'_>> {
    match rest {
        [] | [EOT] => None,
        [EOT, CR, behind @ ..] => Some(Front {
            item: Some(Item::Bye),
            body: &[],
            behind,
        }),
        [STX, behind @ ..] => block(behind),
        [_, behind @ ..] => Some(Front {
            item: None,
            body: &[],
            behind,
        }),
    }
}

/// The block whose body begins here.
fn block(rest: &[u8]) -> Option<Front<'_>> {
    let size = rest
        .iter()
        .position(|c| *c == STX || *c == ETX || *c == ETB || *c == US)?;
    let (body, behind) = rest.split_at(size);
    let (end, character, behind) = match behind {
        [ETX, behind @ ..] => (End::Etx, ETX, behind),
        [ETB, behind @ ..] => (End::Etb, ETB, behind),
        [US, behind @ ..] => (End::Us, US, behind),
        _ => {
            return Some(Front {
                item: None,
                body: &[],
                behind,
            });
        }
    };
    let wanted = trailer_size(behind);
    if behind.len() < wanted {
        return None;
    }
    let (trailer, behind) = behind.split_at(wanted);
    let item = Item::Block {
        end,
        sum_ok: trailer == right_trailer(body, character).as_slice(),
        length: if size > 250 { 251 } else { size as u32 },
    };
    Some(Front {
        item: Some(item),
        body,
        behind,
    })
}

/// How many characters the trailer has that begins here, or is to have.
fn trailer_size(rest: &[u8]) -> usize {
    match rest {
        [CR, ..] => 1,
        [_, CR, ..] => 2,
        [_, _, CR, ..] => 3,
        _ => 4,
    }
}

/// The right trailer.
fn right_trailer(body: &[u8], end: u8) -> [u8; 4] {
    let mut total = 2 + u32::from(end);
    for c in body {
        total = total.wrapping_add(u32::from(*c));
    }
    [
        0x30 + (total >> 8 & 15) as u8,
        0x30 + (total >> 4 & 15) as u8,
        0x30 + (total & 15) as u8,
        CR,
    ]
}
