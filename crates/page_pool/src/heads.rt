//! The heads of pages, and how they are linked: in the order of all pages, and in that of the pages of their frame.

ghost use Rattle.std.specs.Prelude.{◌≡◌, ◌==◌, ◌<◌, Some, IsSome, cond, length, slice_set};
ghost use Rattle.codeword.specs.Capcodes.{frame_of};
ghost use Rattle.page_pool.specs.Layout.{capcode_in, with_after, with_before, with_peer_after, with_peer_before, linked, unlinked};

use crate::cells::NONE;
use codeword::{Capcode, Function};

/// To whom a page goes.
#[derive(Clone, Copy)]
pub(crate) struct Address {
    pub(crate) capcode: Capcode,
    pub(crate) function: Function,
}

/// What a cell keeps of the page that begins there.
#[derive(Clone, Copy)]
pub(crate) struct Head {
    /// None where no page begins.
    pub(crate) address: Option<Address>,
    /// The characters of the text.
    pub(crate) length: u32,
    /// The page put before it, and the page put after it, among all.
    pub(crate) before: u32,
    pub(crate) after: u32,
    /// The same among the pages of its frame.
    pub(crate) peer_before: u32,
    pub(crate) peer_after: u32,
}

/// The first and the last page of a chain.
#[derive(Clone, Copy)]
pub(crate) struct Ends {
    pub(crate) first: u32,
    pub(crate) last: u32,
}

/// The head of a cell at which no page begins.
pub(crate) const NO_PAGE: Head = Head {
    address: None,
    length: 0,
    before: NONE,
    after: NONE,
    peer_before: NONE,
    peer_after: NONE,
};

/// The frame of the page.
pub(crate) fn frame_in(address: Option<Address>) -> u32
    ensures value { result ≡ frame_of (capcode_in address) }
    ensures small { result < 8 }
{
    match address {
        None => 0,
        Some(a) => a.capcode.frame(),
    }
}

/// `to` in place of `from`.
pub(crate) fn replaced(now: u32, from: u32, to: u32) -> u32
    ensures { result ≡ cond (now == from) to now }
{
    if now == from { to } else { now }
}

/// Links a cell's head on to another, where it has one.
fn set_after(heads: &mut [Head], c: u32, to: u32)
    ensures { heads.new ≡ with_after heads.old c to }
{
    if (c as usize) < heads.len() {
        let head = &mut heads[c as usize];
        head.after = to;
    }
}

/// Links a cell's head back to another, where it has one.
fn set_before(heads: &mut [Head], c: u32, to: u32)
    ensures { heads.new ≡ with_before heads.old c to }
{
    if (c as usize) < heads.len() {
        let head = &mut heads[c as usize];
        head.before = to;
    }
}

/// Links a cell's head on to another of its frame, where it has one.
fn set_peer_after(heads: &mut [Head], c: u32, to: u32)
    ensures { heads.new ≡ with_peer_after heads.old c to }
{
    if (c as usize) < heads.len() {
        let head = &mut heads[c as usize];
        head.peer_after = to;
    }
}

/// Links a cell's head back to another of its frame, where it has one.
fn set_peer_before(heads: &mut [Head], c: u32, to: u32)
    ensures { heads.new ≡ with_peer_before heads.old c to }
{
    if (c as usize) < heads.len() {
        let head = &mut heads[c as usize];
        head.peer_before = to;
    }
}

/// Links a head in behind the last page, and behind the last of its frame.
pub(crate) fn link(heads: &mut [Head], c: u32, head: Head)
    requires { c < length heads.old }
    ensures { heads.new ≡ linked heads.old c head }
{
    let before = head.before;
    let peer_before = head.peer_before;
    heads[c as usize] = head;
    set_after(heads, before, c);
    set_peer_after(heads, peer_before, c);
}

/// Links a head out.
pub(crate) fn unlink(heads: &mut [Head], c: u32)
    requires { c < length heads.old }
    ensures { heads.new ≡ unlinked heads.old c }
{
    let head = heads[c as usize];
    set_after(heads, head.before, head.after);
    set_before(heads, head.after, head.before);
    set_peer_after(heads, head.peer_before, head.peer_after);
    set_peer_before(heads, head.peer_after, head.peer_before);
    let own = &mut heads[c as usize];
    own.address = None;
}

/// Sets the ends of a frame's chain.
pub(crate) fn set_ends(frames: &mut [Ends; 8], f: u32, first: u32, last: u32)
    requires { f < 8 }
    ensures { frames.new ≡ slice_set frames.old f (record { first = first; last = last }) }
{
    frames[f as usize] = Ends { first, last };
}
