//! A front of what comes, and a count, each up to a bound: so that what is kept of a line or a body doesn't grow with what is sent.

ghost use Rattle.std.specs.Prelude.{◌≡◌};
ghost use Rattle.entry_line.specs.Kept.{count_within, push_within};

use arrayvec::ArrayVec;

/// Keeps one character more, where there is room.
#[inline]
pub fn push_within<const N: usize>(characters: &mut ArrayVec<u8, N>, c: u8)
    ensures { characters.new.items ≡ push_within N characters.old.items c }
{
    if !characters.is_full() {
        characters.push(c);
    }
}

/// One more, but at most so many.
#[inline]
pub fn count_within(count: u32, most: u32) -> u32
    ensures { result ≡ count_within most count }
{
    if count < most { count + 1 } else { count }
}
