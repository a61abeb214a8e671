//! Cells: how many a text takes, their links, and texts that lie along them.

ghost use Rattle.std.specs.Prelude.{◌≡◌, ℕ, ◌+◌, ◌-◌, ◌*◌, ◌<◌, ◌≤◌, length, slice_set, get_or};
ghost use Rattle.page_pool.specs.Cells.{cells_for};
ghost use Rattle.page_pool.specs.Chain.{AreBelow, AreDistinct, walk, cell_behind};
ghost use Rattle.page_pool.specs.Layout.{NONE, KeepsOthers, cells_from, link_of, text_in_cells};

use page_text::LONGEST_TEXT;

/// The characters that a cell holds.
pub(crate) const CELL: usize = 32;

/// The end of a chain, which is the number of no cell.
pub(crate) const NONE: u32 = u32::MAX;

/// The cells that a text of so many characters takes: at least one.
pub(crate) fn cells_for(length: usize) -> u32
    requires { length ≤ LONGEST_TEXT }
    ensures { result ≡ cells_for length }
{
    if length == 0 {
        1
    } else {
        ((length + CELL - 1) / CELL) as u32
    }
}

/// The cell so many links behind another.
pub(crate) fn cell_at(links: &[u32], from: u32, k: u32) -> u32
    requires { AreBelow (length links.now) (walk (link_of links.now) (k + 1) from) }
    ensures { result ≡ cell_behind (link_of links.now) k from }
{
    let mut cell = from;
    for hop in 0..k {
        cell = links[cell as usize];
    }
    cell
}

/// Writes a text along a chain of cells, and answers the last of them.
pub(crate) fn write_text(bytes: &mut [u8], links: &[u32], from: u32, chars: &[u8]) -> u32
    requires short { length chars.now ≤ LONGEST_TEXT }
    requires cells { AreBelow (length links.now) (cells_from links.now from (length chars.now)) }
    requires apart { AreDistinct (cells_from links.now from (length chars.now)) }
    requires room { length bytes.old ≡ 32 * length links.now }
    requires most { length links.now ≤ 65536 }
    ensures written { text_in_cells bytes.new (cells_from links.now from (length chars.now)) (length chars.now) ≡ chars.now }
    ensures others { KeepsOthers bytes.old bytes.new (cells_from links.now from (length chars.now)) }
    ensures last { result ≡ cell_behind (link_of links.now) (cells_for (length chars.now) - 1) from }
{
    let mut cell = from;
    for (i, c) in chars.iter().enumerate() {
        if i > 0 && i % CELL == 0 {
            cell = links[cell as usize];
        }
        bytes[CELL * cell as usize + i % CELL] = *c;
    }
    cell
}

/// Reads a text, of as many characters as `into` has room for, along a chain of cells.
pub(crate) fn read_text(bytes: &[u8], links: &[u32], from: u32, into: &mut [u8])
    requires cells { AreBelow (length links.now) (cells_from links.now from (length into.old)) }
    requires room { length bytes.now ≡ 32 * length links.now }
    requires most { length links.now ≤ 65536 }
    ensures { into.new ≡ text_in_cells bytes.now (cells_from links.now from (length into.old)) (length into.old) }
{
    let mut cell = from;
    for i in 0..into.len() {
        if i > 0 && i % CELL == 0 {
            cell = links[cell as usize];
        }
        into[i] = bytes[CELL * cell as usize + i % CELL];
    }
}

/// Chains all cells, each to the next.
pub(crate) fn chain_all(links: &mut [u32])
    requires { length links.old ≤ 65536 }
    ensures next { (k : ℕ) → k + 1 < length links.new → link_of links.new k ≡ k + 1 }
    ensures last { (k : ℕ) → k + 1 ≡ length links.new → link_of links.new k ≡ NONE }
{
    let n = links.len();
    for i in 0..n {
        links[i] = if i + 1 < n { i as u32 + 1 } else { NONE };
    }
}

/// Links a cell to another, and answers to which it was linked before.
pub(crate) fn set_link(links: &mut [u32], c: u32, to: u32) -> u32
    requires { c < length links.old }
    ensures was { result ≡ link_of links.old c }
    ensures set { links.new ≡ slice_set links.old c to }
{
    let was = links[c as usize];
    links[c as usize] = to;
    was
}
