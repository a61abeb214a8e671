//! The pool and its calls.

ghost use Rattle.std.specs.Prelude.{◌≡◌, ℕ, ◌*◌, ◌<◌, ◌≤◌, ◌↔◌, length, drop, IsTrue, IsErr, OnOk, OnErr, IfOk, MatchOption, [], ◌++◌, slice_index};
ghost use Rattle.std.specs.List.{find};
ghost use Rattle.std.specs.Option.{option_map};
ghost use Rattle.page_text.specs.Fits.{Fits};
ghost use Rattle.page_pool.specs.Cells.{cells_for, cells_of};

use crate::cells::{CELL, NONE, cell_at, cells_for, chain_all, read_text, set_link, write_text};
use crate::heads::{Address, Ends, Head, NO_PAGE, frame_in, link, replaced, set_ends, unlink};
use codeword::{Capcode, Function};
use page_text::LONGEST_TEXT;
use std::alloc::Global;
use std::marker::Model;
use wires::Memory;

/// The pool has too few spare cells for the page.
#[derive(Clone, Copy, Debug, PartialEq, Eq)]
pub struct Full;

/// A small copied name of a live page. It names the page until this is taken. After that it may name a later page, so it is kept no
/// longer than the page.
#[derive(Clone, Copy, Debug, PartialEq, Eq)]
pub struct Ticket {
    cell: u32,
}

impl Model for Ticket {
    ghost use Rattle.std.specs.Prelude.{ℕ};

    ghost Value = { ℕ };

    ghost view = { λ t. t.cell };

    ghost inverse = { λ n. record { cell = n } };
}

/// The live pages, first put first, in a region of 1 to 65,536 cells.
#[derive(Drop)]
pub struct Pool {
    bytes: Vec<u8>,
    links: Vec<u32>,
    heads: Vec<Head>,
    free: u32,
    spare: u32,
    first: u32,
    last: u32,
    count: u32,
    frames: [Ends; 8],
}

impl Model for Pool {
    ghost use Rattle.page_pool.specs.Pool.{Pool as Waiting};

    ghost Value = { Waiting };

    ghost use Rattle.page_pool.specs.Region.{view_of, PoolHolds};

    ghost view = { view_of };

    ghost invariant = { PoolHolds };
}

impl Pool {
    ghost use Rattle.page_pool.specs.Gains.{Gains, pages_to};
    ghost use Rattle.page_pool.specs.Pool.{Live, page, Names, PutsPage, TakesPage, IsLive, Sound, cells, live_in_frame};

    /// A pool of so many cells, 1 to 65,536, without pages: all cells are spare. Memory comes only where there was none for the
    /// cells. No later call takes memory.
    pub fn new(alloc: Global, cells: u32) -> Result<Pool, Memory>
        requires some { 0 < cells }
        requires most { cells ≤ 65536 }
        ensures live { IfOk result (λ p. p.live ≡ []) }
        ensures spare { IfOk result (λ p. p.spare ≡ cells) }
    {
        let n = cells as usize;
        let Ok(mut links) = vec![in alloc; NONE; n] else {
            return Err(Memory);
        };
        chain_all(&mut links);
        let Ok(bytes) = vec![in alloc; 0u8; CELL * n] else {
            return Err(Memory);
        };
        let Ok(heads) = vec![in alloc; NO_PAGE; n] else {
            return Err(Memory);
        };
        let ends = Ends {
            first: NONE,
            last: NONE,
        };
        Ok(Pool {
            bytes,
            links,
            heads,
            free: 0,
            spare: cells,
            first: NONE,
            last: NONE,
            count: 0,
            frames: [ends; 8],
        })
    }

    /// Adds a page behind all others. The text fits the function. Full exactly where the text needs more cells than are spare;
    /// nothing changes then.
    pub fn put(&mut self, capcode: Capcode, function: Function, text: &[u8]) -> Result<(), Full>
        requires { Fits function text.now }
        ensures put { OnOk result (PutsPage self.old self.new (page capcode function text.now)) }
        ensures full { IsErr result ↔ self.old.spare < cells_for (length text.now) }
        ensures unchanged { OnErr result (self.new ≡ self.old) }
    {
        let cells = cells_for(text.len());
        if self.spare < cells {
            return Err(Full);
        }
        let cell = self.free;
        let end = write_text(&mut self.bytes, &self.links, cell, text);
        self.free = set_link(&mut self.links, end, NONE);
        self.spare -= cells;
        let frame = capcode.frame();
        let ends = self.frames[frame as usize];
        let head = Head {
            address: Some(Address { capcode, function }),
            length: text.len() as u32,
            before: self.last,
            after: NONE,
            peer_before: ends.last,
            peer_after: NONE,
        };
        link(&mut self.heads, cell, head);
        self.first = replaced(self.first, NONE, cell);
        self.last = cell;
        self.count += 1;
        let start = replaced(ends.first, NONE, cell);
        set_ends(&mut self.frames, frame, start, cell);
        Ok(())
    }

    /// Adds a page for each of these capcodes behind all others, in their order, all of them or none. The text fits the function. Full
    /// exactly where it needs more cells for all capcodes than are spare; nothing changes then.
    pub fn put_all(
        &mut self,
        capcodes: &[Capcode],
        function: Function,
        text: &[u8],
    ) -> Result<(), Full>
        requires { Fits function text.now }
        ensures put { OnOk result (Gains self.old self.new (pages_to capcodes.now function text.now)) }
        ensures full { IsErr result ↔ self.old.spare < cells_for (length text.now) * length capcodes.now }
        ensures unchanged { OnErr result (self.new ≡ self.old) }
    {
        let pages = self.spare() / cells_for(text.len());
        if (pages as usize) < capcodes.len() {
            return Err(Full);
        }
        for capcode in capcodes {
            let _ = self.put(*capcode, function, text);
        }
        Ok(())
    }

    /// How many cells are spare, from 0 to 65,536.
    pub fn spare(&self) -> u32
        ensures spare { result ≡ self.now.spare }
        ensures sound { Sound self.now }
    {
        self.spare
    }

    /// How many pages are live, from 0 to 65,536.
    pub fn count(&self) -> u32
        ensures count { result ≡ length self.now.live }
        ensures sound { Sound self.now }
    {
        self.count
    }

    /// The first live page of a frame, 0 to 7. None exactly where the frame has none.
    pub fn first(&self, frame: u32) -> Option<Ticket>
        requires { frame < 8 }
        ensures first { result ≡ option_map (λ (e : Live). e.ticket) (find (live_in_frame frame) self.now.live) }
        ensures sound { Sound self.now }
    {
        let ends = self.frames[frame as usize];
        if ends.first == NONE {
            None
        } else {
            Some(Ticket { cell: ends.first })
        }
    }

    /// Whether the ticket names a live page.
    pub fn live(&self, t: Ticket) -> bool
        ensures { IsTrue result ↔ IsLive self.now t }
    {
        if (t.cell as usize) < self.heads.len() {
            let head = self.heads[t.cell as usize];
            head.address.is_some()
        } else {
            false
        }
    }

    /// The address of a live page.
    fn address(&self, t: Ticket) -> Address
        requires { IsLive self.now t }
        ensures { (e : Live) → Names self.now t e → (result.capcode ≡ e.page.capcode) × (result.function ≡ e.page.function) }
    {
        let head = self.heads[t.cell as usize];
        head.address.unwrap()
    }

    /// The capcode of a live page.
    pub fn capcode(&self, t: Ticket) -> Capcode
        requires { IsLive self.now t }
        ensures { (e : Live) → Names self.now t e → result ≡ e.page.capcode }
    {
        let address = self.address(t);
        address.capcode
    }

    /// The function of a live page.
    pub fn function(&self, t: Ticket) -> Function
        requires { IsLive self.now t }
        ensures { (e : Live) → Names self.now t e → result ≡ e.page.function }
    {
        let address = self.address(t);
        address.function
    }

    /// How many characters the text of a live page has, from 0 to `LONGEST_TEXT`.
    pub fn length(&self, t: Ticket) -> usize
        requires { IsLive self.now t }
        ensures { (e : Live) → Names self.now t e → result ≡ length e.page.text }
    {
        let head = self.heads[t.cell as usize];
        head.length as usize
    }

    /// Copies the text of a live page to the front of `into`, and answers how many characters it has, from 0 to `LONGEST_TEXT`. The rest of
    /// `into` stays as it was.
    pub fn copy_text(&self, t: Ticket, into: &mut [u8]) -> usize
        requires live { IsLive self.now t }
        requires room { LONGEST_TEXT ≤ length into.old }
        ensures length { (e : Live) → Names self.now t e → result ≡ length e.page.text }
        ensures text { (e : Live) → Names self.now t e → into.new ≡ e.page.text ++ drop (length e.page.text) into.old }
    {
        let head = self.heads[t.cell as usize];
        let length = head.length as usize;
        read_text(&self.bytes, &self.links, t.cell, &mut into[..length]);
        length
    }

    /// Takes a live page out. The others keep their order and their cells, and its cells are spare.
    pub fn take(&mut self, t: Ticket)
        requires { IsLive self.old t }
        ensures { TakesPage self.old self.new t }
    {
        let at = t.cell as usize;
        let head = self.heads[at];
        let cells = cells_for(head.length as usize);
        let end = cell_at(&self.links, t.cell, cells - 1);
        set_link(&mut self.links, end, self.free);
        self.free = t.cell;
        self.spare += cells;
        unlink(&mut self.heads, t.cell);
        self.first = replaced(self.first, t.cell, head.after);
        self.last = replaced(self.last, t.cell, head.before);
        self.count -= 1;
        let frame = frame_in(head.address);
        let ends = self.frames[frame as usize];
        let first = replaced(ends.first, t.cell, head.peer_after);
        let last = replaced(ends.last, t.cell, head.peer_before);
        set_ends(&mut self.frames, frame, first, last);
    }

    /// Takes all pages out: all cells are spare.
    pub fn clear(&mut self)
        ensures live { self.new.live ≡ [] }
        ensures spare { self.new.spare ≡ cells self.old }
        ensures region { self.new.region ≡ self.old.region }
    {
        while let Some(t) = self.oldest() {
            self.take(t);
        }
    }

    /// The page that was put first.
    fn oldest(&self) -> Option<Ticket>
        ensures { MatchOption result (self.now.live ≡ []) (λ t. IsLive self.now t) }
    {
        if self.count == 0 {
            None
        } else {
            Some(Ticket { cell: self.first })
        }
    }

    /// The whole region: 32 bytes for each cell, in the order of their numbers from 0.
    pub fn region(&self) -> &[u8]
        ensures { result.now ≡ self.now.region }
    {
        &self.bytes
    }

    /// The number of a live page's cell `k`, from 0. `k` is below the number of its cells.
    pub fn place(&self, t: Ticket, k: usize) -> u32
        requires { (e : Live) × Names self.now t e × (k < cells_of e.page) }
        ensures { (e : Live) → Names self.now t e → result ≡ slice_index e.places k }
    {
        cell_at(&self.links, t.cell, k as u32)
    }
}
