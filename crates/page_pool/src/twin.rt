//! A plain pool beside the real one, which it is compared with: a list of pages, each with its own text.

use codeword::{Capcode, Function};
use std::alloc::{AllocError, Global};

/// A page that waits.
#[derive(Debug, PartialEq, Drop)]
pub(crate) struct Page {
    pub(crate) capcode: Capcode,
    pub(crate) function: Function,
    pub(crate) text: Vec<u8>,
}

/// The pages that wait, first put first.
#[derive(Drop)]
pub(crate) struct ListPool {
    cells: usize,
    pages: Vec<Page>,
}

impl ListPool {
    /// A pool of so many cells.
    pub(crate) fn new(alloc: Global, cells: usize) -> ListPool {
        ListPool {
            cells,
            pages: Vec::new(alloc),
        }
    }

    /// How many pages wait.
    pub(crate) fn count(&self) -> usize {
        self.pages.len()
    }

    /// How many cells are spare.
    pub(crate) fn spare(&self) -> usize {
        let mut spare = self.cells;
        for page in &self.pages {
            spare = spare.saturating_sub(cells(page.text.len()));
        }
        spare
    }

    /// Adds a page, and says whether it had room.
    pub(crate) fn put(
        &mut self,
        alloc: Global,
        capcode: Capcode,
        function: Function,
        text: &[u8],
    ) -> Result<bool, AllocError> {
        if self.spare() < cells(text.len()) {
            return Ok(false);
        }
        let text = text.to_vec(alloc)?;
        self.pages.push(Page {
            capcode,
            function,
            text,
        })?;
        Ok(true)
    }

    /// Where the first page of a frame stands in the list.
    pub(crate) fn first(&self, frame: u32) -> Option<usize> {
        self.pages
            .iter()
            .position(|page| page.capcode.frame() == frame)
    }

    /// The first page of a frame.
    pub(crate) fn page(&self, frame: u32) -> Option<&Page> {
        let at = self.first(frame)?;
        self.pages.get(at)
    }

    /// Takes out the first page of a frame.
    pub(crate) fn take(&mut self, frame: u32) {
        if let Some(at) = self.first(frame) {
            if at < self.pages.len() {
                self.pages.remove(at);
            }
        }
    }

    /// Takes out all pages.
    pub(crate) fn clear(&mut self) {
        self.pages.clear();
    }
}

/// The cells that a text of so many characters takes.
fn cells(length: usize) -> usize {
    if length == 0 { 1 } else { length.div_ceil(32) }
}
