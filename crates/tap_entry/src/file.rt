//! The pages file: docs/profile.md, "pages file".

ghost use Rattle.std.specs.Prelude.{◌≡◌, ◌≢◌, ◌<◌, ◌≤◌, ◌+◌, ◌⊎◌, ℕ, List, [], length, slice_index_or, IfOk, IfErr};
ghost use Rattle.tap_entry.specs.Client.{PageToSend, IsPage};
ghost use Rattle.tap_entry.specs.PagesFile.{IsFile, IsFileRefused, IsPassword, no_page, most_pages};
ghost use Rattle.tap_entry.specs.Seen.{seen_pages};
ghost use Rattle.tap_entry.specs.Signs.{PagesUpTo, StopsAt};

use crate::faults::PagesFault;
use crate::lines::{PageLine, first_line, page_line};
use entry_line::characters::PASSWORD_SIZE;
use std::alloc::Global;
use std::marker::Model;

/// A pages file has at most this many bytes.
pub const MOST_BYTES: usize = 1_048_576;

/// A pages file has at most this many pages.
pub const MOST_PAGES: usize = 1_000;

/// The first page stands in this line, counted from 1.
const FIRST_PAGE: u32 = 2;

/// The pages of a file, and the password with which they are sent.
#[derive(Drop)]
pub struct Pages {
    password: Option<[u8; PASSWORD_SIZE]>,
    pages: Vec<PageLine>,
}

impl Model for Pages {
    ghost use Rattle.tap_entry.specs.PagesFile.{FileContent, IsRightFile};
    ghost use Rattle.tap_entry.specs.Seen.{seen_pages};

    ghost Value = { FileContent };

    ghost view = { λ s. record { password = s.password; pages = seen_pages s.pages.items } };

    ghost invariant = { λ s. IsRightFile (record { password = s.password; pages = seen_pages s.pages.items }) };
}

impl Pages {
    /// Reads a pages file. Long where there are more than 1,048,576 bytes. Else Line where a line isn't of its form, with the number of
    /// the first that isn't. Memory may come in place of any answer.
    pub fn read(alloc: Global, bytes: &[u8]) -> Result<Pages, PagesFault>
        ensures file { IfOk result (λ pages. IsFile bytes.now pages) }
        ensures refused { IfErr result (λ fault. IsFileRefused bytes.now fault) }
    {
        if bytes.len() > MOST_BYTES {
            return Err(PagesFault::Long);
        }
        let Some((password, rest)) = first_line(bytes) else {
            return Err(PagesFault::Line(1));
        };
        match pages_from(alloc, rest) {
            Ok(pages) => Ok(Pages { password, pages }),
            Err(fault) => Err(fault),
        }
    }

    /// The password of the logon: six characters from 0x21 to 0x7E, or none.
    pub fn password(&self) -> Option<[u8; PASSWORD_SIZE]>
        ensures value { result ≡ self.now.password }
        ensures form { IsPassword result }
    {
        self.password
    }

    /// The number of pages, at most 1,000.
    pub fn count(&self) -> usize
        ensures value { result ≡ length self.now.pages }
        ensures most { result ≤ most_pages }
    {
        self.pages.len()
    }

    /// The id of page `k`, counted from 0.
    pub fn id(&self, k: usize) -> &[u8]
        requires { k < length self.now.pages }
        ensures value { result.now ≡ (slice_index_or self.now.pages k no_page).id }
        ensures page { IsPage (slice_index_or self.now.pages k no_page) }
    {
        self.pages[k].id.as_slice()
    }

    /// The text of page `k`, counted from 0.
    pub fn text(&self, k: usize) -> &[u8]
        requires { k < length self.now.pages }
        ensures value { result.now ≡ (slice_index_or self.now.pages k no_page).text }
        ensures page { IsPage (slice_index_or self.now.pages k no_page) }
    {
        self.pages[k].text.as_slice()
    }
}

/// The pages of the lines behind the first one.
fn pages_from(alloc: Global, x: &[u8]) -> Result<Vec<PageLine>, PagesFault>
    ensures pages { IfOk result (λ pages. PagesUpTo x.now (seen_pages pages.items) []) }
    ensures refused { IfErr result (λ fault. (fault ≡ PagesFault.Memory) ⊎ StopsAt x.now fault) }
{
    let mut pages = Vec::new(alloc);
    let mut rest = x;
    while !rest.is_empty() {
        let number = pages.len() as u32 + FIRST_PAGE;
        if pages.len() == MOST_PAGES {
            return Err(PagesFault::Line(number));
        }
        let Some((page, behind)) = page_line(rest) else {
            return Err(PagesFault::Line(number));
        };
        if pages.push(page).is_err() {
            return Err(PagesFault::Memory);
        }
        rest = behind;
    }
    Ok(pages)
}
