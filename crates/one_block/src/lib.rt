//! The command `one`: one block of the entry line becomes one transmission. docs/profile.md, "block", "sum", "content", "fields" and
//! "functions".
//!
//! - `one_page`: `one`, with the block that its input is, the text of the block's content, and the transmission of its page.
//! - `laws`: an input is at most one block, and a content has at most one text.
#![tactic(auto)]

pub mod laws;
pub mod one_page;

pub use one_page::one;
