//! The schedule of a transmission: which word stands in which slot.
//!
//! A batch has 16 slots in 8 frames, and the run of a page, its address word and its message words, starts in the frame of its
//! capcode (M.584-2). Which page stands where is the project's own rule (docs/profile.md), in four conditions: Whole, Fair,
//! Prompt and End. `Schedule` gives the slots that meet them, one at a time, from the pages of a pool that is lent to it.
//!
//! - `specs/Slots`: the run of a page, and the four conditions on a finished list of slots.
//! - `specs/Plan`: the slots that meet them, chosen one piece at a time.
//! - `specs/Laws`, `laws`: there is exactly one such list, and how long it is at most.
//! - `specs/Said`, `slots`: what a slot says.
//! - `specs/Sendings`, `sendings`: how far a transmission has come, beside the pool that its pages lie in.
//! - `specs/Pooled`, `pooled`: the schedule over a pool.
//!
//! A run is given from a copy of its text, which is taken when the run starts: `page_text::group` packs one message word at a time.
//! The page stays in the pool until its run is whole.
#![tactic(auto)]

pub mod laws;
pub mod pooled;
pub mod sendings;
pub mod slots;

pub use pooled::Schedule;
pub use slots::Slot;

#[cfg(test)]
mod tests;
