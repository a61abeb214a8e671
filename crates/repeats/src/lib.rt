//! Transmissions that are sent twice: a receiver takes each word from the copy in which it can be corrected (docs/profile.md, "repeated
//! transmission").
//!
//! | module | what it holds |
//! |---|---|
//! | `recording` | `Recording`, the words of a transmission; `RecordingBits`, their bits twice |
//! | `pairing` | the words of a first stretch, held for the second |
//! | `twin_group` | `TwinGroup`, receivers that hear each transmission twice |
//! | `laws` | the pages that are heard of such a transmission |
//!
//! `specs/Twin.antt` joins two stretches of lock to a twin stretch, and `specs/Kept.antt` says which pages are kept.
#![tactic(auto)]

pub mod laws;
mod pairing;
pub mod recording;
#[cfg(test)]
mod tests;
pub mod twin_group;

pub use recording::{Recording, RecordingBits};
pub use twin_group::TwinGroup;
