//! What both entry lines share, whatever their protocol: docs/profile.md, "characters" and "length of a session".
//!
//! | module | what it holds |
//! |---|---|
//! | `characters` | characters by name, and the sizes of a session, of a password and of an id |
//! | `kept` | a front of what comes, and a count, each up to a bound |
#![tactic(auto)]

pub mod characters;
pub mod kept;
