//! A client and a terminal that hear one another: the pages that the terminal accepts are those of the ids and texts that the
//! client marks Sent.
//!
//! `specs/Joined.antt` says what it means that each side hears what the other says. There is no code here: `laws` has the theorem.
#![tactic(auto)]

pub mod laws;
