//! Receivers over any bits: the stretches of lock in a list of bits, and what is heard in them (docs/profile.md, "lock" and "page
//! heard").
//!
//! A hunt looks for 32 bits that differ from the sync word in at most two. The lock that follows takes 16 words as slots and one
//! as a sync word, again and again, until a word at a sync place differs in more than two bits; then a new hunt begins. What a
//! receiver hears are the pages in the slots of each stretch of lock, by the codewords within two bits of the words.
//!
//! - `front`: the hunt and the lock, each a state that a bit takes to the next, and the front end that is one or the other.
//! - `register`: the last bits that came.
//! - `places`: the words of a window of 64 bits, and the first that is near the sync word.
//! - `gathering`: the page under way, and the page that the last bit completed.
//! - `ready`: what is answered of a page that is complete.
//! - `receiver`: a receiver of one to four capcodes.
//! - `group`: receivers with numbers, each with its capcodes, and one front end for all.
//! - `marks`: marks of capcodes, so that most numbers of capcodes that no receiver has aren't looked up.
//! - `laws`: where a hunt over a preamble finds the sync word, and that what was heard stays when more bits come.
//!
//! `specs/Stretches.antt` cuts a list of bits into stretches of lock, `specs/Slots.antt` gives their slots and the table of what was
//! heard, and `specs/Heard.antt` their pages. `specs/Fronts.antt` says where a front end is in the bits that it was fed.
#![tactic(auto)]

pub mod front;
pub mod gathering;
pub mod group;
pub mod laws;
mod marks;
mod places;
pub mod ready;
pub mod receiver;
mod register;

pub use front::{Front, FrontEvent, HuntStep, Hunting, LockStep, Locked};
pub use group::{Group, MOST_RECEIVERS};
pub use ready::Ready;
pub use receiver::{MOST_CAPCODES, Receiver};

#[cfg(test)]
mod tests;
#[cfg(test)]
mod twin;
