//! Tables of known words, blocks and sessions, as tests over the public calls of the crates. It has no call of its own.
//!
//! Expected values are those of M.584-2, of the profile, and of examples that were worked by hand.
//!
//! - `blocks`: blocks of the entry line with their sums.
//! - `runs`: a run of the program over objects in memory, and the bytes of transmissions.
//! - `one_page`: runs of `one`.
//! - `loads`: runs of `load`.
//! - `receivers`: runs of `play`, `play-line`, `show` and `line`.
//! - `sessions`: runs of `station`, what `play` then prints, and `session_rows`, the tables of these sessions.
//! - `snpp_lines`: runs of `snpp`.
//! - `clients`: runs of `send`.
//! - `trials`: runs of `trial` and `twice`.
//! - `failing_calls`: runs in which each call of an object fails in turn, and `stands`, the tables of what they leave.
//! - `refusals`: words that are no command, files that are not there, and settings files that are refused.
//! - `longest`: the longest sessions, calls and files, and longer ones.
#![tactic(auto)]

#[cfg(test)]
mod blocks;
#[cfg(test)]
mod clients;
#[cfg(test)]
mod failing_calls;
#[cfg(test)]
mod loads;
#[cfg(test)]
mod longest;
#[cfg(test)]
mod one_page;
#[cfg(test)]
mod receivers;
#[cfg(test)]
mod refusals;
#[cfg(test)]
mod runs;
#[cfg(test)]
mod session_rows;
#[cfg(test)]
mod sessions;
#[cfg(test)]
mod snpp_lines;
#[cfg(test)]
mod stands;
#[cfg(test)]
mod trials;
