//! The station: sessions of the entry line over connections, the transmissions of the pages that they accept, and trials.
//!
//! - `entry`: the entry lines, as a connection sees them.
//! - `talking`: a session on the open connection.
//! - `session`: the station, and one session of it.
//! - `serving`: the connections of the station, one after another.
//! - `reporting`: the report line of a session.
//! - `answering`: the session of an input, without a connection.
//! - `sending`: how the pages of a trial are sent, and what hears them.
//! - `trial`: what receivers hear of the pages of such a session, through a noise.
#![tactic(auto)]

mod answering;
mod entry;
#[cfg(test)]
mod report_tests;
mod reporting;
pub mod sending;
mod serving;
#[cfg(test)]
mod serving_tests;
pub mod session;
#[cfg(test)]
mod session_tests;
#[cfg(test)]
mod snpp_tests;
mod talking;
pub mod trial;
#[cfg(test)]
mod trial_tests;

pub use sending::SentTwice;
pub use session::{SessionEnd, Station};
