//! The load mode: a large valid session that is made from a number, and what receivers hear of its pages through two noises.
//!
//! A generator of the kit's crate `rand_pcg` gives all that is drawn: first the pages, then the noise of each word behind the
//! preamble. The session is fed block by block, and the words of the transmission go to both groups of receivers as they come. So the
//! memory doesn't grow with the number of pages.
//!
//! - `draws`: the numbers that are drawn.
//! - `network`: the 64 subscribers, their settings and their receivers.
//! - `sessions`: the pages that are drawn, and their session.
//! - `noises`: the bits of a word that the two noises flip.
//! - `counts`: what is counted of the pages that are heard.
//! - `running`: the command `load`.
//! - `report`: its six lines.
#![tactic(auto)]

mod counts;
mod draws;
mod network;
mod noises;
pub mod report;
pub mod running;
mod sessions;

pub use running::load;

#[cfg(test)]
mod tests;
