//! The page pool: a region of cells, of 32 characters each, that holds the pages that wait to be sent. It keeps the rule "room" of
//! docs/profile.md.
//!
//! A page lies in a chain of cells. Its head stands at the first of them, and its ticket is the number of this cell. All spare cells
//! are one chain. The heads are linked both ways in the order in which the pages were put, and once more among the pages of their
//! frame. So `Pool::first` reads one number, and a page is linked in or out by a fixed number of writes. All memory is taken by
//! `Pool::new`. No later call takes any, and no character is moved once it was put.
//!
//! - `pool`: the pool and its calls.
//! - `cells`: cells, their links, and texts along them.
//! - `heads`: the heads of pages and how they are linked.
#![tactic(auto)]

mod cells;
mod heads;
pub mod pool;

pub use pool::{Full, Pool, Ticket};

#[cfg(test)]
mod callers;
#[cfg(test)]
mod tests;
#[cfg(test)]
mod twin;
