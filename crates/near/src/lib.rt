//! What receivers hear of transmissions with few wrong bits: exactly the pages that were sent to them.
//!
//! A heard stretch of bits is near to a transmission where every preamble is as it was sent, and every word after it has at most two
//! wrong bits (`specs/NearAir.antt`). There is no code here: `laws` has the theorem.
#![tactic(auto)]

pub mod laws;
