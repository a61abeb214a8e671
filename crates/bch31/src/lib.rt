//! The code of POCSAG: BCH (31, 21) with a bit of even parity.
//!
//! A codeword has 32 bits: 21 bits of information, ten check bits, and a bit that makes the number of ones even. M.584-2: the
//! first 31 bits, taken as the coefficients of a polynomial, are a multiple of x^10 + x^9 + x^8 + x^6 + x^5 + x^3 + 1. Two different
//! codewords differ in at least six bits, so two wrong bits can be repaired, and three wrong bits are seen.
//!
//! - `check`: the check bits of 21 bits of information, and whether a word is a codeword.
//! - `correction`: the distance of two words, and the codeword within two bits of a word.
//! - `division`: remainders by the generator, by tables.
//! - `patterns`: the table of what to turn, by the remainder.
//! - `laws`: each 21 bits are the front of exactly one codeword; codewords are six apart; the correction is the relation.
//!
//! `specs/Codeword.antt` says what a codeword is, `specs/Word.antt` computes the codeword of a front, and `specs/Fix.antt` says
//! what the correction answers.
#![tactic(auto)]

pub mod check;
pub mod correction;
mod division;
pub mod laws;
mod patterns;

pub use check::{check_bits, is_codeword};
pub use correction::{correct, distance};

#[cfg(test)]
mod tests;
#[cfg(test)]
mod twin;
