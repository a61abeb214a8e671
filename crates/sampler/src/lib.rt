//! A sampled line: eight samples for each bit, and the bits taken back from the samples.
//!
//! Of each run of equal samples a receiver takes an eighth of its length, rounded to the nearest, as bits. A line may
//! run up to one part in 512 too fast or too slow, and each edge may stray by one sample: the bits come back where no
//! run of equal bits is longer than 127.
//!
//! | module | what it holds |
//! |---|---|
//! | `sampled` | `Sampled` and `SampledFrom`, the bits of samples |
//! | `sampling` | `Sampling`, the samples of bits, with edges that stray |
//! | `laws` | that the bits of a line are those that it was made of, and that strayed bits are a line |
//! | `progress` | how far samples are read and counted |
//! | `counter` | the count of equal samples since the last edge |
//! | `gathered` | bits that are gathered, a run at a time |
//! | `taken` | bits taken one by one out of pieces |
#![tactic(auto)]

#[cfg(test)]
mod callers;
mod counter;
mod gathered;
pub mod laws;
mod progress;
pub mod sampled;
pub mod sampling;
mod taken;
#[cfg(test)]
mod tests;
