//! From bits to printed lines: the commands `play` and `show`, and hearing through a noise.
//!
//! - `listening`: hearing bits one piece after another, and printing what they give.
//! - `playing`: the lines that receivers print, and `play` and `show` over any bits.
//! - `twin_playing`: the lines of receivers that hear each transmission twice.
//! - `table`: the table of the sync words and slots that are heard, for `show`.
//! - `noise`: hearing bits through a noise.
//! - `hearing`: `play` and `show` over the bits of a file, and `play` over the bits of the samples in one.
#![tactic(auto)]

pub mod hearing;
pub mod listening;
pub mod noise;
pub mod playing;
pub mod table;
pub mod twin_playing;

pub use hearing::{play_file, play_samples, show_file};
pub use playing::{play, show};
