//! The edge to the system: its files, streams and connections as a shelf, sources, sinks and a wire. What they carry is told by nobody,
//! and no proof speaks of it; their faults are counted.
//!
//! - `streams`: a source over a reader, a sink over a writer.
//! - `file_shelf`: the files of the system as a shelf.
//! - `tcp_wire`: connections over TCP as a wire.
#![tactic(auto)]

pub mod file_shelf;
pub mod streams;
pub mod tcp_wire;
