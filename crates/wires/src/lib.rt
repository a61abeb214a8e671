//! The outside: what this project reads from, writes to and talks over, and how each of these may fail.
//!
//! Each trait has one ghost member, `state`, which is what an object tells. It has three meanings.
//!
//! - The *faults* are a count that never falls, which every object tells. A call answers `Failed` only where its count
//!   rose in this call; any other answer leaves the count. A count rose where it is greater than before, or stands at
//!   2^64 - 1, its last value.
//! - The *content* is what the object holds or has left. It is told by the fakes in memory and by what works over them,
//!   and no call changes whether it is told. With it are told the rooms, and whether the object is *steady*: a steady
//!   object answers `Failed` to no proper call, and is steady after it. A write is proper where the piece fits in the
//!   room that is left; a read always is; the traits of wires and shelves say when their calls are.
//! - *Lent* is what the object holds of others, as the references that were lent to it. No call changes it.
//!
//! Each call has one clause, a record in `specs/`: its fields say what it does to the content, what it leaves, when a
//! steady object answers `Failed` not, and where faults rose.
//!
//! | module | what it holds |
//! |---|---|
//! | `source` | `Source` and `BitSource`, which bytes and bits are read from |
//! | `byte_bits` | `ByteBits` and `ShelfBits`, the bits of a source's bytes and of a file's |
//! | `sink` | `Sink` and `BitSink`, which bytes and words are written to, and `WordBytes`, words over a sink of bytes |
//! | `wire` | `Wire`, connections one after another |
//! | `piece` | `Piece`, up to 32 bits that are handed on together |
//! | `shelf` | `Shelf`, files under names |
//! | `fakes` | `MemorySource` and `MemorySink`, which fail at the calls that they are told to |
//! | `fake_shelf` | `MemoryShelf`, a shelf in memory |
//! | `fake_wire` | `MemoryWire`, a wire in memory |
//! | `asked` | `Asked`, the address that a wire in memory was asked for, which contracts see and which takes no bytes |
//! | `nothing` | `NoWire` and `NoShelf`, which fail at every call |
//! | `steps` | `Steps`, a counter that contracts see and that takes no bytes, and `Work`, a ledger to count in |
//!
//! Callers that are generic over a trait join the clauses of calls one after another by the lemmas of `proofs/`:
//! `Written` for writes, `Left` for reads, `Causes` for faults, `Opened` for connections.
#![tactic(auto)]

ghost use Rattle.std.specs.Prelude.{◌≡◌, ◌≤◌};
ghost use Rattle.wires.specs.Causes.{next_count};

mod asked;
pub mod byte_bits;
#[cfg(test)]
mod callers;
pub mod fake_shelf;
pub mod fake_wire;
pub mod fakes;
#[cfg(test)]
mod file_tests;
pub mod nothing;
pub mod piece;
pub mod shelf;
pub mod sink;
pub mod source;
pub mod steps;
#[cfg(test)]
mod tests;
pub mod wire;
#[cfg(test)]
mod wire_tests;

/// A fault of the outside: what was read from, written to or talked over did not do it.
#[derive(Clone, Copy, Debug, PartialEq, Eq)]
pub struct Failed;

/// Want of memory.
#[derive(Clone, Copy, Debug, PartialEq, Eq)]
pub struct Memory;

/// Adds one to a count, which stays at its last value.
pub(crate) fn raise(count: &mut u64)
    ensures value { count.new ≡ next_count count.old }
    ensures later { count.old ≤ count.new }
{
    *count = count.saturating_add(1);
}
