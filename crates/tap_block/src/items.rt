//! What a character completes.

use crate::ends::End;

/// An item of the entry line. docs/profile.md, "lines", "between blocks" and "block".
#[derive(Clone, Copy, Debug, PartialEq, Eq)]
pub enum Item {
    /// A line with no character but LF, before logon. The logon is still to come.
    EmptyLine,
    /// The logon. Blocks follow.
    Logon,
    /// Any other line before logon. The logon is still to come.
    WrongLine,
    /// A block, whose body can be read until the next character is fed.
    Block {
        /// How its body ends.
        end: End,
        /// Whether its trailer is right.
        sum_ok: bool,
        /// How many characters its body has: 0 to 250, and 251 for more.
        length: u32,
    },
    /// EOT CR, after logon.
    Bye,
}
