//! The control characters of TAP. LF and CR are those of every entry line.

/// Start of text: a block begins.
pub const STX: u8 = 0x02;

/// End of text: the last body of a transaction has ended.
pub const ETX: u8 = 0x03;

/// End of transmission: with a CR directly behind it, goodbye.
pub const EOT: u8 = 0x04;

/// End of transmission block: the transaction goes on in the next block.
pub const ETB: u8 = 0x17;

/// Substitute: with the character behind it, one character of a value.
pub const SUB: u8 = 0x1A;

/// Escape: a logon begins.
pub const ESC: u8 = 0x1B;

/// Unit separator: the field goes on in the next block.
pub const US: u8 = 0x1F;
