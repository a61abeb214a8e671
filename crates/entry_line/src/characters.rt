//! The characters that both protocols name, and the sizes of a session, of a password and of an id.

/// Line feed.
pub const LF: u8 = 0x0A;

/// Carriage return.
pub const CR: u8 = 0x0D;

/// Space.
pub const SPACE: u8 = 0x20;

/// The character of this number in a session that is still open ends it.
pub const LAST_CHARACTER: u32 = 1_000_000;

/// The characters of a password.
pub const PASSWORD_SIZE: usize = 6;

/// The most digits of an id.
pub const MOST_DIGITS: usize = 10;
