//! The limits of texts. Each is named here alone. What follows from another one is computed from it.

/// The most characters of an alphanumeric text (docs/profile.md, "functions"). No text has more.
pub const LONGEST_TEXT: usize = 1_000;

/// The most characters of a numeric text (docs/profile.md, "functions").
pub const LONGEST_NUMERIC: usize = 40;

/// The most groups of a text: those of the longest one, at 7 bits for a character and 20 for a group.
pub const MOST_GROUPS: usize = (7 * LONGEST_TEXT + 19) / 20;

/// The most bytes of a text that is read back: five numeric characters from each group.
pub const LONGEST_READ: usize = 5 * MOST_GROUPS;
