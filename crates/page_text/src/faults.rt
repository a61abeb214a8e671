//! Why a text doesn't fit a function.

/// The first cause for which a text doesn't fit, in this order.
#[derive(Clone, Copy, Debug, PartialEq, Eq)]
pub enum TextFault {
    /// A tone with a text that isn't empty.
    NotEmpty,
    /// More characters than `LONGEST_NUMERIC` or `LONGEST_TEXT`.
    TooLong,
    /// A numeric text with a character that isn't one of the sixteen, or an alphanumeric one with a character other than 0x20 to
    /// 0x7E, CR and LF.
    Alphabet,
    /// A numeric text that ends in a space.
    EndsInSpace,
}
