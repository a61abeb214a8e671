//! Why a field has no value.

/// What stands at the first place of a field where no spelling begins.
#[derive(Clone, Copy, Debug, PartialEq, Eq)]
pub enum FieldFault {
    /// A character other than SUB outside 0x20 to 0x7E.
    Control,
    /// SUB as the last character.
    SubEnd,
    /// SUB before a character outside 0x40 to 0x5F.
    SubLetter,
}
