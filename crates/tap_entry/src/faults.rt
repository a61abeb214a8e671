//! Why a pages file is refused.

/// Why a pages file is refused, by the rule "pages file".
#[derive(Clone, Copy, Debug, PartialEq, Eq)]
pub enum PagesFault {
    /// There are more than 1,048,576 bytes.
    Long,
    /// This line, counted from 1, is the first that isn't of its form.
    Line(u32),
    /// There was no memory.
    Memory,
}
