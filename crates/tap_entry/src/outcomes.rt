//! What becomes of a page.

/// What becomes of a page, by the rules "calling", "sending a page" and "leaving".
#[derive(Clone, Copy, Debug, Default, PartialEq, Eq)]
pub enum Outcome {
    /// The reply to its last block was ACK.
    Sent,
    /// The reply to one of its blocks was RS.
    Abandoned,
    /// One of its blocks got its third NAK.
    TriesSpent,
    /// The client was logged on, and the connection ended before the page's outcome came.
    Disconnected,
    /// The client was never logged on.
    #[default]
    NoLogon,
}
