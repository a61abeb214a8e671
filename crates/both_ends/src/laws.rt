//! A client and a terminal that hear one another.

ghost use Rattle.both_ends.specs.Joined.{BothEnds};

/// Where a client says what it says for the marks of the terminal's replies, and the terminal replies so to what the client says, the
/// accepted pages are, for each page that the client marks Sent in order, one for each capcode of its id, in the order of the settings,
/// with the id's function and the page's text.
pub fn joined()
    ensures { BothEnds }
{}
