//! What the definitions of a session say, whatever the characters.

ghost use Rattle.std.specs.Prelude.{◌≡◌, ℕ, ◌++◌, List, All};
ghost use Rattle.entry_line.specs.Chars.{lf};
ghost use Rattle.snpp_entry.specs.Lines.{Cut, cut, rejoined, HasNo};
ghost use Rattle.subscribers.specs.Directory.{Directory};
ghost use Rattle.snpp_entry.specs.Rows.{Pending, outcome};
ghost use Rattle.snpp_entry.specs.Sends.{ArePagesOfSends, QueuesAtSend, session_lines};
ghost use Rattle.snpp_entry.specs.Session.{SnppContinues, session};

/// The pieces, each with an LF behind it, and the rest are the characters, and none of them has an LF. No other cut is so.
pub fn cuts()
    ensures joined { (x : List ℕ) → rejoined (cut x) ≡ x }
    ensures pieces { (x : List ℕ) → All (HasNo lf) (cut x).pieces }
    ensures rest { (x : List ℕ) → HasNo lf (cut x).rest }
    ensures only { (k : Cut) → All (HasNo lf) k.pieces → HasNo lf k.rest → cut (rejoined k) ≡ k }
{}

/// The answers and the pages of a front of the characters are the first of all.
pub fn fronts()
    ensures { (directory : Directory) (spare : ℕ) (x y : List ℕ) → SnppContinues (session directory spare x) (session directory spare (x ++ y)) }
{}

/// A SEND that is answered 250 OK queues one page for each capcode of the pending id, with the pending text, and no other line queues a page.
/// So the pages of a session are, for each such SEND in order, one for each capcode of an id of the settings.
pub fn sends()
    ensures line { (directory : Directory) (spare : ℕ) (p : Pending) (line : List ℕ) → QueuesAtSend directory spare p line (outcome directory spare p line) }
    ensures whole { (directory : Directory) (spare : ℕ) (x : List ℕ)
        → ArePagesOfSends directory (session_lines x) (session directory spare x).answers (session directory spare x).pages }
{}
