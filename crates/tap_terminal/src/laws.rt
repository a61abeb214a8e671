//! What the definitions of a session say, whatever the characters.

ghost use Rattle.std.specs.Prelude.{◌≡◌, ℕ, ◌++◌, List, Option, length};
ghost use Rattle.subscribers.specs.Directory.{Directory};
ghost use Rattle.tap_terminal.specs.Session.{Session, IsSession, Continues};
ghost use Rattle.tap_terminal.specs.State.{TerminalState, Stands};

/// Each list of characters has exactly one session.
pub fn one_session()
    ensures some { (password : Option (List ℕ)) (directory : Directory) (spare : ℕ) (x : List ℕ) → (session : Session) × IsSession password directory spare x session }
    ensures only { (password : Option (List ℕ)) (directory : Directory) (spare : ℕ) (x : List ℕ) (a b : Session)
        → IsSession password directory spare x a → IsSession password directory spare x b → a ≡ b }
{}

/// Where a terminal stands for characters with a session, it is the session of these characters.
pub fn standing()
    ensures { (password : Option (List ℕ)) (directory : Directory) (spare left : ℕ) (t : TerminalState) (x : List ℕ) (session : Session)
        → Stands password directory spare t x session left → IsSession password directory spare x session }
{}

/// A report counts the pages that were queued, and not the blocks that queued them: in each session, and so in whatever a terminal
/// stands for.
pub fn counted()
    ensures session { (password : Option (List ℕ)) (directory : Directory) (spare : ℕ) (x : List ℕ) (session : Session)
        → IsSession password directory spare x session → session.report.pages ≡ length session.pages }
    ensures terminal { (password : Option (List ℕ)) (directory : Directory) (spare left : ℕ) (t : TerminalState) (x : List ℕ) (session : Session)
        → Stands password directory spare t x session left → t.report.pages ≡ length session.pages }
{}

/// The answers and the pages of a front of the characters are the first of all.
pub fn fronts()
    ensures { (password : Option (List ℕ)) (directory : Directory) (spare : ℕ) (x y : List ℕ) (front whole : Session)
        → IsSession password directory spare x front → IsSession password directory spare (x ++ y) whole → Continues front whole }
{}
