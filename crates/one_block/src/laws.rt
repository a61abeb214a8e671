//! What the answers of `one` exclude.

ghost use Rattle.std.specs.Prelude.{◌≡◌, ℕ, Bool, List};
ghost use Rattle.one_block.specs.LoneBlock.{HasText, IsMarkedBlock};

/// An input is at most one block, with a right trailer or a wrong one, and a content has at most one text. So the answers of `one`
/// that speak of its input exclude one another.
pub fn one_answer()
    ensures block { (x body other : List ℕ) (right marked : Bool) → IsMarkedBlock x body right → IsMarkedBlock x other marked → (other ≡ body) × (marked ≡ right) }
    ensures text { (content text other : List ℕ) → HasText content text → HasText content other → other ≡ text }
{}
