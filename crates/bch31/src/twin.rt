//! The plain twin of the correction: a slow search through all words within two bits, whose contract is the definition.

ghost use Rattle.std.specs.Prelude.{ℕ, ◌≤◌, IfSome, IsNone};
ghost use Rattle.bch31.specs.Fix.{IsFix, HasNoFix};
ghost use Rattle.bch31.specs.Twin.{IsNear};

use crate::check::is_codeword;

/// A codeword that differs from `w` only among the `places` lowest bits, and there in at most `left`.
fn search(w: u32, places: u32, left: u32) -> Option<u32>
    requires { places ≤ 32 }
    ensures some { IfSome result (λ v. IsNear w v places left) }
    ensures none { IsNone result → (v : ℕ) → IsNear w v places left → ⊥ }
{
    if places == 0 {
        return if is_codeword(w) { Some(w) } else { None };
    }
    let place = places - 1;
    match search(w, place, left) {
        Some(v) => Some(v),
        None => {
            if left == 0 {
                None
            } else {
                search(w ^ (1 << place), place, left - 1)
            }
        }
    }
}

/// The codeword within two bits of the word, or None.
pub fn searched(w: u32) -> Option<u32>
    ensures some { IfSome result (λ v. IsFix w v) }
    ensures none { IsNone result → HasNoFix w }
{
    search(w, 32, 2)
}
