//! A caller, who sees the contracts alone.

ghost use Rattle.std.specs.Prelude.{◌≡◌, ℕ, ◌<◌, MatchOption};
ghost use Rattle.page_pool.specs.Pool.{Live, TakesFirst};

use crate::pool::Pool;
use codeword::Capcode;

/// Takes the first page of a frame out, and answers its capcode.
pub fn hand_out(pool: &mut Pool, frame: u32) -> Option<Capcode>
    requires { frame < 8 }
    ensures { MatchOption result (pool.new ≡ pool.old) (λ c. (e : Live) × TakesFirst pool.old pool.new frame e) }
{
    let t = pool.first(frame)?;
    let capcode = pool.capcode(t);
    pool.take(t);
    Some(capcode)
}
