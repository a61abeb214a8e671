//! What is heard of transmissions with few wrong bits.

ghost use Rattle.near.specs.NearAir.{CleanAir, NearAir};

/// Where every preamble is heard as it was sent, and every word after it with at most two wrong bits, a receiver hears exactly the
/// accepted pages of its capcodes, whole, and those of one frame in order. Transmissions that are heard as they were sent are near.
pub fn near_air()
    ensures near { NearAir }
    ensures clean { CleanAir }
{}
