//! Laws of what is heard of transmissions that are sent twice.

ghost use Rattle.repeats.specs.Kept.{KeptFrames, OneKept};
ghost use Rattle.repeats.specs.TwinGrowing.{TwicePagesGrow};

/// Where a transmission is sent twice, and each word of a copy is heard with at most two wrong bits or can't be read, receivers hear
/// exactly the accepted pages of their capcodes that have a clean copy of each word, and of the word after them, whole, and those of
/// one frame in order.
pub fn kept()
    ensures frames { KeptFrames }
    ensures one { OneKept }
{}

/// Of longer bits no less is heard twice, and what was heard stays.
pub fn twice_grows()
    ensures { TwicePagesGrow }
{}
