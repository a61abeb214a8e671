//! Laws of the code.

ghost use Rattle.bch31.specs.Distance.{CodewordsAreSixApart};
ghost use Rattle.bch31.specs.Fix.{FixOfIsFix};
ghost use Rattle.bch31.specs.Word.{OneWord};

/// Each number below 2^21 is the front of exactly one codeword, and `word_of` is it.
pub fn one_word()
    ensures { OneWord }
{}

/// Two different codewords differ in at least six bits. So a word has at most one codeword within two bits.
pub fn six_apart()
    ensures { CodewordsAreSixApart }
{}

/// What the correction computes is the codeword within two bits.
pub fn fixes()
    ensures { FixOfIsFix }
{}
