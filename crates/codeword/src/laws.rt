//! Laws of the words.

ghost use Rattle.codeword.specs.Kinds.{AddressesAreRead, KindOfIsKind, MessagesAreRead};
ghost use Rattle.codeword.specs.Runs.{AddressesAreNotIdle, MessagesAreNotIdle};

/// No address word of a usable capcode and no message word is the idle word or the sync word.
pub fn runs_are_not_idle()
    ensures addresses { AddressesAreNotIdle }
    ensures messages { MessagesAreNotIdle }
{}

/// What `kind_of` computes is the kind of the codeword within two bits. So a word has at most one kind.
pub fn kinds()
    ensures { KindOfIsKind }
{}

/// With at most two wrong bits an address word is read as its capcode's high bits and its function, and a message word as its group.
pub fn words_are_read()
    ensures addresses { AddressesAreRead }
    ensures messages { MessagesAreRead }
{}
