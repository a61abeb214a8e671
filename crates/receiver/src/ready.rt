//! Pages that are complete.

use codeword::{Capcode, Function};

/// A page that is complete: to which capcode, and with which function. Its text is asked for by the call `text` of what answered it.
#[derive(Clone, Copy, Debug, PartialEq, Eq)]
pub struct Ready {
    pub capcode: Capcode,
    pub function: Function,
}
