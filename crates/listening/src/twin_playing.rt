//! The lines that receivers print which hear each transmission twice.

ghost use Rattle.repeats.specs.TwinListeners.{StandsForTwice};
ghost use Rattle.listening.specs.TwinLines.{twin_group_lines};

use crate::listening::Listener;
use crate::playing::{Showing, show_ready};
use codeword::Capcode;
use repeats::TwinGroup;
use wires::Failed;
use wires::piece::Piece;
use wires::sink::Sink;
use wires::steps::{Steps, Work};

impl Showing for TwinGroup {
    ghost completed = { λ g. g.ready };

    ghost holders = { λ g. g.holders };

    fn text_of(&self, into: &mut [u8]) -> usize {
        self.text(into)
    }

    fn holder_of(&self, capcode: Capcode, k: u32) -> Option<u32> {
        self.holder(capcode, k)
    }
}

impl Listener for TwinGroup {
    ghost printed = { λ g. twin_group_lines g };

    ghost fed = { λ g bits. StandsForTwice g bits };

    #[inline(always)]
    fn hear<O: Sink>(&mut self, piece: &mut Piece, out: &mut O) -> Result<(), Failed> {
        let mut steps = Steps::<Work>::new();
        let Some(page) = self.feed_piece(piece, &mut steps) else {
            return Ok(());
        };
        show_ready(self, &page, out)
    }
}
