//! Writing blocks: docs/profile.md, "block" and "sum".

ghost use Rattle.std.specs.Prelude.{◌≡◌, ℕ, ◌+◌, ◌≤◌, ◌<◌, ◌++◌, length};
ghost use Rattle.std.specs.List.{AllByRecursion};
ghost use Rattle.tap_block.specs.Fields.{block_of};
ghost use Rattle.tap_block.specs.Reading.{IsBody};
ghost use Rattle.tap_block.specs.Chars.{IsChar};
ghost use Rattle.wires.specs.Written.{Puts};

use crate::content::sum;
use crate::control::STX;
use crate::ends::End;
use crate::{LONGEST_BLOCK, LONGEST_BODY};
use arrayvec::ArrayVec;
use entry_line::characters::CR;
use wires::Failed;
use wires::sink::Sink;

/// Puts a whole block as one piece: STX, the body, the end, and a right trailer. After `Failed` the sink has got a prefix of it.
pub fn put_block<K: Sink>(body: &[u8], end: End, sink: &mut K) -> Result<(), Failed>
    requires size { length body.now ≤ LONGEST_BODY }
    requires characters { AllByRecursion IsChar body.now }
    requires body { IsBody body.now }
    ensures { Puts (K.state sink.old) (K.state sink.new) (block_of body.now end) result }
{
    let block = block(body, end);
    sink.put(block.as_slice())
}

/// The characters of a block with a right trailer.
pub fn block(body: &[u8], end: End) -> ArrayVec<u8, LONGEST_BLOCK>
    requires size { length body.now ≤ LONGEST_BODY }
    requires characters { AllByRecursion IsChar body.now }
    ensures { result.items ≡ block_of body.now end }
{
    let mut block = ArrayVec::new();
    append(&mut block, &[STX]);
    append(&mut block, body);
    append(&mut block, &[end.character()]);
    let total = sum(block.as_slice());
    append(&mut block, total.as_slice());
    append(&mut block, &[CR]);
    block
}

/// Appends characters that there is room for.
fn append(block: &mut ArrayVec<u8, LONGEST_BLOCK>, piece: &[u8])
    requires { length block.old.items + length piece.now ≤ LONGEST_BLOCK }
    ensures { block.new.items ≡ block.old.items ++ piece.now }
{
    let _ = block.try_extend_from_slice(piece);
}
