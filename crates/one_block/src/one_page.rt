//! The command `one`: the page of one block becomes one transmission. docs/profile.md, "block", "sum", "content", "fields" and
//! "functions".

ghost use Rattle.one_block.specs.Input.{ReadsFront};
ghost use Rattle.std.specs.Prelude.{ℕ, ◌≤◌, List, length, take, MatchOption, ◌≡◌, ◌≢◌, ◌+◌, Bool, [], ◌∷◌, ◌++◌, IsFalse, IsTrue, None, Option, Some};
ghost use Rattle.one_block.specs.LoneBlock.{HasText, IsLoneBlock, IsMarkedBlock};
ghost use Rattle.tap_block.specs.declared.ends.End.TheVariants.{Etx};
ghost use Rattle.tap_block.specs.declared.items.Item.TheVariants.{Block};
ghost use Rattle.tap_block.specs.Brief.{ScannerState, ScannerStandsFor};
ghost use Rattle.tap_block.specs.Chars.{characters, etx, stx};
ghost use Rattle.tap_block.specs.Reading.{AfterLogon, Entry};
ghost use Rattle.one_block.specs.Silent.{BreaksSilence};
ghost use Rattle.codeword.specs.declared.functions.Function.TheVariants.{Alpha};
ghost use Rattle.page_text.specs.Fits.{Fits};
ghost use Rattle.page_text.specs.Page.{Page};
ghost use Rattle.page_pool.specs.Cells.{cells_for};
ghost use Rattle.page_pool.specs.Pool.{pages};
ghost use Rattle.one_block.specs.AlphaPage.{alpha_page};
ghost use Rattle.one_block.specs.OneRow.{OneRow};
ghost use Rattle.one_block.specs.Sends.{SendsPage};

use air::{Sent, transmit};
use codeword::{Capcode, Function};
use endings::statuses::Status;
use page_pool::Pool;
use page_text::fits;
use std::alloc::Global;
use tap_block::control::{ETX, STX};
use tap_block::{End, Item, LONGEST_BLOCK, LONGEST_BODY, Scanner, fields, unescape};
use wires::Failed;
use wires::sink::{Sink, WordBytes};
use wires::source::Source;
use wires::steps::{Steps, Work};

/// The pool of `one` has so many cells, more than the longest body takes.
const CELLS: u32 = 16;

/// Reads bytes into the front of a buffer until it is full or none are left, and answers how many.
fn read_front<I: Source>(input: &mut I, into: &mut [u8]) -> Result<usize, Failed>
    ensures { ReadsFront (I.state input.old) (I.state input.new) into.new result }
{
    let mut count = 0;
    while count < into.len() {
        let n = input.take(&mut into[count..])?;
        if n == 0 {
            return Ok(count);
        }
        count += n;
    }
    Ok(count)
}

/// Writes the text of a content to the front of `into`, and answers its length in characters: the value of its second field. None
/// exactly where the content hasn't two fields with values, or the second value doesn't fit an alphanumeric page.
fn read_text(content: &[u8], into: &mut [u8]) -> Option<usize>
    requires { length content.now ≤ length into.old }
    ensures { MatchOption result ((text : List ℕ) → HasText content.now text → ⊥) (λ n. HasText content.now (take n into.new) × (n ≤ length content.now)) }
{
    let Some((id, text)) = fields(content) else {
        return None;
    };
    if unescape(id, into).is_err() {
        return None;
    }
    let Ok(size) = unescape(text, into) else {
        return None;
    };
    if fits(Function::Alpha, &into[..size]).is_err() {
        return None;
    }
    Some(size)
}

/// Feeds characters to a scanner, and says whether none of them completed an item.
fn is_silent(scanner: &mut Scanner, chars: &[u8]) -> bool
    ensures password { scanner.new.password ≡ scanner.old.password }
    ensures silent { IsTrue result → ScannerStandsFor AfterLogon scanner.old [] [] → ScannerStandsFor AfterLogon scanner.new (characters chars.now) [] }
    ensures broken { IsFalse result → ScannerStandsFor AfterLogon scanner.old [] [] → BreaksSilence scanner.old.password (characters chars.now) }
{
    for c in chars {
        if scanner.feed(*c).is_some() {
            return false;
        }
    }
    true
}

/// The length of the body of a block that ends in ETX and isn't too long, and whether its trailer is right.
fn short_block(item: Item) -> Option<(u32, bool)>
    ensures { MatchOption result ((size : ℕ) (right : Bool) → size ≤ 250 → item ≢ Block Etx right size) (λ r. (item ≡ Block Etx r.1 r.0) × (r.0 ≤ 250)) }
{
    match item {
        Item::Block {
            end: End::Etx,
            sum_ok,
            length,
        } if length <= LONGEST_BODY as u32 => Some((length, sum_ok)),
        _ => None,
    }
}

/// The characters between an STX at the front and an ETX so many characters behind it.
fn between(chars: &[u8], size: usize) -> Option<&[u8]>
    ensures { MatchOption result ((body rest : List ℕ) → chars.now ≡ (stx ∷ body) ++ etx ∷ rest → length body ≡ size → ⊥)
        (λ body. (rest : List ℕ) × (chars.now ≡ (stx ∷ body.now) ++ etx ∷ rest) × (length body.now ≡ size)) }
{
    let [STX, behind @ ..] = chars else {
        return None;
    };
    if size >= behind.len() {
        return None;
    }
    let (body, ended) = behind.split_at(size);
    match ended {
        [ETX, ..] => Some(body),
        _ => None,
    }
}

/// The body of the one block that the characters are, and whether its trailer is right. None exactly where they aren't one block
/// with the end ETX and a body of at most 250 characters.
fn lone_block(chars: &[u8]) -> Option<(&[u8], bool)>
    requires { characters chars.now ≡ chars.now }
    ensures { MatchOption result ((body trailer : List ℕ) → IsLoneBlock chars.now body trailer → ⊥) (λ r. IsMarkedBlock chars.now r.0.now r.1) }
{
    let Some((last, before)) = chars.split_last() else {
        return None;
    };
    let mut scanner = Scanner::blocks();
    if !is_silent(&mut scanner, before) {
        return None;
    }
    let Some(item) = scanner.feed(*last) else {
        return None;
    };
    let Some((size, right)) = short_block(item) else {
        return None;
    };
    let Some(body) = between(chars, size as usize) else {
        return None;
    };
    if body == scanner.body() {
        Some((body, right))
    } else {
        None
    }
}

/// Puts the character of each byte in its place: its low seven bits.
fn to_characters(bytes: &mut [u8])
    ensures characters { bytes.new ≡ characters bytes.old }
    ensures same { characters bytes.new ≡ bytes.new }
{
    for byte in bytes.iter_mut() {
        *byte %= 128;
    }
}

/// Puts an alphanumeric page into an empty pool that has room for it.
fn put(pool: &mut Pool, capcode: Capcode, text: &[u8])
    requires fits { Fits Alpha text.now }
    requires empty { pool.old.live ≡ [] }
    requires room { cells_for (length text.now) ≤ pool.old.spare }
    ensures { pages pool.new ≡ alpha_page capcode text.now ∷ [] }
{
    let _ = pool.put(capcode, Function::Alpha, text);
}

/// Writes the transmission of a pool's page as bytes.
pub(crate) fn send<O: Sink>(pool: &mut Pool, out: &mut O) -> Result<Sent, Failed>
    ensures { (page : Page) → pages pool.old ≡ page ∷ [] → SendsPage page (O.state out.old) (O.state out.new) result }
{
    let mut steps: Steps<Work> = Steps::new();
    let mut words = WordBytes::over(out);
    transmit(pool, &mut words, &mut steps)
}

/// Reads one block from the input, puts its page into the pool, and writes the transmission.
fn read_and_send<I: Source, O: Sink>(
    pool: &mut Pool,
    capcode: Capcode,
    input: &mut I,
    out: &mut O,
) -> Status
    requires empty { pool.old.live ≡ [] }
    requires room { pool.old.spare ≡ CELLS }
    ensures { OneRow capcode (record { input = I.state input.old; out = O.state out.old }) (record { input = I.state input.new; out = O.state out.new }) result }
{
    let mut buffer = [0; LONGEST_BLOCK + 1];
    let size = match read_front(input, &mut buffer) {
        Ok(size) => size,
        Err(Failed) => return Status::InputFault,
    };
    let chars = &mut buffer[..size];
    to_characters(chars);
    let Some((body, right)) = lone_block(chars) else {
        return Status::NotBlock;
    };
    if !right {
        return Status::BadSum;
    }
    let mut text = [0; LONGEST_BODY];
    let Some(length) = read_text(body, &mut text) else {
        return Status::BadText;
    };
    put(pool, capcode, &text[..length]);
    match send(pool, out) {
        Ok(_) => Status::Done,
        Err(Failed) => Status::OutFault,
    }
}

/// Reads one block from the input and writes the transmission of its text, as an alphanumeric page to this capcode. The text is the
/// value of the second of the two fields of the block's content; the first must have a value, and isn't looked up. At most 257
/// bytes of the input are read, one more than the longest block has.
///
/// The answer is Memory where there was none for the cells of a pool, and nothing is read or written then; InputFault where a read
/// failed; NotBlock exactly where the input isn't one block with the end ETX and a body of at most 250 characters; BadSum exactly
/// where its trailer is wrong; BadText exactly where its content hasn't two fields with values, or the text isn't of 0x20 to 0x7E, CR
/// and LF; OutFault where a write failed; else Done. They are judged in this order. Nothing is written where the block is refused.
pub fn one<I: Source, O: Sink>(
    alloc: Global,
    capcode: Capcode,
    input: &mut I,
    out: &mut O,
) -> Status
    ensures { OneRow capcode (record { input = I.state input.old; out = O.state out.old }) (record { input = I.state input.new; out = O.state out.new }) result }
{
    let Ok(mut pool) = Pool::new(alloc, CELLS) else {
        return Status::Memory;
    };
    read_and_send(&mut pool, capcode, input, out)
}
