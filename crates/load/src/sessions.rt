//! The pages that are drawn, and their session.

ghost use Rattle.std.specs.Prelude.{◌≡◌, ℕ, ◌<◌, ◌≤◌, ◌+◌, ◌++◌, [], List};
ghost use Rattle.std.specs.List.{AllByRecursion};
ghost use Rattle.tap_block.specs.Chars.{IsChar, characters};
ghost use Rattle.load.specs.Feeding.{IsFed};
ghost use Rattle.load.specs.Draws.{draw, generator_at};
ghost use Rattle.load.specs.Generated.{drawn_body, drawn_characters, drawn_length, drawn_session, drawn_text, page_begins, page_draws, text_draws};
ghost use Rattle.arrayvec.specs.ArrayVec.{array_vec_len};

use crate::draws::Draws;
use crate::network::{SUBSCRIBERS, function_at, id_at};
use arrayvec::ArrayVec;
use codeword::Function;
use endings::lines::{push, push_number};
use entry_line::characters::CR;
use page_pool::Pool;
use subscribers::Settings;
use tap_block::control::EOT;
use tap_block::writer::block;
use tap_block::{End, LONGEST_BODY};
use tap_terminal::Terminal;

/// What a session begins with: an empty line, and a logon.
const LOGON: [u8; 6] = *b"\r\x1BPG1\r";

/// What it ends with.
const GOODBYE: [u8; 2] = [EOT, CR];

/// The most characters of a numeric text, and of an alphanumeric one.
const LONGEST_NUMERIC_DRAWN: u32 = 20;

const LONGEST_ALPHA_DRAWN: u32 = 60;

/// The body of a block.
type Body = ArrayVec<u8, LONGEST_BODY>;

/// Feeds the terminal a session with so many pages, which are drawn.
pub(crate) fn feed_session(
    count: u32,
    draws: &mut Draws,
    terminal: &mut Terminal,
    settings: &Settings,
    pool: &mut Pool,
)
    ensures fed { (seed spare : ℕ) → draws.old.generator ≡ generator_at seed 0 → IsFed settings.now spare terminal.old pool.old []
        → IsFed settings.now spare terminal.new pool.new (characters (drawn_session (draw seed) count)) }
    ensures further { (seed : ℕ) → draws.old.generator ≡ generator_at seed 0 → draws.new.generator ≡ generator_at seed (page_begins (draw seed) count) }
{
    feed(&LOGON, terminal, settings, pool);
    for _ in 0..count {
        let body = draw_body(draws);
        feed(
            block(body.as_slice(), End::Etx).as_slice(),
            terminal,
            settings,
            pool,
        );
    }
    feed(&GOODBYE, terminal, settings, pool);
}

/// Feeds bytes. Their answers aren't looked at.
fn feed(bytes: &[u8], terminal: &mut Terminal, settings: &Settings, pool: &mut Pool)
    ensures { (spare : ℕ) (x : List ℕ) → IsFed settings.now spare terminal.old pool.old x → IsFed settings.now spare terminal.new pool.new (x ++ characters bytes.now) }
{
    for byte in bytes {
        let _ = terminal.feed(*byte, settings, pool);
    }
}

/// Draws a page: the body of its block, which is the id of a subscriber, CR, a text, CR.
fn draw_body(draws: &mut Draws) -> Body
    ensures characters { AllByRecursion IsChar result.items }
    ensures body { (seed k : ℕ) → draws.old.generator ≡ generator_at seed k → result.items ≡ drawn_body (draw seed) k }
    ensures further { (seed k : ℕ) → draws.old.generator ≡ generator_at seed k → draws.new.generator ≡ generator_at seed (k + page_draws (draw seed) k) }
{
    let i = draws.below(SUBSCRIBERS);
    let mut body = Body::new();
    push_number(id_at(i), &mut body);
    push(&[CR], &mut body);
    draw_text(function_at(i), draws, &mut body);
    push(&[CR], &mut body);
    body
}

/// Draws a text that fits the function, and appends it.
fn draw_text(function: Function, draws: &mut Draws, body: &mut Body)
    requires { array_vec_len body.old + LONGEST_ALPHA_DRAWN ≤ LONGEST_BODY }
    ensures characters { AllByRecursion IsChar body.old.items → AllByRecursion IsChar body.new.items }
    ensures text { (seed k : ℕ) → draws.old.generator ≡ generator_at seed k → body.new.items ≡ body.old.items ++ drawn_text (draw seed) k function }
    ensures further { (seed k : ℕ) → draws.old.generator ≡ generator_at seed k → draws.new.generator ≡ generator_at seed (k + text_draws (draw seed) k function) }
    ensures few { array_vec_len body.new ≤ array_vec_len body.old + LONGEST_ALPHA_DRAWN }
{
    match function {
        Function::Numeric => draw_characters(LONGEST_NUMERIC_DRAWN, b'0', 10, draws, body),
        Function::Alpha => draw_characters(LONGEST_ALPHA_DRAWN, b'A', 26, draws, body),
        Function::Tone1 | Function::Tone2 => {}
    }
}

/// Draws a length from 1 to the longest, and then so many characters, each one of so many from the first on.
fn draw_characters(longest: u32, first: u8, kinds: u32, draws: &mut Draws, body: &mut Body)
    requires some { 0 < longest }
    requires kind { 0 < kinds }
    requires letters { first + kinds ≤ 128 }
    requires room { array_vec_len body.old + longest ≤ LONGEST_BODY }
    ensures ascii { AllByRecursion IsChar body.old.items → AllByRecursion IsChar body.new.items }
    ensures characters { (seed k : ℕ) → draws.old.generator ≡ generator_at seed k
        → body.new.items ≡ body.old.items ++ drawn_characters (draw seed) (k + 1) first kinds (drawn_length (draw seed) k longest) }
    ensures further { (seed k : ℕ) → draws.old.generator ≡ generator_at seed k → draws.new.generator ≡ generator_at seed (k + (1 + drawn_length (draw seed) k longest)) }
    ensures few { array_vec_len body.new ≤ array_vec_len body.old + longest }
{
    let length = 1 + draws.below(longest);
    for _ in 0..length {
        let character = first + draws.below(kinds) as u8;
        push(&[character], body);
    }
}
