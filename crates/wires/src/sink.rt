//! Where bytes and bits are written to.
ghost use Rattle.std.specs.Prelude.{◌≡◌, ℕ, ◌*◌, ◌≤◌, Bool, length, take};
ghost use Rattle.bits.specs.Bits.{word_bits, words_bits};
ghost use Rattle.wires.specs.Stacked.{bits_over, words_bytes};
ghost use Rattle.wires.specs.Written.{Written, Puts};

use crate::Failed;

/// Bytes can be written to it.
pub trait Sink {
    /// Its content is the bytes written.
    ghost state: { Self → Written ℕ };

    /// Appends the piece. After `Failed` a prefix of it was appended.
    fn put(&mut self, piece: &[u8]) -> Result<(), Failed>
        ensures { Puts (state self.old) (state self.new) piece.now result };
}

/// Bits can be written to it, in words of 32.
pub trait BitSink {
    /// Its content is the bits written.
    ghost state: { Self → Written Bool };

    /// Appends the word's 32 bits, bit 1 first, which is the most significant. After `Failed` a prefix of these bits
    /// was appended.
    fn word(&mut self, w: u32) -> Result<(), Failed>
        ensures { Puts (state self.old) (state self.new) (word_bits w) result };

    /// Appends the bits of the words, one word after another. After `Failed` a prefix of these bits was appended.
    fn words(&mut self, words: &[u32]) -> Result<(), Failed>
        ensures { Puts (state self.old) (state self.new) (words_bits words.now) result }
    {
        for w in words {
            self.word(*w)?;
        }
        Ok(())
    }
}

/// So many words are handed to the sink below in one piece.
const WORDS_IN_A_PIECE: usize = 32;
/// The bytes of a word.
const WORD_SIZE: usize = 4;
/// The bytes of a whole piece.
const PIECE_SIZE: usize = WORDS_IN_A_PIECE * WORD_SIZE;

/// Words over a sink of bytes, four bytes a word, the most significant first. Its content is the bits of the sink's
/// bytes, and its faults are the sink's.
#[derive(Drop)]
pub struct WordBytes<'a, K: Sink> {
    sink: &'a mut K,
}

impl<'a, K: Sink> WordBytes<'a, K> {
    /// Words over this sink.
    pub fn over(sink: &'a mut K) -> WordBytes<'a, K>
        ensures same_reference { result.sink.ghost_name ≡ sink.entry.ghost_name }
        ensures same { result.sink.now ≡ sink.old }
    {
        WordBytes { sink }
    }

    /// Writes the words of one piece by one call of the sink below.
    fn piece(&mut self, words: &[u32]) -> Result<(), Failed>
        requires { length words.now ≤ WORDS_IN_A_PIECE }
        ensures { Puts (bits_over self.old.sink.ghost_name (K.state self.old.sink.now)) (bits_over self.new.sink.ghost_name (K.state self.new.sink.now)) (words_bits words.now) result }
    {
        let mut buffer = [0; PIECE_SIZE];
        lay_out(words, &mut buffer);
        self.sink.put(&buffer[..WORD_SIZE * words.len()])
    }
}

impl<'a, K: Sink> BitSink for WordBytes<'a, K> {
    ghost state = { λ s. bits_over s.sink.ghost_name (K.state s.sink.now) };

    fn word(&mut self, w: u32) -> Result<(), Failed> {
        self.sink.put(&w.to_be_bytes())
    }

    /// Hands over up to 32 words in each call of the sink below.
    fn words(&mut self, words: &[u32]) -> Result<(), Failed> {
        let mut rest = words;
        while !rest.is_empty() {
            let (piece, later) = rest.split_at(rest.len().min(WORDS_IN_A_PIECE));
            self.piece(piece)?;
            rest = later;
        }
        Ok(())
    }
}

/// Writes the words' bytes to the front of a buffer, each word's most significant byte first.
fn lay_out(words: &[u32], into: &mut [u8])
    requires { WORD_SIZE * length words.now ≤ length into.old }
    ensures { take (WORD_SIZE * length words.now) into.new ≡ words_bytes words.now }
{
    for k in 0..words.len() {
        let at = WORD_SIZE * k;
        into[at..at + WORD_SIZE].copy_from_slice(&words[k].to_be_bytes());
    }
}
