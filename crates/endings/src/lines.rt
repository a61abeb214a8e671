//! Bytes and numbers, appended to a line that is to be put.

ghost use Rattle.std.specs.Prelude.{◌≡◌, ◌+◌, ◌≤◌, ◌++◌, decimal, length};
ghost use Rattle.arrayvec.specs.ArrayVec.{array_vec_len};

use arrayvec::ArrayVec;
use itoa::Buffer;

/// The most digits of a number of 32 bits.
pub const DIGITS: usize = 10;

/// Appends a number in decimal without zeros in front.
pub fn push_number<const SIZE: usize>(number: u32, line: &mut ArrayVec<u8, SIZE>)
    requires { array_vec_len line.old + DIGITS ≤ SIZE }
    ensures items { line.new.items ≡ line.old.items ++ decimal number }
    ensures few { array_vec_len line.new ≤ array_vec_len line.old + DIGITS }
{
    let mut buffer = Buffer::new();
    push(buffer.format(number).as_bytes(), line);
}

/// Appends bytes.
pub fn push<const SIZE: usize>(bytes: &[u8], line: &mut ArrayVec<u8, SIZE>)
    requires { array_vec_len line.old + length bytes.now ≤ SIZE }
    ensures items { line.new.items ≡ line.old.items ++ bytes.now }
    ensures len { array_vec_len line.new ≡ array_vec_len line.old + length bytes.now }
{
    let _ = line.try_extend_from_slice(bytes);
}
