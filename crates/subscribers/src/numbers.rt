//! The map that numbers make.

ghost use Rattle.std.specs.Prelude.{◌≡◌, ◌==◌, map, IfOk};
ghost use Rattle.std.specs.List.{IsDistinct};
ghost use Rattle.std.specs.FinMap.{from_entries};
ghost use Rattle.subscribers.specs.Made.{numbered, numbers_of};

use crate::directory::Directory;
use codeword::{Capcode, Function};
use itoa::Buffer;
use std::alloc::{AllocError, Global};

/// The map of the decimal digits of these numbers, each with its capcode and function. The numbers differ.
pub fn directory_of_numbers(
    alloc: Global,
    numbers: &[(u32, Capcode, Function)],
) -> Result<Directory, AllocError>
    requires { IsDistinct ◌==◌ (numbers_of numbers.now) }
    ensures { IfOk result (λ d. d ≡ from_entries (map numbered numbers.now)) }
{
    let mut directory = Directory::new(alloc);
    let mut digits = Buffer::new();
    for (number, capcode, function) in numbers {
        directory.insert(
            alloc,
            digits.format(*number).as_bytes(),
            *function,
            &[*capcode],
        )?;
    }
    Ok(directory)
}
