//! Where files stand, and one file as a sink.
ghost use Rattle.std.specs.Prelude.{◌≡◌, ◌<◌, length};
ghost use Rattle.wires.specs.Files.{AppendsTo, Files, Freshens, ReadsAt};
ghost use Rattle.wires.specs.Stacked.{file_over};

use crate::Failed;
use crate::sink::Sink;

/// Files under names.
pub trait Shelf {
    /// Its content is a map from names to bytes.
    ghost state: { Self → Files };

    /// Copies bytes of a file, from the place `from` on, into the front of `into`, which is not empty, and answers how
    /// many. It answers 0 exactly where the file ends at or before `from`. No file changes, whatever it answers. A name
    /// that is not there is a fault. It is proper at a name that is there.
    fn read(&mut self, name: &str, from: u64, into: &mut [u8]) -> Result<usize, Failed>
        requires { 0 < length into.old }
        ensures { ReadsAt (state self.old) (state self.new) name.now from into.new result };

    /// Makes a file fresh: it then holds no bytes. After `Failed` it holds what it held or no bytes. All other names
    /// stay, whatever it answers. It is proper at a name that is there, and once at a further one of at most 255 bytes.
    fn fresh(&mut self, name: &str) -> Result<(), Failed>
        ensures { Freshens (state self.old) (state self.new) name.now result };

    /// Appends the piece to a file. After `Failed` a prefix of it was appended. All other names stay, whatever it
    /// answers. It is proper at a name that was made fresh, where the piece fits in the room left.
    fn append(&mut self, name: &str, piece: &[u8]) -> Result<(), Failed>
        ensures { AppendsTo (state self.old) (state self.new) name.now piece.now result };
}

/// One file of a shelf as a sink: each write is an `append`. Its content is the file's bytes, its room the file's, and
/// its faults the shelf's. It is steady where the shelf is and the name was made fresh.
#[derive(Drop)]
pub struct Appending<'a, F: Shelf> {
    shelf: &'a mut F,
    name: &'a str,
}

impl<'a, F: Shelf> Appending<'a, F> {
    /// The file of this name.
    pub fn over(shelf: &'a mut F, name: &'a str) -> Appending<'a, F>
        ensures same_reference { result.shelf.ghost_name ≡ shelf.entry.ghost_name }
        ensures same { result.shelf.now ≡ shelf.old }
        ensures name { result.name.now ≡ name.now }
    {
        Appending { shelf, name }
    }
}

impl<'a, F: Shelf> Sink for Appending<'a, F> {
    ghost state = { λ s. file_over s.shelf.ghost_name s.name.now (F.state s.shelf.now) };

    fn put(&mut self, piece: &[u8]) -> Result<(), Failed> {
        self.shelf.append(self.name, piece)
    }
}
