//! The files of the system as a shelf. It tells its faults and no content.

ghost use Rattle.std.specs.Prelude.{◌≡◌, ℕ, IfOk, ◌≤◌, length};
ghost use Rattle.wires.specs.Silent.{silent_shelf};

use std::alloc::Global;
use std::fs::{File, OpenOptions};
use std::io;
use std::io::{Read, Seek, SeekFrom, Write};
use std::rt::Files;
use wires::Failed;
use wires::shelf::Shelf;

/// A file that stays open, with its name.
#[derive(Drop)]
struct Kept<F> {
    name: String,
    file: F,
}

/// Files under their paths. The file that was read last and the one that was appended to last stay open, as long as there is
/// memory for their names.
#[derive(Drop)]
pub struct FileShelf<R: Files + Drop> {
    rt: R,
    alloc: Global,
    reading: Option<Kept<R::File>>,
    appending: Option<Kept<R::File>>,
    faults: u64,
}

impl<R: Files + Drop> FileShelf<R> {
    /// The files of this system. No fault was counted yet.
    pub fn over(rt: R, alloc: Global) -> FileShelf<R>
        ensures { result.faults ≡ 0 }
    {
        FileShelf {
            rt,
            alloc,
            reading: None,
            appending: None,
            faults: 0,
        }
    }

    /// Reads from a place on in the file that stays open, or in the one of this name, which then stays open.
    fn read_from(&mut self, name: &str, from: u64, into: &mut [u8]) -> io::Result<usize>
        ensures within { IfOk result (λ n. n ≤ length into.new) }
        ensures faults { self.new.faults ≡ self.old.faults }
    {
        if let Some(kept) = &mut self.reading
            && kept.name.as_str() == name
        {
            return read_at(&mut kept.file, from, into);
        }
        let mut file = File::open(&self.rt, name)?;
        let n = read_at(&mut file, from, into)?;
        if let Ok(name) = String::from_str(self.alloc, name) {
            self.reading = Some(Kept { name, file });
        }
        Ok(n)
    }

    /// Appends to the file that stays open, or to the one of this name, which then stays open. A name that isn't there is an
    /// error.
    fn append_to(&mut self, name: &str, piece: &[u8]) -> io::Result<()>
        ensures { self.new.faults ≡ self.old.faults }
    {
        if let Some(kept) = &mut self.appending
            && kept.name.as_str() == name
        {
            return kept.file.write_all(piece);
        }
        let mut file = OpenOptions::new().append(true).open(&self.rt, name)?;
        file.write_all(piece)?;
        if let Ok(name) = String::from_str(self.alloc, name) {
            self.appending = Some(Kept { name, file });
        }
        Ok(())
    }
}

/// Reads from a place on in an open file.
fn read_at<F: Read + Seek>(file: &mut F, from: u64, into: &mut [u8]) -> io::Result<usize>
    ensures { IfOk result (λ n. n ≤ length into.new) }
{
    file.seek(SeekFrom::Start(from))?;
    file.read(into)
}

impl<R: Files + Drop> Shelf for FileShelf<R> {
    ghost state = { λ s. silent_shelf s.faults };

    fn read(&mut self, name: &str, from: u64, into: &mut [u8]) -> Result<usize, Failed> {
        match self.read_from(name, from, into) {
            Ok(n) => Ok(n),
            Err(_) => {
                self.faults = self.faults.saturating_add(1);
                Err(Failed)
            }
        }
    }

    fn fresh(&mut self, name: &str) -> Result<(), Failed> {
        self.reading = None;
        self.appending = None;
        match File::create(&self.rt, name) {
            Ok(_file) => Ok(()),
            Err(_) => {
                self.faults = self.faults.saturating_add(1);
                Err(Failed)
            }
        }
    }

    fn append(&mut self, name: &str, piece: &[u8]) -> Result<(), Failed> {
        match self.append_to(name, piece) {
            Ok(()) => Ok(()),
            Err(_) => {
                self.faults = self.faults.saturating_add(1);
                Err(Failed)
            }
        }
    }
}

#[cfg(test)]
mod tests {
    use super::FileShelf;
    use std::alloc::Global;
    use std::test::Fail;
    use wires::Failed;
    use wires::shelf::Shelf;

    /// A file of its own, in the folder where the tests run.
    const NAME: &str = "pocsag-file-shelf.tmp";

    /// What is read of a fresh file; of one with seven bytes, from its front, from its sixth byte and behind its end; and of the same
    /// made fresh again.
    const CARRIED: [&[u8]; 5] = [b"", b"abcd", b"fg", b"", b""];

    /// Makes the file fresh.
    fn fresh<S: Shelf>(shelf: &mut S) -> Result<(), Fail> {
        if shelf.fresh(NAME).is_err() {
            return Err(Fail::from("it isn't made fresh"));
        }
        Ok(())
    }

    /// Appends to the file.
    fn append<S: Shelf>(shelf: &mut S, piece: &[u8]) -> Result<(), Fail> {
        if shelf.append(NAME, piece).is_err() {
            return Err(Fail::from("nothing is appended"));
        }
        Ok(())
    }

    /// Reads four bytes of the file, or those that are left.
    fn read<S: Shelf>(alloc: Global, shelf: &mut S, from: u64) -> Result<Vec<u8>, Fail> {
        let mut into = [0; 4];
        match shelf.read(NAME, from, &mut into) {
            Ok(size) => Ok(Vec::from_slice(alloc, into.get(..size).unwrap_or(&[]))?),
            Err(Failed) => Err(Fail::from("it isn't read")),
        }
    }

    /// Makes the file and reads it as the table says.
    fn reads<S: Shelf>(alloc: Global, shelf: &mut S) -> Result<Vec<Vec<u8>>, Fail> {
        let mut reads = Vec::new(alloc);
        fresh(shelf)?;
        reads.push(read(alloc, shelf, 0)?)?;
        append(shelf, b"abc")?;
        append(shelf, b"defg")?;
        for from in [0, 5, 9] {
            reads.push(read(alloc, shelf, from)?)?;
        }
        fresh(shelf)?;
        reads.push(read(alloc, shelf, 0)?)?;
        Ok(reads)
    }

    #[test]
    fn files_carry_their_bytes(rt: HostRuntime) -> Result<(), Fail> {
        let reads = reads(rt.alloc(), &mut FileShelf::over(&rt, rt.alloc()))?;
        assert_eq!(rt; reads.len(), CARRIED.len());
        for (read, bytes) in reads.iter().zip(CARRIED) {
            assert_eq!(rt; read.as_slice(), bytes);
        }
        std::fs::remove_file(&rt, NAME)?;
        Ok(())
    }

    #[test]
    fn a_name_that_is_not_there_fails(rt: HostRuntime) {
        let mut shelf = FileShelf::over(&rt, rt.alloc());
        let mut into = [0; 4];
        assert_eq!(rt;
            shelf.read("pocsag-no-such-file.tmp", 0, &mut into),
            Err(Failed)
        );
        assert_eq!(rt; shelf.append("pocsag-no-such-file.tmp", b"x"), Err(Failed));
        assert_eq!(rt; shelf.fresh("pocsag-no-such-folder/file.tmp"), Err(Failed));
    }
}
