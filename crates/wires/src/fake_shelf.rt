//! A shelf in memory. The room for the one file that can be added is taken when the shelf is made.
ghost use Rattle.std.specs.Prelude.{◌≡◌, ℕ, ◌+◌, ◌-◌, ◌<◌, ◌≤◌, ◌^◌, ◌&&◌, All, IfNone, IfOk, IfSome, IsFalse, IsSome, IsTrue, MatchOption, None, [], ◌++◌, bytes_eq, drop, false, is_some, length, map, min, nat_le, take, true, vec_capacity, vec_len};
ghost use Rattle.wires.specs.Calls.{no_calls};
ghost use Rattle.wires.specs.FakeShelf.{AppendsIn, AppendsInMemory, CopiesIn, FilesInMemory, FreshensIn, FreshensInMemory, IsPlace, ReadsInMemory, bytes_of, can_append, can_freshen, file_of, fresh_file, look, shelf_tells, stored};
ghost use Rattle.wires.specs.Files.{AppendsTo, Freshens, ReadsAt};

use crate::fakes::{Calls, move_front};
use crate::shelf::Shelf;
use crate::{Failed, Memory};
use std::alloc::{AllocError, Global};
use std::marker::Model;

/// The longest name that a further file may have, in bytes.
const LONGEST_NAME: usize = 255;

/// A file in memory. Once it was made fresh it can hold `most` bytes.
#[derive(Drop)]
struct File {
    name: String,
    bytes: Vec<u8>,
    fresh: bool,
    most: usize,
}

impl Model for File {
    ghost use Rattle.std.specs.Prelude.{◌≤◌, IsTrue, string_bytes, vec_capacity, vec_len};
    ghost use Rattle.wires.specs.FakeShelf.{FileInMemory};

    ghost Value = { FileInMemory };

    ghost view = { λ f. record { name = string_bytes f.name; bytes = f.bytes.items; fresh = f.fresh; most = f.most } };

    ghost invariant = { λ f. (IsTrue f.fresh → vec_len f.bytes ≤ f.most) × (f.most ≤ vec_capacity f.bytes) };
}

impl File {
    /// A file that was not made fresh.
    fn new(alloc: Global, name: &str, bytes: &[u8], most: usize) -> Result<File, AllocError>
        ensures { IfOk result (λ f. f ≡ record { name = name.now; bytes = bytes.now; fresh = false; most = most }) }
    {
        let name = String::from_str(alloc, name)?;
        let mut kept = Vec::with_capacity(alloc, bytes.len().max(most))?;
        kept.extend_from_slice(bytes)?;
        Ok(File {
            name,
            bytes: kept,
            fresh: false,
            most,
        })
    }

    fn has_name(&self, name: &str) -> bool
        ensures { result ≡ bytes_eq self.now.name name.now }
    {
        self.name.as_str() == name
    }

    fn bytes(&self) -> &[u8]
        ensures { result.now ≡ self.now.bytes }
    {
        &self.bytes
    }

    /// Copies the bytes from a place on.
    fn read(&self, from: u64, into: &mut [u8]) -> usize
        ensures { CopiesIn self.now.bytes from into.new result }
    {
        let at = self.bytes.len().min(from as usize);
        move_front(&self.bytes[at..], usize::MAX, into)
    }

    /// It holds no bytes from here on.
    fn clear(&mut self)
        ensures { self.new ≡ fresh_file self.old.name self.old.most }
    {
        self.bytes.clear();
        self.fresh = true;
    }

    /// Appends a piece, where the file was made fresh and has room for it.
    fn append(&mut self, piece: &[u8]) -> bool
        ensures done { result ≡ (self.old.fresh && nat_le (length piece.now) (self.old.most - length self.old.bytes)) }
        ensures appended { IsTrue result → self.new ≡ record { name = self.old.name; bytes = self.old.bytes ++ piece.now; fresh = self.old.fresh; most = self.old.most } }
        ensures not { IsFalse result → self.new ≡ self.old }
        ensures within { IsTrue result → length self.new.bytes ≤ self.new.most }
    {
        if !self.fresh || piece.len() > self.most - self.bytes.len() {
            return false;
        }
        match self.bytes.extend_from_slice(piece) {
            Ok(()) => true,
            Err(_) => unreachable!(),
        }
    }
}

/// The room for a further file. Contracts see how many bytes it can hold.
#[derive(Drop)]
struct Spare {
    name: String,
    bytes: Vec<u8>,
    most: usize,
}

impl Model for Spare {
    ghost use Rattle.std.specs.Prelude.{ℕ, [], ◌≡◌, ◌≤◌, string_bytes, string_capacity, string_len, vec_capacity};

    ghost Value = { ℕ };

    ghost view = { λ s. s.most };

    ghost invariant = { λ s. (string_bytes s.name ≡ []) × (string_len s.name ≡ 0) × (255 ≤ string_capacity s.name) × (s.bytes.items ≡ []) × (s.most ≤ vec_capacity s.bytes) };
}

impl Spare {
    /// Takes the room.
    fn new(alloc: Global, most: usize) -> Result<Spare, AllocError>
        ensures { IfOk result (λ s. s ≡ most) }
    {
        let name = String::with_capacity(alloc, LONGEST_NAME)?;
        let bytes = Vec::with_capacity(alloc, most)?;
        Ok(Spare { name, bytes, most })
    }

    /// The fresh file of this name.
    fn named(self, name: &str) -> File
        requires { length name.now ≤ LONGEST_NAME }
        ensures { result ≡ fresh_file name.now self }
    {
        let Spare {
            name: mut kept,
            bytes,
            most,
        } = self;
        match kept.push_str(name) {
            Ok(()) => File {
                name: kept,
                bytes,
                fresh: true,
                most,
            },
            Err(_) => unreachable!(),
        }
    }
}

/// The place of the first file of a name.
fn place(files: &[File], name: &str) -> Option<usize>
    ensures found { IfSome result (λ i. IsPlace files.now name.now i × (i < length files.now)) }
    ensures none { IfNone result (look files.now name.now ≡ None) }
{
    for (i, file) in files.iter().enumerate() {
        if file.has_name(name) {
            return Some(i);
        }
    }
    None
}

/// The files that are given at the start, with room for one more in their list.
fn files_of(
    alloc: Global,
    files: &[(String, Vec<u8>)],
    most: usize,
) -> Result<Vec<File>, AllocError>
    ensures { IfOk result (λ made. (made.items ≡ map (λ p. stored p most) files.now) × (vec_len made < vec_capacity made)) }
{
    let mut made = Vec::with_capacity(alloc, files.len() + 1)?;
    for (name, bytes) in files {
        made.push(File::new(alloc, name, bytes, most)?)?;
    }
    Ok(made)
}

/// The files, and the room for a further one.
#[derive(Drop)]
struct Stored {
    files: Vec<File>,
    spare: Option<Spare>,
    most: usize,
}

impl Model for Stored {
    ghost use Rattle.std.specs.Prelude.{◌≡◌, ◌<◌, All, IfSome, IsSome, is_some, vec_capacity, vec_len};
    ghost use Rattle.wires.specs.FakeShelf.{FilesInMemory};

    ghost Value = { FilesInMemory };

    ghost view = { λ s. record { files = s.files.items; further = is_some s.spare; most = s.most } };

    ghost invariant = { λ s. All (λ f. f.most ≡ s.most) s.files.items × IfSome s.spare (λ most. most ≡ s.most) × (IsSome s.spare → vec_len s.files < vec_capacity s.files) };
}

impl Stored {
    fn new(alloc: Global, files: &[(String, Vec<u8>)], most: usize) -> Result<Stored, AllocError>
        ensures { IfOk result (λ s. s ≡ record { files = map (λ p. stored p most) files.now; further = true; most = most }) }
    {
        let files = files_of(alloc, files, most)?;
        let spare = Some(Spare::new(alloc, most)?);
        Ok(Stored { files, spare, most })
    }

    fn bytes(&self, name: &str) -> Option<&[u8]>
        ensures { MatchOption result (look self.now.files name.now ≡ None) (λ bytes. IsTrue (is_some (look self.now.files name.now)) × (bytes.now ≡ bytes_of (look self.now.files name.now))) }
    {
        match place(&self.files, name) {
            Some(i) => Some(self.files[i].bytes()),
            None => None,
        }
    }

    /// Copies the bytes of a file from a place on, where the name is there.
    fn read(&self, name: &str, from: u64, into: &mut [u8]) -> Option<usize>
        ensures { MatchOption result (look self.now.files name.now ≡ None) (λ n. IsTrue (is_some (look self.now.files name.now)) × CopiesIn (bytes_of (look self.now.files name.now)) from into.new n) }
    {
        match place(&self.files, name) {
            Some(i) => Some(self.files[i].read(from, into)),
            None => None,
        }
    }

    /// Makes a name fresh, where it can be made fresh.
    fn fresh(&mut self, name: &str) -> bool
        ensures done { result ≡ can_freshen self.old name.now }
        ensures freshened { IsTrue result → FreshensIn self.old self.new name.now }
        ensures not { IsFalse result → self.new ≡ self.old }
    {
        fresh_in(&mut self.files, &mut self.spare, self.most, name)
    }

    /// Appends to a file, where the piece can be appended.
    fn append(&mut self, name: &str, piece: &[u8]) -> bool
        ensures done { result ≡ can_append self.old.files name.now piece.now }
        ensures appended { IsTrue result → AppendsIn self.old.files self.new.files name.now piece.now }
        ensures not { IsFalse result → self.new.files ≡ self.old.files }
        ensures further { self.new.further ≡ self.old.further }
        ensures most { self.new.most ≡ self.old.most }
    {
        append_in(&mut self.files, name, piece)
    }
}

/// Appends to the first file of a name, where the piece can be appended.
fn append_in(files: &mut Vec<File>, name: &str, piece: &[u8]) -> bool
    ensures done { result ≡ can_append files.old.items name.now piece.now }
    ensures appended { IsTrue result → AppendsIn files.old.items files.new.items name.now piece.now }
    ensures not { IsFalse result → files.new.items ≡ files.old.items }
    ensures most { (most : ℕ) → All (λ f. f.most ≡ most) files.old.items → All (λ f. f.most ≡ most) files.new.items }
    ensures len { vec_len files.new ≡ vec_len files.old }
    ensures capacity { vec_capacity files.new ≡ vec_capacity files.old }
{
    let Some(i) = place(files, name) else {
        return false;
    };
    let file = &mut files[i];
    file.append(piece)
}

/// Makes a name fresh, where it can be made fresh. A further name gets the further file.
fn fresh_in(files: &mut Vec<File>, spare: &mut Option<Spare>, most: usize, name: &str) -> bool
    requires most { All (λ f. f.most ≡ most) files.old.items }
    requires spare { IfSome spare.old (λ s. s ≡ most) }
    requires room { IsSome spare.old → vec_len files.old < vec_capacity files.old }
    ensures done { result ≡ can_freshen (record { files = files.old.items; further = is_some spare.old; most = most }) name.now }
    ensures freshened { IsTrue result → FreshensIn (record { files = files.old.items; further = is_some spare.old; most = most }) (record { files = files.new.items; further = is_some spare.new; most = most }) name.now }
    ensures not { IsFalse result → (files.new.items ≡ files.old.items) × (is_some spare.new ≡ is_some spare.old) }
    ensures most { All (λ f. f.most ≡ most) files.new.items }
    ensures spare { IfSome spare.new (λ s. s ≡ most) }
    ensures room { IsSome spare.new → vec_len files.new < vec_capacity files.new }
{
    if let Some(i) = place(files, name) {
        let file = &mut files[i];
        file.clear();
        return true;
    }
    if name.len() > LONGEST_NAME {
        return false;
    }
    let Some(further) = spare.take() else {
        return false;
    };
    match files.push(further.named(name)) {
        Ok(()) => true,
        Err(_) => unreachable!(),
    }
}

/// A shelf in memory. Where a name was given twice the first file counts.
#[derive(Drop)]
pub struct MemoryShelf {
    stored: Stored,
    calls: Calls,
}

impl Model for MemoryShelf {
    ghost use Rattle.wires.specs.FakeShelf.{ShelfInMemory};

    ghost Value = { ShelfInMemory };

    ghost view = { λ s. record { stored = s.stored; calls = s.calls } };
}

impl MemoryShelf {
    /// Holds these files, none of which was made fresh. One further file can be added, with a name of at most 255 bytes,
    /// and each file that was made fresh can hold `fresh_room` bytes. Its calls whose numbers, from 1, stand in
    /// `failing` fail.
    pub fn new(
        alloc: Global,
        files: &[(String, Vec<u8>)],
        fresh_room: usize,
        failing: &[u64],
    ) -> Result<MemoryShelf, Memory>
        ensures { IfOk result (λ s. s ≡ record { stored = record { files = map (λ p. stored p fresh_room) files.now; further = true; most = fresh_room }; calls = no_calls failing.now }) }
    {
        let Ok(stored) = Stored::new(alloc, files, fresh_room) else {
            return Err(Memory);
        };
        let Ok(calls) = Calls::new(alloc, failing) else {
            return Err(Memory);
        };
        Ok(MemoryShelf { stored, calls })
    }

    /// The bytes of a file, and `None` exactly where the name is not there.
    pub fn bytes(&self, name: &str) -> Option<&[u8]>
        ensures { MatchOption result (file_of self.now name.now ≡ None) (λ bytes. IsTrue (is_some (file_of self.now name.now)) × (bytes.now ≡ bytes_of (file_of self.now name.now))) }
    {
        self.stored.bytes(name)
    }
}

impl Shelf for MemoryShelf {
    ghost state = { shelf_tells };

    /// Fails exactly where the number of the call is one that fails or the name is not there, and else copies as many
    /// bytes as are left there and the buffer has room for.
    fn read(&mut self, name: &str, from: u64, into: &mut [u8]) -> Result<usize, Failed>
        requires { 0 < length into.old }
        ensures reads { ReadsAt (shelf_tells self.old) (shelf_tells self.new) name.now from into.new result }
        ensures exactly { ReadsInMemory self.old self.new name.now from into.new result }
    {
        if self.calls.next() {
            self.calls.fault();
            return Err(Failed);
        }
        match self.stored.read(name, from, into) {
            Some(n) => Ok(n),
            None => {
                self.calls.fault();
                Err(Failed)
            }
        }
    }

    /// Fails exactly where the number of the call is one that fails, or the name is not there and is longer than 255
    /// bytes or a further file was added before. No file changes then.
    fn fresh(&mut self, name: &str) -> Result<(), Failed>
        ensures freshens { Freshens (shelf_tells self.old) (shelf_tells self.new) name.now result }
        ensures exactly { FreshensInMemory self.old self.new name.now result }
    {
        if self.calls.next() {
            self.calls.fault();
            return Err(Failed);
        }
        if self.stored.fresh(name) {
            return Ok(());
        }
        self.calls.fault();
        Err(Failed)
    }

    /// Fails exactly where the number of the call is one that fails, the name was not made fresh, or its room would be
    /// passed. No file changes then.
    fn append(&mut self, name: &str, piece: &[u8]) -> Result<(), Failed>
        ensures appends { AppendsTo (shelf_tells self.old) (shelf_tells self.new) name.now piece.now result }
        ensures exactly { AppendsInMemory self.old self.new name.now piece.now result }
    {
        if self.calls.next() {
            self.calls.fault();
            return Err(Failed);
        }
        if self.stored.append(name, piece) {
            return Ok(());
        }
        self.calls.fault();
        Err(Failed)
    }
}
