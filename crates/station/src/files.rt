//! The files that a command reads into memory, and the settings that one gives.

ghost use Rattle.std.specs.Prelude.{◌≡◌};
ghost use Rattle.station.specs.ReadFile.{ReadsFile, ReadsSettings, settings_outcome};

use crate::outcomes::Outcome;
use endings::statuses::Status;
use std::alloc::Global;
use subscribers::{Settings, SettingsFault};
use wires::Failed;
use wires::shelf::Shelf;

/// So many bytes of a file are read at most: one more than a settings file may have.
const MOST_READ: usize = 1_048_577;

/// So many bytes are read at a time.
const READ_AT_ONCE: usize = 4096;

/// Reads a file into memory, at most its first 1,048,577 bytes. The answer is FileFault where a read failed, and Memory where there was
/// none.
pub(crate) fn read_file<F: Shelf>(
    alloc: Global,
    shelf: &mut F,
    name: &str,
) -> Result<Vec<u8>, Status>
    ensures { ReadsFile name.now (F.state shelf.old) (F.state shelf.new) result }
{
    let mut bytes = Vec::new(alloc);
    let mut piece = [0; READ_AT_ONCE];
    while bytes.len() < MOST_READ {
        let (into, _) = piece.split_at_mut(READ_AT_ONCE.min(MOST_READ - bytes.len()));
        let n = match shelf.read(name, bytes.len() as u64, into) {
            Ok(n) => n,
            Err(Failed) => return Err(Status::FileFault),
        };
        if n == 0 {
            return Ok(bytes);
        }
        let Ok(()) = bytes.extend_from_slice(&into[..n]) else {
            return Err(Status::Memory);
        };
    }
    Ok(bytes)
}

/// The settings that a file gives, or what a command comes to that has none.
pub(crate) fn read_settings<F: Shelf>(
    alloc: Global,
    shelf: &mut F,
    name: &str,
) -> Result<Settings, Outcome>
    ensures { ReadsSettings name.now (F.state shelf.old) (F.state shelf.new) result }
{
    let bytes = match read_file(alloc, shelf, name) {
        Ok(bytes) => bytes,
        Err(status) => return Err(Outcome::Ended(status)),
    };
    match Settings::read(alloc, &bytes) {
        Ok(settings) => Ok(settings),
        Err(fault) => Err(without_settings(fault)),
    }
}

/// What a command comes to whose settings file is refused.
fn without_settings(fault: SettingsFault) -> Outcome
    ensures { result ≡ settings_outcome fault }
{
    match fault {
        SettingsFault::Memory => Outcome::Ended(Status::Memory),
        _ => Outcome::Refused(fault),
    }
}
