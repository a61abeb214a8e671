//! What commands come to, and the lines about it.

ghost use Rattle.std.specs.Prelude.{◌≡◌, ◌++◌, ◌+◌, ◌≤◌, decimal, length};
ghost use Rattle.arrayvec.specs.ArrayVec.{array_vec_len};
ghost use Rattle.station.specs.Outcomes.{Tells, TellsMisread, TellsOutcome, TellsRefusal, fault_text, pages_line as pages_line_of, pages_text, settings_line as settings_line_of};

use arrayvec::ArrayVec;
use endings::statuses::Status;
use itoa::Buffer;
use subscribers::SettingsFault;
use tap_entry::PagesFault;
use wires::Failed;
use wires::sink::Sink;

/// What a command came to.
#[derive(Clone, Copy)]
pub(crate) enum Outcome {
    /// It came to this status, which isn't Settings.
    Ended(Status),
    /// Its settings file is refused.
    Refused(SettingsFault),
    /// Its pages file is refused.
    Misread(PagesFault),
}

/// The most bytes of a line about settings: `pocsag: settings: `, `id twice at entry `, at most 40 digits, LF.
const LINE: usize = 77;

/// Puts the line about a status to `err`. The answer is the status, or OutFault where putting the line failed. Done and OutFault have
/// no line; nor have Settings and BadPages here, since theirs say what is refused.
pub fn tell<E: Sink>(status: Status, err: &mut E) -> Status
    ensures { Tells status (E.state err.old) (E.state err.new) result }
{
    if matches!(
        status,
        Status::Done | Status::OutFault | Status::Settings | Status::BadPages
    ) {
        return status;
    }
    match err.put(status.line()) {
        Ok(()) => status,
        Err(Failed) => Status::OutFault,
    }
}

/// Puts the line about what a command came to. The answer is its status, or OutFault where putting the line failed.
pub(crate) fn tell_outcome<E: Sink>(outcome: Outcome, err: &mut E) -> Status
    ensures { TellsOutcome outcome (E.state err.old) (E.state err.new) result }
{
    match outcome {
        Outcome::Ended(status) => tell(status, err),
        Outcome::Refused(fault) => tell_refusal(fault, err),
        Outcome::Misread(fault) => tell_misread(fault, err),
    }
}

/// Puts the line about a settings file that is refused. The answer is Settings, or OutFault where putting the line failed.
fn tell_refusal<E: Sink>(fault: SettingsFault, err: &mut E) -> Status
    ensures { TellsRefusal fault (E.state err.old) (E.state err.new) result }
{
    match err.put(&settings_line(fault)) {
        Ok(()) => Status::Settings,
        Err(Failed) => Status::OutFault,
    }
}

/// Puts the line about a pages file that is refused. The answer is BadPages, or OutFault where putting the line failed.
fn tell_misread<E: Sink>(fault: PagesFault, err: &mut E) -> Status
    ensures { TellsMisread fault (E.state err.old) (E.state err.new) result }
{
    match err.put(&pages_line(fault)) {
        Ok(()) => Status::BadPages,
        Err(Failed) => Status::OutFault,
    }
}

/// The line about a pages file that is refused.
fn pages_line(fault: PagesFault) -> ArrayVec<u8, LINE>
    ensures { result.items ≡ pages_line_of fault }
{
    let mut line = ArrayVec::new();
    push_all(b"pocsag: pages file: ", &mut line);
    push_misread(fault, &mut line);
    line.push(b'\n');
    line
}

/// Appends what is said of a pages file that is refused.
fn push_misread(fault: PagesFault, line: &mut ArrayVec<u8, LINE>)
    requires { array_vec_len line.old + 54 ≤ LINE }
    ensures items { line.new.items ≡ line.old.items ++ pages_text fault }
    ensures few { array_vec_len line.new ≤ array_vec_len line.old + 54 }
{
    match fault {
        PagesFault::Long => push_all(b"too long", line),
        PagesFault::Line(number) => push_entry(b"line ", number, line),
        PagesFault::Memory => push_all(b"memory", line),
    }
}

/// The line about a settings file that is refused.
fn settings_line(fault: SettingsFault) -> ArrayVec<u8, LINE>
    ensures { result.items ≡ settings_line_of fault }
{
    let mut line = ArrayVec::new();
    push_all(b"pocsag: settings: ", &mut line);
    push_fault(fault, &mut line);
    line.push(b'\n');
    line
}

/// Appends what is said of a settings file that is refused.
fn push_fault(fault: SettingsFault, line: &mut ArrayVec<u8, LINE>)
    requires { array_vec_len line.old + 58 ≤ LINE }
    ensures items { line.new.items ≡ line.old.items ++ fault_text fault }
    ensures few { array_vec_len line.new ≤ array_vec_len line.old + 58 }
{
    match fault {
        SettingsFault::Long => push_all(b"too long", line),
        SettingsFault::NotToml => push_all(b"not toml", line),
        SettingsFault::Version => push_all(b"version", line),
        SettingsFault::Form => push_all(b"form", line),
        SettingsFault::Password => push_all(b"password", line),
        SettingsFault::Cells => push_all(b"cells", line),
        SettingsFault::TooMany => push_all(b"too many", line),
        SettingsFault::Id(entry) => push_entry(b"id at entry ", entry, line),
        SettingsFault::IdTwice(entry) => push_entry(b"id twice at entry ", entry, line),
        SettingsFault::Capcode(entry) => push_entry(b"capcode at entry ", entry, line),
        SettingsFault::Class(entry) => push_entry(b"class at entry ", entry, line),
        SettingsFault::GroupId(group) => push_entry(b"id at group ", group, line),
        SettingsFault::GroupIdTwice(group) => push_entry(b"id twice at group ", group, line),
        SettingsFault::GroupMembers(group) => push_entry(b"members at group ", group, line),
        SettingsFault::GroupClass(group) => push_entry(b"class at group ", group, line),
        SettingsFault::Memory => push_all(b"memory", line),
    }
}

/// Appends what is wrong at an entry, a group or a line, and its number.
fn push_entry(what: &[u8], entry: u32, line: &mut ArrayVec<u8, LINE>)
    requires short { length what.now ≤ 18 }
    requires room { array_vec_len line.old + (length what.now + 40) ≤ LINE }
    ensures items { line.new.items ≡ line.old.items ++ (what.now ++ decimal entry) }
    ensures few { array_vec_len line.new ≤ array_vec_len line.old + (length what.now + 40) }
{
    let mut buffer = Buffer::new();
    push_all(what, line);
    push_all(buffer.format(entry).as_bytes(), line);
}

/// Appends bytes that there is room for.
fn push_all(bytes: &[u8], line: &mut ArrayVec<u8, LINE>)
    requires { array_vec_len line.old + length bytes.now ≤ LINE }
    ensures items { line.new.items ≡ line.old.items ++ bytes.now }
    ensures len { array_vec_len line.new ≡ array_vec_len line.old + length bytes.now }
{
    let _ = line.try_extend_from_slice(bytes);
}
