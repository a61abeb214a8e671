//! How a run ends.

ghost use Rattle.std.specs.Prelude.{◌≡◌};

/// How a run ended. The program's exit code is its `code`.
#[derive(Clone, Copy, Debug, PartialEq, Eq)]
pub enum Status {
    /// All was done. Only lines of a station's sessions may have failed; such a session is told as lost.
    Done,
    /// The words are no command's form.
    Usage,
    /// The settings file is refused.
    Settings,
    /// A file failed.
    FileFault,
    /// The line failed.
    WireFault,
    /// The output failed, or the line about another status.
    OutFault,
    /// The input failed.
    InputFault,
    /// The input is not one block with the end ETX and a body of at most 250 characters.
    NotBlock,
    /// The block's trailer is wrong.
    BadSum,
    /// The block's content hasn't two fields with values, or the text doesn't fit.
    BadText,
    /// The air file is too long.
    TooLong,
    /// The terminal refused the logon.
    LogonRefused,
    /// Some pages weren't sent.
    SomeUnsent,
    /// There is not enough memory.
    Memory,
    /// The pages file is refused.
    BadPages,
}

impl Status {
    ghost use Rattle.endings.specs.Statuses.{exit_code, status_line};

    /// The exit code, from 0 to 15.
    pub fn code(self) -> u8
        ensures { result ≡ exit_code self }
    {
        match self {
            Status::Done => 0,
            Status::Usage => 2,
            Status::Settings => 3,
            Status::FileFault => 4,
            Status::WireFault => 5,
            Status::OutFault => 6,
            Status::InputFault => 7,
            Status::NotBlock => 8,
            Status::BadSum => 9,
            Status::BadText => 10,
            Status::TooLong => 11,
            Status::LogonRefused => 12,
            Status::SomeUnsent => 13,
            Status::Memory => 14,
            Status::BadPages => 15,
        }
    }

    /// The line about the status. Done and OutFault have none. Settings and BadPages have none here: theirs say what is refused.
    pub fn line(self) -> &'static [u8]
        ensures { result.now ≡ status_line self }
    {
        match self {
            Status::Done | Status::OutFault | Status::Settings | Status::BadPages => b"",
            Status::Usage => b"pocsag: usage\n",
            Status::FileFault => b"pocsag: file\n",
            Status::WireFault => b"pocsag: line\n",
            Status::InputFault => b"pocsag: input\n",
            Status::NotBlock => b"pocsag: not a block\n",
            Status::BadSum => b"pocsag: wrong sum\n",
            Status::BadText => b"pocsag: text\n",
            Status::TooLong => b"pocsag: air too long\n",
            Status::LogonRefused => b"pocsag: logon refused\n",
            Status::SomeUnsent => b"pocsag: some pages unsent\n",
            Status::Memory => b"pocsag: memory\n",
        }
    }
}
