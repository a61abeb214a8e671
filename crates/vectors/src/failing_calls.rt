//! Runs in which each call of an object fails in turn: docs/profile.md, "commands" and "statuses".
//!
//! A run is made with the first call of an object failing, then with the second, and so on, until it makes fewer calls than that. The
//! calls and what they leave stand in `stands`.

use crate::clients::{HEARD, SEND, TWO};
use crate::runs::{ABC, Left, Object, Objects, air_of, files, run_over};
use crate::sessions::{HELLO_SESSION, S1, STATION};
use crate::stands::{Case, PUTS, SEND_CALLS, SHOW_CALLS, STATION_CALLS, TRIAL_CALLS};
use crate::trials::{TWO_WRONG, noise_of};
use station::Status;
use std::alloc::{AllocError, Global};
use std::process::Abort;
use std::test::Fail;

/// No run makes so many calls of an object.
const TOO_MANY: u64 = 100;

/// What the file of the air has before a station makes it fresh.
const OLD_AIR: &[u8] = b"old";

/// A run: one connection that is served, with one page; a session that is tried through two wrong bits in each word; a client whose
/// second page is abandoned; the table of one transmission.
#[derive(Clone, Copy, Debug, PartialEq, Eq)]
pub(crate) enum Command {
    Station,
    Trial,
    Send,
    Show,
}

/// The words of a run, what is heard, and how many bytes the wire and the input give at a time.
fn script(command: Command) -> (&'static [&'static str], &'static [u8], usize) {
    match command {
        Command::Station => (STATION, HELLO_SESSION, 26),
        Command::Trial => (&["trial", "s1.toml", "noise.bin", "8"], HELLO_SESSION, 13),
        Command::Send => (SEND, HEARD, 3),
        Command::Show => (&["show", "air.bin"], HELLO_SESSION, 26),
    }
}

/// The files of a run.
fn files_of(alloc: Global, command: Command) -> Result<Vec<(String, Vec<u8>)>, AllocError> {
    match command {
        Command::Station => files(alloc, &[("s1.toml", S1), ("air.bin", OLD_AIR)]),
        Command::Trial => {
            let noise = noise_of(alloc, TWO_WRONG)?;
            files(alloc, &[("s1.toml", S1), ("noise.bin", &noise)])
        }
        Command::Send => files(alloc, &[("s1.toml", S1), ("pages.txt", TWO)]),
        Command::Show => {
            let air = air_of(alloc, 1, ABC)?;
            files(alloc, &[("s1.toml", S1), ("air.bin", &air)])
        }
    }
}

/// A run in which these calls fail.
fn ran(alloc: Global, command: Command, faults: &[(Object, u64)]) -> Result<Left, Fail> {
    let files = files_of(alloc, command)?;
    let (words, heard, cut) = script(command);
    let objects = Objects {
        heard,
        files: &files,
        input: HELLO_SESSION,
        cut,
        faults,
    };
    run_over(alloc, words, objects)
}

/// The line about a status that a run can come to.
fn line_of(status: Status) -> &'static [u8] {
    match status {
        Status::FileFault => b"pocsag: file\n",
        Status::WireFault => b"pocsag: line\n",
        Status::InputFault => b"pocsag: input\n",
        Status::SomeUnsent => b"pocsag: some pages unsent\n",
        _ => b"",
    }
}

/// Compares what is left where a call failed with what stands then. `whole` is left where none failed.
fn compare(rt: &impl Abort, case: &Case, whole: &Left, left: &Left) {
    let (call, status, out, said, turns, air) = case;
    assert_eq!(rt; left.status, *status, "{call}");
    assert_eq!(rt; left.err.as_slice(), line_of(*status), "{call}");
    assert_eq!(rt; left.out.as_slice(), *out, "{call}");
    assert_eq!(rt;
        Some(left.said.as_slice()),
        whole.said.get(..*said),
        "{call}"
    );
    assert_eq!(rt;
        Some(left.turns.as_slice()),
        whole.turns.get(..*turns),
        "{call}"
    );
    assert!(rt; left.others_stand, "{call}");
    match (air, &whole.air) {
        (Some(size), Some(bytes)) => {
            assert_eq!(rt; left.air.as_deref(), bytes.get(..*size), "{call}");
        }
        _ => assert!(rt; left.air_stands, "{call}"),
    }
}

/// Compares what is left where the line about a status failed, too, with what is left where it was put: all else stands.
fn compare_without_line(rt: &impl Abort, call: &str, told: &Left, left: &Left) {
    assert_eq!(rt; left.status, Status::OutFault, "{call}");
    assert!(rt; left.err.is_empty(), "{call}");
    assert_eq!(rt; left.out.as_slice(), told.out.as_slice(), "{call}");
    assert_eq!(rt; left.said.as_slice(), told.said.as_slice(), "{call}");
    assert_eq!(rt; left.turns.as_slice(), told.turns.as_slice(), "{call}");
    assert_eq!(rt; left.air.as_deref(), told.air.as_deref(), "{call}");
    assert_eq!(rt; left.others_stand, told.others_stand, "{call}");
}

/// Makes each call of an object fail in turn, alone and then together with the line about the status.
fn each_call_fails(
    rt: &impl Abort,
    alloc: Global,
    command: Command,
    object: Object,
    cases: &[Case],
) -> Result<(), Fail> {
    let whole = ran(alloc, command, &[])?;
    let mut calls = 0;
    for number in 1..TOO_MANY {
        let left = ran(alloc, command, &[(object, number)])?;
        if !left.failed {
            break;
        }
        let Some(case) = cases.get(calls as usize) else {
            return Err(Fail::from("there are more calls than those of the table"));
        };
        compare(rt, case, &whole, &left);
        if !left.err.is_empty() {
            let untold = ran(alloc, command, &[(object, number), (Object::Errors, 1)])?;
            assert!(rt; untold.failed, "{}", case.0);
            compare_without_line(rt, case.0, &left, &untold);
        }
        calls = number;
    }
    assert_eq!(rt; calls as usize, cases.len(), "the calls of a table");
    Ok(())
}

#[test]
fn each_call_of_a_station_fails(rt: HostRuntime) -> Result<(), Fail> {
    for (object, cases) in STATION_CALLS {
        each_call_fails(&rt, rt.alloc(), Command::Station, *object, *cases)?;
    }
    Ok(())
}

#[test]
fn each_call_of_a_trial_fails(rt: HostRuntime) -> Result<(), Fail> {
    for (object, cases) in TRIAL_CALLS {
        each_call_fails(&rt, rt.alloc(), Command::Trial, *object, *cases)?;
    }
    Ok(())
}

#[test]
fn each_call_of_a_client_fails(rt: HostRuntime) -> Result<(), Fail> {
    for (object, cases) in SEND_CALLS {
        each_call_fails(&rt, rt.alloc(), Command::Send, *object, *cases)?;
    }
    Ok(())
}

#[test]
fn each_call_of_a_table_fails(rt: HostRuntime) -> Result<(), Fail> {
    for (object, cases) in SHOW_CALLS {
        each_call_fails(&rt, rt.alloc(), Command::Show, *object, *cases)?;
    }
    Ok(())
}

/// Makes each put of an output fail in turn, and gives how many there are. At each a longer front of the whole output stands, and all
/// that isn't printed is as where nothing fails. No line is put about it.
fn each_put_fails(rt: &impl Abort, alloc: Global, command: Command) -> Result<u64, Fail> {
    let whole = ran(alloc, command, &[])?;
    let mut puts = 0;
    let mut printed = 0usize;
    for number in 1..TOO_MANY {
        let left = ran(alloc, command, &[(Object::Output, number)])?;
        if !left.failed {
            break;
        }
        assert_eq!(rt; left.status, Status::OutFault, "{command:?} {number}");
        assert!(rt; left.err.is_empty(), "{command:?} {number}");
        assert!(rt; whole.out.starts_with(&left.out), "{command:?} {number}");
        assert!(rt; left.out.len() < whole.out.len(), "{command:?} {number}");
        assert!(rt;
            number == 1 || printed < left.out.len(),
            "{command:?} {number}"
        );
        assert_eq!(rt;
            left.said.as_slice(),
            whole.said.as_slice(),
            "{command:?} {number}"
        );
        assert_eq!(rt;
            left.turns.as_slice(),
            whole.turns.as_slice(),
            "{command:?} {number}"
        );
        assert_eq!(rt;
            left.air.as_deref(),
            whole.air.as_deref(),
            "{command:?} {number}"
        );
        assert!(rt; left.others_stand, "{command:?} {number}");
        printed = left.out.len();
        puts = number;
    }
    Ok(puts)
}

#[test]
fn an_output_that_fails_has_a_front(rt: HostRuntime) -> Result<(), Fail> {
    for (command, puts, _) in PUTS {
        let found = each_put_fails(&rt, rt.alloc(), *command)?;
        assert_eq!(rt; found, *puts, "{command:?}");
    }
    Ok(())
}

/// Makes each put of an error stream fail in turn, and gives how many there are.
fn each_line_fails(rt: &impl Abort, alloc: Global, command: Command) -> Result<u64, Fail> {
    let whole = ran(alloc, command, &[])?;
    let mut lines = 0;
    for number in 1..TOO_MANY {
        let left = ran(alloc, command, &[(Object::Errors, number)])?;
        if !left.failed {
            break;
        }
        compare_without_line(rt, "the line about the status", &whole, &left);
        lines = number;
    }
    Ok(lines)
}

#[test]
fn an_error_stream_that_fails_leaves_all_else(rt: HostRuntime) -> Result<(), Fail> {
    for (command, _, lines) in PUTS {
        let found = each_line_fails(&rt, rt.alloc(), *command)?;
        assert_eq!(rt; found, *lines, "{command:?}");
    }
    Ok(())
}
