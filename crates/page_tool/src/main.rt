//! The program `pocsag`: it hands its words, its standard streams, the files and the connections of the system to `station::run`, and
//! ends with the exit code of the status that `run` answers. `system_io` has what it hands over.
//!
//! - `connection_tests`: sessions of a station over real connections.
#![tactic(auto)]

#[cfg(test)]
mod connection_tests;

use station::{Status, run, tell};
use std::alloc::AllocError;
use std::env;
use std::env::Env;
use std::io::ErrorKind;
use std::process::ExitCode;
use system_io::file_shelf::FileShelf;
use system_io::streams::{InSource, OutSink};
use system_io::tcp_wire::TcpWire;

/// The words after the program's name. Where one of them isn't UTF-8 there are none, which is no command's form either.
fn words<R: Env + AllocGlobal>(rt: &R) -> Result<Vec<String>, AllocError> {
    let mut words = Vec::new(rt.alloc());
    match env::args(rt) {
        Ok(args) => {
            for word in args.skip(1) {
                words.push(word)?;
            }
        }
        Err(e) if e.kind() == ErrorKind::InvalidData => {}
        Err(_) => return Err(AllocError),
    }
    Ok(words)
}

fn main(rt: HostRuntime) -> ExitCode {
    let mut err = OutSink::over(rt.stderr());
    let status = match words(&rt) {
        Ok(words) => run(
            rt.alloc(),
            &words,
            &mut TcpWire::over(&rt),
            &mut FileShelf::over(&rt, rt.alloc()),
            &mut InSource::over(rt.stdin()),
            &mut OutSink::over(rt.stdout()),
            &mut err,
        ),
        Err(AllocError) => tell(Status::Memory, &mut err),
    };
    ExitCode::from(status.code())
}
