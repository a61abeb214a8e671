//! The report line of a session: docs/profile.md, "report".

ghost use Rattle.std.specs.Prelude.{◌≡◌, ◌+◌, ◌≤◌, ◌∷◌, [], ◌++◌, decimal, length};
ghost use Rattle.arrayvec.specs.ArrayVec.{array_vec_len};
ghost use Rattle.serving.specs.ReportLine.{counted, counted_all, end_word, longest_line, report_line, snpp_report_line};
ghost use Rattle.wires.specs.Written.{Puts};

use crate::session::SessionEnd;
use arrayvec::ArrayVec;
use endings::lines::{DIGITS, push, push_number};
use snpp_entry::SnppReport;
use tap_terminal::Report;
use wires::Failed;
use wires::sink::Sink;

/// The most bytes of a line.
const LONGEST_LINE: usize = 200;

/// Puts the report line of a session as one piece of at most 200 bytes: the number of the session, how it ended, and how often each
/// answer came. `Failed` where the sink fails.
pub fn put_report<O: Sink>(
    number: u32,
    end: SessionEnd,
    report: Report,
    out: &mut O,
) -> Result<(), Failed>
    ensures puts { Puts (O.state out.old) (O.state out.new) (report_line number end report) result }
    ensures few { length (report_line number end report) ≤ longest_line }
{
    let line = written(number, end, report);
    out.put(&line)
}

/// Puts the report line of an SNPP session as one piece of at most 200 bytes: the number of the session, how it ended, how many pages were
/// queued, and how many lines were refused. `Failed` where the sink fails.
pub fn put_snpp_report<O: Sink>(
    number: u32,
    end: SessionEnd,
    report: SnppReport,
    out: &mut O,
) -> Result<(), Failed>
    ensures puts { Puts (O.state out.old) (O.state out.new) (snpp_report_line number end report) result }
    ensures few { length (snpp_report_line number end report) ≤ longest_line }
{
    let line = snpp_written(number, end, report);
    out.put(&line)
}

/// The line of an SNPP session.
fn snpp_written(number: u32, end: SessionEnd, report: SnppReport) -> ArrayVec<u8, LONGEST_LINE>
    ensures line { result.items ≡ snpp_report_line number end report }
    ensures few { array_vec_len result ≤ LONGEST_LINE }
{
    let mut line = ArrayVec::new();
    push(b"snpp ", &mut line);
    push_number(number, &mut line);
    push(b" ", &mut line);
    push(word(end), &mut line);
    push_count(b" pages ", report.pages, &mut line);
    push_count(b" refused ", report.refused, &mut line);
    push(b"\n", &mut line);
    line
}

/// The line.
fn written(number: u32, end: SessionEnd, report: Report) -> ArrayVec<u8, LONGEST_LINE>
    ensures line { result.items ≡ report_line number end report }
    ensures few { array_vec_len result ≤ LONGEST_LINE }
{
    let mut line = ArrayVec::new();
    push(b"session ", &mut line);
    push_number(number, &mut line);
    push(b" ", &mut line);
    push(word(end), &mut line);
    push_counts(report, &mut line);
    push(b"\n", &mut line);
    line
}

/// The word for how a session ended.
fn word(end: SessionEnd) -> &'static [u8]
    ensures word { result.now ≡ end_word end }
    ensures few { length result.now ≤ 7 }
{
    match end {
        SessionEnd::Ended => b"ended",
        SessionEnd::HungUp => b"hung-up",
        SessionEnd::Forced => b"forced",
        SessionEnd::LineLost => b"lost",
    }
}

/// Appends the numbers of a report, each behind its name.
fn push_counts(report: Report, line: &mut ArrayVec<u8, LONGEST_LINE>)
    requires { array_vec_len line.old ≤ 26 }
    ensures items { line.new.items ≡ line.old.items ++ counted_all report }
    ensures few { array_vec_len line.new ≤ 198 }
{
    push_count(b" pages ", report.pages, line);
    push_count(b" continued ", report.continued, line);
    push_count(b" nak ", report.nak, line);
    push_count(b" body ", report.body, line);
    push_count(b" content ", report.content, line);
    push_count(b" form ", report.form, line);
    push_count(b" unknown ", report.unknown, line);
    push_count(b" text ", report.text, line);
    push_count(b" room ", report.room, line);
    push_count(b" wrong ", report.wrong, line);
}

/// Appends a name, with a space before and behind it, and a number.
fn push_count(name: &[u8], number: u32, line: &mut ArrayVec<u8, LONGEST_LINE>)
    requires { array_vec_len line.old + length name.now + DIGITS ≤ LONGEST_LINE }
    ensures items { line.new.items ≡ line.old.items ++ (name.now ++ decimal number) }
    ensures few { array_vec_len line.new ≤ array_vec_len line.old + length name.now + DIGITS }
{
    push(name, line);
    push_number(number, line);
}
