//! Runs of `load`: docs/profile.md, "load mode" and "command lines". The numbers come from another program, which makes the same session,
//! transmission and noises by the same rules.

use crate::runs::{Left, Object, Objects, run_over};
use station::Status;
use std::alloc::Global;
use std::test::Fail;

/// The first call of each object that no run of `load` uses.
const UNUSED: &[(Object, u64)] = &[(Object::Wire, 1), (Object::Shelf, 1), (Object::Input, 1)];

/// The same, and the first call of the output.
const FIRST_CALLS: &[(Object, u64)] = &[
    (Object::Wire, 1),
    (Object::Shelf, 1),
    (Object::Input, 1),
    (Object::Output, 1),
];

/// Runs the program with these words, where these calls fail.
fn ran(alloc: Global, words: &[&str], faults: &[(Object, u64)]) -> Result<Left, Fail> {
    let objects = Objects {
        heard: b"\r",
        files: &[],
        input: b"\r",
        cut: 1,
        faults,
    };
    run_over(alloc, words, objects)
}

/// SEED and COUNT, and the six lines.
const RUNS: [(&str, &str, &str); 6] = [
    (
        "1",
        "2000",
        "pages 2000\nbatches 692\nlines 2000\nbytes 43379\nsum 2489661\nkept 1828\n",
    ),
    (
        "7",
        "10000",
        "pages 10000\nbatches 3280\nlines 10000\nbytes 210674\nsum 12022149\nkept 9186\n",
    ),
    (
        "0",
        "1",
        "pages 1\nbatches 1\nlines 1\nbytes 11\nsum 474\nkept 1\n",
    ),
    (
        "00000000000000000000000",
        "00001",
        "pages 1\nbatches 1\nlines 1\nbytes 11\nsum 474\nkept 1\n",
    ),
    (
        "1",
        "1",
        "pages 1\nbatches 1\nlines 1\nbytes 11\nsum 477\nkept 1\n",
    ),
    (
        "18446744073709551615",
        "5",
        "pages 5\nbatches 2\nlines 5\nbytes 98\nsum 5324\nkept 5\n",
    ),
];

#[test]
fn six_lines_tell_of_a_run(rt: HostRuntime) -> Result<(), Fail> {
    for (seed, count, lines) in RUNS {
        let left = ran(rt.alloc(), &["load", seed, count], UNUSED)?;
        assert_eq!(rt; left.status, Status::Done, "{seed} {count}");
        assert!(rt; left.out.as_slice() == lines.as_bytes(), "{seed} {count}");
        assert!(rt; left.err.is_empty(), "{seed} {count}");
    }
    Ok(())
}

/// What is wrong with words, and the words.
const NO_RUNS: [(&str, &[&str]); 18] = [
    ("no seed", &["load"]),
    ("no count", &["load", "1"]),
    ("a word more", &["load", "1", "1", "1"]),
    ("an empty seed", &["load", "", "1"]),
    ("an empty count", &["load", "1", ""]),
    ("a seed with a minus sign", &["load", "-1", "1"]),
    ("a seed with a plus sign", &["load", "+1", "1"]),
    ("a count with a plus sign", &["load", "1", "+1"]),
    ("a count with a minus sign", &["load", "1", "-1"]),
    ("a seed with a space", &["load", " 1", "1"]),
    ("a seed in hexadecimal", &["load", "0x1", "1"]),
    ("a count with a point", &["load", "1", "1.0"]),
    ("a seed of 2^64", &["load", "18446744073709551616", "1"]),
    ("a count of no page", &["load", "1", "0"]),
    ("a count of 10,001 pages", &["load", "1", "10001"]),
    ("a count of 2^32 and one page", &["load", "1", "4294967297"]),
    (
        "a count of 2^64 and one page",
        &["load", "1", "18446744073709551617"],
    ),
    ("a capital letter", &["Load", "1", "1"]),
];

/// No object is used but the error stream: every first call to one of the others would fail.
#[test]
fn words_of_no_run_are_usage(rt: HostRuntime) -> Result<(), Fail> {
    for (name, words) in NO_RUNS {
        let left = ran(rt.alloc(), words, FIRST_CALLS)?;
        assert_eq!(rt; left.status, Status::Usage, "{name}");
        assert!(rt; left.out.is_empty(), "{name}");
        assert_eq!(rt;
            left.err.as_slice(),
            b"pocsag: usage\n".as_slice(),
            "{name}"
        );
    }
    Ok(())
}

#[test]
fn an_output_that_fails_ends_a_run(rt: HostRuntime) -> Result<(), Fail> {
    let left = ran(rt.alloc(), &["load", "1", "1"], FIRST_CALLS)?;
    assert_eq!(rt; left.status, Status::OutFault);
    assert!(rt; left.out.is_empty());
    assert!(rt; left.err.is_empty());
    Ok(())
}
