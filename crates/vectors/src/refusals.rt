//! Runs that are refused: docs/profile.md, "command lines", "settings" and "statuses".

use crate::runs::{Left, Object, Objects, files, joined, run_over};
use crate::sessions::{GROUP, S1, VERSION_2};
use station::Status;
use std::alloc::Global;
use std::test::Fail;

/// Words that are no command's.
const NO_COMMANDS: [&[&str]; 43] = [
    &[],
    &["one"],
    &["one", "2007664"],
    &["one", "2045063"],
    &["one", "2097152"],
    &["one", "08x"],
    &["one", "+8"],
    &["one", ""],
    &["one", "00000008"],
    &["one", "8", "9"],
    &["play", "air.bin"],
    &["one", "8+9"],
    &["play", "a", "8+8"],
    &["play", "a", "8+08"],
    &["play", "a", "9+8+8"],
    &["play", "a", "1+2+3+4+5"],
    &["play", "a", "8+"],
    &["play", "a", "+8"],
    &["play", "a", "8++9"],
    &["play", "a", "8+2007664"],
    &["play", "a", "8+00000009"],
    &["play", "air.bin", "8", "2007664"],
    &["play", "air.bin", "8", ""],
    &["play", "", "8"],
    &["line", "a", "l"],
    &["line", "a", "a", "1"],
    &["line", "a", "l", "18446744073709551616"],
    &["line", "a", "l", "+1"],
    &["line", "a", "", "1"],
    &["play-line", "l.bin"],
    &["play-line", "", "8"],
    &["play-line", "l.bin", "8+8"],
    &["show", "air.bin", "8"],
    &["station", "a", "s", "f", "0"],
    &["station", "127.0.0.1:7000", "s1.toml", "air.bin", "0"],
    &["station", "127.0.0.1:7000", "s1.toml", "air.bin", "1001"],
    &["trial", "s1.toml", "noise.bin"],
    &["trial", "s1.toml", "noise.bin", "8+8"],
    &["send", "air.bin"],
    &["send", "127.0.0.1:7000"],
    &["send", "", "pages.txt"],
    &["send", "127.0.0.1:7000", "pages.txt", "8"],
    &["One", "8"],
];

/// The first call of each object that could be used.
const FIRST_CALLS: &[(Object, u64)] = &[
    (Object::Wire, 1),
    (Object::Shelf, 1),
    (Object::Input, 1),
    (Object::Output, 1),
];

/// No object is used but the error stream: every first call to one of the others would fail.
#[test]
fn words_that_are_no_command_are_usage(rt: HostRuntime) -> Result<(), Fail> {
    for words in NO_COMMANDS {
        let objects = Objects {
            heard: b"\r",
            files: &[],
            input: b"\x02123\rABC\r\x0317;\r",
            cut: 14,
            faults: FIRST_CALLS,
        };
        let left = run_over(rt.alloc(), words, objects)?;
        assert_eq!(rt; left.status, Status::Usage, "{words:?}");
        assert_eq!(rt; left.status.code(), 2, "{words:?}");
        assert!(rt; left.said.is_empty() && left.out.is_empty(), "{words:?}");
        assert_eq!(rt;
            left.err.as_slice(),
            b"pocsag: usage\n".as_slice(),
            "{words:?}"
        );
    }
    Ok(())
}

/// Runs the program with these words, where there is one file, and where nothing is heard or read.
fn ran_with(alloc: Global, words: &[&str], name: &str, bytes: &[u8]) -> Result<Left, Fail> {
    let files = files(alloc, &[(name, bytes)])?;
    let objects = Objects {
        heard: b"",
        files: &files,
        input: b"",
        cut: 1,
        faults: &[(Object::Wire, 1)],
    };
    run_over(alloc, words, objects)
}

/// Words that name a file that is not there.
const MISSING: [&[&str]; 6] = [
    &["play", "none.bin", "8"],
    &["play-line", "none.bin", "8"],
    &["show", "none.bin"],
    &["station", "127.0.0.1:7000", "none.toml", "none.bin", "1"],
    &["trial", "none.toml", "noise.bin", "8"],
    &["send", "127.0.0.1:7000", "none.txt"],
];

#[test]
fn a_file_that_is_not_there_is_a_fault(rt: HostRuntime) -> Result<(), Fail> {
    for words in MISSING {
        let left = ran_with(rt.alloc(), words, "air.bin", b"\xAA")?;
        assert_eq!(rt; left.status, Status::FileFault, "{words:?}");
        assert_eq!(rt; left.status.code(), 4, "{words:?}");
        assert!(rt; left.out.is_empty(), "{words:?}");
        assert_eq!(rt;
            left.err.as_slice(),
            b"pocsag: file\n".as_slice(),
            "{words:?}"
        );
    }
    Ok(())
}

/// What is wrong with settings files, their pieces, and what the line about them says.
const SETTINGS: [(&str, &[&[u8]], &[u8]); 19] = [
    ("no value", &[b"cells ="], b"pocsag: settings: not toml\n"),
    ("no key cells", &[b"cell = 1"], b"pocsag: settings: form\n"),
    (
        "a password of two characters",
        &[b"cells = 1\npassword = \"ab\""],
        b"pocsag: settings: password\n",
    ),
    ("no cell", &[b"cells = 0"], b"pocsag: settings: cells\n"),
    (
        "70,000 cells",
        &[b"cells = 70000"],
        b"pocsag: settings: cells\n",
    ),
    (
        "an id that is none",
        &[b"cells = 1\nsubscriber = [{id = \"x\", capcode = 8, class = \"alpha\"}]"],
        b"pocsag: settings: id at entry 1\n",
    ),
    (
        "an id twice",
        &[
            b"cells = 1\nsubscriber = [{id = \"1\", capcode = 8, class = \"alpha\"}, {id = \"1\", capcode = 9, class = \"alpha\"}]",
        ],
        b"pocsag: settings: id twice at entry 2\n",
    ),
    (
        "a capcode that is not usable",
        &[
            b"cells = 1\nsubscriber = [{id = \"1\", capcode = 8, class = \"alpha\"}, {id = \"2\", capcode = 2007664, class = \"alpha\"}]",
        ],
        b"pocsag: settings: capcode at entry 2\n",
    ),
    (
        "a negative capcode",
        &[b"cells = 1\nsubscriber = [{id = \"1\", capcode = -1, class = \"alpha\"}]"],
        b"pocsag: settings: capcode at entry 1\n",
    ),
    (
        "a class that is none",
        &[b"cells = 1\nsubscriber = [{id = \"1\", capcode = 8, class = \"beta\"}]"],
        b"pocsag: settings: class at entry 1\n",
    ),
    (
        "a password alone",
        &[b"password = \"SECRET\""],
        b"pocsag: settings: form\n",
    ),
    (
        "a further key",
        &[b"cells = 1\nextra = 1"],
        b"pocsag: settings: form\n",
    ),
    (
        "a version that is none",
        &[b"version = 3\n", S1, GROUP],
        b"pocsag: settings: version\n",
    ),
    (
        "a group in a file of version 1",
        &[S1, GROUP],
        b"pocsag: settings: form\n",
    ),
    (
        "a group whose id is none",
        &[
            VERSION_2,
            S1,
            b"[[group]]\nid = \"x\"\ncapcodes = [8]\nclass = \"alpha\"\n",
        ],
        b"pocsag: settings: id at group 1\n",
    ),
    (
        "a group with the id of a subscriber",
        &[
            VERSION_2,
            S1,
            b"[[group]]\nid = \"8\"\ncapcodes = [8, 15, 2000]\nclass = \"alpha\"\n",
        ],
        b"pocsag: settings: id twice at group 1\n",
    ),
    (
        "a group of no capcode",
        &[
            VERSION_2,
            S1,
            b"[[group]]\nid = \"900\"\ncapcodes = []\nclass = \"alpha\"\n",
        ],
        b"pocsag: settings: members at group 1\n",
    ),
    (
        "a group with a capcode twice",
        &[
            VERSION_2,
            S1,
            b"[[group]]\nid = \"900\"\ncapcodes = [8, 8]\nclass = \"alpha\"\n",
        ],
        b"pocsag: settings: members at group 1\n",
    ),
    (
        "a second group whose class is none",
        &[
            VERSION_2,
            S1,
            GROUP,
            b"[[group]]\nid = \"901\"\ncapcodes = [8]\nclass = \"beta\"\n",
        ],
        b"pocsag: settings: class at group 2\n",
    ),
];

/// The commands that read a settings file.
const READING: [&[&str]; 2] = [
    &["station", "127.0.0.1:7000", "s1.toml", "air.bin", "1"],
    &["trial", "s1.toml", "noise.bin", "8"],
];

#[test]
fn a_settings_file_that_is_refused_is_named(rt: HostRuntime) -> Result<(), Fail> {
    for words in READING {
        for (name, settings, line) in SETTINGS {
            let settings = joined(rt.alloc(), settings)?;
            let left = ran_with(rt.alloc(), words, "s1.toml", &settings)?;
            assert_eq!(rt; left.status, Status::Settings, "{name}, {words:?}");
            assert_eq!(rt; left.status.code(), 3, "{name}, {words:?}");
            assert!(rt;
                left.out.is_empty() && left.air.is_none(),
                "{name}, {words:?}"
            );
            assert_eq!(rt; left.err.as_slice(), line, "{name}, {words:?}");
        }
    }
    Ok(())
}

#[test]
fn a_settings_file_of_too_many_bytes_is_named(rt: HostRuntime) -> Result<(), Fail> {
    let spaces = vec![in rt.alloc(); b' '; 1_048_577]?;
    for words in READING {
        let left = ran_with(rt.alloc(), words, "s1.toml", &spaces)?;
        assert_eq!(rt; left.status, Status::Settings, "{words:?}");
        assert_eq!(rt;
            left.err.as_slice(),
            b"pocsag: settings: too long\n".as_slice()
        );
    }
    Ok(())
}

/// A settings file with so many subscribers, whose ids are numbers from 0.
fn with_subscribers(alloc: Global, count: u32) -> Result<Vec<u8>, Fail> {
    let mut file = Vec::from_slice(alloc, b"cells = 1\nsubscriber = [\n".as_slice())?;
    for id in 0..count {
        let entry = format!(in alloc; "{{id = \"{id}\", capcode = 8, class = \"alpha\"}},\n")?;
        file.extend_from_slice(entry.as_bytes())?;
    }
    file.extend_from_slice(b"]\n")?;
    Ok(file)
}

#[test]
fn a_settings_file_of_too_many_subscribers_is_named(rt: HostRuntime) -> Result<(), Fail> {
    let settings = with_subscribers(rt.alloc(), 10_001)?;
    for words in READING {
        let left = ran_with(rt.alloc(), words, "s1.toml", &settings)?;
        assert_eq!(rt; left.status, Status::Settings, "{words:?}");
        assert_eq!(rt;
            left.err.as_slice(),
            b"pocsag: settings: too many\n".as_slice()
        );
    }
    Ok(())
}

#[test]
fn a_pages_file_of_too_many_bytes_is_named(rt: HostRuntime) -> Result<(), Fail> {
    let pages = vec![in rt.alloc(); b'A'; 1_048_577]?;
    let words = &["send", "127.0.0.1:7000", "pages.txt"];
    let left = ran_with(rt.alloc(), words, "pages.txt", &pages)?;
    assert_eq!(rt; left.status, Status::BadPages);
    assert_eq!(rt; left.status.code(), 15);
    assert!(rt; left.out.is_empty());
    assert_eq!(rt;
        left.err.as_slice(),
        b"pocsag: pages file: too long\n".as_slice()
    );
    Ok(())
}
