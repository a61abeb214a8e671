//! Files and what they give. The answers are those of the table of the rule "settings" in docs/profile.md.

use super::*;
use codeword::{Capcode, Function};
use std::alloc::{AllocError, Global};
use std::test::Fail;

/// The settings of several tests.
const SIX: &str = "cells = 64

[[subscriber]]
id = \"5551234\"
capcode = 8
class = \"alpha\"

[[subscriber]]
id = \"5550002\"
capcode = 9
class = \"numeric\"

[[subscriber]]
id = \"15\"
capcode = 15
class = \"tone1\"

[[subscriber]]
id = \"8\"
capcode = 8
class = \"tone1\"

[[subscriber]]
id = \"16\"
capcode = 16
class = \"tone1\"

[[subscriber]]
id = \"7\"
capcode = 15
class = \"alpha\"
";

/// Why a file is refused, or None.
pub(crate) fn fault(alloc: Global, file: &[u8]) -> Option<SettingsFault> {
    Settings::read(alloc, file).err()
}

/// A file of entries whose ids are the numbers from 0.
fn numbered(alloc: Global, cells: u32, count: u32, class: &str) -> Result<String, AllocError> {
    let mut file = format!(in alloc; "cells = {cells}\n")?;
    for id in 0..count {
        let entry = format!(in alloc;
            "[[subscriber]]\nid = \"{id}\"\ncapcode = 8\nclass = \"{class}\"\n"
        )?;
        file.push_str(entry.as_str())?;
    }
    Ok(file)
}

/// A file of this many bytes: one line, and then spaces.
fn filled(alloc: Global, line: &str, size: usize) -> Result<Vec<u8>, AllocError> {
    let mut file = Vec::from_slice(alloc, line.as_bytes())?;
    for _ in line.len()..size {
        file.push(b' ')?;
    }
    Ok(file)
}

/// Documents of another form.
const OF_ANOTHER_FORM: [&str; 33] = [
    "",
    "password = \"abcdef\"",
    "cells = \"64\"",
    "cells = 64.0",
    "cells = true",
    "cells = [64]",
    "cells = 1979-05-27",
    "cells.x = 64",
    "cells = 64\nextra = 1",
    "cells = 64\ngroup = []",
    "cells = 64\nversion = \"1\"",
    "cells = 64\nversion = 1.0",
    "cells = 64\nversion = [1]",
    "cells = 64\npassword = 123456",
    "cells = 64\npassword = [\"abcdef\"]",
    "cells = 64\nsubscriber = 5",
    "cells = 64\nsubscriber = [5]",
    "cells = 64\nsubscriber = [[]]",
    "cells = 64\nsubscriber = [{}]",
    "cells = 64\n[subscriber]\nid = \"1\"\ncapcode = 8\nclass = \"alpha\"",
    "cells = 64\nsubscriber.id = \"1\"",
    "cells = 64\nsubscriber = [{id = 1, capcode = 8, class = \"alpha\"}]",
    "cells = 64\nsubscriber = [{id = \"1\", capcode = \"8\", class = \"alpha\"}]",
    "cells = 64\nsubscriber = [{id = \"1\", capcode = 8.0, class = \"alpha\"}]",
    "cells = 64\nsubscriber = [{id = \"1\", capcode = 07:32:00, class = \"alpha\"}]",
    "cells = 64\nsubscriber = [{id = \"1\", capcode = 8, class = 3}]",
    "cells = 64\nsubscriber = [{id = \"1\", capcode = 8, class.x = \"alpha\"}]",
    "cells = 64\nsubscriber = [{capcode = 8, class = \"alpha\"}]",
    "cells = 64\nsubscriber = [{id = \"1\", class = \"alpha\"}]",
    "cells = 64\nsubscriber = [{id = \"1\", capcode = 8}]",
    "cells = 64\nsubscriber = [{id = \"1\", capcode = 8, class = \"alpha\", name = \"x\"}]",
    "cells = 64\nsubscriber = [{id = \"x\", capcode = 8, class = \"alpha\"}, 5]",
    "cells = 0\npassword = \"ab\"\nextra = 1",
];

#[test]
fn documents_are_refused_by_their_form(rt: HostRuntime) {
    for file in OF_ANOTHER_FORM {
        assert_eq!(rt;
            fault(rt.alloc(), file.as_bytes()),
            Some(SettingsFault::Form),
            "{file}"
        );
    }
}

#[test]
fn texts_that_are_no_documents_are_refused(rt: HostRuntime) {
    let files: [(&str, &[u8]); 5] = [
        ("no value", b"cells ="),
        ("a key twice", b"cells = 64\ncells = 64"),
        ("no end of a string", b"cells = 64\npassword = \"abcdef"),
        ("no character", b"cells = 64 # \xFF"),
        ("a number of 64 bits", b"cells = 9223372036854775808"),
    ];
    for (name, file) in files {
        assert_eq!(rt;
            fault(rt.alloc(), file),
            Some(SettingsFault::NotToml),
            "{name}"
        );
    }
}

/// Documents of the right form, with passwords and numbers of cells.
const RANGES: [(&str, Option<SettingsFault>); 16] = [
    (
        "cells = 64\npassword = \"ab\"",
        Some(SettingsFault::Password),
    ),
    (
        "cells = 64\npassword = \"abcde\"",
        Some(SettingsFault::Password),
    ),
    (
        "cells = 64\npassword = \"abcdefg\"",
        Some(SettingsFault::Password),
    ),
    (
        "cells = 64\npassword = \"abc ef\"",
        Some(SettingsFault::Password),
    ),
    (
        "cells = 64\npassword = \"abcde\\u007F\"",
        Some(SettingsFault::Password),
    ),
    (
        "cells = 64\npassword = \"abcd\\u00E9\"",
        Some(SettingsFault::Password),
    ),
    ("cells = 64\npassword = \"!~!~!~\"", None),
    (
        "cells = 0\npassword = \"ab\"",
        Some(SettingsFault::Password),
    ),
    ("cells = 0", Some(SettingsFault::Cells)),
    ("cells = -1", Some(SettingsFault::Cells)),
    ("cells = 65537", Some(SettingsFault::Cells)),
    ("cells = 4294967297", Some(SettingsFault::Cells)),
    (
        "cells = 0\nsubscriber = [{id = \"\", capcode = 8, class = \"alpha\"}]",
        Some(SettingsFault::Cells),
    ),
    ("cells = 1", None),
    ("cells = 65536", None),
    ("\"cells\" = 0x40\nsubscriber = []", None),
];

#[test]
fn passwords_and_cells_have_their_ranges(rt: HostRuntime) {
    for (file, wanted) in RANGES {
        assert_eq!(rt; fault(rt.alloc(), file.as_bytes()), wanted, "{file}");
    }
}

/// Entries.
const ENTRIES: [(&str, Option<SettingsFault>); 13] = [
    (
        "{id = \"12a\", capcode = 8, class = \"alpha\"}",
        Some(SettingsFault::Id(1)),
    ),
    (
        "{id = \"\", capcode = 8, class = \"alpha\"}",
        Some(SettingsFault::Id(1)),
    ),
    (
        "{id = \"12345678901\", capcode = 8, class = \"alpha\"}",
        Some(SettingsFault::Id(1)),
    ),
    (
        "{id = \"1234567890\", capcode = 8, class = \"alpha\"}",
        None,
    ),
    ("{id = \"1\", capcode = 8, class = \"alpha\"}", None),
    (
        "{id = \"1\", capcode = 8, class = \"alpha\"}, {id = \"1\", capcode = 8, class = \"tone1\"}",
        Some(SettingsFault::IdTwice(2)),
    ),
    (
        "{id = \"1\", capcode = 8, class = \"alpha\"}, {id = \"01\", capcode = 8, class = \"alpha\"}",
        None,
    ),
    (
        "{id = \"1\", capcode = 8, class = \"alpha\"}, {id = \"1\", capcode = -1, class = \"beta\"}",
        Some(SettingsFault::IdTwice(2)),
    ),
    (
        "{id = \"1\", capcode = 8, class = \"beta\"}",
        Some(SettingsFault::Class(1)),
    ),
    (
        "{id = \"1\", capcode = 8, class = \"Alpha\"}",
        Some(SettingsFault::Class(1)),
    ),
    (
        "{id = \"1\", capcode = -1, class = \"beta\"}",
        Some(SettingsFault::Capcode(1)),
    ),
    (
        "{id = \"1\", capcode = 8, class = \"beta\"}, {id = \"12a\", capcode = 8, class = \"alpha\"}",
        Some(SettingsFault::Class(1)),
    ),
    (
        "{id = \"1\", capcode = 8, class = \"alpha\"}, {id = \"x\", capcode = -1, class = \"alpha\"}",
        Some(SettingsFault::Id(2)),
    ),
];

#[test]
fn the_first_faulty_entry_is_named(rt: HostRuntime) -> Result<(), Fail> {
    for (entries, wanted) in ENTRIES {
        let file = format!(in rt.alloc(); "cells = 64\nsubscriber = [{entries}]")?;
        assert_eq!(rt; fault(rt.alloc(), file.as_bytes()), wanted, "{entries}");
    }
    Ok(())
}

#[test]
fn the_number_of_entries_is_bounded(rt: HostRuntime) -> Result<(), Fail> {
    for (cells, count, class, wanted) in [
        (1, 10_000, "alpha", None),
        (1, 10_001, "alpha", Some(SettingsFault::TooMany)),
        (1, 10_001, "beta", Some(SettingsFault::TooMany)),
        (0, 10_001, "alpha", Some(SettingsFault::Cells)),
    ] {
        let file = numbered(rt.alloc(), cells, count, class)?;
        assert_eq!(rt; fault(rt.alloc(), file.as_bytes()), wanted, "{count}");
    }
    Ok(())
}

#[test]
fn the_number_of_bytes_is_bounded(rt: HostRuntime) -> Result<(), Fail> {
    for (line, size, wanted) in [
        ("cells = 1\n", 1_048_576, None),
        ("cells = 1\n", 1_048_577, Some(SettingsFault::Long)),
        ("", 1_048_576, Some(SettingsFault::Form)),
        ("", 1_048_577, Some(SettingsFault::Long)),
    ] {
        let file = filled(rt.alloc(), line, size)?;
        assert_eq!(rt; fault(rt.alloc(), file.as_slice()), wanted, "{size}");
    }
    Ok(())
}

/// How many capcodes an id has, the first of them, and its function.
fn first(settings: &Settings, id: &[u8]) -> Option<(usize, u32, Function)> {
    match settings.find(id) {
        Some(target) => {
            let count = target.count();
            Some((count, target.member(0).number(), target.function()))
        }
        None => None,
    }
}

/// The subscribers of `SIX`.
const FOUND: [(&str, u32, Function); 6] = [
    ("5551234", 8, Function::Alpha),
    ("5550002", 9, Function::Numeric),
    ("15", 15, Function::Tone1),
    ("8", 8, Function::Tone1),
    ("16", 16, Function::Tone1),
    ("7", 15, Function::Alpha),
];

#[test]
fn ids_are_found(rt: HostRuntime) -> Result<(), Fail> {
    let settings = match Settings::read(rt.alloc(), SIX.as_bytes()) {
        Ok(settings) => settings,
        Err(_) => return Err(Fail::from("the six subscribers are refused")),
    };
    assert_eq!(rt; settings.cells(), 64);
    assert!(rt; settings.password().is_none());
    for (id, capcode, function) in FOUND {
        assert_eq!(rt;
            first(&settings, id.as_bytes()),
            Some((1, capcode, function)),
            "{id}"
        );
    }
    for id in ["", "5551235", "555123", "55512340", "08"] {
        assert!(rt; settings.find(id.as_bytes()).is_none(), "{id}");
    }
    assert!(rt; settings.find(b"\xFF").is_none());
    Ok(())
}

#[test]
fn password_is_kept(rt: HostRuntime) {
    match Settings::read(rt.alloc(), b"cells = 1\npassword = \"Se!~09\"") {
        Ok(settings) => {
            assert_eq!(rt; settings.password(), Some(*b"Se!~09"));
            assert_eq!(rt; settings.cells(), 1);
            assert!(rt; settings.find(b"1").is_none());
        }
        Err(_) => assert!(rt; false, "the file is refused"),
    }
}

/// Numbers beside those that no capcode may have, and whether they are capcodes.
const CAPCODES: [(i64, bool); 16] = [
    (0, true),
    (8, true),
    (2_007_663, true),
    (2_007_664, false),
    (2_007_671, false),
    (2_007_672, true),
    (2_045_055, true),
    (2_045_056, false),
    (2_045_063, false),
    (2_045_064, true),
    (2_097_151, true),
    (2_097_152, false),
    (4_294_967_295, false),
    (4_294_967_304, false),
    (-1, false),
    (-8, false),
];

#[test]
fn an_entry_has_a_usable_capcode(rt: HostRuntime) -> Result<(), Fail> {
    for (number, usable) in CAPCODES {
        let file = format!(in rt.alloc();
            "cells = 1\nsubscriber = [{{id = \"1\", capcode = {number}, class = \"alpha\"}}]"
        )?;
        let wanted = if usable {
            None
        } else {
            Some(SettingsFault::Capcode(1))
        };
        assert_eq!(rt; fault(rt.alloc(), file.as_bytes()), wanted, "{number}");
    }
    Ok(())
}

/// The ids of the numbers of `numbers_are_ids`, with their capcodes and functions.
const DIGITS: [(&str, u32, Function); 4] = [
    ("5551234", 8, Function::Alpha),
    ("0", 9, Function::Numeric),
    ("80", 15, Function::Tone1),
    ("4294967295", 8, Function::Tone2),
];

/// Texts that are no id of these numbers.
const NO_DIGITS: [&str; 5] = ["", "05551234", "8", "00", "555123"];

/// A usable capcode.
fn capcode(number: u32) -> Result<Capcode, Fail> {
    match Capcode::of(number) {
        Some(capcode) => Ok(capcode),
        None => Err(Fail::from("the capcode is refused")),
    }
}

#[test]
fn numbers_are_ids(rt: HostRuntime) -> Result<(), Fail> {
    let numbers = [
        (5_551_234, capcode(8)?, Function::Alpha),
        (0, capcode(9)?, Function::Numeric),
        (80, capcode(15)?, Function::Tone1),
        (4_294_967_295, capcode(8)?, Function::Tone2),
    ];
    let settings = match Settings::made(rt.alloc(), 65_536, &numbers) {
        Ok(settings) => settings,
        Err(_) => return Err(Fail::from("there is no memory")),
    };
    assert_eq!(rt; settings.cells(), 65_536);
    assert!(rt; settings.password().is_none());
    for (id, capcode, function) in DIGITS {
        assert_eq!(rt;
            first(&settings, id.as_bytes()),
            Some((1, capcode, function)),
            "{id}"
        );
    }
    for id in NO_DIGITS {
        assert!(rt; settings.find(id.as_bytes()).is_none(), "{id}");
    }
    Ok(())
}
