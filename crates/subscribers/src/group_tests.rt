//! Files of both versions, and what their groups give. The answers are those of the table of the rule "settings" in docs/profile.md.

use super::*;
use crate::tests::fault;
use std::alloc::{AllocError, Global};
use std::test::Fail;

/// Two subscribers and a group, in version 2.
const BRIGADE: &str = "version = 2
cells = 64

[[subscriber]]
id = \"8\"
capcode = 8
class = \"tone1\"

[[subscriber]]
id = \"7\"
capcode = 15
class = \"alpha\"

[[group]]
id = \"900\"
capcodes = [8, 15, 2000]
class = \"alpha\"
";

/// Files, and why they are refused.
const VERSIONS: [(&str, Option<SettingsFault>); 20] = [
    ("version = 1\ncells = 64", None),
    ("cells = 64\nversion = 1\nsubscriber = []", None),
    ("version = 2\ncells = 64", None),
    ("version = 2\ncells = 64\ngroup = []", None),
    ("version = 3\ncells = 64", Some(SettingsFault::Version)),
    ("version = 0\ncells = 64", Some(SettingsFault::Version)),
    ("version = -1\ncells = 64", Some(SettingsFault::Version)),
    (
        "version = 4294967297\ncells = 64",
        Some(SettingsFault::Version),
    ),
    ("version = 3", Some(SettingsFault::Version)),
    (
        "version = 3\ncells = 0\npassword = 6\nextra = 1",
        Some(SettingsFault::Version),
    ),
    ("version = \"3\"\ncells = 64", Some(SettingsFault::Form)),
    (
        "version = 1\ncells = 64\ngroup = []",
        Some(SettingsFault::Form),
    ),
    (
        "version = 2\ncells = 64\nextra = 1",
        Some(SettingsFault::Form),
    ),
    (
        "version = 2\ncells = 64\ngroup = 5",
        Some(SettingsFault::Form),
    ),
    (
        "version = 2\ncells = 64\ngroup = [5]",
        Some(SettingsFault::Form),
    ),
    (
        "version = 2\ncells = 64\ngroup = [{}]",
        Some(SettingsFault::Form),
    ),
    (
        "version = 2\ncells = 64\n[group]\nid = \"9\"\ncapcodes = [8]\nclass = \"alpha\"",
        Some(SettingsFault::Form),
    ),
    (
        "version = 2\ncells = 0\npassword = \"ab\"",
        Some(SettingsFault::Password),
    ),
    (
        "version = 2\ncells = 0\ngroup = [{id = \"\", capcodes = [], class = \"\"}]",
        Some(SettingsFault::Cells),
    ),
    (
        "version = 2\ncells = 64\nsubscriber = [{id = \"1\", capcode = 8, class = \"beta\"}]\ngroup = [{id = \"\", capcodes = [], class = \"\"}]",
        Some(SettingsFault::Class(1)),
    ),
];

#[test]
fn a_version_says_which_keys_there_are(rt: HostRuntime) {
    for (file, wanted) in VERSIONS {
        assert_eq!(rt; fault(rt.alloc(), file.as_bytes()), wanted, "{file}");
    }
}

/// Groups beside the subscribers 1 and 2, and why they are refused.
const GROUPS: [(&str, &str, Option<SettingsFault>); 29] = [
    (
        "one of one",
        "{id = \"9\", capcodes = [8], class = \"tone2\"}",
        None,
    ),
    (
        "of sixteen in one frame",
        "{id = \"9\", capcodes = [0, 8, 16, 24, 32, 40, 48, 56, 64, 72, 80, 88, 96, 104, 112, 120], class = \"alpha\"}",
        None,
    ),
    (
        "of the subscribers' capcodes",
        "{id = \"9\", capcodes = [9, 8], class = \"numeric\"}",
        None,
    ),
    (
        "two of the same capcodes",
        "{id = \"9\", capcodes = [8], class = \"alpha\"}, {id = \"09\", capcodes = [8], class = \"alpha\"}",
        None,
    ),
    (
        "no id",
        "{capcodes = [8], class = \"alpha\"}",
        Some(SettingsFault::Form),
    ),
    (
        "no capcodes",
        "{id = \"9\", class = \"alpha\"}",
        Some(SettingsFault::Form),
    ),
    (
        "no class",
        "{id = \"9\", capcodes = [8]}",
        Some(SettingsFault::Form),
    ),
    (
        "a further key",
        "{id = \"9\", capcodes = [8], class = \"alpha\", capcode = 8}",
        Some(SettingsFault::Form),
    ),
    (
        "an id that is a number",
        "{id = 9, capcodes = [8], class = \"alpha\"}",
        Some(SettingsFault::Form),
    ),
    (
        "capcodes that are a number",
        "{id = \"9\", capcodes = 8, class = \"alpha\"}",
        Some(SettingsFault::Form),
    ),
    (
        "a capcode that is a string",
        "{id = \"9\", capcodes = [8, \"15\"], class = \"alpha\"}",
        Some(SettingsFault::Form),
    ),
    (
        "a fault of form behind another",
        "{id = \"\", capcodes = [], class = \"\"}, {id = \"9\", capcodes = [8.0], class = \"alpha\"}",
        Some(SettingsFault::Form),
    ),
    (
        "an id of a letter",
        "{id = \"x\", capcodes = [], class = \"beta\"}",
        Some(SettingsFault::GroupId(1)),
    ),
    (
        "no digits",
        "{id = \"\", capcodes = [8], class = \"alpha\"}",
        Some(SettingsFault::GroupId(1)),
    ),
    (
        "eleven digits",
        "{id = \"12345678901\", capcodes = [8], class = \"alpha\"}",
        Some(SettingsFault::GroupId(1)),
    ),
    (
        "a subscriber's id",
        "{id = \"2\", capcodes = [], class = \"beta\"}",
        Some(SettingsFault::GroupIdTwice(1)),
    ),
    (
        "a group's id",
        "{id = \"9\", capcodes = [8], class = \"alpha\"}, {id = \"9\", capcodes = [8], class = \"alpha\"}",
        Some(SettingsFault::GroupIdTwice(2)),
    ),
    (
        "none",
        "{id = \"9\", capcodes = [], class = \"beta\"}",
        Some(SettingsFault::GroupMembers(1)),
    ),
    (
        "seventeen",
        "{id = \"9\", capcodes = [0, 1, 2, 3, 4, 5, 6, 7, 8, 9, 10, 11, 12, 13, 14, 15, 16], class = \"alpha\"}",
        Some(SettingsFault::GroupMembers(1)),
    ),
    (
        "one twice",
        "{id = \"9\", capcodes = [8, 8], class = \"alpha\"}",
        Some(SettingsFault::GroupMembers(1)),
    ),
    (
        "one twice among others",
        "{id = \"9\", capcodes = [1, 8, 2, 3, 8, 4], class = \"alpha\"}",
        Some(SettingsFault::GroupMembers(1)),
    ),
    (
        "below 0",
        "{id = \"9\", capcodes = [8, -1], class = \"alpha\"}",
        Some(SettingsFault::GroupMembers(1)),
    ),
    (
        "above all",
        "{id = \"9\", capcodes = [2097152], class = \"alpha\"}",
        Some(SettingsFault::GroupMembers(1)),
    ),
    (
        "the idle word's",
        "{id = \"9\", capcodes = [8, 2007664], class = \"alpha\"}",
        Some(SettingsFault::GroupMembers(1)),
    ),
    (
        "the sync word's",
        "{id = \"9\", capcodes = [2045063, 8], class = \"alpha\"}",
        Some(SettingsFault::GroupMembers(1)),
    ),
    (
        "no class of the four",
        "{id = \"9\", capcodes = [8], class = \"Alpha\"}",
        Some(SettingsFault::GroupClass(1)),
    ),
    (
        "the second",
        "{id = \"9\", capcodes = [8], class = \"alpha\"}, {id = \"90\", capcodes = [8], class = \"beta\"}",
        Some(SettingsFault::GroupClass(2)),
    ),
    (
        "the first of two",
        "{id = \"9\", capcodes = [8], class = \"beta\"}, {id = \"x\", capcodes = [8], class = \"alpha\"}",
        Some(SettingsFault::GroupClass(1)),
    ),
    (
        "the second by its id",
        "{id = \"9\", capcodes = [8], class = \"alpha\"}, {id = \"x\", capcodes = [], class = \"beta\"}",
        Some(SettingsFault::GroupId(2)),
    ),
];

#[test]
fn the_first_faulty_group_is_named(rt: HostRuntime) -> Result<(), Fail> {
    for (name, groups, wanted) in GROUPS {
        let file = format!(in rt.alloc();
            "version = 2\ncells = 64\nsubscriber = [{{id = \"1\", capcode = 8, class = \"alpha\"}}, {{id = \"2\", capcode = 9, class = \"tone1\"}}]\ngroup = [{groups}]"
        )?;
        assert_eq!(rt; fault(rt.alloc(), file.as_bytes()), wanted, "{name}");
    }
    Ok(())
}

/// The group of `BRIGADE` changed, or its version.
const CHANGED: [(&str, &str, &str, Option<SettingsFault>); 6] = [
    ("as it stands", "900", "900", None),
    (
        "version 3",
        "version = 2",
        "version = 3",
        Some(SettingsFault::Version),
    ),
    ("no version", "version = 2\n", "", Some(SettingsFault::Form)),
    (
        "a subscriber's id",
        "\"900\"",
        "\"8\"",
        Some(SettingsFault::GroupIdTwice(1)),
    ),
    (
        "no capcode",
        "[8, 15, 2000]",
        "[]",
        Some(SettingsFault::GroupMembers(1)),
    ),
    (
        "a capcode twice",
        "[8, 15, 2000]",
        "[8, 8]",
        Some(SettingsFault::GroupMembers(1)),
    ),
];

#[test]
fn a_changed_group_is_refused(rt: HostRuntime) -> Result<(), Fail> {
    for (name, old, new, wanted) in CHANGED {
        let file = BRIGADE.replace(rt.alloc(), old, new)?;
        assert_eq!(rt; fault(rt.alloc(), file.as_bytes()), wanted, "{name}");
    }
    Ok(())
}

/// The capcodes of an id, written one after another, with its function.
fn members(alloc: Global, settings: &Settings, id: &[u8]) -> Result<String, AllocError> {
    let mut text = String::new(alloc);
    match settings.find(id) {
        Some(target) => {
            for k in 0..target.count() {
                let member = format!(in alloc; "{} ", target.member(k).number())?;
                text.push_str(member.as_str())?;
            }
            let function = format!(in alloc; "{:?}", target.function())?;
            text.push_str(function.as_str())?;
        }
        None => text.push_str("none")?,
    }
    Ok(text)
}

#[test]
fn a_group_is_found(rt: HostRuntime) -> Result<(), Fail> {
    let settings = match Settings::read(rt.alloc(), BRIGADE.as_bytes()) {
        Ok(settings) => settings,
        Err(_) => return Err(Fail::from("the brigade is refused")),
    };
    for (id, wanted) in [
        ("900", "8 15 2000 Alpha"),
        ("8", "8 Tone1"),
        ("7", "15 Alpha"),
        ("90", "none"),
        ("9000", "none"),
    ] {
        let found = members(rt.alloc(), &settings, id.as_bytes())?;
        assert_eq!(rt; found.as_str(), wanted, "{id}");
    }
    Ok(())
}

/// A file of version 2 with groups of 16 capcodes, whose ids are the numbers from 0.
fn many(alloc: Global, count: u16) -> Result<String, AllocError> {
    let mut file = format!(in alloc; "version = 2\ncells = 64\n")?;
    for id in 0..count {
        let group = format!(in alloc;
            "[[group]]\nid = \"{id}\"\ncapcodes = [0, 1, 2, 3, 4, 5, 6, 7, 8, 9, 10, 11, 12, 13, 14, {}]\nclass = \"alpha\"\n",
            u32::from(id) + 15
        )?;
        file.push_str(group.as_str())?;
    }
    Ok(file)
}

#[test]
fn the_number_of_groups_is_bounded(rt: HostRuntime) -> Result<(), Fail> {
    for (count, wanted) in [(1_000, None), (1_001, Some(SettingsFault::TooMany))] {
        let file = many(rt.alloc(), count)?;
        assert_eq!(rt; fault(rt.alloc(), file.as_bytes()), wanted, "{count}");
    }
    let file = many(rt.alloc(), 1_000)?;
    match Settings::read(rt.alloc(), file.as_bytes()) {
        Ok(settings) => {
            let last = members(rt.alloc(), &settings, b"999")?;
            assert_eq!(rt;
                last.as_str(),
                "0 1 2 3 4 5 6 7 8 9 10 11 12 13 14 1014 Alpha"
            );
        }
        Err(_) => return Err(Fail::from("a thousand groups are refused")),
    }
    Ok(())
}
