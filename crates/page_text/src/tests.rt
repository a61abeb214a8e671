//! Worked texts, groups and printed lines.
ghost use Rattle.std.specs.Prelude.{◌<◌, ◌^◌, IfSome};

use super::*;
use codeword::{Capcode, Function};
use std::test::Fail;
use wires::Failed;
use wires::fakes::MemorySink;

/// Group `k` of a text. None where the text doesn't fit or has no such group.
fn carried(function: Function, text: &[u8], k: usize) -> Option<u32>
    ensures { IfSome result (λ group. group < 2 ^ 20) }
{
    if text.len() <= LONGEST_TEXT
        && fits(function, text).is_ok()
        && k < word_count(function, text.len())
    {
        Some(group(function, text, k))
    } else {
        None
    }
}

#[test]
fn groups_are_the_worked_ones(rt: HostRuntime) {
    let table: [(&str, Function, &[u8], &[u32]); 8] = [
        ("ABC", Function::Alpha, b"ABC", &[0x82870, 0x80000]),
        ("HELLO", Function::Alpha, b"HELLO", &[0x1344C, 0x99F20]),
        ("one letter", Function::Alpha, b"A", &[0x82000]),
        ("a letter and CR", Function::Alpha, b"A\r", &[0x83600]),
        ("no letter", Function::Alpha, b"", &[]),
        ("two digits", Function::Numeric, b"12", &[0x84333]),
        ("no digit", Function::Numeric, b"", &[]),
        ("a tone", Function::Tone1, b"", &[]),
    ];
    for (name, function, text, groups) in table {
        assert!(rt; fits(function, text).is_ok(), "{name}");
        for k in 0..groups.len() {
            assert_eq!(rt; carried(function, text, k), Some(groups[k]), "{name}");
        }
        assert_eq!(rt; carried(function, text, groups.len()), None, "{name}");
    }
}

#[test]
fn a_text_fits_or_has_its_first_fault(rt: HostRuntime) {
    let digits = [b'7'; 41];
    let letters = [b'A'; 1_001];
    let foreign_digits = [b'Z'; 41];
    let foreign_letters = [0x7F; 1_001];
    let table: [(&str, Function, &[u8], Result<(), TextFault>); 26] = [
        ("a tone without a text", Function::Tone1, b"", Ok(())),
        (
            "the other tone without a text",
            Function::Tone2,
            b"",
            Ok(()),
        ),
        (
            "a tone with a text",
            Function::Tone1,
            b"1",
            Err(TextFault::NotEmpty),
        ),
        (
            "the other tone with a long text",
            Function::Tone2,
            &letters,
            Err(TextFault::NotEmpty),
        ),
        ("no digit", Function::Numeric, b"", Ok(())),
        (
            "the numeric alphabet",
            Function::Numeric,
            b"0123456789*U -][",
            Ok(()),
        ),
        ("40 digits", Function::Numeric, &digits[..40], Ok(())),
        (
            "41 digits",
            Function::Numeric,
            &digits,
            Err(TextFault::TooLong),
        ),
        (
            "41 foreign characters in a numeric text",
            Function::Numeric,
            &foreign_digits,
            Err(TextFault::TooLong),
        ),
        (
            "a letter in a numeric text",
            Function::Numeric,
            b"1A",
            Err(TextFault::Alphabet),
        ),
        (
            "a small u",
            Function::Numeric,
            b"u",
            Err(TextFault::Alphabet),
        ),
        (
            "CR in a numeric text",
            Function::Numeric,
            b"12\r",
            Err(TextFault::Alphabet),
        ),
        (
            "a letter before a last space",
            Function::Numeric,
            b"A ",
            Err(TextFault::Alphabet),
        ),
        (
            "a last space",
            Function::Numeric,
            b"12 ",
            Err(TextFault::EndsInSpace),
        ),
        (
            "a space alone",
            Function::Numeric,
            b" ",
            Err(TextFault::EndsInSpace),
        ),
        ("a first space", Function::Numeric, b" 12", Ok(())),
        ("no letter", Function::Alpha, b"", Ok(())),
        (
            "the ends of the alphabet, CR and LF",
            Function::Alpha,
            b" ~\r\n",
            Ok(()),
        ),
        (
            "a last space in an alphanumeric text",
            Function::Alpha,
            b"A ",
            Ok(()),
        ),
        ("1,000 letters", Function::Alpha, &letters[..1_000], Ok(())),
        (
            "1,001 letters",
            Function::Alpha,
            &letters,
            Err(TextFault::TooLong),
        ),
        (
            "1,001 foreign characters in an alphanumeric text",
            Function::Alpha,
            &foreign_letters,
            Err(TextFault::TooLong),
        ),
        ("DEL", Function::Alpha, b"A\x7F", Err(TextFault::Alphabet)),
        ("US", Function::Alpha, b"\x1F", Err(TextFault::Alphabet)),
        ("NUL", Function::Alpha, b"\0", Err(TextFault::Alphabet)),
        (
            "a letter with its parity bit",
            Function::Alpha,
            b"\xC1",
            Err(TextFault::Alphabet),
        ),
    ];
    for (name, function, text, answer) in table {
        assert_eq!(rt; fits(function, text), answer, "{name}");
    }
}

#[test]
fn a_length_has_its_count_of_words(rt: HostRuntime) {
    for (function, length, count) in [
        (Function::Numeric, 0, 0),
        (Function::Numeric, 5, 1),
        (Function::Numeric, 6, 2),
        (Function::Numeric, 40, 8),
        (Function::Tone1, 0, 0),
        (Function::Tone2, 9, 0),
        (Function::Alpha, 0, 0),
        (Function::Alpha, 2, 1),
        (Function::Alpha, 3, 2),
        (Function::Alpha, 400, 140),
        (Function::Alpha, 401, 141),
        (Function::Alpha, 1_000, 350),
    ] {
        assert!(rt; length <= LONGEST_TEXT, "{length} characters");
        assert_eq!(rt; word_count(function, length), count, "{length} characters");
    }
}

#[test]
fn a_thousand_letters_are_read_back_from_350_groups(rt: HostRuntime) {
    let mut text = [b'A'; LONGEST_TEXT];
    for i in 0..LONGEST_TEXT {
        text[i] = 0x20 + (i % 95) as u8;
    }
    let mut reader = TextReader::new();
    for k in 0..MOST_GROUPS {
        match carried(Function::Alpha, &text, k) {
            Some(group) => assert!(rt; reader.push(group)),
            None => assert!(rt; false, "no group {k}"),
        }
    }
    assert!(rt; !reader.push(0x20000), "a group more was taken");
    let mut into = [0xEE; LONGEST_READ];
    let length = reader.text(Function::Alpha, &mut into);
    assert_eq!(rt; &into[..length], text.as_slice());
}

#[test]
fn groups_are_read_by_their_function(rt: HostRuntime) {
    let table: [(&str, Function, &[u32], &[u8]); 9] = [
        ("ABC", Function::Alpha, &[0x82870, 0x80000], b"ABC"),
        ("a letter and CR", Function::Alpha, &[0x83600], b"A\r"),
        ("a group of zeros", Function::Alpha, &[0x00000], b""),
        ("no group", Function::Alpha, &[], b""),
        ("two digits", Function::Numeric, &[0x84333], b"12"),
        ("spaces alone", Function::Numeric, &[0x33333, 0x33333], b""),
        (
            "first spaces",
            Function::Numeric,
            &[0x33338, 0x5D3BF],
            b"    1*U -[",
        ),
        ("a tone with letters", Function::Tone1, &[0x82870], b""),
        (
            "the other tone with digits",
            Function::Tone2,
            &[0x84333],
            b"",
        ),
    ];
    let mut reader = TextReader::new();
    for (name, function, groups, text) in table {
        reader.start();
        for group in groups {
            assert!(rt; *group < 0x100000, "{name}");
            assert!(rt; reader.push(*group), "{name}");
        }
        let mut into = [0; LONGEST_READ];
        let length = reader.text(function, &mut into);
        assert_eq!(rt; &into[..length], text, "{name}");
    }
}

#[test]
fn lines_are_printed(rt: HostRuntime) -> Result<(), Fail> {
    let table: [(&str, u32, Function, &[u8], &[u8]); 8] = [
        ("letters", 8, Function::Alpha, b"ABC", b"0000008 A ABC\n"),
        ("digits", 9, Function::Numeric, b"12", b"0000009 N 12\n"),
        ("no digit", 9, Function::Numeric, b"", b"0000009 N \n"),
        ("a tone", 15, Function::Tone1, b"", b"0000015 1 \n"),
        (
            "the other tone",
            2_097_151,
            Function::Tone2,
            b"",
            b"2097151 2 \n",
        ),
        ("CR", 8, Function::Alpha, b"A\rB", b"0000008 A A\\rB\n"),
        (
            "a backslash, LF and DEL",
            1_234_567,
            Function::Alpha,
            b"a\\b\n~ \x7F",
            b"1234567 A a\\\\b\\n~ \\x7F\n",
        ),
        (
            "characters outside the alphabet",
            8,
            Function::Alpha,
            b"\x00\xFF\x1F\xA0",
            b"0000008 A \\x00\\xFF\\x1F\\xA0\n",
        ),
    ];
    for (name, capcode, function, text, printed) in table {
        let capcode = Capcode::of(capcode).expect(&rt, "a usable capcode");
        let mut sink = MemorySink::new(rt.alloc(), 40, &[])?;
        assert!(rt; text.len() <= LONGEST_READ, "{name}");
        assert_eq!(rt; line(capcode, function, text, &mut sink), Ok(()), "{name}");
        assert_eq!(rt; sink.bytes(), printed, "{name}");
    }
    Ok(())
}

#[test]
fn the_longest_line_is_one_piece(rt: HostRuntime) -> Result<(), Fail> {
    let capcode = Capcode::of(8).expect(&rt, "a usable capcode");
    let mut sink = MemorySink::new(rt.alloc(), 7_011, &[2])?;
    assert_eq!(rt;
        line(capcode, Function::Alpha, &[0; LONGEST_READ], &mut sink),
        Ok(())
    );
    assert_eq!(rt; sink.bytes().len(), 7_011);
    Ok(())
}

#[test]
fn a_line_fails_where_its_sink_does(rt: HostRuntime) -> Result<(), Fail> {
    let capcode = Capcode::of(8).expect(&rt, "a usable capcode");
    let mut sink = MemorySink::new(rt.alloc(), 40, &[1])?;
    assert_eq!(rt;
        line(capcode, Function::Alpha, b"ABC", &mut sink),
        Err(Failed)
    );
    Ok(())
}
