//! Runs of `trial` and of `twice`: docs/profile.md, "trial" and "repeated transmission".

use crate::runs::{Left, Objects, files, push_words, run_over};
use crate::sessions::{HELLO_SESSION, S1};
use station::Status;
use std::alloc::{AllocError, Global};
use std::test::Fail;

/// Two wrong bits in each word behind a preamble.
pub(crate) const TWO_WRONG: &[u32] = &[0x8000_0001; 17];

/// Three in the first word behind the sync word, and two in all others.
const THREE_WRONG: &[u32] = &[
    0x8000_0001,
    0x8000_0003,
    0x8000_0001,
    0x8000_0001,
    0x8000_0001,
    0x8000_0001,
    0x8000_0001,
    0x8000_0001,
    0x8000_0001,
    0x8000_0001,
    0x8000_0001,
    0x8000_0001,
    0x8000_0001,
    0x8000_0001,
    0x8000_0001,
    0x8000_0001,
    0x8000_0001,
];

/// The answers of the session, and the line behind them.
pub(crate) const ANSWERS: &[u8] = b"ID\nGO\nACK\nEND\n---\n";

/// The same, and the line of its page.
pub(crate) const HEARD: &[u8] = b"ID\nGO\nACK\nEND\n---\n01 0000008 A HELLO\n";

/// The same, and the lines of its page for the receivers 2 and 3.
const HEARD_TWICE: &[u8] = b"ID\nGO\nACK\nEND\n---\n02 0000008 A HELLO\n03 0000008 A HELLO\n";

/// What a row shows; the receivers; the noise behind 72 bytes 0, or none where the file isn't there; the status, what is printed, and the line about the
/// status.
type Row = (
    &'static str,
    &'static [&'static str],
    Option<&'static [u32]>,
    Status,
    &'static [u8],
    &'static [u8],
);

const ROWS: [Row; 6] = [
    (
        "two wrong bits a word",
        &["8"],
        Some(TWO_WRONG),
        Status::Done,
        HEARD,
        b"",
    ),
    (
        "three wrong bits a word",
        &["8"],
        Some(THREE_WRONG),
        Status::Done,
        ANSWERS,
        b"",
    ),
    ("no noise", &["8"], Some(&[]), Status::Done, HEARD, b""),
    (
        "other receivers",
        &["9", "16"],
        Some(TWO_WRONG),
        Status::Done,
        ANSWERS,
        b"",
    ),
    (
        "the second and third of three receivers",
        &["9", "16+8", "8"],
        Some(TWO_WRONG),
        Status::Done,
        HEARD_TWICE,
        b"",
    ),
    (
        "no noise file",
        &["8"],
        None,
        Status::FileFault,
        ANSWERS,
        b"pocsag: file\n",
    ),
];

/// The bytes of a noise.
pub(crate) fn noise_of(alloc: Global, words: &[u32]) -> Result<Vec<u8>, AllocError> {
    let mut noise = vec![in alloc; 0u8; 72]?;
    push_words(&mut noise, words, 0)?;
    Ok(noise)
}

/// The settings and, where there is a noise, its file.
fn files_of(alloc: Global, noise: Option<&[u32]>) -> Result<Vec<(String, Vec<u8>)>, AllocError> {
    match noise {
        Some(words) => {
            let noise = noise_of(alloc, words)?;
            files(alloc, &[("s1.toml", S1), ("noise.bin", &noise)])
        }
        None => files(alloc, &[("s1.toml", S1)]),
    }
}

/// Tries the session with these receivers and this noise.
fn tried(alloc: Global, receivers: &[&str], noise: Option<&[u32]>) -> Result<Left, Fail> {
    let mut words = Vec::new(alloc);
    words.extend_from_slice(&["trial", "s1.toml", "noise.bin"])?;
    words.extend_from_slice(receivers)?;
    let files = files_of(alloc, noise)?;
    let objects = Objects {
        heard: b"",
        files: &files,
        input: HELLO_SESSION,
        cut: 7,
        faults: &[],
    };
    run_over(alloc, &words, objects)
}

#[test]
fn a_session_is_tried_through_a_noise(rt: HostRuntime) -> Result<(), Fail> {
    for (name, receivers, noise, status, printed, line) in &ROWS {
        let left = tried(rt.alloc(), *receivers, *noise)?;
        assert_eq!(rt; left.status, *status, "{name}");
        assert_eq!(rt; left.out.as_slice(), *printed, "{name}");
        assert_eq!(rt; left.err.as_slice(), *line, "{name}");
        assert!(rt; left.air.is_none(), "{name}");
    }
    Ok(())
}

/// Three wrong bits.
const BAD: u32 = 0x8000_0003;

/// So many words has the transmission of a page: a preamble of 18, and a batch of 17. The second copy comes behind them.
const COPY: usize = 35;

/// The places of the address word and of the first message word of a copy.
const ADDRESS: usize = 19;

const MESSAGE: usize = 20;

/// What a row shows; the command; the words of the noise with three wrong bits; what is printed.
type TwiceRow = (&'static str, &'static str, &'static [usize], &'static [u8]);

const TWICE_ROWS: [TwiceRow; 5] = [
    (
        "each word is clean in a copy",
        "twice",
        &[ADDRESS, COPY + MESSAGE],
        HEARD,
    ),
    ("no noise", "twice", &[], HEARD),
    (
        "the address word is bad in both copies",
        "twice",
        &[ADDRESS, COPY + ADDRESS],
        ANSWERS,
    ),
    (
        "each word is clean in a copy, which is sent once",
        "trial",
        &[ADDRESS, COPY + MESSAGE],
        ANSWERS,
    ),
    (
        "the word behind the page is bad in the first copy",
        "twice",
        &[ADDRESS + 3],
        HEARD,
    ),
];

/// The bytes of a noise with three wrong bits in these words, up to the last of them.
fn noise_at(alloc: Global, places: &[usize]) -> Result<Vec<u8>, AllocError> {
    let mut noise = Vec::new(alloc);
    for place in 0..2 * COPY {
        if places.iter().all(|last| *last < place) {
            break;
        }
        let word = if places.contains(&place) { BAD } else { 0 };
        push_words(&mut noise, &[word], 0)?;
    }
    Ok(noise)
}

/// Runs a command over the session and this noise.
fn run_through(alloc: Global, command: &str, places: &[usize]) -> Result<Left, Fail> {
    let noise = noise_at(alloc, places)?;
    let files = files(alloc, &[("s1.toml", S1), ("noise.bin", &noise)])?;
    let objects = Objects {
        heard: b"",
        files: &files,
        input: HELLO_SESSION,
        cut: 7,
        faults: &[],
    };
    run_over(alloc, &[command, "s1.toml", "noise.bin", "8"], objects)
}

#[test]
fn a_page_is_heard_of_two_copies(rt: HostRuntime) -> Result<(), Fail> {
    for (name, command, places, printed) in &TWICE_ROWS {
        let left = run_through(rt.alloc(), *command, *places)?;
        assert_eq!(rt; left.status, Status::Done, "{name}");
        assert_eq!(rt; left.out.as_slice(), *printed, "{name}");
    }
    Ok(())
}
