//! Runs. The numbers come from another program, which makes the same session, transmission and noises by the same rules.

use crate::load;
use endings::Status;
use std::test::Fail;
use wires::fakes::MemorySink;

/// Seeds, counts of pages, and the six lines.
const RUNS: [(u64, u32, &str); 5] = [
    (
        1,
        2000,
        "pages 2000\nbatches 692\nlines 2000\nbytes 43379\nsum 2489661\nkept 1828\n",
    ),
    (
        7,
        10_000,
        "pages 10000\nbatches 3280\nlines 10000\nbytes 210674\nsum 12022149\nkept 9186\n",
    ),
    (
        0,
        1,
        "pages 1\nbatches 1\nlines 1\nbytes 11\nsum 474\nkept 1\n",
    ),
    (
        1,
        1,
        "pages 1\nbatches 1\nlines 1\nbytes 11\nsum 477\nkept 1\n",
    ),
    (
        18_446_744_073_709_551_615,
        5,
        "pages 5\nbatches 2\nlines 5\nbytes 98\nsum 5324\nkept 5\n",
    ),
];

#[test]
fn worked_runs(rt: HostRuntime) -> Result<(), Fail> {
    for (seed, count, lines) in RUNS {
        let mut out = MemorySink::new(rt.alloc(), 200, &[])?;
        assert!(rt; load(rt.alloc(), seed, count, &mut out) == Status::Done);
        assert!(rt; out.bytes() == lines.as_bytes(), "{seed}");
    }
    Ok(())
}
