//! Worked sequences of calls, and the pool beside a plain one over a table of calls.
ghost use Rattle.std.specs.Prelude.{IfSome};
ghost use Rattle.page_pool.specs.Pool.{IsLive};

use crate::twin::{ListPool, Page};
use crate::*;
use codeword::{Capcode, Function};
use page_text::{LONGEST_TEXT, fits};
use std::alloc::{AllocError, Global};
use std::process::Abort;
use std::test::Fail;

/// Puts an alphanumeric page, and says whether it had room. None where there is no such page.
fn put(pool: &mut Pool, capcode: u32, text: &[u8]) -> Option<bool> {
    let capcode = Capcode::of(capcode)?;
    if fits(Function::Alpha, text).is_err() {
        return None;
    }
    Some(pool.put(capcode, Function::Alpha, text).is_ok())
}

/// The ticket of the first page of a frame.
fn first(pool: &Pool, frame: u32) -> Option<Ticket>
    ensures { IfSome result (λ t. IsLive pool.now t) }
{
    if frame >= 8 {
        return None;
    }
    let t = pool.first(frame)?;
    if pool.live(t) { Some(t) } else { None }
}

/// The place of cell `k` of the first page of a frame. None where it has no such character as the first of this cell.
fn place(pool: &Pool, frame: u32, k: usize) -> Option<u32> {
    let t = first(pool, frame)?;
    if k <= 12 && 32 * k < pool.length(t) {
        Some(pool.place(t, k))
    } else {
        None
    }
}

/// The byte of the region at which a cell begins.
fn first_byte(pool: &Pool, cell: Option<u32>) -> Option<u8> {
    let at = 32 * cell? as usize;
    pool.region().get(at).copied()
}

/// Takes out the first page of a frame, where it has one. Answers whether it had.
fn take(pool: &mut Pool, frame: u32) -> bool {
    let Some(t) = first(pool, frame) else {
        return false;
    };
    pool.take(t);
    true
}

/// The text of a page.
fn text(alloc: Global, pool: &Pool, t: Ticket) -> Result<Vec<u8>, AllocError>
    requires { IsLive pool.now t }
{
    let mut text = [0; LONGEST_TEXT];
    let length = pool.copy_text(t, &mut text);
    match text.get(..length) {
        Some(text) => text.to_vec(alloc),
        None => Ok(Vec::new(alloc)),
    }
}

/// The first page of a frame.
fn page(alloc: Global, pool: &Pool, frame: u32) -> Result<Option<Page>, AllocError> {
    let Some(t) = first(pool, frame) else {
        return Ok(None);
    };
    Ok(Some(Page {
        capcode: pool.capcode(t),
        function: pool.function(t),
        text: text(alloc, pool, t)?,
    }))
}

// Four pages of one cell, of which the second and the fourth are taken. One page of 33 letters gets their cells.
#[test]
fn a_page_takes_the_cells_that_were_given_back(rt: HostRuntime) -> Result<(), Fail> {
    let mut pool = Pool::new(rt.alloc(), 4)?;
    assert_eq!(rt; put(&mut pool, 8, b"A"), Some(true));
    assert_eq!(rt; put(&mut pool, 9, b"B"), Some(true));
    assert_eq!(rt; put(&mut pool, 10, b"C"), Some(true));
    assert_eq!(rt; put(&mut pool, 11, b"D"), Some(true));
    let [a, b, c, d] = [0, 1, 2, 3].map(|frame| place(&pool, frame, 0));
    take(&mut pool, 1);
    take(&mut pool, 3);
    assert_eq!(rt; put(&mut pool, 12, &[b'E'; 33]), Some(true));
    assert_eq!(rt; pool.spare(), 0);
    let places = (place(&pool, 4, 0), place(&pool, 4, 1));
    assert!(rt; places == (b, d) || places == (d, b));
    assert!(rt; b.is_some() && d.is_some() && b != d);
    assert_eq!(rt; place(&pool, 0, 0), a);
    assert_eq!(rt; place(&pool, 2, 0), c);
    assert_eq!(rt; first_byte(&pool, a), Some(b'A'));
    assert_eq!(rt; first_byte(&pool, c), Some(b'C'));
    assert_eq!(rt; pool.region().len(), 128);
    assert!(rt; first(&pool, 1).is_none() && first(&pool, 3).is_none());
    Ok(())
}

// Two cells, which one page of 64 letters fills. A further letter has no room.
#[test]
fn a_full_pool_stays_as_it_is(rt: HostRuntime) -> Result<(), Fail> {
    let mut pool = Pool::new(rt.alloc(), 2)?;
    assert_eq!(rt; pool.spare(), 2);
    assert_eq!(rt; put(&mut pool, 8, &[b'A'; 64]), Some(true));
    assert_eq!(rt; pool.spare(), 0);
    assert_eq!(rt; put(&mut pool, 8, b"B"), Some(false));
    assert_eq!(rt; pool.spare(), 0);
    assert_eq!(rt; pool.count(), 1);
    let kept = page(rt.alloc(), &pool, 0)?;
    assert!(rt; kept.is_some_and(|page| page.text.as_slice() == [b'A'; 64].as_slice()));
    Ok(())
}

/// Puts an alphanumeric page to each of these numbers, and says whether there was room for all. None where there are no such pages.
fn put_all(
    alloc: Global,
    pool: &mut Pool,
    numbers: &[u32],
    text: &[u8],
) -> Result<Option<bool>, AllocError> {
    let mut capcodes = Vec::new(alloc);
    for number in numbers {
        let Some(capcode) = Capcode::of(*number) else {
            return Ok(None);
        };
        capcodes.push(capcode)?;
    }
    if fits(Function::Alpha, text).is_err() {
        return Ok(None);
    }
    Ok(Some(pool.put_all(&capcodes, Function::Alpha, text).is_ok()))
}

// Sixteen capcodes want a cell each, and fifteen are spare. Texts of two cells fill fourteen of them.
#[test]
fn pages_without_room_for_all_are_not_put(rt: HostRuntime) -> Result<(), Fail> {
    let numbers = [8, 9, 10, 11, 12, 13, 14, 15, 16, 17, 18, 19, 20, 21, 22, 23];
    let mut pool = Pool::new(rt.alloc(), 15)?;
    assert_eq!(rt;
        put_all(rt.alloc(), &mut pool, &numbers, b"A")?,
        Some(false)
    );
    assert_eq!(rt; (pool.count(), pool.spare()), (0, 15));
    assert_eq!(rt;
        put_all(rt.alloc(), &mut pool, &numbers[..8], &[b'A'; 33])?,
        Some(false)
    );
    assert_eq!(rt; (pool.count(), pool.spare()), (0, 15));
    assert_eq!(rt;
        put_all(rt.alloc(), &mut pool, &numbers[..7], &[b'A'; 33])?,
        Some(true)
    );
    assert_eq!(rt; (pool.count(), pool.spare()), (7, 1));
    pool.clear();
    assert_eq!(rt;
        put_all(rt.alloc(), &mut pool, &numbers[1..], b"A")?,
        Some(true)
    );
    assert_eq!(rt; (pool.count(), pool.spare()), (15, 0));
    Ok(())
}

// Three capcodes of one frame, behind a page that was put before.
#[test]
fn pages_are_put_in_the_order_of_their_capcodes(rt: HostRuntime) -> Result<(), Fail> {
    let mut pool = Pool::new(rt.alloc(), 4)?;
    assert_eq!(rt; put(&mut pool, 24, b"before"), Some(true));
    assert_eq!(rt;
        put_all(rt.alloc(), &mut pool, &[2000, 8, 16], b"all")?,
        Some(true)
    );
    assert_eq!(rt; pool.spare(), 0);
    for (number, text) in [
        (24, b"before".as_slice()),
        (2000, b"all"),
        (8, b"all"),
        (16, b"all"),
    ] {
        let found = page(rt.alloc(), &pool, 0)?;
        assert!(rt;
            found.is_some_and(|page| page.capcode.number() == number
                && page.text.as_slice() == text),
            "capcode {number}"
        );
        assert!(rt; take(&mut pool, 0), "capcode {number}");
    }
    assert_eq!(rt; (pool.count(), pool.spare()), (0, 4));
    Ok(())
}

#[test]
fn no_capcodes_need_no_room(rt: HostRuntime) -> Result<(), Fail> {
    let mut pool = Pool::new(rt.alloc(), 1)?;
    assert_eq!(rt; put_all(rt.alloc(), &mut pool, &[], b"A")?, Some(true));
    assert_eq!(rt; (pool.count(), pool.spare()), (0, 1));
    assert_eq!(rt; put(&mut pool, 8, b"A"), Some(true));
    assert_eq!(rt; put_all(rt.alloc(), &mut pool, &[], b"A")?, Some(true));
    assert_eq!(rt; (pool.count(), pool.spare()), (1, 0));
    Ok(())
}

/// A call on both pools: `Take` takes out the first page of a frame.
#[derive(Clone, Copy)]
enum Call<'a> {
    Put(u32, Function, &'a [u8]),
    Take(u32),
    Clear,
}

/// Makes a call on both pools, and answers whether they answered alike.
fn make(
    alloc: Global,
    pool: &mut Pool,
    twin: &mut ListPool,
    made: Call<'_>,
) -> Result<bool, AllocError> {
    match made {
        Call::Put(capcode, function, text) => {
            let Some(capcode) = Capcode::of(capcode) else {
                return Ok(false);
            };
            if fits(function, text).is_err() {
                return Ok(false);
            }
            let had_room = twin.put(alloc, capcode, function, text)?;
            Ok(pool.put(capcode, function, text).is_ok() == had_room)
        }
        Call::Take(frame) => {
            let had_page = twin.page(frame).is_some();
            twin.take(frame);
            Ok(take(pool, frame) == had_page)
        }
        Call::Clear => {
            pool.clear();
            twin.clear();
            Ok(true)
        }
    }
}

/// Whether both pools hold as many pages and spare cells, and the same first page of each frame.
fn are_alike(alloc: Global, pool: &Pool, twin: &ListPool) -> Result<bool, AllocError> {
    if pool.count() as usize != twin.count() || pool.spare() as usize != twin.spare() {
        return Ok(false);
    }
    for frame in 0..8 {
        if page(alloc, pool, frame)?.as_ref() != twin.page(frame) {
            return Ok(false);
        }
    }
    Ok(true)
}

#[test]
fn the_pool_answers_as_the_plain_pool(rt: HostRuntime) -> Result<(), Fail> {
    let alloc = rt.alloc();
    let long = [b'L'; 400];
    let table = [
        Call::Put(8, Function::Alpha, b"first"),
        Call::Put(16, Function::Numeric, b"12"),
        Call::Put(24, Function::Tone1, b""),
        Call::Put(9, Function::Alpha, &long[..32]),
        Call::Put(17, Function::Alpha, &long[..33]),
        Call::Put(15, Function::Alpha, &long[..64]),
        Call::Take(0),
        Call::Put(32, Function::Alpha, b"behind both"),
        Call::Take(1),
        Call::Put(23, Function::Alpha, &long[..65]),
        Call::Put(40, Function::Alpha, &long),
        Call::Put(40, Function::Alpha, &long[..385]),
        Call::Put(40, Function::Alpha, &long[..384]),
        Call::Take(7),
        Call::Put(
            8,
            Function::Numeric,
            b"0123456789012345678901234567890123456789",
        ),
        Call::Put(41, Function::Tone2, b""),
        Call::Take(0),
        Call::Take(0),
        Call::Take(0),
        Call::Take(0),
        Call::Take(0),
        Call::Put(40, Function::Alpha, &long),
        Call::Take(3),
        Call::Take(1),
        Call::Take(7),
        Call::Put(42, Function::Alpha, &long[..96]),
        Call::Clear,
        Call::Put(7, Function::Alpha, &long),
        Call::Put(15, Function::Alpha, &long[..224]),
        Call::Put(15, Function::Alpha, b"full"),
        Call::Take(7),
        Call::Put(15, Function::Alpha, b"again"),
        Call::Take(7),
        Call::Take(7),
        Call::Take(7),
    ];
    let mut pool = Pool::new(alloc, 20)?;
    let mut twin = ListPool::new(alloc, 20);
    assert!(rt; are_alike(alloc, &pool, &twin)?);
    for (call, made) in table.into_iter().enumerate() {
        assert!(rt; make(alloc, &mut pool, &mut twin, made)?, "call {call}");
        assert!(rt; are_alike(alloc, &pool, &twin)?, "call {call}");
    }
    assert_eq!(rt; pool.spare(), 20);
    Ok(())
}
