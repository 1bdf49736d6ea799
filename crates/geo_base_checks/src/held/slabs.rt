//! That the calls succeed where there is memory, and sizes worked out by hand.
ghost use Rattle.std.specs.Prelude.{◌≡◌, ℕ, ◌≤◌, ◌<◌, List, length, Some, None, IfSome};
ghost use Rattle.geo_slabs.specs.Storage.{class_count, chunk_bytes, held_in};

use geo_slabs::{Chunk, Slabs, SlabsError, class_of};
use std::alloc::{AllocError, Global};
use std::test::Fail;

/// The bytes of a page.
const PAGE: usize = 1_048_576;

/// Lengths, each with the least class that has room for it.
const CLASSES: [(usize, usize); 9] = [
    (0, 0),
    (1, 0),
    (64, 0),
    (65, 1),
    (128, 1),
    (129, 2),
    (524_288, 13),
    (524_289, 14),
    (1_048_576, 14),
];

/// How many pages there are, how long values are, and how many of them are kept: spare pages go to the class that needs them.
const KEPT: [(usize, usize, usize); 5] = [
    (15, 1_048_576, 1),
    (16, 1_048_576, 2),
    (15, 524_288, 2),
    (17, 524_288, 6),
    (16, 64, 32_768),
];

/// Numbers of pages, and why there are no slabs of so many.
const PAGES: [(usize, Option<SlabsError>); 3] = [
    (14, Some(SlabsError::TooFewPages)),
    (65_537, Some(SlabsError::TooManyPages)),
    (15, None),
];

fn slabs_of(alloc: Global, pages: usize) -> Result<Slabs, AllocError> {
    Slabs::new(alloc, pages).ok().ok_or(AllocError)
}

/// Puts values until one finds no room, and tells how many were put.
fn put_all(slabs: &mut Slabs, value: &[u8]) -> usize {
    if value.len() > PAGE {
        return 0;
    }
    let class = class_of(value.len());
    for many in 0..100_000 {
        if slabs.put(class, value).is_none() {
            return many;
        }
    }
    100_000
}

/// How many values of a length slabs of so many pages keep.
fn kept(alloc: Global, pages: usize, length: usize) -> Result<usize, AllocError> {
    let value = vec![in alloc; 7u8; length]?;
    let mut slabs = slabs_of(alloc, pages)?;
    Ok(put_all(&mut slabs, value.as_slice()))
}

#[test]
fn values_find_room_by_their_lengths(rt: HostRuntime) {
    for (length, class) in CLASSES {
        let is_class = class_of(length.min(PAGE)) == class;
        assert!(rt; is_class, "{length}");
    }
    for (pages, error) in PAGES {
        let is_told = Slabs::new(rt.alloc(), pages).err() == error;
        assert!(rt; is_told, "{pages}");
    }
    for (pages, length, many) in KEPT {
        let are_kept = kept(rt.alloc(), pages, length).expect(&rt, "memory") == many;
        assert!(rt; are_kept, "{length}");
    }
}

/// Puts bytes into a class that has a free chunk.
fn put(slabs: &mut Slabs, class: usize, bytes: &[u8]) -> Option<Chunk>
    requires class { class < class_count }
    requires fits { length bytes.now ≤ chunk_bytes class }
    ensures holds { IfSome result (λ chunk. held_in slabs.new chunk ≡ Some bytes.now) }
    ensures fresh { IfSome result (λ chunk. held_in slabs.old chunk ≡ None) }
    ensures keeps { (other : Chunk) (held : List ℕ) → held_in slabs.old other ≡ Some held → held_in slabs.new other ≡ Some held }
{
    let Some(chunk) = slabs.put(class, bytes) else {
        return None;
    };
    Some(chunk)
}

/// Whether other bytes take the place of those that a chunk holds.
fn replaces(slabs: &mut Slabs) -> Option<bool> {
    let mut chunk = put(slabs, 3, b"first")?;
    slabs.replace(&mut chunk, b"another");
    Some(slabs.bytes(&chunk) == b"another".as_slice())
}

/// Whether a chunk that was freed is used again, and it and the others hold what was put.
fn reuses(slabs: &mut Slabs) -> Option<[bool; 4]> {
    let empty = put(slabs, 0, b"")?;
    let freed = put(slabs, 0, b"freed")?;
    let short = put(slabs, 0, b"1")?;
    let was_held = slabs.bytes(&freed) == b"freed".as_slice();
    slabs.free(freed);
    let full = put(slabs, 0, &[7; 64])?;
    Some([
        was_held,
        slabs.bytes(&empty) == b"".as_slice(),
        slabs.bytes(&short) == b"1".as_slice(),
        slabs.bytes(&full) == [7; 64].as_slice(),
    ])
}

/// Puts a value where there is one chunk for it, again, and again once the chunk was freed: whether the second finds no room, and the third
/// is held.
fn refills(slabs: &mut Slabs, value: &[u8]) -> Option<[bool; 2]>
    requires { length value.now ≤ 1048576 }
{
    let first = put(slabs, 14, value)?;
    let is_full = slabs.put(14, value).is_none();
    slabs.free(first);
    let second = put(slabs, 14, value)?;
    Some([is_full, slabs.bytes(&second) == value])
}

/// The same with a value of a whole page.
fn refills_page(alloc: Global, slabs: &mut Slabs) -> Result<Option<[bool; 2]>, AllocError> {
    let value = vec![in alloc; 7u8; PAGE]?;
    Ok(refills(slabs, value.as_slice()))
}

#[test]
fn chunks_hold_what_was_put(rt: HostRuntime) -> Result<(), Fail> {
    let mut slabs = slabs_of(rt.alloc(), 15)?;
    assert_eq!(rt; replaces(&mut slabs), Some(true));
    assert_eq!(rt; reuses(&mut slabs), Some([true; 4]));
    assert_eq!(rt; refills_page(rt.alloc(), &mut slabs)?, Some([true; 2]));
    Ok(())
}
