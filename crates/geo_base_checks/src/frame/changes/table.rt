//! What a site does, and what it shows.
use geo_delta::MOST_CHANGES;

/// What is done at a site of two.
#[derive(Clone, Copy)]
pub enum Op {
    /// Deletes the key of a number: by which site, and at which time of it.
    Delete(usize, u8, u64),
    /// Deletes the keys of so many numbers, from 0: by the first site, at the times from 1.
    DeleteMany(usize),
    /// Writes a value of no bytes to the key of a number: by the first site, at its time 1.
    Value(usize),
    /// Keeps no change.
    Lose,
    /// Shows how many records the changes give to one who knows these clocks of both sites.
    Recent(u32, u32),
    /// Shows how many records the changes further back give to one who knows these clocks of both sites.
    Behind(u32, u32),
    /// Shows the parcel to one who knows these clocks of both sites, a copy of it, and how long its frame is.
    Cut(u32, u32),
}

/// What a site does, and what it shows; at the end how far the changes reach back.
pub const ROWS: &[(&[Op], &[u8])] = &[
    // As many changes as are kept reach back to the first.
    (
        &[Op::DeleteMany(MOST_CHANGES), Op::Recent(0, 0)],
        b"4096 reach 0",
    ),
    // One change more falls out.
    (
        &[
            Op::DeleteMany(MOST_CHANGES + 1),
            Op::Recent(0, 0),
            Op::Recent(1, 0),
        ],
        b"none 4096 reach 1",
    ),
    // Behind them are found those that came after what was known at the first change, or 64 changes later.
    (
        &[
            Op::DeleteMany(MOST_CHANGES + 200),
            Op::Recent(64, 0),
            Op::Behind(0, 0),
            Op::Behind(1, 0),
            Op::Behind(64, 0),
            Op::Behind(65, 0),
            Op::Behind(4296, 0),
        ],
        b"none none behind 4295 behind 4232 behind 4231 behind 0 behind reach 200",
    ),
    // A key that changed twice is listed once, further back too; what was kept and is lost tells of nothing.
    (
        &[
            Op::Delete(7, 1, 1),
            Op::Delete(8, 1, 2),
            Op::Delete(8, 1, 3),
            Op::Behind(1, 0),
            Op::Lose,
            Op::Behind(1, 0),
            Op::Delete(9, 1, 4),
            Op::Delete(9, 1, 5),
            Op::Behind(4, 0),
        ],
        b"1 behind none behind 1 behind reach 3",
    ),
    // A key that changed twice is listed once.
    (
        &[
            Op::Delete(7, 1, 1),
            Op::Delete(7, 1, 2),
            Op::Recent(0, 0),
            Op::Recent(1, 0),
            Op::Recent(2, 0),
        ],
        b"1 1 0 reach 0",
    ),
    // Who covers the reach alone may know of the second change all the same.
    (
        &[
            Op::Delete(9, 2, 1),
            Op::Delete(8, 1, 2),
            Op::Delete(7, 1, 3),
            Op::Recent(2, 0),
        ],
        b"2 reach 0",
    ),
    // A key that takes memory of its own is noted too.
    (&[Op::Delete(10_000, 1, 1), Op::Recent(0, 0)], b"1 reach 0"),
    // Keys that begin alike are told by all their bytes, and a key stands before those that go on from it.
    (
        &[
            Op::Delete(10_010, 1, 1),
            Op::Delete(10_001, 1, 2),
            Op::Delete(100, 1, 3),
            Op::Delete(10_010, 1, 4),
            Op::Delete(1, 1, 5),
            Op::Delete(10, 1, 6),
            Op::Delete(10_001, 1, 7),
            Op::Delete(1_000, 1, 8),
            Op::Delete(0, 1, 9),
            Op::Recent(0, 0),
            Op::Recent(3, 0),
        ],
        b"7 6 reach 0",
    ),
    // Lost changes are known.
    (
        &[
            Op::DeleteMany(3),
            Op::Lose,
            Op::Recent(3, 0),
            Op::Recent(0, 0),
        ],
        b"0 none reach 3",
    ),
    // A parcel has what its base lacks.
    (
        &[Op::Value(5), Op::Cut(0, 0), Op::Cut(1, 0)],
        b"1 to 2, 0 0 up to 1 0 without 2: 5 1.1 empty 5 0 until 1.1 0; \
          and 1 to 2, 0 0 up to 1 0 without 2: 5 1.1 empty 5 0 until 1.1 0; in 168 bytes; \
          1 to 2, 1 0 up to 1 0 without 2: and 1 to 2, 1 0 up to 1 0 without 2: in 98 bytes; \
          reach 0",
    ),
];
