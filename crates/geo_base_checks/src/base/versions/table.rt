//! What is done with versions, and what is shown of them, worked out by hand.

/// The time and the site of a stamp.
pub type At = (u64, u8);

/// What a write leaves: the first bytes of the value's digest, its flags and its length. None for a delete.
pub type Content = Option<(&'static str, u32, u8)>;

/// A record: its key, the stamp and the content of its write or delete, and its expiry with the stamp of the operation that set it.
#[derive(Clone, Copy)]
pub struct Record(pub &'static str, pub At, pub Content, pub u64, pub At);

/// What is done with versions, and what is asked of them.
#[derive(Clone, Copy)]
pub enum Step {
    /// A write or delete of a key, with its stamp, its content and its expiry.
    Write(&'static str, At, Content, u64),
    /// A touch of a key, with its stamp and the expiry.
    Touch(&'static str, At, u64),
    /// A flush.
    Flush(At),
    /// Room is made for records.
    Ready(&'static [Record]),
    /// A floor and records are joined.
    JoinRecords(At, &'static [Record]),
    /// The versions are joined of a site that knows one write.
    Join(&'static str, At, Content),
    /// What has no version is removed up to a horizon.
    Remove(u64),
    /// Which records a vector of these clocks does not know.
    Since(&'static [u64]),
    /// All versions.
    All,
    /// A key whose version is a site's and ended before a moment.
    Ended(u8, u64),
    /// The version that a record would make of its key's.
    With(Record),
}

/// What is done, and what is shown then: what it answers, the floor, how many keys have a record, and the versions of `a`, `ab`, `b` and
/// `c`; or what is asked, and the answer. A version is shown as its digest, its flags and length, its stamp, its expiry and the stamp of
/// that. A key with a record and no version is gone.
pub type VersionRow = (Step, &'static str);

/// Values of one byte.
const ONE: Content = Some(("1", 0, 1));

const TWO: Content = Some(("2", 0, 1));

const THREE: Content = Some(("3", 0, 1));

/// Values with flags, of two bytes. No two neighbours in the digest of the first are equal.
const HI: Content = Some(("0123456789abcdefghijklmnopqrstuv", 5, 2));

const SEVEN: Content = Some(("7", 5, 2));

/// A write is the version.
const WRITTEN: &[VersionRow] = &[(
    Step::Write("a", (1, 1), HI, 150),
    ":- 1, a 0123456789abcdefghijklmnopqrstuv 5 2 1.1 150 1.1",
)];

/// A deleted key has a record and no version.
const DELETED: &[VersionRow] = &[
    (
        Step::Write("a", (1, 1), SEVEN, 150),
        ":- 1, a 7 5 2 1.1 150 1.1",
    ),
    (Step::Write("a", (2, 1), None, 0), ":- 1, a gone"),
];

/// A touch outranks a write in expiry alone.
const TOUCHED: &[VersionRow] = &[
    (
        Step::Write("a", (1, 1), SEVEN, 150),
        ":- 1, a 7 5 2 1.1 150 1.1",
    ),
    (Step::Touch("a", (3, 2), 200), ":- 1, a 7 5 2 1.1 200 3.2"),
    (
        Step::Write("a", (2, 1), Some(("8", 0, 1)), 0),
        ":- 1, a 8 0 1 2.1 200 3.2",
    ),
];

/// A flush drops what is not above it, and the rest is listed.
const FLUSHED: &[VersionRow] = &[
    (Step::Write("a", (1, 1), ONE, 0), ":- 1, a 1 0 1 1.1 0 1.1"),
    (
        Step::Write("b", (1, 3), TWO, 0),
        ":- 2, a 1 0 1 1.1 0 1.1, b 2 0 1 1.3 0 1.3",
    ),
    (Step::Flush((1, 2)), ":1.2 1, b 2 0 1 1.3 0 1.3"),
    (Step::All, ", b 2 0 1 1.3 0 1.3"),
];

/// Two records, with the times 5 and 2.
const PARCEL: &[Record] = &[
    Record("b", (5, 1), ONE, 0, (5, 1)),
    Record("c", (2, 1), ONE, 0, (2, 1)),
];

/// Records of a parcel join, where they are above its floor.
const PARCELS: &[VersionRow] = &[
    (Step::Ready(PARCEL), ":- 0"),
    (
        Step::JoinRecords((3, 1), PARCEL),
        ":3.1 1, b 1 0 1 5.1 0 5.1",
    ),
];

/// What a vector doesn't know is listed by rising key.
const SINCE: &[VersionRow] = &[
    (Step::Write("b", (4, 1), ONE, 0), ":- 1, b 1 0 1 4.1 0 4.1"),
    (
        Step::Write("a", (2, 2), None, 0),
        ":- 2, a gone, b 1 0 1 4.1 0 4.1",
    ),
    (
        Step::Write("ab", (3, 1), TWO, 0),
        ":- 3, a gone, ab 2 0 1 3.1 0 3.1, b 1 0 1 4.1 0 4.1",
    ),
    (
        Step::Since(&[3, 0]),
        ", a gone 2.2 0 2.2, b 1 0 1 4.1 0 4.1",
    ),
];

/// A write of a site is found once it has ended, and a deleted key has not ended.
const ENDED: &[VersionRow] = &[
    (Step::Ended(1, u64::MAX), "none"),
    (
        Step::Write("a", (1, 1), ONE, 150),
        ":- 1, a 1 0 1 1.1 150 1.1",
    ),
    (
        Step::Write("b", (2, 2), TWO, 100),
        ":- 2, a 1 0 1 1.1 150 1.1, b 2 0 1 2.2 100 2.2",
    ),
    (
        Step::Write("c", (3, 1), THREE, 0),
        ":- 3, a 1 0 1 1.1 150 1.1, b 2 0 1 2.2 100 2.2, c 3 0 1 3.1 0 3.1",
    ),
    (Step::Ended(1, 149), "none"),
    (Step::Ended(1, 150), "none"),
    (Step::Ended(1, 151), "a"),
    (Step::Ended(2, 101), "b"),
    (Step::Ended(3, u64::MAX), "none"),
    (
        Step::Write("a", (4, 1), None, 0),
        ":- 3, a gone, b 2 0 1 2.2 100 2.2, c 3 0 1 3.1 0 3.1",
    ),
    (Step::Ended(1, u64::MAX), "none"),
];

/// Another site's touch moves the moment at which a write ends, and the write stays its site's.
const MOVED: &[VersionRow] = &[
    (
        Step::Write("a", (1, 1), ONE, 150),
        ":- 1, a 1 0 1 1.1 150 1.1",
    ),
    (Step::Touch("a", (2, 2), 200), ":- 1, a 1 0 1 1.1 200 2.2"),
    (Step::Ended(1, 200), "none"),
    (Step::Ended(1, 201), "a"),
    (Step::Ended(2, u64::MAX), "none"),
];

/// The versions of two sites join.
const JOINED: &[VersionRow] = &[
    (Step::Write("a", (1, 1), ONE, 0), ":- 1, a 1 0 1 1.1 0 1.1"),
    (Step::Join("a", (1, 2), TWO), "news:- 1, a 2 0 1 1.2 0 1.2"),
];

/// A record shows what its key would have.
const WITH: &[VersionRow] = &[
    (Step::Flush((2, 1)), ":2.1 0"),
    (
        Step::Write("a", (5, 1), ONE, 0),
        ":2.1 1, a 1 0 1 5.1 0 5.1",
    ),
    (
        Step::With(Record("a", (4, 1), ONE, 0, (4, 1))),
        " 1 0 1 5.1 0 5.1",
    ),
    (
        Step::With(Record("a", (5, 1), ONE, 0, (5, 1))),
        " 1 0 1 5.1 0 5.1",
    ),
    (
        Step::With(Record("a", (6, 1), ONE, 0, (6, 1))),
        " 1 0 1 6.1 0 6.1",
    ),
    (Step::With(Record("a", (6, 1), None, 0, (6, 1))), " gone"),
    (
        Step::With(Record("b", (3, 1), ONE, 0, (3, 1))),
        " 1 0 1 3.1 0 3.1",
    ),
    (Step::With(Record("b", (2, 1), ONE, 0, (2, 1))), " gone"),
];

/// What is deleted is removed up to the horizon.
const REMOVED: &[VersionRow] = &[
    (Step::Write("a", (2, 1), ONE, 0), ":- 1, a 1 0 1 2.1 0 2.1"),
    (
        Step::Write("b", (3, 2), None, 0),
        ":- 2, a 1 0 1 2.1 0 2.1, b gone",
    ),
    (
        Step::Write("c", (5, 1), None, 0),
        ":- 3, a 1 0 1 2.1 0 2.1, b gone, c gone",
    ),
    (Step::Remove(2), " 0:- 3, a 1 0 1 2.1 0 2.1, b gone, c gone"),
    (Step::Remove(3), " 1:- 2, a 1 0 1 2.1 0 2.1, c gone"),
    (Step::Remove(4), " 0:- 2, a 1 0 1 2.1 0 2.1, c gone"),
    (Step::Remove(9), " 1:- 1, a 1 0 1 2.1 0 2.1"),
];

/// What a flush left of a key that was touched later is removed up to the horizon.
const LEFT: &[VersionRow] = &[
    (Step::Write("a", (1, 1), ONE, 0), ":- 1, a 1 0 1 1.1 0 1.1"),
    (Step::Touch("a", (6, 2), 70), ":- 1, a 1 0 1 1.1 70 6.2"),
    (Step::Flush((4, 1)), ":4.1 1, a gone"),
    (Step::Remove(5), " 0:4.1 1, a gone"),
    (Step::Remove(6), " 1:4.1 0"),
];

/// Each begins with nothing known.
pub const VERSIONS: &[&[VersionRow]] = &[
    WRITTEN, DELETED, TOUCHED, FLUSHED, PARCELS, SINCE, ENDED, MOVED, JOINED, WITH, REMOVED, LEFT,
];

/// A write at 2, one at 5 whose key was touched at 9, and a delete at 3 of site 2.
pub const TO_SIFT: &[Record] = &[
    Record("a", (2, 1), ONE, 0, (2, 1)),
    Record("b", (5, 1), TWO, 70, (9, 2)),
    Record("c", (3, 2), None, 0, (3, 2)),
];

/// What is left of these above a horizon. A register that was dropped is shown as a dash.
pub const SIFTED: &[(u64, &'static str)] = &[
    (
        1,
        ", a 1 0 1 2.1 0 2.1, b 2 0 1 5.1 70 9.2, c gone 3.2 0 3.2",
    ),
    (2, ", b 2 0 1 5.1 70 9.2, c gone 3.2 0 3.2"),
    (3, ", b 2 0 1 5.1 70 9.2"),
    (5, ", b - 70 9.2"),
    (8, ", b - 70 9.2"),
    (9, ""),
];

/// A write that a touch has followed there, and a delete of another key.
const WITHOUT_A_TOUCH: &[Record] = &[
    Record("a", (4, 1), None, 0, (4, 1)),
    Record("b", (5, 1), TWO, 0, (5, 1)),
];

/// What of them is news where these are known.
pub const NEWS: &[(&'static [Record], &'static str)] = &[
    (
        NO_KEYS,
        ", a 1 0 1 2.1 0 2.1, b 2 0 1 5.1 70 9.2, c gone 3.2 0 3.2",
    ),
    (TO_SIFT, ""),
    (WITHOUT_A_TOUCH, ", b 2 0 1 5.1 70 9.2, c gone 3.2 0 3.2"),
];

/// Deletes of these keys.
const NO_KEYS: &[Record] = &[];

const ONE_KEY: &[Record] = &[Record("b", (1, 1), None, 0, (1, 1))];

const THREE_KEYS: &[Record] = &[
    Record("a", (1, 1), None, 0, (1, 1)),
    Record("ab", (1, 1), None, 0, (1, 1)),
    Record("b", (1, 1), None, 0, (1, 1)),
];

const ONE_TWICE: &[Record] = &[
    Record("a", (1, 1), None, 0, (1, 1)),
    Record("b", (1, 1), None, 0, (1, 1)),
    Record("b", (1, 1), None, 0, (1, 1)),
];

const LAST_FALLS: &[Record] = &[
    Record("a", (1, 1), None, 0, (1, 1)),
    Record("c", (1, 1), None, 0, (1, 1)),
    Record("b", (1, 1), None, 0, (1, 1)),
];

/// Whether the keys of records rise.
pub const RISING: &[(&'static [Record], bool)] = &[
    (NO_KEYS, true),
    (ONE_KEY, true),
    (THREE_KEYS, true),
    (ONE_TWICE, false),
    (LAST_FALLS, false),
];

/// Bytes, and whether they are a key: 1 to 250 that are allowed, wherever they stand.
pub const KEYS: &[(&'static [u8], &'static str)] = &[
    (b"", "none"),
    (b"a", "key"),
    (b"a b", "none"),
    (b"a\x7f", "none"),
    (b"a\xff", "key"),
    (b"k", "key"),
    (&[b'k'; 23], "key"),
    (&[b'k'; 24], "key"),
    (&[b'k'; 25], "key"),
    (&[b'k'; 250], "key"),
    (&[b'k'; 251], "none"),
];

/// The contents of one stamp: of two the later stays. Flags and lengths count where digests are equal.
pub const CONTENTS: &[Content] = &[
    None,
    Some(("", 9, 9)),
    Some(("1", 0, 5)),
    Some(("1", 0, 6)),
    Some(("1", 1, 0)),
    Some(("2", 0, 0)),
];
