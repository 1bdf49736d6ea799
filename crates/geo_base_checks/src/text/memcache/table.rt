//! Asks of one entry, and what is decided of them at the moment 100: what is answered, and behind it what becomes of the entry;
//! first where there is none, and behind a bar where there is one, with flags 7, expiry 150 and number 257.
use geo_requests::{LONGEST_VALUE, Verb};

/// A storage command, the number that the client saw, and what is decided.
type Store = (Verb, Option<u64>, &'static [u8]);

const SHORT: &[Store] = &[
    (
        Verb::Set,
        None,
        b"STORED\r\n keep 9 120|STORED\r\n keep 9 120",
    ),
    (
        Verb::Set,
        Some(256),
        b"STORED\r\n keep 9 120|STORED\r\n keep 9 120",
    ),
    (Verb::Add, None, b"STORED\r\n keep 9 120|NOT_STORED\r\n"),
    (Verb::Replace, None, b"NOT_STORED\r\n|STORED\r\n keep 9 120"),
    (
        Verb::Append,
        None,
        b"NOT_STORED\r\n|STORED\r\n made 7 150 xy",
    ),
    (
        Verb::Prepend,
        None,
        b"NOT_STORED\r\n|STORED\r\n made 7 150 yx",
    ),
    (Verb::Cas, Some(257), b"NOT_FOUND\r\n|STORED\r\n keep 9 120"),
    (Verb::Cas, Some(256), b"NOT_FOUND\r\n|EXISTS\r\n"),
    (Verb::Cas, None, b"NOT_FOUND\r\n|EXISTS\r\n"),
];

/// A value too long is refused in its place among the other tests.
const TOO_LONG: &[Store] = &[
    (
        Verb::Set,
        None,
        b"SERVER_ERROR object too large for cache\r\n|SERVER_ERROR object too large for cache\r\n",
    ),
    (
        Verb::Add,
        None,
        b"SERVER_ERROR object too large for cache\r\n|NOT_STORED\r\n",
    ),
    (
        Verb::Replace,
        None,
        b"NOT_STORED\r\n|SERVER_ERROR object too large for cache\r\n",
    ),
    (
        Verb::Append,
        None,
        b"NOT_STORED\r\n|SERVER_ERROR object too large for cache\r\n",
    ),
    (
        Verb::Prepend,
        None,
        b"NOT_STORED\r\n|SERVER_ERROR object too large for cache\r\n",
    ),
    (
        Verb::Cas,
        Some(257),
        b"NOT_FOUND\r\n|SERVER_ERROR object too large for cache\r\n",
    ),
    (Verb::Cas, Some(256), b"NOT_FOUND\r\n|EXISTS\r\n"),
    (Verb::Cas, None, b"NOT_FOUND\r\n|EXISTS\r\n"),
];

const LONGEST: &[Store] = &[
    (
        Verb::Set,
        None,
        b"STORED\r\n keep 9 120|STORED\r\n keep 9 120",
    ),
    (
        Verb::Append,
        None,
        b"NOT_STORED\r\n|SERVER_ERROR object too large for cache\r\n",
    ),
    (
        Verb::Prepend,
        None,
        b"NOT_STORED\r\n|SERVER_ERROR object too large for cache\r\n",
    ),
];

/// Appended to what is there it has as many bytes as a value may have.
const WHOLE: &[Store] = &[(
    Verb::Append,
    None,
    b"NOT_STORED\r\n|STORED\r\n made 7 150 #1048576",
)];

const REFUSED: &[Store] = &[(
    Verb::Append,
    None,
    b"NOT_STORED\r\n|SERVER_ERROR object too large for cache\r\n",
)];

/// How many bytes `x` are there, the byte that is stored and how often it stands, and the stores.
pub const STORES: &[(usize, u8, usize, &[Store])] = &[
    (1, b'y', 1, SHORT),
    (1, 0, LONGEST_VALUE + 1, TOO_LONG),
    (1, 0, 1_048_576, LONGEST),
    (1_048_576, 0, 0, WHOLE),
    (1_048_575, 0, 1, WHOLE),
    (0, 0, 1_048_576, WHOLE),
    (1_048_576, 0, 1, REFUSED),
];

/// The digits of an entry, whether a number is added or taken away, the number, and what is decided.
pub const COUNTS: &[(&[u8], bool, u64, &[u8])] = &[
    (b"5", true, 1, b"NOT_FOUND\r\n|6\r\n made 7 150 6"),
    (b"5", true, 2, b"NOT_FOUND\r\n|7\r\n made 7 150 7"),
    (b"007", true, 1, b"NOT_FOUND\r\n|8\r\n made 7 150 8"),
    (
        b"00000000000000000001",
        true,
        1,
        b"NOT_FOUND\r\n|2\r\n made 7 150 2",
    ),
    (b"99", true, 1, b"NOT_FOUND\r\n|100\r\n made 7 150 100"),
    (
        b"18446744073709551615",
        true,
        0,
        b"NOT_FOUND\r\n|18446744073709551615\r\n made 7 150 18446744073709551615",
    ),
    (
        b"18446744073709551615",
        true,
        1,
        b"NOT_FOUND\r\n|0\r\n made 7 150 0",
    ),
    (
        b"18446744073709551615",
        true,
        18446744073709551615,
        b"NOT_FOUND\r\n|18446744073709551614\r\n made 7 150 18446744073709551614",
    ),
    (b"5", false, 1, b"NOT_FOUND\r\n|4\r\n made 7 150 4"),
    (b"5", false, 2, b"NOT_FOUND\r\n|3\r\n made 7 150 3"),
    (b"10", false, 1, b"NOT_FOUND\r\n|9\r\n made 7 150 9"),
    (b"010", false, 10, b"NOT_FOUND\r\n|0\r\n made 7 150 0"),
    (b"3", false, 9, b"NOT_FOUND\r\n|0\r\n made 7 150 0"),
    (
        b"0",
        false,
        18446744073709551615,
        b"NOT_FOUND\r\n|0\r\n made 7 150 0",
    ),
];

/// Entries to which nothing can be added, nor taken from.
pub const NO_NUMBERS: &[&[u8]] = &[
    b"",
    b"x1",
    b"1x",
    b"-1",
    b"+1",
    b" 1",
    b"1 ",
    b"1\r\n",
    b"18446744073709551616",
    b"99999999999999999999",
    b"000000000000000000001",
];

/// What is decided of each.
pub const NO_NUMBER: &[u8] =
    b"NOT_FOUND\r\n|CLIENT_ERROR cannot increment or decrement non-numeric value\r\n";

/// Exptimes, and what is decided where an entry is touched so, and where it is fetched and touched.
pub const TOUCHES: &[(i64, &[u8], &[u8])] = &[
    (0, b"NOT_FOUND\r\n|TOUCHED\r\n renew 0", b"miss|hit renew 0"),
    (
        -1,
        b"NOT_FOUND\r\n|TOUCHED\r\n renew 1",
        b"miss|hit renew 1",
    ),
    (
        20,
        b"NOT_FOUND\r\n|TOUCHED\r\n renew 120",
        b"miss|hit renew 120",
    ),
    (
        2_592_000,
        b"NOT_FOUND\r\n|TOUCHED\r\n renew 2592100",
        b"miss|hit renew 2592100",
    ),
    (
        2_592_001,
        b"NOT_FOUND\r\n|TOUCHED\r\n renew 2592001",
        b"miss|hit renew 2592001",
    ),
];

/// Requests, and what is decided of each of the key `a` where its entry is `5`.
pub const REQUESTS: &[(&[u8], &[u8])] = &[
    (
        b"append a 9 20 1\r\n1\r\n",
        b"NOT_STORED\r\n|STORED\r\n made 7 150 51",
    ),
    (
        b"delete a noreply\r\n",
        b"NOT_FOUND\r\n tomb|DELETED\r\n tomb",
    ),
    (b"touch a 20\r\n", b"NOT_FOUND\r\n|TOUCHED\r\n renew 120"),
    (b"decr a 2\r\n", b"NOT_FOUND\r\n|3\r\n made 7 150 3"),
    (b"gets a\r\n", b"none"),
    (b"quit\r\n", b"none"),
];

/// Exptimes that are given at the moment 100, and the expiries that they mean.
pub const EXPIRIES: &[(i64, u64)] = &[
    (0, 0),
    (-1, 1),
    (i64::MIN, 1),
    (1, 101),
    (2_592_000, 2_592_100),
    (2_592_001, 2_592_001),
    (i64::MAX, 9_223_372_036_854_775_807),
];

/// Expiries, moments, and whether an entry is live then.
pub const LIVES: &[(u64, u64, bool)] = &[
    (0, 5, true),
    (150, 149, true),
    (150, 150, false),
    (150, 151, false),
    (1, 100, false),
];
