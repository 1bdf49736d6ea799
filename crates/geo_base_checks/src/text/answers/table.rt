//! Replies, faults and requests, with the texts of their answers.
use geo_grammar::Fault;
use geo_requests::{Reply, Stats};

const STATS: Stats = Stats {
    curr_items: 1,
    get_hits: 2,
    get_misses: 3,
    evictions: 4,
    site: 16,
    clock: 72057594037927935,
    records: 0,
};

/// The texts of all replies that show no value.
pub const REPLIES: &[&[u8]] = &[
    b"STORED\r\n",
    b"NOT_STORED\r\n",
    b"EXISTS\r\n",
    b"NOT_FOUND\r\n",
    b"DELETED\r\n",
    b"TOUCHED\r\n",
    b"OK\r\n",
    b"0\r\n",
    b"18446744073709551615\r\n",
    b"VERSION 1.0.0\r\n",
    b"STAT curr_items 1\r\nSTAT get_hits 2\r\nSTAT get_misses 3\r\nSTAT evictions 4\r\nSTAT site 16\r\n\
      STAT clock 72057594037927935\r\nSTAT records 0\r\nEND\r\n",
    b"",
    b"CLIENT_ERROR cannot increment or decrement non-numeric value\r\n",
    b"SERVER_ERROR object too large for cache\r\n",
    b"SERVER_ERROR version map full\r\n",
    b"SERVER_ERROR clock ended\r\n",
    b"SERVER_ERROR out of memory\r\n",
];

/// The reply whose text stands at this place.
pub fn reply_at(place: usize) -> Reply {
    match place {
        0 => Reply::Stored,
        1 => Reply::NotStored,
        2 => Reply::Exists,
        3 => Reply::NotFound,
        4 => Reply::Deleted,
        5 => Reply::Touched,
        6 => Reply::Done,
        7 => Reply::Number(0),
        8 => Reply::Number(18446744073709551615),
        9 => Reply::Version,
        10 => Reply::Stats(STATS),
        11 => Reply::Closed,
        12 => Reply::NotANumber,
        13 => Reply::TooLarge,
        14 => Reply::MapFull,
        15 => Reply::ClockEnded,
        _ => Reply::OutOfMemory,
    }
}

/// Values that were found: flags, unique number and bytes.
pub const FOUND: &[(u32, Option<u64>, &[u8])] = &[(0, Some(257), b"hi"), (4294967295, None, b"")];

/// How many of those values a reply shows, and its text.
pub const VALUES: &[(usize, &[u8])] = &[
    (0, b"END\r\n"),
    (
        2,
        b"VALUE a 0 2 257\r\nhi\r\nVALUE a 4294967295 0\r\n\r\nEND\r\n",
    ),
];

/// Requests, and whether they want no answer.
pub const REQUESTS: &[(&[u8], bool)] = &[
    (b"cas a 0 0 2 7\r\nhi\r\n", false),
    (b"gets a\r\n", false),
    (b"gat -1 a\r\n", false),
    (b"version\r\n", false),
    (b"stats\r\n", false),
    (b"quit\r\n", false),
    (b"cas a 0 0 2 7 noreply\r\nhi\r\n", true),
    (b"delete a noreply\r\n", true),
    (b"touch a 10 noreply\r\n", true),
    (b"decr a 1 noreply\r\n", true),
    (b"flush_all noreply\r\n", true),
    (b"verbosity 1 noreply\r\n", true),
];

/// Faults and their texts.
pub const FAULTS: &[(Fault, &[u8])] = &[
    (Fault::Unknown, b"ERROR\r\n"),
    (Fault::BadLine, b"CLIENT_ERROR bad command line format\r\n"),
    (Fault::BadData, b"CLIENT_ERROR bad data chunk\r\n"),
    (Fault::LineTooLong, b"CLIENT_ERROR line too long\r\n"),
    (
        Fault::TooLarge,
        b"SERVER_ERROR object too large for cache\r\n",
    ),
    (
        Fault::BadNumber,
        b"CLIENT_ERROR invalid numeric argument\r\n",
    ),
];
