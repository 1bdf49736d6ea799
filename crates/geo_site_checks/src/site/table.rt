//! Tables of scenes. Lines are explained in `lines`, and what they append in `shown`.
use crate::site::{Row, Scene};
use geo_site::SetupError;

/// A site, the number of sites, pages and records, and why no site opens so.
pub const SETUPS: &[(&str, Option<SetupError>)] = &[
    ("1 0 15 1", Some(SetupError::Sites)),
    ("17 17 15 1", Some(SetupError::Sites)),
    ("0 2 0 0", Some(SetupError::SiteNumber)),
    ("3 2 15 1", Some(SetupError::SiteNumber)),
    ("2 2 14 0", Some(SetupError::TooFewPages)),
    ("2 2 65537 0", Some(SetupError::TooManyPages)),
    ("2 2 15 0", Some(SetupError::Records)),
    ("2 2 15 1000001", Some(SetupError::Records)),
    ("2 2 15 1000000", None),
    ("1 1 15 1", None),
    ("16 16 16 1", None),
];

/// One site has these values.
const THREE_SETS: Row = (
    "1 say set a 0 0 1\r\nx\r\nset b 0 0 1\r\ny\r\nset c 0 0 1\r\nz\r\n",
    "STORED\r\nSTORED\r\nSTORED\r\n",
);

/// Replies and their copies, what is told beside them, and what a site shows then.
pub const REPLIES: &[Scene] = &[
    // A store tells its victim.
    Scene {
        sites: 1,
        pages: 16,
        records: 100,
        rows: &[
            ("1 fill once set a 1048576", "STORED\r\n"),
            ("1 fill once set b 1048576", "STORED\r\n"),
            (
                "1 fill twice set c 1048576",
                "STORED\r\nSTORED\r\nSTORED\r\nvictim a",
            ),
        ],
    },
    // What is made of older bytes is told, by its length and its SHA-256, and nothing of other commands.
    Scene {
        sites: 1,
        pages: 15,
        records: 100,
        rows: &[
            ("1 full once set a 0 0 1\r\n9\r\n", "STORED\r\n"),
            (
                "1 full once incr a 1\r\n",
                "10\r\nmade 2 4a44dc15364204a80fe80e9039455cc1608281820fe2b24f1e5233ade6af1dd5",
            ),
            (
                "1 full once decr a 3\r\n",
                "7\r\nmade 1 7902699be42c8a8e46fbbb4501726517e86b22c56a189f7625a6da49081b2451",
            ),
            (
                "1 full once append a 0 0 1\r\n8\r\n",
                "STORED\r\nmade 2 349c41201b62db851192665c504b350ff98c6b45fb62a8a2161f78b6534d8de9",
            ),
            (
                "1 full once prepend a 0 0 1\r\n6\r\n",
                "STORED\r\nmade 3 cebe3d9d614ba5c19f633566104315854a11353a333bf96f16b5afa0e90abdc4",
            ),
            ("1 full once incr b 1\r\n", "NOT_FOUND\r\n"),
            ("1 full once delete a\r\n", "DELETED\r\n"),
        ],
    },
    // Each copy shows what the reply shows, and a get counts once.
    Scene {
        sites: 1,
        pages: 15,
        records: 100,
        rows: &[
            ("1 say set a 0 0 2\r\nhi\r\n", "STORED\r\n"),
            ("1 say set c 0 0 3\r\nyou\r\n", "STORED\r\n"),
            (
                "1 full twice get a b c\r\n",
                "VALUE a 0 2\r\nhi\r\nVALUE c 0 3\r\nyou\r\nEND\r\nVALUE a 0 2\r\nhi\r\nVALUE c 0 3\r\nyou\r\nEND\r\n\
                 VALUE a 0 2\r\nhi\r\nVALUE c 0 3\r\nyou\r\nEND\r\n",
            ),
            (
                "1 say stats\r\n",
                "STAT curr_items 2\r\nSTAT get_hits 2\r\nSTAT get_misses 1\r\nSTAT evictions 0\r\n\
                 STAT site 1\r\nSTAT clock 2\r\nSTAT records 2\r\nEND\r\n",
            ),
        ],
    },
    // A refusal is copied, and tells nothing beside it.
    Scene {
        sites: 1,
        pages: 15,
        records: 1,
        rows: &[
            ("1 say set a 0 0 1\r\n1\r\n", "STORED\r\n"),
            (
                "1 full twice set b 0 0 1\r\n2\r\n",
                "SERVER_ERROR version map full\r\nSERVER_ERROR version map full\r\nSERVER_ERROR version map full\r\n",
            ),
        ],
    },
    // A value has a mebibyte at most.
    Scene {
        sites: 1,
        pages: 15,
        records: 100,
        rows: &[
            ("1 store set a 1048576", "STORED\r\n"),
            (
                "1 store append a 1",
                "SERVER_ERROR object too large for cache\r\n",
            ),
            (
                "1 store prepend a 1",
                "SERVER_ERROR object too large for cache\r\n",
            ),
            (
                "1 store set a 1048577",
                "SERVER_ERROR object too large for cache\r\n",
            ),
            ("1 begin gets a\r\n", "VALUE a 0 1048576 257\r"),
            ("1 shows", "1 1 1 | 1 0 0"),
        ],
    },
    // What was found twice outlives what was not.
    Scene {
        sites: 1,
        pages: 15,
        records: 100,
        rows: &[
            ("1 store set a 524288", "STORED\r\n"),
            ("1 store set b 524288", "STORED\r\n"),
            ("1 begin get a\r\n", "VALUE a 0 524288\r"),
            ("1 begin get a\r\n", "VALUE a 0 524288\r"),
            ("1 juggle", "moved"),
            ("1 juggle", "moved"),
            ("1 juggle", "moved"),
            ("1 juggle", "nothing"),
            ("1 store set c 524288", "STORED\r\n"),
            ("1 holds a", "held"),
            ("1 holds b", "missing"),
            ("1 holds c", "held"),
            ("1 begin get a\r\n", "VALUE a 0 524288\r"),
        ],
    },
    // A site tells what it knows.
    Scene {
        sites: 1,
        pages: 15,
        records: 100,
        rows: &[
            ("1 say set e 5 0 0\r\n\r\n", "STORED\r\n"),
            ("1 holds e", "held"),
            ("1 holds f", "missing"),
            ("1 shows", "1 1 1 | 1 0 0"),
            (
                "1 version e",
                "1 1 e3b0c44298fc1c149afbf4c8996fb92427ae41e4649b934ca495991b7852b855",
            ),
        ],
    },
];

/// Deletes of what ended long ago.
pub const ENDS: &[Scene] = &[
    // What ended is kept for a minute more, and then deleted.
    Scene {
        sites: 1,
        pages: 15,
        records: 100,
        rows: &[
            ("1 say set a 0 50 1\r\nx\r\n", "STORED\r\n"),
            ("1 say set b 0 0 1\r\ny\r\n", "STORED\r\n"),
            ("1 due 10", "none"),
            ("1 due 210", "none"),
            ("1 due 211", "a"),
            ("1 reap 210 a", "nothing"),
            ("1 reap 99999 b", "nothing"),
            ("1 reap 99999 c", "nothing"),
            ("1 reap 211 a", "reaped"),
            ("1 version a", "none"),
            ("1 due 99999", "none"),
            ("1 reap 211 a", "nothing"),
            ("1 shows", "1 2 1 | 3 0 0"),
        ],
    },
    // No write of another is reaped, the greatest expiry is over at no moment, and a flush that is due comes first.
    Scene {
        sites: 2,
        pages: 15,
        records: 100,
        rows: &[
            ("1 say set a 0 50 1\r\nx\r\n", "STORED\r\n"),
            ("1 say set z 0 9223372036854775807 1\r\nx\r\n", "STORED\r\n"),
            ("1 send 2", "1 2 2 a | 0 0 0 | 2 0 0"),
            ("2 take 0", "0 rose"),
            ("2 reap 9999 a", "nothing"),
            ("2 due 9999", "none"),
            ("1 due 9999", "a"),
            ("1 reap 1099511627776 z", "nothing"),
            ("2 at 9999 flush_all 10\r\n", "OK\r\n"),
            ("2 reap 10009 a", "nothing"),
            ("2 shows", "0 0 0 | 2 3 0"),
        ],
    },
];

/// What comes of parcels that are taken or not, and which bytes a take drops.
pub const TAKES: &[Scene] = &[
    // Parcels are refused for the first reason of several, and nothing is learned.
    Scene {
        sites: 2,
        pages: 15,
        records: 100,
        rows: &[
            ("1 told 2 1 1 1 0", "2 gap"),
            ("1 shows", "0 0 0 | 0 0 0"),
            ("1 told 2 2 1 1 0", "2 not for me"),
            ("1 shows", "0 0 0 | 0 0 0"),
            ("1 told 1 1 1 1 0", "1 unknown site"),
            ("1 shows", "0 0 0 | 0 0 0"),
            ("1 told 3 1 0 1 0", "3 unknown site"),
            ("1 shows", "0 0 0 | 0 0 0"),
        ],
    },
    // A site sends to another site alone.
    Scene {
        sites: 2,
        pages: 15,
        records: 100,
        rows: &[
            ("1 send 1", "no such site"),
            ("1 send 3", "no such site"),
            ("1 send 2", "1 2 0 | 0 0 0 | 0 0 0"),
        ],
    },
    // A take tells how many values it dropped, and whether the vector rose.
    Scene {
        sites: 2,
        pages: 15,
        records: 100,
        rows: &[
            ("1 say set a 0 0 2\r\nhi\r\n", "STORED\r\n"),
            ("2 say set a 0 0 2\r\nyo\r\n", "STORED\r\n"),
            ("1 send 2", "1 2 1 a | 0 0 0 | 1 0 0"),
            ("2 take 0", "0 rose"),
            ("1 send 2", "1 2 1 a | 0 0 0 | 1 0 0"),
            ("2 take 0", "0 known"),
            ("2 send 1", "2 1 1 a | 1 0 0 | 1 1 0"),
            ("1 take 0", "1 rose"),
        ],
    },
    // A later write of other bytes.
    Scene {
        sites: 2,
        pages: 15,
        records: 100,
        rows: &[
            THREE_SETS,
            ("1 told 2 1 0 last 0 b:9:o", "1 rose"),
            (
                "1 say get a b c\r\n",
                "VALUE a 0 1\r\nx\r\nVALUE c 0 1\r\nz\r\nEND\r\n",
            ),
        ],
    },
    // A later write of the same bytes, and an earlier one.
    Scene {
        sites: 2,
        pages: 15,
        records: 100,
        rows: &[
            THREE_SETS,
            ("1 told 2 1 0 last 0 b:9:y c:1:o", "0 rose"),
            (
                "1 say get a b c\r\n",
                "VALUE a 0 1\r\nx\r\nVALUE b 0 1\r\ny\r\nVALUE c 0 1\r\nz\r\nEND\r\n",
            ),
        ],
    },
    // Two later writes, of which the last has the same bytes.
    Scene {
        sites: 2,
        pages: 15,
        records: 100,
        rows: &[
            THREE_SETS,
            ("1 told 2 1 0 last 0 b:8:o b:9:y", "0 rose"),
            (
                "1 say get a b c\r\n",
                "VALUE a 0 1\r\nx\r\nVALUE b 0 1\r\ny\r\nVALUE c 0 1\r\nz\r\nEND\r\n",
            ),
        ],
    },
    // Two keys.
    Scene {
        sites: 2,
        pages: 15,
        records: 100,
        rows: &[
            THREE_SETS,
            ("1 told 2 1 0 last 0 a:9:o c:9:o", "2 rose"),
            ("1 say get a b c\r\n", "VALUE b 0 1\r\ny\r\nEND\r\n"),
        ],
    },
    // A flush up to the time 2, and a key that isn't held.
    Scene {
        sites: 2,
        pages: 15,
        records: 100,
        rows: &[
            THREE_SETS,
            ("1 told 2 1 0 last 2 d:9:o", "2 rose"),
            ("1 say get a b c\r\n", "VALUE c 0 1\r\nz\r\nEND\r\n"),
        ],
    },
    // A flush of all, behind which the same bytes are written again.
    Scene {
        sites: 2,
        pages: 15,
        records: 100,
        rows: &[
            THREE_SETS,
            ("1 told 2 1 0 last 3 b:9:y", "2 rose"),
            ("1 say get a b c\r\n", "VALUE b 0 1\r\ny\r\nEND\r\n"),
        ],
    },
];

/// What a parcel tells, and what it leaves out: what its addressee was heard to know.
pub const PARCELS: &[Scene] = &[
    // What is acknowledged is not told again.
    Scene {
        sites: 2,
        pages: 15,
        records: 100,
        rows: &[
            ("1 say set a 0 0 1\r\nx\r\n", "STORED\r\n"),
            ("1 send 2", "1 2 1 a | 0 0 0 | 1 0 0"),
            ("2 take 0", "0 rose"),
            ("2 send 1", "2 1 0 | 1 0 0 | 1 1 0"),
            ("1 take 0", "0 rose"),
            ("1 send 2", "1 2 0 | 1 1 0 | 1 1 0"),
            ("1 say set b 0 0 1\r\ny\r\n", "STORED\r\n"),
            ("1 send 2", "1 2 1 b | 1 1 0 | 2 1 0"),
            ("2 take 1", "0 rose"),
            (
                "2 version a",
                "1 1 2d711642b726b04401627ca9fbac32f5c8530fb1903cc4db02258717921a4881",
            ),
            (
                "2 version b",
                "2 1 a1fce4363854ff888cff4b8e7875d600c2682390412a8cf79b37d0b11148b0fa",
            ),
        ],
    },
    // A parcel is late, and the next one tells all that it told.
    Scene {
        sites: 2,
        pages: 15,
        records: 100,
        rows: &[
            ("1 say set a 0 0 1\r\nx\r\n", "STORED\r\n"),
            ("1 send 2", "1 2 1 a | 0 0 0 | 1 0 0"),
            ("1 say set b 0 0 1\r\ny\r\n", "STORED\r\n"),
            ("1 send 2", "1 2 2 a | 0 0 0 | 2 0 0"),
            ("2 take 1", "0 rose"),
            ("2 take 0", "0 known"),
            (
                "2 version a",
                "1 1 2d711642b726b04401627ca9fbac32f5c8530fb1903cc4db02258717921a4881",
            ),
        ],
    },
    // Site 3 tells both others, and site 1 tells site 2, which has nothing to tell back.
    Scene {
        sites: 3,
        pages: 15,
        records: 100,
        rows: &[
            ("3 say set a 0 0 1\r\nx\r\n", "STORED\r\n"),
            ("3 send 1", "3 1 1 a | 0 0 0 | 0 0 1"),
            ("1 take 0", "0 rose"),
            ("3 send 2", "3 2 1 a | 0 0 0 | 0 0 1"),
            ("2 take 0", "0 rose"),
            ("1 send 2", "1 2 1 a | 0 0 0 | 1 0 1"),
            ("2 take 0", "0 rose"),
            ("2 send 1", "2 1 0 | 1 0 1 | 1 1 1"),
            ("2 send 3", "2 3 0 | 0 0 1 | 1 1 1"),
        ],
    },
    // Site 1 hears that site 2 knows what it wrote, takes more records from site 3 than it keeps changes, and tells them all to
    // site 2. What comes after that is told by itself.
    Scene {
        sites: 3,
        pages: 15,
        records: 10_000,
        rows: &[
            ("1 say set a 0 0 1\r\nx\r\n", "STORED\r\n"),
            ("1 send 2", "1 2 1 a | 0 0 0 | 1 0 0"),
            ("2 take 0", "0 rose"),
            ("2 send 1", "2 1 0 | 1 0 0 | 1 1 0"),
            ("1 take 0", "0 rose"),
            ("3 many 5000", "5000"),
            ("3 send 1", "3 1 5000 k0 | 0 0 0 | 0 0 5000"),
            ("1 take 0", "0 rose"),
            ("1 send 2", "1 2 5000 k0 | 1 1 0 | 5000 1 5000"),
            ("2 take 0", "0 rose"),
            ("2 send 1", "2 1 0 | 5000 1 5000 | 5000 5000 5000"),
            ("1 take 0", "0 rose"),
            ("1 say set b 0 0 1\r\ny\r\n", "STORED\r\n"),
            ("1 send 2", "1 2 1 b | 5000 5000 5000 | 5001 5000 5000"),
        ],
    },
];

/// A site that has heard of the last time has no stamp for what it writes.
pub const CLOCKS: &[Scene] = &[
    // Writes are refused, but for those that write nothing.
    Scene {
        sites: 2,
        pages: 15,
        records: 1,
        rows: &[
            ("1 say set a 0 0 1\r\nx\r\n", "STORED\r\n"),
            ("1 told 2 1 0 last 0", "0 rose"),
            ("1 say set a 0 0 1\r\nz\r\n", "SERVER_ERROR clock ended\r\n"),
            ("1 say delete a\r\n", "SERVER_ERROR clock ended\r\n"),
            (
                "1 say append a 0 0 1\r\nz\r\n",
                "SERVER_ERROR clock ended\r\n",
            ),
            (
                "1 say set b 0 0 1\r\nz\r\n",
                "SERVER_ERROR version map full\r\n",
            ),
            ("1 say add a 0 0 1\r\nz\r\n", "NOT_STORED\r\n"),
            ("1 say gets a\r\n", "VALUE a 0 1 257\r\nx\r\nEND\r\n"),
        ],
    },
    // A flush for which no stamp is left stays waiting, and from its moment on each reply says so.
    Scene {
        sites: 2,
        pages: 15,
        records: 100,
        rows: &[
            ("1 say set a 0 0 1\r\nx\r\n", "STORED\r\n"),
            ("1 say flush_all 10\r\n", "OK\r\n"),
            ("1 told 2 1 0 last 0", "0 rose"),
            ("1 at 109 gets a\r\n", "VALUE a 0 1 257\r\nx\r\nEND\r\n"),
            ("1 at 109 flush_all\r\n", "SERVER_ERROR clock ended\r\n"),
            ("1 at 109 gat 0 b\r\n", "END\r\n"),
            ("1 at 109 gat 0 a\r\n", "SERVER_ERROR clock ended\r\n"),
            ("1 at 109 touch a 0\r\n", "SERVER_ERROR clock ended\r\n"),
            ("1 at 110 gets a\r\n", "SERVER_ERROR clock ended\r\n"),
            ("1 at 110 version\r\n", "SERVER_ERROR clock ended\r\n"),
            ("1 at 110 nonsense\r\n", "ERROR\r\n"),
            ("1 at 109 version\r\n", "VERSION 1.0.0\r\n"),
            ("1 tick 110", "nothing"),
            ("1 at 109 flush_all 20\r\n", "OK\r\n"),
            ("1 at 128 gets a\r\n", "VALUE a 0 1 257\r\nx\r\nEND\r\n"),
            ("1 at 129 quit\r\n", "SERVER_ERROR clock ended\r\n"),
        ],
    },
    // A delete for which no stamp is left leaves the version.
    Scene {
        sites: 2,
        pages: 15,
        records: 100,
        rows: &[
            ("1 say set a 0 50 1\r\nx\r\n", "STORED\r\n"),
            ("1 told 2 1 0 last 0", "0 rose"),
            ("1 reap 210 a", "nothing"),
            ("1 reap 211 a", "clock ended"),
            (
                "1 version a",
                "1 1 2d711642b726b04401627ca9fbac32f5c8530fb1903cc4db02258717921a4881",
            ),
        ],
    },
];
