//! What a site lacks of what it learned.
use crate::site::Scene;

/// Keys whose bytes are missing, one after the other and at once.
pub const LACKS: &[Scene] = &[
    // Of what another wrote the bytes are missing while it is live; of what is deleted none are.
    Scene {
        sites: 2,
        pages: 15,
        records: 100,
        rows: &[
            ("1 missing 100", "none"),
            ("1 first 9 100", ""),
            (
                "2 say set c 0 0 1\r\nx\r\nset a 0 50 1\r\nx\r\nset b 0 0 1\r\nx\r\nset d 0 0 1\r\nx\r\ndelete d\r\n",
                "STORED\r\nSTORED\r\nSTORED\r\nSTORED\r\nDELETED\r\n",
            ),
            ("2 missing 100", "none"),
            ("2 send 1", "2 1 4 a | 0 0 0 | 0 5 0"),
            ("1 take 0", "0 rose"),
            ("1 missing 100", "a"),
            ("1 missing 149", "a"),
            ("1 missing 150", "b"),
            ("1 missing 100 a", "b"),
            ("1 missing 100 c", "none"),
            ("1 first 9 100", "a,b,c,"),
            ("1 first 3 100", "a,b,c,"),
            ("1 first 2 100", "a,b,"),
            ("1 first 0 100", ""),
            ("1 first 2 150", "b,c,"),
            ("1 first 1 100 a", "b,"),
            ("1 first 9 100 c", ""),
            ("1 say set b 0 0 1\r\ny\r\n", "STORED\r\n"),
            ("1 first 9 100", "a,c,"),
        ],
    },
    // Nor are they of a value whose class has no room: with 15 pages there is one chunk for a mebibyte.
    Scene {
        sites: 2,
        pages: 15,
        records: 100,
        rows: &[
            ("2 store set a 1048576", "STORED\r\n"),
            ("2 say set b 0 0 1\r\nx\r\n", "STORED\r\n"),
            ("2 send 1", "2 1 2 a | 0 0 0 | 0 2 0"),
            ("1 take 0", "0 rose"),
            ("1 first 9 100", "a,b,"),
            ("1 store set c 1048576", "STORED\r\n"),
            ("1 first 9 100", "b,"),
        ],
    },
];
