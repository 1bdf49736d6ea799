//! Sites that are retired, worked out by hand.
use super::Scene;

/// Retirements, and what is told, taken and removed after them.
pub const RETIREMENTS: &[Scene] = &[
    // A delete of the third site goes once both others know that it is all they will have of it.
    Scene {
        sites: 3,
        pages: 15,
        records: 100,
        rows: &[
            ("1 say set a 0 0 1\r\nx\r\n", "STORED\r\n"),
            ("1 say set x 0 0 1\r\ny\r\n", "STORED\r\n"),
            ("1 send 2", "1 2 2 a | 0 0 0 | 2 0 0"),
            ("2 take 0", "0 rose"),
            ("3 say delete a\r\n", "NOT_FOUND\r\n"),
            ("3 send 1", "3 1 1 a | 0 0 0 | 0 0 1"),
            ("3 send 1", "3 1 1 a | 0 0 0 | 0 0 1"),
            ("1 take 0", "1 rose"),
            ("1 shows", "1 2 1 | 2 0 1"),
            ("1 retire 3", "retired"),
            ("1 retire 3", "nothing"),
            ("2 retire 3", "retired"),
            ("1 send 3", "retired"),
            // What 2 tells of 3 is not what 1 knows of it.
            ("2 send 1", "2 1 0 | 2 0 0 | 2 2 0 without 3"),
            ("1 take 1", "0 rose"),
            ("1 horizon", "0"),
            ("1 remove", "0"),
            ("1 send 2", "1 2 1 a | 2 2 0 | 2 2 1 without 3"),
            ("2 take 1", "0 rose"),
            ("2 horizon", "2"),
            ("2 remove", "1"),
            ("2 send 1", "2 1 0 | 2 2 1 | 2 2 1 without 3"),
            ("1 take 1", "0 known"),
            ("1 horizon", "2"),
            ("1 remove", "1"),
            ("1 take 0", "3 retired"),
            ("1 shows", "1 1 1 | 2 2 1"),
        ],
    },
    // Neither its own number nor that of a site that is not there, by whoever asks.
    Scene {
        sites: 2,
        pages: 15,
        records: 100,
        rows: &[
            ("1 retire 1", "no such site"),
            ("1 retire 0", "no such site"),
            ("1 retire 3", "no such site"),
            ("1 lost 3 2 1 0 1 0", "2 unknown site"),
            ("1 send 2", "1 2 0 | 0 0 0 | 0 0 0"),
        ],
    },
    // A parcel of a retired site is refused as such after what it says of itself, and before what it leaves out.
    Scene {
        sites: 2,
        pages: 15,
        records: 100,
        rows: &[
            ("1 retire 2", "retired"),
            ("1 told 2 1 1 1 0", "2 retired"),
            ("1 told 2 1 0 1 0", "2 retired"),
            ("1 told 2 2 1 1 0", "2 not for me"),
            ("1 told 3 1 0 1 0", "3 unknown site"),
            ("1 send 1", "no such site"),
            ("1 send 2", "retired"),
            ("1 shows", "0 0 0 | 0 0 0"),
        ],
    },
    // The last one left waits for nobody; one that learns that it is retired keeps the horizon that it had.
    Scene {
        sites: 2,
        pages: 15,
        records: 100,
        rows: &[
            ("1 say set a 0 0 1\r\nx\r\n", "STORED\r\n"),
            ("1 say delete a\r\n", "DELETED\r\n"),
            ("1 horizon", "0"),
            ("1 retire 2", "retired"),
            ("1 horizon", "2"),
            ("1 remove", "1"),
            ("2 lost 2 1 2 0 0 0", "0 known"),
            ("2 say set b 0 0 1\r\nx\r\n", "STORED\r\n"),
            ("2 horizon", "0"),
            ("2 send 1", "2 1 1 b | 0 0 0 | 0 1 0 without 2"),
            ("1 take 0", "2 retired"),
        ],
    },
];
