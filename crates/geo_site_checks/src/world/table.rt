//! The tables. Events are explained in `lines`, and so is what is shown of a run.
use super::hand::Worked;

/// Events, and whether they are in time.
pub const MOMENTS: &[(&str, bool)] = &[
    ("1 tick 1099511627776", true),
    ("1 reap 1099511627776 a", true),
    ("1 tick 1099511627777", false),
    ("1 reap 1099511627777 a", false),
];

/// Too few pages, the fewest, the most, and too many.
pub const PAGES: &[u32] = &[14, 15, 65_536, 65_537];

/// The schedules.
pub const SCHEDULES: &[Worked] = &[
    // A tie is named alike by both: the write of site 2 wins.
    Worked {
        sites: 2,
        rows: &[
            ("1 say set a 0 0 2\r\nhi\r\n", "STORED\r\n"),
            ("2 say set a 0 0 2\r\nyo\r\n", "STORED\r\n"),
            ("1 send 2", "sent"),
            ("2 send 1", "sent"),
            ("2 take 0", "taken"),
            ("1 take 1", "taken"),
            ("1 say get a\r\n", "END\r\n"),
            ("2 say get a\r\n", "VALUE a 0 2\r\nyo\r\nEND\r\n"),
        ],
        end: "to 2 1 | 1 a 1 2 | 1 a 1 2",
    },
    // A site sends nothing to itself, and takes nothing that is for another.
    Worked {
        sites: 2,
        rows: &[
            ("1 send 1", "no such site"),
            ("1 send 2", "sent"),
            ("1 take 0", "not for me"),
        ],
        end: "to 2 | 0 | 0",
    },
    // A send that was refused is no parcel.
    Worked {
        sites: 2,
        rows: &[
            ("1 send 1", ""),
            ("1 send 2", ""),
            ("1 take 0", ""),
            ("2 take 1", ""),
        ],
        end: "bad event 3",
    },
    // No third site ticks.
    Worked {
        sites: 2,
        rows: &[
            ("1 send 1", ""),
            ("1 send 2", ""),
            ("1 take 0", ""),
            ("3 tick 1", ""),
        ],
        end: "bad event 3",
    },
    // No site has the number 0.
    Worked {
        sites: 2,
        rows: &[
            ("1 send 1", ""),
            ("1 send 2", ""),
            ("1 take 0", ""),
            ("0 reap 1 a", ""),
        ],
        end: "bad event 3",
    },
    // No third site evicts.
    Worked {
        sites: 2,
        rows: &[
            ("1 send 1", ""),
            ("1 send 2", ""),
            ("1 take 0", ""),
            ("3 evict a", ""),
        ],
        end: "bad event 3",
    },
    // Site 1 writes and deletes a, both know that the other knows it and drop it, and the parcel with the write comes twice.
    Worked {
        sites: 2,
        rows: &[
            ("1 say set a 0 0 2\r\nhi\r\n", "STORED\r\n"),
            ("1 send 2", "sent"),
            ("1 say delete a\r\n", "DELETED\r\n"),
            ("1 send 2", "sent"),
            ("2 take 1", "taken"),
            ("2 send 1", "sent"),
            ("1 take 2", "taken"),
            ("1 remove", "removed 1 2"),
            ("1 send 2", "sent"),
            ("2 take 3", "taken"),
            ("2 remove", "removed 1 2"),
            ("2 take 0", "taken"),
            ("2 take 0", "taken"),
        ],
        end: "to 2 2 1 2 | 0 | 0",
    },
    // Site 2 has heard that both others know the delete at (2,1), and not what site 1 knows of site 3.
    Worked {
        sites: 3,
        rows: &[
            ("3 say set a 0 0 2\r\nhi\r\n", "STORED\r\n"),
            ("3 send 2", "sent"),
            ("2 take 0", "taken"),
            ("1 say set x 0 0 1\r\nz\r\n", "STORED\r\n"),
            ("1 say delete a\r\n", "NOT_FOUND\r\n"),
            ("1 send 2", "sent"),
            ("1 send 3", "sent"),
            ("2 take 1", "taken"),
            ("3 take 2", "taken"),
            ("3 send 2", "sent"),
            ("2 take 3", "taken"),
            ("2 remove", "removed 0 0"),
            ("2 take 0", "taken"),
        ],
        end: "to 2 2 3 2 | 2 x 1 1 | 2 x 1 1 | 2 x 1 1",
    },
    // Sites 1 and 2 retire site 3, of which site 1 knows a delete that site 2 does not: the delete stays until what they report agrees.
    Worked {
        sites: 3,
        rows: &[
            ("1 say set a 0 0 2\r\nhi\r\n", "STORED\r\n"),
            ("1 say set x 0 0 1\r\nz\r\n", "STORED\r\n"),
            ("1 send 2", "sent"),
            ("2 take 0", "taken"),
            ("3 say delete a\r\n", "NOT_FOUND\r\n"),
            ("3 send 1", "sent"),
            ("1 take 1", "taken"),
            ("1 retire 3", "retired"),
            ("2 retire 3", "retired"),
            ("2 send 1", "sent"),
            ("1 take 2", "taken"),
            ("1 remove", "removed 0 0"),
            ("1 send 2", "sent"),
            ("2 take 3", "taken"),
            ("2 remove", "removed 1 2"),
            ("2 send 1", "sent"),
            ("1 take 4", "taken"),
            ("1 remove", "removed 1 2"),
            ("1 take 1", "not from a retired site"),
            ("1 send 3", "not to a retired site"),
            ("1 retire 3", "nothing"),
            ("1 retire 1", "no such site"),
        ],
        end: "to 2 1 1 2 1 | 1 x 2 1 | 1 x 2 1 | 1",
    },
    // No parcel is made for a retired site.
    Worked {
        sites: 2,
        rows: &[("1 retire 2", ""), ("1 send 2", ""), ("2 take 0", "")],
        end: "bad event 2",
    },
];
