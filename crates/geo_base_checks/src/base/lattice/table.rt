//! What is joined one row after another, and what is shown then: whether it was known, and what is there.
use crate::base::text::Row;

/// The greatest number stays.
pub const NUMBERS: &[Row] = &[
    ("0", "known 0 empty"),
    ("3", "news 3"),
    ("5", "news 5"),
    ("4", "known 5"),
];

/// The greater stamp wins, and then the greater content.
pub const REGISTERS: &[Row] = &[
    ("-", "known - empty"),
    ("2.7", "news 2 7"),
    ("3.1", "news 3 1"),
    ("2.9", "known 3 1"),
    ("3.4", "news 3 4"),
    ("3.2", "known 3 4"),
    ("-", "known 3 4"),
];

/// Pairs join part by part.
pub const PAIRS: &[Row] = &[
    ("0/-", "known 0 - empty"),
    ("1/5.5", "news 1 5 5"),
    ("4/2.8", "news 4 5 5"),
];

/// A register copied and its twin, a pair's twin, which covers it, a list and its twin, and a twin of two names.
pub const TWINS: &str = " 3 4 3 4; 1 2 - covers; 1 2 1 2; 1 2";

/// What is done with a map.
#[derive(Clone, Copy)]
pub enum Step {
    /// Puts values.
    Put,
    /// Makes room for another map.
    Ready,
    /// Joins another map.
    Join,
    /// Joins what is shown of another map.
    JoinShown,
    /// Makes room for a list.
    ReadyList,
    /// Joins a list.
    JoinList,
    /// Joins a value at a name that has one.
    JoinAt,
    /// Seeks a name whose stamp is later.
    Found,
    /// Shows the least stamp.
    Least,
    /// Lists all.
    Listed,
    /// Empties all.
    Empty,
}

/// What is done with which values, and what is shown then: an answer, how many names have a value, and the values.
pub type MapRow = (Step, &'static str, &'static str);

/// Maps join name by name, and have no empty values.
const JOINED: &[MapRow] = &[
    (Step::Put, "1=4.40", ":1, 1 4 40"),
    (Step::Put, "9=-", ":1, 1 4 40"),
    (Step::Ready, "1=3.30 2=1.10", ":1, 1 4 40"),
    (Step::Join, "1=3.30 2=1.10", "news:2, 1 4 40, 2 1 10"),
];

/// What is shown of a map is covered and joined.
const SHOWN: &[MapRow] = &[(Step::JoinShown, "2=1.9", "news:1, 2 1 9")];

/// Lists join, and are listed by rising name.
const LISTS: &[MapRow] = &[
    (Step::ReadyList, "7=1.1 3=2.2 7=5.5 4=-", ":0"),
    (Step::JoinList, "7=1.1 3=2.2 7=5.5 4=-", ":2, 3 2 2, 7 5 5"),
    (Step::JoinAt, "3=3.3", ":2, 3 3 3, 7 5 5"),
    (Step::Listed, "", " 3 3 3 7 5 5:2, 3 3 3, 7 5 5"),
    (Step::Empty, "", ":0"),
];

/// A list that comes again changes what is newer alone.
const AGAIN: &[MapRow] = &[
    (Step::Put, "9=1.1", ":1, 9 1 1"),
    (
        Step::JoinList,
        "1=4.4 2=4.4 3=4.4 4=4.4 5=4.4",
        ":6, 1 4 4, 2 4 4, 3 4 4, 4 4 4, 5 4 4, 9 1 1",
    ),
    (
        Step::JoinList,
        "1=4.4 2=4.4 3=4.4 4=4.4 5=4.4",
        ":6, 1 4 4, 2 4 4, 3 4 4, 4 4 4, 5 4 4, 9 1 1",
    ),
    (
        Step::JoinList,
        "1=4.4 2=6.6 3=4.4 4=4.4 5=4.4",
        ":6, 1 4 4, 2 6 6, 3 4 4, 4 4 4, 5 4 4, 9 1 1",
    ),
    (
        Step::JoinList,
        "1=5.5 2=5.5 3=5.5 4=4.4 5=4.4",
        ":6, 1 5 5, 2 6 6, 3 5 5, 4 4 4, 5 4 4, 9 1 1",
    ),
];

/// A name is found whose value passes a test, and so is the least measure of a value.
const SOUGHT: &[MapRow] = &[
    (Step::Found, "0", "none:0"),
    (Step::Least, "", " 18446744073709551615:0"),
    (
        Step::Put,
        "1=4.40 2=2.20 3=7.70",
        ":3, 1 4 40, 2 2 20, 3 7 70",
    ),
    (Step::Found, "6", " 3:3, 1 4 40, 2 2 20, 3 7 70"),
    (Step::Least, "", " 2:3, 1 4 40, 2 2 20, 3 7 70"),
    (Step::Found, "7", "none:3, 1 4 40, 2 2 20, 3 7 70"),
    (Step::Put, "2=9.90", ":3, 1 4 40, 2 9 90, 3 7 70"),
    (Step::Found, "7", " 2:3, 1 4 40, 2 9 90, 3 7 70"),
    (Step::Least, "", " 4:3, 1 4 40, 2 9 90, 3 7 70"),
];

/// Each begins with an empty map.
pub const MAPS: &[&[MapRow]] = &[JOINED, SHOWN, LISTS, AGAIN, SOUGHT];
