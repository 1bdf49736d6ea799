//! Stamps, what is done with vectors, and what is shown of each, worked out by hand.

/// The time and the site of a stamp.
pub type At = (u64, u8);

/// Times and sites, and the time, the site and the number of the stamp that they make: whether it is later than the one before is
/// shown where both are in range.
pub const STAMPS: &[(At, &'static str)] = &[
    ((0, 1), "none"),
    ((72_057_594_037_927_936, 1), "none"),
    ((1, 0), "none"),
    ((1, 17), "none"),
    ((1, 1), " 1 1 257"),
    ((1, 2), "later 1 2 258"),
    ((2, 1), "later 2 1 513"),
    (
        (72_057_594_037_927_935, 16),
        "later 72057594037927935 16 18446744073709551376",
    ),
];

/// What is done with a vector.
#[derive(Clone, Copy)]
pub enum Step {
    /// Nothing.
    Look,
    /// The entry of a site is raised to a time.
    Raise(u8, u64),
    /// Whether a stamp is known.
    Knows(At),
    /// The vector of these clocks is joined.
    Join(&'static [u64]),
}

/// What is done, and what is shown then: the number of entries, the greatest and the least, and what the first four sites have.
pub type VectorRow = (Step, &'static str);

/// A vector knows up to its entries, and an entry only rises.
const RAISED: &[VectorRow] = &[
    (Step::Look, ":2 0 0, 0 0 0 0"),
    (Step::Raise(2, 5), ":2 5 0, 0 5 0 0"),
    (Step::Raise(2, 3), ":2 5 0, 0 5 0 0"),
    (Step::Knows((5, 2)), "knows:2 5 0, 0 5 0 0"),
    (Step::Knows((6, 2)), "knows not:2 5 0, 0 5 0 0"),
    (Step::Knows((1, 1)), "knows not:2 5 0, 0 5 0 0"),
];

/// Vectors of two lengths join.
const JOINED: &[VectorRow] = &[
    (Step::Join(&[2, 0, 9]), "news:3 9 0, 4 0 9 0"),
    (Step::Join(&[2, 0, 9]), "known:3 9 0, 4 0 9 0"),
];

/// The least of three.
const LEAST: &[VectorRow] = &[(Step::Look, ":3 9 6, 7 6 9 0")];

/// The clocks that a vector has at first, and what is done with it.
pub const VECTORS: &[(&'static [u64], &'static [VectorRow])] = &[
    (&[0, 0], RAISED),
    (&[4], JOINED),
    (&[7, 6, 9], LEAST),
];

/// Clocks, up to which site they are asked for and which sites are left out: the least with these and without.
pub const LEASTS: &[(&'static [u64], usize, &'static [u8], &'static str)] = &[
    (&[7, 6, 9], 3, &[], " 6 6"),
    (&[7, 6, 9], 3, &[2], " 6 7"),
    (&[7, 8, 3], 2, &[1], " 7 8"),
    (&[7, 6], 3, &[], " 0 0"),
    (&[7, 6], 3, &[3, 9], " 0 6"),
    (&[7], 0, &[], " 72057594037927935 72057594037927935"),
    (&[3, 4], 2, &[1, 2], " 3 72057594037927935"),
];

/// What is heard of other sites, and what is asked.
#[derive(Clone, Copy)]
pub enum Hearing {
    /// A vector of a site is heard, which holds none for retired.
    Heard(u8, &'static [u64]),
    /// A vector of a site is heard, and which sites it holds for retired.
    Told(u8, &'static [u64], &'static [u8]),
    /// A site is retired here.
    Retire(u8),
    /// The horizon of a site that knows so much is kept.
    Look(u8, &'static [u64]),
    /// Which sites are retired here.
    Set,
    /// Which sites a site told that it holds for retired.
    SetOf(u8),
    /// What was heard of a site.
    Row(u8),
    /// The horizon of a site that knows so much.
    Horizon(u8, &'static [u64]),
}

/// What is heard is joined into the row of its site.
const ROWS: &[Hearing] = &[
    Hearing::Heard(2, &[5, 0]),
    Hearing::Heard(2, &[3, 4]),
    Hearing::Row(2),
    Hearing::Row(1),
    Hearing::Row(16),
];

/// The horizon is the least that any site knows of any: what was heard of itself counts for nothing.
const HORIZON: &[Hearing] = &[
    Hearing::Horizon(2, &[7, 6, 9]),
    Hearing::Heard(1, &[8, 5, 9]),
    Hearing::Horizon(2, &[7, 6, 9]),
    Hearing::Heard(3, &[4, 8, 9]),
    Hearing::Horizon(2, &[7, 6, 9]),
    Hearing::Heard(3, &[5, 8, 9]),
    Hearing::Horizon(2, &[7, 6, 9]),
    Hearing::Horizon(2, &[7, 6, 3]),
    Hearing::Heard(2, &[1, 1, 1]),
    Hearing::Horizon(2, &[7, 6, 9]),
];

/// Site 1 of three, which holds 3 for retired: what 3 told holds the horizon back until 2 has told the same, with the entry for 3 that
/// stands here.
const RETIRED: &[Hearing] = &[
    Hearing::Heard(3, &[0, 0, 1]),
    Hearing::Set,
    Hearing::Retire(3),
    Hearing::Retire(3),
    Hearing::Set,
    Hearing::Horizon(1, &[2, 0, 1]),
    Hearing::Told(2, &[2, 2, 0], &[3]),
    Hearing::SetOf(2),
    Hearing::SetOf(3),
    Hearing::Horizon(1, &[2, 2, 1]),
    Hearing::Told(2, &[2, 2, 1], &[]),
    Hearing::SetOf(2),
    Hearing::Horizon(1, &[2, 2, 1]),
];

/// Equal entries are not enough: 2 has to tell that it holds 3 for retired. What it tells is held for retired here too.
const UNTOLD: &[Hearing] = &[
    Hearing::Retire(3),
    Hearing::Heard(2, &[5, 5, 1, 6]),
    Hearing::Heard(4, &[5, 5, 1, 6]),
    Hearing::Horizon(1, &[5, 5, 1, 6]),
    Hearing::Told(2, &[5, 5, 1, 6], &[3, 4]),
    Hearing::Set,
    Hearing::Horizon(1, &[5, 5, 1, 6]),
];

/// A second one is retired of four: by what stands there the horizon would fall, and it does where it was not kept.
const SECOND: &[Hearing] = &[
    Hearing::Told(2, &[7, 7, 1, 8], &[3]),
    Hearing::Told(4, &[7, 7, 1, 8], &[3]),
    Hearing::Horizon(1, &[7, 7, 1, 8]),
    Hearing::Retire(4),
    Hearing::Horizon(1, &[7, 7, 1, 8]),
];

/// The same where it was kept.
const KEPT: &[Hearing] = &[
    Hearing::Told(2, &[7, 7, 1, 8], &[3]),
    Hearing::Told(4, &[7, 7, 1, 8], &[3]),
    Hearing::Look(1, &[7, 7, 1, 8]),
    Hearing::Retire(4),
    Hearing::Horizon(1, &[7, 7, 1, 8]),
    Hearing::Look(1, &[7, 7, 1, 8]),
    Hearing::Told(2, &[9, 9, 1, 8], &[4]),
    Hearing::Horizon(1, &[9, 9, 1, 8]),
];

/// A site that learns that it is retired itself answers what it had, and the last one left waits for nobody.
const ALONE: &[Hearing] = &[
    Hearing::Heard(2, &[3, 4]),
    Hearing::Look(1, &[5, 4]),
    Hearing::Told(2, &[6, 6], &[1]),
    Hearing::Horizon(1, &[9, 9]),
    Hearing::Look(1, &[9, 9]),
    Hearing::Horizon(2, &[9, 9]),
];

/// Two sets, and their union: whether the second brings news, the sites, the number with a bit for each, the set of that number, and
/// whether it fits two sites.
pub const SETS: &[(&'static [u8], &'static [u8], &'static str)] = &[
    (&[], &[], "known none 0 none fits"),
    (&[1], &[2], "news of 1 2 3 of 1 2 fits"),
    (&[3], &[3], "known of 3 4 of 3 fits not"),
    (&[2], &[16, 1], "news of 1 2 16 32771 of 1 2 16 fits not"),
];

/// For how many sites, what is heard and asked, and all answers.
pub const ACKS: &[(usize, &'static [Hearing], &'static str)] = &[
    (3, RETIRED, " none new again of 3 0 of 3 none 0 of 3 2"),
    (4, UNTOLD, " new 1 of 3 4 5"),
    (4, SECOND, " 7 new 1"),
    (4, KEPT, " 7 new 7 7 9"),
    (2, ALONE, " 3 3 3 9"),
    (2, ROWS, ":2 5 4, 5 4 0 0:2 0 0, 0 0 0 0:2 0 0, 0 0 0 0"),
    (3, HORIZON, " 0 0 4 5 3 5"),
];
