//! What is done with values, and what is answered, worked out by hand.

/// What is done with values.
#[derive(Clone, Copy)]
pub enum Step {
    /// A value of the largest class is stored under each of these keys. Each shows the key that was evicted for it, or a dash.
    Fill(&'static str),
    /// A value of the largest class is admitted under each of these keys. Each shows whether it was, or a dash where the key is held.
    Admit(&'static str),
    /// Whether the largest class is full.
    IsFull,
    /// So many times one byte are stored under a key, which shows the same.
    Store(u8, u8, usize),
    /// What is held under a key is got by the digest of so many times one byte: whether it is these bytes.
    Get(u8, u8, usize),
    /// How many keys are held.
    Len,
    /// Whether a key is held.
    Holds(u8),
    /// A key is dropped: whether it was held.
    DropKey(u8),
    /// A key is hit.
    Hit(u8),
    /// A key is hit that may stand at this place.
    HitAt(u8, usize),
    /// The largest class is juggled: whether an item moved.
    Juggle,
    /// All keys of the largest class are evicted, which shows them and a dash at the end.
    Evict,
    /// These keys are dropped by a test of keys.
    RetainOtherKeys(&'static str),
    /// Bytes are dropped by a test of their digest: so many times one byte.
    RetainOtherBytes(u8, usize),
    /// All that have not this length are dropped.
    RetainLength(usize),
}

/// How many pages there are, what is done, and all answers.
pub type ValuesRow = (usize, &'static [Step], &'static str);

/// Nothing is held at first.
const NEW: &[Step] = &[Step::Len];

/// A value is got by its digest.
const GOT: &[Step] = &[
    Step::Store(b'k', 7, 3),
    Step::Get(b'k', 7, 3),
    Step::Get(b'k', 7, 2),
];

/// A whole page is got.
const WHOLE: &[Step] = &[
    Step::Store(b'k', 7, 1_048_576),
    Step::Get(b'k', 7, 1_048_576),
];

/// A dropped key is not held.
const DROPPED: &[Step] = &[
    Step::Store(b'k', 7, 3),
    Step::Len,
    Step::Holds(b'k'),
    Step::DropKey(b'k'),
    Step::DropKey(b'k'),
    Step::Len,
    Step::Holds(b'k'),
];

/// A key that is stored again changes its class.
const AGAIN: &[Step] = &[
    Step::Fill("kk"),
    Step::Store(b'k', 9, 2),
    Step::Get(b'k', 9, 2),
    Step::Len,
    Step::Evict,
];

/// A full class takes a spare page, and then evicts.
const FULL: &[Step] = &[
    Step::Fill("ab"),
    Step::Fill("c"),
    Step::Store(b'd', 9, 1),
    Step::Len,
    Step::Holds(b'a'),
];

/// A victim is another key than the one that is stored.
const ANOTHER: &[Step] = &[
    Step::Fill("a"),
    Step::Fill("a"),
    Step::Store(b'b', 9, 1),
    Step::Fill("b"),
    Step::Len,
    Step::Holds(b'b'),
];

/// A missing key is dropped and hit without effect.
const MISSING: &[Step] = &[
    Step::Fill("abc"),
    Step::DropKey(b'b'),
    Step::DropKey(b'b'),
    Step::Hit(b'b'),
    Step::Hit(b'b'),
    Step::Juggle,
    Step::Juggle,
    Step::Len,
    Step::Evict,
];

/// An item that was hit twice outlives one that was not. Of three items HOT may have none: its tail, which is active, goes to WARM, and the
/// next to COLD.
const HIT: &[Step] = &[
    Step::Juggle,
    Step::Fill("abc"),
    Step::Hit(b'a'),
    Step::Hit(b'a'),
    Step::Juggle,
    Step::Juggle,
    Step::Evict,
];

/// A hit is on the key, whatever stands at the place.
const HIT_AT: &[Step] = &[
    Step::Fill("abc"),
    Step::HitAt(b'a', 0),
    Step::HitAt(b'z', 1),
    Step::HitAt(b'a', 2),
    Step::HitAt(b'z', 1),
    Step::Juggle,
    Step::Juggle,
    Step::Evict,
];

/// Where no key stands at the place, the key is looked for.
const HIT_NOWHERE: &[Step] = &[
    Step::Fill("abc"),
    Step::HitAt(b'a', 3),
    Step::HitAt(b'a', 3),
    Step::Juggle,
    Step::Juggle,
    Step::Evict,
];

/// A test sees key, digest and length. Of four, three differ from `k` in their key alone, in their bytes and in their length.
const TESTED: &[Step] = &[
    Step::Store(b'a', 7, 3),
    Step::Store(b'b', 9, 3),
    Step::Store(b'c', 7, 4),
    Step::Store(b'k', 7, 3),
    Step::RetainOtherKeys("a"),
    Step::Len,
    Step::Holds(b'a'),
    Step::RetainOtherBytes(9, 3),
    Step::Len,
    Step::Holds(b'b'),
    Step::RetainLength(3),
    Step::Len,
    Step::Holds(b'k'),
];

/// What is retained keeps its order, and frees the rest.
const RETAINED: &[Step] = &[
    Step::Fill("abcd"),
    Step::RetainOtherKeys("ac"),
    Step::Fill("ef"),
    Step::Evict,
];

/// What is admitted takes a spare page, and evicts nothing: a full class has room again only where something leaves it.
const ADMITTED: &[Step] = &[
    Step::IsFull,
    Step::Admit("a"),
    Step::IsFull,
    Step::Admit("aba"),
    Step::IsFull,
    Step::Admit("ca"),
    Step::Len,
    Step::DropKey(b'a'),
    Step::IsFull,
    Step::Admit("cd"),
    Step::Evict,
    Step::IsFull,
];

/// Another class's values leave no room and take none.
const ADMITTED_APART: &[Step] = &[
    Step::Store(b'k', 7, 3),
    Step::Admit("ak"),
    Step::Admit("b"),
    Step::Store(b'l', 7, 3),
    Step::Len,
    Step::Evict,
    Step::Len,
];

pub const ROWS: &[ValuesRow] = &[
    (15, NEW, "0"),
    (15, GOT, "- got none"),
    (15, WHOLE, "- got"),
    (15, DROPPED, "-1 held dropped none0 not"),
    (15, AGAIN, "--- got1-"),
    (16, FULL, "--a-3 not"),
    (15, ANOTHER, "---a1 held"),
    (17, MISSING, "--- dropped none++2ac-"),
    (17, HIT, ".---++bac-"),
    (17, HIT_AT, "---++bac-"),
    (17, HIT_NOWHERE, "---++bac-"),
    (15, TESTED, "----3 not2 not1 held"),
    (18, RETAINED, "------bdef-"),
    (
        16,
        ADMITTED,
        " room+ room-+- fullx-2 dropped room+xbc- room",
    ),
    (15, ADMITTED_APART, "-+-x-3a-2"),
];
