//! The numbers that a site tells of itself.

/// What `stats` answers (memcached's protocol.txt, "General-purpose statistics", of which these are a few, and two of a site).
#[derive(Clone, Copy, PartialEq, Eq, Debug)]
pub struct Stats {
    /// Values held, expired ones too.
    pub curr_items: u64,
    /// Keys that `get` and `gets` found.
    pub get_hits: u64,
    /// Keys that `get` and `gets` did not find.
    pub get_misses: u64,
    /// Values that made room for others, or were told to.
    pub evictions: u64,
    /// The site's number, from 1.
    pub site: u64,
    /// The site's clock: how many operations it has seen one after the other, 0 at first.
    pub clock: u64,
    /// Keys of which the site keeps a record, those of deleted values too.
    pub records: u64,
}
