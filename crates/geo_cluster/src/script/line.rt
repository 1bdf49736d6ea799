//! What a line of a script asks for.
use geo_versions::Key;

/// What a line of a script asks for.
#[derive(Drop)]
pub enum ScriptLine {
    /// So many sites are to be set up, 1 to 16. Each has `pages` pages for values, 15 to 65,536, may keep `max` records, 1 to
    /// 1,000,000, and keeps its own writes for `reap` seconds behind their end, 0 to 2^31 - 1.
    Sites {
        count: u8,
        pages: u32,
        max: u32,
        reap: u32,
    },
    /// The moment from here on, in seconds, 1 to 2^40.
    At(u64),
    /// These bytes reach a site from its client.
    Client {
        site: u8,
        text: Vec<u8>,
    },
    /// One site cuts a parcel for another.
    Send {
        from: u8,
        to: u8,
    },
    /// A site takes the parcel of this number, counted from 0.
    Take {
        site: u8,
        parcel: u64,
    },
    /// A site carries out a flush that waits, where its moment has come.
    Tick {
        site: u8,
    },
    /// A site drops what is left of deleted keys that every site knows to be deleted.
    Remove {
        site: u8,
    },
    /// A site deletes a key, where a write of its own ended long enough ago.
    Reap {
        site: u8,
        key: Key,
    },
    /// A site drops the bytes that it holds of a key.
    Evict {
        site: u8,
        key: Key,
    },
    /// A site is offered these bytes of a key.
    Fill {
        site: u8,
        key: Key,
        text: Vec<u8>,
    },
    /// A site holds another for gone for good.
    Retire {
        site: u8,
        other: u8,
    },
    /// What a site knows is printed.
    Versions {
        site: u8,
    },
}
