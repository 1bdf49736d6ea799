//! What a program is told at its start.

/// Over what the sites exchange parcels.
#[derive(Clone, Copy, Debug, PartialEq, Eq)]
pub enum LinkKind {
    /// Over memory that they share, in one process.
    Memory,
    /// Over connections to each other's `peer` addresses.
    Tcp,
}

/// What the program is told, its sites in the order of their numbers.
#[derive(Debug, Drop, PartialEq, Eq)]
pub struct Config {
    /// How many pages of a mebibyte each site has for values, 15 to 65,536; 64 where nothing is said.
    pub pages: u32,
    /// How many records each site's map may have, 1 to 1,000,000; 100,000 where nothing is said.
    pub max_records: u32,
    /// How many seconds after its end a site keeps a write of its own, 0 to 2,147,483,647; 60 where nothing is said.
    pub reap_after: u32,
    /// Over what the sites exchange parcels; memory where nothing is said.
    pub link: LinkKind,
    /// How many milliseconds lie between two rounds of gossip, and of maintenance, 1 to 60,000; 100 where nothing is said.
    pub every: u64,
    /// After how many steps a site's history begins anew, 1,000 to 1,000,000,000; 1,000,000 where nothing is said.
    pub era: u64,
    /// How many bytes the steps of a site's history may keep before it begins anew, 1 MiB to 2^40; 256 MiB where nothing is said.
    pub era_bytes: u64,
    /// How many connections each site accepts before it stops, 1 to 1,048,576.
    pub sessions: u64,
    /// Whether each site asks the others for the bytes of values that it knows of and doesn't hold; not where nothing is said.
    pub fills: bool,
    /// Whether each site's history is logged, so that it can be audited at the end; it is where nothing is said.
    pub audit: bool,
    /// For how many milliseconds a site waits for another: for a connection, for room for what it writes, and for what it asked for, 100
    /// to 600,000; 5,000 where nothing is said.
    pub patience: u64,
    /// How many milliseconds the clients of a site that is told to stop have to take what they are owed, 0 to 600,000; 5,000 where
    /// nothing is said.
    pub drain: u64,
    /// The sites, 1 to 16. Site `k` stands at index `k - 1`.
    pub sites: Vec<SiteConfig>,
}

/// What a program is told that runs one site, beside others that run the others.
#[derive(Debug, Drop, PartialEq, Eq)]
pub struct ApartConfig {
    /// All that is said, of sites that are joined by connections. Where nothing is said of `sessions`, 1,048,576 stands here.
    pub config: Config,
    /// After how many connections the site stops by itself, 1 to 1,048,576; where nothing is said it doesn't.
    pub sessions: Option<u64>,
}

/// What one site is told.
#[derive(Debug, Drop, PartialEq, Eq)]
pub struct SiteConfig {
    /// Its number, from 1 to the number of sites.
    pub number: u8,
    /// The address on which it listens for clients, as it was written.
    pub client: String,
    /// How many threads serve its connections, 1 to 128; 4 where nothing is said.
    pub workers: usize,
    /// The address on which it listens for other sites, as it was written. It is there exactly where the link is `Tcp`.
    pub peer: Option<String>,
}
