//! What an audit finds.
use geo_world::Event;

/// What an audit finds of histories.
#[derive(Drop)]
pub enum Verdict {
    /// All steps, put together into one schedule: a victim is evicted before the command that stored in its place.
    Sound(Vec<Event>),
    /// How many steps of each history were taken when each site that was left waited for a parcel that no such step sends.
    Stuck(Vec<usize>),
    /// The first step that tells what is not so, from 1 in the history of its site. Both are 0 where the setups are not those of sites
    /// 1 to n.
    Wrong { site: u8, step: usize },
    /// The first site whose history doesn't begin with the site's start.
    LaterEra { site: u8 },
}
