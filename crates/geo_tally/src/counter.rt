//! What is counted.
ghost use Rattle.std.specs.Prelude.{◌≡◌, ◌<◌};
ghost use Rattle.geo_tally.specs.Counts.{place_of};

/// What is counted of a site's work.
#[derive(Clone, Copy, Debug, PartialEq, Eq)]
pub enum Counter {
    /// Client sessions that ended.
    Sessions,
    /// Requests of clients that were put to a site, also the one that a spent seat did not answer.
    Requests,
    /// Sessions that ended by a fault.
    Faults,
    /// Rounds of gossip.
    Rounds,
    /// Frames of other sites that were refused.
    FramesRefused,
}

impl Counter {
    /// Its place among the sums that [`close`](crate::Tally::close) answers, 0 to 4.
    pub fn place(self) -> usize
        ensures place { result ≡ place_of self }
        ensures range { result < 5 }
    {
        match self {
            Counter::Sessions => 0,
            Counter::Requests => 1,
            Counter::Faults => 2,
            Counter::Rounds => 3,
            Counter::FramesRefused => 4,
        }
    }
}

/// A number for each counter. Contracts see by it what a seat added; no value of it is made.
pub(crate) struct Counts {
    pub sessions: u64,
    pub requests: u64,
    pub faults: u64,
    pub rounds: u64,
    pub frames_refused: u64,
}
