//! Whether the histories of all sites are those of one run.
//!
//! Each site keeps a history of what it was asked and answered. [`audit`] puts the histories of all sites together into one schedule,
//! in which each parcel is taken only once it was sent, and carries it out over sites of its own. `specs/` has what it is for a
//! schedule to interleave histories. It stands on schedules and histories, and knows nothing of threads, locks or links.
#![tactic(auto)]

mod auditing;
mod merge;
mod opening;
mod play;
mod replay;
mod sent;
mod verdict;

pub use auditing::audit;
pub use verdict::Verdict;
