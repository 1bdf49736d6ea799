//! Counters that threads raise without waiting for one another.
//!
//! A [`Tally`] has a word for each [`Counter`], and gives a number of [`TallySeat`]s, one to a thread. Who has a seat adds by one
//! atomic step, with no lock and no memory. At each moment a word is the sum of what all seats added; with all seats handed back
//! `close` answers these sums. `specs/` says what each call makes of a seat, and what the words keep. The crate stands on the kit's
//! `atomic_table`, and knows nothing of what is counted.
#![tactic(auto)]

pub mod counter;
mod parts;
mod rule;
pub mod seat;
pub mod tally;

pub use counter::Counter;
pub use seat::{MOST_ADDS, Spent, TallySeat};
pub use tally::{MOST_SEATS, Tally, TallyError};
