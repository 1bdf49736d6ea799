//! A site for several threads: a lock round the site with its history, and a seat for each thread.
//!
//! Each call of a [`Station`] takes the lock, is carried out at the site with its step in the history, and lets the lock go. A
//! [`Seat`] has a share of a ledger whose total is the number of steps: so a call that left out its step, or made one that is
//! nobody's, could not be. It keeps its calls with the answers that it was handed, and [`Station::close`] gives the history only
//! where it tells the same of each seat. The crate stands on histories and their sites, and knows nothing of clients or links.
#![tactic(auto)]

mod account;
mod bygone;
mod call;
mod calls;
mod close;
mod desk;
mod fits;
mod hold;
mod maintain;
mod missing;
mod refusal;
mod seat;
mod station;
mod unopened;

pub use call::Call;
pub use close::{Unclosed, Unlocked, Why};
pub use geo_journal::Room;
pub use hold::Hold;
pub use maintain::Maintained;
pub use missing::Missing;
pub use refusal::{CallError, NoSeat, Returned, SeatSpent, StationError};
pub use seat::Seat;
pub use station::Station;
pub use unopened::Unopened;
