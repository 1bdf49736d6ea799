//! One site: plain memcached over what it holds, and what it tells the other sites.
//!
//! A [`Site`] keeps versions of all that was written anywhere, the bytes of some of its own writes, and a vector of clocks. Each
//! call is one atomic step: `act` answers a client, `send` makes a parcel, `take` joins one. [`Event`] and [`Answer`] name all
//! that can happen at a site, and `specs/Steps.antt` says of each what it answers and leaves. It stands on versions, parcels and
//! requests, and knows nothing of bytes on a wire, threads, histories or other sites.
#![tactic(auto)]

pub mod act;
pub mod acted;
pub mod boxed;
pub mod change;
pub mod event;
pub mod evict;
pub mod exchange;
pub mod fetch;
pub mod fill;
pub mod flush;
mod gather;
pub mod notes;
pub mod passed;
pub mod places;
pub mod reap;
pub mod refusal;
pub mod removal;
pub mod repeats;
pub mod retire;
pub mod setup;
pub mod site;
pub mod state;
pub mod touch;

pub use acted::Acted;
pub use boxed::BoxedParcel;
pub use event::{Answer, Event};
pub use exchange::{Refused, Taken};
pub use fill::Filled;
pub use refusal::{ReapError, RetireError, SendError, SetupError, TakeError, WriteError};
pub use setup::{LAST_MOMENT, Limits, MOST_RECORDS, Setup};
pub use site::Site;
pub use state::SiteState;
