//! Requests and replies as values, apart from the text that carries them (memcached's protocol.txt).
//!
//! What a site answers stands on this crate alone: how requests are read from bytes, and replies written, stands beside it in geo_grammar.
#![tactic(auto)]

mod digits;
mod holding;
mod limits;
mod reply;
mod request;
mod shared;
mod shown;
mod stats;
mod value;

pub use digits::number;
pub use limits::{LONGEST_VALUE, MOST_NUMBER};
pub use reply::{Found, Reply};
pub use request::{Request, Verb};
pub use shared::Shared;
pub use shown::Shown;
pub use stats::Stats;
pub use value::{DataBlock, ValueBytes};
