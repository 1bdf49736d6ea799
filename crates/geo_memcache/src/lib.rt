//! Plain memcached on one entry: what a command answers, and what becomes of the entry.
//!
//! [`decide`] is the table of memcached's protocol.txt by cases on the command and on what is visible of its key. It changes
//! nothing: who keeps the entry carries the [`Decision`] out. The crate stands on requests and replies, and knows nothing of
//! stamps, sites, or where entries are kept.
#![tactic(auto)]

mod arith;
mod ask;
mod decision;
mod entry;
mod expiry;
mod storage;
mod table;

pub use ask::{Ask, ask_of};
pub use decision::{Answer, Decision, Effect};
pub use entry::Entry;
pub use expiry::{expiry_of, live};
pub use table::decide;
