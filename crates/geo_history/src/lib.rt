//! A site with its history: each call at the site is a step, kept with what was answered.
//!
//! A [`Kept`] is a site and the steps since its history opened. Its type says that carrying out the steps one after the other
//! leads from the opening to the site, and that the steps of each seat are numbered from 1. A seat is whoever calls: a
//! connection, or a thread. `specs/` has replays of steps, and what each call leaves of both. It stands on the site,
//! and knows nothing of threads, locks or other sites.
#![tactic(auto)]

pub mod history;
pub mod kept;
pub mod log;
pub mod parts;
pub mod sizes;
pub mod step;

pub use history::{History, Opening};
pub use kept::{Kept, MOST_STEPS};
pub use sizes::{answer_bytes, event_bytes};
pub use step::Step;
