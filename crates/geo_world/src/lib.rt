//! Schedules of events over several sites, and the theorem about them.
//!
//! [`run_schedule`] runs any list of commands, evictions, sends, takes, removals, ticks, reaps, fills and retirements, in which parcels
//! may be lost, repeated and reordered, and its contract says what every site then holds and what every client was answered. It
//! stands on the public contracts of sites and parcels alone.
#![tactic(auto)]

pub mod event;
mod open;
mod outcome;
mod run;
mod step;
mod there;
mod world;

pub use event::{Event, Trace};
pub use open::are_good;
pub use outcome::{Outcome, WorldError};
pub use run::{are_in_time, is_in_time_event, run_schedule};
pub use there::{first_missing, has_site, is_at_hand};
pub use world::World;
