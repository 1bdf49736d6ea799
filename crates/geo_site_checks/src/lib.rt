//! Checks of a site's public calls, of schedules and of scripts: that calls succeed where there is memory, and what a script can't show
//! of them, as parcels made by hand, refusals of the calls themselves, copies of replies, seeded schedules beside the plain program,
//! and devices that fail. What clients read stands in the worked scripts.
#![tactic(auto)]

#[cfg(test)]
mod script;
#[cfg(test)]
mod sends;
#[cfg(test)]
mod site;
#[cfg(test)]
mod world;
