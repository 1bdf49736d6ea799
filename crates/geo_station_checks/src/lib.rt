//! Checks of histories, stations, audits, links and rounds, worked by hand: that their calls succeed where there is memory, what they
//! answer and keep, that threads can share a station, and what is found of histories that hands altered.
#![tactic(auto)]

#[cfg(test)]
mod audits;
#[cfg(test)]
mod calls;
#[cfg(test)]
mod fetches;
#[cfg(test)]
mod histories;
#[cfg(test)]
mod holds;
#[cfg(test)]
mod links;
#[cfg(test)]
mod pairs;
#[cfg(test)]
mod returning;
#[cfg(test)]
mod rounds;
#[cfg(test)]
mod shown;
#[cfg(test)]
mod stations;
#[cfg(test)]
mod threads;
#[cfg(test)]
mod unlogged;
