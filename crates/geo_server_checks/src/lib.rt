//! Checks of sessions, crowds, configurations and the server, worked by hand: what clients read, devices that fail, connections that
//! are ready by fits and starts, clients that ask for much, what is told of a text, and what is told at a cluster's end.
#![tactic(auto)]

#[cfg(test)]
mod crowd;
#[cfg(test)]
mod much;
#[cfg(test)]
mod servers;
#[cfg(test)]
mod session;
#[cfg(test)]
mod settings;
