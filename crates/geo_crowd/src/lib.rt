//! One thread that carries many connections, none of which waits.
//!
//! A [`Stream`] is a connection whose reads give what is there and whose writes take what there is room for. A [`Carried`] is one with
//! its session: its type keeps that what is written to a client is a beginning of the text of the answers to what came from it, in
//! whatever order connections become ready. A [`Crowd`] has the connections of one thread, and gives each that can go on one turn a
//! pass: one read at most, so that no client holds up the others. The crate stands on sessions, and knows nothing of sockets, of
//! stations, or of what tells that a connection is ready.
#![tactic(auto)]

mod carried;
mod crowd;
mod passed;
mod polling;
mod roster;
mod standing;
mod turns;

pub use carried::Carried;
pub use crowd::Crowd;
pub use geo_socket::{Accepted, Given, Stream};
pub use passed::Passed;
pub use polling::{Polling, Ready};
pub use standing::Standing;
