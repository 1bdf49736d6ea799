//! Connections that never wait.
//!
//! A [`Stream`] is a connection whose reads give what is there and whose writes take what there is room for; a [`Socket`] is one over
//! TCP. The crate stands on the system's sockets alone, so that whoever carries connections, and whoever joins sites, stand side by side.
#![tactic(auto)]

mod keepalive;
mod socket;
mod stream;

pub use keepalive::keep_alive;
pub use socket::{Drained, Socket};
pub use stream::{Accepted, Given, Stream};
