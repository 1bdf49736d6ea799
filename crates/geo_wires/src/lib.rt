//! How sites are joined: links over sockets, which come back where they were cut.
//!
//! A [`Lead`] is a link on which a site puts its rounds: in memory, over a socket to a peer's port ([`Putting`]), or to a site in another
//! process, which comes and goes ([`Outbound`]). A [`Porter`] hears who comes to a peer port; [`Wires`] makes the links of sites that run
//! together. Messages, frames, and what a link promises are declared in the crates below; whom a site tells what is not known here.
#![tactic(auto)]

mod answering;
mod fault;
mod frames;
mod guest;
mod lead;
mod outbound;
mod porter;
mod putting;
mod road;
mod tcp;
mod telling;
mod wires;

pub use answering::Answering;
pub use fault::ClusterFault;
pub use lead::Lead;
pub use outbound::{Outbound, Route};
pub use porter::{Apart, Porter, Visit, watched};
pub use putting::{Caller, Putting, Way};
pub use road::Road;
pub use tcp::{Getting, Own};
pub use telling::tell;
pub use wires::{Memory, Tcp, Wires};
