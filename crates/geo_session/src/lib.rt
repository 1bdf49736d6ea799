//! What answers the requests of client connections: one site at a fixed moment ([`Bare`]), or a seat at a shared site ([`Counted`]).
//!
//! Both are backends of the sessions of geo_dialogue, which are handed out here too; [`told_in_order`] says how what a session of a seat is
//! told stands in the one history of its site.
#![tactic(auto)]

mod bare;
pub mod clock;
mod counted;
mod laws;

pub use bare::Bare;
pub use counted::Counted;
pub use geo_dialogue::{Backend, Gate, OpenGate, Session, SessionEnd, SessionFault, serve};
pub use laws::told_in_order;
