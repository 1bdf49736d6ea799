//! Client connections: what [`serve`] does between a reader and a writer.
//!
//! A session reads requests of the text protocol, has a [`Backend`] answer them one after the other, and writes the answers
//! in the order of the requests. What is written is, word for word, the text of the answers that the backend gave and of the
//! faults, and these answers are those of one run of the backend's own relation; that holds for every backend, reader and
//! writer. A [`Session`] does this between a read and a write, and [`serve`] is its loop. A [`Gate`] can hold a session up. The crate
//! stands on requests and their texts, and knows nothing of sites, sockets or other sessions.
#![tactic(auto)]

mod answers;
mod backend;
mod end;
mod fault;
mod gate;
mod output;
mod pending;
mod serving;
mod session;

pub use backend::Backend;
pub use end::SessionEnd;
pub use fault::SessionFault;
pub use gate::{Gate, OpenGate};
pub use serving::serve;
pub use session::Session;
