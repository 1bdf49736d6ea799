//! Links: where messages go to another site and come from one.
//!
//! A [`Link`] puts messages and gets them, until it is closed. A [`MemoryLink`] is one between two threads, over two channels; a
//! [`StreamLink`] one over a reader and a writer, as the two directions of a socket, which carry the messages' frames. A [`Tallied`]
//! link counts the frames that are refused. A [`Returning`] link is one whose connections come and go. `specs/` says what each call
//! makes of a link: which messages were put and got, which bytes were written and taken. The crate stands on frames, devices and
//! tallies, and knows nothing of sites or sockets.
#![tactic(auto)]

mod fault;
mod incoming;
mod link;
mod memory;
mod returning;
mod rule;
mod stream;
mod tallied;

pub use fault::LinkError;
pub use link::Link;
pub use memory::{MOST_WAITING, MemoryLink, memory_link};
pub use returning::{Connect, Returning};
pub use stream::StreamLink;
pub use tallied::Tallied;
