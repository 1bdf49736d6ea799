//! Messages as bytes: the frame in which one site sends another a parcel, an ask or an offer.
//!
//! A frame is a head of nine bytes, the kind and the fields of a message, and the SHA-256 of all before it; a message within the
//! ranges has one spelling in each version of the format. [`encode`] writes that of version 2, [`wanted`] says how many bytes to
//! wait for, and [`decode`] takes bytes of version 1 or 2 only where they are the frame of a message within the ranges, and names the
//! first fault of all others. `specs/` says what the bytes of a frame are, which messages are within the ranges, and in which order a
//! frame is tested; [`laws`] what follows. The crate stands on parcels, records and stamps, and knows nothing of sites, requests or
//! links.
#![tactic(auto)]

mod asking;
mod body;
mod bytes;
mod fault;
mod head;
mod key;
pub mod laws;
mod length;
mod limits;
mod message;
mod push;
mod ranges;
mod reading;
mod record;
mod route;
mod vector;
mod writing;

pub use fault::{EncodeFault, FrameFault};
pub use head::wanted;
pub use limits::{LONGEST_FRAME, SHORTEST_FRAME};
pub use message::Message;
pub use ranges::fits;
pub use reading::decode;
pub use writing::encode;
