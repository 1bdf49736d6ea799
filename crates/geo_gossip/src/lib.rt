//! How what a site knows spreads: a round sends it to each other site, and a receiving thread takes what others send.
//!
//! [`round`] has a station make a parcel for each other site and puts it on the link that leads there; [`fetch`] asks other sites for
//! the bytes of values that a site knows of and does not hold; [`receive`] takes the parcels and answers the asks that come over a link
//! until it is closed. That a parcel is lost, comes twice or late harms nothing but the time at which a site learns of a write, and that
//! no bytes come nothing but what a get finds. The crate stands on stations and links, and knows nothing of clients, threads or time.
#![tactic(auto)]

mod fault;
mod fetching;
mod receiving;
mod rounds;

pub use fault::GossipFault;
pub use fetching::fetch;
pub use receiving::receive;
pub use rounds::{Peer, round};
