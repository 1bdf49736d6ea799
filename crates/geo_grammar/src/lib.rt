//! The text protocol: requests read from bytes that come in any pieces, and the texts of their answers.
//!
//! A [`Reader`] is fed pieces as they come and gives each request or fault with the piece that brings its last byte;
//! [`render`] and [`fault_text`] are the bytes of an answer. Both follow the text part of memcached's protocol.txt.
//! `specs/` says what a text means, whole, by lines and blocks; contracts see a reader as the text that it was fed. How it
//! stands between two bytes is its own matter: the proofs show that the two agree. The crate stands on keys and lists, and knows
//! nothing of sites, values held or sockets; a [`Device`] is any std reader or writer that remembers its first error.
#![tactic(auto)]

mod block;
mod command;
mod device;
mod fault;
mod feed;
mod fetch;
mod head;
mod item;
mod keys;
mod laws;
mod limits;
mod line;
mod lines;
mod reader;
mod runs;
mod split;
mod state;
mod step;
mod storage;
mod telling;
mod texts;
mod transcript;
mod words;

pub use device::Device;
pub use fault::{Fault, fault_text};
pub use geo_requests::{
    Found, LONGEST_VALUE, MOST_NUMBER, Reply, Request, Shared, Shown, Stats, ValueBytes, Verb,
    number,
};
pub use item::Item;
pub use laws::{items_of_longer, read_all, silent_behind_long_line};
pub use reader::Reader;
pub use telling::{Telling, begin_reply};
pub use texts::{push_answer, push_reply, render};
