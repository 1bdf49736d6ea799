//! The configuration of the program: TOML text as a [`Config`], or the first [`ConfigFault`] of the text.
//!
//! [`config`] reads the whole document before it answers, so that which fault is told doesn't hang on where keys stand in the
//! text. What it answers is within all ranges, and its sites stand in the order of their numbers, so a program can make its
//! sites, seats and links of it without a further test. [`config_apart`] reads the same document for a program that runs one of
//! the sites, which may go on for as long as it likes. It stands on no other crate of the program, and opens no file and no
//! address.
#![tactic(auto)]

pub mod draft;
pub mod fault;
pub mod keys;
pub mod order;
pub mod reading;
pub mod settings;

pub use fault::ConfigFault;
pub use reading::{config, config_apart};
pub use settings::{ApartConfig, Config, LinkKind, SiteConfig};
