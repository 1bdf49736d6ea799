//! Scripts: their lines, their escapes and their run.
pub mod client;
pub mod cluster;
pub mod connection;
pub mod escape;
pub mod fault;
pub mod happen;
pub mod line;
pub mod listing;
pub mod parse;
pub mod run;
pub mod setups;
pub mod split;
pub mod texts;
