//! The program's parts above a site: what `geocache script` does.
//!
//! A script sets up sites, hands each client's bytes to its site, and carries parcels between sites. Here stand the lines of
//! a script and what they say, the escapes in which bytes are written, and [`run_script`], which carries lines out: what it
//! writes is what the lines of its input print, up to the first bad line. The lines are events of one schedule over the world of
//! `geo_world`, a client's requests among them. The crate knows nothing of sockets or threads.
#![tactic(auto)]

mod script;

pub use script::escape::{escape, unescape};
pub use script::fault::ScriptFault;
pub use script::line::ScriptLine;
pub use script::parse::{is_skipped, parse_line};
pub use script::run::run_script;
