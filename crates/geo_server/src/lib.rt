//! The server: sites that clients and other sites reach over sockets, all in one process or each in one of its own.
//!
//! [`run_cluster`] opens the sites of a configuration, has threads serve their clients, and has them tell each other what was
//! written, until every site has served as many connections as it was told. Then it writes how much was done, and whether the
//! sites' histories are one lawful schedule. [`run_apart`] does the same for one of the sites, until an operator tells it to stop; the
//! others run elsewhere, and come and go. The crate is a thin layer of threads and sockets: what a session, a station, a
//! link, a round and an audit do is proved in the crates that it stands on.
#![tactic(auto)]

mod accept;
mod adding;
mod apart;
mod attended;
mod clock;
mod cluster;
mod counting;
mod duty;
mod leaving;
mod mailbox;
mod operator;
mod registrar;
mod report;
mod site;
mod start;
mod threads;
mod worker;

pub use apart::run_apart;
pub use clock::SystemClock;
pub use cluster::run_cluster;
pub use geo_wires::ClusterFault;
pub use operator::Operator;
