//! Why a round ended early.
use thiserror::Error;

/// Why a round ended before each site was sent a parcel. What was put before stays put.
#[derive(Clone, Copy, Debug, PartialEq, Eq, Error, Drop)]
pub enum GossipFault {
    /// Memory was wanted for a parcel.
    #[error("out of memory")]
    Memory,
    /// The seat has made 2^48 steps, and may make no more.
    #[error("the seat is spent")]
    SeatSpent,
}
