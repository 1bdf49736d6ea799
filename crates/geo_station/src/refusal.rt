//! Why a call of a station is refused.
use geo_delta::Parcel;
use geo_site::TakeError;
use thiserror::Error;

/// Why there is no station.
#[derive(Clone, Copy, Debug, PartialEq, Eq, Error, Drop)]
pub enum StationError {
    /// The number of seats is not 2 to 256.
    #[error("the number of seats is not 2 to 256")]
    SeatCount,
}

/// All seats were given.
#[derive(Clone, Copy, Debug, PartialEq, Eq, Error, Drop)]
#[error("all seats were given")]
pub struct NoSeat;

/// The seat has made 2^48 steps, which are all that it may make.
#[derive(Clone, Copy, Debug, PartialEq, Eq, Error, Drop)]
#[error("the seat is spent")]
pub struct SeatSpent;

/// Why a call was not carried out.
#[derive(Clone, Copy, Debug, PartialEq, Eq, Error, Drop)]
pub enum CallError<E> {
    /// The seat has made all steps that it may make: 2^48.
    #[error("the seat is spent")]
    SeatSpent,
    /// The site refused it.
    #[error("the site refused it")]
    Site(E),
}

/// A parcel that was not taken, handed back whole.
#[derive(Drop)]
pub struct Returned {
    pub why: CallError<TakeError>,
    pub parcel: Parcel,
}
