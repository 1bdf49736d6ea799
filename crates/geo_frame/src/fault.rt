//! Why a frame could not be written or read.
ghost use Rattle.std.specs.Prelude.{◌≡◌};
ghost use Rattle.geo_frame.specs.declared.fault.EncodeFault.TheVariants as encode;
ghost use Rattle.geo_frame.specs.declared.fault.FrameFault.TheVariants as frame;

use std::alloc::{AllocError, AllocFailed};
use thiserror::Error;

/// Why a parcel has no frame.
#[derive(Clone, Copy, Debug, PartialEq, Eq, Error)]
pub enum EncodeFault {
    /// It would have more than [`LONGEST_FRAME`](crate::LONGEST_FRAME) bytes.
    #[error("the frame would have more than 2^30 bytes")]
    TooLong,
    /// Memory was refused.
    #[error("memory was refused")]
    Memory,
}

/// What is wrong with a frame. Of several faults the first in the order of `decode`'s tests is told.
#[derive(Clone, Copy, Debug, PartialEq, Eq, Error)]
pub enum FrameFault {
    /// There are fewer bytes than the frame has.
    #[error("the frame is cut short")]
    Short = 1,
    /// It doesn't begin with `GCDS`.
    #[error("it is no frame of geocache")]
    Magic = 2,
    /// It is of another version of the format.
    #[error("the frame is of another version")]
    Version = 3,
    /// A field is out of its range, or passes the end.
    #[error("a field of the frame is out of range")]
    Field = 4,
    /// A key is not greater than the one before it.
    #[error("the keys of the frame don't rise")]
    Order = 5,
    /// The bytes are not those of the SHA-256.
    #[error("the frame was damaged on its way")]
    Damaged = 6,
    /// There are more bytes than the frame has.
    #[error("there are more bytes than the frame has")]
    Trailing = 7,
    /// Memory was refused.
    #[error("memory was refused")]
    Memory = 8,
}

impl From<AllocError> for EncodeFault {
    ghost from_gives = { λ _ e. e ≡ encode.Memory };

    fn from(_e: AllocError) -> EncodeFault {
        EncodeFault::Memory
    }
}

impl From<AllocError> for FrameFault {
    ghost from_gives = { λ _ e. e ≡ frame.Memory };

    fn from(_e: AllocError) -> FrameFault {
        FrameFault::Memory
    }
}

impl<T: Drop> From<AllocFailed<T>> for FrameFault {
    ghost from_gives = { λ _ e. e ≡ frame.Memory };

    fn from(_e: AllocFailed<T>) -> FrameFault {
        FrameFault::Memory
    }
}
