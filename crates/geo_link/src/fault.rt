//! Why a link did not carry a message.
ghost use Rattle.std.specs.Prelude.{◌≡◌};
ghost use Rattle.geo_link.specs.Streams.{ends_link, error_of};

use geo_frame::FrameFault;
use thiserror::Error;

/// Why a link did not carry a message.
#[derive(Clone, Copy, Debug, PartialEq, Eq, Error)]
pub enum LinkError {
    /// No more can be put or got: the other end is gone, what it sent is at its end, or the link was closed or has ended by a fault.
    #[error("the link is closed")]
    Closed,
    /// What came is no frame. The link has ended.
    #[error("a frame is refused: {0}")]
    Frame(FrameFault),
    /// A read or a write failed. The link has ended.
    #[error("a read or a write failed")]
    Io,
    /// Memory was refused. The link is as before.
    #[error("memory was refused")]
    Memory,
    /// The message's frame would be too long. The link is as before.
    #[error("the frame would be too long")]
    TooLong,
}

impl LinkError {
    /// What a frame's fault is to a link.
    pub(crate) fn of(fault: FrameFault) -> LinkError
        ensures { result ≡ error_of fault }
    {
        match fault {
            FrameFault::Memory => LinkError::Memory,
            _ => LinkError::Frame(fault),
        }
    }

    /// Whether a link over streams has ended by it.
    pub(crate) fn ends_link(self) -> bool
        ensures { result ≡ ends_link self }
    {
        match self {
            LinkError::Frame(_) | LinkError::Io => true,
            LinkError::Closed | LinkError::Memory | LinkError::TooLong => false,
        }
    }
}
