//! Why a session ends before its end.
ghost use Rattle.std.specs.Prelude.{◌≡◌};
ghost use Rattle.geo_dialogue.specs.declared.fault.SessionFault.TheVariants.{Memory};

use std::alloc::AllocError;
use thiserror::Error;

/// Why a session ends before its end. What the backend did until then stands, also where its answer wasn't written.
#[derive(Clone, Copy, Debug, PartialEq, Eq, Error, Drop)]
pub enum SessionFault {
    /// A read failed. All answers are written.
    #[error("a read failed")]
    Read,
    /// A write failed. A beginning of the answers is written.
    #[error("a write failed")]
    Write,
    /// Memory was wanted and refused. All answers before the one that had none are written.
    #[error("out of memory")]
    Memory,
    /// The input hadn't ended after 2^48 reads. All answers are written.
    #[error("the input had not ended after 2^48 reads")]
    TooManyReads,
    /// The backend gave no answer. Those that it gave before are written.
    #[error("the backend gave no answer")]
    Spent,
}

impl From<AllocError> for SessionFault {
    ghost from_gives = { λ _ fault. fault ≡ Memory };

    fn from(_error: AllocError) -> SessionFault {
        SessionFault::Memory
    }
}
