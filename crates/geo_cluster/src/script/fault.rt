//! Why a script ends before its end.
ghost use Rattle.std.specs.Prelude.{◌≡◌};
ghost use Rattle.geo_cluster.specs.declared.script.fault.ScriptFault.TheVariants.{Memory};

use std::alloc::AllocError;
use thiserror::Error;

/// Why a script ends before its end. What was printed until then stands.
#[derive(Clone, Copy, Debug, PartialEq, Eq, Error, Drop)]
pub enum ScriptFault {
    /// The line of this number, counted from 1 over all lines, is none that can be carried out. It has no effect.
    #[error("bad line {0}")]
    BadLine(u64),
    /// Memory was wanted and refused: before the first read, for a line longer than 16,384 bytes, or for one that can be carried out.
    #[error("out of memory")]
    Memory,
    /// A read failed, or the input hadn't ended after 2^48 reads.
    #[error("a read failed")]
    Read,
    /// A write failed.
    #[error("a write failed")]
    Write,
}

impl From<AllocError> for ScriptFault {
    ghost from_gives = { λ _ fault. fault ≡ Memory };

    fn from(_error: AllocError) -> ScriptFault {
        ScriptFault::Memory
    }
}
