//! Why a cluster did not run to its end.
ghost use Rattle.std.specs.Prelude.{◌≡◌};
ghost use Rattle.geo_wires.specs.declared.fault.ClusterFault.TheVariants.{Memory};

use std::alloc::AllocError;
use std::io;
use thiserror::Error;

/// Why a cluster did not run to its end.
#[derive(Debug, PartialEq, Eq, Error, Drop)]
pub enum ClusterFault {
    /// Nobody can listen at this address: it is taken, isn't this machine's, or isn't one.
    #[error("cannot listen on {0}")]
    Listen(String),
    /// Memory was wanted for a site, its links or its threads, or for what is told at the end.
    #[error("out of memory")]
    Memory,
    /// A socket between two sites, or what the end is written to, failed.
    #[error("a socket or the output failed")]
    Socket,
    /// The process, or the system, had no descriptor left for a socket.
    #[error("cannot open another descriptor")]
    Descriptors,
    /// Not all threads of all sites came up.
    #[error("cannot start another thread")]
    Threads,
}

/// The process, and the system, have as many descriptors open as they may (errno's EMFILE and ENFILE).
const TOO_MANY_OPEN: [i32; 2] = [24, 23];

impl ClusterFault {
    /// What a socket's failure is to the cluster.
    pub fn of_socket(error: &io::Error) -> ClusterFault {
        match error.raw_os_error() {
            Some(code) if TOO_MANY_OPEN.contains(&code) => ClusterFault::Descriptors,
            _ if error.kind() == io::ErrorKind::OutOfMemory => ClusterFault::Memory,
            _ => ClusterFault::Socket,
        }
    }
}

impl From<AllocError> for ClusterFault {
    ghost from_gives = { λ _ fault. fault ≡ Memory };

    fn from(_error: AllocError) -> ClusterFault {
        ClusterFault::Memory
    }
}
