//! Why a text is no configuration.
use std::alloc::{AllocError, AllocFailed};
use thiserror::Error;

/// What is wrong with a text. Of several faults that of the first class here is told, and of a class the first in the order in
/// which the format lists its keys: those of the document, then those of each site in turn. It shows what the program prints.
#[derive(Debug, Drop, Error, PartialEq, Eq)]
pub enum ConfigFault {
    /// It isn't TOML. A key that stands twice is no TOML either.
    #[error("not toml")]
    NotToml,
    /// A required key isn't there.
    #[error("missing {0}")]
    Missing(&'static str),
    /// A key holds a value of another type.
    #[error("wrong type {0}")]
    WrongType(&'static str),
    /// A key holds a number that is too small or too great, or a text that isn't one of those it may hold; or there are too few
    /// or too many sites.
    #[error("out of range {0}")]
    OutOfRange(&'static str),
    /// A key that no rule names. Of several in one table the first in the order of their bytes is told.
    #[error("unknown {0}")]
    Unknown(String),
    /// The sites' numbers aren't 1 to the number of sites, each once.
    #[error("site numbers")]
    Numbers,
    /// Memory was refused. It is told where it is met.
    #[error("out of memory")]
    Memory,
}

impl From<AllocError> for ConfigFault {
    fn from(_e: AllocError) -> ConfigFault {
        ConfigFault::Memory
    }
}

impl<T: Drop> From<AllocFailed<T>> for ConfigFault {
    fn from(_e: AllocFailed<T>) -> ConfigFault {
        ConfigFault::Memory
    }
}
