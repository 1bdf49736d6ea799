//! How a connection stands after a turn.
use geo_dialogue::{SessionEnd, SessionFault};

/// How a connection stands after a turn.
#[derive(Clone, Copy, Debug, PartialEq, Eq)]
pub enum Standing {
    /// It can go on at once.
    Again,
    /// It waits until it can be read or written.
    Waits,
    /// It has ended, and nothing is left to be written to it.
    Over(Result<SessionEnd, SessionFault>),
}
