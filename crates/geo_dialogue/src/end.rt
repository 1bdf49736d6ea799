//! How a session ends.

/// How a session ends that no fault ends.
#[derive(Clone, Copy, Debug, PartialEq, Eq)]
pub enum SessionEnd {
    /// The client asked for it.
    Quit,
    /// The client sends nothing more. A request that hasn't come whole is not answered.
    EndOfInput,
    /// The client sent a line of more than 65,536 bytes, and was told so.
    LineTooLong,
}
