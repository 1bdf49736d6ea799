//! What is wrong with bytes that are no request.
ghost use Rattle.std.specs.Prelude.{◌≡◌};
ghost use Rattle.geo_grammar.specs.Replies.{fault_bytes};
ghost use Rattle.geo_grammar.specs.Faults.{line_fault, block_fault};

use thiserror::Error;

/// Why bytes are no request. Each is answered by [`fault_text`].
#[derive(Clone, Copy, Debug, PartialEq, Eq, Error)]
pub enum Fault {
    /// A line without a word, or whose first word names no command.
    #[error("no command has this name")]
    Unknown,
    /// A command line of the wrong form.
    #[error("the command line has the wrong form")]
    BadLine,
    /// A data block that is not followed by `\r\n`.
    #[error("the data block doesn't end with a line end")]
    BadData,
    /// A line of more than 65,536 bytes. Nothing more is read.
    #[error("the line has more than 65536 bytes")]
    LineTooLong,
    /// A data block of more than 1,048,576 bytes, which was skipped.
    #[error("the data block has more than 1048576 bytes")]
    TooLarge,
    /// A number that can't be read, in a line that is no storage line.
    #[error("a number can't be read")]
    BadNumber,
}

/// The text that answers a fault, with its line end (memcached's protocol.txt, "Error strings").
pub fn fault_text(fault: Fault) -> &'static [u8]
    ensures { result.now ≡ fault_bytes fault }
{
    match fault {
        Fault::Unknown => b"ERROR\r\n",
        Fault::BadLine => b"CLIENT_ERROR bad command line format\r\n",
        Fault::BadData => b"CLIENT_ERROR bad data chunk\r\n",
        Fault::LineTooLong => b"CLIENT_ERROR line too long\r\n",
        Fault::TooLarge => b"SERVER_ERROR object too large for cache\r\n",
        Fault::BadNumber => b"CLIENT_ERROR invalid numeric argument\r\n",
    }
}

/// What can be wrong with a command line.
#[derive(Clone, Copy, Debug, PartialEq, Eq, Error)]
pub enum LineFault {
    #[error("no command has this name")]
    Unknown,
    #[error("the command line has the wrong form")]
    BadLine,
    #[error("a number can't be read")]
    BadNumber,
}

impl LineFault {
    pub fn fault(self) -> Fault
        ensures { result ≡ line_fault self }
    {
        match self {
            LineFault::Unknown => Fault::Unknown,
            LineFault::BadLine => Fault::BadLine,
            LineFault::BadNumber => Fault::BadNumber,
        }
    }
}

/// What can be wrong with a data block.
#[derive(Clone, Copy, Debug, PartialEq, Eq, Error)]
pub enum BlockFault {
    #[error("the data block doesn't end with a line end")]
    BadData,
    #[error("the data block has more than 1048576 bytes")]
    TooLarge,
}

impl BlockFault {
    pub fn fault(self) -> Fault
        ensures { result ≡ block_fault self }
    {
        match self {
            BlockFault::BadData => Fault::BadData,
            BlockFault::TooLarge => Fault::TooLarge,
        }
    }
}
