//! Where a reader stands.
ghost use Rattle.std.specs.Prelude.{◌≡◌};
ghost use Rattle.geo_grammar.specs.declared.state.State.TheVariants.{Skip};

use crate::fault::BlockFault;
use crate::head::Head;
use geo_requests::DataBlock;

/// Where a reader stands between two pieces.
#[derive(Drop)]
pub enum State {
    /// In a line, of which this was seen.
    Line(Vec<u8>),
    /// In a data block, of which this came. `returned`: all of it came, and the return behind it.
    Data {
        head: Head,
        got: DataBlock,
        returned: bool,
    },
    /// So many bytes are skipped, and then all up to the next line end, where the fault is given.
    Skip {
        left: usize,
        fault: BlockFault,
    },
    /// Behind a line that was too long.
    Ended,
}

impl State {
    /// The state in which so many bytes are skipped, and then all up to the next line end.
    pub fn skip(left: usize, fault: BlockFault) -> State
        ensures { result ≡ Skip left fault }
    {
        State::Skip { left, fault }
    }
}
