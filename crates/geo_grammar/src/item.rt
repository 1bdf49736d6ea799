//! What a reader gives.
ghost use Rattle.std.specs.Prelude.{◌≡◌};
ghost use Rattle.geo_grammar.specs.Quitting.{is_quit};

use crate::fault::Fault;
use geo_requests::Request;

/// What a reader gives: a request, or the fault of bytes that are none.
#[derive(Drop)]
pub enum Item {
    Request(Request),
    Fault(Fault),
}

impl Item {
    /// Whether it asks for the end of the connection. What comes behind it isn't acted on.
    pub fn is_quit(&self) -> bool
        ensures { result ≡ is_quit self.now }
    {
        matches!(self, Item::Request(Request::Quit))
    }
}
