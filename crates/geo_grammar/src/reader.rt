//! A reader of requests.
ghost use Rattle.std.specs.Prelude.{◌≡◌, ◌++◌, [], true, IfOk, IsOk, OnOk, OnErr};
ghost use Rattle.std.specs.List.{list_any};
ghost use Rattle.geo_grammar.specs.Faults.{says_too_long};
ghost use Rattle.geo_grammar.specs.Protocol.{items_of};

use crate::feed::feed_state;
use crate::item::Item;
use crate::state::State;
use crate::transcript::Transcript;
use std::alloc::{AllocError, Global};
use std::marker::Model;

/// Reads requests from the bytes of one connection, which come in any pieces (memcached's protocol.txt).
///
/// Contracts see the text that it was fed so far, of which it keeps no more than the line or data block that is open.
#[derive(Drop)]
pub struct Reader {
    alloc: Global,
    state: State,
    fed: Transcript,
}

impl Model for Reader {
    ghost use Rattle.std.specs.Prelude.{ℕ, List};

    ghost Value = { List ℕ };

    ghost use Rattle.geo_grammar.specs.States.{Stands};

    ghost view = { λ r. r.fed.text };

    ghost invariant = { λ r. Stands r.state r.fed.text };
}

impl Reader {
    /// A reader of a new connection. It takes no memory; what it is fed lies in memory of `alloc`.
    pub fn new(alloc: Global) -> Reader
        ensures { result ≡ [] }
    {
        Reader {
            alloc,
            state: State::Line(Vec::new(alloc)),
            fed: Transcript::new(),
        }
    }

    /// Takes the next piece, and gives the items whose last byte it brings. Refused for memory, the piece counts as not
    /// fed, and may be fed again.
    pub fn feed(&mut self, piece: &[u8]) -> Result<Vec<Item>, AllocError>
        ensures text { OnOk result (self.new ≡ self.old ++ piece.now) }
        ensures items { IfOk result (λ out. items_of self.new ≡ items_of self.old ++ out.items) }
        ensures err { OnErr result (self.new ≡ self.old) }

        // Nothing grows: the piece is empty, or nothing more is read.
        ensures empty { piece.now ≡ [] → IsOk result }
        ensures silent { list_any says_too_long (items_of self.old) ≡ true → IsOk result }
    {
        let items = feed_state(self.alloc, &mut self.state, piece)?;
        self.fed.add(piece);
        Ok(items)
    }

    /// Whether a line was too long. Nothing more is read then, so whoever feeds it can close the connection.
    pub fn ended(&self) -> bool
        ensures { result ≡ list_any says_too_long (items_of self.now) }
    {
        matches!(&self.state, State::Ended)
    }
}
