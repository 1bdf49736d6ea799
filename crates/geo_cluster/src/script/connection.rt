//! The connection of a site's one client.
ghost use Rattle.std.specs.Prelude.{◌≡◌, position, IfOk};
ghost use Rattle.geo_grammar.specs.Quitting.{is_quit, has_quit, until_quit};
ghost use Rattle.geo_cluster.specs.Connections.{IsNew, Brings};

use geo_grammar::{Item, Reader};
use std::alloc::{AllocError, Global};

/// Where the first quit stands.
fn first_quit(items: &[Item]) -> Option<usize>
    ensures { result ≡ position is_quit items.now }
{
    items.iter().position(|item| item.is_quit())
}

/// Drops what stands behind the first quit: it isn't acted on.
fn drop_behind_quit(items: &mut Vec<Item>)
    ensures { items.new.items ≡ until_quit items.old.items }
{
    match first_quit(items.as_slice()) {
        Some(at) => items.truncate(at + 1),
        None => {}
    }
}

fn ends_by_quit(items: &[Item]) -> bool
    ensures { result ≡ has_quit items.now }
{
    items.iter().any(|item| item.is_quit())
}

/// The connection of a site's one client.
#[derive(Drop)]
pub struct Connection {
    reader: Reader,
    /// The client has quit or sent a line too long: what comes next opens a new connection.
    ended: bool,
}

impl Connection {
    /// Nothing came on it yet.
    pub fn new(alloc: Global) -> Connection
        ensures { IsNew result }
    {
        Connection {
            reader: Reader::new(alloc),
            ended: false,
        }
    }

    /// The items that these bytes bring, up to the first quit. What comes behind the end of a connection opens a new one.
    pub fn feed(&mut self, alloc: Global, bytes: &[u8]) -> Result<Vec<Item>, AllocError>
        ensures { IfOk result (λ items. Brings self.old bytes.now items.items self.new) }
    {
        if self.ended {
            self.reader = Reader::new(alloc);
        }
        let mut items = self.reader.feed(bytes)?;
        self.ended = ends_by_quit(items.as_slice()) || self.reader.ended();
        drop_behind_quit(&mut items);
        Ok(items)
    }
}
