//! A link whose connections come and go.
ghost use Rattle.std.specs.Prelude.{◌≡◌, None, IsSome, MatchBool, IfSome};
ghost use Rattle.geo_link.specs.Connections.{ComesOrGoes};

use crate::fault::LinkError;
use crate::link::Link;
use geo_frame::Message;
use std::alloc::Global;
use std::sync::Wait;

/// What connects to the other end of a link, again and again, and learns why a connection was let go.
pub trait Connect<L> {
    // A connection that was just made: what was put on it, if anything, the connector has put.
    ghost fresh: { L → Type 0 };

    /// A new connection, where one is due and the other end can be reached.
    fn connect<R: Wait>(&mut self, rt: &R, alloc: Global) -> Option<L>
        ensures { IfSome result (λ connection. fresh connection) };

    /// Whether a connection can be used on. Where it can't it is let go.
    fn is_whole(&mut self, alloc: Global, connection: &L) -> bool;

    /// Whether a message may be put now. Where it may not it is refused as Closed, and the connection stands.
    fn admits(&self, message: &Message) -> bool;

    /// The connection has carried a message.
    fn carried(&mut self);

    /// The connection was let go, since a call of it failed so.
    fn lost(&mut self, alloc: Global, error: LinkError);

    /// The connection was let go at this end.
    fn let_go(&mut self);
}

/// A link whose connections come and go: each message is put on the one that stands, or on none. A connection that a put or a get has
/// ended is let go, so that nothing ever follows a part of a frame; what was put and lost is for others to put again.
#[derive(Drop)]
pub struct Returning<L, C> {
    connection: Option<L>,
    connector: C,
}

impl<L: Link + Drop, C: Connect<L>> Returning<L, C> {
    /// A link with the connection that stands, if one does.
    pub fn new(connection: Option<L>, connector: C) -> Returning<L, C>
        ensures connection { result.connection ≡ connection }
        ensures connector { result.connector ≡ connector }
    {
        Returning {
            connection,
            connector,
        }
    }

    /// What connects.
    pub fn connector(&self) -> &C
        ensures { result.now ≡ self.now.connector }
    {
        &self.connector
    }

    /// Whether a connection stands.
    pub fn is_up(&self) -> bool
        ensures { MatchBool result (IsSome self.now.connection) (self.now.connection ≡ None) }
    {
        self.connection.is_some()
    }

    /// Lets go of a connection that can't be used on, and makes one where none stands and it is due. Whether one stands then.
    pub fn stands<R: Wait>(&mut self, rt: &R, alloc: Global) -> bool
        ensures comes { ComesOrGoes C.fresh self.old.connection self.new.connection }
        ensures told { MatchBool result (IsSome self.new.connection) (self.new.connection ≡ None) }
    {
        if let Some(connection) = &self.connection {
            if self.connector.is_whole(alloc, connection) {
                return true;
            }
            self.connection = None;
        }
        self.connection = self.connector.connect(rt, alloc);
        self.connection.is_some()
    }

    /// Lets go of the connection, and hands it out.
    pub fn take(&mut self) -> Option<L>
        ensures taken { result ≡ self.old.connection }
        ensures left { self.new.connection ≡ None }
    {
        self.connection.take()
    }
}

impl<L: Link + Drop, C: Connect<L>> Link for Returning<L, C> {
    ghost use Rattle.geo_link.specs.Connections.{OnOne, PutFailsOn};

    ghost puts = { λ old message new. OnOne (λ before after. L.puts before message after) old.connection new.connection };

    ghost gets = { λ old message new. OnOne (λ before after. L.gets before message after) old.connection new.connection };

    ghost put_fails = { λ old message error new. PutFailsOn (λ before after. L.put_fails before message error after) error old.connection new.connection };

    ghost get_fails = { λ old error new. new.connection ≡ None };

    ghost closes = { λ old new. new.connection ≡ None };

    fn put<R: Wait>(&mut self, rt: &R, alloc: Global, message: Message) -> Result<(), LinkError> {
        if !self.connector.admits(&message) {
            return Err(LinkError::Closed);
        }
        let Some(connection) = &mut self.connection else {
            return Err(LinkError::Closed);
        };
        match connection.put(rt, alloc, message) {
            Ok(()) => {
                self.connector.carried();
                Ok(())
            }
            Err(LinkError::Memory) => Err(LinkError::Memory),
            Err(LinkError::TooLong) => Err(LinkError::TooLong),
            Err(error) => {
                self.connection = None;
                self.connector.lost(alloc, error);
                Err(error)
            }
        }
    }

    fn get<R: Wait>(&mut self, rt: &R, alloc: Global) -> Result<Message, LinkError> {
        let Some(connection) = &mut self.connection else {
            return Err(LinkError::Closed);
        };
        match connection.get(rt, alloc) {
            Ok(message) => Ok(message),
            Err(error) => {
                // whatever comes later is no answer to what is asked next
                self.connection = None;
                self.connector.lost(alloc, error);
                Err(error)
            }
        }
    }

    fn close(&mut self) {
        self.connection = None;
        self.connector.let_go();
    }
}
