//! What carries messages between two sites.
ghost use Rattle.std.specs.Prelude.{IfOk, IfErr, OnOk};
ghost use Rattle.geo_frame.specs.Payloads.{PayloadInRange, payload_of};
ghost use Rattle.geo_frame.specs.declared.message.Message.{Message};
ghost use Rattle.geo_link.specs.declared.fault.LinkError.{LinkError};

use crate::fault::LinkError;
use geo_frame::Message;
use std::alloc::Global;
use std::sync::Wait;

/// Where messages go to another site and come from one.
pub trait Link {
    // From the first state the message was put, and the second state is left.
    ghost puts: { Self → Message → Self → Type 0 };

    // From the first state the message was got, and the second state is left.
    ghost gets: { Self → Message → Self → Type 0 };

    // From the first state the message was not put, and the second state is left.
    ghost put_fails: { Self → Message → LinkError → Self → Type 0 };

    // From the first state nothing was got, and the second state is left.
    ghost get_fails: { Self → LinkError → Self → Type 0 };

    // From the first state the link was closed, and the second state is left.
    ghost closes: { Self → Self → Type 0 };

    /// Puts a message. It may wait for room.
    fn put<R: Wait>(&mut self, rt: &R, alloc: Global, message: Message) -> Result<(), LinkError>
        requires { PayloadInRange (payload_of message) }
        ensures ok { OnOk result (puts self.old message self.new) }
        ensures err { IfErr result (λ error. put_fails self.old message error self.new) };

    /// Gets the next message. It waits until one comes.
    fn get<R: Wait>(&mut self, rt: &R, alloc: Global) -> Result<Message, LinkError>
        ensures ok { IfOk result (λ message. gets self.old message self.new) }
        ensures err { IfErr result (λ error. get_fails self.old error self.new) };
    /// Closes this end: from then on `put` and `get` answer Closed. It takes no memory and waits for nothing. The other end learns of it
    /// once this one is let go.
    fn close(&mut self)
        ensures { closes self.old self.new };
}
