//! A link over a reader and a writer.
ghost use Rattle.std.specs.Prelude.{◌≡◌, ◌++◌, [], true, false, IfOk, IfErr, OnOk, OnErr, List, ℕ};
ghost use Rattle.std.specs.Io.KnownBytes.{Appends};
ghost use Rattle.geo_frame.specs.Payloads.{PayloadInRange, payload_of};
ghost use Rattle.geo_link.specs.Streams.{Encoded, StopsEncode, Writes, ends_link, started};

use crate::fault::LinkError;
use crate::incoming::Incoming;
use crate::link::Link;
use geo_frame::{EncodeFault, Message, encode};
use geo_grammar::Device;
use std::alloc::{AllocError, Global};
use std::io::{Read, Write};
use std::marker::Model;
use std::sync::Wait;

/// A link over a reader and a writer, which carry one frame behind the other. Bytes that are no frame end it: from then on each call
/// answers Closed, and reads and writes nothing. So does a read or a write that fails. Where the reader is at its end between two
/// frames, `get` answers Closed, and `put` still puts. Contracts see it as what will come, what was written, what failed, and whether
/// it has ended.
#[derive(Drop)]
pub struct StreamLink<I: Read, O: Write> {
    incoming: Incoming<I>,
    writer: Device<O>,
    closed: bool,
}

impl<I: Read, O: Write> Model for StreamLink<I, O> {
    ghost use Rattle.geo_link.specs.Streams.{StreamView, Works, left_in};

    ghost Value = { StreamView };

    ghost view = { λ s. record {
      left = left_in s.incoming;
      written = O.contents s.writer.inner;
      read_failed = s.incoming.failed;
      write_failed = s.writer.failed;
      closed = s.closed;
    } };

    ghost invariant = { λ s. Works s.closed s.incoming.failed s.writer.failed };
}

/// The frame of a message.
fn frame_of_message(alloc: Global, message: &Message) -> Result<Vec<u8>, LinkError>
    requires { PayloadInRange (payload_of message.now) }
    ensures ok { IfOk result (λ frame. Encoded message.now frame.items) }
    ensures err { IfErr result (λ error. StopsEncode message.now error) }
{
    match encode(alloc, message) {
        Ok(frame) => Ok(frame),
        Err(EncodeFault::TooLong) => Err(LinkError::TooLong),
        Err(EncodeFault::Memory) => Err(LinkError::Memory),
    }
}

/// Writes all of these bytes, or a beginning of them where a write fails.
fn write_whole<O: Write>(writer: &mut Device<O>, bytes: &[u8]) -> Result<(), LinkError>
    ensures ok { OnOk result (Appends (O.contents writer.old.inner) (O.contents writer.new.inner) bytes.now) }
    ensures works { OnOk result (writer.old.failed ≡ false → writer.new.failed ≡ false) }
    ensures err { IfErr result (λ error. error ≡ LinkError.Io) }
    ensures part { OnErr result (Writes bytes.now (O.contents writer.old.inner) (O.contents writer.new.inner)) }
    ensures failed { OnErr result (writer.new.failed ≡ true) }
{
    let mut rest = bytes;
    while !rest.is_empty() {
        match writer.write(rest) {
            Ok(count) => rest = rest.split_at(count).1,
            Err(_) => return Err(LinkError::Io),
        }
    }
    Ok(())
}

impl<I: Read + Drop, O: Write + Drop> StreamLink<I, O> {
    /// A link over a reader and a writer that have not failed. It takes 64 KiB for what one read brings.
    pub fn new(
        alloc: Global,
        reader: Device<I>,
        writer: Device<O>,
    ) -> Result<StreamLink<I, O>, AllocError>
        requires reader { reader.failed ≡ false }
        requires writer { writer.failed ≡ false }
        ensures { IfOk result (λ link. link ≡ started (I.remaining reader.inner) (O.contents writer.inner)) }
    {
        Ok(StreamLink {
            incoming: Incoming::new(alloc, reader)?,
            writer,
            closed: false,
        })
    }

    /// The writer. What was read and not got yet is lost.
    pub fn into_writer(self) -> Device<O>
        ensures { O.contents result.inner ≡ self.written }
    {
        let StreamLink { writer, .. } = self;
        writer
    }
}

impl<I: Read, O: Write> Link for StreamLink<I, O> {
    ghost use Rattle.geo_link.specs.Streams.{PutsFrame, StopsPut, GetsFrame, StopsGet, Closes};

    ghost puts = { PutsFrame };

    ghost gets = { GetsFrame };

    ghost put_fails = { StopsPut };

    ghost get_fails = { StopsGet };

    ghost closes = { Closes };

    fn put<R: Wait>(&mut self, _rt: &R, alloc: Global, message: Message) -> Result<(), LinkError> {
        if self.closed {
            return Err(LinkError::Closed);
        }
        let frame = frame_of_message(alloc, &message)?;
        let written = write_whole(&mut self.writer, frame.as_slice());
        self.closed = written.is_err();
        written
    }

    fn get<R: Wait>(&mut self, _rt: &R, alloc: Global) -> Result<Message, LinkError> {
        if self.closed {
            return Err(LinkError::Closed);
        }
        match self.incoming.next(alloc) {
            Ok(message) => Ok(message),
            Err(error) => {
                self.closed = error.ends_link();
                Err(error)
            }
        }
    }

    fn close(&mut self) {
        self.closed = true;
    }
}
