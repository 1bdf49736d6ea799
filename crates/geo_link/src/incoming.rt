//! Frames out of the bytes of a reader.
ghost use Rattle.std.specs.Prelude.{◌≡◌, ◌≤◌, ◌<◌, ◌+◌, [], false, length, vec_len, IfOk, IfErr, OnOk, Err, Ok};
ghost use Rattle.std.specs.Io.KnownBytes.{IsAtEnd, Keeps};
ghost use Rattle.geo_frame.specs.Payloads.{payload_of};
ghost use Rattle.geo_frame.specs.Reading.{Says, size_in};
ghost use Rattle.geo_link.specs.Streams.{ReadsOn, StopsRead, StopsFill, StopsNext, TakesFrame, left_in};

use crate::fault::LinkError;
use bytes::BytesMut;
use geo_frame::{FrameFault, Message, decode, wanted};
use geo_grammar::Device;
use std::alloc::{AllocError, Global};
use std::io::Read;
use std::marker::Model;

/// A read brings so many bytes at most.
const PIECE: usize = 65_536;

/// The bytes by which a frame's length is known.
const HEAD: usize = 9;

/// What a reader gave and no frame has taken yet. Room is made by what came, never by what a length field says.
#[derive(Drop)]
pub(crate) struct Incoming<I: Read> {
    reader: Device<I>,
    piece: Vec<u8>,
    waiting: BytesMut<Global>,
}

impl<I: Read> Model for Incoming<I> {
    ghost use Rattle.std.specs.Prelude.{◌<◌, vec_len};
    ghost use Rattle.geo_link.specs.Streams.{Incoming};

    ghost Value = { Incoming };

    ghost view = { λ s. record { waiting = s.waiting.items; unread = I.remaining s.reader.inner; failed = s.reader.failed } };

    ghost invariant = { λ s. 0 < vec_len s.piece };
}

fn new_piece(alloc: Global) -> Result<Vec<u8>, AllocError>
    ensures { IfOk result (λ v. 0 < vec_len v) }
{
    vec![in alloc; 0u8; PIECE]
}

/// How many bytes the frame has that begins so, by its head.
fn size_of(alloc: Global, bytes: &[u8]) -> Result<usize, FrameFault>
    requires { 9 ≤ length bytes.now }
    ensures { Says (λ n. n) result (size_in bytes.now) }
{
    let (head, _) = bytes.split_at(HEAD);
    let Some(size) = wanted(bytes) else {
        unreachable!()
    };
    let Err(fault) = decode(alloc, head) else {
        unreachable!()
    };
    match fault {
        FrameFault::Short => Ok(size),
        _ => Err(fault),
    }
}

impl<I: Read + Drop> Incoming<I> {
    pub(crate) fn new(alloc: Global, reader: Device<I>) -> Result<Incoming<I>, AllocError>
        ensures waiting { IfOk result (λ s. s.waiting ≡ []) }
        ensures unread { IfOk result (λ s. s.unread ≡ I.remaining reader.inner) }
        ensures failed { IfOk result (λ s. s.failed ≡ reader.failed) }
    {
        let piece = new_piece(alloc)?;
        Ok(Incoming {
            reader,
            piece,
            waiting: BytesMut::new(alloc),
        })
    }
}

impl<I: Read> Incoming<I> {
    /// Reads once, and says how many bytes came: 0 at the end. Room is made before, so that no byte is lost.
    fn read(&mut self) -> Result<usize, LinkError>
        ensures reads { ReadsOn self.old self.new }
        ensures count { IfOk result (λ n. length self.new.waiting ≡ length self.old.waiting + n) }
        ensures end { IfOk result (λ n. n ≡ 0 → IsAtEnd self.new.unread) }
        ensures works { OnOk result (self.new.failed ≡ false) }
        ensures err { IfErr result (λ error. StopsRead self.old error self.new) }
    {
        if self.waiting.reserve(self.piece.len()).is_err() {
            return Err(LinkError::Memory);
        }
        let Ok(count) = self.reader.read(self.piece.as_mut_slice()) else {
            return Err(LinkError::Io);
        };
        let (piece, _) = self.piece.split_at(count);
        self.waiting.extend_reserved(piece);
        Ok(count)
    }

    /// Reads until so many bytes wait. At the end Closed where none do, and Short where they are fewer.
    fn fill(&mut self, least: usize) -> Result<(), LinkError>
        ensures reads { ReadsOn self.old self.new }
        ensures filled { OnOk result (least ≤ length self.new.waiting) }
        ensures works { OnOk result (self.old.failed ≡ false → self.new.failed ≡ false) }
        ensures err { IfErr result (λ error. StopsFill least self.old error self.new) }
    {
        while self.waiting.len() < least {
            if self.read()? > 0 {
                continue;
            }
            if self.waiting.is_empty() {
                return Err(LinkError::Closed);
            }
            return Err(LinkError::Frame(FrameFault::Short));
        }
        Ok(())
    }

    /// Reads until a whole frame waits, and says how long it is.
    fn collect(&mut self, alloc: Global) -> Result<usize, LinkError>
        ensures reads { ReadsOn self.old self.new }
        ensures whole { IfOk result (λ size. size ≤ length self.new.waiting) }
        ensures size { IfOk result (λ size. size_in self.new.waiting ≡ Ok size) }
        ensures works { OnOk result (self.old.failed ≡ false → self.new.failed ≡ false) }
        ensures err { IfErr result (λ error. StopsNext self.old error self.new) }
    {
        self.fill(HEAD)?;
        let size = match size_of(alloc, self.waiting.as_slice()) {
            Ok(size) => size,
            Err(fault) => return Err(LinkError::Frame(fault)),
        };
        self.fill(size)?;
        Ok(size)
    }

    /// The message of the next frame. Closed where nothing more comes. What waits stays, where memory is refused.
    pub(crate) fn next(&mut self, alloc: Global) -> Result<Message, LinkError>
        ensures ok { IfOk result (λ message. TakesFrame (left_in self.old) (left_in self.new) (payload_of message)) }
        ensures works { OnOk result (self.old.failed ≡ false → self.new.failed ≡ false) }
        ensures kept { IfErr result (λ _. Keeps (left_in self.old) (left_in self.new)) }
        ensures err { IfErr result (λ error. StopsNext self.old error self.new) }
    {
        let size = self.collect(alloc)?;
        let (frame, _) = self.waiting.as_slice().split_at(size);
        match decode(alloc, frame) {
            Ok(message) => {
                self.waiting.advance(size);
                Ok(message)
            }
            Err(fault) => Err(LinkError::of(fault)),
        }
    }
}
