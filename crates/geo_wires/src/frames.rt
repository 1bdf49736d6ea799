//! Frames out of bytes as they come.
ghost use Rattle.std.specs.Prelude.{IfOk, IfSome};
ghost use Rattle.geo_wires.specs.Roads.{TakesFirst};

use bytes::BytesMut;
use geo_frame::{FrameFault, Message, decode, wanted};
use std::alloc::Global;

/// The bytes by which a frame's length is known.
const HEAD: usize = 9;

/// What came and no frame has taken. Room is made by what came, never by what a length field says.
#[derive(Drop)]
pub(crate) struct Frames {
    pub(crate) waiting: BytesMut<Global>,
}

impl Frames {
    pub(crate) fn new(alloc: Global) -> Frames {
        Frames {
            waiting: BytesMut::new(alloc),
        }
    }

    /// Whether nothing waits.
    pub(crate) fn is_empty(&self) -> bool {
        self.waiting.is_empty()
    }

    /// How many bytes the next frame has, once they are known.
    fn size(&self, alloc: Global) -> Result<Option<usize>, FrameFault> {
        let bytes = self.waiting.as_slice();
        if bytes.len() < HEAD {
            return Ok(None);
        }
        let (head, _) = bytes.split_at(HEAD);
        match decode(alloc, head) {
            Err(FrameFault::Short) => Ok(wanted(head)),
            Err(fault) => Err(fault),
            Ok(_) => Ok(None),
        }
    }

    /// The message of the next frame, if all of it has come.
    pub(crate) fn next(&mut self, alloc: Global) -> Result<Option<Message>, FrameFault>
        ensures { IfOk result (λ next. IfSome next (λ message. TakesFirst self.old.waiting.items self.new.waiting.items message)) }
    {
        let Some(size) = self.size(alloc)? else {
            return Ok(None);
        };
        if self.waiting.len() < size {
            return Ok(None);
        }
        let (frame, _) = self.waiting.as_slice().split_at(size);
        let message = decode(alloc, frame)?;
        self.waiting.advance(size);
        Ok(Some(message))
    }
}
