//! Connections that never wait.
ghost use Rattle.std.specs.Prelude.{◌≡◌, ℕ, List, Option, None};
ghost use Rattle.geo_socket.specs.declared.stream.Given.{Given};
ghost use Rattle.geo_socket.specs.declared.stream.Accepted.{Accepted};
ghost use Rattle.geo_socket.specs.Streams.{Gives, Accepts, Was};

/// What a read gives.
#[derive(Clone, Copy, Debug, PartialEq, Eq)]
pub enum Given {
    /// So many bytes, at the front of the buffer; at least one.
    Bytes(usize),
    /// Nothing is there now.
    Later,
    /// Nothing more comes.
    End,
    /// The connection has failed.
    Failed,
}

/// What a write takes.
#[derive(Clone, Copy, Debug, PartialEq, Eq)]
pub enum Accepted {
    /// So many bytes, from the front; at least one.
    Bytes(usize),
    /// There is no room now.
    Later,
    /// The connection has failed.
    Failed,
}

/// A connection that never waits.
pub trait Stream {
    // What reads will give, where that is known.
    ghost remaining: { Self → Option (List ℕ) };

    // What writes have taken, where that is known.
    ghost contents: { Self → Option (List ℕ) };

    // What the last read gave, where that is known.
    ghost last_given: { Self → Option Given } = { λ _. None };

    // What the last write told, where that is known.
    ghost last_accepted: { Self → Option Accepted } = { λ _. None };

    /// Reads what is there, as far as the buffer has room.
    fn read(&mut self, buffer: &mut [u8]) -> Given
        ensures gives { Gives (remaining self.old) (remaining self.new) buffer.new result }
        ensures given { Was (last_given self.new) result }
        ensures stays { contents self.new ≡ contents self.old }
        ensures last { last_accepted self.new ≡ last_accepted self.old };

    /// Writes bytes, of which there are some, as far as there is room.
    fn write(&mut self, bytes: &[u8]) -> Accepted
        ensures accepts { Accepts (contents self.old) (contents self.new) bytes.now result }
        ensures accepted { Was (last_accepted self.new) result }
        ensures stays { remaining self.new ≡ remaining self.old }
        ensures last { last_given self.new ≡ last_given self.old };
}
