//! What tells which connections are ready.
ghost use Rattle.std.specs.Prelude.{◌≡◌, List};

/// A connection that can be read, or written, or both.
#[derive(Clone, Copy, Debug, PartialEq, Eq)]
pub struct Ready {
    /// Its number.
    pub number: usize,
    pub readable: bool,
    pub writable: bool,
    /// Its client has sent all, which is told once.
    pub ending: bool,
}

/// What tells a thread which of its connections are ready: the system's sockets, or a list in memory. It may tell of a connection twice,
/// of one that isn't ready, and of one that has gone.
pub trait Polling {
    ghost use Rattle.geo_crowd.specs.declared.polling.Ready.{Ready};

    // Those that were ready when the last wait ended.
    ghost told: { Self → List Ready };

    /// Waits until some connection is ready, or for nothing where others can go on at once.
    fn wait(&mut self, at_once: bool);

    /// Those that were ready when the last wait ended.
    fn ready(&self) -> &[Ready]
        ensures { result.now ≡ told self.now };
}
