//! The steps of an era.
ghost use Rattle.std.specs.Prelude.{◌≡◌, ◌≤◌, ◌+◌, ◌++◌, ◌∷◌, [], Some, option_copied, IfOk, OnOk, OnErr};
ghost use Rattle.geo_chunks.specs.Chunking.{most_in_chunk};
ghost use Rattle.geo_history.specs.Logging.{logged_in, last_step};
ghost use Rattle.geo_history.specs.Sizes.{kept_bytes};

use crate::step::Step;
use geo_chunks::Chunks;
use http_server::Log as Traces;
use std::alloc::{AllocError, Global};
use std::marker::Model;

/// Steps that proofs alone have, for they were not logged, but for the last.
#[derive(Drop)]
pub struct Unlogged {
    pub(crate) steps: Traces<(), Step>,
    /// For how many more steps room was asked for.
    pub(crate) room: usize,
    pub(crate) last: Option<Step>,
}

/// Keeps a step, and lets go of the one before it.
fn keep(last: &mut Option<Step>, step: Step)
    ensures { last.new ≡ Some step }
{
    *last = Some(step);
}

/// The steps of an era, logged or not, and how many bytes those keep that are logged. Contracts see the steps, for how many more there
/// is room, and whether they are logged.
#[derive(Drop)]
pub struct Log {
    /// The steps, where they are logged, and else none.
    steps: Chunks<Step>,
    bytes: u64,
    unlogged: Option<Unlogged>,
}

impl Model for Log {
    ghost use Rattle.geo_history.specs.Logging.{LogView, log_view, IsLogged};

    ghost Value = { LogView };

    ghost view = { λ l. log_view l.steps l.unlogged };

    ghost invariant = { λ l. IsLogged l.steps.items l.bytes l.unlogged };
}

impl Log {
    /// No steps yet, with room for some where they are logged.
    pub fn new(alloc: Global, logged: bool) -> Result<Log, AllocError>
        ensures items { IfOk result (λ log. log.items ≡ []) }
        ensures logged { IfOk result (λ log. log.logged ≡ logged) }
    {
        let steps = Chunks::new(alloc)?;
        let bytes = 0;
        if logged {
            return Ok(Log {
                steps,
                bytes,
                unlogged: None,
            });
        }
        let unlogged = Unlogged {
            steps: Traces::new(),
            room: 0,
            last: None,
        };
        Ok(Log {
            steps,
            bytes,
            unlogged: Some(unlogged),
        })
    }

    /// Whether the steps are logged.
    pub fn is_logged(&self) -> bool
        ensures { result ≡ self.now.logged }
    {
        self.unlogged.is_none()
    }

    /// Makes room for so many steps more, at most 256. It wants no memory where they aren't logged.
    pub fn ready(&mut self, count: usize) -> Result<(), AllocError>
        requires { count ≤ most_in_chunk }
        ensures items { self.new.items ≡ self.old.items }
        ensures logged { self.new.logged ≡ self.old.logged }
        ensures ok { OnOk result (count ≤ self.new.room) }
        ensures err { OnErr result (self.new.room ≡ self.old.room) }
    {
        match &mut self.unlogged {
            Some(unlogged) => {
                unlogged.room = count;
                Ok(())
            }
            None => self.steps.ready(count),
        }
    }

    /// Appends a step, for which there is room.
    pub fn push(&mut self, step: Step)
        requires { 1 ≤ self.old.room }
        ensures items { self.new.items ≡ self.old.items ++ step ∷ [] }
        ensures logged { self.new.logged ≡ self.old.logged }
        ensures room { self.new.room + 1 ≡ self.old.room }
    {
        match &mut self.unlogged {
            Some(unlogged) => {
                unlogged.steps = unlogged.steps.and(&(), &step);
                unlogged.room -= 1;
                keep(&mut unlogged.last, step);
            }
            None => {
                let bytes = self.bytes.saturating_add(step.bytes());
                self.bytes = bytes;
                self.steps.push(step);
            }
        }
    }

    /// The last step, if there is one, logged or not.
    pub fn last(&self) -> Option<&Step>
        ensures { option_copied result ≡ last_step self.now.items }
    {
        match &self.unlogged {
            Some(unlogged) => unlogged.last.as_ref(),
            None => {
                let place = self.steps.len().checked_sub(1)?;
                self.steps.get(place)
            }
        }
    }

    /// How many bytes the steps keep that are logged.
    pub fn bytes(&self) -> u64
        ensures { result ≡ kept_bytes (logged_in self.now) }
    {
        self.bytes
    }

    /// The steps that are logged.
    pub fn steps(&self) -> &Chunks<Step>
        ensures { result.now.items ≡ logged_in self.now }
    {
        &self.steps
    }

    /// The steps that are logged, which are counted no longer.
    pub fn into_steps(self) -> Chunks<Step>
        ensures { result.items ≡ logged_in self }
    {
        let Log { steps, .. } = self;
        steps
    }
}
