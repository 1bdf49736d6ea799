//! What is decided of one key.
ghost use Rattle.std.specs.Prelude.{◌≡◌};
ghost use Rattle.geo_memcache.specs.Decisions.{decision_of};
ghost use Rattle.geo_memcache.specs.declared.decision.Effect.TheVariants as effect;

use geo_requests::{Reply, ValueBytes};

/// What is answered for one key.
#[derive(Drop)]
pub enum Answer {
    /// The reply to the whole request, which has but this key.
    Reply(Reply),
    /// A fetch found it.
    Hit,
    /// A fetch did not find it.
    Miss,
}

/// What becomes of the entry.
#[derive(Drop)]
pub enum Effect {
    /// It stays as it is.
    Nothing,
    /// The bytes of the request are written.
    Keep {
        flags: u32,
        expiry: u64,
    },
    /// These bytes are written.
    Made {
        bytes: ValueBytes,
        flags: u32,
        expiry: u64,
    },
    /// It gets another expiry.
    Renew {
        expiry: u64,
    },
    /// It is deleted.
    Tomb,
}

/// An answer, and what becomes of the entry.
#[derive(Drop)]
pub struct Decision {
    pub answer: Answer,
    pub effect: Effect,
}

impl Decision {
    /// A reply that leaves the entry as it is.
    pub(crate) fn only(reply: Reply) -> Decision
        ensures { result ≡ decision_of (reply, effect.Nothing) }
    {
        Decision {
            answer: Answer::Reply(reply),
            effect: Effect::Nothing,
        }
    }
}
