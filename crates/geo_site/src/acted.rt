//! What a command leaves beside its reply.
ghost use Rattle.std.specs.Prelude.{◌≡◌, ◌≢◌, [], true, None, IfOk, IfErr};
ghost use Rattle.geo_requests.specs.Replies.{is_short};
ghost use Rattle.geo_requests.specs.declared.reply.Reply.TheVariants.{Values, OutOfMemory};
ghost use Rattle.geo_site.specs.Sites.{twice, TellsPlain};

use geo_lattice::Twin;
use geo_requests::{Found, Reply, Shared};
use geo_versions::{Digest, Key};
use std::alloc::{AllocError, Global};

/// What came of a command, and what is told beside its reply.
#[derive(Drop)]
pub struct Acted {
    /// The reply, which may be a refusal, but for want of memory.
    pub reply: Reply,
    /// The reply twice more, where that was wanted.
    pub copies: Option<(Reply, Reply)>,
    /// The key whose bytes were evicted for what the command stored, if any.
    pub victim: Option<Key>,
    /// The SHA-256, and the length in bytes, of what the command made of older bytes and stored (append, prepend, incr, decr).
    pub made: Option<(Digest, u32)>,
}

/// What is told of an effect beside the reply.
#[derive(Drop)]
pub(crate) struct Beside {
    pub(crate) victim: Option<Key>,
    pub(crate) made: Option<(Digest, u32)>,
}

impl Beside {
    /// Nothing was stored.
    pub(crate) fn nothing() -> Beside
        ensures victim { result.victim ≡ None }
        ensures made { result.made ≡ None }
    {
        Beside {
            victim: None,
            made: None,
        }
    }
}

/// A reply that shows no values twice more, where that is wanted. It takes no memory.
fn twice_short(with_copies: bool, reply: &Reply) -> Option<(Reply, Reply)>
    requires short { is_short reply.now ≡ true }
    ensures { result ≡ twice with_copies reply.now }
{
    if !with_copies {
        return None;
    }
    match (reply.short_copy(), reply.short_copy()) {
        (Some(one), Some(two)) => Some((one, two)),
        _ => unreachable!(),
    }
}

/// The same values once more, which share the memory. Where there is none it takes none.
fn once_more(alloc: Global, found: &Shared<Found>) -> Result<Shared<Found>, AllocError>
    ensures same { IfOk result (λ copy. copy ≡ found.now) }
    ensures memory { IfErr result (λ _. found.now ≢ []) }
{
    if found.as_slice().is_empty() {
        return match Shared::of(alloc, Vec::new(alloc)) {
            Ok(none) => Ok(none),
            Err(_) => unreachable!(),
        };
    }
    found.twin(alloc)
}

/// A reply that shows these values twice more, where that is wanted. All share the values.
pub(crate) fn twice_values(
    alloc: Global,
    with_copies: bool,
    found: &Shared<Found>,
) -> Result<Option<(Reply, Reply)>, AllocError>
    ensures copies { IfOk result (λ copies. copies ≡ twice with_copies (Values found.now)) }
    ensures memory { IfErr result (λ _. found.now ≢ []) }
{
    if !with_copies {
        return Ok(None);
    }
    let (one, two) = (once_more(alloc, found)?, once_more(alloc, found)?);
    Ok(Some((Reply::Values(one), Reply::Values(two))))
}

impl Acted {
    /// A reply that shows no values, with what is told of its effect.
    pub(crate) fn short(reply: Reply, beside: Beside, with_copies: bool) -> Acted
        requires short { is_short reply ≡ true }
        ensures reply { result.reply ≡ reply }
        ensures copies { result.copies ≡ twice with_copies reply }
        ensures victim { result.victim ≡ beside.victim }
        ensures made { result.made ≡ beside.made }
    {
        let copies = twice_short(with_copies, &reply);
        let Beside { victim, made } = beside;
        Acted {
            reply,
            copies,
            victim,
            made,
        }
    }

    /// A reply that shows no values to a request that stores nothing.
    pub(crate) fn plain(reply: Reply, with_copies: bool) -> Acted
        requires short { is_short reply ≡ true }
        requires said { reply ≡ OutOfMemory → ⊥ }
        ensures reply { result.reply ≡ reply }
        ensures told { TellsPlain with_copies result }
    {
        Acted::short(reply, Beside::nothing(), with_copies)
    }

    /// A reply that shows values.
    pub(crate) fn values(found: Shared<Found>, copies: Option<(Reply, Reply)>) -> Acted
        ensures reply { result.reply ≡ Values found }
        ensures copies { result.copies ≡ copies }
        ensures victim { result.victim ≡ None }
        ensures made { result.made ≡ None }
    {
        Acted {
            reply: Reply::Values(found),
            copies,
            victim: None,
            made: None,
        }
    }
}
