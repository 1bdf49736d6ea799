//! The calls that a seat keeps.
ghost use Rattle.std.specs.Prelude.{◌≡◌, ◌<◌, [], true, false, OnOk, IfOk, IfSome, IfNone, vec_len, vec_capacity};
ghost use Rattle.geo_station.specs.Seats.{call_of, calls_bytes, is_long, kept_with};

use crate::call::Call;
use geo_history::{answer_bytes, event_bytes};
use geo_lattice::Twin;
use geo_requests::Request;
use geo_site::{Answer, Event};
use std::alloc::{AllocError, Global};

/// So many calls are let go of when a seat is trimmed.
const MOST_KEPT: usize = 1024;

/// So many bytes of calls are let go of when a seat is trimmed: 4 MiB.
const MOST_KEPT_BYTES: u64 = 4_194_304;

/// What stands for a call, with keys of up to 24 bytes.
const CALL_SIZE: u64 = 320;

/// The calls that a seat keeps, and how many bytes they keep. Where they aren't logged it keeps none.
#[derive(Drop)]
pub(crate) struct Calls {
    pub(crate) list: Vec<Call>,
    bytes: u64,
    pub(crate) logged: bool,
    ghost counted: { bytes ≡ calls_bytes list.items },
}

impl Calls {
    /// None yet. It takes no memory.
    pub(crate) fn new(alloc: Global, logged: bool) -> Calls
        ensures items { result.list.items ≡ [] }
        ensures logged { result.logged ≡ logged }
    {
        Calls {
            list: Vec::new(alloc),
            bytes: 0,
            logged,
        }
    }

    /// Makes room for one more, where they are logged.
    pub(crate) fn reserve(&mut self) -> Result<(), AllocError>
        ensures items { self.new.list.items ≡ self.old.list.items }
        ensures logged { self.new.logged ≡ self.old.logged }
        ensures ok { OnOk result (self.new.logged ≡ true → vec_len self.new.list < vec_capacity self.new.list) }
    {
        if !self.logged {
            return Ok(());
        }
        self.list.reserve(1)
    }

    /// A copy of a request that is to be kept, where calls are logged.
    pub(crate) fn copy(
        &self,
        alloc: Global,
        request: &Request,
    ) -> Result<Option<Request>, AllocError>
        ensures some { IfOk result (λ copy. IfSome copy (λ c. c ≡ request.now)) }
        ensures none { IfOk result (λ copy. IfNone copy (self.now.logged ≡ false)) }
    {
        if !self.logged {
            return Ok(None);
        }
        Ok(Some(request.twin(alloc)?))
    }

    /// Keeps a call, for which there is room, where calls are logged.
    pub(crate) fn keep(&mut self, event: Event, answer: Answer)
        requires { self.old.logged ≡ true → vec_len self.old.list < vec_capacity self.old.list }
        ensures items { self.new.list.items ≡ kept_with self.old.logged self.old.list.items (call_of event answer) }
        ensures logged { self.new.logged ≡ self.old.logged }
    {
        if !self.logged {
            return;
        }
        let sized = self.bytes.saturating_add(CALL_SIZE);
        let asked = sized.saturating_add(event_bytes(&event));
        let all = asked.saturating_add(answer_bytes(&answer));
        self.bytes = all;
        self.list.push_reserved(Call { event, answer });
    }

    /// The calls.
    pub(crate) fn as_slice(&self) -> &[Call]
        ensures { result.now ≡ self.now.list.items }
    {
        self.list.as_slice()
    }

    /// Whether they are so many, or keep so many bytes, that a seat lets go of them when it is trimmed.
    pub(crate) fn is_long(&self) -> bool
        ensures { result ≡ is_long self.now.list.items }
    {
        self.list.len() >= MOST_KEPT || self.bytes >= MOST_KEPT_BYTES
    }

    /// Lets go of them.
    pub(crate) fn clear(&mut self)
        ensures items { self.new.list.items ≡ [] }
        ensures logged { self.new.logged ≡ self.old.logged }
    {
        self.list.clear();
        self.bytes = 0;
    }
}
