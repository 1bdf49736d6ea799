//! What answers the requests of a session.
ghost use Rattle.std.specs.Prelude.{◌≡◌, IfSome, IfNone};
ghost use Rattle.geo_requests.specs.declared.reply.Reply.{Reply};
ghost use Rattle.geo_requests.specs.declared.request.Request.{Request};

use geo_requests::{Reply, Request};
use std::alloc::Global;
use std::rt::Clock;
use std::sync::Wait;

/// What answers the requests of a session, one after the other. A session's answers are those of one run of it.
pub trait Backend {
    // From the first state the request is answered by the reply, and the second state is left.
    ghost answers: { Self → Request → Reply → Self → Type 0 };

    // From the first state the request gets no answer, and the second state is left.
    ghost refuses: { Self → Request → Self → Type 0 };

    /// Answers a request. None where this backend may give no more answers; the session ends then. Want of memory is an answer.
    fn act<R: Wait + Clock>(&mut self, rt: &R, alloc: Global, request: Request) -> Option<Reply>
        ensures some { IfSome result (λ reply. answers self.old request reply self.new) }
        ensures none { IfNone result (refuses self.old request self.new) };

    /// Answers a request as [`Backend::act`] does, and may keep what it asks to itself until [`Backend::rest`], so that nobody comes between
    /// this request and the next.
    fn act_on<R: Wait + Clock>(&mut self, rt: &R, alloc: Global, request: Request) -> Option<Reply>
        ensures some { IfSome result (λ reply. answers self.old request reply self.new) }
        ensures none { IfNone result (refuses self.old request self.new) }
    {
        self.act(rt, alloc, request)
    }

    /// Keeps nothing to itself any more.
    fn rest(&mut self)
        ensures { self.new ≡ self.old }
    {}
}
