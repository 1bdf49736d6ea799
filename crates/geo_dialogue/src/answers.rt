//! The answers to what one read brought.
ghost use Rattle.std.specs.Prelude.{◌≡◌, ◌+◌, [], min, MatchBool, IfOk, IfErr, IfSome, IfNone};
ghost use Rattle.geo_requests.specs.Limits.{most_number};

use crate::backend::Backend;
use crate::gate::Gate;
use geo_grammar::{Item, Telling, begin_reply, fault_text, push_reply};
use geo_requests::{Reply, Request};
use std::alloc::{AllocError, Global};
use std::rt::Clock;
use std::sync::Wait;

/// How many bytes of memory a session keeps for its answers while none are owed.
const MOST_KEPT: usize = 1_048_576;

/// How far the items of a piece were answered.
#[derive(Clone, Copy)]
pub enum Course {
    /// All of them, and none asked for the end.
    Open,
    /// Up to the first that asked for the end.
    Quits,
    /// Up to the first that the backend did not answer.
    Spent,
}

/// How far an item is answered.
#[derive(Drop)]
pub enum Begun {
    /// The text of the answer is rendered.
    Whole,
    /// The reply shows several values, which are still to be told.
    Part(Telling),
    /// The backend gives no answer.
    Refused,
}

/// One more, as far as 64 bits go.
fn one_more(count: u64) -> u64
    ensures { result ≡ min (count + 1) most_number }
{
    if count == u64::MAX { count } else { count + 1 }
}

/// Has a request answered. Where the gate never waits the backend may keep to itself what it asks.
fn ask<R: Wait + Clock, B: Backend, G: Gate>(
    rt: &R,
    alloc: Global,
    backend: &mut B,
    gate: &G,
    request: Request,
) -> Option<Reply>
    ensures some { IfSome result (λ reply. B.answers backend.old request reply backend.new) }
    ensures none { IfNone result (B.refuses backend.old request backend.new) }
{
    if gate.is_open() {
        backend.act_on(rt, alloc, request)
    } else {
        backend.act(rt, alloc, request)
    }
}

/// Answers that wait to be written, and how often the backend has answered in this session.
#[derive(Drop)]
pub struct Answers {
    pub text: Vec<u8>,
    pub calls: u64,
}

impl Answers {
    ghost use Rattle.geo_dialogue.specs.Batches.{Adds, Begins, AnswersItem, LosesAnswer, RefusesItem, AnswersItems, LosesAnswers};

    /// No answers, in a session without any.
    pub fn new(alloc: Global) -> Answers
        ensures text { result.text.items ≡ [] }
        ensures calls { result.calls ≡ 0 }
    {
        Answers {
            text: Vec::new(alloc),
            calls: 0,
        }
    }

    /// Lets go of the text. The memory of a long one is given back.
    pub fn restart(&mut self, alloc: Global)
        ensures text { self.new.text.items ≡ [] }
        ensures calls { self.new.calls ≡ self.old.calls }
    {
        if self.text.capacity() > MOST_KEPT {
            self.text = Vec::new(alloc);
        } else {
            self.text.clear();
        }
    }

    /// Has a request answered, and appends the answer where the client wants it. False where the backend gives none.
    fn answer_request<R: Wait + Clock, B: Backend, G: Gate>(
        &mut self,
        rt: &R,
        alloc: Global,
        backend: &mut B,
        gate: &G,
        request: Request,
    ) -> Result<bool, AllocError>
        ensures ok { IfOk result (λ done. MatchBool done (AnswersItem B.answers (Item.Request request) backend.old backend.new self.old
            self.new) (RefusesItem B.refuses (Item.Request request) backend.old backend.new self.old self.new)) }
        ensures err { IfErr result (λ _. LosesAnswer B.answers (Item.Request request) backend.old backend.new self.old self.new) }
    {
        let quiet = request.is_noreply();
        let Some(reply) = backend.act(rt, alloc, request) else {
            return Ok(false);
        };
        self.calls = one_more(self.calls);
        gate.pass(rt, self.calls);
        if !quiet {
            push_reply(&mut self.text, &reply)?;
        }
        Ok(true)
    }

    /// Answers an item. False where the backend gives no answer.
    fn answer_item<R: Wait + Clock, B: Backend, G: Gate>(
        &mut self,
        rt: &R,
        alloc: Global,
        backend: &mut B,
        gate: &G,
        item: Item,
    ) -> Result<bool, AllocError>
        ensures ok { IfOk result (λ done. MatchBool done (AnswersItem B.answers item backend.old backend.new self.old self.new)
            (RefusesItem B.refuses item backend.old backend.new self.old self.new)) }
        ensures err { IfErr result (λ _. LosesAnswer B.answers item backend.old backend.new self.old self.new) }
    {
        match item {
            Item::Request(request) => self.answer_request(rt, alloc, backend, gate, request),
            Item::Fault(fault) => {
                self.text.extend_from_slice(fault_text(fault))?;
                Ok(true)
            }
        }
    }

    /// Has a request answered, and begins its answer where the client wants it.
    fn begin_request<R: Wait + Clock, B: Backend, G: Gate>(
        &mut self,
        rt: &R,
        alloc: Global,
        backend: &mut B,
        gate: &G,
        request: Request,
    ) -> Result<Begun, AllocError>
        ensures ok { IfOk result (λ begun. Begins B.answers B.refuses begun (Item.Request request) backend.old backend.new self.old self.new) }
        ensures err { IfErr result (λ _. LosesAnswer B.answers (Item.Request request) backend.old backend.new self.old self.new) }
    {
        let is_quiet = request.is_noreply();
        let Some(reply) = ask(rt, alloc, backend, gate, request) else {
            return Ok(Begun::Refused);
        };
        let calls = one_more(self.calls);
        self.calls = calls;
        gate.pass(rt, calls);
        if is_quiet {
            return Ok(Begun::Whole);
        }
        match begin_reply(&mut self.text, reply)? {
            Some(telling) => Ok(Begun::Part(telling)),
            None => Ok(Begun::Whole),
        }
    }

    /// Answers an item, or begins to where the answer shows several values.
    pub fn begin_item<R: Wait + Clock, B: Backend, G: Gate>(
        &mut self,
        rt: &R,
        alloc: Global,
        backend: &mut B,
        gate: &G,
        item: Item,
    ) -> Result<Begun, AllocError>
        ensures ok { IfOk result (λ begun. Begins B.answers B.refuses begun item backend.old backend.new self.old self.new) }
        ensures err { IfErr result (λ _. LosesAnswer B.answers item backend.old backend.new self.old self.new) }
    {
        match item {
            Item::Request(request) => self.begin_request(rt, alloc, backend, gate, request),
            Item::Fault(fault) => {
                let told = fault_text(fault);
                self.text.extend_from_slice(told)?;
                Ok(Begun::Whole)
            }
        }
    }

    /// Answers items, one after the other, up to the first that asks for the end or that the backend does not answer.
    pub fn answer_items<R: Wait + Clock, B: Backend, G: Gate>(
        &mut self,
        rt: &R,
        alloc: Global,
        backend: &mut B,
        gate: &G,
        items: Vec<Item>,
    ) -> Result<Course, AllocError>
        ensures ok { IfOk result (λ course. AnswersItems B.answers B.refuses course items.items backend.old backend.new self.old self.new) }
        ensures err { IfErr result (λ _. LosesAnswers B.answers items.items backend.old backend.new self.old self.new) }
    {
        for item in items {
            let quits = item.is_quit();
            if !self.answer_item(rt, alloc, backend, gate, item)? {
                return Ok(Course::Spent);
            }
            if quits {
                return Ok(Course::Quits);
            }
        }
        Ok(Course::Open)
    }
}
