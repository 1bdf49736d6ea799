//! The client of a site: the bytes that it sends, and its answers.
ghost use Rattle.std.specs.Prelude.{◌≡◌, ◌≢◌, ◌≤◌, ◌∷◌, ◌++◌, [], IfErr, IfOk, OnOk};
ghost use Rattle.geo_grammar.specs.Replies.{answer_bytes};
ghost use Rattle.geo_requests.specs.declared.reply.Reply.TheVariants.{OutOfMemory};
ghost use Rattle.geo_grammar.specs.declared.item.Item.TheVariants as item;
ghost use Rattle.geo_cluster.specs.Sayings.{SaysClient};
ghost use Rattle.geo_cluster.specs.Standing.{AnswersFor, LineDoes};
ghost use Rattle.geo_cluster.specs.Wants.{WantsFor};

use crate::script::cluster::Cluster;
use crate::script::texts::answer_line;
use geo_grammar::{Item, fault_text, push_answer};
use geo_requests::{Reply, Request};
use geo_world::{Event, Trace};
use std::alloc::{AllocError, Global};

/// Appends the answer to a request. Want of memory is an error, and never an answer.
fn push_reply(answer: &mut Vec<u8>, request: &Request, reply: &Reply) -> Result<(), AllocError>
    ensures { OnOk result ((reply.now ≢ OutOfMemory) × (answer.new.items ≡ answer.old.items ++ answer_bytes request.now reply.now)) }
{
    match reply {
        Reply::OutOfMemory => Err(AllocError),
        _ => push_answer(answer, request, reply),
    }
}

impl Cluster {
    /// A request is a command, to which the answer is appended. Whether there is such a site.
    fn command(
        &mut self,
        alloc: Global,
        site: u8,
        request: Request,
        answer: &mut Vec<u8>,
    ) -> Result<bool, AllocError>
        ensures { IfOk result
            (λ there. AnswersFor self.old site (item.Request request ∷ []) answer.old.items there answer.new.items self.new) }
    {
        let event = Event::Command {
            site,
            now: self.moment,
            request,
        };
        let Some(Trace::Replied(reply, _)) = self.step(alloc, &event)? else {
            return Ok(false);
        };
        let Event::Command { request, .. } = &event else {
            return Ok(false);
        };
        push_reply(answer, request, &reply)?;
        Ok(true)
    }

    /// Appends what a site answers to an item. Whether there is such a site.
    fn answer(
        &mut self,
        alloc: Global,
        site: u8,
        item: Item,
        answer: &mut Vec<u8>,
    ) -> Result<bool, AllocError>
        ensures { IfOk result (λ there. AnswersFor self.old site (item ∷ []) answer.old.items there answer.new.items self.new) }
    {
        match item {
            Item::Request(request) => self.command(alloc, site, request, answer),
            Item::Fault(fault) => {
                answer.extend_from_slice(fault_text(fault))?;
                Ok(true)
            }
        }
    }

    /// Appends what a site answers to items, one after the other. Whether there is such a site.
    fn answer_all(
        &mut self,
        alloc: Global,
        site: u8,
        items: Vec<Item>,
        answer: &mut Vec<u8>,
    ) -> Result<bool, AllocError>
        ensures { IfOk result (λ there. AnswersFor self.old site items.items answer.old.items there answer.new.items self.new) }
    {
        for item in items {
            if !self.answer(alloc, site, item, answer)? {
                return Ok(false);
            }
        }
        Ok(true)
    }

    /// What a site's client gets for these bytes. None where there is no such site.
    pub fn feed(
        &mut self,
        alloc: Global,
        site: u8,
        bytes: &[u8],
    ) -> Result<Option<Vec<u8>>, AllocError>
        requires { 1 ≤ site }
        ensures does { IfOk result (λ o. LineDoes self.old (SaysClient site bytes.now) o self.new) }
        ensures wants { IfErr result (λ _. WantsFor self.old (SaysClient site bytes.now)) }
    {
        let at = site as usize - 1;
        if at >= self.connections.len() {
            return Ok(None);
        }
        let items = self.connections[at].feed(alloc, bytes)?;
        let mut answer = Vec::new(alloc);
        if !self.answer_all(alloc, site, items, &mut answer)? {
            return Ok(None);
        }
        Ok(Some(answer_line(alloc, site, answer.as_slice())?))
    }
}
