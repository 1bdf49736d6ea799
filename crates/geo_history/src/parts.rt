//! What a site with its history is made of. A call leaves these parts for a while without the link that a whole `Kept` has.
ghost use Rattle.std.specs.Prelude.{◌≡◌, ◌≢◌, ◌≤◌, ◌<◌, ◌+◌, ◌^◌, ◌∷◌, ◌++◌, [], ℕ, true, IfOk, IfSome, List, length, slice_index_or};
ghost use Rattle.geo_slabs.specs.Storage.{class_count};
ghost use Rattle.geo_site.specs.Fills.{FillDoes};
ghost use Rattle.geo_site.specs.Sites.{FlushDoes, Rests, Stays};
ghost use Rattle.geo_history.specs.Keeping.{most_steps, most_seats, made_in, IsCounted, step_with, step_of, is_flush_due, flush_count, flush_steps, story_of, ActForDoes, SendForDoes, TakeForDoes, RemoveForDoes, EvictForDoes, FillForDoes, RetireForDoes, TickForDoes, ReapForDoes, JuggleForDoes};

use crate::history::{History, Opening};
use crate::log::Log;
use crate::step::Step;
use geo_delta::Parcel;
use geo_lattice::Twin;
use geo_requests::{Reply, Request, ValueBytes};
use geo_site::{
    Acted, Answer, BoxedParcel, Event, Filled, ReapError, Refused, RetireError, SendError, Setup,
    Site, TakeError, Taken,
};
use geo_values::Blob;
use geo_versions::{Digest, Key};
use std::alloc::{AllocError, Global};
use std::mem;

/// The parts.
#[derive(Drop)]
pub struct Parts {
    pub(crate) site: Site,
    pub(crate) setup: Setup,
    pub(crate) opening: Opening,
    pub(crate) steps: Log,
    /// How many steps each seat has made.
    pub(crate) counts: Vec<u64>,
}

/// Offers a site bytes of a key.
fn fill_site(
    site: &mut Site,
    alloc: Global,
    key: &Key,
    bytes: &ValueBytes,
) -> Result<Filled, AllocError>
    ensures { FillDoes site.old site.new key.now bytes.now result }
{
    let blob = Blob::known(bytes.as_slice(), bytes.digest());
    site.fill(alloc, key, &blob)
}

impl Parts {
    /// Appends a seat's next step, for which there is room.
    fn append(
        &mut self,
        seat: u8,
        event: Event,
        answer: Answer,
        victim: Option<Key>,
        made: Option<(Digest, u32)>,
    )
        requires room { 1 ≤ self.old.steps.room }
        requires counted { IsCounted self.old.opening self.old.steps.items self.old.counts.items }
        requires left { made_in self.old.opening self.old.steps.items seat < most_steps }
        ensures site { self.new.site ≡ self.old.site }
        ensures setup { self.new.setup ≡ self.old.setup }
        ensures logged { self.new.steps.logged ≡ self.old.steps.logged }
        ensures opening { self.new.opening ≡ self.old.opening }
        ensures steps { self.new.steps.items ≡ self.old.steps.items
            ++ step_with seat (made_in self.old.opening self.old.steps.items seat + 1) event answer victim made ∷ [] }
        ensures counted { IsCounted self.new.opening self.new.steps.items self.new.counts.items }
        ensures room { self.new.steps.room + 1 ≡ self.old.steps.room }
    {
        let number = self.counts[seat as usize] + 1;
        self.counts[seat as usize] = number;
        self.steps.push(Step {
            seat,
            number,
            event,
            answer,
            victim,
            made,
        });
    }

    /// Carries out a flush that is due, as a step of its own, for which there is room, and tells whether there was one.
    fn flush_due(&mut self, seat: u8, now: u64) -> bool
        requires room { 1 ≤ self.old.steps.room }
        requires counted { IsCounted self.old.opening self.old.steps.items self.old.counts.items }
        requires left { made_in self.old.opening self.old.steps.items seat + flush_count (story_of self.old) now ≤ most_steps }
        ensures told { result ≡ is_flush_due (story_of self.old) now }
        ensures flush { FlushDoes self.old.site self.new.site now }
        ensures setup { self.new.setup ≡ self.old.setup }
        ensures logged { self.new.steps.logged ≡ self.old.steps.logged }
        ensures opening { self.new.opening ≡ self.old.opening }
        ensures steps { self.new.steps.items ≡ self.old.steps.items ++ flush_steps (story_of self.old) seat now }
        ensures counted { IsCounted self.new.opening self.new.steps.items self.new.counts.items }
        ensures room { self.new.steps.room + flush_count (story_of self.old) now ≡ self.old.steps.room }
    {
        if !self.site.tick(now) {
            return false;
        }
        self.append(seat, Event::Tick { now }, Answer::Ticked(true), None, None);
        true
    }

    /// Answers a request, after a step for a due flush.
    pub(crate) fn act_for(
        &mut self,
        alloc: Global,
        seat: u8,
        now: u64,
        mut request: Request,
    ) -> Result<(Reply, Reply), AllocError>
        requires moment { now ≤ 2 ^ 40 }
        requires counted { IsCounted self.old.opening self.old.steps.items self.old.counts.items }
        requires left { made_in self.old.opening self.old.steps.items seat + flush_count (story_of self.old) now + 1 ≤ most_steps }
        ensures does { ActForDoes (story_of self.old) (story_of self.new) seat now request result }
        ensures setup { self.new.setup ≡ self.old.setup }
        ensures logged { self.new.steps.logged ≡ self.old.steps.logged }
        ensures counted { IsCounted self.new.opening self.new.steps.items self.new.counts.items }
    {
        self.steps.ready(2)?;
        self.flush_due(seat, now);
        let acted = match self.site.act_full(alloc, now, &request, true) {
            Ok(acted) => acted,
            Err(refused) => return Err(refused),
        };
        let Acted {
            reply,
            copies,
            victim,
            made,
        } = acted;
        let Some(copies) = copies else {
            unreachable!();
        };
        request.forget_digest();
        let event = Event::Command { now, request };
        self.append(seat, event, Answer::Replied(reply), victim, made);
        Ok(copies)
    }

    /// Makes a parcel for another site.
    pub(crate) fn send_for(
        &mut self,
        alloc: Global,
        seat: u8,
        to: u8,
    ) -> Result<(Parcel, BoxedParcel), SendError>
        requires counted { IsCounted self.old.opening self.old.steps.items self.old.counts.items }
        requires left { made_in self.old.opening self.old.steps.items seat < most_steps }
        ensures does { SendForDoes (story_of self.old) (story_of self.new) seat to result }
        ensures setup { self.new.setup ≡ self.old.setup }
        ensures logged { self.new.steps.logged ≡ self.old.steps.logged }
        ensures counted { IsCounted self.new.opening self.new.steps.items self.new.counts.items }
    {
        if self.steps.ready(1).is_err() {
            return Err(SendError::Memory);
        }
        let event = Event::Send { to };
        match self.site.send(alloc, to) {
            Ok(parcel) => {
                let Ok(one) = BoxedParcel::copy_of(alloc, &parcel) else {
                    return Err(SendError::Memory);
                };
                let Ok(two) = one.shared() else {
                    return Err(SendError::Memory);
                };
                self.append(seat, event, Answer::Sent(one), None, None);
                Ok((parcel, two))
            }
            Err(SendError::Memory) => Err(SendError::Memory),
            Err(why) => {
                self.append(seat, event, Answer::SendRefused(why), None, None);
                Err(why)
            }
        }
    }

    /// Takes a parcel, of which a copy is kept.
    pub(crate) fn take_kept(
        &mut self,
        alloc: Global,
        seat: u8,
        parcel: Parcel,
        copy: BoxedParcel,
    ) -> Result<Taken, Refused>
        requires counted { IsCounted self.old.opening self.old.steps.items self.old.counts.items }
        requires left { made_in self.old.opening self.old.steps.items seat < most_steps }
        requires copy { copy ≡ parcel }
        ensures does { TakeForDoes (story_of self.old) (story_of self.new) seat parcel result }
        ensures setup { self.new.setup ≡ self.old.setup }
        ensures logged { self.new.steps.logged ≡ self.old.steps.logged }
        ensures counted { IsCounted self.new.opening self.new.steps.items self.new.counts.items }
    {
        if self.steps.ready(1).is_err() {
            let why = TakeError::Memory;
            return Err(Refused { why, parcel });
        }
        // What is told of the held values counts them.
        let _before = self.site.items();
        let refused = match self.site.take(alloc, parcel) {
            Ok(taken) => {
                let _after = self.site.items();
                let event = Event::Take { parcel: copy };
                self.append(seat, event, Answer::Taken(taken), None, None);
                return Ok(taken);
            }
            Err(refused) => refused,
        };
        let _after = self.site.items();
        let why = match refused.why {
            TakeError::Memory => return Err(refused),
            why => why,
        };
        let event = Event::Take { parcel: copy };
        self.append(seat, event, Answer::TakeRefused(why), None, None);
        Err(refused)
    }

    /// Drops what every site knows to be deleted.
    pub(crate) fn remove_for(&mut self, seat: u8) -> Result<usize, AllocError>
        requires counted { IsCounted self.old.opening self.old.steps.items self.old.counts.items }
        requires left { made_in self.old.opening self.old.steps.items seat < most_steps }
        ensures does { RemoveForDoes (story_of self.old) (story_of self.new) seat result }
        ensures setup { self.new.setup ≡ self.old.setup }
        ensures logged { self.new.steps.logged ≡ self.old.steps.logged }
        ensures counted { IsCounted self.new.opening self.new.steps.items self.new.counts.items }
    {
        self.steps.ready(1)?;
        let _before = self.site.records();
        let count = self.site.remove();
        let _after = self.site.records();
        self.append(seat, Event::Remove, Answer::Removed(count), None, None);
        Ok(count)
    }

    /// Drops the bytes of a key.
    pub(crate) fn evict_for(
        &mut self,
        alloc: Global,
        seat: u8,
        key: &Key,
    ) -> Result<bool, AllocError>
        requires counted { IsCounted self.old.opening self.old.steps.items self.old.counts.items }
        requires left { made_in self.old.opening self.old.steps.items seat < most_steps }
        ensures does { EvictForDoes (story_of self.old) (story_of self.new) seat key.now result }
        ensures setup { self.new.setup ≡ self.old.setup }
        ensures logged { self.new.steps.logged ≡ self.old.steps.logged }
        ensures counted { IsCounted self.new.opening self.new.steps.items self.new.counts.items }
    {
        self.steps.ready(1)?;
        let copy = key.twin(alloc)?;
        let done = self.site.evict(key);
        let event = Event::Evict { key: copy };
        self.append(seat, event, Answer::Evicted(done), None, None);
        Ok(done)
    }

    /// Offers the site bytes of a key, which are kept.
    pub(crate) fn fill_for(
        &mut self,
        alloc: Global,
        seat: u8,
        key: &Key,
        mut bytes: ValueBytes,
    ) -> Result<Filled, AllocError>
        requires counted { IsCounted self.old.opening self.old.steps.items self.old.counts.items }
        requires left { made_in self.old.opening self.old.steps.items seat < most_steps }
        ensures does { FillForDoes (story_of self.old) (story_of self.new) seat key.now bytes result }
        ensures setup { self.new.setup ≡ self.old.setup }
        ensures logged { self.new.steps.logged ≡ self.old.steps.logged }
        ensures counted { IsCounted self.new.opening self.new.steps.items self.new.counts.items }
    {
        self.steps.ready(1)?;
        let copy = key.twin(alloc)?;
        let filled = fill_site(&mut self.site, alloc, key, &bytes)?;
        bytes.forget_digest();
        let event = Event::Fill { key: copy, bytes };
        self.append(seat, event, Answer::Filled(filled), None, None);
        Ok(filled)
    }

    /// Holds another site for gone for good.
    pub(crate) fn retire_for(&mut self, seat: u8, other: u8) -> Result<bool, RetireError>
        requires counted { IsCounted self.old.opening self.old.steps.items self.old.counts.items }
        requires left { made_in self.old.opening self.old.steps.items seat < most_steps }
        ensures does { RetireForDoes (story_of self.old) (story_of self.new) seat other result }
        ensures setup { self.new.setup ≡ self.old.setup }
        ensures logged { self.new.steps.logged ≡ self.old.steps.logged }
        ensures counted { IsCounted self.new.opening self.new.steps.items self.new.counts.items }
    {
        if self.steps.ready(1).is_err() {
            return Err(RetireError::Memory);
        }
        let event = Event::Retire { other };
        match self.site.retire(other) {
            Ok(is_new) => {
                self.append(seat, event, Answer::Retired(is_new), None, None);
                Ok(is_new)
            }
            Err(why) => {
                self.append(seat, event, Answer::RetireRefused(why), None, None);
                Err(why)
            }
        }
    }

    /// Carries out a flush that is due, if there is one.
    pub(crate) fn tick_for(&mut self, seat: u8, now: u64) -> Result<bool, AllocError>
        requires counted { IsCounted self.old.opening self.old.steps.items self.old.counts.items }
        requires left { made_in self.old.opening self.old.steps.items seat + flush_count (story_of self.old) now ≤ most_steps }
        ensures does { TickForDoes (story_of self.old) (story_of self.new) seat now result }
        ensures setup { self.new.setup ≡ self.old.setup }
        ensures logged { self.new.steps.logged ≡ self.old.steps.logged }
        ensures counted { IsCounted self.new.opening self.new.steps.items self.new.counts.items }
    {
        self.steps.ready(1)?;
        Ok(self.flush_due(seat, now))
    }

    /// Deletes a key whose write ended long enough ago, after a step for a due flush.
    pub(crate) fn reap_for(
        &mut self,
        alloc: Global,
        seat: u8,
        now: u64,
        key: &Key,
    ) -> Result<bool, ReapError>
        requires counted { IsCounted self.old.opening self.old.steps.items self.old.counts.items }
        requires left { made_in self.old.opening self.old.steps.items seat + flush_count (story_of self.old) now + 1 ≤ most_steps }
        ensures does { ReapForDoes (story_of self.old) (story_of self.new) seat now key.now result }
        ensures setup { self.new.setup ≡ self.old.setup }
        ensures logged { self.new.steps.logged ≡ self.old.steps.logged }
        ensures counted { IsCounted self.new.opening self.new.steps.items self.new.counts.items }
    {
        let (Ok(()), Ok(copy)) = (self.steps.ready(2), key.twin(alloc)) else {
            return Err(ReapError::Memory);
        };
        self.flush_due(seat, now);
        let event = Event::Reap { now, key: copy };
        match self.site.reap(alloc, now, key) {
            Ok(done) => {
                self.append(seat, event, Answer::Reaped(done), None, None);
                Ok(done)
            }
            Err(ReapError::ClockEnded) => {
                let why = ReapError::ClockEnded;
                self.append(seat, event, Answer::ReapRefused(why), None, None);
                Err(why)
            }
            Err(ReapError::Memory) => Err(ReapError::Memory),
        }
    }

    /// Makes the one move that is due in a slab class. It is no step.
    pub(crate) fn juggle(&mut self, class: usize) -> Result<bool, AllocError>
        requires class { class < class_count }
        requires counted { IsCounted self.old.opening self.old.steps.items self.old.counts.items }
        ensures does { JuggleForDoes (story_of self.old) (story_of self.new) class result }
        ensures setup { self.new.setup ≡ self.old.setup }
        ensures logged { self.new.steps.logged ≡ self.old.steps.logged }
        ensures counted { IsCounted self.new.opening self.new.steps.items self.new.counts.items }
    {
        self.site.juggle(class)
    }
}

impl Parts {
    ghost use Rattle.geo_history.specs.Keeping.{IsKept};
    ghost use Rattle.geo_site.specs.Standings.{who_in, who_of};
    ghost use Rattle.geo_history.specs.Stories.{NewEraDoes};

    /// Begins a new era, and hands out the history that ends.
    pub(crate) fn new_era(&mut self, alloc: Global) -> Result<Option<History>, AllocError>
        requires kept { ∥ IsKept (story_of self.old) ∥₁ }
        requires counted { IsCounted self.old.opening self.old.steps.items self.old.counts.items }
        requires who { who_in self.old.site ≡ who_of self.old.setup }
        ensures does { NewEraDoes self.old.steps.logged (story_of self.old) (story_of self.new) result }
        ensures told { IfOk result (λ ended. IfSome ended (λ history. history.setup ≡ self.old.setup)) }
        ensures setup { self.new.setup ≡ self.old.setup }
        ensures logged { self.new.steps.logged ≡ self.old.steps.logged }
        ensures counts { self.new.counts ≡ self.old.counts }
    {
        if !self.steps.is_logged() {
            return Ok(None);
        }
        let Some(era) = self.opening.era.checked_add(1) else {
            return Ok(None);
        };
        let steps = Log::new(alloc, true)?;
        let counts = Vec::from_slice(alloc, self.counts.as_slice())?;
        let state = self.site.state(alloc)?;
        let opening = Opening { era, state, counts };
        Ok(Some(History {
            setup: self.setup.copied(),
            opening: mem::replace(&mut self.opening, opening),
            steps: mem::replace(&mut self.steps, steps).into_steps(),
        }))
    }
}
