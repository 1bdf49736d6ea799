//! What lies under a station's lock.
ghost use Rattle.std.specs.Prelude.{◌≡◌, ◌≢◌, ◌+◌, ◌≤◌, ◌<◌, ◌^◌, ℕ, [], true, false, cond, length, vec_capacity, option_map, ◌⊎◌, Result, Ok, IfOk, IfErr, IfSome, IfNone};
ghost use Rattle.sha2.specs.Sha256.{sha256};
ghost use Rattle.geo_delta.specs.Ranges.{InRange};
ghost use Rattle.geo_requests.specs.declared.reply.Reply.TheVariants.{OutOfMemory};
ghost use Rattle.geo_site.specs.Sites.{state_in};
ghost use Rattle.geo_values.specs.Stock.{with_digest};
ghost use Rattle.geo_history.specs.Keeping.{most_steps, made_by, made_in_all, is_flush_due, IsKept, TickForDoes, ActForDoes, RetireForDoes};
ghost use Rattle.geo_history.specs.Stories.{story_in, last_era, is_logged, logged_steps, is_full};
ghost use Rattle.geo_station.specs.Eras.{ended_by};
ghost use Rattle.geo_station.specs.Seats.{IsLawful};
ghost use Rattle.geo_station.specs.Wholes.{IsWhole, NotesNone, NotesOne, TicksOnce, NotesAnswer, NotesSend, NotesTake, NotesFill, NotesRetire};
ghost use Rattle.geo_site.specs.declared.event.Event.TheVariants.{Command};
ghost use Rattle.geo_site.specs.declared.event.Answer.TheVariants.{Replied};
ghost use Rattle.geo_station.specs.declared.desk.Unmade.TheVariants.{Spent};
ghost use Rattle.geo_station.specs.declared.refusal.CallError.TheVariants.{SeatSpent};

use crate::account::Account;
use crate::calls::Calls;
use crate::refusal::{CallError, NoSeat, Returned};
use crate::seat::Seat;
use geo_delta::Parcel;
use geo_history::{History, Kept};
use geo_journal::{Journal, Room};
use geo_requests::{Reply, Request, ValueBytes};
use geo_site::{BoxedParcel, Filled, Refused, RetireError, SendError, TakeError, Taken};
use geo_versions::{Digest, Key};
use std::alloc::{AllocError, Global};
use std::sync::ledger::{Book, Share};

/// A site with the history of an era, the one history of all eras, the book of the steps that its seats have made in these, and the seats
/// that weren't given yet.
#[derive(Drop)]
pub struct Desk<L: Room> {
    pub(crate) kept: Kept,
    pub(crate) book: Book<L>,
    pub(crate) rest: Share<L>,
    pub(crate) journal: Journal<L>,
    pub(crate) seats: u64,
    ghost total: { book.total ≡ made_in_all (story_in kept) },
    ghost parts: { rest.parts + journal.given ≡ seats },
    ghost amount: { rest.amount ≡ 0 },
    ghost few: { seats ≤ 256 },
    ghost whole: { ∥ IsWhole (story_in kept) journal ∥₁ },
}

/// What became of the era with a call: the history that ended, where its steps kept as many bytes as they may; Err where memory for a
/// new era was wanted. Whoever lets go of it holds up no other once the lock is free. A history is large, and mostly there is none: so it
/// is a list of at most one.
pub(crate) type EndedEras = Result<Vec<History>, AllocError>;

/// Why a call was not made.
#[derive(Clone, Copy)]
pub enum Unmade {
    /// The seat may make no step more.
    Spent,
    /// Memory was wanted.
    Memory,
}

/// What a new era answers, with the history that ended in a list that has room for it.
fn listed(mut room: Vec<History>, ended: Result<Option<History>, AllocError>) -> EndedEras
    requires empty { room.items ≡ [] }
    requires room { 1 ≤ vec_capacity room }
    ensures { ended_by result ≡ ended }
{
    if let Some(history) = ended? {
        room.push_reserved(history);
    }
    Ok(room)
}

impl<L: Room> Desk<L> {
    ghost use Rattle.geo_station.specs.Calls.{sends_made, takes_made};
    ghost use Rattle.geo_station.specs.Receipts.{AnswersFor, SendsFrom, TakesFrom};

    /// A seat that was not given yet.
    pub(crate) fn seat(&mut self, alloc: Global) -> Result<Seat<L>, NoSeat>
        ensures fresh { IfOk result (λ seat. (seat.steps ≡ 0) × (seat.calls ≡ []) × (seat.forgot ≡ false)) }
        ensures logged { IfOk result (λ seat. seat.logged ≡ is_logged self.old.kept) }
    {
        if self.journal.given() >= self.seats {
            return Err(NoSeat);
        }
        let Some(mark) = self.journal.give() else {
            return Err(NoSeat);
        };
        let share = self.rest.split_off(1, 0);
        Ok(Seat {
            account: Account::new(share, mark),
            calls: Calls::new(alloc, self.kept.is_logged()),
            forgot: false,
        })
    }

    /// Whether the history has room for a step more of a seat, as it has for each seat whose account isn't spent.
    pub(crate) fn has_room(&self, account: &Account<L>) -> bool
        ensures { result ≡ true → made_by (story_in self.now.kept) account.now.mark.number < most_steps }
    {
        self.kept.left(account.number()) > 0
    }

    /// Carries out a due flush for a seat, and tells whether there was one. None is due then.
    pub(crate) fn tick(&mut self, account: &mut Account<L>, now: u64) -> Result<bool, AllocError>
        requires history { made_by (story_in self.old.kept) account.old.mark.number < most_steps }
        requires account { account.old.count < most_steps }
        ensures told { IfOk result (λ flushed. account.new.count ≡ account.old.count + cond flushed 1 0) }
        ensures undue { IfOk result (λ _. is_flush_due (story_in self.new.kept) now ≡ false) }
        ensures unmade { IfErr result (λ _. account.new.count ≡ account.old.count) }
        ensures noted { IfOk result (λ flushed. TicksOnce flushed self.old.journal self.new.journal account.old.mark account.new.mark now) }
        ensures unnoted { IfErr result (λ _. NotesNone self.old.journal self.new.journal account.old.mark account.new.mark) }
        ensures does { TickForDoes (story_in self.old.kept) (story_in self.new.kept) account.old.mark.number now result }
    {
        let flushed = self.kept.tick_for(account.number(), now)?;
        if flushed {
            account.book(&self.kept, &mut self.book, &mut self.journal);
        }
        Ok(flushed)
    }

    /// Answers a request of a seat, where no flush is due.
    fn answer(
        &mut self,
        alloc: Global,
        account: &mut Account<L>,
        now: u64,
        request: Request,
    ) -> Result<(Reply, Reply), AllocError>
        requires moment { now ≤ 2 ^ 40 }
        requires undue { is_flush_due (story_in self.old.kept) now ≡ false }
        requires history { made_by (story_in self.old.kept) account.old.mark.number < most_steps }
        requires account { account.old.count < most_steps }
        ensures made { IfOk result (λ replies. account.new.count ≡ account.old.count + 1) }
        ensures equal { IfOk result (λ replies. replies.1 ≡ replies.0) }
        ensures said { IfOk result (λ replies. replies.0 ≢ OutOfMemory) }
        ensures unmade { IfErr result (λ _. account.new.count ≡ account.old.count) }
        ensures noted { IfOk result (λ replies. NotesOne self.old.journal self.new.journal account.old.mark account.new.mark (Command now request) (Replied replies.0)) }
        ensures unnoted { IfErr result (λ _. NotesNone self.old.journal self.new.journal account.old.mark account.new.mark) }
        ensures does { ActForDoes (story_in self.old.kept) (story_in self.new.kept) account.old.mark.number now request result }
    {
        match self.kept.act_for(alloc, account.number(), now, request) {
            Ok(replies) => {
                account.book(&self.kept, &mut self.book, &mut self.journal);
                Ok(replies)
            }
            Err(refused) => Err(refused),
        }
    }

    /// Answers a request of a seat, after a due flush, and gives the reply twice.
    fn act_in_era(
        &mut self,
        alloc: Global,
        account: &mut Account<L>,
        now: u64,
        request: Request,
    ) -> Result<(Reply, Reply), Unmade>
        requires moment { now ≤ 2 ^ 40 }
        ensures made { IfOk result (λ replies. (flushes : ℕ) × (flushes ≤ 1) × (account.new.count ≡ account.old.count + (flushes + 1))) }
        ensures equal { IfOk result (λ replies. replies.1 ≡ replies.0) }
        ensures said { IfOk result (λ replies. replies.0 ≢ OutOfMemory) }
        ensures unmade { IfErr result (λ _. (flushes : ℕ) × (flushes ≤ 1) × (account.new.count ≡ account.old.count + flushes)) }
        ensures spent { IfErr result (λ why. why ≡ Spent → most_steps ≤ account.old.count + 1) }
        ensures noted { NotesAnswer self.old.journal self.new.journal account.old.mark account.new.mark now request result }
        ensures does { AnswersFor (story_in self.old.kept) (story_in self.new.kept) account.old.mark.number now request result }
    {
        if account.is_spent() {
            return Err(Unmade::Spent);
        }
        if !self.has_room(account) {
            return Err(Unmade::Memory);
        }
        let Ok(_flushed) = self.tick(account, now) else {
            return Err(Unmade::Memory);
        };
        if account.is_spent() {
            return Err(Unmade::Spent);
        }
        if !self.has_room(account) {
            return Err(Unmade::Memory);
        }
        match self.answer(alloc, account, now, request) {
            Ok(replies) => Ok(replies),
            Err(_) => Err(Unmade::Memory),
        }
    }

    /// Begins a new era where this one has so many steps, and hands out the history that ends.
    pub(crate) fn renew(&mut self, alloc: Global, after: u64) -> Result<Option<History>, AllocError>
        ensures lawful { IfOk result (λ ended. IfSome ended IsLawful) }
        ensures due { IfOk result (λ ended. IfSome ended (λ history. after ≤ length history.steps.items)) }
        ensures early { IfOk result (λ ended. IfNone ended ((length (logged_steps self.old.kept) < after)
            ⊎ ((is_logged self.old.kept ≡ false) ⊎ ((story_in self.old.kept).opening.era ≡ last_era)))) }
        ensures journal { self.new.journal ≡ self.old.journal }
    {
        if (self.kept.steps().len() as u64) < after {
            return Ok(None);
        }
        self.kept.new_era(alloc)
    }

    /// Makes a parcel for a seat, and gives it twice.
    fn send_in_era(
        &mut self,
        alloc: Global,
        account: &mut Account<L>,
        to: u8,
    ) -> Result<(Parcel, BoxedParcel), CallError<SendError>>
        ensures made { IfOk result (λ parcels. (account.new.count ≡ account.old.count + 1) × (parcels.1 ≡ parcels.0)) }
        ensures addressee { IfOk result (λ parcels. parcels.0.to ≡ to) }
        ensures ranges { IfOk result (λ parcels. InRange parcels.0) }
        ensures unmade { IfErr result (λ why. account.new.count ≡ account.old.count + sends_made why) }
        ensures spent { IfErr result (λ why. why ≡ SeatSpent → most_steps ≤ account.old.count) }
        ensures noted { NotesSend self.old.journal self.new.journal account.old.mark account.new.mark to result }
        ensures does { SendsFrom (story_in self.old.kept) (story_in self.new.kept) account.old.mark.number to result }
    {
        if account.is_spent() {
            return Err(CallError::SeatSpent);
        }
        if !self.has_room(account) {
            return Err(CallError::Site(SendError::Memory));
        }
        match self.kept.send_for(alloc, account.number(), to) {
            Ok(parcels) => {
                account.book(&self.kept, &mut self.book, &mut self.journal);
                Ok(parcels)
            }
            Err(SendError::Memory) => Err(CallError::Site(SendError::Memory)),
            Err(why) => {
                account.book(&self.kept, &mut self.book, &mut self.journal);
                Err(CallError::Site(why))
            }
        }
    }

    /// Takes a parcel for a seat, of which a copy is kept.
    fn take_in_era(
        &mut self,
        alloc: Global,
        account: &mut Account<L>,
        parcel: Parcel,
        copy: BoxedParcel,
    ) -> Result<Taken, Returned>
        requires copy { copy ≡ parcel }
        ensures made { IfOk result (λ _. account.new.count ≡ account.old.count + 1) }
        ensures unmade { IfErr result (λ returned. account.new.count ≡ account.old.count + takes_made returned.why) }
        ensures back { IfErr result (λ returned. returned.parcel ≡ parcel) }
        ensures spent { IfErr result (λ returned. returned.why ≡ SeatSpent → most_steps ≤ account.old.count) }
        ensures noted { NotesTake self.old.journal self.new.journal account.old.mark account.new.mark parcel result }
        ensures does { TakesFrom (story_in self.old.kept) (story_in self.new.kept) account.old.mark.number parcel result }
    {
        if account.is_spent() {
            let why = CallError::SeatSpent;
            return Err(Returned { why, parcel });
        }
        if !self.has_room(account) {
            let why = CallError::Site(TakeError::Memory);
            return Err(Returned { why, parcel });
        }
        let refused = match self.kept.take_kept(alloc, account.number(), parcel, copy) {
            Ok(taken) => {
                account.book(&self.kept, &mut self.book, &mut self.journal);
                return Ok(taken);
            }
            Err(refused) => refused,
        };
        let Refused { why, parcel } = refused;
        match why {
            TakeError::Memory => Err(Returned {
                why: CallError::Site(TakeError::Memory),
                parcel,
            }),
            _ => {
                account.book(&self.kept, &mut self.book, &mut self.journal);
                Err(Returned {
                    why: CallError::Site(why),
                    parcel,
                })
            }
        }
    }
}

impl<L: Room> Desk<L> {
    ghost use Rattle.geo_station.specs.Calls.{retires_made};
    ghost use Rattle.geo_station.specs.Receipts.{FillsFrom};

    /// Offers the site bytes of a key for a seat.
    fn fill_in_era(
        &mut self,
        alloc: Global,
        account: &mut Account<L>,
        key: &Key,
        bytes: ValueBytes,
    ) -> Result<Filled, CallError<AllocError>>
        ensures made { IfOk result (λ _. account.new.count ≡ account.old.count + 1) }
        ensures unmade { IfErr result (λ _. account.new.count ≡ account.old.count) }
        ensures spent { IfErr result (λ why. why ≡ SeatSpent → most_steps ≤ account.old.count) }
        ensures noted { NotesFill self.old.journal self.new.journal account.old.mark account.new.mark key.now bytes result }
        ensures does { FillsFrom (story_in self.old.kept) (story_in self.new.kept) account.old.mark.number key.now bytes result }
    {
        if account.is_spent() {
            return Err(CallError::SeatSpent);
        }
        if !self.has_room(account) {
            return Err(CallError::Site(AllocError));
        }
        match self.kept.fill_for(alloc, account.number(), key, bytes) {
            Ok(filled) => {
                account.book(&self.kept, &mut self.book, &mut self.journal);
                Ok(filled)
            }
            Err(refused) => Err(CallError::Site(refused)),
        }
    }

    /// Holds another site for gone for good, for a seat.
    fn retire_in_era(
        &mut self,
        account: &mut Account<L>,
        other: u8,
    ) -> Result<bool, CallError<RetireError>>
        ensures noted { NotesRetire self.old.journal self.new.journal account.old.mark account.new.mark other result }
        ensures does { IfOk result (λ fresh. RetireForDoes (story_in self.old.kept) (story_in self.new.kept) account.old.mark.number other (Ok fresh)) }
        ensures made { IfOk result (λ _. account.new.count ≡ account.old.count + 1) }
        ensures unmade { IfErr result (λ why. account.new.count ≡ account.old.count + retires_made why) }
        ensures spent { IfErr result (λ why. why ≡ SeatSpent → most_steps ≤ account.old.count) }
    {
        if account.is_spent() {
            return Err(CallError::SeatSpent);
        }
        if !self.has_room(account) {
            return Err(CallError::Site(RetireError::Memory));
        }
        match self.kept.retire_for(account.number(), other) {
            Ok(is_new) => {
                account.book(&self.kept, &mut self.book, &mut self.journal);
                Ok(is_new)
            }
            Err(RetireError::Memory) => Err(CallError::Site(RetireError::Memory)),
            Err(why) => {
                account.book(&self.kept, &mut self.book, &mut self.journal);
                Err(CallError::Site(why))
            }
        }
    }
}

impl<L: Room> Desk<L> {
    ghost use Rattle.geo_station.specs.Calls.{sends_made, takes_made, retires_made};
    ghost use Rattle.geo_station.specs.Eras.{EndsWhereFull};
    ghost use Rattle.geo_station.specs.Receipts.{AnswersOnce, SendsOnce, TakesOnce, FillsOnce, RetiresOnce};
    ghost use Rattle.geo_station.specs.Wholes.{AddsAnswer, AddsParcels, AddsTake, AddsFill, AddsRetire};

    /// Begins a new era, where the steps of this one keep as many bytes as they may, and hands out the history that ends.
    fn end_era(&mut self, alloc: Global) -> EndedEras
        requires full { is_full self.old.kept ≡ true }
        ensures ends { EndsWhereFull self.new.kept (ended_by result) }
        ensures journal { self.new.journal ≡ self.old.journal }
    {
        let room = Vec::with_capacity(alloc, 1)?;
        listed(room, self.kept.new_era(alloc))
    }

    /// Begins a new era where the steps of this one keep as many bytes as they may, and hands out the history that ends.
    pub(crate) fn end_full(&mut self, alloc: Global) -> EndedEras
        ensures ends { EndsWhereFull self.new.kept (ended_by result) }
        ensures journal { self.new.journal ≡ self.old.journal }
    {
        if !self.kept.is_full() {
            return Ok(Vec::new(alloc));
        }
        self.end_era(alloc)
    }

    /// Answers a request of a seat as [`Desk::act_in_era`] does, and ends the era where that filled it.
    pub(crate) fn act(
        &mut self,
        alloc: Global,
        account: &mut Account<L>,
        now: u64,
        request: Request,
        ended: &mut EndedEras,
    ) -> Result<(Reply, Reply), Unmade>
        requires moment { now ≤ 2 ^ 40 }
        ensures made { IfOk result (λ replies. (flushes : ℕ) × (flushes ≤ 1) × (account.new.count ≡ account.old.count + (flushes + 1))) }
        ensures equal { IfOk result (λ replies. replies.1 ≡ replies.0) }
        ensures said { IfOk result (λ replies. replies.0 ≢ OutOfMemory) }
        ensures unmade { IfErr result (λ _. (flushes : ℕ) × (flushes ≤ 1) × (account.new.count ≡ account.old.count + flushes)) }
        ensures spent { IfErr result (λ why. why ≡ Spent → most_steps ≤ account.old.count + 1) }
        ensures ended { EndsWhereFull self.new.kept (ended_by ended.new) }
        ensures adds { AddsAnswer account.old.mark account.new.mark now request result }
        ensures does { AnswersOnce (story_in self.old.kept) account.old.mark.number now request result }
    {
        let outcome = self.act_in_era(alloc, account, now, request);
        *ended = self.end_full(alloc);
        outcome
    }

    /// Makes a parcel for a seat as [`Desk::send_in_era`] does, and ends the era where that filled it.
    pub(crate) fn send(
        &mut self,
        alloc: Global,
        account: &mut Account<L>,
        to: u8,
        ended: &mut EndedEras,
    ) -> Result<(Parcel, BoxedParcel), CallError<SendError>>
        ensures made { IfOk result (λ parcels. (account.new.count ≡ account.old.count + 1) × (parcels.1 ≡ parcels.0)) }
        ensures addressee { IfOk result (λ parcels. parcels.0.to ≡ to) }
        ensures ranges { IfOk result (λ parcels. InRange parcels.0) }
        ensures unmade { IfErr result (λ why. account.new.count ≡ account.old.count + sends_made why) }
        ensures spent { IfErr result (λ why. why ≡ SeatSpent → most_steps ≤ account.old.count) }
        ensures ended { EndsWhereFull self.new.kept (ended_by ended.new) }
        ensures adds { AddsParcels account.old.mark account.new.mark to result }
        ensures does { SendsOnce (story_in self.old.kept) account.old.mark.number to result }
    {
        let outcome = self.send_in_era(alloc, account, to);
        *ended = self.end_full(alloc);
        outcome
    }

    /// Takes a parcel for a seat as [`Desk::take_in_era`] does, and ends the era where that filled it.
    pub(crate) fn take(
        &mut self,
        alloc: Global,
        account: &mut Account<L>,
        parcel: Parcel,
        copy: BoxedParcel,
        ended: &mut EndedEras,
    ) -> Result<Taken, Returned>
        requires copy { copy ≡ parcel }
        ensures made { IfOk result (λ _. account.new.count ≡ account.old.count + 1) }
        ensures unmade { IfErr result (λ returned. account.new.count ≡ account.old.count + takes_made returned.why) }
        ensures back { IfErr result (λ returned. returned.parcel ≡ parcel) }
        ensures spent { IfErr result (λ returned. returned.why ≡ SeatSpent → most_steps ≤ account.old.count) }
        ensures ended { EndsWhereFull self.new.kept (ended_by ended.new) }
        ensures adds { AddsTake account.old.mark account.new.mark parcel result }
        ensures does { TakesOnce (story_in self.old.kept) account.old.mark.number parcel result }
    {
        let outcome = self.take_in_era(alloc, account, parcel, copy);
        *ended = self.end_full(alloc);
        outcome
    }

    /// Offers the site bytes of a key for a seat as [`Desk::fill_in_era`] does, and ends the era where that filled it.
    pub(crate) fn fill(
        &mut self,
        alloc: Global,
        account: &mut Account<L>,
        key: &Key,
        bytes: ValueBytes,
        ended: &mut EndedEras,
    ) -> Result<Filled, CallError<AllocError>>
        ensures made { IfOk result (λ _. account.new.count ≡ account.old.count + 1) }
        ensures unmade { IfErr result (λ _. account.new.count ≡ account.old.count) }
        ensures spent { IfErr result (λ why. why ≡ SeatSpent → most_steps ≤ account.old.count) }
        ensures ended { EndsWhereFull self.new.kept (ended_by ended.new) }
        ensures adds { AddsFill account.old.mark account.new.mark key.now bytes result }
        ensures does { FillsOnce (story_in self.old.kept) account.old.mark.number key.now bytes result }
    {
        let outcome = self.fill_in_era(alloc, account, key, bytes);
        *ended = self.end_full(alloc);
        outcome
    }

    /// Holds another site for gone for good as [`Desk::retire_in_era`] does, and ends the era where that filled it.
    pub(crate) fn retire(
        &mut self,
        alloc: Global,
        account: &mut Account<L>,
        other: u8,
        ended: &mut EndedEras,
    ) -> Result<bool, CallError<RetireError>>
        ensures made { IfOk result (λ _. account.new.count ≡ account.old.count + 1) }
        ensures unmade { IfErr result (λ why. account.new.count ≡ account.old.count + retires_made why) }
        ensures spent { IfErr result (λ why. why ≡ SeatSpent → most_steps ≤ account.old.count) }
        ensures ended { EndsWhereFull self.new.kept (ended_by ended.new) }
        ensures adds { AddsRetire account.old.mark account.new.mark other result }
        ensures does { IfOk result (RetiresOnce (story_in self.old.kept) account.old.mark.number other) }
    {
        let outcome = self.retire_in_era(account, other);
        *ended = self.end_full(alloc);
        outcome
    }

    /// A copy of the bytes that are held of a key, where they have this SHA-256.
    pub(crate) fn offer(
        &self,
        alloc: Global,
        key: &Key,
        digest: &Digest,
    ) -> Result<Option<Vec<u8>>, AllocError>
        ensures lawful { ∥ IsKept (story_in self.now.kept) ∥₁ }
        ensures got { IfOk result (λ offered. option_map (λ v. v.items) offered
            ≡ with_digest digest.now ((state_in (story_in self.now.kept).site).stock.held key.now)) }
        ensures digest { IfOk result (λ offered. IfSome offered (λ bytes. sha256 bytes.items ≡ digest.now)) }
        ensures short { IfOk result (λ offered. IfSome offered (λ bytes. length bytes.items ≤ 1048576)) }
    {
        match self.kept.site().offer(key, digest) {
            Some(bytes) => Ok(Some(Vec::from_slice(alloc, bytes)?)),
            None => Ok(None),
        }
    }
}
