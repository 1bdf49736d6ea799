//! A site for several threads.
ghost use Rattle.std.specs.Prelude.{◌≡◌, ◌≢◌, ◌⊎◌, ℕ, ◌+◌, ◌≤◌, ◌^◌, [], false, vec_len, sum_by, length, option_copied, IfOk, IfErr, IfSome, IsErr, Err};
ghost use Rattle.std.specs.List.{All};
ghost use Rattle.geo_delta.specs.Ranges.{InRange};
ghost use Rattle.geo_history.specs.Keeping.{most_steps, opened_total};
ghost use Rattle.geo_history.specs.Stories.{story_in, is_logged};
ghost use Rattle.geo_station.specs.Seats.{FitsIn, IsLawful, DiffersFrom};
ghost use Rattle.geo_station.specs.declared.refusal.CallError.TheVariants as refused;

use crate::account::Account;
use crate::bygone::Bygone;
use crate::close::{Unclosed, Unlocked, merge_all, open_for};
use crate::desk::{Desk, EndedEras, Unmade};
use crate::maintain::Maintained;
use crate::missing::Missing;
use crate::refusal::{CallError, NoSeat, Returned, SeatSpent, StationError};
use crate::seat::Seat;
use crate::unopened::Unopened;
use geo_delta::Parcel;
use geo_history::History;
use geo_journal::Room;
use geo_requests::{Reply, Request, ValueBytes};
use geo_site::{Answer, BoxedParcel, Event, Filled, RetireError, SendError, TakeError, Taken};
use geo_versions::{Digest, Key};
use std::alloc::{AllocError, Global};
use std::hint::spin_loop;
use std::marker::Model;
use std::sync::{Mutex, MutexGuard, Wait};

/// How often a call asks for the lock before it sleeps for it, and how often it pauses between two of these. A call holds the lock for
/// about a microsecond, which is less than sleeping and waking take.
const TRIES: usize = 64;

const PAUSES: usize = 10;

/// A lock round a site with its history, and a ledger whose total is the number of steps. Each call by a seat waits for the lock.
/// Seats are used with the station that gave them.
#[derive(Drop)]
pub struct Station<L: Room> {
    desk: Mutex<Desk<L>>,
    bygone: Bygone,
    seats: u64,
}

impl<L: Room> Model for Station<L> {
    ghost use Rattle.std.specs.Prelude.{◌≡◌, ℕ};

    ghost Value = { ℕ };

    ghost view = { λ s. s.seats };

    ghost invariant = { λ s. s.seats ≡ L.parts };
}

impl<L: Room> Station<L> {
    ghost use Rattle.geo_station.specs.Calls.{StationOpens};

    /// A station of so many seats, 2 to 256, under the name of its ledger and its history. It takes no memory.
    pub fn new(unopened: Unopened) -> Result<Station<L>, StationError>
        requires name { unopened.name ≡ L.name }
        requires parts { unopened.parts ≡ L.parts }
        requires table { unopened.table ≡ L.table }
        ensures { StationOpens unopened.parts result }
    {
        let Unopened {
            blank,
            fresh,
            kept,
            seats,
        } = unopened;
        let (book, rest) = blank.open::<L>();
        if seats < 2 || seats > 256 {
            return Err(StationError::SeatCount);
        }
        let desk = Desk {
            kept,
            book,
            rest,
            journal: fresh.named::<L>(),
            seats,
        };
        Ok(Station::locked(desk, seats))
    }

    /// What lies under the lock, under one.
    pub(crate) fn locked(desk: Desk<L>, seats: u64) -> Station<L>
        requires { seats ≡ L.parts }
        ensures { result ≡ seats }
    {
        Station {
            desk: Mutex::new(desk),
            bygone: Bygone::none(),
            seats,
        }
    }

    /// What lies under the lock, once no other has it.
    pub(crate) fn held(&self, rt: &impl Wait) -> MutexGuard<'_, Desk<L>> {
        for _try in 0..TRIES {
            if let Some(desk) = self.desk.try_lock() {
                return desk;
            }
            for _pause in 0..PAUSES {
                spin_loop();
            }
        }
        self.desk.lock(rt)
    }

    /// Leaves a history that ended with a call for whoever maintains the site.
    pub(crate) fn leave(&self, rt: &impl Wait, ended: EndedEras) {
        self.bygone.leave(rt, ended);
    }

    /// A seat that was not given yet, by rising number from 0; NoSeat where all were given. It keeps its calls where the history is
    /// logged. It takes no memory.
    pub fn seat(&self, rt: &impl Wait, alloc: Global) -> Result<Seat<L>, NoSeat>
        ensures { IfOk result (λ seat. (seat.steps ≡ 0) × (seat.calls ≡ []) × (seat.forgot ≡ false)) }
    {
        self.held(rt).seat(alloc)
    }
}

impl<L: Room> Station<L> {
    ghost use Rattle.sha2.specs.Sha256.{sha256};
    ghost use Rattle.geo_requests.specs.declared.reply.Reply.TheVariants.{OutOfMemory};
    ghost use Rattle.geo_station.specs.Calls.{ActsBy, SendsBy, TakesBy, FillsBy, RetiresBy, MaintainsBy, sends_made, takes_made};
    ghost use Rattle.geo_station.specs.Receipts.{IsAnswer, IsFilling, IsRetirement, LacksLeast, LacksFirst, HoldsOf};
    ghost use Rattle.geo_station.specs.Wholes.{AddsReply, AddsParcels, AddsSend, AddsTake, AddsFill, AddsRetire, AddsCare};

    /// Answers a client's request at a moment in seconds, 1 to 2^40, after a due flush. Where memory was wanted for the answer, its
    /// step, or the seat's copy, it is [`Reply::OutOfMemory`], and nothing was done but the due flush.
    pub fn act(
        &self,
        rt: &impl Wait,
        alloc: Global,
        seat: &mut Seat<L>,
        now: u64,
        mut request: Request,
    ) -> Result<Reply, SeatSpent>
        requires { now ≤ 2 ^ 40 }
        ensures acts { ActsBy seat.old seat.new now request result }
        ensures adds { AddsReply seat.old.mark seat.new.mark now request result }
        ensures answered { IfOk result (λ reply. (reply ≡ OutOfMemory) ⊎ IsAnswer seat.old.mark.number now request reply) }
        ensures limit { seat.old.steps ≡ most_steps → IsErr result }
        ensures spent { IsErr result → most_steps ≤ seat.old.steps + 1 }
    {
        let Seat { account, calls, .. } = seat;
        if account.is_spent() {
            return Err(SeatSpent);
        }
        let (Ok(()), Ok(copy)) = (calls.reserve(), calls.copy(alloc, &request)) else {
            return Ok(Reply::OutOfMemory);
        };
        // SHA-256 is most of a set, and no other thread waits for it here.
        request.know_digest(alloc);
        // A history that ends is let go of behind the lock, and not by a client's thread.
        let mut ended = Ok(Vec::new(alloc));
        let done = self.held(rt).act(alloc, account, now, request, &mut ended);
        self.bygone.leave(rt, ended);
        match done {
            Ok((reply, kept)) => {
                let Some(request) = copy else {
                    return Ok(reply);
                };
                let event = Event::Command { now, request };
                let answer = Answer::Replied(kept);
                calls.keep(event, answer);
                Ok(reply)
            }
            Err(Unmade::Memory) => Ok(Reply::OutOfMemory),
            Err(Unmade::Spent) => Err(SeatSpent),
        }
    }

    /// Has the site make a parcel under the lock, and gives it twice. A history that ends with it is let go of behind the lock.
    fn send_locked(
        &self,
        rt: &impl Wait,
        alloc: Global,
        account: &mut Account<L>,
        to: u8,
    ) -> Result<(Parcel, BoxedParcel), CallError<SendError>>
        ensures made { IfOk result (λ parcels. (account.new.count ≡ account.old.count + 1) × (parcels.1 ≡ parcels.0)) }
        ensures addressee { IfOk result (λ parcels. parcels.0.to ≡ to) }
        ensures ranges { IfOk result (λ parcels. InRange parcels.0) }
        ensures unmade { IfErr result (λ why. account.new.count ≡ account.old.count + sends_made why) }
        ensures spent { IfErr result (λ why. why ≡ refused.SeatSpent → most_steps ≤ account.old.count) }
        ensures adds { AddsParcels account.old.mark account.new.mark to result }
    {
        let mut ended = Ok(Vec::new(alloc));
        let done = self.held(rt).send(alloc, account, to, &mut ended);
        self.bygone.leave(rt, ended);
        done
    }

    /// Makes a parcel for another site, which a frame can hold.
    pub fn send(
        &self,
        rt: &impl Wait,
        alloc: Global,
        seat: &mut Seat<L>,
        to: u8,
    ) -> Result<Parcel, CallError<SendError>>
        ensures sends { SendsBy seat.old seat.new to result }
        ensures adds { AddsSend seat.old.mark seat.new.mark to result }
        ensures addressee { IfOk result (λ parcel. parcel.to ≡ to) }
        ensures ranges { IfOk result (λ parcel. InRange parcel) }
        ensures limit { seat.old.steps ≡ most_steps → result ≡ Err refused.SeatSpent }
        ensures spent { result ≡ Err refused.SeatSpent → most_steps ≤ seat.old.steps }
    {
        let Seat { account, calls, .. } = seat;
        if account.is_spent() {
            return Err(CallError::SeatSpent);
        }
        if calls.reserve().is_err() {
            return Err(CallError::Site(SendError::Memory));
        }
        match self.send_locked(rt, alloc, account, to) {
            Ok((parcel, kept)) => {
                calls.keep(Event::Send { to }, Answer::Sent(kept));
                Ok(parcel)
            }
            Err(CallError::Site(SendError::NoSuchSite)) => {
                let answer = Answer::SendRefused(SendError::NoSuchSite);
                calls.keep(Event::Send { to }, answer);
                Err(CallError::Site(SendError::NoSuchSite))
            }
            Err(CallError::Site(SendError::Retired)) => {
                let answer = Answer::SendRefused(SendError::Retired);
                calls.keep(Event::Send { to }, answer);
                Err(CallError::Site(SendError::Retired))
            }
            Err(why) => Err(why),
        }
    }

    /// Has the site take a parcel under the lock, of which a copy is kept. A history that ends with it is let go of behind the lock.
    fn take_locked(
        &self,
        rt: &impl Wait,
        alloc: Global,
        account: &mut Account<L>,
        parcel: Parcel,
        copy: BoxedParcel,
    ) -> Result<Taken, Returned>
        requires copy { copy ≡ parcel }
        ensures made { IfOk result (λ _. account.new.count ≡ account.old.count + 1) }
        ensures unmade { IfErr result (λ returned. account.new.count ≡ account.old.count + takes_made returned.why) }
        ensures back { IfErr result (λ returned. returned.parcel ≡ parcel) }
        ensures spent { IfErr result (λ returned. returned.why ≡ refused.SeatSpent → most_steps ≤ account.old.count) }
        ensures adds { AddsTake account.old.mark account.new.mark parcel result }
    {
        let mut ended = Ok(Vec::new(alloc));
        let done = self.held(rt).take(alloc, account, parcel, copy, &mut ended);
        self.bygone.leave(rt, ended);
        done
    }

    /// Takes a parcel. A refused one is handed back.
    pub fn take(
        &self,
        rt: &impl Wait,
        alloc: Global,
        seat: &mut Seat<L>,
        parcel: Parcel,
    ) -> Result<Taken, Returned>
        ensures takes { TakesBy seat.old seat.new parcel result }
        ensures adds { AddsTake seat.old.mark seat.new.mark parcel result }
        ensures limit { seat.old.steps ≡ most_steps → IfErr result (λ returned. returned.why ≡ refused.SeatSpent) }
        ensures spent { IfErr result (λ returned. returned.why ≡ refused.SeatSpent → most_steps ≤ seat.old.steps) }
    {
        let Seat { account, calls, .. } = seat;
        if account.is_spent() {
            let why = CallError::SeatSpent;
            return Err(Returned { why, parcel });
        }
        let (Ok(()), Ok(copy)) = (calls.reserve(), BoxedParcel::copy_of(alloc, &parcel)) else {
            let why = CallError::Site(TakeError::Memory);
            return Err(Returned { why, parcel });
        };
        let Ok(own) = copy.shared() else {
            let why = CallError::Site(TakeError::Memory);
            return Err(Returned { why, parcel });
        };
        let event = Event::Take { parcel: own };
        let done = self.take_locked(rt, alloc, account, parcel, copy);
        match &done {
            Ok(told) => {
                let answer = Answer::Taken(*told);
                calls.keep(event, answer);
            }
            Err(Returned { why, .. }) => match why {
                CallError::SeatSpent | CallError::Site(TakeError::Memory) => {}
                CallError::Site(why) => {
                    let answer = Answer::TakeRefused(*why);
                    calls.keep(event, answer);
                }
            },
        }
        done
    }

    /// Offers the site bytes of a key, and tells what came of them. It is a step, of which the seat keeps nothing.
    pub fn fill(
        &self,
        rt: &impl Wait,
        alloc: Global,
        seat: &mut Seat<L>,
        key: &Key,
        mut bytes: ValueBytes,
    ) -> Result<Filled, CallError<AllocError>>
        ensures fills { FillsBy seat.old seat.new result }
        ensures adds { AddsFill seat.old.mark seat.new.mark key.now bytes result }
        ensures filled { IfOk result (IsFilling seat.old.mark.number key.now bytes) }
        ensures limit { seat.old.steps ≡ most_steps → result ≡ Err refused.SeatSpent }
        ensures spent { result ≡ Err refused.SeatSpent → most_steps ≤ seat.old.steps }
    {
        let Seat { account, .. } = seat;
        if account.is_spent() {
            return Err(CallError::SeatSpent);
        }
        // No other thread waits for their SHA-256 here.
        bytes.know_digest(alloc);
        let mut ended = Ok(Vec::new(alloc));
        let done = self.held(rt).fill(alloc, account, key, bytes, &mut ended);
        self.bygone.leave(rt, ended);
        done
    }

    /// Holds another site for gone for good, and tells whether the site did not before: nothing is taken from it and nothing sent to it any
    /// more. It is a step, of which the seat keeps nothing; a refusal is one too, but for want of memory and a seat that is spent.
    pub fn retire(
        &self,
        rt: &impl Wait,
        alloc: Global,
        seat: &mut Seat<L>,
        other: u8,
    ) -> Result<bool, CallError<RetireError>>
        ensures retires { RetiresBy seat.old seat.new result }
        ensures adds { AddsRetire seat.old.mark seat.new.mark other result }
        ensures retired { IfOk result (IsRetirement seat.old.mark.number other) }
        ensures limit { seat.old.steps ≡ most_steps → result ≡ Err refused.SeatSpent }
        ensures spent { result ≡ Err refused.SeatSpent → most_steps ≤ seat.old.steps }
    {
        let Seat { account, .. } = seat;
        if account.is_spent() {
            return Err(CallError::SeatSpent);
        }
        let mut ended = Ok(Vec::new(alloc));
        let done = self.held(rt).retire(alloc, account, other, &mut ended);
        self.bygone.leave(rt, ended);
        done
    }

    /// What the site lacks of the least key above another, where one is told, that has a version which is live at a moment in seconds,
    /// of which it holds nothing, and whose slab class has room: None where there is none. It is no step. It passes over all records
    /// while the others wait.
    pub fn missing(
        &self,
        rt: &impl Wait,
        alloc: Global,
        now: u64,
        after: Option<&Key>,
    ) -> Result<Option<Missing>, AllocError>
        ensures lacking { LacksLeast now (option_copied after.entry) result }
        ensures number { IfOk result (λ missing. IfSome missing (λ m. (1 ≤ m.from) × (m.from ≤ m.sites))) }
        ensures sites { IfOk result (λ missing. IfSome missing (λ m. m.sites ≤ 16)) }
    {
        self.held(rt).missing(alloc, now, after)
    }

    /// What the site lacks of the keys that [`Station::missing`] would give one after the other from the least on, so many at most. It is no
    /// step. It passes over all records, once, while the others wait.
    pub fn first_missing(
        &self,
        rt: &impl Wait,
        alloc: Global,
        now: u64,
        most: usize,
    ) -> Result<Vec<Missing>, AllocError>
        ensures lacking { LacksFirst now most result }
        ensures few { IfOk result (λ lacked. length lacked.items ≤ most) }
    {
        self.held(rt).first_missing(alloc, now, most)
    }

    /// A copy of the bytes, at most a mebibyte, that the site holds of a key, where they have this SHA-256. It is no step, and counts no
    /// access.
    pub fn offer(
        &self,
        rt: &impl Wait,
        alloc: Global,
        key: &Key,
        digest: &Digest,
    ) -> Result<Option<Vec<u8>>, AllocError>
        ensures held { HoldsOf key.now digest.now result }
        ensures digest { IfOk result (λ offered. IfSome offered (λ bytes. sha256 bytes.items ≡ digest.now)) }
        ensures short { IfOk result (λ offered. IfSome offered (λ bytes. length bytes.items ≤ 1048576)) }
    {
        self.held(rt).offer(alloc, key, digest)
    }

    /// Does at a moment in seconds what the site needs from time to time: a due flush, the deletes of at most 16 keys whose writes
    /// ended long enough ago, one removal, and at most 64 moves in each slab class. It stops at the first that is refused.
    pub fn maintain(
        &self,
        rt: &impl Wait,
        alloc: Global,
        seat: &mut Seat<L>,
        now: u64,
    ) -> Result<Maintained, SeatSpent>
        ensures maintains { MaintainsBy seat.old seat.new result }
        ensures adds { IfOk result (λ _. AddsCare seat.old.mark seat.new.mark) }
        ensures limit { seat.old.steps ≡ most_steps → IsErr result }
        ensures spent { IsErr result → most_steps ≤ seat.old.steps }
    {
        let Seat { account, .. } = seat;
        if account.is_spent() {
            return Err(SeatSpent);
        }
        let mut ended = Ok(Vec::new(alloc));
        let done = self.held(rt).maintain(alloc, account, now, &mut ended);
        self.bygone.let_go(rt);
        done
    }
}

impl<L: Room> Station<L> {
    /// Begins a new era where this one has so many steps or more, and hands out the history that ends with it: the next goes on from
    /// what the site is now. It is no step. Where memory is wanted, or this is era 2^32 - 1, nothing is done. Whoever lets go of the
    /// history holds up no other, for the lock is free then.
    pub fn renew(
        &self,
        rt: &impl Wait,
        alloc: Global,
        after: u64,
    ) -> Result<Option<History>, AllocError>
        ensures lawful { IfOk result (λ ended. IfSome ended IsLawful) }
        ensures due { IfOk result (λ ended. IfSome ended (λ history. after ≤ length history.steps.items)) }
    {
        self.held(rt).renew(alloc, after)
    }
}

impl<L: Room> Station<L> {
    ghost use Rattle.geo_station.specs.Seats.{IsOneHistory};
    ghost use Rattle.geo_station.specs.declared.close.Why.TheVariants as whys;

    /// The history of what was done, where all seats are handed in, it was logged, and it tells of each seat what the seat keeps. Else
    /// station and seats come back, the station without its lock, so that its history can be spoken of.
    pub fn close(self, seats: Vec<Seat<L>>) -> Result<History, Unclosed<L>>
        ensures lawful { IfOk result (λ history. IsLawful history) }
        ensures sum { IfOk result (λ history. opened_total history.opening + length history.steps.items
            ≡ sum_by (λ s. s.steps) seats.items) }
        ensures each { IfOk result (λ history. All (FitsIn history.opening history.steps.items) seats.items) }
        ensures one { IfOk result (λ history. ∥ IsOneHistory history.steps.items seats.items ∥₁) }
        ensures all { IfOk result (λ _. vec_len seats ≡ self) }
        ensures missing { IfErr result (λ unclosed. unclosed.why ≡ whys.Missing → vec_len seats ≢ self) }
        ensures unlogged { IfErr result (λ unclosed. unclosed.why ≡ whys.Unlogged
            → (vec_len seats ≡ self) × (is_logged unclosed.station.desk.kept ≡ false)) }
        ensures differs { IfErr result (λ unclosed. unclosed.why ≡ whys.Differs
            → (vec_len seats ≡ self) × DiffersFrom (story_in unclosed.station.desk.kept) seats.items) }
        ensures back { IfErr result (λ unclosed. (unclosed.seats ≡ seats) × (unclosed.station.seats ≡ self) × (self ≡ L.parts)) }
    {
        let Station {
            desk,
            seats: count,
            ..
        } = self;
        let mut desk = desk.into_inner();
        if let Some(why) = open_for(&desk.kept, count, seats.as_slice()) {
            let station = Unlocked { desk, seats: count };
            return Err(Unclosed {
                why,
                station,
                seats,
            });
        }
        let mut all = desk.rest.empty();
        merge_all(&mut all, &mut desk.journal, seats);
        desk.book.audit(&mut all);
        let Desk { kept, .. } = desk;
        Ok(kept.history())
    }
}
