//! A site that keeps its history.
ghost use Rattle.std.specs.Prelude.{◌≡◌, IfOk, replicate};
ghost use Rattle.geo_site.specs.Standings.{who_in, who_of};
ghost use Rattle.geo_history.specs.Keeping.{story_of, IsKept, IsCounted};

use crate::history::{History, Opening};
use crate::log::Log;
use crate::parts::Parts;
use crate::step::Step;
use geo_chunks::Chunks;
use geo_delta::Parcel;
use geo_requests::{Reply, Request, ValueBytes};
use geo_site::{
    BoxedParcel, Filled, ReapError, Refused, RetireError, SendError, Setup, SetupError, Site,
    SiteState, TakeError, Taken,
};
use geo_versions::Key;
use std::alloc::{AllocError, Global};

/// The most steps of a seat: 2^48.
pub const MOST_STEPS: u64 = 1 << 48;

/// A site, where its history opened, and the steps since then. Carrying out the steps one after the other, from where the history
/// opened, gives their answers and leads to the site. Seats are 0 to 255, and the steps of each are numbered one after the other.
#[derive(Drop)]
pub struct Kept {
    parts: Parts,
    /// How many bytes the steps of an era may keep, where that is told.
    most_bytes: Option<u64>,
    ghost kept: { ∥ IsKept (story_of parts) ∥₁ },
    ghost counted: { IsCounted parts.opening parts.steps.items parts.counts.items },
    ghost who: { who_in parts.site ≡ who_of parts.setup },
}

/// No steps of any seat.
fn no_steps(alloc: Global) -> Result<Vec<u64>, AllocError>
    ensures { IfOk result (λ counts. counts.items ≡ replicate 256 0) }
{
    vec![in alloc; 0; 256]
}

impl Kept {
    ghost use Rattle.std.specs.Prelude.{◌≡◌, ◌+◌, true, option_copied, IfOk, IfSome, None, Some};
    ghost use Rattle.geo_site.specs.Machine.{Numbered};
    ghost use Rattle.geo_site.specs.Sites.{state_in};
    ghost use Rattle.geo_history.specs.Keeping.{most_steps, made_by};
    ghost use Rattle.geo_history.specs.Logging.{last_step};
    ghost use Rattle.geo_history.specs.Sizes.{kept_bytes};
    ghost use Rattle.geo_history.specs.Stories.{story_in, setup_in, most_bytes_in, is_logged, logged_steps, is_full, StaysTold, KeptOpens, IsHistoryOf, NewEraDoes};

    /// A site that knows nothing, with an empty history, which is logged. It is refused as [`Site::new`] refuses it.
    pub fn new(alloc: Global, setup: Setup) -> Result<Kept, SetupError>
        ensures opens { KeptOpens setup result }
        ensures setup { IfOk result (λ kept. setup_in kept ≡ setup) }
        ensures bound { IfOk result (λ kept. most_bytes_in kept ≡ None) }
        ensures logged { IfOk result (λ kept. is_logged kept ≡ true) }
    {
        Kept::opened(alloc, setup, true)
    }

    /// The same, whose history is logged or not. One that isn't proofs alone have: calls keep nothing, and no new era begins.
    pub fn opened(alloc: Global, setup: Setup, logged: bool) -> Result<Kept, SetupError>
        ensures opens { KeptOpens setup result }
        ensures setup { IfOk result (λ kept. setup_in kept ≡ setup) }
        ensures bound { IfOk result (λ kept. most_bytes_in kept ≡ None) }
        ensures logged { IfOk result (λ kept. is_logged kept ≡ logged) }
    {
        let own = setup.copied();
        let site = Site::new(alloc, setup)?;
        let Ok(counts) = no_steps(alloc) else {
            return Err(SetupError::Memory);
        };
        let Ok(steps) = Log::new(alloc, logged) else {
            return Err(SetupError::Memory);
        };
        let opening = Opening {
            era: 0,
            state: SiteState::empty(alloc, own.sites),
            counts: Vec::new(alloc),
        };
        Ok(Kept {
            parts: Parts {
                site,
                setup: own,
                opening,
                steps,
                counts,
            },
            most_bytes: None,
        })
    }

    /// The same, whose steps of an era may keep so many bytes before a new one is due. Without this they may keep any number.
    pub fn bounded(self, most_bytes: u64) -> Kept
        ensures story { story_in result ≡ story_in self }
        ensures setup { setup_in result ≡ setup_in self }
        ensures bound { most_bytes_in result ≡ Some most_bytes }
        ensures logged { is_logged result ≡ is_logged self }
    {
        let Kept { parts, .. } = self;
        Kept {
            parts,
            most_bytes: Some(most_bytes),
        }
    }

    /// The site.
    pub fn site(&self) -> &Site
        ensures { result.now ≡ (story_in self.now).site }
    {
        &self.parts.site
    }

    /// What the site was told at its start.
    pub fn setup(&self) -> &Setup
        ensures { result.now ≡ setup_in self.now }
    {
        &self.parts.setup
    }

    /// The site's number.
    pub fn number(&self) -> u8
        ensures number { result ≡ (story_in self.now).site.number }
        ensures among { Numbered result (state_in (story_in self.now).site).vector }
    {
        self.parts.setup.site
    }

    /// Which part of what was done at the site its history is, from 0.
    pub fn era(&self) -> u32
        ensures { result ≡ (story_in self.now).opening.era }
    {
        self.parts.opening.era
    }

    /// How many steps a seat may still make.
    pub fn left(&self, seat: u8) -> u64
        ensures { result + made_by (story_in self.now) seat ≡ most_steps }
    {
        MOST_STEPS - self.parts.counts[seat as usize]
    }

    /// Whether the steps are logged.
    pub fn is_logged(&self) -> bool
        ensures { result ≡ is_logged self.now }
    {
        self.parts.steps.is_logged()
    }

    /// The steps so far, where they are logged, and else none.
    pub fn steps(&self) -> &Chunks<Step>
        ensures { result.now.items ≡ logged_steps self.now }
    {
        self.parts.steps.steps()
    }

    /// The last step of the era, if there is one, logged or not.
    pub fn last(&self) -> Option<&Step>
        ensures { option_copied result ≡ last_step (story_in self.now).steps }
    {
        self.parts.steps.last()
    }

    /// How many bytes the steps so far keep that are logged: the lengths of what they own, and a fixed size for each step and for each
    /// thing that it lists.
    pub fn bytes(&self) -> u64
        ensures { result ≡ kept_bytes (logged_steps self.now) }
    {
        self.parts.steps.bytes()
    }

    /// Whether the steps so far that are logged keep as many bytes as they may, or more.
    pub fn is_full(&self) -> bool
        ensures { result ≡ is_full self.now }
    {
        match self.most_bytes {
            Some(most) => most <= self.parts.steps.bytes(),
            None => false,
        }
    }

    /// Begins a new era where the site stands, and hands out the history that ends there, so that it can be let go where nobody waits.
    /// The site stays, and so do the seats' numbers of steps. Where memory is wanted, no step is logged, or this is era 2^32 - 1, nothing
    /// is done; in the two latter cases None is told.
    pub fn new_era(&mut self, alloc: Global) -> Result<Option<History>, AllocError>
        ensures does { NewEraDoes (is_logged self.old) (story_in self.old) (story_in self.new) result }
        ensures setup { IfOk result (λ ended. IfSome ended (λ history. history.setup ≡ setup_in self.old)) }
        ensures told { StaysTold self.old self.new }
    {
        self.parts.new_era(alloc)
    }

    /// The history, which ends here. Where it was not logged, what is given has no step.
    pub fn history(self) -> History
        ensures is { is_logged self ≡ true → IsHistoryOf (story_in self) result }
        ensures setup { result.setup ≡ setup_in self }
    {
        let Kept { parts, .. } = self;
        let Parts {
            setup,
            opening,
            steps,
            ..
        } = parts;
        History {
            setup,
            opening,
            steps: steps.into_steps(),
        }
    }
}

impl Kept {
    ghost use Rattle.std.specs.Prelude.{◌≤◌, ◌<◌, ◌+◌, ◌^◌};
    ghost use Rattle.geo_slabs.specs.Storage.{class_count};
    ghost use Rattle.geo_history.specs.Keeping.{most_steps, made_by, flush_count, ActForDoes, SendForDoes, TakeForDoes, RemoveForDoes, EvictForDoes, FillForDoes, RetireForDoes, TickForDoes, ReapForDoes, JuggleForDoes};
    ghost use Rattle.geo_history.specs.Stories.{story_in, StaysTold};

    /// Answers a client's request at a moment in seconds, 1 to 2^40, as [`Site::act_full`] does, and gives the reply twice. A due
    /// flush is a step of its own before it. Where memory is wanted nothing is done, or a due flush alone.
    pub fn act_for(
        &mut self,
        alloc: Global,
        seat: u8,
        now: u64,
        request: Request,
    ) -> Result<(Reply, Reply), AllocError>
        requires moment { now ≤ 2 ^ 40 }
        requires left { made_by (story_in self.old) seat + flush_count (story_in self.old) now + 1 ≤ most_steps }
        ensures does { ActForDoes (story_in self.old) (story_in self.new) seat now request result }
        ensures told { StaysTold self.old self.new }
    {
        self.parts.act_for(alloc, seat, now, request)
    }

    /// Makes a parcel for another site as [`Site::send`] does, and gives it twice. Where memory is wanted nothing is done.
    pub fn send_for(
        &mut self,
        alloc: Global,
        seat: u8,
        to: u8,
    ) -> Result<(Parcel, BoxedParcel), SendError>
        requires left { made_by (story_in self.old) seat < most_steps }
        ensures does { SendForDoes (story_in self.old) (story_in self.new) seat to result }
        ensures told { StaysTold self.old self.new }
    {
        self.parts.send_for(alloc, seat, to)
    }

    /// Takes a parcel as [`Site::take`] does. A refused parcel is handed back; where memory is wanted nothing is done.
    pub fn take_for(&mut self, alloc: Global, seat: u8, parcel: Parcel) -> Result<Taken, Refused>
        requires left { made_by (story_in self.old) seat < most_steps }
        ensures does { TakeForDoes (story_in self.old) (story_in self.new) seat parcel result }
        ensures told { StaysTold self.old self.new }
    {
        let Ok(copy) = BoxedParcel::copy_of(alloc, &parcel) else {
            let why = TakeError::Memory;
            return Err(Refused { why, parcel });
        };
        self.take_kept(alloc, seat, parcel, copy)
    }

    /// Takes a parcel as [`Kept::take_for`] does, where a copy of it is at hand for the history. It wants no memory for another.
    pub fn take_kept(
        &mut self,
        alloc: Global,
        seat: u8,
        parcel: Parcel,
        copy: BoxedParcel,
    ) -> Result<Taken, Refused>
        requires left { made_by (story_in self.old) seat < most_steps }
        requires copy { copy ≡ parcel }
        ensures does { TakeForDoes (story_in self.old) (story_in self.new) seat parcel result }
        ensures told { StaysTold self.old self.new }
    {
        self.parts.take_kept(alloc, seat, parcel, copy)
    }

    /// Drops what every site knows to be deleted, as [`Site::remove`] does, and tells how many records.
    pub fn remove_for(&mut self, seat: u8) -> Result<usize, AllocError>
        requires left { made_by (story_in self.old) seat < most_steps }
        ensures does { RemoveForDoes (story_in self.old) (story_in self.new) seat result }
        ensures told { StaysTold self.old self.new }
    {
        self.parts.remove_for(seat)
    }

    /// Drops the bytes of a key as [`Site::evict`] does, and tells whether it held any.
    pub fn evict_for(&mut self, alloc: Global, seat: u8, key: &Key) -> Result<bool, AllocError>
        requires left { made_by (story_in self.old) seat < most_steps }
        ensures does { EvictForDoes (story_in self.old) (story_in self.new) seat key.now result }
        ensures told { StaysTold self.old self.new }
    {
        self.parts.evict_for(alloc, seat, key)
    }

    /// Offers the site bytes of a key as [`Site::fill`] does, and tells what came of them. The step keeps them. Their SHA-256 is computed
    /// here unless it is known. Where memory is wanted nothing is done.
    pub fn fill_for(
        &mut self,
        alloc: Global,
        seat: u8,
        key: &Key,
        bytes: ValueBytes,
    ) -> Result<Filled, AllocError>
        requires left { made_by (story_in self.old) seat < most_steps }
        ensures does { FillForDoes (story_in self.old) (story_in self.new) seat key.now bytes result }
        ensures told { StaysTold self.old self.new }
    {
        self.parts.fill_for(alloc, seat, key, bytes)
    }

    /// Holds another site for gone for good as [`Site::retire`] does, and tells whether it did not before. Where memory is wanted for the
    /// step nothing is done.
    pub fn retire_for(&mut self, seat: u8, other: u8) -> Result<bool, RetireError>
        requires left { made_by (story_in self.old) seat < most_steps }
        ensures does { RetireForDoes (story_in self.old) (story_in self.new) seat other result }
        ensures told { StaysTold self.old self.new }
    {
        self.parts.retire_for(seat, other)
    }

    /// Carries out a flush that is due at a moment in seconds, and tells whether there was one. Without one there is no step.
    pub fn tick_for(&mut self, seat: u8, now: u64) -> Result<bool, AllocError>
        requires left { made_by (story_in self.old) seat + flush_count (story_in self.old) now ≤ most_steps }
        ensures does { TickForDoes (story_in self.old) (story_in self.new) seat now result }
        ensures told { StaysTold self.old self.new }
    {
        self.parts.tick_for(seat, now)
    }

    /// Deletes a key as [`Site::reap`] does at a moment in seconds, and tells whether it did. A due flush is a step of its own before
    /// it. Where memory is wanted nothing is done, or a due flush alone.
    pub fn reap_for(
        &mut self,
        alloc: Global,
        seat: u8,
        now: u64,
        key: &Key,
    ) -> Result<bool, ReapError>
        requires left { made_by (story_in self.old) seat + flush_count (story_in self.old) now + 1 ≤ most_steps }
        ensures does { ReapForDoes (story_in self.old) (story_in self.new) seat now key.now result }
        ensures told { StaysTold self.old self.new }
    {
        self.parts.reap_for(alloc, seat, now, key)
    }

    /// Makes the one move that is due in a slab class, 0 to 14, as [`Site::juggle`] does. It is no step.
    pub fn juggle(&mut self, class: usize) -> Result<bool, AllocError>
        requires { class < class_count }
        ensures does { JuggleForDoes (story_in self.old) (story_in self.new) class result }
        ensures told { StaysTold self.old self.new }
    {
        self.parts.juggle(class)
    }
}
