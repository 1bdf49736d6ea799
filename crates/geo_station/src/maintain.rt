//! What a site needs from time to time.
ghost use Rattle.std.specs.Prelude.{◌≡◌, ◌+◌, ◌≤◌, ◌<◌, false, IfOk, IfErr, IfSome, IfNone};
ghost use Rattle.geo_history.specs.Keeping.{most_steps, made_by, is_flush_due};
ghost use Rattle.geo_slabs.specs.Storage.{class_count};
ghost use Rattle.geo_history.specs.Stories.{story_in};

use crate::account::Account;
use crate::desk::{Desk, EndedEras};
use crate::refusal::SeatSpent;
use geo_journal::Room;
use geo_lattice::Twin;
use geo_site::ReapError;
use geo_slabs::CLASSES;
use geo_versions::Key;
use std::alloc::Global;

/// How many keys a maintenance deletes at most.
const MOST_REAPS: usize = 16;

/// How many items it moves at most in a slab class.
const MOST_MOVES: usize = 64;

/// What a maintenance of a site did.
#[derive(Clone, Copy, Debug, PartialEq, Eq)]
pub struct Maintained {
    /// Whether a due flush was carried out.
    pub flushed: bool,
    /// How many keys were deleted whose writes had ended, 16 at most.
    pub reaped: usize,
    /// How many records were dropped that every site knows to be deleted.
    pub removed: usize,
    /// How many items moved between the lists of their slab classes, 64 at most of each.
    pub juggled: usize,
    /// Whether one of these was refused, so that those behind it were left out.
    pub refused: bool,
}

/// How many keys were deleted, and whether one was refused.
#[derive(Clone, Copy)]
struct Reaps {
    count: usize,
    refused: bool,
}

/// How many items moved, and whether a move was refused.
#[derive(Clone, Copy)]
struct Moves {
    count: usize,
    refused: bool,
}

impl<L: Room> Desk<L> {
    ghost use Rattle.geo_station.specs.Eras.{EndsWhereFull, ended_by};
    ghost use Rattle.geo_station.specs.Maintenance.{ReapsSo, Maintains};
    ghost use Rattle.geo_station.specs.Wholes.{NotesCare, AddsCare};

    /// Deletes a key whose write ended, for a seat, where no flush is due, and tells whether it was deleted; None where that wanted memory.
    fn reap(&mut self, alloc: Global, account: &mut Account<L>, now: u64, key: &Key) -> Option<bool>
        requires undue { is_flush_due (story_in self.old.kept) now ≡ false }
        requires history { made_by (story_in self.old.kept) account.old.mark.number < most_steps }
        requires account { account.old.count < most_steps }
        ensures undue { is_flush_due (story_in self.new.kept) now ≡ false }
        ensures some { IfSome result (λ _. account.new.count ≡ account.old.count + 1) }
        ensures none { IfNone result (account.new.count ≡ account.old.count) }
        ensures noted { NotesCare self.old.journal self.new.journal account.old.mark account.new.mark }
    {
        match self.kept.reap_for(alloc, account.number(), now, key) {
            Ok(is_deleted) => {
                account.book(&self.kept, &mut self.book, &mut self.journal);
                Some(is_deleted)
            }
            Err(ReapError::ClockEnded) => {
                account.book(&self.kept, &mut self.book, &mut self.journal);
                Some(false)
            }
            Err(ReapError::Memory) => None,
        }
    }

    /// Deletes keys whose writes ended long enough ago, for a seat, where no flush is due.
    fn reap_due(&mut self, alloc: Global, account: &mut Account<L>, now: u64) -> Reaps
        requires undue { is_flush_due (story_in self.old.kept) now ≡ false }
        ensures counted { ReapsSo account.old.count account.new.count result.count result.refused }
        ensures noted { NotesCare self.old.journal self.new.journal account.old.mark account.new.mark }
    {
        for count in 0..MOST_REAPS {
            let Some(key) = self.kept.site().due(now) else {
                return Reaps {
                    count,
                    refused: false,
                };
            };
            let refused = Reaps {
                count,
                refused: true,
            };
            let Ok(key) = key.twin(alloc) else {
                return refused;
            };
            if account.is_spent() || !self.has_room(account) {
                return refused;
            }
            match self.reap(alloc, account, now, &key) {
                Some(true) => {}
                Some(false) => return refused,
                None => return refused,
            }
        }
        Reaps {
            count: MOST_REAPS,
            refused: false,
        }
    }

    /// Drops what every site knows to be deleted, for a seat, and tells how many records; None where that was refused.
    fn remove(&mut self, account: &mut Account<L>) -> Option<usize>
        ensures some { IfSome result (λ _. account.new.count ≡ account.old.count + 1) }
        ensures none { IfNone result (account.new.count ≡ account.old.count) }
        ensures noted { NotesCare self.old.journal self.new.journal account.old.mark account.new.mark }
    {
        if account.is_spent() || !self.has_room(account) {
            return None;
        }
        match self.kept.remove_for(account.number()) {
            Ok(removed) => {
                account.book(&self.kept, &mut self.book, &mut self.journal);
                Some(removed)
            }
            Err(_) => None,
        }
    }

    /// Makes the moves that are due in a slab class. None is a step.
    fn juggle_class(&mut self, class: usize) -> Moves
        requires { class < class_count }
        ensures few { result.count ≤ 64 }
        ensures journal { self.new.journal ≡ self.old.journal }
    {
        for count in 0..MOST_MOVES {
            match self.kept.juggle(class) {
                Ok(true) => {}
                Ok(false) => {
                    return Moves {
                        count,
                        refused: false,
                    };
                }
                Err(_) => {
                    return Moves {
                        count,
                        refused: true,
                    };
                }
            }
        }
        Moves {
            count: MOST_MOVES,
            refused: false,
        }
    }

    /// Makes them in each class, up to the first that is refused.
    fn juggle(&mut self) -> Moves
        ensures { self.new.journal ≡ self.old.journal }
    {
        let mut count = 0;
        for class in 0..CLASSES {
            let moves = self.juggle_class(class);
            count += moves.count;
            if moves.refused {
                return Moves {
                    count,
                    refused: true,
                };
            }
        }
        Moves {
            count,
            refused: false,
        }
    }

    /// Does for a seat what the site needs from time to time, up to the first that is refused.
    fn maintain_in_era(
        &mut self,
        alloc: Global,
        account: &mut Account<L>,
        now: u64,
    ) -> Result<Maintained, SeatSpent>
        ensures ok { IfOk result (Maintains account.old.count account.new.count) }
        ensures err { IfErr result (λ _. account.new.count ≡ account.old.count) }
        ensures spent { IfErr result (λ _. most_steps ≤ account.old.count) }
        ensures noted { NotesCare self.old.journal self.new.journal account.old.mark account.new.mark }
    {
        if account.is_spent() {
            return Err(SeatSpent);
        }
        let mut done = Maintained {
            flushed: false,
            reaped: 0,
            removed: 0,
            juggled: 0,
            refused: true,
        };
        if !self.has_room(account) {
            return Ok(done);
        }
        let Ok(flushed) = self.tick(account, now) else {
            return Ok(done);
        };
        done.flushed = flushed;
        let reaps = self.reap_due(alloc, account, now);
        done.reaped = reaps.count;
        if reaps.refused {
            return Ok(done);
        }
        let Some(removed) = self.remove(account) else {
            return Ok(done);
        };
        done.removed = removed;
        let moves = self.juggle();
        done.juggled = moves.count;
        done.refused = moves.refused;
        Ok(done)
    }
    /// Does for a seat what the site needs from time to time as [`Desk::maintain_in_era`] does, and ends the era where that filled it.
    pub(crate) fn maintain(
        &mut self,
        alloc: Global,
        account: &mut Account<L>,
        now: u64,
        ended: &mut EndedEras,
    ) -> Result<Maintained, SeatSpent>
        ensures ok { IfOk result (Maintains account.old.count account.new.count) }
        ensures err { IfErr result (λ _. account.new.count ≡ account.old.count) }
        ensures spent { IfErr result (λ _. most_steps ≤ account.old.count) }
        ensures adds { AddsCare account.old.mark account.new.mark }
        ensures ended { EndsWhereFull self.new.kept (ended_by ended.new) }
    {
        let outcome = self.maintain_in_era(alloc, account, now);
        *ended = self.end_full(alloc);
        outcome
    }
}
