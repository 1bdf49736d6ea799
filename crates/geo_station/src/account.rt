//! How many steps a seat has made.
ghost use Rattle.std.specs.Prelude.{◌≡◌, ◌≤◌, ◌<◌, ◌+◌, nat_le, length, [], IfSome};
ghost use Rattle.geo_history.specs.Keeping.{most_steps};
ghost use Rattle.geo_history.specs.Logging.{last_step};
ghost use Rattle.geo_history.specs.Stories.{story_in};
ghost use Rattle.geo_journal.specs.Marks.{Agree, with_step, marked_with};
ghost use Rattle.geo_station.specs.Wholes.{IsMadeBy};

use geo_history::{Kept, MOST_STEPS};
use geo_journal::{Journal, Mark, Room};
use std::sync::ledger::{Book, Share};

/// How many steps a seat has made, of 2^48, as its share of the ledger says too, and its mark in the one history, which has just these.
#[derive(Drop)]
pub struct Account<L: Room> {
    pub(crate) count: u64,
    pub(crate) share: Share<L>,
    pub(crate) mark: Mark<L>,
    ghost part: { share.parts ≡ 1 },
    ghost same: { share.amount ≡ count },
    ghost most: { count ≤ most_steps },
    ghost own: { length mark.own ≡ count },
}

impl<L: Room> Account<L> {
    /// The seat's number.
    pub fn number(&self) -> u8
        ensures { result ≡ self.now.mark.number }
    {
        self.mark.number()
    }

    /// Whether no step more may be made.
    pub fn is_spent(&self) -> bool
        ensures { result ≡ nat_le most_steps self.now.count }
    {
        self.count >= MOST_STEPS
    }

    /// Books the last step of a site's history, which is the seat's, and puts it into the one history.
    pub fn book(&mut self, kept: &Kept, book: &mut Book<L>, journal: &mut Journal<L>)
        requires left { self.old.count < most_steps }
        requires made { IsMadeBy (story_in kept.now) self.old.mark.number }
        ensures count { self.new.count ≡ self.old.count + 1 }
        ensures total { book.new.total ≡ book.old.total + 1 }
        ensures noted { IfSome (last_step (story_in kept.now).steps) (λ s. (journal.new ≡ with_step journal.old s)
            × (self.new.mark ≡ marked_with journal.old self.old.mark s)) }
        ensures agree { Agree journal.old self.old.mark }
    {
        let Some(step) = kept.last() else {
            unreachable!();
        };
        journal.note(&mut self.mark, step);
        book.add(&mut self.share, 1);
        self.count += 1;
    }

    /// Compares it with the one history, which has just its steps.
    pub fn compare(&mut self, journal: &mut Journal<L>)
        ensures same { (self.new.count ≡ self.old.count) × (self.new.mark ≡ self.old.mark) × (journal.new ≡ journal.old) }
        ensures agree { Agree journal.old self.old.mark }
    {
        journal.compare(&mut self.mark);
    }

    /// An account without steps, over a part of the ledger.
    pub fn new(share: Share<L>, mark: Mark<L>) -> Account<L>
        requires parts { share.parts ≡ 1 }
        requires amount { share.amount ≡ 0 }
        requires own { mark.own ≡ [] }
        ensures count { result.count ≡ 0 }
        ensures mark { result.mark ≡ mark }
    {
        Account {
            count: 0,
            share,
            mark,
        }
    }

    /// Its part of the ledger.
    pub fn into_share(self) -> Share<L>
        ensures parts { result.parts ≡ 1 }
        ensures amount { result.amount ≡ self.count }
    {
        let Account { share, .. } = self;
        share
    }
}
