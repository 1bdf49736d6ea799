//! The table that holds a history together.

use atomic_table::{Join, Play, Seat, Split, Table, TableRule};
use geo_history::Step;
use geo_site::{Limits, Setup};
use std::alloc::Global;
use std::collections::LinkedList;
use std::marker::Brand;
use std::sync::ledger::Ledger;

/// Names one table, and one ledger. Each call of a program picks them.
pub trait Room: Ledger {
    ghost use Rattle.atomic_table.specs.Seated.{TableId};

    ghost table: { TableId };
}

impl Room for Brand {
    ghost use Rattle.geo_journal.specs.Views.{no_table};

    ghost table = { no_table };
}

/// What a site was told at its start, as far as what it does goes by it.
#[derive(Clone, Copy, Debug, PartialEq, Eq)]
pub struct Start {
    /// Its number, from 1 to the number of sites.
    pub site: u8,
    /// How many sites there are.
    pub sites: u8,
    pub limits: Limits,
}

impl Start {
    ghost use Rattle.std.specs.Prelude.{◌≡◌};
    ghost use Rattle.geo_journal.specs.Marks.{start_of};

    /// What a setup tells of it.
    pub fn of(setup: &Setup) -> Start
        ensures { result ≡ start_of setup.now }
    {
        Start {
            site: setup.site,
            sites: setup.sites,
            limits: Limits {
                max_records: setup.max_records,
                reap_after: setup.reap_after,
            },
        }
    }
}

/// What a pass knows: the whole history and how many seats were given, the steps of the seat that it sits on and what that has seen, or
/// both. No value of it is made.
pub struct View {
    pub keeps: bool,
    pub opened: Start,
    pub all: LinkedList<Step>,
    pub given: u64,
    pub sits: bool,
    pub start: Start,
    pub seat: u64,
    pub own: LinkedList<Step>,
    pub seen: LinkedList<Step>,
}

/// The rule of the table.
pub struct OneHistory;

impl TableRule<Step, View, Start> for OneHistory {
    ghost use Rattle.std.specs.Prelude.{[]};
    ghost use Rattle.geo_journal.specs.Views.{keeper, IsKept};

    ghost holds = { λ _ s. IsKept s.views };

    ghost first = { λ start. keeper start [] 0 };
}

/// A pass of the table. It has no bytes.
pub type Pass = Seat<Step, View>;

/// The table. It has one word, which is always 0.
pub type Ties = Table<Step, View, Start, OneHistory, Global>;

/// A step goes into the history.
pub struct Appends;

impl Play<Step, View> for Appends {
    ghost use Rattle.geo_journal.specs.Views.{Appended};

    ghost then = { Appended };
}

/// A seat is compared with the history.
pub struct Checks;

impl Play<Step, View> for Checks {
    ghost use Rattle.geo_journal.specs.Views.{Checked};

    ghost then = { Checked };
}

/// The seat's part stays, and the keeper's goes.
pub struct Parts;

impl Split<View> for Parts {
    ghost use Rattle.geo_journal.specs.Views.{seat_part, keeper_part};

    ghost left = { seat_part };

    ghost right = { keeper_part };
}

/// A seat takes the keeper's part in.
pub struct Meets;

impl Join<View> for Meets {
    ghost use Rattle.geo_journal.specs.Views.{met, nobody};

    ghost both = { met };

    ghost spent = { nobody };
}

/// The keeper gives a seat.
pub struct Gives;

impl Split<View> for Gives {
    ghost use Rattle.geo_journal.specs.Views.{giver, newcomer};

    ghost left = { giver };

    ghost right = { newcomer };
}
