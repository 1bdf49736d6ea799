//! What the words keep, and the four kinds of step.
ghost use Rattle.std.specs.Prelude.{◌≡◌};

use crate::counter::Counts;
use atomic_table::{Join, Play, Split, TableRule};

/// What a seat knows: its parts of all seats, and what it added. No value of it is made.
pub(crate) struct Adds {
    pub parts: u64,
    pub counts: Counts,
}

/// Each word is the sum of what all seats added to it. It is told how many seats there are.
pub(crate) struct Sums;

impl TableRule<(), Adds, usize> for Sums {
    ghost use Rattle.geo_tally.specs.Counts.{no_counts};
    ghost use Rattle.geo_tally.specs.Words.{Holds, adds};

    ghost holds = { λ seats s. Holds seats s };

    ghost first = { λ seats. adds seats no_counts };
}

/// `fetch_add`: one word rises by one, and so does what the adder added.
pub(crate) struct AddOne;

impl Play<(), Adds> for AddOne {
    ghost use Rattle.geo_tally.specs.Words.{AddsOne};

    ghost then = { AddsOne };
}

/// `load`: nothing changes.
pub(crate) struct Look;

impl Play<(), Adds> for Look {
    ghost use Rattle.geo_tally.specs.Words.{Finds};

    ghost then = { Finds };
}

/// `split_seat`: one part goes to a new seat, which has added nothing.
pub(crate) struct OnePart;

impl Split<Adds> for OnePart {
    ghost use Rattle.geo_tally.specs.Words.{all_but_one_part, one_part};

    ghost left = { all_but_one_part };

    ghost right = { λ _. one_part };
}

/// `join_seat`: the parts and counts of one seat go to another, and it is left with none.
pub(crate) struct Together;

impl Join<Adds> for Together {
    ghost use Rattle.geo_tally.specs.Words.{adds_together, no_part};

    ghost both = { adds_together };

    ghost spent = { no_part };
}
