//! The audit of all sites' histories.
ghost use Rattle.std.specs.Prelude.{◌≡◌, ◌+◌, ◌<◌, Some, IfOk, length, slice_get};
ghost use Rattle.std.specs.List.{All};
ghost use Rattle.geo_audit.specs.Openings.{OpensEmpty};
ghost use Rattle.geo_audit.specs.Playing.{HasOpened};
ghost use Rattle.geo_audit.specs.Verdicts.{AreInOrder, Fails, Judges};

use crate::merge::Merge;
use crate::opening::later_of;
use crate::play::Play;
use crate::verdict::Verdict;
use geo_history::History;
use std::alloc::{AllocError, Global};

/// The step after so many of a history tells what is not so.
fn wrong_after(histories: &[History], at: usize, count: usize) -> Verdict
    requires order { AreInOrder histories.now }
    requires fresh { All OpensEmpty histories.now }
    requires there { at < length histories.now }
    requires more { (h : History) → slice_get histories.now at ≡ Some h → count < length h.steps.items }
    requires fails { Fails histories.now (at + 1) (count + 1) }
    ensures { Judges histories.now result }
{
    let history = &histories[at];
    let steps = history.steps.len();
    prove!(count < steps);
    Verdict::Wrong {
        site: history.setup.site,
        step: count + 1,
    }
}

/// Takes the next step of the first history that can go on, until none can or one tells what is not so.
fn merge_all(alloc: Global, histories: &[History], play: Play) -> Result<Verdict, AllocError>
    requires order { AreInOrder histories.now }
    requires fresh { All OpensEmpty histories.now }
    requires opened { HasOpened histories.now play }
    ensures { IfOk result (Judges histories.now) }
{
    let mut merge = Merge::new(alloc, histories, play)?;
    while let Some((at, number)) = merge.least(histories) {
        let count = merge.counts[at];
        if !merge.turn(alloc, histories, at, number)? {
            return Ok(wrong_after(histories, at, count));
        }
    }
    Ok(merge.verdict(histories))
}

/// Puts the histories of sites 1, 2 and so on together into one schedule, and carries it out at sites with the setups of the
/// histories. Whether a history begins with the start of its site is tested first, and then whether the setups are those of sites 1
/// to n. Then each turn takes the next step of the first site that can go on: a take can once an equal parcel was sent, and any other
/// step always. A recorded victim is evicted before its step. Want of memory is the only Err.
///
/// `Wrong` is the first step that is not what comes next in this run: its event is not there or beyond 2^40 seconds, a flush is due
/// before it, its victim is not held, or something else comes of it. Where a class was full and no victim was recorded, that is a
/// victim by the order of items of these sites, of which a history says nothing.
pub fn audit(alloc: Global, histories: &[History]) -> Result<Verdict, AllocError>
    requires order { AreInOrder histories.now }
    ensures judges { IfOk result (Judges histories.now) }
{
    if let Some(site) = later_of(histories) {
        return Ok(Verdict::LaterEra { site });
    }
    match Play::open(alloc, histories)? {
        Some(play) => merge_all(alloc, histories, play),
        None => Ok(Verdict::Wrong { site: 0, step: 0 }),
    }
}
