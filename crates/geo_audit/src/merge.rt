//! Steps of several histories, put one after the other.
ghost use Rattle.std.specs.Prelude.{◌≡◌, ℕ, ◌+◌, ◌<◌, ◌≤◌, IfOk, MatchOption, MatchBool, length, slice_get, slice_index, replicate};
ghost use Rattle.geo_audit.specs.Playing.{HasOpened};
ghost use Rattle.geo_audit.specs.Verdicts.{AreInOrder, HasMore, Judges};
ghost use Rattle.geo_audit.specs.Openings.{OpensEmpty};
ghost use Rattle.geo_audit.specs.Merging.{IsMerging, GoesAt, AllHalt, Turns, AllTaken};
ghost use Rattle.std.specs.List.{All};

use crate::play::Play;
use crate::sent::Sent;
use crate::verdict::Verdict;
use geo_history::History;
use std::alloc::{AllocError, Global};

/// What was taken of histories so far.
#[derive(Drop)]
pub struct Merge {
    /// How many steps of each history.
    pub(crate) counts: Vec<usize>,
    pub(crate) sent: Sent,
    pub(crate) play: Play,
}

/// Whether all steps are taken.
fn are_taken(counts: &[usize], histories: &[History]) -> bool
    requires many { length counts.now ≡ length histories.now }
    requires within { (k : ℕ) (h : History) → slice_get histories.now k ≡ Some h → slice_index counts.now k ≤ length h.steps.items }
    ensures { MatchBool result (AllTaken histories.now counts.now) (HasMore histories.now counts.now) }
{
    for at in 0..histories.len() {
        if counts[at] < histories[at].steps.len() {
            return false;
        }
    }
    true
}

/// No steps of so many histories.
fn no_steps(alloc: Global, many: usize) -> Result<Vec<usize>, AllocError>
    ensures { IfOk result (λ counts. counts.items ≡ replicate many 0) }
{
    vec![in alloc; 0; many]
}

impl Merge {
    /// Nothing was taken.
    pub(crate) fn new(alloc: Global, histories: &[History], play: Play) -> Result<Merge, AllocError>
        requires { HasOpened histories.now play }
        ensures { IfOk result (IsMerging histories.now) }
    {
        let counts = no_steps(alloc, histories.len())?;
        Ok(Merge {
            counts,
            sent: Sent::new(alloc),
            play,
        })
    }

    /// The first history that can go on, and with which parcel, where it takes one.
    pub(crate) fn least(&self, histories: &[History]) -> Option<(usize, usize)>
        requires { IsMerging histories.now self.now }
        ensures { MatchOption result (AllHalt histories.now self.now) (λ p. GoesAt histories.now self.now p.0 p.1) }
    {
        for at in 0..histories.len() {
            let count = self.counts[at];
            if let Some(number) = self.sent.can_go(histories, &histories[at], count) {
                return Some((at, number));
            }
        }
        None
    }

    /// Carries out the next step of a history, which can go on, and takes it where what comes of it is what it tells.
    pub(crate) fn turn(
        &mut self,
        alloc: Global,
        histories: &[History],
        at: usize,
        number: usize,
    ) -> Result<bool, AllocError>
        requires order { AreInOrder histories.now }
        requires merging { IsMerging histories.now self.old }
        requires goes { GoesAt histories.now self.old at number }
        requires there { at < length histories.now }
        ensures { IfOk result (Turns histories.now self.old self.new at) }
    {
        let count = self.counts[at];
        let history = &histories[at];
        let _steps = history.steps.len();
        let Some(step) = history.steps.get(count) else {
            unreachable!();
        };
        if !self
            .play
            .replays(alloc, at, history.setup.site, number, step)?
        {
            return Ok(false);
        }
        self.sent.note(histories, at, count, &step.answer)?;
        self.counts[at] = count + 1;
        Ok(true)
    }

    /// What is found where none can go on.
    pub(crate) fn verdict(self, histories: &[History]) -> Verdict
        requires fresh { All OpensEmpty histories.now }
        requires merging { IsMerging histories.now self }
        requires halt { AllHalt histories.now self }
        ensures { Judges histories.now result }
    {
        let Merge { counts, play, .. } = self;
        if are_taken(&counts, histories) {
            let Play { events, .. } = play;
            Verdict::Sound(events)
        } else {
            Verdict::Stuck(counts)
        }
    }
}
