//! Whether a history begins with the start of its site.
ghost use Rattle.std.specs.Prelude.{◌≡◌, ◌≢◌, ◌≤◌, ◌<◌, ℕ, true, List, length, MatchBool, MatchOption};
ghost use Rattle.std.specs.List.{All};
ghost use Rattle.geo_stamp.specs.Acks.{row_of};
ghost use Rattle.geo_stamp.specs.Retired.{set_fits};
ghost use Rattle.geo_stamp.specs.Vectors.{zeros};
ghost use Rattle.geo_audit.specs.Openings.{OpensEmpty, IsEmpty, IsUntold, IsFirstLater};

use geo_history::History;
use geo_site::SiteState;
use geo_stamp::{Acks, Retired, Vector};

/// Whether a vector has so many entries, all 0.
fn is_zero(vector: &Vector, sites: u8) -> bool
    ensures { MatchBool result (vector.now ≡ zeros sites) (vector.now ≢ zeros sites) }
{
    vector.sites() == sites as usize && vector.greatest() == 0
}

/// Whether nothing was heard of any site.
fn is_silent(rows: &Acks, sites: u8) -> bool
    ensures { MatchBool result ((s : ℕ) → 1 ≤ s → s ≤ 16
        → row_of rows.now.rows s ≡ zeros sites) (((s : ℕ) → 1 ≤ s → s ≤ 16 → row_of rows.now.rows s ≡ zeros sites) → ⊥) }
{
    for at in 1..17u8 {
        if !is_zero(rows.row(at), sites) {
            return false;
        }
    }
    true
}

/// Whether no site is in a set.
fn names_none(set: &Retired) -> bool
    ensures { MatchBool result (set_fits 0 set.now ≡ true) (set_fits 0 set.now ≡ true → ⊥) }
{
    set.fits(0)
}

/// Whether no site told that it holds one for retired.
fn is_untold(rows: &Acks) -> bool
    ensures { MatchBool result (IsUntold rows.now) (IsUntold rows.now → ⊥) }
{
    for at in 1..17u8 {
        if !names_none(&rows.told(at)) {
            return false;
        }
    }
    true
}

/// Whether a site that is so knows and holds nothing, where there are so many sites.
fn is_empty(state: &SiteState, sites: u8) -> bool
    ensures { MatchBool result (IsEmpty sites state.now) (IsEmpty sites state.now → ⊥) }
{
    state.floor.is_none()
        && state.records.as_slice().is_empty()
        && state.held.as_slice().is_empty()
        && state.waiting.is_none()
        && state.hits == 0
        && state.misses == 0
        && state.evictions == 0
        && is_zero(&state.vector, sites)
        && is_silent(&state.rows, sites)
        && is_untold(&state.rows)
        && names_none(state.rows.retired())
        && state.rows.reached() == 0
}

/// Whether no seat had made a step.
fn are_zero(counts: &[u64]) -> bool
    ensures { MatchBool result (All (λ n. n ≡ 0) counts.now) (All (λ n. n ≡ 0) counts.now → ⊥) }
{
    for count in counts {
        if *count != 0 {
            return false;
        }
    }
    true
}

/// Whether a history begins with the start of its site.
fn opens_empty(history: &History) -> bool
    ensures { MatchBool result (OpensEmpty history.now) (OpensEmpty history.now → ⊥) }
{
    history.opening.era == 0
        && is_empty(&history.opening.state, history.setup.sites)
        && are_zero(history.opening.counts.as_slice())
}

/// The first site whose history doesn't begin with the site's start.
pub(crate) fn later_of(histories: &[History]) -> Option<u8>
    ensures { MatchOption result (All OpensEmpty histories.now) (IsFirstLater histories.now) }
{
    for history in histories {
        if !opens_empty(history) {
            return Some(history.setup.site);
        }
    }
    None
}
