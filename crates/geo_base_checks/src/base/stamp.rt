//! Stamps, vectors, and what was heard of other sites.
ghost use Rattle.std.specs.Prelude.{◌≡◌, ◌≤◌, ◌<◌};

use crate::base::text::{check, join, show_number, show_numbers};
use geo_lattice::Twin;
use geo_stamp::{Acks, LAST_TIME, Retired, Stamp, Vector};
use std::alloc::AllocError;
use std::process::Abort;
use std::test::Fail;

mod table;

use table::{ACKS, At, Hearing, LEASTS, SETS, STAMPS, Step, VECTORS, VectorRow};

/// Shows whether a stamp is later than the one before it, and what it is.
fn show_stamp(out: &mut String, before: At, at: At) -> Result<(), AllocError> {
    let Some(stamp) = Stamp::new(at.0, at.1) else {
        return out.push_str("none");
    };
    if let Some(earlier) = Stamp::new(before.0, before.1) {
        out.push_str(if earlier < stamp {
            "later"
        } else {
            "not later"
        })?;
    }
    show_numbers(out, &[stamp.time(), u64::from(stamp.site()), stamp.cas()])
}

#[test]
fn stamps_are_in_range_and_go_by_time_and_then_by_site(rt: HostRuntime) -> Result<(), Fail> {
    let mut out = String::new(rt.alloc());
    let mut before = (0, 0);
    for (at, want) in STAMPS {
        out.clear();
        show_stamp(&mut out, before, *at)?;
        check(&rt, out.as_str(), want);
        before = *at;
    }
    Ok(())
}

/// A vector of these clocks.
fn clocks(times: &[u64]) -> Vector {
    let mut vector = Vector::new(times.len().min(16));
    let mut site = 0u8;
    for time in times {
        site = site.saturating_add(1);
        vector.raise(site, (*time).min(LAST_TIME));
    }
    vector
}

fn show_knows(out: &mut String, vector: &Vector, at: At) -> Result<(), AllocError> {
    match Stamp::new(at.0, at.1) {
        Some(stamp) if vector.knows(&stamp) => out.push_str("knows"),
        _ => out.push_str("knows not"),
    }
}

fn step(out: &mut String, vector: &mut Vector, step: Step) -> Result<(), AllocError> {
    match step {
        Step::Look => Ok(()),
        Step::Raise(site, time) => {
            vector.raise(site, time.min(LAST_TIME));
            Ok(())
        }
        Step::Knows(at) => show_knows(out, vector, at),
        Step::Join(times) => join(out, vector, clocks(times).twin(*out.allocator())?),
    }
}

/// Shows a copy of a vector: how many entries it has, its greatest and least entry, and the first four.
fn show_vector(out: &mut String, vector: &Vector) -> Result<(), AllocError> {
    let vector = vector.copied();
    write!(out, ":{}", vector.sites())?;
    show_numbers(out, &[vector.greatest(), vector.least()])?;
    out.push_str(",")?;
    for site in 1..5 {
        show_number(out, vector.entry(site))?;
    }
    Ok(())
}

fn vector_rows(
    rt: &impl Abort,
    out: &mut String,
    vector: &mut Vector,
    rows: &[VectorRow],
) -> Result<(), AllocError> {
    for (what, want) in rows {
        out.clear();
        step(out, vector, *what)?;
        show_vector(out, vector)?;
        check(rt, out.as_str(), want);
    }
    Ok(())
}

#[test]
fn a_vector_is_raised_and_joined(rt: HostRuntime) -> Result<(), Fail> {
    let mut out = String::new(rt.alloc());
    for (times, rows) in VECTORS {
        vector_rows(&rt, &mut out, &mut clocks(times), rows)?;
    }
    Ok(())
}

#[test]
fn the_least_entry_is_that_of_the_sites_asked_for(rt: HostRuntime) -> Result<(), Fail> {
    let mut out = String::new(rt.alloc());
    for (times, sites, retired, want) in LEASTS {
        let vector = clocks(times);
        let sites = (*sites).min(16);
        out.clear();
        show_number(&mut out, vector.least_up_to(sites))?;
        show_number(&mut out, vector.least_outside(sites, &set_of(retired)))?;
        check(&rt, out.as_str(), want);
    }
    Ok(())
}

/// A set of these sites.
fn set_of(sites: &[u8]) -> Retired {
    let mut set = Retired::none();
    for site in sites {
        set.add((*site).clamp(1, 16));
    }
    set
}

/// Shows the sites of a set.
fn show_set(out: &mut String, set: &Retired) -> Result<(), AllocError> {
    out.push_str(if set.is_empty() { " none" } else { " of" })?;
    for site in 0..=17 {
        if set.has(site) {
            show_number(out, u64::from(site))?;
        }
    }
    Ok(())
}

/// Shows the union of two sets, its number, the set of that number, and whether it fits two sites.
fn show_union(out: &mut String, one: &[u8], other: &[u8]) -> Result<(), AllocError> {
    let mut all = set_of(one);
    join(out, &mut all, set_of(other).twin(*out.allocator())?)?;
    show_set(out, &all)?;
    show_number(out, all.bits())?;
    show_set(out, &Retired::of_bits(all.bits()))?;
    out.push_str(if all.fits(2) { " fits" } else { " fits not" })
}

#[test]
fn sets_of_retired_sites_are_joined_and_are_numbers(rt: HostRuntime) -> Result<(), Fail> {
    let mut out = String::new(rt.alloc());
    for (one, other, want) in SETS {
        out.clear();
        show_union(&mut out, one, other)?;
        check(&rt, out.as_str(), want);
    }
    Ok(())
}

/// What a site, 1 to 16, tells, joined to what was heard of it before.
fn hear(acks: &mut Acks, site: u8, times: &[u64], retired: &[u8]) {
    acks.heard(site.clamp(1, 16), &clocks(times), &set_of(retired));
}

/// Retires a site, and shows whether it was not retired before.
fn retire(out: &mut String, acks: &mut Acks, site: u8) -> Result<(), AllocError> {
    let is_new = acks.retire(site.clamp(1, 16));
    out.push_str(if is_new { " new" } else { " again" })
}

/// Keeps the horizon of a site that knows so much in a copy, and shows what is kept.
fn look(out: &mut String, acks: &mut Acks, site: u8, times: &[u64]) -> Result<(), AllocError> {
    let mut looked = acks.copied();
    looked.look(site.clamp(1, 16), &clocks(times));
    show_number(out, looked.reached())?;
    *acks = looked;
    Ok(())
}

/// Shows the horizon of a site that knows so much.
fn show_horizon(out: &mut String, acks: &Acks, site: u8, times: &[u64]) -> Result<(), AllocError> {
    show_number(out, acks.horizon(site.clamp(1, 16), &clocks(times)))
}

fn hear_or_ask(out: &mut String, acks: &mut Acks, what: Hearing) -> Result<(), AllocError> {
    match what {
        Hearing::Heard(site, times) => {
            hear(acks, site, times, &[]);
            Ok(())
        }
        Hearing::Told(site, times, retired) => {
            hear(acks, site, times, retired);
            Ok(())
        }
        Hearing::Retire(site) => retire(out, acks, site),
        Hearing::Look(site, times) => look(out, acks, site, times),
        Hearing::Set => show_set(out, acks.retired()),
        Hearing::SetOf(site) => show_set(out, &acks.told(site.clamp(1, 16))),
        Hearing::Row(site) => show_vector(out, acks.row(site.clamp(1, 16))),
        Hearing::Horizon(site, times) => show_horizon(out, acks, site, times),
    }
}

#[test]
fn the_horizon_is_the_least_that_any_site_knows_of_any(rt: HostRuntime) -> Result<(), Fail> {
    let mut out = String::new(rt.alloc());
    for (sites, rows, want) in ACKS {
        let mut acks = Acks::new((*sites).min(16));
        out.clear();
        for what in *rows {
            hear_or_ask(&mut out, &mut acks, *what)?;
        }
        check(&rt, out.as_str(), want);
    }
    Ok(())
}
