//! Tables of lines that sites carry out, each with what it is to append.
mod lacking;
mod lines;
mod retired;
mod shown;
mod table;
mod told;

use crate::site::lines::{cut, number, small, step};
use geo_delta::Parcel;
use geo_site::{Setup, SetupError, Site};
use std::alloc::Global;
use std::hash::RandomState;
use std::process::Abort;
use std::random::RandomSource;
use std::test::Fail;

/// A line, and what it appends.
pub type Row = (&'static str, &'static str);

/// The sites that a scene opens, and its rows.
#[derive(Drop)]
pub struct Scene {
    pub sites: u8,
    pub pages: u32,
    pub records: u32,
    pub rows: &'static [Row],
}

/// Sites of a scene that keep what ended for sixty seconds.
fn opened(alloc: Global, scene: &Scene, hasher: &RandomState) -> Result<Vec<Site>, Fail> {
    let mut sites = Vec::new(alloc);
    for index in 0..scene.sites {
        let setup = Setup {
            site: index.wrapping_add(1),
            sites: scene.sites,
            pages: scene.pages,
            max_records: scene.records,
            reap_after: 60,
            hasher: hasher.clone()?,
        };
        sites.push(Site::new(alloc, setup).ok().ok_or("no site")?)?;
    }
    Ok(sites)
}

/// What a line appends is what stands beside it.
fn plays_row(
    rt: &impl Abort,
    alloc: Global,
    sites: &mut Vec<Site>,
    parcels: &mut Vec<Parcel>,
    line: &str,
    want: &str,
) -> Result<(), Fail> {
    let mut out = Vec::new(alloc);
    step(alloc, sites, parcels, line, &mut out)?;
    let got = str::from_utf8(out.as_slice()).unwrap_or("no text");
    assert_eq!(rt; got, want, "{line:?}");
    Ok(())
}

fn plays_rows(
    rt: &impl Abort,
    alloc: Global,
    sites: &mut Vec<Site>,
    parcels: &mut Vec<Parcel>,
    rows: &[Row],
) -> Result<(), Fail> {
    for (line, want) in rows {
        plays_row(rt, alloc, sites, parcels, line, want)?;
    }
    Ok(())
}

fn plays_scene(
    rt: &impl Abort,
    alloc: Global,
    hasher: &RandomState,
    scene: &Scene,
) -> Result<(), Fail> {
    let mut sites = opened(alloc, scene, hasher)?;
    let mut parcels = Vec::new(alloc);
    plays_rows(rt, alloc, &mut sites, &mut parcels, scene.rows)
}

fn plays(rt: &(impl Abort + RandomSource + AllocGlobal), scenes: &[Scene]) -> Result<(), Fail> {
    let hasher = RandomState::new(rt)?;
    for scene in scenes {
        plays_scene(rt, rt.alloc(), &hasher, scene)?;
    }
    Ok(())
}

#[test]
fn what_a_site_tells_beside_a_reply(rt: HostRuntime) -> Result<(), Fail> {
    plays(&rt, table::REPLIES)
}

#[test]
fn what_ended_is_deleted_after_its_time(rt: HostRuntime) -> Result<(), Fail> {
    plays(&rt, table::ENDS)
}

#[test]
fn what_a_take_refuses_and_what_it_drops(rt: HostRuntime) -> Result<(), Fail> {
    plays(&rt, table::TAKES)
}

#[test]
fn what_a_retired_site_told_is_forgotten_once_all_others_say_so(
    rt: HostRuntime,
) -> Result<(), Fail> {
    plays(&rt, retired::RETIREMENTS)
}

#[test]
fn what_a_site_lacks_of_what_it_learned(rt: HostRuntime) -> Result<(), Fail> {
    plays(&rt, lacking::LACKS)
}

#[test]
fn what_a_parcel_tells_and_leaves_out(rt: HostRuntime) -> Result<(), Fail> {
    plays(&rt, table::PARCELS)
}

#[test]
fn what_is_answered_after_the_last_stamp(rt: HostRuntime) -> Result<(), Fail> {
    plays(&rt, table::CLOCKS)
}

/// What comes of a setup: its site, the number of sites, pages and records are the words of a line.
fn refusal(alloc: Global, line: &str, hasher: RandomState) -> Option<SetupError> {
    let (site, rest) = cut(line);
    let (sites, rest) = cut(rest);
    let (pages, records) = cut(rest);
    let setup = Setup {
        site: small(site),
        sites: small(sites),
        pages: number(pages).min(1 << 31) as u32,
        max_records: number(records).min(1 << 31) as u32,
        reap_after: 60,
        hasher,
    };
    Site::new(alloc, setup).err()
}

#[test]
fn refuses_setups_in_their_order(rt: HostRuntime) -> Result<(), Fail> {
    for (line, refused) in table::SETUPS {
        let hasher = RandomState::new(&rt)?;
        assert_eq!(rt; refusal(rt.alloc(), line, hasher), *refused, "{line}");
    }
    Ok(())
}
