//! The world of a script: its sites and the parcels between them, and the connections of its clients.
ghost use Rattle.std.specs.Prelude.{◌≡◌, ◌≤◌, ◌^◌, length, IfErr, IfOk};
ghost use Rattle.geo_cluster.specs.Reads.{said_by, IsInRange};
ghost use Rattle.geo_cluster.specs.Sayings.{SaysSites, SaysAt, SaysVersions};
ghost use Rattle.geo_cluster.specs.declared.script.line.ScriptLine.TheVariants.{Sites};

use crate::script::connection::Connection;
use crate::script::line::ScriptLine;
use crate::script::listing::versions_lines;
use crate::script::setups::{connections, opened, told};
use geo_requests::ValueBytes;
use geo_world::{Event, World};
use std::alloc::{AllocError, Global};
use std::hash::RandomState;

/// What a script has set up so far: its sites by their numbers from 1 with the parcels between them, the connection of each site's
/// client, and the moment.
#[derive(Drop)]
pub struct Cluster {
    hasher: RandomState,
    pub(super) moment: u64,
    pub(super) world: World,
    pub(super) connections: Vec<Connection>,
    ghost timely: { moment ≤ 2 ^ 40 },
}

impl Cluster {
    ghost use Rattle.geo_cluster.specs.Progress.{opening};
    ghost use Rattle.geo_cluster.specs.Standing.{Stands, LineDoes};
    ghost use Rattle.geo_cluster.specs.Wants.{WantsFor};

    /// No sites yet, and the moment 1.
    pub fn new(alloc: Global, hasher: RandomState) -> Cluster
        ensures { Stands opening result }
    {
        let world = World {
            sites: Vec::new(alloc),
            parcels: Vec::new(alloc),
        };
        Cluster {
            hasher,
            moment: 1,
            world,
            connections: Vec::new(alloc),
        }
    }

    /// How many sites were set up.
    pub fn sites(&self) -> usize
        ensures { result ≡ length self.now.world.sites.items }
    {
        self.world.sites.len()
    }

    /// Carries out a line, and answers what it prints. None where it can't be carried out: a bad line. Want of memory may leave the
    /// line half done.
    pub fn carry_out(
        &mut self,
        alloc: Global,
        line: ScriptLine,
    ) -> Result<Option<Vec<u8>>, AllocError>
        requires { IsInRange line }
        ensures does { IfOk result (λ o. LineDoes self.old (said_by line) o self.new) }
        ensures wants { IfErr result (λ _. WantsFor self.old (said_by line)) }
    {
        let now = self.moment;
        match line {
            ScriptLine::Sites {
                count,
                pages,
                max,
                reap,
            } => self.set_up(alloc, count, pages, max, reap),
            ScriptLine::At(moment) => Ok(self.set_moment(alloc, moment)),
            ScriptLine::Client { site, text } => self.feed(alloc, site, text.as_slice()),
            ScriptLine::Send { from, to } => self.happen(alloc, Event::Send { site: from, to }),
            ScriptLine::Take { site, parcel } => {
                let parcel = parcel as usize;
                self.happen(alloc, Event::Take { site, parcel })
            }
            ScriptLine::Tick { site } => self.happen(alloc, Event::Tick { site, now }),
            ScriptLine::Remove { site } => self.happen(alloc, Event::Remove { site }),
            ScriptLine::Reap { site, key } => self.happen(alloc, Event::Reap { site, now, key }),
            ScriptLine::Evict { site, key } => self.happen(alloc, Event::Evict { site, key }),
            ScriptLine::Fill { site, key, text } => {
                let bytes = ValueBytes::of(text);
                self.happen(alloc, Event::Fill { site, key, bytes })
            }
            ScriptLine::Retire { site, other } => {
                self.happen(alloc, Event::Retire { site, other })
            }
            ScriptLine::Versions { site } => self.versions(alloc, site),
        }
    }

    fn set_up(
        &mut self,
        alloc: Global,
        count: u8,
        pages: u32,
        max: u32,
        reap: u32,
    ) -> Result<Option<Vec<u8>>, AllocError>
        requires { IsInRange (Sites count pages max reap) }
        ensures does { IfOk result (λ o. LineDoes self.old (SaysSites count pages max reap) o self.new) }
        ensures wants { IfErr result (λ _. WantsFor self.old (SaysSites count pages max reap)) }
    {
        if !self.world.sites.is_empty() {
            return Ok(None);
        }
        let setups = told(alloc, self.hasher, count, pages, max, reap)?;
        self.world = opened(alloc, setups)?;
        self.connections = connections(alloc, count)?;
        Ok(Some(Vec::new(alloc)))
    }

    fn set_moment(&mut self, alloc: Global, moment: u64) -> Option<Vec<u8>>
        requires { moment ≤ 2 ^ 40 }
        ensures { LineDoes self.old (SaysAt moment) result self.new }
    {
        if self.world.sites.is_empty() {
            return None;
        }
        self.moment = moment;
        Some(Vec::new(alloc))
    }

    /// What a site knows, as it is printed. None where there is no such site.
    fn versions(&self, alloc: Global, site: u8) -> Result<Option<Vec<u8>>, AllocError>
        requires { 1 ≤ site }
        ensures does { IfOk result (λ o. LineDoes self.now (SaysVersions site) o self.now) }
        ensures wants { IfErr result (λ _. WantsFor self.now (SaysVersions site)) }
    {
        let at = site as usize - 1;
        if at >= self.world.sites.len() {
            return Ok(None);
        }
        let site = &self.world.sites[at];
        let all = site.versions(alloc)?;
        Ok(Some(versions_lines(alloc, site.floor(), all.as_slice())?))
    }
}
