//! A configuration whose values have their types and may lie out of their ranges.
ghost use Rattle.std.specs.Prelude.{◌≡◌, ◌≤◌, ℤ, pos, Option, Some, IfOk, IfSome, All, codes, is_some, map, option_map, string_bytes, vec_len};
ghost use Rattle.toml.specs.Data.{Members, array, get_member};
ghost use Rattle.toml.specs.View.{items_view, table_view, view};
ghost use Rattle.geo_config.specs.Document.{DraftIsOf, IsOfBy, IsRow, SitesSay, WaitsAreOf, peer_at, row_of, row_of_draft};
ghost use Rattle.geo_config.specs.Draft.{DraftIsTied, SiteDraftIsTied, asks_for_tcp, is_tcp};
ghost use Rattle.geo_config.specs.Lawful.{IsInRange, SiteIsInRange};
ghost use Rattle.geo_config.specs.declared.settings.LinkKind.TheVariants as kind;

use crate::fault::ConfigFault;
use crate::keys::{NumberKey, link_of, switch_of, text_at};
use crate::settings::{Config, LinkKind, SiteConfig};
use std::alloc::Global;
use toml::{Table, Value};

const PAGES: NumberKey = NumberKey {
    name: "pages",
    least: 15,
    most: 65_536,
    default: Some(64),
};

const MAX_RECORDS: NumberKey = NumberKey {
    name: "max_records",
    least: 1,
    most: 1_000_000,
    default: Some(100_000),
};

const REAP_AFTER: NumberKey = NumberKey {
    name: "reap_after",
    least: 0,
    most: 2_147_483_647,
    default: Some(60),
};

const EVERY: NumberKey = NumberKey {
    name: "every",
    least: 1,
    most: 60_000,
    default: Some(100),
};

const ERA: NumberKey = NumberKey {
    name: "era",
    least: 1_000,
    most: 1_000_000_000,
    default: Some(1_000_000),
};

const ERA_BYTES: NumberKey = NumberKey {
    name: "era_bytes",
    least: 1_048_576,
    most: 1_099_511_627_776,
    default: Some(268_435_456),
};

const SESSIONS: NumberKey = NumberKey {
    name: "sessions",
    least: 1,
    most: 1_048_576,
    default: None,
};

const PATIENCE: NumberKey = NumberKey {
    name: "patience",
    least: 100,
    most: 600_000,
    default: Some(5_000),
};

const DRAIN: NumberKey = NumberKey {
    name: "drain",
    least: 0,
    most: 600_000,
    default: Some(5_000),
};

const NUMBER: NumberKey = NumberKey {
    name: "number",
    least: 1,
    most: 16,
    default: None,
};

const WORKERS: NumberKey = NumberKey {
    name: "workers",
    least: 1,
    most: 128,
    default: Some(4),
};

/// The greatest number of sites.
const MOST_SITES: usize = 16;

/// What a document says, with what stands for the keys that it doesn't have.
#[derive(Drop)]
pub struct Draft {
    pages: i64,
    max_records: i64,
    reap_after: i64,
    /// `None` is a link that there isn't.
    link: Option<LinkKind>,
    every: i64,
    era: i64,
    era_bytes: i64,
    sessions: i64,
    fills: bool,
    audit: bool,
    waits: WaitsDraft,
    sites: Vec<SiteDraft>,
}

/// What a document says of how long is waited, in milliseconds.
#[derive(Drop)]
pub struct WaitsDraft {
    patience: i64,
    drain: i64,
}

/// What a document says of one site.
#[derive(Drop)]
pub struct SiteDraft {
    number: i64,
    client: String,
    workers: i64,
    peer: Option<String>,
}

impl Draft {
    /// What a document says, if each key holds a value of its type. Where it doesn't say how many connections there are, `sessions` stands
    /// for it, and with none of that it has to.
    pub fn read(
        alloc: Global,
        document: &Table,
        sessions: Option<i64>,
    ) -> Result<Draft, ConfigFault>
        ensures of { IfOk result (DraftIsOf sessions (table_view document.now)) }
        ensures tied { IfOk result DraftIsTied }
        ensures sites { IfOk result (λ d. SitesSay (table_view document.now) (asks_for_tcp d.link) (map row_of_draft d.sites.items)) }
    {
        let pages = PAGES.read(document)?;
        let max_records = MAX_RECORDS.read(document)?;
        let reap_after = REAP_AFTER.read(document)?;
        let link = link_of(document)?;
        let every = EVERY.read(document)?;
        let era = ERA.read(document)?;
        let era_bytes = ERA_BYTES.read(document)?;
        let key = NumberKey {
            name: SESSIONS.name,
            least: SESSIONS.least,
            most: SESSIONS.most,
            default: sessions,
        };
        let sessions = key.read(document)?;
        let fills = switch_of(document, "fills", false)?;
        let audit = switch_of(document, "audit", true)?;
        let waits = WaitsDraft::read(document)?;
        let sites = site_drafts(alloc, document, asks_for_tcp(link))?;
        Ok(Draft {
            pages,
            max_records,
            reap_after,
            link,
            every,
            era,
            era_bytes,
            sessions,
            fills,
            audit,
            waits,
            sites,
        })
    }

    /// The same where sites are joined by connections, and with no link where they aren't.
    pub fn over_tcp(self) -> Draft
        ensures others { result ≡ record self { link = result.link } }
        ensures link { IfSome result.link (λ link. (link ≡ kind.Tcp) × (self.link ≡ Some link)) }
        ensures peers { asks_for_tcp result.link ≡ asks_for_tcp self.link }
    {
        let mut draft = self;
        draft.link = only_tcp(draft.link);
        draft
    }

    /// The configuration, if each value is in its range.
    pub fn in_range(self, alloc: Global) -> Result<Config, ConfigFault>
        requires { DraftIsTied self }
        ensures in_range { IfOk result IsInRange }
        ensures of { IfOk result (λ c. (sessions : Option ℤ) (document : Members) → DraftIsOf sessions document self
            → IsOfBy sessions document c) }
        ensures link { IfOk result (λ c. self.link ≡ Some c.link) }
        ensures sites { IfOk result (λ c. map row_of c.sites.items ≡ map row_of_draft self.sites.items) }
    {
        let pages = PAGES.within(self.pages)? as u32;
        let max_records = MAX_RECORDS.within(self.max_records)? as u32;
        let reap_after = REAP_AFTER.within(self.reap_after)? as u32;
        let link = self.link.ok_or(ConfigFault::OutOfRange("link"))?;
        let every = EVERY.within(self.every)?;
        let era = ERA.within(self.era)?;
        let era_bytes = ERA_BYTES.within(self.era_bytes)?;
        let sessions = SESSIONS.within(self.sessions)?;
        let waits = self.waits.in_range()?;
        if self.sites.is_empty() || self.sites.len() > MOST_SITES {
            return Err(ConfigFault::OutOfRange("site"));
        }
        let sites = sites_in_range(alloc, self.sites, link)?;
        Ok(Config {
            pages,
            max_records,
            reap_after,
            link,
            every,
            era,
            era_bytes,
            sessions,
            fills: self.fills,
            audit: self.audit,
            patience: waits.patience,
            drain: waits.drain,
            sites,
        })
    }
}

/// How long is waited, in milliseconds.
#[derive(Clone, Copy)]
struct Waits {
    patience: u64,
    drain: u64,
}

impl WaitsDraft {
    /// What a document says of how long is waited, if these keys hold numbers.
    fn read(document: &Table) -> Result<WaitsDraft, ConfigFault>
        ensures { IfOk result (WaitsAreOf (table_view document.now)) }
    {
        let patience = PATIENCE.read(document)?;
        let drain = DRAIN.read(document)?;
        Ok(WaitsDraft { patience, drain })
    }

    /// How long is waited, if each is in its range.
    fn in_range(&self) -> Result<Waits, ConfigFault>
        ensures patience { IfOk result (λ w. (100 ≤ w.patience) × (w.patience ≤ 600000)) }
        ensures drain { IfOk result (λ w. w.drain ≤ 600000) }
        ensures values { IfOk result (λ w. (self.now.patience ≡ pos w.patience) × (self.now.drain ≡ pos w.drain)) }
    {
        let patience = PATIENCE.within(self.patience)?;
        let drain = DRAIN.within(self.drain)?;
        Ok(Waits { patience, drain })
    }
}

/// The link, where it is over connections.
fn only_tcp(link: Option<LinkKind>) -> Option<LinkKind>
    ensures link { IfSome result (λ only. (only ≡ kind.Tcp) × (link ≡ Some only)) }
    ensures peers { asks_for_tcp result ≡ asks_for_tcp link }
{
    match link {
        Some(LinkKind::Tcp) => Some(LinkKind::Tcp),
        Some(LinkKind::Memory) | None => None,
    }
}

fn asks_for_tcp(link: Option<LinkKind>) -> bool
    ensures { result ≡ asks_for_tcp link }
{
    matches!(link, Some(LinkKind::Tcp))
}

/// The rows of the sites.
fn rows_of(document: &Table) -> Result<&[Value], ConfigFault>
    ensures { IfOk result (λ rows. get_member (codes "site") (table_view document.now) ≡ Some (array (items_view rows.now))) }
{
    match document.get("site") {
        Some(value) => match value.as_array() {
            Some(rows) => Ok(rows.as_slice()),
            None => Err(ConfigFault::WrongType("site")),
        },
        None => Err(ConfigFault::Missing("site")),
    }
}

/// What a document says of its sites, in their order there.
fn site_drafts(
    alloc: Global,
    document: &Table,
    over_tcp: bool,
) -> Result<Vec<SiteDraft>, ConfigFault>
    ensures tied { IfOk result (λ sites. All (SiteDraftIsTied over_tcp) sites.items) }
    ensures say { IfOk result (λ sites. SitesSay (table_view document.now) over_tcp (map row_of_draft sites.items)) }
{
    let rows = rows_of(document)?;
    let mut sites = Vec::new(alloc);
    for row in rows {
        sites.push(site_draft(alloc, row, over_tcp)?)?;
    }
    Ok(sites)
}

/// What a row says of its site. With links over memory its key `peer` isn't looked at.
fn site_draft(alloc: Global, row: &Value, over_tcp: bool) -> Result<SiteDraft, ConfigFault>
    ensures tied { IfOk result (SiteDraftIsTied over_tcp) }
    ensures says { IfOk result (λ s. IsRow over_tcp (view row.now) (row_of_draft s)) }
{
    let Some(site) = row.as_table() else {
        return Err(ConfigFault::WrongType("site"));
    };
    let number = NUMBER.read(site)?;
    let client = text_at(alloc, site, "client")?;
    let workers = WORKERS.read(site)?;
    let peer = peer_of(alloc, site, over_tcp)?;
    Ok(SiteDraft {
        number,
        client,
        workers,
        peer,
    })
}

fn peer_of(alloc: Global, site: &Table, over_tcp: bool) -> Result<Option<String>, ConfigFault>
    ensures tied { IfOk result (λ peer. is_some peer ≡ over_tcp) }
    ensures says { IfOk result (λ peer. peer_at over_tcp (table_view site.now) ≡ option_map string_bytes peer) }
{
    if over_tcp {
        let peer = text_at(alloc, site, "peer")?;
        Ok(Some(peer))
    } else {
        Ok(None)
    }
}

/// The sites, if each value of theirs is in its range.
fn sites_in_range(
    alloc: Global,
    drafts: Vec<SiteDraft>,
    link: LinkKind,
) -> Result<Vec<SiteConfig>, ConfigFault>
    requires { All (SiteDraftIsTied (is_tcp link)) drafts.items }
    ensures each { IfOk result (λ sites. All (SiteIsInRange link) sites.items) }
    ensures count { IfOk result (λ sites. vec_len sites ≡ vec_len drafts) }
    ensures rows { IfOk result (λ sites. map row_of sites.items ≡ map row_of_draft drafts.items) }
{
    let mut sites = Vec::with_capacity(alloc, drafts.len())?;
    for draft in drafts {
        sites.push(site_in_range(draft, link)?)?;
    }
    Ok(sites)
}

fn site_in_range(draft: SiteDraft, link: LinkKind) -> Result<SiteConfig, ConfigFault>
    requires { SiteDraftIsTied (is_tcp link) draft }
    ensures in_range { IfOk result (SiteIsInRange link) }
    ensures row { IfOk result (λ site. row_of site ≡ row_of_draft draft) }
{
    let number = NUMBER.within(draft.number)? as u8;
    let workers = WORKERS.within(draft.workers)? as usize;
    Ok(SiteConfig {
        number,
        client: draft.client,
        workers,
        peer: draft.peer,
    })
}
