//! The keys of a configuration.
ghost use Rattle.std.specs.Prelude.{◌≡◌, ◌≤◌, Some, pos, codes, string_bytes, IfOk, IfSome};
ghost use Rattle.toml.specs.Data.{get_member};
ghost use Rattle.toml.specs.View.{table_view};
ghost use Rattle.geo_config.specs.Document.{LinkIs, SessionsAre, link_text, number_at, switch_at, text_at as text_said};

use crate::fault::ConfigFault;
use crate::settings::LinkKind;
use std::alloc::Global;
use toml::{Table, Value};

/// A key that holds a number.
#[derive(Clone, Copy, Debug, PartialEq, Eq)]
pub struct NumberKey {
    /// Its name.
    pub name: &'static str,
    /// The least number that it may hold.
    pub least: u64,
    /// The greatest number that it may hold.
    pub most: u64,
    /// What stands for it where it isn't there. A key without one is required.
    pub default: Option<i64>,
}

impl NumberKey {
    /// The number that a table holds at the key, or its default. It may lie out of the range.
    pub fn read(&self, table: &Table) -> Result<i64, ConfigFault>
        ensures { IfOk result (λ number. number_at (table_view table.now) self.now.name.now self.now.default ≡ Some number) }
    {
        match table.get(self.name) {
            Some(value) => value.as_integer().ok_or(ConfigFault::WrongType(self.name)),
            None => self.default.ok_or(ConfigFault::Missing(self.name)),
        }
    }

    /// The number, if it is in the key's range.
    pub fn within(&self, number: i64) -> Result<u64, ConfigFault>
        ensures range { IfOk result (λ n. (self.now.least ≤ n) × (n ≤ self.now.most)) }
        ensures value { IfOk result (λ n. number ≡ pos n) }
    {
        match u64::try_from(number) {
            Ok(number) if self.least <= number && number <= self.most => Ok(number),
            _ => Err(ConfigFault::OutOfRange(self.name)),
        }
    }
}

/// The text that a table holds at a key that is required.
pub fn text_at(alloc: Global, table: &Table, name: &'static str) -> Result<String, ConfigFault>
    ensures { IfOk result (λ text. text_said (table_view table.now) name.now ≡ Some (string_bytes text)) }
{
    match table.get(name) {
        Some(value) => match value.as_str() {
            Some(text) => {
                let owned = String::from_str(alloc, text)?;
                Ok(owned)
            }
            None => Err(ConfigFault::WrongType(name)),
        },
        None => Err(ConfigFault::Missing(name)),
    }
}

/// The link that a document asks for, and `None` where it names one that there isn't.
pub fn link_of(document: &Table) -> Result<Option<LinkKind>, ConfigFault>
    ensures { IfOk result (λ r. IfSome r (LinkIs (get_member (codes "link") (table_view document.now)))) }
{
    match document.get("link") {
        Some(value) => match value.as_str() {
            Some(text) => Ok(link_named(text)),
            None => Err(ConfigFault::WrongType("link")),
        },
        None => Ok(Some(LinkKind::Memory)),
    }
}

/// Whether a document says that something is on, and what stands for that where it says nothing of it.
pub fn switch_of(document: &Table, name: &'static str, default: bool) -> Result<bool, ConfigFault>
    ensures { IfOk result (λ on. switch_at (table_view document.now) name.now default ≡ Some on) }
{
    match document.get(name) {
        Some(value) => value.as_bool().ok_or(ConfigFault::WrongType(name)),
        None => Ok(default),
    }
}

fn link_named(text: &str) -> Option<LinkKind>
    ensures { IfSome result (λ link. text.now ≡ link_text link) }
{
    match text {
        "memory" => Some(LinkKind::Memory),
        "tcp" => Some(LinkKind::Tcp),
        _ => None,
    }
}

/// What stands for the sites: the items of the array at `site`, or nothing where no array stands there.
pub fn site_rows(document: &Table) -> &[Value] {
    match document.get("site") {
        Some(Value::Array(rows)) => rows.as_slice(),
        _ => &[],
    }
}

/// How many connections a document says that there are, if it says so.
pub fn sessions_of(document: &Table, said: u64) -> Option<u64>
    requires { number_at (table_view document.now) (codes "sessions") (Some (pos 1048576)) ≡ Some (pos said) }
    ensures are { SessionsAre (get_member (codes "sessions") (table_view document.now)) result }
    ensures same { IfSome result (λ sessions. sessions ≡ said) }
{
    match document.get("sessions") {
        Some(_) => Some(said),
        None => None,
    }
}

/// Whether all keys stand that are required.
pub fn has_required(document: &Table) -> Result<(), ConfigFault> {
    needs(document, "sessions")?;
    has_required_of_sites(document)
}

/// Whether all keys stand that are required of sites.
pub fn has_required_of_sites(document: &Table) -> Result<(), ConfigFault> {
    needs(document, "site")?;
    let over_tcp = matches!(link_of(document), Ok(Some(LinkKind::Tcp)));
    for row in site_rows(document) {
        if let Value::Table(site) = row {
            needs(site, "number")?;
            needs(site, "client")?;
            if over_tcp {
                needs(site, "peer")?;
            }
        }
    }
    Ok(())
}

fn needs(table: &Table, name: &'static str) -> Result<(), ConfigFault> {
    if table.contains_key(name) {
        Ok(())
    } else {
        Err(ConfigFault::Missing(name))
    }
}

/// Whether no key stands that no rule names. With links over memory `peer` is such a key.
pub fn has_only_known(alloc: Global, document: &Table, link: LinkKind) -> Result<(), ConfigFault> {
    for name in document.keys() {
        if !is_known(name.as_str()) {
            return Err(ConfigFault::Unknown(String::from_str(alloc, name.as_str())?));
        }
    }
    for row in site_rows(document) {
        if let Value::Table(site) = row {
            has_only_known_of_site(alloc, site, link)?;
        }
    }
    Ok(())
}

fn has_only_known_of_site(alloc: Global, site: &Table, link: LinkKind) -> Result<(), ConfigFault> {
    for name in site.keys() {
        if !is_known_of_site(name.as_str(), link) {
            return Err(ConfigFault::Unknown(String::from_str(alloc, name.as_str())?));
        }
    }
    Ok(())
}

fn is_known(name: &str) -> bool {
    matches!(
        name,
        "pages"
            | "max_records"
            | "reap_after"
            | "link"
            | "every"
            | "era"
            | "era_bytes"
            | "sessions"
            | "fills"
            | "audit"
            | "patience"
            | "drain"
            | "site"
    )
}

fn is_known_of_site(name: &str, link: LinkKind) -> bool {
    match name {
        "number" | "client" | "workers" => true,
        "peer" => link == LinkKind::Tcp,
        _ => false,
    }
}
