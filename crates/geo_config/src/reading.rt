//! A text as a configuration.
ghost use Rattle.std.specs.Prelude.{◌≡◌, ◌⊎◌, IfOk, IfErr, IsErrOf, Some, None, codes, pos};
ghost use Rattle.toml.specs.Parse.{parse_document};
ghost use Rattle.toml.specs.Data.{Members, get_member};
ghost use Rattle.toml.specs.View.{table_view};
ghost use Rattle.geo_config.specs.Document.{IsOf, IsOfBy, SessionsAre, SitesAreOf};
ghost use Rattle.geo_config.specs.Lawful.{IsLawful};
ghost use Rattle.geo_config.specs.declared.settings.LinkKind.TheVariants as kind;

use crate::draft::Draft;
use crate::fault::ConfigFault;
use crate::keys::{has_only_known, has_required, has_required_of_sites, sessions_of};
use crate::order::sorted;
use crate::settings::{ApartConfig, Config};
use std::alloc::Global;
use toml::Table;

/// What stands for `sessions` where a document needn't say it.
const MOST_SESSIONS: i64 = 1_048_576;

/// The configuration that a TOML text is, with defaults for what it leaves out, or the first fault of the text.
pub fn config(alloc: Global, text: &str) -> Result<Config, ConfigFault>
    ensures lawful { IfOk result IsLawful }
    ensures of { IfOk result (λ c. (document : Members) × (parse_document text.now ≡ Some document) × IsOf document c) }
    ensures sites { IfOk result (λ c. (document : Members) × (parse_document text.now ≡ Some document) × SitesAreOf document c) }
    ensures not_toml { parse_document text.now ≡ None → IsErrOf result ConfigFault.NotToml ⊎ IsErrOf result ConfigFault.Memory }
{
    let document = document(alloc, text)?;
    has_required(&document)?;
    let draft = Draft::read(alloc, &document, None)?;
    let config = draft.in_range(alloc)?;
    has_only_known(alloc, &document, config.link)?;
    let ordered = sorted(config)?;
    Ok(ordered)
}

/// The same of a text by which one site runs alone, beside others that run the other sites: it needs no `sessions`, and refuses another
/// link than `"tcp"` as out of its range.
pub fn config_apart(alloc: Global, text: &str) -> Result<ApartConfig, ConfigFault>
    ensures lawful { IfOk result (λ a. IsLawful a.config) }
    ensures link { IfOk result (λ a. a.config.link ≡ kind.Tcp) }
    ensures of { IfOk result (λ a. (document : Members) × (parse_document text.now ≡ Some document)
        × IsOfBy (Some (pos 1048576)) document a.config) }
    ensures sessions { IfOk result (λ a. (document : Members) × (parse_document text.now ≡ Some document)
        × SessionsAre (get_member (codes "sessions") document) a.sessions) }
    ensures sites { IfOk result (λ a. (document : Members) × (parse_document text.now ≡ Some document) × SitesAreOf document a.config) }
    ensures not_toml { parse_document text.now ≡ None → IsErrOf result ConfigFault.NotToml ⊎ IsErrOf result ConfigFault.Memory }
{
    let document = document(alloc, text)?;
    has_required_of_sites(&document)?;
    let read = Draft::read(alloc, &document, Some(MOST_SESSIONS))?;
    let draft = read.over_tcp();
    let config = draft.in_range(alloc)?;
    has_only_known(alloc, &document, config.link)?;
    let sessions = sessions_of(&document, config.sessions);
    let ordered = sorted(config)?;
    Ok(ApartConfig {
        config: ordered,
        sessions,
    })
}

fn document(alloc: Global, text: &str) -> Result<Table, ConfigFault>
    ensures toml { IfOk result (λ t. parse_document text.now ≡ Some (table_view t)) }
    ensures not_toml { IfErr result (λ e. (e ≡ ConfigFault.NotToml) ⊎ (e ≡ ConfigFault.Memory)) }
{
    match toml::table_from_str(alloc, text) {
        Ok(document) => Ok(document),
        Err(fault) if fault.is_memory() => Err(ConfigFault::Memory),
        Err(_) => Err(ConfigFault::NotToml),
    }
}
