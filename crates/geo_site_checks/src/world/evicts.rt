//! What the plain program says of what a store evicts.
use geo_memcache::{Ask, Effect, ask_of};
use geo_plain::knowledge::Knowledge;
use geo_requests::{Reply, Request};
use geo_versions::Key;
use std::alloc::Global;
use std::test::Fail;

/// The slab classes: how many bytes a chunk of each has room for, and how many chunks a page has.
const CLASSES: [(usize, usize); 15] = [
    (64, 16_384),
    (128, 8192),
    (256, 4096),
    (512, 2048),
    (1024, 1024),
    (2048, 512),
    (4096, 256),
    (8192, 128),
    (16_384, 64),
    (32_768, 32),
    (65_536, 16),
    (131_072, 8),
    (262_144, 4),
    (524_288, 2),
    (1_048_576, 1),
];

/// The least class for so many bytes.
fn class_of(length: usize) -> (usize, usize) {
    for class in CLASSES {
        if length <= class.0 {
            return class;
        }
    }
    (1_048_576, 1)
}

/// How many bytes a request stores where it is carried out.
fn stored(
    alloc: Global,
    at: &Knowledge,
    now: u64,
    key: &Key,
    ask: &Ask<'_>,
) -> Result<Option<usize>, Fail> {
    if now > 1 << 40 {
        return Err("out of time")?;
    }
    let decision = at.decision(alloc, now, key, ask)?;
    Ok(match (&decision.effect, ask) {
        (Effect::Keep { .. }, Ask::Store { bytes, .. }) => Some(bytes.len()),
        (Effect::Made { bytes, .. }, _) => Some(bytes.len()),
        _ => None,
    })
}

fn holds_in(at: &Knowledge, name: &Key, class: (usize, usize)) -> bool {
    match at.held(name) {
        None => false,
        Some(bytes) => class_of(bytes.len()) == class,
    }
}

/// Whether a store that was answered so, at a site with a page for each class, evicts what it is due to: another key's bytes of
/// its class, exactly where others have all chunks of the page.
pub fn evicts_as_due(
    alloc: Global,
    at: &Knowledge,
    now: u64,
    names: &[Key],
    request: &Request,
    reply: &Reply,
    victim: Option<&Key>,
) -> Result<bool, Fail> {
    let Some((key, ask)) = ask_of(request) else {
        return Ok(victim.is_none());
    };
    let class = match stored(alloc, at, now, key, &ask)? {
        Some(length) if !matches!(reply, Reply::MapFull) => class_of(length),
        _ => return Ok(victim.is_none()),
    };
    let others = names
        .iter()
        .filter(|name| *name != key && holds_in(at, *name, class))
        .count();
    Ok(match victim {
        None => others < class.1,
        Some(victim) => others >= class.1 && victim != key && holds_in(at, victim, class),
    })
}
