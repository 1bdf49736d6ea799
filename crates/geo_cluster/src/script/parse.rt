//! What a line of a script says.
ghost use Rattle.std.specs.Prelude.{◌≡◌, ◌≤◌, None, Some, true, MatchOption, IfErr, IfOk, IfSome, option_copied};
ghost use Rattle.std.specs.Option.{option_map, option_and_then, is_some};
ghost use Rattle.geo_cluster.specs.Numbers.{ranged_of};
ghost use Rattle.geo_cluster.specs.Sayings.{split_of, site_of, moment_of, parcel_of, key_of, front_number, option_number, client_said, send_said, retire_said, sites_said, take_said, site_key_of, said_to_reap, said_to_evict, key_text_of, said_to_fill, said_by_other, said, skips, SaysAt, SaysTick, SaysRemove, SaysVersions};
ghost use Rattle.geo_cluster.specs.Reads.{said_by, IsInRange};
ghost use Rattle.geo_cluster.specs.Wants.{has_text, CarriesAt};

use crate::script::escape::{spelling, unescape};
use crate::script::line::ScriptLine;
use crate::script::split::split_at;
use geo_requests::number;
use geo_site::{LAST_MOMENT, MOST_RECORDS};
use geo_slabs::{CLASSES, MOST_PAGES};
use geo_stamp::MOST_SITES;
use geo_versions::Key;
use std::alloc::{AllocError, Global};

/// How many records each site may keep where the script doesn't say.
const DEFAULT_RECORDS: u64 = 100_000;

/// For how many seconds behind its end a write is kept where the script doesn't say.
const DEFAULT_REAP: u64 = 60;

/// How many bytes a key has at most.
const MOST_KEY: usize = 250;

/// The greatest number of these seconds: 2^31 - 1.
const GREATEST_REAP: u64 = 2_147_483_647;

/// The number that a word of decimal digits writes, leading zeros allowed. None where it is none, or out of this range.
fn ranged(word: &[u8], least: u64, most: u64) -> Option<u64>
    ensures number { result ≡ ranged_of least most word.now }
    ensures most { IfSome result (λ n. n ≤ most) }
    ensures least { IfSome result (λ n. least ≤ n) }
{
    let n = number(word, most)?;
    if n < least {
        return None;
    }
    Some(n)
}

/// A site's number, or a number of sites.
fn site_number(word: &[u8]) -> Option<u8>
    ensures number { result ≡ site_of word.now }
    ensures range { IfSome result (λ n. (1 ≤ n) × (n ≤ 16)) }
{
    let n = ranged(word, 1, MOST_SITES as u64)?;
    Some(n as u8)
}

fn client_line(alloc: Global, args: &[u8]) -> Result<Option<ScriptLine>, AllocError>
    ensures said { IfOk result (λ o. option_map said_by o ≡ option_and_then client_said (split_of args.now)) }
    ensures range { IfOk result (λ o. IfSome o (λ l. IsInRange l)) }
{
    let Some((site, text)) = split_at(b' ', args) else {
        return Ok(None);
    };
    let Some(site) = site_number(site) else {
        return Ok(None);
    };
    let Some(text) = unescape(alloc, text)? else {
        return Ok(None);
    };
    Ok(Some(ScriptLine::Client { site, text }))
}

fn send_line(args: &[u8]) -> Option<ScriptLine>
    ensures said { option_map said_by result ≡ option_and_then send_said (split_of args.now) }
    ensures range { IfSome result (λ l. IsInRange l) }
{
    let (from, to) = split_at(b' ', args)?;
    let from = site_number(from)?;
    let to = site_number(to)?;
    if from == to {
        return None;
    }
    Some(ScriptLine::Send { from, to })
}

fn retire_line(args: &[u8]) -> Option<ScriptLine>
    ensures said { option_map said_by result ≡ option_and_then retire_said (split_of args.now) }
    ensures range { IfSome result (λ l. IsInRange l) }
{
    let (site, other) = split_at(b' ', args)?;
    let site = site_number(site)?;
    let other = site_number(other)?;
    if site == other {
        return None;
    }
    Some(ScriptLine::Retire { site, other })
}

fn take_line(args: &[u8]) -> Option<ScriptLine>
    ensures said { option_map said_by result ≡ option_and_then take_said (split_of args.now) }
    ensures range { IfSome result (λ l. IsInRange l) }
{
    let (site, parcel) = split_at(b' ', args)?;
    let site = site_number(site)?;
    let parcel = number(parcel, u64::MAX)?;
    Some(ScriptLine::Take { site, parcel })
}

fn at_line(args: &[u8]) -> Option<ScriptLine>
    ensures said { option_map said_by result ≡ option_map (λ n. SaysAt n) (moment_of args.now) }
    ensures range { IfSome result (λ l. IsInRange l) }
{
    let moment = ranged(args, 1, LAST_MOMENT)?;
    Some(ScriptLine::At(moment))
}

fn tick_line(args: &[u8]) -> Option<ScriptLine>
    ensures said { option_map said_by result ≡ option_map (λ s. SaysTick s) (site_of args.now) }
    ensures range { IfSome result (λ l. IsInRange l) }
{
    let site = site_number(args)?;
    Some(ScriptLine::Tick { site })
}

fn remove_line(args: &[u8]) -> Option<ScriptLine>
    ensures said { option_map said_by result ≡ option_map (λ s. SaysRemove s) (site_of args.now) }
    ensures range { IfSome result (λ l. IsInRange l) }
{
    let site = site_number(args)?;
    Some(ScriptLine::Remove { site })
}

fn versions_line(args: &[u8]) -> Option<ScriptLine>
    ensures said { option_map said_by result ≡ option_map (λ s. SaysVersions s) (site_of args.now) }
    ensures range { IfSome result (λ l. IsInRange l) }
{
    let site = site_number(args)?;
    Some(ScriptLine::Versions { site })
}

/// The key that a text spells, None where it spells none.
fn spelled_key(alloc: Global, text: &[u8]) -> Result<Option<Key>, AllocError>
    ensures { IfOk result (λ o. o ≡ key_of text.now) }
{
    let Some(bytes) = unescape(alloc, text)? else {
        return Ok(None);
    };
    Key::new(alloc, bytes.as_slice())
}

/// A site's number, and the key that is spelled behind it.
fn site_and_key(alloc: Global, args: &[u8]) -> Result<Option<(u8, Key)>, AllocError>
    ensures named { IfOk result (λ o. o ≡ site_key_of args.now) }
    ensures range { IfOk result (λ o. IfSome o (λ p. (1 ≤ p.0) × (p.0 ≤ 16))) }
{
    let Some((site, key)) = split_at(b' ', args) else {
        return Ok(None);
    };
    let Some(site) = site_number(site) else {
        return Ok(None);
    };
    let Some(key) = spelled_key(alloc, key)? else {
        return Ok(None);
    };
    Ok(Some((site, key)))
}

fn reap_line(alloc: Global, args: &[u8]) -> Result<Option<ScriptLine>, AllocError>
    ensures said { IfOk result (λ o. option_map said_by o ≡ said_to_reap args.now) }
    ensures range { IfOk result (λ o. IfSome o (λ l. IsInRange l)) }
{
    let Some((site, key)) = site_and_key(alloc, args)? else {
        return Ok(None);
    };
    Ok(Some(ScriptLine::Reap { site, key }))
}

fn evict_line(alloc: Global, args: &[u8]) -> Result<Option<ScriptLine>, AllocError>
    ensures said { IfOk result (λ o. option_map said_by o ≡ said_to_evict args.now) }
    ensures range { IfOk result (λ o. IfSome o (λ l. IsInRange l)) }
{
    let Some((site, key)) = site_and_key(alloc, args)? else {
        return Ok(None);
    };
    Ok(Some(ScriptLine::Evict { site, key }))
}

/// The key that is spelled at the front of a text, and the text behind it.
fn key_and_text(alloc: Global, args: &[u8]) -> Result<Option<(Key, Vec<u8>)>, AllocError>
    ensures { IfOk result (λ o. option_map (λ p. (p.0, p.1.items)) o ≡ option_and_then key_text_of (split_of args.now)) }
{
    let Some((key, text)) = split_at(b' ', args) else {
        return Ok(None);
    };
    let Some(key) = spelled_key(alloc, key)? else {
        return Ok(None);
    };
    let Some(text) = unescape(alloc, text)? else {
        return Ok(None);
    };
    Ok(Some((key, text)))
}

fn fill_line(alloc: Global, args: &[u8]) -> Result<Option<ScriptLine>, AllocError>
    ensures said { IfOk result (λ o. option_map said_by o ≡ said_to_fill args.now) }
    ensures range { IfOk result (λ o. IfSome o (λ l. IsInRange l)) }
{
    let Some((site, rest)) = split_at(b' ', args) else {
        return Ok(None);
    };
    let Some(site) = site_number(site) else {
        return Ok(None);
    };
    let Some((key, text)) = key_and_text(alloc, rest)? else {
        return Ok(None);
    };
    Ok(Some(ScriptLine::Fill { site, key, text }))
}

/// A number at the front of a text, and what stands behind it.
fn front_number(text: &[u8], least: u64, most: u64) -> Option<(u64, Option<&[u8]>)>
    ensures number { MatchOption result (front_number least most text.now ≡ None)
        (λ p. front_number least most text.now ≡ Some (p.0, option_copied p.1)) }
    ensures range { IfSome result (λ p. (least ≤ p.0) × (p.0 ≤ most)) }
{
    match split_at(b' ', text) {
        None => Some((ranged(text, least, most)?, None)),
        Some((word, rest)) => Some((ranged(word, least, most)?, Some(rest))),
    }
}

/// The number of an option that may stand at the front of a text, and what stands behind it; `otherwise` where it isn't there.
fn option_number<'a>(
    name: &[u8],
    least: u64,
    most: u64,
    otherwise: u64,
    text: Option<&'a [u8]>,
) -> Option<(u64, Option<&'a [u8]>)>
    requires least { least ≤ otherwise }
    requires most { otherwise ≤ most }
    ensures number { MatchOption result (option_number name.now least most otherwise (option_copied text.entry) ≡ None)
        (λ p. option_number name.now least most otherwise (option_copied text.entry) ≡ Some (p.0, option_copied p.1)) }
    ensures range { IfSome result (λ p. (least ≤ p.0) × (p.0 ≤ most)) }
{
    let Some(text) = text else {
        return Some((otherwise, None));
    };
    match split_at(b' ', text) {
        Some((word, rest)) if word == name => front_number(rest, least, most),
        _ => Some((otherwise, Some(text))),
    }
}

fn sites_line(args: &[u8]) -> Option<ScriptLine>
    ensures said { option_map said_by result ≡ sites_said args.now }
    ensures range { IfSome result (λ l. IsInRange l) }
{
    let (count, options) = front_number(args, 1, MOST_SITES as u64)?;
    let (least, most) = (CLASSES as u64, MOST_PAGES as u64);
    let (pages, options) = option_number(b"pages", least, most, least, options)?;
    let (max, options) = option_number(b"max", 1, MOST_RECORDS as u64, DEFAULT_RECORDS, options)?;
    let (reap, options) = option_number(b"reap", 0, GREATEST_REAP, DEFAULT_REAP, options)?;
    if options.is_some() {
        return None;
    }
    Some(ScriptLine::Sites {
        count: count as u8,
        pages: pages as u32,
        max: max as u32,
        reap: reap as u32,
    })
}

/// A line with numbers alone that is no event of a site's own, or retires another.
fn other_line(name: &[u8], args: &[u8]) -> Option<ScriptLine>
    ensures said { option_map said_by result ≡ said_by_other name.now args.now }
    ensures range { IfSome result (λ l. IsInRange l) }
{
    if name == b"versions".as_slice() {
        return versions_line(args);
    }
    if name == b"at".as_slice() {
        return at_line(args);
    }
    if name == b"sites".as_slice() {
        return sites_line(args);
    }
    if name == b"retire".as_slice() {
        return retire_line(args);
    }
    None
}

/// What a line says, without its line end: None where it is a bad line, whatever sites and parcels there are. Words are
/// separated by exactly one space; a client's text is the rest of its line, and begins behind one. Memory is wanted for a text or a
/// key alone.
pub fn parse_line(alloc: Global, line: &[u8]) -> Result<Option<ScriptLine>, AllocError>
    ensures said { IfOk result (λ o. option_map said_by o ≡ said line.now) }
    ensures range { IfOk result (λ o. IfSome o (λ l. IsInRange l)) }
    ensures text { IfErr result (λ _. has_text line.now ≡ true) }
{
    let Some((name, args)) = split_at(b' ', line) else {
        return Ok(None);
    };
    if name == b"client".as_slice() {
        return client_line(alloc, args);
    }
    if name == b"send".as_slice() {
        return Ok(send_line(args));
    }
    if name == b"take".as_slice() {
        return Ok(take_line(args));
    }
    if name == b"tick".as_slice() {
        return Ok(tick_line(args));
    }
    if name == b"remove".as_slice() {
        return Ok(remove_line(args));
    }
    if name == b"reap".as_slice() {
        return reap_line(alloc, args);
    }
    if name == b"evict".as_slice() {
        return evict_line(alloc, args);
    }
    if name == b"fill".as_slice() {
        return fill_line(alloc, args);
    }
    Ok(other_line(name, args))
}

/// Whether a text spells a key. It takes no memory.
fn spells_key(text: &[u8]) -> bool
    ensures { result ≡ is_some (key_of text.now) }
{
    match spelling(text) {
        Some((count, stand)) => stand && count >= 1 && count <= MOST_KEY,
        None => false,
    }
}

fn carries_client(args: &[u8], sites: usize) -> bool
    ensures { CarriesAt sites (option_and_then client_said (split_of args.now)) result }
{
    let Some((site, text)) = split_at(b' ', args) else {
        return false;
    };
    let Some(site) = site_number(site) else {
        return false;
    };
    site as usize <= sites && spelling(text).is_some()
}

fn carries_keyed(args: &[u8], sites: usize) -> bool
    ensures reap { CarriesAt sites (said_to_reap args.now) result }
    ensures evict { CarriesAt sites (said_to_evict args.now) result }
{
    let Some((site, key)) = split_at(b' ', args) else {
        return false;
    };
    let Some(site) = site_number(site) else {
        return false;
    };
    site as usize <= sites && spells_key(key)
}

fn carries_filled(args: &[u8], sites: usize) -> bool
    ensures { CarriesAt sites (said_to_fill args.now) result }
{
    let Some((site, rest)) = split_at(b' ', args) else {
        return false;
    };
    let Some(site) = site_number(site) else {
        return false;
    };
    let Some((key, text)) = split_at(b' ', rest) else {
        return false;
    };
    site as usize <= sites && spells_key(key) && spelling(text).is_some()
}

/// Whether a line with a text or a key can be carried out where there are so many sites. It takes no memory.
pub fn carries_text(line: &[u8], sites: usize) -> bool
    ensures { has_text line.now ≡ true → CarriesAt sites (said line.now) result }
{
    let Some((name, args)) = split_at(b' ', line) else {
        return false;
    };
    if name == b"client".as_slice() {
        return carries_client(args, sites);
    }
    if name == b"reap".as_slice() {
        return carries_keyed(args, sites);
    }
    if name == b"evict".as_slice() {
        return carries_keyed(args, sites);
    }
    if name == b"fill".as_slice() {
        return carries_filled(args, sites);
    }
    false
}

/// Whether a line is skipped: an empty one, or one that begins with `#`.
pub fn is_skipped(line: &[u8]) -> bool
    ensures { result ≡ skips line.now }
{
    match line.first() {
        None => true,
        Some(byte) => *byte == b'#',
    }
}
