//! What is told when all has ended.
use geo_audit::Verdict;
use geo_grammar::Device;
use geo_wires::ClusterFault;
use std::alloc::Global;
use std::io::Write;

/// The word for an audit that says nothing.
pub(crate) const SKIPPED: &str = "skipped";

/// The words for a verdict; none was reached where a site's seats tell another story than its history.
pub(crate) fn verdict_word(verdict: Option<&Verdict>) -> &'static str {
    match verdict {
        Some(Verdict::Sound(_)) => "sound",
        Some(Verdict::LaterEra { .. }) => SKIPPED,
        Some(Verdict::Stuck(_) | Verdict::Wrong { .. }) | None => "refused",
    }
}

/// Writes all of some bytes.
pub(crate) fn write_all<W: Write>(
    writer: &mut Device<W>,
    bytes: &[u8],
) -> Result<(), ClusterFault> {
    let mut rest = bytes;
    while !rest.is_empty() {
        match writer.write(rest) {
            Ok(count) => rest = rest.split_at(count).1,
            Err(_) => return Err(ClusterFault::Socket),
        }
    }
    Ok(())
}

/// Writes the sums of all sites, in the counters' order, and the audit's word.
pub(crate) fn report<W: Write>(
    alloc: Global,
    writer: &mut Device<W>,
    sums: [u64; 5],
    audit: &str,
) -> Result<(), ClusterFault> {
    let [sessions, requests, faults, rounds, refused] = sums;
    let Ok(text) = format!(in alloc;
        "sessions {sessions}\nrequests {requests}\nfaults {faults}\nrounds {rounds}\nframes_refused {refused}\naudit {audit}\n"
    ) else {
        return Err(ClusterFault::Memory);
    };
    write_all(writer, text.as_bytes())
}
