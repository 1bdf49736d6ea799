//! What a site that runs alone tells on standard error.
use std::alloc::{AllocError, Global};
use std::fmt::Display;

/// Tells a line at once, so that those of several threads don't mix. One for which there is no memory is lost.
pub fn tell<N: Eprint>(net: &N, line: Result<String, AllocError>) {
    if let Ok(line) = line {
        let text = line.as_str();
        let _told = eprint!(net; "{text}");
    }
}

/// Tells that a link, from which site to which other, is up.
pub(crate) fn tell_up<N: Eprint>(net: &N, alloc: Global, from: u8, to: u8) {
    tell(
        net,
        format!(in alloc; "the link from site {from} to site {to} is up\n"),
    );
}

/// Tells that a link, from which site to which other, is down, and why.
pub(crate) fn tell_down<N: Eprint, D: Display + Drop>(
    net: &N,
    alloc: Global,
    from: u8,
    to: u8,
    why: D,
) {
    tell(
        net,
        format!(in alloc; "the link from site {from} to site {to} is down: {why}\n"),
    );
}
