use std::process::Abort;

mod chunks;
mod segments;
mod slabs;
mod tally;
mod values;

/// Stops a test where what is shown is not what is wanted.
fn check(rt: &impl Abort, shown: &str, want: &str) {
    let is_wanted = shown == want;
    assert!(rt; is_wanted, "{shown} and not {want}");
}
