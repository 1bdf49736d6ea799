//! Lists that grow where memory is there.
use geo_wires::ClusterFault;

/// Adds one to a list.
pub(crate) fn add<T: Drop>(list: &mut Vec<T>, one: T) -> Result<(), ClusterFault> {
    match list.push(one) {
        Ok(()) => Ok(()),
        Err(_) => Err(ClusterFault::Memory),
    }
}
