//! Vectors, read.
ghost use Rattle.std.specs.Prelude.{◌≤◌};
ghost use Rattle.geo_frame.specs.Reading.{Reads, vector_at};

use crate::bytes::Bytes;
use crate::fault::FrameFault;
use geo_stamp::Vector;

/// A vector of so many sites.
pub(crate) fn take_vector(bytes: &mut Bytes, sites: u8) -> Result<Vector, FrameFault>
    requires { sites ≤ 16 }
    ensures { Reads (λ x. x) result bytes.new.left.now (vector_at sites bytes.old.left.now) }
{
    let mut vector = Vector::new(sites as usize);
    for before in 0..sites {
        let time = bytes.take_time()?;
        vector.raise(before + 1, time);
    }
    Ok(vector)
}
