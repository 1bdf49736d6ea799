//! A text split in two at a byte.
ghost use Rattle.std.specs.Prelude.{◌≡◌, MatchOption, None, Some};
ghost use Rattle.geo_cluster.specs.Splits.{split_at};

use memchr::memchr;

/// What stands before the first such byte, and what stands behind it. None exactly where there is no such byte.
pub fn split_at(byte: u8, text: &[u8]) -> Option<(&[u8], &[u8])>
    ensures { MatchOption result (split_at byte text.now ≡ None) (λ p. split_at byte text.now ≡ Some (p.0.now, p.1.now)) }
{
    let Some(at) = memchr(byte, text) else {
        return None;
    };
    let (front, _) = text.split_at(at);
    let (_, back) = text.split_at(at + 1);
    Some((front, back))
}
