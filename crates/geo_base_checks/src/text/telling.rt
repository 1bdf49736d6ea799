//! Values that a reply shows more than once, and a reply that is told piece by piece.
use super::show::{push_bytes, push_number};
use geo_grammar::begin_reply;
use geo_lattice::Twin;
use geo_requests::{Found, Reply, Shared, Shown};
use geo_versions::Key;
use std::alloc::{AllocError, Global};
use std::test::Fail;

/// Flags, unique number and bytes of values of the key `a`.
const FOUND: &[(u32, Option<u64>, &[u8])] = &[
    (0, Some(257), b"hi"),
    (7, None, b""),
    (4294967295, None, b"a\r\nb"),
];

/// How many of those a reply shows, and how it is told: what stands there at first, behind a bar what each telling adds, and a stop
/// where nothing is left.
const TOLD: &[(usize, &[u8])] = &[
    (0, b"END\r\n"),
    (1, b"VALUE a 0 2 257\r\nhi\r\nEND\r\n"),
    (
        3,
        b"|VALUE a 0 2 257\r\nhi\r\n|VALUE a 7 0\r\n\r\n|VALUE a 4294967295 4\r\na\r\nb\r\n|END\r\n.",
    ),
];

/// A reply of so many of the values of the table.
fn values(alloc: Global, count: usize) -> Result<Reply, Fail> {
    let mut all = Vec::new(alloc);
    for (flags, unique, bytes) in FOUND.iter().take(count) {
        all.push(Found {
            key: Key::new(alloc, b"a")?.ok_or("no key")?,
            flags: *flags,
            unique: *unique,
            bytes: Shown::of(Vec::from_slice(alloc, bytes)?),
        })?;
    }
    Ok(Reply::Values(Shared::of(alloc, all)?))
}

/// How a reply is told, as the table writes it.
fn told(alloc: Global, reply: Reply) -> Result<Vec<u8>, AllocError> {
    let mut out = Vec::new(alloc);
    let Some(mut telling) = begin_reply(&mut out, reply)? else {
        return Ok(out);
    };
    for _ in 0..9 {
        out.push(b'|')?;
        if !telling.tell(&mut out)? {
            out.push(b'.')?;
            break;
        }
    }
    Ok(out)
}

#[test]
fn tells_a_reply_value_by_value(rt: HostRuntime) -> Result<(), Fail> {
    for (count, text) in TOLD {
        let reply = values(rt.alloc(), *count)?;
        assert_eq!(rt; told(rt.alloc(), reply)?.as_slice(), *text);
    }
    Ok(())
}

/// The lines of three values, what all their bytes are, and how many there are.
const LONG: &[(&[u8], u8, usize)] = &[
    (b"VALUE a 0 65537\r\n", b'1', 65_537),
    (b"VALUE a 0 65536\r\n", b'2', 65_536),
    (b"VALUE a 0 131072\r\n", b'3', 131_072),
];

/// How many bytes each telling of them adds: of a value of more than 64 KiB its line, 64 KiB, and the rest; and the end.
const PIECES: &[usize] = &[17, 65_536, 3, 65_555, 18, 65_536, 65_538, 5];

/// A reply of the long values, and its text.
fn long_values(alloc: Global) -> Result<(Reply, Vec<u8>), Fail> {
    let mut all = Vec::new(alloc);
    let mut text = Vec::new(alloc);
    for (line, fill, length) in LONG {
        let bytes = vec![in alloc; *fill; *length]?;
        text.extend_from_slice(line)?;
        text.extend_from_slice(bytes.as_slice())?;
        text.extend_from_slice(b"\r\n")?;
        all.push(Found {
            key: Key::new(alloc, b"a")?.ok_or("no key")?,
            flags: 0,
            unique: None,
            bytes: Shown::of(bytes),
        })?;
    }
    text.extend_from_slice(b"END\r\n")?;
    Ok((Reply::Values(Shared::of(alloc, all)?), text))
}

#[test]
fn tells_a_long_value_in_pieces(rt: HostRuntime) -> Result<(), Fail> {
    let (reply, text) = long_values(rt.alloc())?;
    let mut out = Vec::new(rt.alloc());
    let mut telling = begin_reply(&mut out, reply)?.ok_or("nothing is told")?;
    let mut counts = Vec::new(rt.alloc());
    for _ in 0..20 {
        let before = out.len();
        let goes_on = telling.tell(&mut out)?;
        counts.push(out.len().wrapping_sub(before))?;
        if !goes_on {
            break;
        }
    }
    assert_eq!(rt; counts.as_slice(), PIECES);
    assert!(rt; out.as_slice() == text.as_slice());
    Ok(())
}

/// A value's length and bytes, and a bar.
fn push_shown(out: &mut Vec<u8>, shown: &Shown) -> Result<(), AllocError> {
    push_number(out, shown.len() as u64)?;
    push_bytes(out, shown.as_slice())?;
    out.extend_from_slice(b"|")
}

/// A twin of a value that is shown once, the value shown twice more, a twin of that, and at last the value itself.
fn push_owners(out: &mut Vec<u8>, bytes: &[u8]) -> Result<(), AllocError> {
    let alloc = *out.allocator();
    let mut first = Shown::of(Vec::from_slice(alloc, bytes)?);
    let lone = first.twin(alloc)?;
    let second = first.again(alloc)?;
    let third = first.again(alloc)?;
    let joint = second.twin(alloc)?;
    push_shown(out, &lone)?;
    push_shown(out, &second)?;
    push_shown(out, &third)?;
    push_shown(out, &joint)?;
    push_shown(out, &first)
}

#[test]
fn each_owner_of_a_value_shows_its_bytes(rt: HostRuntime) -> Result<(), Fail> {
    let mut out = Vec::new(rt.alloc());
    push_owners(&mut out, b"hi")?;
    push_owners(&mut out, b"")?;
    assert_eq!(rt;
        out.as_slice(),
        b"2hi|2hi|2hi|2hi|2hi|0|0|0|0|0|".as_slice()
    );
    Ok(())
}
