//! Long texts and their items: at the limits of keys, of data and of lines.

/// A front, a byte that stands so many times behind it, the rest, and the items of the whole.
pub type Long = (&'static [u8], u8, usize, &'static [u8], &'static [u8]);

/// Keys and data up to their limits. The texts come in pieces of each of the sizes.
const LIMITS: (&[usize], &[Long]) = (
    &[1, 2, 16384, 2000000],
    &[
        (
            b"set ",
            b'k',
            250,
            b" 0 0 2\r\ndd\r\nversion\r\n",
            b"set #250 0 dd;version;",
        ),
        (
            b"set ",
            b'k',
            251,
            b" 0 0 2\r\ndd\r\nversion\r\n",
            b"BadLine;Unknown;version;",
        ),
        (
            b"set k 0 0 1048576\r\n",
            b'd',
            1048576,
            b"\r\nversion\r\n",
            b"set k 0 #1048576;version;",
        ),
        (
            b"set k 0 0 1048577\r\n",
            b'd',
            1048577,
            b"\r\nversion\r\n",
            b"TooLarge;version;",
        ),
    ],
);

/// Data that is too large is passed over to the end of its line.
const SKIPPED: (&[usize], &[Long]) = (
    &[7, 4096],
    &[(
        b"set k 0 0 1048577\r\n",
        b'd',
        1048577,
        b"\rget a\nget b\r\n",
        b"TooLarge;get b;",
    )],
);

/// Lines up to their limit, which is 65,536 bytes without the newline: nothing is read behind a longer one.
const LINES: (&[usize], &[Long]) = (
    &[1, 3, 16384, 65536, 65537, 65538, 300000],
    &[
        (b"", b'x', 65536, b"\nget a\n", b"Unknown;get a;"),
        (b"", b'x', 65535, b"\r\nget a\n", b"Unknown;get a;"),
        (b"", b'x', 65536, b"\r\nget a\n", b"LineTooLong;"),
        (b"", b'x', 65537, b"\nget a\n", b"LineTooLong;"),
        (b"", b'x', 200000, b"\nget a\n", b"LineTooLong;"),
        (b"get ", b'x', 65532, b"\nget a\n", b"BadLine;get a;"),
        (b"quit\n", b'x', 65537, b"", b"quit;LineTooLong;"),
    ],
);

pub const TEXTS: &[(&[usize], &[Long])] = &[LIMITS, SKIPPED, LINES];
