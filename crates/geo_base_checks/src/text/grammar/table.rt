//! What texts hold, written by hand from the protocol: each text, a bar, and its items, ended by semicolons. An item is a command
//! with its words, a storage command with its key, flags, exptime, unique number and data, `quiet` where it wants no answer; or a
//! fault.

/// Rows of a table. Each table is a function, so that it is proved by itself.
pub type Rows = &'static [&'static [u8]];

/// Lines and their ends.
pub fn lines() -> Rows {
    &[
        b"|",
        b"get a|",
        b"get a\r|",
        b"get a\n|get a;",
        b"get a\r\n|get a;",
        b"get a\r\r\n|BadLine;",
        b"\n|Unknown;",
        b"\r\n|Unknown;",
        b"\r\r\n|Unknown;",
        b" \r\n|Unknown;",
        b"\n\n|Unknown;Unknown;",
        b"ge\nt a\n|Unknown;Unknown;",
        b"get\r a\n|Unknown;",
        b"get a\r \r\n|BadLine;",
    ]
}

/// Words between spaces.
pub fn words() -> Rows {
    &[
        b"  get   a    b  \r\n|get a b;",
        b"GET a\r\n|Unknown;",
        b"getx a\r\n|Unknown;",
        b"get\r\n|BadLine;",
        b"set\r\n|BadLine;",
        b"set a 0 0\r\n|BadLine;",
        b"set a x 0 2 noreply\r\n|BadLine;",
        b"set a 0 0 1 noreply x\r\n|BadLine;",
    ]
}

/// Keys.
pub fn keys() -> Rows {
    &[
        b"get !~\x80\xff\n|get !~\x80\xff;",
        b"get a b\x7f c\n|BadLine;",
        b"get \x1f\n|BadLine;",
        b"get a\tb\n|BadLine;",
        b"set \x7f 0 0 1\r\nx\r\n|BadLine;Unknown;",
        // Words about as long as the sixteen bytes that are looked at in one step.
        b"get 123456789abcde 123456789abcdef k\n|get 123456789abcde 123456789abcdef k;",
        b"get \x80123456789abcdef 123456789abcdefgh\n|get \x80123456789abcdef 123456789abcdefgh;",
        b"get 123456789abcdef0123456789abcdef k\n|get 123456789abcdef0123456789abcdef k;",
        b"get 123456789abcdef0123456789abcdef0 k\n|get 123456789abcdef0123456789abcdef0 k;",
        b"get 123456789abcde\x7f behind_it_more\n|BadLine;",
        b"get 123456789abcdef\x7f behind_it_more\n|BadLine;",
        b"get 123456789abcdef0\x7f\n|BadLine;",
        b"get 12\x1f34\x7f behind_it_more_and_more\n|BadLine;",
        b"get 12\x7f34\x1f behind_it_more_and_more\n|BadLine;",
        b"get k                  k                                  k\n|get k k k;",
    ]
}

/// Flags, exptimes and sizes.
pub fn numbers() -> Rows {
    &[
        b"set a 4294967295 0 1\r\nx\r\n|set a 4294967295 x;",
        b"set a 0004294967295 0 01\r\nx\r\n|set a 4294967295 x;",
        b"set a 4294967296 0 1\r\nx\r\n|BadLine;Unknown;",
        b"set a 99999999999999999999 0 1\r\n|BadLine;",
        b"set a -0 0 1\r\n|BadLine;",
        b"set a +1 0 1\r\n|BadLine;",
        b"set a 1x 0 1\r\n|BadLine;",
        b"set a 7 00 1\r\nx\r\n|set a 7 x;",
        b"set a 7 -0 1\r\nx\r\n|set a 7 x;",
        b"set a 7 - 1\r\n|BadLine;",
        b"set a 7 --0 1\r\n|BadLine;",
        b"set a 7 +0 1\r\n|BadLine;",
        b"set a 7 1 1\r\nx\r\n|set a 7 @1 x;",
        b"set a 7 -1 1\r\nx\r\n|set a 7 @-1 x;",
        b"set a 7 0 -1\r\n|BadLine;",
        b"set a 7 0 1.0\r\n|BadLine;",
    ]
}

/// Data blocks.
pub fn data() -> Rows {
    &[
        b"set a 0 0 2\r\nhi\r\n|set a 0 hi;",
        b"set a 0 0 2\nhi\r\nget a\r\n|set a 0 hi;get a;",
        b" set  a  0  0  2 \r\nhi\r\n|set a 0 hi;",
        b"set e 5 0 0\r\n\r\n|set e 5 ;",
        b"set a 0 0 4\r\n\r\n\r\n\r\n|set a 0 \r\n\r\n;",
        b"set a 0 0 3\r\na\nb\r\n|set a 0 a\nb;",
        b"set a 0 0 2\r\nhi|",
        b"set a 0 0 2\r\nhi\r|",
        b"set a 0 0 2\r\nhi\nget a\r\n|BadData;get a;",
        b"set a 0 0 2\r\nh\r\nget a\r\n|BadData;get a;",
        b"set a 0 0 2\r\nhix\r\nget a\r\n|BadData;get a;",
        b"set a 0 0 2\r\nhi\rx\nget a\r\n|BadData;get a;",
        b"set a 0 0 2\r\nhi\r\r\nget a\r\n|BadData;get a;",
        b"set a 0 0 0\r\nhi\r\nget a\r\n|BadData;get a;",
        b"set a 0 0 1\r\nhi|",
        b"set a 0 0 3\r\n\0\n\xff\r\n|set a 0 \0\n\xff;",
        b"set a 0 0 2\r\n\r\n\r\n|set a 0 \r\n;",
        b"set a 0 0 2\r\nhi\r\nset b 0 0 2\r\nho\r\n|set a 0 hi;set b 0 ho;",
        b"set a 0 0 2\r\nhi\n\nget a\r\n|BadData;Unknown;get a;",
        b"set a 0 0 2\r\nhi\r\r\n\r\n|BadData;Unknown;",
        b"set a 0 0 2\r\nhi quit\r\nquit\r\n|BadData;quit;",
        b"set a 0 0 1\r\n\n\nget a\r\n|BadData;get a;",
        b"cas a 0 0 0 1\r\nx\r\n\r\n|BadData;Unknown;",
    ]
}

/// Names of commands.
pub fn names() -> Rows {
    &[
        b"version\r\n|version;",
        b"stats\n|stats;",
        b"quit\r\n|quit;",
        b"quit\r\nversion\r\n|quit;version;",
        b"gets a b\r\n|gets a b;",
        b"VERSION\r\n|Unknown;",
        b"versio\r\n|Unknown;",
        b"versions\r\n|Unknown;",
        b"Quit\r\n|Unknown;",
        b"quit\r\r\n|Unknown;",
        b"\rquit\r\n|Unknown;",
        b"quit\r \r\n|Unknown;",
        b"quit\tx\r\n|Unknown;",
        b"\0\r\n|Unknown;",
        b"\xff\xfe\n|Unknown;",
        b"touchs a 0\r\n|Unknown;",
        b"flush\r\n|Unknown;",
        b"mg a\r\n|Unknown;",
    ]
}

/// Commands without further words.
pub fn lone() -> Rows {
    &[
        b"  quit  \r\n|quit;",
        b"quit|",
        b"quit\r|",
        b"quit x\r\n|BadLine;",
        b"quit noreply\r\n|BadLine;",
        b"version 1\r\n|BadLine;",
        b"version noreply\r\n|BadLine;",
        b"stats items\r\n|BadLine;",
    ]
}

/// Retrieval commands.
pub fn fetches() -> Rows {
    &[
        b"gets\r\n|BadLine;",
        b"get   \r\n|BadLine;",
        b"get a noreply\r\n|get a noreply;",
        b"gets a\x7f\r\n|BadLine;",
        b"gets a\rb\r\n|BadLine;",
        b"get a a a\nget a\n|get a a a;get a;",
    ]
}

/// Storage commands.
pub fn stores() -> Rows {
    &[
        b"add a 1 0 2\r\nhi\r\n|add a 1 hi;",
        b"replace a 1 0 2\r\nhi\r\n|replace a 1 hi;",
        b"append a 1 0 2\r\nhi\r\n|append a 1 hi;",
        b"prepend a 1 0 2\r\nhi\r\n|prepend a 1 hi;",
        b"add\r\n|BadLine;",
        b"replace a\r\n|BadLine;",
        b"append a 1\r\n|BadLine;",
        b"prepend a 1 0\r\n|BadLine;",
        b"Set a 0 0 1\r\nx\r\n|Unknown;Unknown;",
        b"cas a 1 0 2 7\r\nhi\r\n|cas a 1 7 hi;",
        b"cas a 1 0 2 18446744073709551615\r\nhi\r\n|cas a 1 18446744073709551615 hi;",
        b"cas a 1 0 2 0018446744073709551615\r\nhi\r\n|cas a 1 18446744073709551615 hi;",
        b"cas a 1 0 2 18446744073709551616\r\nhi\r\n|BadLine;Unknown;",
        b"cas a 1 0 2 -1\r\n|BadLine;",
        b"cas a 1 0 2 x\r\n|BadLine;",
        b"cas a 1 0 2\r\nhi\r\n|BadLine;Unknown;",
        b"cas a 1 0 2 noreply\r\nhi\r\n|BadLine;Unknown;",
        b"cas a 1 0 2 7 8\r\n|BadLine;",
        b"set a 1 0 2 7\r\n|BadLine;",
    ]
}

/// What stands in the place of `noreply`.
pub fn noreply() -> Rows {
    &[
        b"set a 0 0 2 noreply\r\nhi\r\nget a\r\n|set a 0 hi quiet;get a;",
        b"set  a  0  0  2  noreply  \r\nhi\r\n|set a 0 hi quiet;",
        b"append a 0 0 0 noreply\r\n\r\n|append a 0  quiet;",
        b"cas a 0 0 2 7 noreply\r\nhi\r\n|cas a 0 7 hi quiet;",
        b"cas a 0 0 2 7 noreply x\r\n|BadLine;",
        b"set a 0 0 2 norepl\r\n|BadLine;",
        b"set a 0 0 2 noreplyx\r\n|BadLine;",
        b"set a 0 0 2 NOREPLY\r\n|BadLine;",
        b"set a 0 0 2 noreply noreply\r\n|BadLine;",
        b"set a 0 0 noreply\r\n|BadLine;",
        b"set noreply 0 0 2 noreply\r\nhi\r\n|set noreply 0 hi quiet;",
        b"set a 0 0 2 noreply\r\nhix\r\nversion\r\n|BadData;version;",
        b"set a 4294967296 0 2 noreply\r\nhi\r\n|BadLine;Unknown;",
    ]
}

/// `delete`.
pub fn deletions() -> Rows {
    &[
        b"delete a\r\n|delete a;",
        b"delete a 0\r\n|delete a;",
        b"delete a noreply\r\n|delete a quiet;",
        b"delete a 0 noreply\r\n|delete a quiet;",
        b"delete 0\r\n|delete 0;",
        b"delete noreply\r\n|delete noreply;",
        b"delete noreply noreply\r\n|delete noreply quiet;",
        b"delete\r\n|BadLine;",
        b"delete a 00\r\n|BadLine;",
        b"delete a 5\r\n|BadLine;",
        b"delete a -0\r\n|BadLine;",
        b"delete a 0 0\r\n|BadLine;",
        b"delete a noreply 0\r\n|BadLine;",
        b"delete a noreply noreply\r\n|BadLine;",
        b"delete a 0 noreply x\r\n|BadLine;",
        b"delete a\x7f\r\n|BadLine;",
    ]
}

/// `incr` and `decr`.
pub fn arithmetic() -> Rows {
    &[
        b"incr a 5\r\n|incr a 5;",
        b"decr a 0\r\n|decr a 0;",
        b"incr a 5 noreply\r\n|incr a 5 quiet;",
        b"decr a 5 noreply\r\n|decr a 5 quiet;",
        b"incr a 18446744073709551615\r\n|incr a 18446744073709551615;",
        b"decr a 000018446744073709551615\r\n|decr a 18446744073709551615;",
        b"incr a 18446744073709551616\r\n|BadNumber;",
        b"decr a 184467440737095516150\r\n|BadNumber;",
        b"incr a -1\r\n|BadNumber;",
        b"incr a +1\r\n|BadNumber;",
        b"incr a 1x\r\n|BadNumber;",
        b"incr a 1\r \r\n|BadNumber;",
        b"incr a noreply\r\n|BadNumber;",
        b"incr a x noreply\r\n|BadNumber;",
        b"incr a x y\r\n|BadLine;",
        b"incr a x noreply y\r\n|BadLine;",
        b"incr \x7f x\r\n|BadLine;",
        b"decr a\r\n|BadLine;",
        b"decr\r\n|BadLine;",
    ]
}

/// `verbosity`.
pub fn verbosity() -> Rows {
    &[
        b"verbosity 1\r\n|verbosity;",
        b"verbosity 0 noreply\r\n|verbosity quiet;",
        b"verbosity 4294967295\r\n|verbosity;",
        b"verbosity 4294967296\r\n|BadNumber;",
        b"verbosity -1\r\n|BadNumber;",
        b"verbosity noreply\r\n|BadNumber;",
        b"verbosity noreply noreply\r\n|BadNumber;",
        b"verbosity x y\r\n|BadLine;",
        b"verbosity 1 2\r\n|BadLine;",
        b"verbosity 1 noreply noreply\r\n|BadLine;",
        b"verbosity\r\n|BadLine;",
    ]
}

/// Sizes of data.
pub fn sizes() -> Rows {
    &[
        b"set a 7 0 1048577\r\nget b\r\n|",
        b"set a 7 0 2147483647 noreply\r\nget b\r\n|",
        b"set a 7 0 2147483648\r\nget b\r\n|BadLine;get b;",
        b"set a 7 0 1048577 x\r\nget b\r\n|BadLine;get b;",
        b"set a\x7f 7 0 1048577\r\nget b\r\n|BadLine;get b;",
    ]
}

/// Exptimes up to their limits, in a storage line and elsewhere.
pub fn times() -> Rows {
    &[
        b"set a 7 0000 1\r\nx\r\n|set a 7 x;",
        b"set a 7 -00 1\r\nx\r\n|set a 7 x;",
        b"set a 7 x 1\r\n|BadLine;",
        b"set a 0 9223372036854775807 1\r\nx\r\n|set a 0 @9223372036854775807 x;",
        b"set a 0 9223372036854775808 1\r\nx\r\n|BadLine;Unknown;",
        b"set a 0 -9223372036854775808 1\r\nx\r\n|set a 0 @-9223372036854775808 x;",
        b"set a 0 -9223372036854775809 1\r\nx\r\n|BadLine;Unknown;",
        b"touch a 0\r\n|touch a 0;",
        b"touch a -0\r\n|touch a 0;",
        b"touch a -1 noreply\r\n|touch a -1 quiet;",
        b"touch a 9223372036854775807\r\n|touch a 9223372036854775807;",
        b"touch a 9223372036854775808\r\n|BadNumber;",
        b"touch a x\r\n|BadNumber;",
        b"touch a\r\n|BadLine;",
        b"touch\r\n|BadLine;",
        b"touch a 0 x\r\n|BadLine;",
        b"touch a x x\r\n|BadLine;",
        b"touch a\x7f x\r\n|BadLine;",
        b"touch a noreply\r\n|BadNumber;",
    ]
}

/// Fetches that touch.
pub fn touches() -> Rows {
    &[
        b"gat 0 a\r\n|gat 0 a;",
        b"gats -7 a b\r\n|gats -7 a b;",
        b"gat 10\r\n|BadLine;",
        b"gat\r\n|BadLine;",
        b"gat x a\r\n|BadNumber;",
        b"gat x a\x7f\r\n|BadLine;",
        b"gat 1 a noreply\r\n|gat 1 a noreply;",
        b"GAT 1 a\r\n|Unknown;",
    ]
}

/// Flushes.
pub fn flushes() -> Rows {
    &[
        b"flush_all\r\n|flush_all 0;",
        b"flush_all noreply\r\n|flush_all 0 quiet;",
        b"flush_all 10\r\n|flush_all 10;",
        b"flush_all -3 noreply\r\n|flush_all -3 quiet;",
        b"flush_all -0\r\n|flush_all 0;",
        b"flush_all noreply 10\r\n|BadLine;",
        b"flush_all noreply noreply\r\n|BadLine;",
        b"flush_all x\r\n|BadNumber;",
        b"flush_all x y\r\n|BadLine;",
        b"flush_all 1 noreply x\r\n|BadLine;",
        b"flush_all 9223372036854775808\r\n|BadNumber;",
    ]
}
