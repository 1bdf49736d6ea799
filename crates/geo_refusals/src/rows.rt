//! The calls of the scenes whose sites are asked directly.
use crate::lines::Line;

/// Two sites set one key, and tell each other.
pub const TIE: &[Line] = &[
    Line::Act(1, 100, b"set a 0 0 2\r\nhi\r\n"),
    Line::Act(2, 100, b"set a 0 0 2\r\nyo\r\n"),
    Line::Send(1, 2),
    Line::Send(2, 1),
    Line::Take(2, 0),
    Line::Take(1, 1),
    Line::Act(1, 100, b"get a\r\n"),
    Line::Act(2, 100, b"get a\r\n"),
];

/// What was deleted is dropped once both sites know it, and a parcel that comes late brings nothing back.
pub const REMOVAL: &[Line] = &[
    Line::Act(1, 100, b"set a 0 0 2\r\nhi\r\n"),
    Line::Send(1, 2),
    Line::Act(1, 100, b"delete a\r\n"),
    Line::Send(1, 2),
    Line::Take(2, 1),
    Line::Send(2, 1),
    Line::Take(1, 2),
    Line::Remove(1),
    Line::Send(1, 2),
    Line::Take(2, 3),
    Line::Remove(2),
    Line::Take(2, 0),
    Line::Take(2, 0),
    Line::Act(2, 100, b"gets a\r\n"),
];

/// An append keeps the end of what it extends.
pub const EXPIRY: &[Line] = &[
    Line::Act(1, 100, b"set a 7 50 1\r\nx\r\n"),
    Line::Act(1, 100, b"append a 9 0 1\r\ny\r\n"),
    Line::Act(1, 149, b"get a\r\n"),
    Line::Act(1, 150, b"get a\r\n"),
    Line::Reap(1, 211, b"a"),
    Line::Remove(1),
];

/// Of two values of a mebibyte there is room for one; the evicted one's version stays.
pub const EVICTION: &[Line] = &[
    Line::Store(1, b"a", 1_048_576),
    Line::Juggle(1, 14),
    Line::Store(1, b"b", 1_048_576),
    Line::Act(1, 100, b"get a\r\n"),
    Line::Act(1, 100, b"cas a 0 0 1 257\r\nz\r\n"),
    Line::Evict(1, b"b"),
    Line::Act(1, 100, b"add b 0 0 1\r\nz\r\n"),
];

/// Two values of half a mebibyte fill their class. Which goes for the third tells how they stood in its lists.
pub const LISTS: &[Line] = &[
    Line::Store(1, b"a", 524_288),
    Line::Store(1, b"b", 524_288),
    Line::Act(1, 100, b"touch a 0\r\n"),
    Line::Act(1, 100, b"touch a 0\r\n"),
    Line::Juggle(1, 13),
    Line::Juggle(1, 13),
    Line::Juggle(1, 13),
    Line::Juggle(1, 13),
    Line::Store(1, b"c", 524_288),
    Line::Store(1, b"d", 524_288),
    Line::Act(1, 100, b"touch a 0\r\n"),
    Line::Act(1, 100, b"touch b 0\r\n"),
];

/// Four values of a quarter of a mebibyte fill their class and come to COLD. What is hit there twice goes to WARM by a juggle; of what
/// is hit so and leaves before one, for a store or by a delete, nothing is left to move.
pub const COLD: &[Line] = &[
    Line::Store(1, b"a", 262_144),
    Line::Store(1, b"b", 262_144),
    Line::Store(1, b"c", 262_144),
    Line::Store(1, b"d", 262_144),
    Line::Juggle(1, 12),
    Line::Juggle(1, 12),
    Line::Juggle(1, 12),
    Line::Juggle(1, 12),
    Line::Act(1, 100, b"touch a 0\r\n"),
    Line::Act(1, 100, b"touch a 0\r\n"),
    Line::Act(1, 100, b"touch c 0\r\n"),
    Line::Act(1, 100, b"touch c 0\r\n"),
    Line::Store(1, b"e", 262_144),
    Line::Act(1, 100, b"touch a 0\r\n"),
    Line::Juggle(1, 12),
    Line::Juggle(1, 12),
    Line::Juggle(1, 12),
    Line::Act(1, 100, b"touch b 0\r\n"),
    Line::Act(1, 100, b"touch b 0\r\n"),
    Line::Act(1, 100, b"touch e 0\r\n"),
    Line::Act(1, 100, b"touch e 0\r\n"),
    Line::Act(1, 100, b"delete b\r\n"),
    Line::Juggle(1, 12),
    Line::Juggle(1, 12),
    Line::Juggle(1, 12),
    Line::Store(1, b"f", 262_144),
    Line::Store(1, b"g", 262_144),
    Line::Act(1, 100, b"touch d 0\r\n"),
    Line::Store(1, b"h", 262_144),
    Line::Act(1, 100, b"touch c 0\r\n"),
    Line::Store(1, b"i", 262_144),
    Line::Act(1, 100, b"touch e 0\r\n"),
    Line::Act(1, 100, b"touch f 0\r\n"),
];

/// A flush waits for its moment, and comes before the next request.
pub const FLUSH: &[Line] = &[
    Line::Act(1, 100, b"set a 0 0 2\r\nhi\r\n"),
    Line::Act(1, 100, b"flush_all 10\r\n"),
    Line::Act(1, 105, b"set b 0 0 2\r\nyo\r\n"),
    Line::Act(1, 109, b"get b\r\n"),
    Line::Act(1, 110, b"get b\r\n"),
    Line::Act(1, 110, b"set c 0 0 2\r\nhi\r\n"),
    Line::Act(1, 110, b"gets c\r\n"),
    Line::Act(1, 110, b"flush_all 10\r\n"),
    Line::Act(1, 120, b"set d 0 5 2\r\nyo\r\n"),
    Line::Act(1, 120, b"flush_all 80\r\n"),
    Line::Reap(1, 200, b"d"),
    Line::Act(1, 200, b"flush_all 10\r\n"),
    Line::Tick(1, 210),
];

/// One key is got and touched twice by one request.
pub const TOUCHES: &[Line] = &[
    Line::Act(1, 100, b"set a 0 0 2\r\nhi\r\n"),
    Line::Act(1, 100, b"gats 10 a a\r\n"),
    Line::Act(1, 100, b"gat -1 a a\r\n"),
    Line::Act(1, 100, b"stats\r\n"),
];

/// More keys are touched by one line than are sought among all before them, and end by it. Each shows once: `a` is named again while
/// they are looked through, `b` behind the key at which a set is made of those before it, and `6` is put into that set itself.
pub const REPEATS: &[Line] = &[
    Line::Act(1, 100, b"set a 0 0 1\r\na\r\n"),
    Line::Act(1, 100, b"set b 0 0 1\r\nb\r\n"),
    Line::Act(1, 100, b"set c 0 0 1\r\nc\r\n"),
    Line::Act(1, 100, b"set d 0 0 1\r\nd\r\n"),
    Line::Act(1, 100, b"set e 0 0 1\r\ne\r\n"),
    Line::Act(1, 100, b"set f 0 0 1\r\nf\r\n"),
    Line::Act(1, 100, b"set g 0 0 1\r\ng\r\n"),
    Line::Act(1, 100, b"set h 0 0 1\r\nh\r\n"),
    Line::Act(1, 100, b"set i 0 0 1\r\ni\r\n"),
    Line::Act(1, 100, b"set j 0 0 1\r\nj\r\n"),
    Line::Act(1, 100, b"set k 0 0 1\r\nk\r\n"),
    Line::Act(1, 100, b"set l 0 0 1\r\nl\r\n"),
    Line::Act(1, 100, b"set m 0 0 1\r\nm\r\n"),
    Line::Act(1, 100, b"set n 0 0 1\r\nn\r\n"),
    Line::Act(1, 100, b"set o 0 0 1\r\no\r\n"),
    Line::Act(1, 100, b"set p 0 0 1\r\np\r\n"),
    Line::Act(1, 100, b"set q 0 0 1\r\nq\r\n"),
    Line::Act(1, 100, b"set r 0 0 1\r\nr\r\n"),
    Line::Act(1, 100, b"set s 0 0 1\r\ns\r\n"),
    Line::Act(1, 100, b"set t 0 0 1\r\nt\r\n"),
    Line::Act(1, 100, b"set u 0 0 1\r\nu\r\n"),
    Line::Act(1, 100, b"set v 0 0 1\r\nv\r\n"),
    Line::Act(1, 100, b"set w 0 0 1\r\nw\r\n"),
    Line::Act(1, 100, b"set x 0 0 1\r\nx\r\n"),
    Line::Act(1, 100, b"set y 0 0 1\r\ny\r\n"),
    Line::Act(1, 100, b"set z 0 0 1\r\nz\r\n"),
    Line::Act(1, 100, b"set 0 0 0 1\r\n0\r\n"),
    Line::Act(1, 100, b"set 1 0 0 1\r\n1\r\n"),
    Line::Act(1, 100, b"set 2 0 0 1\r\n2\r\n"),
    Line::Act(1, 100, b"set 3 0 0 1\r\n3\r\n"),
    Line::Act(1, 100, b"set 4 0 0 1\r\n4\r\n"),
    Line::Act(1, 100, b"set 5 0 0 1\r\n5\r\n"),
    Line::Act(1, 100, b"set 6 0 0 1\r\n6\r\n"),
    Line::Act(1, 100, b"set 7 0 0 1\r\n7\r\n"),
    Line::Act(
        1,
        100,
        b"gat -1 a b a c d e f g h i j k l m n o p q r s t u v w x y z 0 1 2 3 4 5 b 6 _ 7 6\r\n",
    ),
    Line::Act(1, 100, b"get a 7\r\n"),
    Line::Act(1, 100, b"stats\r\n"),
];

/// One line shows long values more than once, which stand in memory once each: `a` and `b` are found again while the places of all
/// values before are looked through, then `b`, `d` and `a` by a map of these places. Where memory for the map is refused the line is
/// answered without it. A touch shows them so too.
pub const OWNERS: &[Line] = &[
    Line::Act(
        1,
        100,
        b"set a 0 0 64\r\naaaaaaaaaaaaaaaaaaaaaaaaaaaaaaaaaaaaaaaaaaaaaaaaaaaaaaaaaaaaaaaa\r\n",
    ),
    Line::Act(
        1,
        100,
        b"set b 0 0 64\r\nbbbbbbbbbbbbbbbbbbbbbbbbbbbbbbbbbbbbbbbbbbbbbbbbbbbbbbbbbbbbbbbb\r\n",
    ),
    Line::Act(
        1,
        100,
        b"set d 0 0 64\r\ndddddddddddddddddddddddddddddddddddddddddddddddddddddddddddddddd\r\n",
    ),
    Line::Act(1, 100, b"set c 0 0 1\r\nc\r\n"),
    Line::Act(
        1,
        100,
        b"get a c b a a a a a a a a a a a a a a a a a a a a a a a a a a a a a a a a b d d a x\r\n",
    ),
    Line::Act(1, 100, b"gat 50 b b a\r\n"),
    Line::Act(1, 100, b"stats\r\n"),
];

/// What a site was heard to know is left out of what it is told.
pub const DELTAS: &[Line] = &[
    Line::Act(1, 100, b"set a 0 0 2\r\nhi\r\n"),
    Line::Send(1, 2),
    Line::Frame(0),
    Line::Take(2, 0),
    Line::Send(2, 1),
    Line::Frame(1),
    Line::Take(1, 1),
    Line::Act(1, 100, b"set b 0 0 2\r\nyo\r\n"),
    Line::Send(1, 2),
    Line::Frame(2),
    Line::Take(2, 2),
    Line::Offer(b"m_whose_name_is_too_long_to_stand_in_place", b"yo"),
];

/// Each kind of command, and each call of a site and its history.
pub const COMMANDS: &[Line] = &[
    Line::Act(1, 100, b"set n 3 0 1\r\n5\r\n"),
    Line::Act(1, 100, b"incr n 7\r\n"),
    Line::Act(1, 100, b"decr n 100\r\n"),
    Line::Act(1, 100, b"prepend n 0 0 1\r\n4\r\n"),
    Line::Act(1, 100, b"replace n 0 0 1\r\n9\r\n"),
    Line::Act(
        1,
        100,
        b"add m_whose_name_is_too_long_to_stand_in_place 0 0 1\r\n1\r\n",
    ),
    Line::Act(
        1,
        100,
        b"get n m_whose_name_is_too_long_to_stand_in_place x\r\n",
    ),
    Line::Act(1, 100, b"touch n 50\r\n"),
    Line::Act(
        1,
        100,
        b"delete m_whose_name_is_too_long_to_stand_in_place\r\n",
    ),
    Line::NewEra(1),
    Line::Act(1, 100, b"get n\r\n"),
    Line::Reap(1, 211, b"n"),
    Line::Evict(1, b"n"),
    Line::Remove(1),
    Line::NewEra(1),
];
