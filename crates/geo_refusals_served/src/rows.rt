//! The calls of the scenes at a station.
use crate::stations::{Line, Sight};

/// A scene at a station.
#[derive(Clone, Copy)]
pub enum Rows {
    Taking,
    Station,
    Closing,
    Eras,
    Maintenance,
    Rounds,
    Fills,
}

impl Rows {
    /// The scene of a name; None for another name.
    pub fn of(name: &str) -> Option<Rows> {
        Some(match name {
            "taking" => Rows::Taking,
            "station" => Rows::Station,
            "closing" => Rows::Closing,
            "eras" => Rows::Eras,
            "maintenance" => Rows::Maintenance,
            "rounds" => Rows::Rounds,
            "fills" => Rows::Fills,
            _ => return None,
        })
    }

    /// How many sites there are. The station's is the first.
    pub fn sites(self) -> u8 {
        match self {
            Rows::Taking | Rows::Station | Rows::Closing | Rows::Eras | Rows::Fills => 2,
            Rows::Maintenance => 1,
            Rows::Rounds => 3,
        }
    }

    /// Its calls.
    pub fn lines(self) -> &'static [Line] {
        match self {
            Rows::Taking => TAKING,
            Rows::Station => STATION,
            Rows::Closing => CLOSING,
            Rows::Eras => ERAS,
            Rows::Maintenance => MAINTENANCE,
            Rows::Rounds => ROUNDS,
            Rows::Fills => FILLS,
        }
    }

    /// What is seen of it.
    pub fn sight(self) -> Sight {
        match self {
            Rows::Taking | Rows::Station => Sight::Steps,
            Rows::Closing | Rows::Eras => Sight::Calls,
            Rows::Maintenance | Rows::Rounds | Rows::Fills => Sight::State,
        }
    }
}

/// A station that knows nothing takes a parcel, for whose record it has no room yet, and is heard to know it.
const TAKING: &[Line] = &[
    Line::Beside(b"set a 0 0 2\r\nyo\r\n"),
    Line::Back,
    Line::Take(0, 0),
    Line::Act(1, 100, b"gets a\r\n"),
    Line::Send(1, 2),
    Line::Forth(1),
    Line::Close,
];

/// Each kind of call by two seats, while a second site writes the same key and hears of all, until it is held for gone.
const STATION: &[Line] = &[
    Line::Act(0, 100, b"set a 0 0 2\r\nhi\r\n"),
    Line::Beside(b"set a 0 0 2\r\nyo\r\n"),
    Line::Send(0, 2),
    Line::Back,
    Line::Take(1, 1),
    Line::Act(1, 100, b"get a\r\n"),
    Line::Act(0, 100, b"set n 0 0 1\r\n5\r\n"),
    Line::Act(1, 100, b"incr n 7\r\n"),
    Line::Act(0, 100, b"append n 0 0 1\r\n3\r\n"),
    Line::Act(0, 100, b"get n a\r\n"),
    Line::Act(1, 100, b"gats 50 n\r\n"),
    Line::Send(1, 1),
    Line::Send(0, 2),
    Line::Forth(0),
    Line::Forth(2),
    Line::Act(0, 100, b"delete n\r\n"),
    Line::Send(1, 2),
    Line::Forth(3),
    Line::Back,
    Line::Take(0, 4),
    Line::Take(1, 4),
    Line::Beside(b"set b_whose_name_is_too_long_to_stand_in_place 0 0 2\r\nyo\r\n"),
    Line::Back,
    Line::Take(1, 5),
    Line::Take(1, 0),
    Line::Retire(0, 1),
    Line::Retire(0, 2),
    Line::Retire(1, 2),
    Line::Send(1, 2),
    Line::Take(0, 5),
    Line::Close,
];

/// The history of one era that is handed out at the end is what the seats keep, or an end of it.
const CLOSING: &[Line] = &[
    Line::Act(0, 100, b"set a 0 0 2\r\nhi\r\n"),
    Line::Act(1, 100, b"incr n 1\r\n"),
    Line::Send(1, 2),
    Line::Beside(b"set b 0 0 2\r\nyo\r\n"),
    Line::Back,
    Line::Take(0, 1),
    Line::Act(1, 100, b"get a b\r\n"),
    Line::Act(0, 100, b"replace a 0 0 3\r\nyes\r\n"),
    Line::Forget(1),
    Line::Act(1, 100, b"get a\r\n"),
    Line::Close,
];

/// An era begins behind three steps, and not again behind two more.
const ERAS: &[Line] = &[
    Line::Act(0, 100, b"set a 0 0 2\r\nhi\r\n"),
    Line::Act(1, 100, b"get a\r\n"),
    Line::Send(0, 2),
    Line::Renew(4),
    Line::Renew(3),
    Line::Act(0, 100, b"get b\r\n"),
    Line::Act(1, 100, b"delete a\r\n"),
    Line::Renew(3),
    Line::Forget(0),
    Line::Act(0, 100, b"gets a\r\n"),
    Line::Close,
];

/// What ended is reaped and dropped with what was deleted, a flush comes at its moment, and items move in their lists.
const MAINTENANCE: &[Line] = &[
    Line::Act(0, 100, b"set a 0 50 2\r\nhi\r\n"),
    Line::Act(0, 100, b"set b 0 60 2\r\nyo\r\n"),
    Line::Act(1, 100, b"set c 0 0 2\r\nok\r\n"),
    Line::Act(1, 100, b"delete c\r\n"),
    Line::Act(1, 100, b"flush_all 150\r\n"),
    Line::Maintain(1, 211),
    Line::Maintain(0, 250),
    Line::Act(0, 300, b"set d 0 0 1\r\nz\r\n"),
    Line::Maintain(1, 300),
];

/// Two rounds to two sites, what one of them tells in between, and a third round once the other is held for gone.
const ROUNDS: &[Line] = &[
    Line::Act(0, 100, b"set a 0 0 2\r\nhi\r\n"),
    Line::Beside(b"set a 0 0 2\r\nyo\r\n"),
    Line::Round(0),
    Line::Forth(0),
    Line::Back,
    Line::Beside(b"set b 0 0 2\r\nyo\r\n"),
    Line::Back,
    Line::Receive(1, 2),
    Line::Act(0, 100, b"get a b\r\n"),
    Line::Act(0, 100, b"delete a\r\n"),
    Line::Round(0),
    Line::Forth(4),
    Line::Retire(1, 3),
    Line::Round(0),
];

/// What the second site wrote is missing, is offered by hand and then fetched, and nothing is missing behind it.
const FILLS: &[Line] = &[
    Line::Beside(b"set a 0 0 2\r\nyo\r\n"),
    Line::Beside(b"set b_whose_name_is_too_long_to_stand_in_place 0 0 3\r\nyes\r\n"),
    Line::Back,
    Line::Missing,
    Line::Take(0, 0),
    Line::Missing,
    Line::Fill(1, b"a", b"no"),
    Line::Offer(b"a", b"yo"),
    Line::Fill(1, b"a", b"yo"),
    Line::Fill(0, b"a", b"yo"),
    Line::Offer(b"a", b"yo"),
    Line::Offer(b"a", b"no"),
    Line::Missing,
    Line::Fetch(0, 1),
    Line::Act(
        1,
        100,
        b"get a b_whose_name_is_too_long_to_stand_in_place\r\n",
    ),
    Line::Missing,
    Line::Fetch(1, 0),
];
