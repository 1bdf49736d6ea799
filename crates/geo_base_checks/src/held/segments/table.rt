//! What is done with the lists HOT, WARM and COLD, and what is shown, worked out by hand from the rules.

/// A row: a letter says what is done with each of the digits behind it, which are items. They enter by `e`, are hit by `h`, leave by `l`
/// and come anew by `r`. By `j` the lists are juggled once, which shows a plus where an item moved and else a dot. By `v` the next victim
/// is shown, a dash where there is none, and by `d` all victims, each of which leaves: those of COLD, of WARM and of HOT, from the tail.
pub const ROWS: &[(&'static str, &'static str)] = &[
    // A new class has no victim, and nothing to move.
    ("v j", "-."),
    // Items enter at the head of HOT, and a hit moves none.
    ("e12345 h112 v d", "112345-"),
    // Of five, HOT may have one. 1 was hit twice and goes to WARM, the others to COLD: victims are of COLD first, then of WARM.
    ("e12345 h112 jjjj j v d", "++++.223415-"),
    // Of two, neither HOT nor WARM may have any: 5 was in HOT, and 1 in WARM.
    ("e12345 h112 jjjj l234 jj j d", "++++++.51-"),
    // A hit on an item that was not hit before makes it go nowhere else.
    ("e12345 h112 jjjj h3 j d", "++++.23415-"),
    ("e12345 h112 jjjj h4 j d", "++++.23415-"),
    ("e12345 h112 jjjj h5 l234 j d", "+++++51-"),
    // A hit on an unknown item changes nothing.
    ("e12345 h112 jjjj h6 j d", "++++.23415-"),
    // An active item of COLD goes to the head of WARM.
    ("e12345 h112 jjjj h2 j v d", "+++++334125-"),
    // The active item nearest the tail goes first.
    ("e12345 h112 jjjj h4433 j d", "+++++24135-"),
    ("e12345 h112 jjjj h4433 jj d", "++++++21345-"),
    // One that is hit between two moves goes next where it is nearer the tail, also where another was found before.
    ("e12345 h112 jjjj h4433 j h22 j d", "++++++41325-"),
    ("e12345 h112 jjjj h4433 j h22 jjj d", "++++++++13245-"),
    // So does one that was active alone, and one that was hit after that.
    ("e12345 h112 jjjj h33 h4 j d", "+++++24135-"),
    ("e12345 h112 jjjj h33 h22 j d", "+++++34125-"),
    // One that was found and then left moves no more.
    ("e12345 h112 jjjj h4433 j l4 j d", "++++++2513-"),
    ("e12345 h112 jjjj h44 l4 h33 jj d", "++++++2513-"),
    // An active item of COLD that left and came again is as new.
    ("e12345 h112 jjjj h33 l3 e3 jj d", "+++++.24513-"),
    // One that comes to COLD again and is hit there moves by its new place, not by the one that it left.
    ("e12345 h112 jjjj h33 l3 e36 jj h3344 j d", "+++++++253146-"),
    (
        "e12345 h112 jjjj h2233 j l3 e36 jj h3344 j d",
        "++++++++531246-",
    ),
    // An active tail of WARM, where it is too long, goes round, and one that is not goes to COLD. A move leaves an item hit once.
    ("e12345 h112 jjjj h2331 jj d", "++++++41235-"),
    ("e12345 h112 jjjj h2331 jjj d", "+++++++42315-"),
    ("e12345 h112 jjjj h2331 jjjj j h2 j d", "++++++++.+43125-"),
    // Limits are rounded down: of three, HOT may have none and WARM one. 4 is in WARM, where a hit moves nothing, and 3 in COLD.
    ("e12345 h112 l12 h3344 jjjj j d", "++++.534-"),
    ("e12345 h112 l12 h3344 jjjj h4 j d", "++++.534-"),
    ("e12345 h112 l12 h3344 jjjj h5 j d", "++++.534-"),
    ("e12345 h112 l12 h3344 jjjj h3 j d", "+++++543-"),
    // An item leaves each list. One that is in none is not missed.
    ("e12345 h112 jjjj l3156 j d", "++++.24-"),
    ("e12345 h112 jjjj l3156 h24 j d", "+++++42-"),
    // An active item that left moves no more.
    ("e12345 h112 jjjj h2 l25 j d", "++++.341-"),
    // An item that left may enter again, as one that was not hit.
    ("e7 h7 l7 e7 v d", "77-"),
    ("e7 h7 l7 e78 h7 jj d", "++78-"),
    // An item comes anew from each list, as one that was not hit.
    ("e12345 h112 jjjj r513 d", "++++24513-"),
    ("e12345 h112 jjjj r513 h1 e6 jjj d", "+++++++245136-"),
];
