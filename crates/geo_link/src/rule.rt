//! The rule of a channel of messages: what was put is what was got, and then what waits.

use crossbeam_channel::protocol::{Join, Lesson, Outcome, Protocol, Split};
use geo_frame::Message;
use std::collections::LinkedList;

/// What the holder of a pass may do, what it has put, and what it has got. Contracts see it; no value of it is made.
#[derive(Drop)]
pub struct Log {
    pub puts: bool,
    pub gets: bool,
    pub put: LinkedList<Message>,
    pub got: LinkedList<Message>,
}

/// What was put comes out in the same order.
pub struct InOrder;

impl Protocol<Message, Log> for InOrder {
    ghost use Rattle.std.specs.Prelude.{true, []};
    ghost use Rattle.geo_link.specs.Channels.{log, KeepsOrder};

    ghost holds = { KeepsOrder };

    ghost first = { log true true [] [] };
}

/// One pass puts, and the other gets.
pub struct Roles;

impl Split<Log> for Roles {
    ghost use Rattle.std.specs.Prelude.{true, false, []};
    ghost use Rattle.geo_link.specs.Channels.{log};

    ghost left = { λ v. log true false v.put [] };

    ghost right = { λ v. log false true [] v.got };
}

/// A message is put.
pub struct Put;

impl Outcome<Message, Log> for Put {
    ghost use Rattle.geo_link.specs.Channels.{Puts};

    ghost then = { Puts };
}

impl Lesson<Message, Log> for Put {
    ghost fact = { λ v items. Unit {0} };
}

/// A message is got.
pub struct Got;

impl Outcome<Message, Log> for Got {
    ghost use Rattle.geo_link.specs.Channels.{Gets};

    ghost then = { Gets };
}

impl Lesson<Message, Log> for Got {
    ghost fact = { λ v items. Unit {0} };
}

/// One pass has what both had, and the other nothing.
pub struct Together;

impl Join<Log> for Together {
    ghost use Rattle.std.specs.Prelude.{true, false, []};
    ghost use Rattle.geo_link.specs.Channels.{log};

    ghost both = { λ v w. log true true v.put w.got };

    ghost spent = { log false false [] [] };
}

impl Lesson<Message, Log> for Together {
    ghost use Rattle.std.specs.Prelude.{◌≡◌, ◌++◌};

    ghost fact = { λ v waits. v.put ≡ v.got ++ waits };
}
