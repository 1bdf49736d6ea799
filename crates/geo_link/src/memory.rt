//! A link between two threads.
ghost use Rattle.std.specs.Prelude.{◌≡◌, ◌<◌, ◌⊎◌, ◌↔◌, [], false, IfOk, IfErr, Err};
ghost use Rattle.crossbeam_channel.specs.Claims.{IsSeatAt};
ghost use Rattle.crossbeam_channel.specs.Ends.{sends_on, receives_on};
ghost use Rattle.geo_link.specs.Memory.{most_waiting, put_by, got_by, Arrives, MayPut, MayGet};

use crate::fault::LinkError;
use crate::link::Link;
use crate::rule::{Got, InOrder, Log, Put, Roles, Together};
use crossbeam_channel::{Pass, RuledReceiver, RuledSender, bounded_with};
use geo_frame::Message;
use std::alloc::{AllocError, Global};
use std::marker::Model;
use std::sync::Wait;

/// How many messages wait at most to be got.
pub const MOST_WAITING: usize = 1_024;

/// One end of a link between two threads. What it puts the other end gets, in the same order, and the other way round. To put
/// waits while as many messages wait as the link has room for. Where the other end was dropped, Closed is the answer: to each put,
/// and to a get once all is got. Contracts see it as its two channels, what it put, what it got, and whether it was closed.
#[derive(Drop)]
pub struct MemoryLink {
    to: RuledSender<Message, Log, InOrder>,
    puts: Pass<Message, Log>,
    from: RuledReceiver<Message, Log, InOrder>,
    gets: Pass<Message, Log>,
    closed: bool,
}

impl Model for MemoryLink {
    ghost use Rattle.crossbeam_channel.specs.Claims.{IsSeatAt};
    ghost use Rattle.crossbeam_channel.specs.Ends.{sends_on, receives_on};
    ghost use Rattle.geo_link.specs.Memory.{MemoryView, put_by, got_by, MayPut, MayGet};

    ghost Value = { MemoryView };

    ghost view = { λ l. record {
      puts_on = record { table = (sends_on l.to).stamps.shared.table_id; key = (sends_on l.to).stamps.shared.key };
      gets_from = record { table = (receives_on l.from).stamps.shared.table_id; key = (receives_on l.from).stamps.shared.key };
      put = put_by l.puts;
      got = got_by l.gets;
      closed = l.closed;
    } };

    ghost invariant = { λ l. (IsSeatAt (sends_on l.to) l.puts × MayPut l.puts) × (IsSeatAt (receives_on l.from) l.gets × MayGet l.gets) };
}

/// One direction of a link: its two ends, and who may use them.
#[derive(Drop)]
struct Lane {
    to: RuledSender<Message, Log, InOrder>,
    puts: Pass<Message, Log>,
    from: RuledReceiver<Message, Log, InOrder>,
    gets: Pass<Message, Log>,
}

fn one_way(alloc: Global, capacity: usize) -> Result<Lane, AllocError>
    requires { 0 < capacity }
    ensures puts { IfOk result (λ l. IsSeatAt (sends_on l.to) l.puts × MayPut l.puts) }
    ensures gets { IfOk result (λ l. IsSeatAt (receives_on l.from) l.gets × MayGet l.gets) }
    ensures one { IfOk result (λ l. sends_on l.to ≡ receives_on l.from) }
    ensures empty { IfOk result (λ l. (put_by l.puts ≡ []) × (got_by l.gets ≡ [])) }
{
    let (to, from, mut puts) = bounded_with::<Message, Log, InOrder, Global>(alloc, capacity)?;
    let gets = to.another::<Roles>(&mut puts);
    Ok(Lane {
        to,
        puts,
        from,
        gets,
    })
}

/// The two ends of a new link, with room for so many messages in each direction, 1 to 1,024. Closed where it is another number,
/// Memory where memory was wanted and refused.
pub fn memory_link(alloc: Global, capacity: usize) -> Result<(MemoryLink, MemoryLink), LinkError>
    ensures refused { (result ≡ Err LinkError.Closed) ↔ ((capacity < 1) ⊎ (most_waiting < capacity)) }
    ensures why { IfErr result (λ error. (error ≡ LinkError.Closed) ⊎ (error ≡ LinkError.Memory)) }
    ensures forth { IfOk result (λ ends. ends.0.puts_on ≡ ends.1.gets_from) }
    ensures back { IfOk result (λ ends. ends.1.puts_on ≡ ends.0.gets_from) }
    ensures none_put { IfOk result (λ ends. (ends.0.put ≡ []) × (ends.1.put ≡ [])) }
    ensures none_got { IfOk result (λ ends. (ends.0.got ≡ []) × (ends.1.got ≡ [])) }
    ensures opened { IfOk result (λ ends. (ends.0.closed ≡ false) × (ends.1.closed ≡ false)) }
{
    if capacity < 1 || capacity > MOST_WAITING {
        return Err(LinkError::Closed);
    }
    let (Ok(forth), Ok(back)) = (one_way(alloc, capacity), one_way(alloc, capacity)) else {
        return Err(LinkError::Memory);
    };
    let one = MemoryLink {
        to: forth.to,
        puts: forth.puts,
        from: back.from,
        gets: back.gets,
        closed: false,
    };
    let other = MemoryLink {
        to: back.to,
        puts: back.puts,
        from: forth.from,
        gets: forth.gets,
        closed: false,
    };
    Ok((one, other))
}

/// Takes what one pass got to the one that put, and looks.
fn compare(
    to: &RuledSender<Message, Log, InOrder>,
    puts: &mut Pass<Message, Log>,
    gets: Pass<Message, Log>,
)
    requires puts { IsSeatAt (sends_on to.now) puts.old × MayPut puts.old }
    requires gets { IsSeatAt (sends_on to.now) gets × MayGet gets }
    ensures { Arrives (put_by puts.old) (got_by gets) }
{
    to.absorb::<Together>(puts, gets);
    to.learn_as::<Together>(puts);
}

impl MemoryLink {
    /// Ends a link whose two ends are at hand: what each got is what the other put, in the same order, but for what waits.
    pub fn end(self, other: MemoryLink)
        requires forth { self.puts_on ≡ other.gets_from }
        requires back { other.puts_on ≡ self.gets_from }
        ensures forth { Arrives self.put other.got }
        ensures back { Arrives other.put self.got }
    {
        let MemoryLink {
            to: forth,
            puts: mut here,
            gets: got_here,
            ..
        } = self;
        let MemoryLink {
            to: back,
            puts: mut there,
            gets: got_there,
            ..
        } = other;
        compare(&forth, &mut here, got_there);
        compare(&back, &mut there, got_here);
    }
}

impl Link for MemoryLink {
    ghost use Rattle.std.specs.Prelude.{◌≡◌, true};
    ghost use Rattle.geo_link.specs.Memory.{PutsOne, GetsOne, FindsClosed};

    ghost puts = { PutsOne };

    ghost gets = { GetsOne };

    ghost put_fails = { λ old m error new. FindsClosed old error new };

    ghost get_fails = { FindsClosed };

    ghost closes = { λ old new. new ≡ record old { closed = true } };

    fn put<R: Wait>(&mut self, rt: &R, _alloc: Global, message: Message) -> Result<(), LinkError> {
        if self.closed {
            return Err(LinkError::Closed);
        }
        match self.to.send_as::<Put, R>(rt, &mut self.puts, message) {
            Ok(()) => Ok(()),
            Err(_) => Err(LinkError::Closed),
        }
    }

    fn get<R: Wait>(&mut self, rt: &R, _alloc: Global) -> Result<Message, LinkError> {
        if self.closed {
            return Err(LinkError::Closed);
        }
        match self.from.recv_as::<Got, R>(rt, &mut self.gets) {
            Ok(message) => Ok(message),
            Err(_) => Err(LinkError::Closed),
        }
    }

    fn close(&mut self) {
        self.closed = true;
    }
}
