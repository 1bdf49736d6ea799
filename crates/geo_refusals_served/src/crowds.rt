//! Connections that one thread carries, of which one ends where memory is wanted for it, and the others go on.
use crate::sessions::{Counting, REFUSED};
use geo_crowd::{Accepted, Carried, Crowd, Given, Passed, Ready, Stream};
use geo_scenes::shown::push_number;
use geo_scenes::texts::{key, word};
use geo_scenes::{Scene, Stop};
use geo_session::OpenGate;
use geo_versions::Key;
use std::alloc::{AllocError, Global};
use std::random::RandomSource;
use std::rt::Clock;
use std::sync::Wait;
use std::sync::atomic::{AtomicU64, Ordering};

/// What a client asks, who sets a key of its own, and its key.
type Ask = (&'static [u8], &'static [u8]);

/// The clients of a pass.
const PASSES: &[&[Ask]] = &[
    &[
        (b"set a 0 0 2\r\nhi\r\n", b"a"),
        (b"set b 0 0 2\r\nyo\r\n", b"b"),
        (b"set c 0 0 1\r\nz\r\n", b"c"),
    ],
    &[
        (
            b"set d_whose_name_is_too_long_to_stand_in_place 0 0 2\r\nhi\r\n",
            b"d_whose_name_is_too_long_to_stand_in_place",
        ),
        (b"set e 0 0 0\r\n\r\n", b"e"),
    ],
];

/// How many clients a pass has at most.
const MOST: usize = 3;

/// What each is owed.
const OWED: &[u8] = b"STORED\r\n";

/// What a client was told: nothing whole or that memory was wanted; what it is owed; another thing.
const NOTHING: u64 = 0;

const ANSWERED: u64 = 1;

const WRONG: u64 = 2;

/// What the clients of a pass were told.
pub type Told = [AtomicU64; 3];

/// Clients who were told nothing.
pub fn untold() -> Told {
    [
        AtomicU64::new(NOTHING),
        AtomicU64::new(NOTHING),
        AtomicU64::new(NOTHING),
    ]
}

/// A connection that gives five bytes a read and takes seven a write.
#[derive(Drop)]
struct Client<'a> {
    asked: &'static [u8],
    came: Vec<u8>,
    told: &'a AtomicU64,
}

impl Client<'_> {
    /// Writes down what the client was told.
    fn judge(&mut self) {
        let came = self.came.as_slice();
        let told = if came == OWED {
            ANSWERED
        } else if OWED.starts_with(came) || REFUSED.starts_with(came) {
            NOTHING
        } else {
            WRONG
        };
        self.told.store(told, Ordering::SeqCst);
    }
}

impl Stream for Client<'_> {
    ghost use Rattle.std.specs.Prelude.{None};

    ghost remaining = { λ _. None };

    ghost contents = { λ _. None };

    fn read(&mut self, buffer: &mut [u8]) -> Given {
        let count = self.asked.len().min(buffer.len()).min(5);
        if count == 0 {
            return Given::End;
        }
        let (piece, rest) = self.asked.split_at(count);
        let (front, _) = buffer.split_at_mut(count);
        front.copy_from_slice(piece);
        self.asked = rest;
        Given::Bytes(count)
    }

    fn write(&mut self, bytes: &[u8]) -> Accepted {
        let count = bytes.len().min(7);
        let (piece, _) = bytes.split_at(count);
        if count == 0 || self.came.extend_from_slice(piece).is_err() {
            return Accepted::Failed;
        }
        self.judge();
        Accepted::Bytes(count)
    }
}

/// A site, the connections to it, and what their clients were told.
#[derive(Drop)]
pub struct Hall<'a> {
    backend: Counting,
    crowd: Option<Crowd<Client<'a>>>,
    told: &'a Told,
    /// The keys of the clients of each pass.
    keys: Vec<Vec<Key>>,
}

/// Has a client connect. Where memory is wanted for it, there is none.
fn connect<'a>(
    alloc: Global,
    crowd: &mut Crowd<Client<'a>>,
    asked: &'static [u8],
    told: &'a AtomicU64,
) -> bool {
    told.store(NOTHING, Ordering::SeqCst);
    let Ok(came) = Vec::with_capacity(alloc, 64) else {
        return false;
    };
    let client = Client { asked, came, told };
    crowd.add(Carried::new(alloc, client)).is_ok()
}

/// How many connections ended, and how many by a fault.
#[derive(Clone, Copy)]
struct Ends {
    ended: usize,
    faults: usize,
}

/// Passes until no connection is left.
fn pass_all<R: Wait + Clock>(
    rt: &R,
    backend: &mut Counting,
    crowd: &mut Crowd<Client<'_>>,
) -> Ends {
    let mut ends = Ends {
        ended: 0,
        faults: 0,
    };
    for _pass in 0..100 {
        let Passed { ended, faults, .. } = crowd.pass(rt, backend, &OpenGate);
        ends.ended = ends.ended.saturating_add(ended);
        ends.faults = ends.faults.saturating_add(faults);
        for number in 0..MOST {
            crowd.is_ready(Ready {
                number,
                readable: true,
                writable: true,
                ending: false,
            });
        }
    }
    let _streams = crowd.take_left();
    ends
}

/// The keys of all clients.
fn all_keys(alloc: Global) -> Result<Vec<Vec<Key>>, Stop> {
    let mut all = Vec::new(alloc);
    for asks in PASSES {
        let mut keys = Vec::new(alloc);
        for ask in *asks {
            keys.push(key(alloc, ask.1)?)?;
        }
        all.push(keys)?;
    }
    Ok(all)
}

impl<'a> Hall<'a> {
    /// A site that knows nothing, and no connections.
    pub fn new<R: RandomSource>(rt: &R, alloc: Global, told: &'a Told) -> Result<Hall<'a>, Stop> {
        Ok(Hall {
            backend: Counting::new(rt, alloc)?,
            crowd: None,
            told,
            keys: all_keys(alloc)?,
        })
    }

    /// Whether the key of a client is held.
    fn is_held(&self, pass: usize, number: usize) -> bool {
        match self.keys.get(pass).and_then(|keys| keys.get(number)) {
            Some(key) => self.backend.bare.site().holds(key),
            None => false,
        }
    }

    /// How many clients of a pass have their keys held.
    fn count_held(&self, pass: usize) -> usize {
        let mut count = 0usize;
        for number in 0..MOST {
            count = count.saturating_add(self.is_held(pass, number) as usize);
        }
        count
    }

    /// Has those connect whose keys are not held, and tells how many did.
    fn connect_all(&mut self, alloc: Global, pass: usize, asks: &[Ask]) -> usize {
        let mut count = 0usize;
        let all_told = self.told;
        for (number, (ask, told)) in asks.iter().zip(all_told.iter()).enumerate() {
            if self.is_held(pass, number) {
                continue;
            }
            if let Some(crowd) = &mut self.crowd {
                let did = connect(alloc, crowd, ask.0, told);
                count = count.saturating_add(did as usize);
            }
        }
        count
    }

    /// Whether those who were told are those whose keys are held now, but for one for each fault.
    fn compare(&self, pass: usize, before: usize, faults: usize) -> Result<(), Stop> {
        let mut answered = 0usize;
        let all_told = self.told;
        for (number, told) in all_told.iter().enumerate() {
            match told.load(Ordering::SeqCst) {
                WRONG => return Err(Stop::Wrong("another answer came")),
                ANSWERED if !self.is_held(pass, number) => {
                    return Err(Stop::Wrong("it was not stored"));
                }
                told => answered = answered.saturating_add((told == ANSWERED) as usize),
            }
        }
        let lost = self
            .count_held(pass)
            .saturating_sub(before.saturating_add(answered));
        if lost > faults {
            return Err(Stop::Wrong("an answer was lost"));
        }
        Ok(())
    }

    /// Carries the clients of a pass to their ends. Those who were not served come again.
    fn carry<R: Wait + Clock>(
        &mut self,
        rt: &R,
        alloc: Global,
        pass: usize,
        out: &mut Vec<u8>,
    ) -> Result<(), Stop> {
        let Some(asks) = PASSES.get(pass).copied() else {
            return Err(Stop::Wrong("no such call"));
        };
        let all_told = self.told;
        for told in all_told.iter() {
            told.store(NOTHING, Ordering::SeqCst);
        }
        let before = self.count_held(pass);
        let connected = self.connect_all(alloc, pass, asks);
        let Some(crowd) = &mut self.crowd else {
            return Err(Stop::Wrong("no connections"));
        };
        let ends = pass_all(rt, &mut self.backend, crowd);
        if ends.ended != connected || !crowd.is_empty() {
            return Err(Stop::Wrong("a connection did not end"));
        }
        self.compare(pass, before, ends.faults)?;
        if self.count_held(pass) < asks.len() {
            return Err(Stop::Part);
        }
        Ok(word(out, b"stored ", asks.len() as u64)?)
    }
}

impl Scene for Hall<'_> {
    fn count(&self) -> usize {
        PASSES.len() + 1
    }

    fn begin(&mut self, _place: usize) -> Result<(), Stop> {
        Ok(())
    }

    fn call<R: Wait + Clock>(
        &mut self,
        rt: &R,
        alloc: Global,
        place: usize,
        out: &mut Vec<u8>,
    ) -> Result<(), Stop> {
        match place.checked_sub(1) {
            None => {
                self.crowd = Some(Crowd::new(alloc)?);
                Ok(out.extend_from_slice(b"open")?)
            }
            Some(pass) => self.carry(rt, alloc, pass, out),
        }
    }

    fn show<R: Wait>(
        &mut self,
        _rt: &R,
        _alloc: Global,
        out: &mut Vec<u8>,
    ) -> Result<(), AllocError> {
        push_number(out, self.backend.bare.site().records() as u64)?;
        push_number(out, self.backend.bare.site().items() as u64)?;
        for pass in 0..PASSES.len() {
            push_number(out, self.count_held(pass) as u64)?;
        }
        Ok(())
    }

    fn glance(&self) -> u64 {
        self.backend.made
    }
}
