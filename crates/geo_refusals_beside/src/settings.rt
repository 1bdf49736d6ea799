//! What is made once at the start of a program: a configuration, and a tally.
ghost use Rattle.std.specs.Prelude.{◌≡◌, All, IfOk};

use geo_config::{Config, ConfigFault, LinkKind, config};
use geo_scenes::shown::push_number;
use geo_scenes::texts::word;
use geo_scenes::{Scene, Stop};
use geo_tally::{Counter, Tally, TallyError, TallySeat};
use std::alloc::{AllocError, Global};
use std::rt::Clock;
use std::sync::Wait;

/// Texts of which the first two are configurations.
const TEXTS: &[&str] = &[
    "sessions = 3\n[[site]]\nnumber = 1\nclient = \"127.0.0.1:4001\"\n",
    "pages = 15\nsessions = 6\nevery = 1\nera = 2000\nlink = \"tcp\"\n\
     [[site]]\nnumber = 2\nclient = \"127.0.0.1:4002\"\nworkers = 1\npeer = \"127.0.0.1:5002\"\n\
     [[site]]\nnumber = 1\nclient = \"127.0.0.1:4001\"\npeer = \"127.0.0.1:5001\"\n",
    "pages = 15\n[[site]]\nnumber = 1\nclient = \"127.0.0.1:4001\"\n",
    "sessions = 3\npagez = 15\n[[site]]\nnumber = 1\nclient = \"127.0.0.1:4001\"\n",
    "sessions = = 3\n",
];

/// All that a configuration tells.
fn push_config(config: &Config, out: &mut Vec<u8>) -> Result<(), AllocError> {
    let numbers = [
        config.pages as u64,
        config.max_records as u64,
        config.reap_after as u64,
        (config.link == LinkKind::Tcp) as u64,
        config.every,
        config.era,
        config.era_bytes,
        config.sessions,
    ];
    for number in numbers {
        push_number(out, number)?;
    }
    for site in &config.sites {
        push_number(out, site.number as u64)?;
        push_number(out, site.workers as u64)?;
        out.extend_from_slice(site.client.as_bytes())?;
        if let Some(peer) = &site.peer {
            out.extend_from_slice(peer.as_bytes())?;
        }
    }
    Ok(())
}

fn tell(config: &Config, out: &mut Vec<u8>) -> Result<(), AllocError> {
    word(out, b"pages ", config.pages as u64)?;
    word(out, b", sessions ", config.sessions)?;
    for site in &config.sites {
        word(out, b", site ", site.number as u64)?;
        word(out, b" of ", site.workers as u64)?;
    }
    Ok(())
}

/// Tells why a text is no configuration, unless memory was wanted.
fn tell_fault(fault: &ConfigFault, out: &mut Vec<u8>) -> Result<(), Stop> {
    match fault {
        ConfigFault::Memory => Err(Stop::Memory),
        ConfigFault::NotToml => Ok(out.extend_from_slice(b"not toml")?),
        ConfigFault::Missing(name) => {
            out.extend_from_slice(b"missing ")?;
            Ok(out.extend_from_slice(name.as_bytes())?)
        }
        ConfigFault::Unknown(name) => {
            out.extend_from_slice(b"unknown ")?;
            Ok(out.extend_from_slice(name.as_bytes())?)
        }
        _ => Err(Stop::Wrong("another fault")),
    }
}

/// A tally of two seats.
fn opened(alloc: Global) -> Result<(Tally, Vec<TallySeat>), Stop>
    ensures { IfOk result (λ made. All (λ s. s.tally ≡ made.0.tally) made.1.items) }
{
    match Tally::new(alloc, 2) {
        Ok(made) => Ok(made),
        Err(TallyError::Memory) => Err(Stop::Memory),
        Err(TallyError::Seats) => Err(Stop::Wrong("no such tally")),
    }
}

/// Counts one.
fn add(tally: &Tally, seat: &mut TallySeat, counter: Counter) -> Result<(), Stop>
    requires { seat.old.tally ≡ tally.now.tally }
    ensures { seat.new.tally ≡ seat.old.tally }
{
    match tally.add(seat, counter) {
        Ok(()) => Ok(()),
        Err(_) => Err(Stop::Wrong("a spent seat")),
    }
}

/// How much was counted.
fn read(tally: &Tally, seat: &mut TallySeat, counter: Counter) -> u64
    requires { seat.old.tally ≡ tally.now.tally }
    ensures { seat.new.tally ≡ seat.old.tally }
{
    tally.read(seat, counter)
}

/// What a tally counts of which one seat has counted two requests and a session.
fn sums(alloc: Global) -> Result<[u64; 3], Stop> {
    let (tally, mut seats) = opened(alloc)?;
    let Some(mut seat) = seats.pop() else {
        return Err(Stop::Wrong("no seat"));
    };
    add(&tally, &mut seat, Counter::Requests)?;
    add(&tally, &mut seat, Counter::Sessions)?;
    add(&tally, &mut seat, Counter::Requests)?;
    let sessions = read(&tally, &mut seat, Counter::Sessions);
    let requests = read(&tally, &mut seat, Counter::Requests);
    let faults = read(&tally, &mut seat, Counter::Faults);
    Ok([sessions, requests, faults])
}

/// The texts, and what was read last.
#[derive(Drop)]
pub struct Settings {
    read: Option<Config>,
}

impl Settings {
    /// Nothing was read yet.
    pub fn new() -> Settings {
        Settings { read: None }
    }

    fn read(&mut self, alloc: Global, text: &str, out: &mut Vec<u8>) -> Result<(), Stop> {
        match config(alloc, text) {
            Ok(config) => {
                tell(&config, out)?;
                self.read = Some(config);
                Ok(())
            }
            Err(fault) => tell_fault(&fault, out),
        }
    }
}

/// Makes a tally, and tells its sums.
fn count(alloc: Global, out: &mut Vec<u8>) -> Result<(), Stop> {
    out.extend_from_slice(b"sums")?;
    for sum in sums(alloc)? {
        word(out, b" ", sum)?;
    }
    Ok(())
}

impl Scene for Settings {
    fn count(&self) -> usize {
        TEXTS.len() + 1
    }

    fn begin(&mut self, _place: usize) -> Result<(), Stop> {
        Ok(())
    }

    fn call<R: Wait + Clock>(
        &mut self,
        _rt: &R,
        alloc: Global,
        place: usize,
        out: &mut Vec<u8>,
    ) -> Result<(), Stop> {
        match TEXTS.get(place) {
            Some(text) => self.read(alloc, text, out),
            None => count(alloc, out),
        }
    }

    fn show<R: Wait>(
        &mut self,
        _rt: &R,
        _alloc: Global,
        out: &mut Vec<u8>,
    ) -> Result<(), AllocError> {
        match &self.read {
            Some(config) => push_config(config, out),
            None => Ok(()),
        }
    }

    fn glance(&self) -> u64 {
        match &self.read {
            Some(config) => config.sessions,
            None => 0,
        }
    }
}
