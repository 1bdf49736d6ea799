//! Seeded schedules of five sites that retire one another, most often the last two, and drop deletes: the run is what the plain program
//! says. A site that was retired goes on.
use super::dice::{Dice, EVENTS};
use super::drawn::{add_stats, command, evict, fill, reap};
use super::seeded::{Worth, add_schedule, names};
use super::{Plan, key};
use geo_lattice::Lattice;
use geo_requests::Request;
use geo_stamp::Retired;
use geo_versions::Key;
use geo_world::Event;
use std::alloc::Global;
use std::hash::RandomState;
use std::test::Fail;

const SCHEDULES: u64 = 2000;

const SITES: u8 = 5;

/// Room for all keys: sites that drop deletes have no full maps.
const PLAN: Plan = Plan {
    sites: SITES,
    records: 3,
    reap_after: 5,
};

/// A parcel that was made: from whom, for whom, and whom its sender held for retired.
#[derive(Clone, Copy)]
struct Made {
    from: u8,
    to: u8,
    retired: Retired,
}

/// The events that were drawn, whom each site then holds for retired, and the parcels that were made.
#[derive(Drop)]
struct Drawing {
    events: Vec<Event>,
    retired: Vec<Retired>,
    made: Vec<Made>,
}

impl Drawing {
    fn new(alloc: Global) -> Result<Drawing, Fail> {
        let mut retired = Vec::new(alloc);
        for _ in 0..SITES {
            retired.push(Retired::none())?;
        }
        Ok(Drawing {
            events: Vec::new(alloc),
            retired,
            made: Vec::new(alloc),
        })
    }

    /// Whom a site holds for retired.
    fn held(&self, site: u8) -> Result<Retired, Fail> {
        Ok(
            *self
                .retired
                .get((site as usize).wrapping_sub(1))
                .ok_or("no site")?,
        )
    }

    fn hold(&mut self, site: u8, retired: Retired) -> Result<(), Fail> {
        let held = self
            .retired
            .get_mut((site as usize).wrapping_sub(1))
            .ok_or("no site")?;
        held.join(retired);
        Ok(())
    }

    /// A send, which makes a parcel for another site that isn't held for retired.
    fn send(&mut self, site: u8, to: u8) -> Result<(), Fail> {
        let retired = self.held(site)?;
        if to != site && !retired.has(to) {
            self.made.push(Made {
                from: site,
                to,
                retired,
            })?;
        }
        self.events.push(Event::Send { site, to })?;
        Ok(())
    }

    /// A take of a parcel, if there is one, at a site, or at its addressee.
    fn take(&mut self, site: Option<u8>, parcel: usize) -> Result<(), Fail> {
        let Some(made) = self.made.get(parcel).copied() else {
            return Ok(());
        };
        let site = site.unwrap_or(made.to);
        if made.to == site && !self.held(site)?.has(made.from) {
            self.hold(site, made.retired)?;
        }
        self.events.push(Event::Take { site, parcel })?;
        Ok(())
    }

    fn retire(&mut self, site: u8, other: u8) -> Result<(), Fail> {
        let mut retired = Retired::none();
        if other != site && other >= 1 && other <= 16 {
            retired.add(other);
        }
        self.hold(site, retired)?;
        self.events.push(Event::Retire { site, other })?;
        Ok(())
    }

    /// A send to each site, and mostly at once a take of what was sent.
    fn tell_all(&mut self, dice: &mut Dice, site: u8) -> Result<(), Fail> {
        for to in 1..=SITES {
            let before = self.made.len();
            self.send(site, to)?;
            if self.made.len() > before && dice.below(6) > 0 {
                self.take(None, before)?;
            }
        }
        Ok(())
    }

    /// A send to one site, and mostly at once a take of what was sent.
    fn tell_one(&mut self, dice: &mut Dice, site: u8) -> Result<(), Fail> {
        let before = self.made.len();
        self.send(site, dice.site(SITES))?;
        if self.made.len() > before && dice.below(6) > 0 {
            self.take(None, before)?;
        }
        Ok(())
    }

    /// A parcel that was made before, mostly at its addressee.
    fn take_some(&mut self, dice: &mut Dice, site: u8) -> Result<(), Fail> {
        let sent = (self.made.len() as u64).max(1);
        let parcel = dice.below(sent) as usize;
        let site = if dice.below(6) == 0 { Some(site) } else { None };
        self.take(site, parcel)
    }

    /// Mostly of one of the last two sites.
    fn retire_some(&mut self, dice: &mut Dice, site: u8) -> Result<(), Fail> {
        let other = if dice.below(4) == 0 {
            dice.site(SITES)
        } else {
            4 + dice.below(2) as u8
        };
        self.retire(site, other)
    }

    /// The first three sites tell all they know, twice, and then drop what they may.
    fn settle(&mut self, dice: &mut Dice) -> Result<(), Fail> {
        for _ in 0..2 {
            for site in 1..=3u8 {
                self.tell_all(dice, site)?;
            }
        }
        for site in 1..=3u8 {
            self.events.push(Event::Remove { site })?;
        }
        Ok(())
    }

    fn event(&mut self, alloc: Global, dice: &mut Dice, index: usize) -> Result<(), Fail> {
        let site = actor(dice);
        match dice.below(30) {
            0 | 1 | 2 | 3 => self.events.push(command(alloc, dice, site, index)?)?,
            4 | 5 => self.events.push(delete(alloc, dice, site, index)?)?,
            6 => self.events.push(evict(alloc, dice, site)?)?,
            7 => {
                let fill = fill(alloc, dice, site, self.events.as_slice())?;
                self.events.push(fill)?;
            }
            8 => self.events.push(reap(alloc, dice, site, index)?)?,
            9 | 10 => self.take_some(dice, site)?,
            11 | 12 => self.retire_some(dice, site)?,
            13 | 14 | 15 => self.events.push(Event::Remove { site })?,
            16 | 17 | 18 | 19 | 20 | 21 => self.tell_all(dice, site)?,
            _ => self.tell_one(dice, site)?,
        }
        Ok(())
    }
}

/// Mostly one of the first three sites, which go on longest.
fn actor(dice: &mut Dice) -> u8 {
    if dice.below(5) == 0 {
        dice.site(SITES)
    } else {
        1 + dice.below(3) as u8
    }
}

fn delete(alloc: Global, dice: &mut Dice, site: u8, index: usize) -> Result<Event, Fail> {
    let now = dice.now(index);
    let key = key(alloc, dice.name())?;
    let noreply = false;
    let request = Request::Delete { key, noreply };
    Ok(Event::Command { site, now, request })
}

/// Draws the schedule of a seed, runs it, and adds what it was worth.
fn add_seed(
    alloc: Global,
    hasher: &RandomState,
    seed: u64,
    names: &[Key],
    worth: &mut Worth,
) -> Result<(), Fail> {
    let mut dice = Dice { state: seed };
    let mut drawing = Drawing::new(alloc)?;
    for index in 0..EVENTS {
        // In most schedules the last two sites are retired early on, each by one other at first.
        if (index == 4 || index == 6) && dice.below(5) > 0 {
            let last = if index == 4 { SITES } else { SITES - 1 };
            drawing.retire(1 + dice.below(3) as u8, last)?;
        }
        drawing.event(alloc, &mut dice, index)?;
    }
    drawing.settle(&mut dice)?;
    add_stats(&mut drawing.events, &mut dice, SITES)?;
    let events = drawing.events.as_slice();
    // The plain program follows step by step alone: what it does at once other schedules show.
    add_schedule(alloc, hasher, &PLAN, true, true, names, events, worth)
}

/// What the schedules of all seeds were worth.
fn worth_of(alloc: Global, hasher: &RandomState) -> Result<Worth, Fail> {
    let names = names(alloc)?;
    let mut worth = Worth::none();
    for seed in 0..SCHEDULES {
        add_seed(alloc, hasher, seed, &names, &mut worth)?;
    }
    Ok(worth)
}

/// What came too seldom for schedules to be worth running.
fn lacking(worth: &Worth) -> &'static str {
    if worth.taken <= SCHEDULES {
        "taken"
    } else if worth.named <= SCHEDULES {
        "named"
    } else if worth.retired <= SCHEDULES {
        "retired"
    } else if worth.unsent <= SCHEDULES {
        "unsent"
    } else if worth.untaken <= SCHEDULES / 10 {
        "untaken"
    } else if worth.removed <= SCHEDULES / 20 {
        "removed"
    } else {
        "nothing"
    }
}

#[test]
fn schedules_with_retirements_are_what_the_plain_program_says(rt: HostRuntime) -> Result<(), Fail> {
    let hasher = RandomState::new(&rt)?;
    let worth = worth_of(rt.alloc(), &hasher)?;
    assert_eq!(rt; lacking(&worth), "nothing");
    Ok(())
}
