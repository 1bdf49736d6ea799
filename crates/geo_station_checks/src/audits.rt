//! What an audit finds of histories, which sites made and hands altered.
ghost use Rattle.std.specs.Prelude.{◌≡◌, ◌≤◌, ◌^◌, true};
ghost use Rattle.geo_audit.specs.Verdicts.{AreInOrder};

use geo_audit::{Verdict, audit};
use geo_chunks::Chunks;
use geo_delta::Parcel;
use geo_fixtures::opened;
use geo_history::{History, Kept, Step};
use geo_lattice::{Items, Twin};
use geo_requests::{Reply, Request, ValueBytes, Verb};
use geo_site::{Answer, BoxedParcel, Event, Filled};
use geo_versions::{Digest, Key};
use std::alloc::Global;
use std::process::Abort;
use std::random::RandomSource;

/// A verdict without its schedule.
#[derive(Clone, Copy, Debug, PartialEq, Eq)]
pub enum Told {
    /// How many events the schedule has.
    Sound(usize),
    /// How many steps of the first and of the second history were taken.
    Stuck(usize, usize),
    Wrong(u8, usize),
    LaterEra(u8),
}

fn act(alloc: Global, kept: &mut Kept, request: Request) -> Option<()> {
    if kept.left(0) < 8 {
        return None;
    }
    kept.act_for(alloc, 0, 100, request).ok()?;
    Some(())
}

fn key(alloc: Global) -> Option<Key> {
    Key::new(alloc, b"n").ok()?
}

fn set(alloc: Global, kept: &mut Kept, bytes: &[u8]) -> Option<()> {
    let key = key(alloc)?;
    set_key(alloc, kept, key, bytes)
}

fn set_key(alloc: Global, kept: &mut Kept, key: Key, bytes: &[u8]) -> Option<()> {
    let request = Request::Store {
        verb: Verb::Set,
        key,
        flags: 0,
        exptime: 0,
        unique: None,
        bytes: ValueBytes::of(Vec::from_slice(alloc, bytes).ok()?),
        noreply: false,
    };
    act(alloc, kept, request)
}

fn get(alloc: Global, kept: &mut Kept) -> Option<()> {
    let mut keys = Vec::new(alloc);
    keys.push(key(alloc)?).ok()?;
    let request = Request::Fetch {
        keys: Items::of(keys),
        numbers: false,
    };
    act(alloc, kept, request)
}

fn count_up(alloc: Global, kept: &mut Kept, by: u64) -> Option<()> {
    let request = Request::Arith {
        up: true,
        key: key(alloc)?,
        by,
        noreply: false,
    };
    act(alloc, kept, request)
}

fn send(alloc: Global, kept: &mut Kept, to: u8) -> Option<Parcel> {
    if kept.left(0) < 8 {
        return None;
    }
    let (parcel, _copy) = kept.send_for(alloc, 0, to).ok()?;
    Some(parcel)
}

fn take(alloc: Global, kept: &mut Kept, parcel: Parcel) -> Option<()> {
    if kept.left(0) < 8 {
        return None;
    }
    kept.take_for(alloc, 0, parcel).ok()?;
    Some(())
}

/// Both send before either takes, and then both get.
fn exchange(alloc: Global, one: &mut Kept, two: &mut Kept) -> Option<()> {
    let forth = send(alloc, one, 2)?;
    let back = send(alloc, two, 1)?;
    take(alloc, two, forth)?;
    take(alloc, one, back)?;
    get(alloc, one)?;
    get(alloc, two)
}

/// Both set one key and tell each other.
fn tie(alloc: Global, one: &mut Kept, two: &mut Kept) -> Option<()> {
    set(alloc, one, b"hi")?;
    set(alloc, two, b"yo")?;
    exchange(alloc, one, two)
}

/// Both count up from 5, which the first set and told, and tell each other.
fn count(alloc: Global, one: &mut Kept, two: &mut Kept) -> Option<()> {
    set(alloc, one, b"5")?;
    let parcel = send(alloc, one, 2)?;
    take(alloc, two, parcel)?;
    set(alloc, two, b"5")?;
    count_up(alloc, one, 1)?;
    count_up(alloc, two, 2)?;
    exchange(alloc, one, two)
}

/// Whether they are those of the sites from 1 on, in order.
fn are_in_order(histories: &[History]) -> bool
    ensures { result ≡ true → AreInOrder histories.now }
{
    for at in 0..histories.len() {
        if histories[at].setup.site as usize != at + 1 {
            return false;
        }
    }
    true
}

fn told_of(verdict: &Verdict) -> Option<Told> {
    match verdict {
        Verdict::Sound(schedule) => Some(Told::Sound(schedule.len())),
        Verdict::Stuck(counts) => match counts.as_slice() {
            [one, two] => Some(Told::Stuck(*one, *two)),
            _ => None,
        },
        Verdict::Wrong { site, step } => Some(Told::Wrong(*site, *step)),
        Verdict::LaterEra { site } => Some(Told::LaterEra(*site)),
    }
}

fn audited(alloc: Global, histories: &[History]) -> Option<Told> {
    if !are_in_order(histories) {
        return None;
    }
    told_of(&audit(alloc, histories).ok()?)
}

fn copied_event(alloc: Global, event: &Event) -> Option<Event> {
    match event {
        Event::Command { now, request } => Some(Event::Command {
            now: *now,
            request: request.twin(alloc).ok()?,
        }),
        Event::Send { to } => Some(Event::Send { to: *to }),
        Event::Take { parcel } => Some(Event::Take {
            parcel: BoxedParcel::copy_of(alloc, parcel.parcel()).ok()?,
        }),
        Event::Retire { other } => Some(Event::Retire { other: *other }),
        Event::Fill { key, bytes } => Some(Event::Fill {
            key: key.twin(alloc).ok()?,
            bytes: bytes.twin(alloc).ok()?,
        }),
        _ => None,
    }
}

fn copied_answer(alloc: Global, answer: &Answer) -> Option<Answer> {
    match answer {
        Answer::Replied(reply) => Some(Answer::Replied(reply.twin(alloc).ok()?)),
        Answer::Sent(parcel) => Some(Answer::Sent(BoxedParcel::copy_of(
            alloc,
            parcel.parcel(),
        ).ok()?)),
        Answer::Taken(taken) => Some(Answer::Taken(*taken)),
        Answer::Filled(filled) => Some(Answer::Filled(*filled)),
        Answer::Retired(is_new) => Some(Answer::Retired(*is_new)),
        _ => None,
    }
}

/// A step with another number.
fn renumbered(alloc: Global, step: &Step, number: u64) -> Option<Step> {
    Some(Step {
        seat: step.seat,
        number,
        event: copied_event(alloc, &step.event)?,
        answer: copied_answer(alloc, &step.answer)?,
        victim: None,
        made: step.made,
    })
}

fn push(steps: &mut Chunks<Step>, step: Step) -> Option<()> {
    steps.ready(1).ok()?;
    steps.push(step);
    Some(())
}

/// The steps but for the one at a place, numbered anew.
fn without(alloc: Global, steps: &Chunks<Step>, place: usize) -> Option<Chunks<Step>> {
    let mut all = Chunks::new(alloc).ok()?;
    let mut number = 1u64;
    for at in 0..steps.len() {
        if at != place {
            let step = renumbered(alloc, steps.get(at)?, number)?;
            push(&mut all, step)?;
            number = number.saturating_add(1);
        }
    }
    Some(all)
}

/// The step at a place with another answer.
fn answering(
    alloc: Global,
    step: &Step,
    answer: Answer,
    made: Option<(Digest, u32)>,
) -> Option<Step> {
    Some(Step {
        seat: step.seat,
        number: step.number,
        event: copied_event(alloc, &step.event)?,
        answer,
        victim: None,
        made,
    })
}

/// The steps with another answer at a place, and, where it is told, another digest of what was made.
fn altered(
    alloc: Global,
    steps: &Chunks<Step>,
    place: usize,
    answer: &Answer,
    made: Option<(Digest, u32)>,
) -> Option<Chunks<Step>> {
    let mut all = Chunks::new(alloc).ok()?;
    for at in 0..steps.len() {
        let old = steps.get(at)?;
        let step = if at == place {
            answering(alloc, old, copied_answer(alloc, answer)?, made)?
        } else {
            renumbered(alloc, old, old.number)?
        };
        push(&mut all, step)?;
    }
    Some(all)
}

/// Two sites that know nothing.
fn sites(rt: &(impl Abort + RandomSource), alloc: Global) -> (Kept, Kept) {
    let one = opened(rt, alloc, 1, 2).expect(rt, "a site");
    let two = opened(rt, alloc, 2, 2).expect(rt, "a site");
    (one, two)
}

/// The histories of two sites.
fn both(rt: &impl Abort, alloc: Global, one: Kept, two: Kept) -> Vec<History> {
    let mut all = Vec::new(alloc);
    all.push(one.history()).expect(rt, "memory");
    all.push(two.history()).expect(rt, "memory");
    all
}

/// The histories of a key that both set.
fn tied(rt: &(impl Abort + RandomSource), alloc: Global) -> Vec<History> {
    let (mut one, mut two) = sites(rt, alloc);
    tie(alloc, &mut one, &mut two).expect(rt, "both are told");
    both(rt, alloc, one, two)
}

/// The histories of a number that both counted up.
fn counted(rt: &(impl Abort + RandomSource), alloc: Global) -> Vec<History> {
    let (mut one, mut two) = sites(rt, alloc);
    count(alloc, &mut one, &mut two).expect(rt, "both are told");
    both(rt, alloc, one, two)
}

/// Stops a test where an audit finds another thing.
pub fn check(rt: &impl Abort, alloc: Global, histories: &[History], want: Told) {
    let found = audited(alloc, histories);
    let is_wanted = found == Some(want);
    assert!(rt; is_wanted, "{found:?} and not {want:?}");
}

#[test]
fn what_sites_did_is_sound(rt: HostRuntime) {
    let alloc = rt.alloc();
    check(&rt, alloc, tied(&rt, alloc).as_slice(), Told::Sound(8));
    check(&rt, alloc, counted(&rt, alloc).as_slice(), Told::Sound(12));
}

/// Puts another answer into the history of a site.
fn alter(
    alloc: Global,
    history: &mut History,
    place: usize,
    answer: &Answer,
    made: Option<(Digest, u32)>,
) -> Option<()> {
    let steps = altered(alloc, &history.steps, place, answer, made)?;
    history.steps = steps;
    Some(())
}

/// Puts `STORED` in the place of a get's values.
fn answer_stored(alloc: Global, histories: &mut [History]) -> Option<()> {
    let second = histories.get_mut(1)?;
    alter(alloc, second, 3, &Answer::Replied(Reply::Stored), None)
}

#[test]
fn another_reply_is_wrong(rt: HostRuntime) {
    let alloc = rt.alloc();
    let mut histories = tied(&rt, alloc);
    answer_stored(alloc, histories.as_mut_slice()).expect(&rt, "a fourth step");
    check(&rt, alloc, histories.as_slice(), Told::Wrong(2, 4));
}

/// Puts 9 in the place of the number that was counted up to.
fn answer_nine(alloc: Global, histories: &mut [History]) -> Option<()> {
    let first = histories.get_mut(0)?;
    let made = Some((Digest::of(b"9"), 1));
    alter(alloc, first, 2, &Answer::Replied(Reply::Number(9)), made)
}

#[test]
fn another_number_is_wrong(rt: HostRuntime) {
    let alloc = rt.alloc();
    let mut histories = counted(&rt, alloc);
    answer_nine(alloc, histories.as_mut_slice()).expect(&rt, "a third step");
    check(&rt, alloc, histories.as_slice(), Told::Wrong(1, 3));
}

fn offer(alloc: Global, kept: &mut Kept, bytes: &[u8]) -> Option<()> {
    if kept.left(0) < 8 {
        return None;
    }
    let bytes = ValueBytes::of(Vec::from_slice(alloc, bytes).ok()?);
    kept.fill_for(alloc, 0, &key(alloc)?, bytes).ok()?;
    Some(())
}

/// Both set one key and tell each other, and the first is offered what it doesn't name, and then what it names.
fn fill(alloc: Global, one: &mut Kept, two: &mut Kept) -> Option<()> {
    tie(alloc, one, two)?;
    offer(alloc, one, b"no")?;
    offer(alloc, one, b"yo")?;
    get(alloc, one)
}

/// Puts another answer in the place of what came of the bytes that are named, or else of the others.
fn answer_filled(
    alloc: Global,
    histories: &mut [History],
    named: bool,
    filled: Filled,
) -> Option<()> {
    let first = histories.get_mut(0)?;
    let place = if named { 5 } else { 4 };
    alter(alloc, first, place, &Answer::Filled(filled), None)
}

/// The histories of a site that was filled and of the one that wrote the bytes.
fn filled(rt: &(impl Abort + RandomSource), alloc: Global) -> Vec<History> {
    let (mut one, mut two) = sites(rt, alloc);
    fill(alloc, &mut one, &mut two).expect(rt, "it is filled");
    both(rt, alloc, one, two)
}

#[test]
fn a_fill_is_sound_as_it_came(rt: HostRuntime) {
    let alloc = rt.alloc();
    check(&rt, alloc, filled(&rt, alloc).as_slice(), Told::Sound(11));
    let wrong = [
        (false, Filled::Held, 5),
        (false, Filled::Full, 5),
        (false, Filled::Done, 5),
        (true, Filled::NotNamed, 6),
        (true, Filled::Held, 6),
        (true, Filled::Full, 6),
    ];
    for (named, answer, step) in wrong {
        let mut histories = filled(&rt, alloc);
        let all = histories.as_mut_slice();
        answer_filled(alloc, all, named, answer).expect(&rt, "a fill");
        check(&rt, alloc, histories.as_slice(), Told::Wrong(1, step));
    }
}

fn other_key(alloc: Global) -> Option<Key> {
    Key::new(alloc, b"m").ok()?
}

/// Sets two keys.
fn set_two(alloc: Global, kept: &mut Kept, bytes: &[u8]) -> Option<()> {
    set_key(alloc, kept, other_key(alloc)?, b"hi")?;
    set(alloc, kept, bytes)
}

/// A step that is said to have evicted the other key.
fn evicting(alloc: Global, step: &Step) -> Option<Step> {
    let victim = other_key(alloc)?;
    let mut last = renumbered(alloc, step, step.number)?;
    last.victim = Some(victim);
    Some(last)
}

/// Two steps, of which the second is said to have evicted the other key.
fn evicting_last(alloc: Global, steps: &Chunks<Step>) -> Option<Chunks<Step>> {
    let mut all = Chunks::new(alloc).ok()?;
    push(&mut all, renumbered(alloc, steps.get(0)?, 1)?)?;
    push(&mut all, evicting(alloc, steps.get(1)?)?)?;
    Some(all)
}

/// Says of the first site's second step that it evicted the other key.
fn evict_last(alloc: Global, histories: &mut [History]) -> Option<()> {
    let first = histories.get_mut(0)?;
    let steps = evicting_last(alloc, &first.steps)?;
    first.steps = steps;
    Some(())
}

/// The histories of two keys that the first site set, of which the second is said to have evicted the first.
fn evicted(rt: &(impl Abort + RandomSource), alloc: Global, bytes: &[u8]) -> Vec<History> {
    let (mut one, two) = sites(rt, alloc);
    set_two(alloc, &mut one, bytes).expect(rt, "both are set");
    let mut all = both(rt, alloc, one, two);
    evict_last(alloc, all.as_mut_slice()).expect(rt, "two steps");
    all
}

#[test]
fn a_victim_of_another_class_is_wrong(rt: HostRuntime) {
    let alloc = rt.alloc();
    let alike = evicted(&rt, alloc, b"yo");
    check(&rt, alloc, alike.as_slice(), Told::Sound(3));
    let unlike = evicted(&rt, alloc, &[b'y'; 65]);
    check(&rt, alloc, unlike.as_slice(), Told::Wrong(1, 2));
}

/// Leaves out the second step of the first site, which is its send.
fn leave_out_send(alloc: Global, histories: &mut [History]) -> Option<()> {
    let first = histories.get_mut(0)?;
    let steps = without(alloc, &first.steps, 1)?;
    first.steps = steps;
    Some(())
}

#[test]
fn a_take_waits_for_its_send(rt: HostRuntime) {
    let alloc = rt.alloc();
    let mut histories = tied(&rt, alloc);
    leave_out_send(alloc, histories.as_mut_slice()).expect(&rt, "two steps");
    check(&rt, alloc, histories.as_slice(), Told::Stuck(3, 2));
}

#[test]
fn a_later_era_is_told(rt: HostRuntime) {
    let alloc = rt.alloc();
    let mut histories = tied(&rt, alloc);
    let second = histories.get_mut(1).expect(&rt, "two histories");
    second.opening.era = 1;
    check(&rt, alloc, histories.as_slice(), Told::LaterEra(2));
}
