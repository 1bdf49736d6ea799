//! What no clause says: that the calls succeed where there is memory, and what they answer and keep, worked out by hand.
use crate::calls::{Call, answer_all, send, take};
use crate::shown::show_steps;
use geo_fixtures::{opened, setup_of};
use geo_history::{History, Kept};
use geo_site::{Setup, SetupError};
use geo_versions::{Digest, Key};
use std::alloc::Global;
use std::test::Fail;

/// How many sites there are, calls at the first, and what they answer, behind which stand its steps.
type Row = (u8, &'static [Call], &'static [u8]);

const ROWS: &[Row] = &[
    // A tick and an eviction are steps.
    (
        1,
        &[
            Call::Act(b"flush_all 10\r\n"),
            Call::Tick,
            Call::Act(b"set a 0 0 2\r\nhi\r\n"),
            Call::Evict(b"a"),
        ],
        b"OK\r\n\ntrue\nSTORED\r\n\ntrue\n\
          seat 0 step 1: act at 100; OK\r\n\n\
          seat 0 step 2: tick at 110; ticked true\n\
          seat 0 step 3: act at 100; STORED\r\n\n\
          seat 0 step 4: evict; evicted true\n",
    ),
    // What is refused is a step too.
    (
        2,
        &[Call::Send(2), Call::Send(1), Call::SendBack(2)],
        b"\nNoSuchSite\nNotForMe\n\
          seat 0 step 1: send to 2; sent to 2\n\
          seat 0 step 2: send to 1; NoSuchSite\n\
          seat 0 step 3: send to 2; sent to 2\n\
          seat 0 step 4: take from 1; NotForMe\n",
    ),
    // Each seat has numbers of its own. A write that ends at 150 is reaped sixty seconds behind its end, and what is left is dropped.
    (
        1,
        &[
            Call::By(7, b"set a 0 50 2\r\nhi\r\n"),
            Call::Reap(10, b"a"),
            Call::Reap(11, b"a"),
            Call::RemoveBy(7),
        ],
        b"STORED\r\n\nfalse\ntrue\n1\n\
          seat 7 step 1: act at 100; STORED\r\n\n\
          seat 9 step 1: reap at 210; reaped false\n\
          seat 9 step 2: reap at 211; reaped true\n\
          seat 7 step 2: remove; removed 1\n",
    ),
    // A due flush is a step of its own, before the request; and a step tells what was made of older bytes.
    (
        1,
        &[
            Call::Act(b"set a 0 0 2\r\nhi\r\n"),
            Call::Act(b"append a 0 0 1\r\n!\r\n"),
            Call::Act(b"flush_all 10\r\n"),
            Call::Late(b"get a\r\n"),
        ],
        b"STORED\r\n\nSTORED\r\n\nOK\r\n\nEND\r\n\n\
          seat 0 step 1: act at 100; STORED\r\n\n\
          seat 0 step 2: act at 100; makes 3; STORED\r\n\n\
          seat 0 step 3: act at 100; OK\r\n\n\
          seat 0 step 4: tick at 110; ticked true\n\
          seat 0 step 5: act at 110; END\r\n\n",
    ),
    // A step names the victim, and a juggle is none: of two values of a mebibyte there is room for one.
    (
        1,
        &[Call::StoreLarge(b"a"), Call::Juggle, Call::StoreLarge(b"b")],
        b"STORED\r\n\ntrue\nSTORED\r\n\n\
          seat 0 step 1: act at 100; STORED\r\n\n\
          seat 0 step 2: act at 100; evicts a; STORED\r\n\n",
    ),
];

/// What calls at the first of so many sites answer, and its steps behind.
fn answered(rt: &HostRuntime, sites: u8, calls: &[Call]) -> Result<Vec<u8>, Fail> {
    let mut out = Vec::new(rt.alloc());
    let mut kept = opened(rt, rt.alloc(), 1, sites).ok_or("no site")?;
    answer_all(rt.alloc(), &mut kept, calls, &mut out)?;
    show_steps(&mut out, kept.steps())?;
    Ok(out)
}

#[test]
fn each_call_is_the_step_that_is_kept(rt: HostRuntime) -> Result<(), Fail> {
    for (sites, calls, text) in ROWS {
        assert_eq!(rt; answered(&rt, *sites, calls)?.as_slice(), *text);
    }
    Ok(())
}

const SET_HI: &[Call] = &[Call::Act(b"set a 0 0 2\r\nhi\r\n")];

const SET_YO: &[Call] = &[Call::Act(b"set a 0 0 2\r\nyo\r\n")];

/// What one site tells another, which takes it.
fn tell(
    alloc: Global,
    from: &mut Kept,
    to: &mut Kept,
    site: u8,
    out: &mut Vec<u8>,
) -> Result<(), Fail> {
    let parcel = send(alloc, from, site, out)?.ok_or("no parcel")?;
    take(alloc, to, parcel, out)?;
    Ok(out.extend_from_slice(b"\n")?)
}

/// The cas number of the version of `a`, and whether its bytes are held.
fn show_a(alloc: Global, kept: &Kept, out: &mut Vec<u8>) -> Result<(), Fail> {
    let name = Key::new(alloc, b"a")?.ok_or("no key")?;
    let number = kept
        .site()
        .version_of(&name)
        .map(|version| version.stamp.cas());
    let held = kept.site().holds(&name);
    Ok(out.extend_from_slice(format!(in alloc; "{number:?} {held}\n")?.as_bytes())?)
}

/// Two sites that set one key tell each other: the second what it knew once it had heard the first.
fn tie(alloc: Global, one: &mut Kept, two: &mut Kept, out: &mut Vec<u8>) -> Result<(), Fail> {
    answer_all(alloc, one, SET_HI, out)?;
    answer_all(alloc, two, SET_YO, out)?;
    tell(alloc, one, two, 2, out)?;
    tell(alloc, two, one, 1, out)?;
    show_a(alloc, one, out)?;
    show_a(alloc, two, out)?;
    show_steps(out, one.steps()).map_err(|refused| refused.into())
}

/// The same with a second site that is opened for it.
fn tie_anew(rt: &HostRuntime, one: &mut Kept, out: &mut Vec<u8>) -> Result<(), Fail> {
    let mut two = opened(rt, rt.alloc(), 2, 2).ok_or("no site")?;
    tie(rt.alloc(), one, &mut two, out)
}

fn tied(rt: &HostRuntime, out: &mut Vec<u8>) -> Result<(), Fail> {
    let mut one = opened(rt, rt.alloc(), 1, 2).ok_or("no site")?;
    tie_anew(rt, &mut one, out)
}

#[test]
fn two_sites_keep_what_they_told_each_other(rt: HostRuntime) -> Result<(), Fail> {
    let text = b"STORED\r\n\nSTORED\r\n\n\
          Taken { rose: true, dropped: 0 }\n\
          Taken { rose: true, dropped: 1 }\n\
          Some(258) false\nSome(258) true\n\
          seat 0 step 1: act at 100; STORED\r\n\n\
          seat 0 step 2: send to 2; sent to 2\n\
          seat 0 step 3: take from 2; Taken { rose: true, dropped: 1 }\n";
    let mut out = Vec::new(rt.alloc());
    tied(&rt, &mut out)?;
    assert_eq!(rt; out.as_slice(), text.as_slice());
    Ok(())
}

/// Where a history begins, as text.
fn show_opening(alloc: Global, history: &History, out: &mut Vec<u8>) -> Result<(), Fail> {
    let Setup {
        site,
        sites,
        pages,
        max_records,
        reap_after,
        ..
    } = &history.setup;
    let text = format!(in alloc; "{site} {sites} {pages} {max_records} {reap_after}; ")?;
    out.extend_from_slice(text.as_bytes())?;
    let (era, counts, steps) = (
        history.opening.era,
        history.opening.counts.len(),
        history.steps.len(),
    );
    let text = format!(in alloc; "era {era}, {counts} counts, {steps} steps\n")?;
    Ok(out.extend_from_slice(text.as_bytes())?)
}

/// How many steps two seats have left, of 2^48 each.
fn show_left(alloc: Global, kept: &Kept, out: &mut Vec<u8>) -> Result<(), Fail> {
    let (first, second) = (kept.left(0), kept.left(1));
    Ok(out.extend_from_slice(format!(in alloc; "{first} {second} left\n")?.as_bytes())?)
}

/// Whether the second step of three tells the digest of what it made.
fn tells_what_it_made(history: &History) -> bool {
    let made = history.steps.get(1).and_then(|step| step.made);
    made == Some((Digest::of(b"hi!"), 3))
}

const APPENDS: &[Call] = &[
    Call::Act(b"set a 0 0 2\r\nhi\r\n"),
    Call::Act(b"append a 0 0 1\r\n!\r\n"),
    Call::Send(1),
];

fn begun(rt: &HostRuntime) -> Result<Vec<u8>, Fail> {
    let mut out = Vec::new(rt.alloc());
    let mut kept = opened(rt, rt.alloc(), 2, 3).ok_or("no site")?;
    answer_all(rt.alloc(), &mut kept, APPENDS, &mut out)?;
    show_left(rt.alloc(), &kept, &mut out)?;
    let history = kept.history();
    show_opening(rt.alloc(), &history, &mut out)?;
    if tells_what_it_made(&history) {
        out.extend_from_slice(b"makes hi!")?;
    }
    Ok(out)
}

#[test]
fn a_history_tells_where_it_began(rt: HostRuntime) -> Result<(), Fail> {
    let text = b"STORED\r\n\nSTORED\r\n\n\n281474976710653 281474976710656 left\n\
          2 3 15 1000 60; era 0, 0 counts, 3 steps\nmakes hi!";
    assert_eq!(rt; begun(&rt)?.as_slice(), text.as_slice());
    Ok(())
}

/// Why there is no such site.
fn refused(rt: &HostRuntime, site: u8, sites: u8) -> Result<Option<SetupError>, Fail> {
    let setup = setup_of(rt, site, sites).ok_or("no setup")?;
    Ok(Kept::new(rt.alloc(), setup).err())
}

#[test]
fn setups_are_refused_as_a_site_refuses_them(rt: HostRuntime) -> Result<(), Fail> {
    assert_eq!(rt; refused(&rt, 1, 0)?, Some(SetupError::Sites));
    assert_eq!(rt; refused(&rt, 3, 2)?, Some(SetupError::SiteNumber));
    Ok(())
}
