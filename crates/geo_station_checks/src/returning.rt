//! A link whose connections come and go: on which of them a message is put, and when one is let go.
use geo_frame::{Message, fits};
use geo_link::{Connect, Link, LinkError, Returning};
use geo_versions::{Digest, Key};
use std::alloc::Global;
use std::sync::Wait;
use std::test::Fail;

/// A connection with a number, on which some messages can be put before it answers an error. A get answers that error at once.
#[derive(Drop)]
struct Numbered {
    number: u64,
    room: u64,
    fault: LinkError,
}

impl Link for Numbered {
    ghost puts = { λ _ _ _. Unit {0} };

    ghost gets = { λ _ _ _. Unit {0} };

    ghost put_fails = { λ _ _ _ _. Unit {0} };

    ghost get_fails = { λ _ _ _. Unit {0} };

    ghost closes = { λ _ _. Unit {0} };

    fn put<R: Wait>(
        &mut self,
        _rt: &R,
        _alloc: Global,
        _message: Message,
    ) -> Result<(), LinkError> {
        if self.room == 0 {
            return Err(self.fault);
        }
        self.room -= 1;
        Ok(())
    }

    fn get<R: Wait>(&mut self, _rt: &R, _alloc: Global) -> Result<Message, LinkError> {
        Err(self.fault)
    }

    fn close(&mut self) {
        self.room = 0;
    }
}

/// Connects as often as it may, by rising numbers, and counts what it is told.
#[derive(Drop)]
struct Numbering {
    made: u64,
    most: u64,
    fault: LinkError,
    is_whole: bool,
    admits: bool,
    carried: u64,
    lost: u64,
    let_go: u64,
}

impl Connect<Numbered> for Numbering {
    ghost fresh = { λ _. Unit {0} };

    fn connect<R: Wait>(&mut self, _rt: &R, _alloc: Global) -> Option<Numbered> {
        if self.made >= self.most {
            return None;
        }
        self.made = self.made.saturating_add(1);
        Some(Numbered {
            number: self.made,
            room: 2,
            fault: self.fault,
        })
    }

    fn is_whole(&mut self, _alloc: Global, _connection: &Numbered) -> bool {
        self.is_whole
    }

    fn admits(&self, _message: &Message) -> bool {
        self.admits
    }

    fn carried(&mut self) {
        self.carried = self.carried.saturating_add(1);
    }

    fn lost(&mut self, _alloc: Global, _error: LinkError) {
        self.lost = self.lost.saturating_add(1);
    }

    fn let_go(&mut self) {
        self.let_go = self.let_go.saturating_add(1);
    }
}

type Several = Returning<Numbered, Numbering>;

/// A link that may connect so often, whose connections fail so.
fn link_of(most: u64, fault: LinkError) -> Several {
    Returning::new(
        None,
        Numbering {
            made: 0,
            most,
            fault,
            is_whole: true,
            admits: true,
            carried: 0,
            lost: 0,
            let_go: 0,
        },
    )
}

/// What is answered to an ask that is put.
fn put<R: Wait>(rt: &R, alloc: Global, link: &mut Several) -> Result<&'static str, Fail> {
    let message = Message::Ask {
        from: 1,
        to: 2,
        sites: 2,
        key: Key::new(alloc, b"a")?.ok_or("no key")?,
        digest: Digest::of(b"yo"),
    };
    if !fits(&message) {
        return Err(Fail::new("not within the ranges"));
    }
    Ok(match link.put(rt, alloc, message) {
        Ok(()) => "put; ",
        Err(LinkError::Closed) => "closed; ",
        Err(LinkError::Memory) => "memory; ",
        Err(LinkError::TooLong) => "too long; ",
        Err(LinkError::Io) => "failed; ",
        Err(LinkError::Frame(_)) => "refused; ",
    })
}

/// The number of the connection that stands, and what its connector was told: of how many messages, failures and ends.
fn state(alloc: Global, link: &mut Several) -> Result<String, Fail> {
    let Numbering {
        carried,
        lost,
        let_go,
        ..
    } = link.connector();
    let (carried, lost, let_go) = (*carried, *lost, *let_go);
    let number = match link.take() {
        Some(connection) => connection.number,
        None => 0,
    };
    Ok(format!(in alloc; "{number}: {carried} {lost} {let_go}")?)
}

/// Whether it stands, three puts, whether it stands, and a put.
fn put_on_two<R: Wait>(rt: &R, alloc: Global, link: &mut Several) -> Result<String, Fail> {
    let mut told = String::new(alloc);
    told.push_str(put(rt, alloc, link)?)?;
    for _connection in 0..2 {
        told.push_str(if link.stands(rt, alloc) {
            "up; "
        } else {
            "down; "
        })?;
        for _message in 0..3 {
            told.push_str(put(rt, alloc, link)?)?;
        }
    }
    told.push_str(state(alloc, link)?.as_str())?;
    Ok(told)
}

#[test]
fn nothing_is_put_on_a_connection_that_has_failed(rt: HostRuntime) -> Result<(), Fail> {
    let alloc = rt.alloc();
    let mut failing = link_of(2, LinkError::Io);
    let told = put_on_two(&rt, alloc, &mut failing)?;
    let owed = "closed; up; put; put; failed; up; put; put; failed; 0: 4 2 0";
    assert_eq!(rt; told.as_str(), owed);
    let mut once = link_of(1, LinkError::Closed);
    let told = put_on_two(&rt, alloc, &mut once)?;
    let owed = "closed; up; put; put; closed; down; closed; closed; closed; 0: 2 1 0";
    assert_eq!(rt; told.as_str(), owed);
    Ok(())
}

#[test]
fn a_connection_outlives_want_of_memory_and_a_frame_too_long(rt: HostRuntime) -> Result<(), Fail> {
    let alloc = rt.alloc();
    let mut wanting = link_of(2, LinkError::Memory);
    let told = put_on_two(&rt, alloc, &mut wanting)?;
    let owed = "closed; up; put; put; memory; up; memory; memory; memory; 1: 2 0 0";
    assert_eq!(rt; told.as_str(), owed);
    let mut long = link_of(2, LinkError::TooLong);
    let told = put_on_two(&rt, alloc, &mut long)?;
    let owed = "closed; up; put; put; too long; up; too long; too long; too long; 1: 2 0 0";
    assert_eq!(rt; told.as_str(), owed);
    Ok(())
}

/// A get, a put, a connection that can't be used on, and an end at this end.
fn let_go_of_all<R: Wait>(rt: &R, alloc: Global) -> Result<String, Fail> {
    let mut told = String::new(alloc);
    let mut link = link_of(9, LinkError::Memory);
    let _first = link.stands(rt, alloc);
    // whatever comes behind a get that failed is no answer to another
    told.push_str(if link.get(rt, alloc).is_err() {
        "nothing; "
    } else {
        "a message; "
    })?;
    told.push_str(put(rt, alloc, &mut link)?)?;
    let _second = link.stands(rt, alloc);
    told.push_str(put(rt, alloc, &mut link)?)?;
    link.close();
    told.push_str(put(rt, alloc, &mut link)?)?;
    let _third = link.stands(rt, alloc);
    told.push_str(if link.is_up() { "up; " } else { "down; " })?;
    told.push_str(state(alloc, &mut link)?.as_str())?;
    Ok(told)
}

#[test]
fn a_get_that_failed_and_a_close_let_go(rt: HostRuntime) -> Result<(), Fail> {
    let told = let_go_of_all(&rt, rt.alloc())?;
    assert_eq!(rt; told.as_str(), "nothing; closed; put; closed; up; 3: 1 1 1");
    Ok(())
}

/// Puts on a link whose connector admits none, and then on one whose connection can't be used on.
fn held_back<R: Wait>(rt: &R, alloc: Global) -> Result<String, Fail> {
    let mut told = String::new(alloc);
    let connector = Numbering {
        made: 1,
        most: 2,
        fault: LinkError::Io,
        is_whole: false,
        admits: false,
        carried: 0,
        lost: 0,
        let_go: 0,
    };
    let first = Numbered {
        number: 1,
        room: 2,
        fault: LinkError::Io,
    };
    let mut link = Returning::new(Some(first), connector);
    told.push_str(put(rt, alloc, &mut link)?)?;
    told.push_str(if link.is_up() { "up; " } else { "down; " })?;
    let _second = link.stands(rt, alloc);
    told.push_str(state(alloc, &mut link)?.as_str())?;
    Ok(told)
}

#[test]
fn what_is_not_admitted_leaves_the_connection(rt: HostRuntime) -> Result<(), Fail> {
    let told = held_back(&rt, rt.alloc())?;
    assert_eq!(rt; told.as_str(), "closed; up; 2: 0 0 0");
    Ok(())
}
