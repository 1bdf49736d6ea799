//! A link over which each ask gets an answer.
ghost use Rattle.std.specs.Prelude.{◌≡◌};
ghost use Rattle.geo_frame.specs.Payloads.{PayloadInRange, payload_of};

use geo_frame::{Message, fits};
use geo_link::{Link, LinkError, Tallied};
use geo_tally::TallySeat;
use geo_versions::{Digest, Key};
use std::alloc::{AllocError, Global};
use std::sync::Wait;

/// An ask that was got.
#[derive(Drop)]
struct Asked {
    from: u8,
    to: u8,
    sites: u8,
    key: Key,
    digest: Digest,
}

/// The ask that a message is, to be answered later if need be.
fn noted(alloc: Global, message: &Message) -> Result<Option<Asked>, AllocError> {
    match message {
        Message::Parcel(_) | Message::Offer { .. } => Ok(None),
        Message::Ask {
            from,
            to,
            sites,
            key,
            digest,
        } => Ok(Some(Asked {
            from: *from,
            to: *to,
            sites: *sites,
            key: key.copied(alloc)?,
            digest: *digest,
        })),
    }
}

/// The same, of which nothing else is left.
fn taken(message: Message) -> Option<Asked> {
    match message {
        Message::Parcel(_) => None,
        Message::Offer { .. } => None,
        Message::Ask {
            from,
            to,
            sites,
            key,
            digest,
        } => Some(Asked {
            from,
            to,
            sites,
            key,
            digest,
        }),
    }
}

/// The answer of a site that holds nothing.
fn no_bytes(asked: Asked) -> Message {
    let Asked {
        from,
        to,
        sites,
        key,
        digest,
    } = asked;
    Message::Offer {
        from: to,
        to: from,
        sites,
        key,
        digest,
        bytes: None,
    }
}

/// Puts a message. The seat of the tally stays one of that tally.
fn put_on<R: Wait, K: Link>(
    rt: &R,
    alloc: Global,
    link: &mut Tallied<'_, K>,
    message: Message,
) -> Result<(), LinkError>
    requires { PayloadInRange (payload_of message) }
    ensures { link.new.seat.tally ≡ link.old.seat.tally }
{
    link.put(rt, alloc, message)
}

/// Gets a message. The seat of the tally stays one of that tally.
fn get_from<R: Wait, K: Link>(
    rt: &R,
    alloc: Global,
    link: &mut Tallied<'_, K>,
) -> Result<Message, LinkError>
    ensures { link.new.seat.tally ≡ link.old.seat.tally }
{
    link.get(rt, alloc)
}

/// A link from which a site gets. Whoever asks over it waits for the answer, and one in memory waits for however long that takes: so an
/// ask for whose answer there was no memory is answered by no bytes, before more is got.
#[derive(Drop)]
pub struct Answering<'a, K> {
    link: Tallied<'a, K>,
    /// What was got last, where that is an ask that was not answered yet.
    asked: Option<Asked>,
    is_over: bool,
}

impl<'a, K: Link + Drop> Answering<'a, K> {
    pub fn new(link: Tallied<'a, K>) -> Answering<'a, K>
        ensures { result.link.seat ≡ link.entry.seat }
    {
        Answering {
            link,
            asked: None,
            is_over: false,
        }
    }

    /// Whether the link is closed.
    pub fn is_over(&self) -> bool {
        self.is_over
    }

    /// The seat of the tally.
    pub fn into_counts(self) -> TallySeat
        ensures { result ≡ self.entry.link.seat }
    {
        let Answering { link, .. } = self;
        let (_link, counts) = link.into_parts();
        counts
    }

    /// Answers by no bytes what was not answered.
    fn answer_owed<R: Wait>(&mut self, rt: &R, alloc: Global)
        ensures { self.new.link.seat.tally ≡ self.old.link.seat.tally }
    {
        let Some(asked) = self.asked.take() else {
            return;
        };
        let offer = no_bytes(asked);
        if fits(&offer) {
            let _ = put_on(rt, alloc, &mut self.link, offer);
        }
    }
}

impl<K: Link + Drop> Link for Answering<'_, K> {
    ghost use Rattle.std.specs.Prelude.{◌≡◌};

    ghost puts = { λ old _ new. new.link.seat.tally ≡ old.link.seat.tally };

    ghost gets = { λ old _ new. new.link.seat.tally ≡ old.link.seat.tally };

    ghost put_fails = { λ old _ _ new. new.link.seat.tally ≡ old.link.seat.tally };

    ghost get_fails = { λ old _ new. new.link.seat.tally ≡ old.link.seat.tally };

    ghost closes = { λ _ _. Unit {0} };

    fn put<R: Wait>(&mut self, rt: &R, alloc: Global, message: Message) -> Result<(), LinkError> {
        let done = put_on(rt, alloc, &mut self.link, message);
        if !matches!(&done, Err(LinkError::Memory)) {
            self.asked = None;
        }
        done
    }

    fn get<R: Wait>(&mut self, rt: &R, alloc: Global) -> Result<Message, LinkError> {
        self.answer_owed(rt, alloc);
        match get_from(rt, alloc, &mut self.link) {
            Ok(message) => match noted(alloc, &message) {
                Ok(asked) => {
                    self.asked = asked;
                    Ok(message)
                }
                Err(_) => {
                    self.asked = taken(message);
                    Err(LinkError::Memory)
                }
            },
            Err(error) => {
                self.is_over = self.is_over || error == LinkError::Closed;
                Err(error)
            }
        }
    }

    fn close(&mut self) {
        self.link.close();
        self.is_over = true;
    }
}
