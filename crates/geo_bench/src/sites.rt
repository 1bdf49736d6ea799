//! One site or several, asked by their numbers.
use anyhow::Result;
use geo_delta::Parcel;
use geo_grammar::Request;
use geo_history::History;
use std::sync::Wait;

/// What a site is asked.
#[derive(Drop)]
pub enum Ask {
    /// To answer a request.
    Act(Request),
    /// For its parcel for another.
    Send(u8),
    /// For the frame of its parcel for another.
    Frame(u8),
    /// To take a parcel.
    Take(Parcel),
    /// To keep a frame until the next round.
    Delay(Vec<u8>),
    /// To take the parcels of the frames that it kept.
    TakeLate,
    /// To do what it needs.
    Maintain,
    /// To begin a new era after so many steps.
    Renew(u64),
    /// For the sum of all that came of it, its numbers at last.
    Total,
}

/// What it gives.
#[derive(Drop)]
pub enum Told {
    Nothing,
    Parcel(Parcel),
    Frame(Vec<u8>),
    Total(u64),
}

/// Sites as the others and their clients meet them, whatever their stations are named by. It has few methods, for a proof that speaks of
/// several sites repeats each of them.
pub trait Sites: Drop {
    /// Asks one of them.
    fn ask<R: Wait>(&mut self, rt: &R, at: u8, ask: Ask) -> Result<Told>;

    /// Adds what was done at each.
    fn close(self, histories: &mut Vec<History>) -> Result<()>;
}

/// Sites below a number beside those from it on.
#[derive(Drop)]
pub struct Beside<A, B> {
    pub low: A,
    pub high: B,
    pub first_high: u8,
}

impl<A: Sites, B: Sites> Sites for Beside<A, B> {
    fn ask<R: Wait>(&mut self, rt: &R, at: u8, ask: Ask) -> Result<Told> {
        if at < self.first_high {
            self.low.ask(rt, at, ask)
        } else {
            self.high.ask(rt, at, ask)
        }
    }

    fn close(self, histories: &mut Vec<History>) -> Result<()> {
        let Beside { low, high, .. } = self;
        low.close(histories)?;
        high.close(histories)
    }
}
