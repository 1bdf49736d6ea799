//! A call of a seat.
use geo_site::{Answer, Event};

/// What a seat asked of its station, and the answer that it was handed: a client's request, a send or a take.
#[derive(Drop)]
pub struct Call {
    pub event: Event,
    pub answer: Answer,
}
