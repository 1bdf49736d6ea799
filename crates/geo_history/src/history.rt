//! A history that has ended, as plain data.
use crate::step::Step;
use geo_chunks::Chunks;
use geo_site::{Setup, SiteState};

/// Where a history begins.
#[derive(Drop)]
pub struct Opening {
    /// Which part of what was done at the site begins, from 0.
    pub era: u32,
    /// What the site was.
    pub state: SiteState,
    /// How many steps each seat, from 0 on, had made before; a seat beyond the end had made none.
    pub counts: Vec<u64>,
}

/// What a site was told at its start, where the history begins, and what was done from there on.
#[derive(Drop)]
pub struct History {
    pub setup: Setup,
    pub opening: Opening,
    pub steps: Chunks<Step>,
}
