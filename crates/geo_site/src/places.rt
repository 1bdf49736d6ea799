//! Where values stand that a line finds.

use std::alloc::{AllocError, Global};

/// Where values stand that were found, in the order in which they were: a hit on one looks there first, and by its place a value that
/// is found again is known.
#[derive(Drop)]
pub(crate) struct Places {
    first: Option<usize>,
    // One place takes no memory.
    others: Vec<usize>,
}

impl Places {
    /// No places.
    pub(crate) fn new(alloc: Global) -> Places {
        Places {
            first: None,
            others: Vec::new(alloc),
        }
    }

    /// One place more.
    pub(crate) fn push(&mut self, place: usize) -> Result<(), AllocError> {
        if self.first.is_some() {
            return self.others.push(place).or(Err(AllocError));
        }
        self.first = Some(place);
        Ok(())
    }

    /// The place of the value that was found at this number, from 0.
    pub(crate) fn of(&self, number: usize) -> usize {
        let place = match number.checked_sub(1) {
            Some(other) => self.others.get(other).copied(),
            None => self.first,
        };
        place.unwrap_or(0)
    }

    /// How many there are.
    pub(crate) fn len(&self) -> usize {
        match self.first {
            Some(_) => self.others.len() + 1,
            None => 0,
        }
    }

    /// The number, from 0, of the first that is this place. It looks at one after the other.
    pub(crate) fn number_of(&self, place: usize) -> Option<usize> {
        if self.first? == place {
            return Some(0);
        }
        let other = self.others.iter().position(|other| *other == place)?;
        Some(other + 1)
    }
}
