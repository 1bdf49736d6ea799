//! Calls that are made one after the other, and what each leaves.
use std::alloc::{AllocError, AllocFailed, Global};
use std::rt::Clock;
use std::sync::Wait;

/// Why a call did not do what it was asked.
#[derive(Clone, Copy, Debug, PartialEq, Eq)]
pub enum Stop {
    /// It told that memory was wanted.
    Memory,
    /// It told that memory was wanted for the rest: what it did before stands, and made again it does the rest.
    Part,
    /// It did what no call of its kind may do.
    Wrong(&'static str),
}

impl From<AllocError> for Stop {
    fn from(_error: AllocError) -> Stop {
        Stop::Memory
    }
}

impl<T: Drop> From<AllocFailed<T>> for Stop {
    fn from(_error: AllocFailed<T>) -> Stop {
        Stop::Memory
    }
}

/// Calls that are made one after the other at values that the scene holds.
pub trait Scene {
    /// How many calls there are.
    fn count(&self) -> usize;

    /// Does what a call may leave done though memory is wanted for the rest of it: a flush that is due.
    fn begin(&mut self, place: usize) -> Result<(), Stop>;

    /// Makes the call at a place, from 0, and writes what it answers.
    fn call<R: Wait + Clock>(
        &mut self,
        rt: &R,
        alloc: Global,
        place: usize,
        out: &mut Vec<u8>,
    ) -> Result<(), Stop>;

    /// Writes all that can be seen of what the calls have left. What they have left stays; how it is looked at may change.
    fn show<R: Wait>(&mut self, rt: &R, alloc: Global, out: &mut Vec<u8>) -> Result<(), AllocError>;

    /// A number that changes with most of it. It takes no memory.
    fn glance(&self) -> u64;
}
