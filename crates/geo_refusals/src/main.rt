//! Calls at sites, their histories and their versions, of which one allocation is refused, and what comes of bad bytes and failing
//! devices. Each line of the input names a scene, whose calls are made twice, as `geo_scenes` says, the second time while
//! `tests/memory` refuses allocations, or a part that is told once. What is printed is the same whichever allocation is refused.
#![tactic(auto)]

mod devices;
mod frames;
mod lines;
mod order;
mod rows;

use crate::lines::{Line, Sites};
use crate::order::Order;
use geo_scenes::{Course, Program, Stop, carry_out, run_all};
use std::alloc::Global;
use std::io;
use std::process::ExitCode;
use std::random::RandomSource;
use std::rt::Clock;
use std::sync::Wait;

/// The sites of a scene, and the lines of its calls; None for another name.
fn lines_of(name: &str) -> Option<(u8, &'static [Line])> {
    Some(match name {
        "tie" => (2, rows::TIE),
        "removal" => (2, rows::REMOVAL),
        "expiry" => (1, rows::EXPIRY),
        "eviction" => (1, rows::EVICTION),
        "lists" => (1, rows::LISTS),
        "cold" => (1, rows::COLD),
        "flush" => (1, rows::FLUSH),
        "touches" => (1, rows::TOUCHES),
        "repeats" => (1, rows::REPEATS),
        "owners" => (1, rows::OWNERS),
        "deltas" => (2, rows::DELTAS),
        "commands" => (1, rows::COMMANDS),
        _ => return None,
    })
}

/// The scenes of this program.
struct Refusals;

impl Program for Refusals {
    fn tell<R: Wait + Clock + RandomSource>(
        &self,
        rt: &R,
        alloc: Global,
        name: &str,
        out: &mut Vec<u8>,
    ) -> Option<Result<(), Stop>> {
        match name {
            "frames" => Some(frames::tell_spoiled(rt, alloc, out)),
            "fields" => Some(frames::tell_fields(rt, alloc, out)),
            "devices" => Some(devices::tell_all(rt, alloc, out)),
            _ => None,
        }
    }

    fn run<R: Print + Wait + Clock + RandomSource>(
        &self,
        rt: &R,
        alloc: Global,
        name: &str,
        course: &mut Course,
    ) -> io::Result<Result<(), Stop>> {
        if name == "order" {
            return carry_out(rt, alloc, Order::new(rt, alloc), course);
        }
        match lines_of(name) {
            Some((count, lines)) => {
                carry_out(rt, alloc, Sites::new(rt, alloc, count, lines), course)
            }
            None => Ok(Err(Stop::Wrong("no such scene"))),
        }
    }
}

fn main(rt: HostRuntime) -> io::Result<ExitCode> {
    run_all(&rt, &Refusals)
}
