//! Calls of which one allocation is refused at what serves clients: stations and their seats, rounds of gossip, sessions, and the
//! connections of one thread. Each line of the input names a scene, whose calls are made twice, as `geo_scenes` says, the second time
//! while `tests/memory` refuses allocations. What is printed is the same whichever is refused.
#![tactic(auto)]

mod crowds;
mod fills;
mod rounds;
mod rows;
mod sessions;
mod stations;

use crate::crowds::{Hall, untold};
use crate::rows::Rows;
use crate::sessions::{Clients, Way};
use geo_scenes::{Course, Program, Stop, carry_out, run_all};
use std::alloc::Global;
use std::io;
use std::process::ExitCode;
use std::random::RandomSource;
use std::rt::Clock;
use std::sync::Wait;

/// Has one thread carry connections.
fn run_crowd<R: Print + Wait + Clock + RandomSource>(
    rt: &R,
    alloc: Global,
    course: &mut Course,
) -> io::Result<Result<(), Stop>> {
    let told = untold();
    carry_out(rt, alloc, Hall::new(rt, alloc, &told), course)
}

/// The scenes of this program.
struct Served;

impl Program for Served {
    fn tell<R: Wait + Clock + RandomSource>(
        &self,
        _rt: &R,
        _alloc: Global,
        _name: &str,
        _out: &mut Vec<u8>,
    ) -> Option<Result<(), Stop>> {
        None
    }

    fn run<R: Print + Wait + Clock + RandomSource>(
        &self,
        rt: &R,
        alloc: Global,
        name: &str,
        course: &mut Course,
    ) -> io::Result<Result<(), Stop>> {
        if let Some(rows) = Rows::of(name) {
            return stations::run(rt, alloc, rows, course);
        }
        match name {
            "sessions" => carry_out(rt, alloc, Clients::new(rt, alloc, Way::Handed), course),
            "serving" => carry_out(rt, alloc, Clients::new(rt, alloc, Way::Served), course),
            "crowd" => run_crowd(rt, alloc, course),
            _ => Ok(Err(Stop::Wrong("no such scene"))),
        }
    }
}

fn main(rt: HostRuntime) -> io::Result<ExitCode> {
    run_all(&rt, &Served)
}
