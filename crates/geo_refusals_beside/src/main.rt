//! Calls of which one allocation is refused that are made beside sites that serve: links, schedules of several sites, audits,
//! configurations and tallies. Each line of the input names a scene, whose calls are made twice, as `geo_scenes` says, the second time
//! while `tests/memory` refuses allocations. What is printed is the same whichever is refused.
#![tactic(auto)]

mod audits;
mod links;
mod settings;
mod worlds;

use crate::audits::Audits;
use crate::links::{Ends, Wire};
use crate::settings::Settings;
use crate::worlds::{Globe, Schedule};
use geo_scenes::{Course, Program, Stop, carry_out, run_all};
use std::alloc::Global;
use std::io;
use std::process::ExitCode;
use std::random::RandomSource;
use std::rt::Clock;
use std::sync::Wait;

/// The scenes of this program.
struct Beside;

impl Program for Beside {
    fn tell<R: Wait + Clock + RandomSource>(
        &self,
        _rt: &R,
        _alloc: Global,
        _name: &str,
        _out: &mut Vec<u8>,
    ) -> Option<Result<(), Stop>> {
        None
    }

    fn run<R: Print + Wait + Clock + RandomSource>(
        &self,
        rt: &R,
        alloc: Global,
        name: &str,
        course: &mut Course,
    ) -> io::Result<Result<(), Stop>> {
        match name {
            "ends" => carry_out(rt, alloc, Ends::new(rt, alloc), course),
            "wire" => carry_out(rt, alloc, Wire::new(rt, alloc), course),
            "world" => carry_out(rt, alloc, Globe::new(rt, alloc), course),
            "schedule" => carry_out(rt, alloc, Schedule::new(rt, alloc), course),
            "audits" => carry_out(rt, alloc, Audits::new(rt, alloc), course),
            "settings" => carry_out(rt, alloc, Ok(Settings::new()), course),
            _ => Ok(Err(Stop::Wrong("no such scene"))),
        }
    }
}

fn main(rt: HostRuntime) -> io::Result<ExitCode> {
    run_all(&rt, &Beside)
}
