//! A program that makes the calls of the scenes that its input names.
use crate::course::Course;
use crate::scene::{Scene, Stop};
use std::alloc::Global;
use std::io::{self, Input};
use std::process::ExitCode;
use std::random::RandomSource;
use std::rt::Clock;
use std::sync::Wait;

/// The scenes of a program, by their names.
pub trait Program {
    /// Writes what a part tells of which no call is made twice; None for the name of a scene.
    fn tell<R: Wait + Clock + RandomSource>(
        &self,
        rt: &R,
        alloc: Global,
        name: &str,
        out: &mut Vec<u8>,
    ) -> Option<Result<(), Stop>>;

    /// Makes the calls of the scene of a name, as its course stands.
    fn run<R: Print + Wait + Clock + RandomSource>(
        &self,
        rt: &R,
        alloc: Global,
        name: &str,
        course: &mut Course,
    ) -> io::Result<Result<(), Stop>>;
}

/// Makes the calls of a scene as its course stands, if the scene could be made.
pub fn carry_out<S: Scene + Drop, R: Print + Wait + Clock>(
    rt: &R,
    alloc: Global,
    made: Result<S, Stop>,
    course: &mut Course,
) -> io::Result<Result<(), Stop>> {
    match made {
        Ok(mut scene) => course.carry_out(rt, alloc, &mut scene),
        Err(stop) => Ok(Err(stop)),
    }
}

fn print_told<R: Print>(rt: &R, told: &Vec<u8>) -> io::Result<()> {
    match str::from_utf8(told.as_slice()) {
        Ok(text) => print!(rt; "{text}"),
        Err(_) => Ok(()),
    }
}

/// Makes the calls of the scene of a name twice.
fn twice<P: Program, R: Print + Wait + Clock + RandomSource>(
    rt: &R,
    alloc: Global,
    program: &P,
    name: &str,
) -> io::Result<Result<(), Stop>> {
    let mut out = Vec::new(alloc);
    if let Some(told) = program.tell(rt, alloc, name, &mut out) {
        // nothing else is printed before the name of a scene
        print_told(rt, &out)?;
        return Ok(told);
    }
    let mut course = Course::new(alloc, name)?;
    match program.run(rt, alloc, name, &mut course)? {
        Ok(()) => program.run(rt, alloc, name, &mut course),
        stop => Ok(stop),
    }
}

/// Makes the calls of all scenes that the input names, a line each, up to the first that goes wrong.
fn all<P: Program, R: Print + Wait + Clock + RandomSource + Input + AllocGlobal>(
    rt: &R,
    program: &P,
) -> io::Result<Result<(), Stop>> {
    for name in rt.lines(rt.alloc()) {
        if let Err(stop) = twice(rt, rt.alloc(), program, name?.as_str())? {
            return Ok(Err(stop));
        }
    }
    Ok(Ok(()))
}

/// Makes the calls of all scenes that the input names, up to the first that goes wrong, prints why that did, and tells the status: 3
/// where memory was wanted, 1 where a call did what none of its kind may do.
pub fn run_all<P: Program, R: Print + Wait + Clock + RandomSource + Input + AllocGlobal>(
    rt: &R,
    program: &P,
) -> io::Result<ExitCode> {
    match all(rt, program)? {
        Ok(()) => Ok(ExitCode::SUCCESS),
        Err(Stop::Memory | Stop::Part) => {
            println!(rt; "out of memory")?;
            Ok(ExitCode::from(3))
        }
        Err(Stop::Wrong(what)) => {
            println!(rt; "WRONG: {what}")?;
            Ok(ExitCode::from(1))
        }
    }
}
