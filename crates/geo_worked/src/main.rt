//! The worked scripts: runs the files of `data/` that its arguments name, and compares what each writes with what it owes.
//!
//! A file `NAME.script` is a script that `./geocache script` runs as it stands. In it a comment `#> TEXT` is the next line of
//! output that is owed, and `#! bad line N` the fault that is owed at its end. A file `NAME.table` has scripts of a line or two, a
//! row each. For each file one line is printed: that it is as written, or where it first differs.
#![tactic(auto)]

mod owed;
mod play;
mod table;

use crate::play::{Difference, first_difference};
use std::alloc::Global;
use std::hash::RandomState;
use std::process::ExitCode;
use std::random::RandomSource;
use std::rt::{Env, Files};
use std::{env, fs, io};

/// Prints what came of a file.
fn tell<R: Print>(rt: &R, name: &str, found: Option<Difference>) -> io::Result<()> {
    let Some(
        Difference {
            place,
            owed,
            written,
        },
    ) = found
    else {
        return println!(rt; "as written {name}");
    };
    println!(rt; "differs {name}, {place}")?;
    println!(rt; "owed    {}", owed.as_str())?;
    println!(rt; "written {}", written.as_str())
}

/// Runs a file, and prints what came of it.
fn check<R: Files + Print + AllocGlobal>(
    rt: &R,
    hasher: RandomState,
    name: &str,
) -> io::Result<()> {
    let bytes = fs::read(rt, name)?;
    let found = if name.ends_with(".table") {
        table::first_difference(rt.alloc(), &hasher, bytes.as_slice())?
    } else {
        first_difference(rt.alloc(), hasher, bytes.as_slice())?
    };
    tell(rt, name, found)
}

fn check_all<R: Files + Env + Print + AllocGlobal + RandomSource>(rt: &R) -> io::Result<()> {
    let mut names = env::args(rt)?;
    let _program = names.next();
    for name in names {
        check(rt, RandomState::new(rt)?, name.as_str())?;
    }
    Ok(())
}

fn main(rt: HostRuntime) -> ExitCode {
    match check_all(&rt) {
        Ok(()) => ExitCode::SUCCESS,
        Err(_) => ExitCode::from(4),
    }
}
