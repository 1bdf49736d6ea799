//! `geocache script`.
use crate::status::{DEVICE_FAILED, NO_MEMORY, REFUSED};
use geo_cluster::{ScriptFault, run_script};
use geo_grammar::Device;
use std::hash::RandomState;
use std::io;
use std::random::RandomSource;

/// Runs the script on standard input. Its sites hash keys with keys of their own, which nobody outside can guess.
fn run<R: Input + Print + AllocGlobal + RandomSource>(rt: &R) -> Result<(), ScriptFault> {
    let Ok(hasher) = RandomState::new(rt) else {
        return Err(ScriptFault::Read);
    };
    let mut reader = Device::new(rt.reader());
    let mut writer = Device::new(io::writer(rt));
    run_script(rt.alloc(), hasher, &mut reader, &mut writer)
}

/// Runs the script on standard input, and answers the status. Why it ended early is told on standard error.
pub fn run_from_input<R: Input + Print + Eprint + AllocGlobal + RandomSource>(rt: &R) -> u8 {
    match run(rt) {
        Ok(()) => 0,
        Err(ScriptFault::BadLine(number)) => {
            let _told = eprintln!(rt; "bad line {number}");
            REFUSED
        }
        Err(ScriptFault::Memory) => {
            let _told = eprintln!(rt; "out of memory");
            NO_MEMORY
        }
        Err(ScriptFault::Read) => {
            let _told = eprintln!(rt; "a read failed");
            DEVICE_FAILED
        }
        Err(ScriptFault::Write) => {
            let _told = eprintln!(rt; "a write failed");
            DEVICE_FAILED
        }
    }
}
