//! `geocache serve FILE`, and `geocache serve FILE N`.
use crate::status::{DEVICE_FAILED, NO_MEMORY, REFUSED};
use geo_config::{ConfigFault, config, config_apart};
use geo_grammar::Device;
use geo_server::{ClusterFault, Operator, run_apart, run_cluster};
use geo_session::OpenGate;
use std::fs::{self, Files};
use std::io;
use std::net::{Net, TcpListener, TcpStream};
use std::random::RandomSource;
use std::rt::Clock;
use std::sync::Wait;
use std::thread::Threads;

/// The descriptor of standard input.
const STANDARD_INPUT: i32 = 0;

/// The status for want of memory, which is told on standard error.
fn wanted<R: Eprint>(rt: &R) -> u8 {
    let _told = eprintln!(rt; "{}", ClusterFault::Memory);
    NO_MEMORY
}

/// The status for a refused configuration, which is told on standard error.
fn refused<R: Eprint>(rt: &R, fault: ConfigFault) -> u8 {
    if matches!(fault, ConfigFault::Memory) {
        return wanted(rt);
    }
    let _told = eprintln!(rt; "configuration: {fault}");
    REFUSED
}

/// The status for how a cluster ended. What was wanted is told on standard error.
fn status_of<R: Eprint>(rt: &R, outcome: Result<(), ClusterFault>) -> u8 {
    let Err(fault) = outcome else {
        return 0;
    };
    let _told = eprintln!(rt; "{fault}");
    match fault {
        ClusterFault::Memory | ClusterFault::Threads => NO_MEMORY,
        ClusterFault::Listen(_) | ClusterFault::Socket | ClusterFault::Descriptors => DEVICE_FAILED,
    }
}

/// The text of a file. Where it can't be had that is told on standard error, and the status is answered.
fn text_of<R: Files + Eprint + AllocGlobal>(rt: &R, file: &str) -> Result<String, u8> {
    match fs::read_to_string(rt, file) {
        Ok(text) => Ok(text),
        Err(error) if error.kind() == io::ErrorKind::OutOfMemory => Err(wanted(rt)),
        Err(_) => {
            let _told = eprintln!(rt; "configuration: unreadable");
            Err(REFUSED)
        }
    }
}

/// Runs the sites of the configuration in a file, and answers the status.
pub fn run_from_file<
    R: Net<Stream = TcpStream, Listener = TcpListener>
        + Threads
        + Wait
        + Clock
        + RandomSource
        + Files
        + Print
        + Eprint
        + AllocGlobal
        + Sync,
>(rt: &R, file: &str) -> u8 {
    let text = match text_of(rt, file) {
        Ok(text) => text,
        Err(status) => return status,
    };
    match config(rt.alloc(), text.as_str()) {
        Ok(config) => {
            let mut writer = Device::new(io::writer(rt));
            status_of(
                rt,
                run_cluster(rt, rt.alloc(), &config, &OpenGate, &mut writer),
            )
        }
        Err(fault) => refused(rt, fault),
    }
}

/// Runs a site of the configuration in a file, by its number, and answers the status; None where there is no such site.
pub fn run_one_from_file<
    R: Net<Stream = TcpStream, Listener = TcpListener>
        + Threads
        + Wait
        + Clock
        + RandomSource
        + Files
        + Input
        + Print
        + Eprint
        + AllocGlobal
        + Sync,
>(rt: &R, file: &str, number: u8) -> Option<u8> {
    let text = match text_of(rt, file) {
        Ok(text) => text,
        Err(status) => return Some(status),
    };
    let config = match config_apart(rt.alloc(), text.as_str()) {
        Ok(config) => config,
        Err(fault) => return Some(refused(rt, fault)),
    };
    if number < 1 || number as usize > config.config.sites.len() {
        return None;
    }
    let operator = Operator::new(rt.alloc(), rt.reader(), STANDARD_INPUT);
    let mut writer = Device::new(io::writer(rt));
    let outcome = run_apart(
        rt,
        rt.alloc(),
        &config,
        number,
        &OpenGate,
        operator,
        &mut writer,
    );
    Some(status_of(rt, outcome))
}
