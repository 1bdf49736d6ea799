//! The program. `geocache script` runs the script on standard input, `geocache serve FILE` the sites of a configuration, and `geocache
//! serve FILE N` site N of it alone.
#![tactic(auto)]

mod script;
mod serve;
mod status;

use script::run_from_input;
use serve::{run_from_file, run_one_from_file};
use status::{NO_MEMORY, REFUSED};
use std::process::ExitCode;
use std::rt::Env;
use std::{env, io};

/// The greatest number of a site.
const MOST_SITES: u8 = 16;

/// What the words of the call ask for.
#[derive(Drop)]
enum Call {
    Script,
    /// With the configuration of this file.
    Serve(String),
    /// Of the configuration of this file the site with this number.
    ServeOne(String, u8),
    Other,
}

/// The number of a site, as it was written.
fn number_of(word: &str) -> Option<u8> {
    match word.parse::<u8>() {
        Ok(number) if number >= 1 && number <= MOST_SITES => Some(number),
        _ => None,
    }
}

/// What the words of the call ask for.
fn asked_for<R: Env + AllocGlobal>(rt: &R) -> io::Result<Call> {
    let mut words = env::args(rt)?;
    let _program = words.next();
    let first = words.next();
    let second = words.next();
    let third = words.next();
    let fourth = words.next();
    let (Some(word), None) = (first, fourth) else {
        return Ok(Call::Other);
    };
    match (second, third) {
        (None, None) if word.as_str() == "script" => Ok(Call::Script),
        (Some(file), None) if word.as_str() == "serve" => Ok(Call::Serve(file)),
        (Some(file), Some(number)) if word.as_str() == "serve" => {
            Ok(match number_of(number.as_str()) {
                Some(number) => Call::ServeOne(file, number),
                None => Call::Other,
            })
        }
        _ => Ok(Call::Other),
    }
}

/// Tells how the program is called, and answers the status.
fn tell_usage<R: Eprint>(rt: &R) -> u8 {
    let _told = eprintln!(rt; "usage: geocache script | geocache serve FILE");
    REFUSED
}

fn main(rt: HostRuntime) -> ExitCode {
    let status = match asked_for(&rt) {
        Ok(Call::Script) => run_from_input(&rt),
        Ok(Call::Serve(file)) => run_from_file(&rt, file.as_str()),
        Ok(Call::ServeOne(file, number)) => match run_one_from_file(&rt, file.as_str(), number) {
            Some(status) => status,
            None => tell_usage(&rt),
        },
        Err(error) if error.kind() == io::ErrorKind::OutOfMemory => {
            let _told = eprintln!(rt; "out of memory");
            NO_MEMORY
        }
        Ok(Call::Other) | Err(_) => tell_usage(&rt),
    };
    ExitCode::from(status)
}
