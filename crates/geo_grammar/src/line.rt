//! What a command line says.
ghost use Rattle.std.specs.Prelude.{◌≡◌, IfOk, Some};
ghost use Rattle.geo_grammar.specs.Words.{words_of};
ghost use Rattle.geo_grammar.specs.Commands.{after_zero, delete_line, touch_line, arith_line, flush_line, verbosity_line, lone_line, command_line, line_says};

use crate::command::{Command, command_of};
use crate::fault::LineFault;
use crate::fetch::{fetch_line, fetch_touch_line};
use crate::head::Head;
use crate::keys::key_of;
use crate::limits::MOST_FLAGS;
use crate::storage::storage_line;
use crate::words::{first_word, next_word, noreply as read_noreply, signed, without_return};
use geo_requests::{MOST_NUMBER, Request, number};
use std::alloc::{AllocError, Global};

/// What a command line says.
#[derive(Drop)]
pub enum Line {
    /// A whole request.
    Whole(Request),
    /// A store, whose data follows.
    Storage(Head),
    /// A store of too large data, which follows, of so many bytes.
    Huge(usize),
    /// No command.
    Bad(LineFault),
}

/// A line without a `0` as its first word.
fn without_zero(line: &[u8]) -> &[u8]
    ensures { words_of result.now ≡ after_zero (words_of line.now) }
{
    match next_word(line) {
        Some((word, rest)) if word == b"0".as_slice() => rest,
        _ => line,
    }
}

/// What a `delete` line says, by the words behind its name.
fn delete_line(alloc: Global, line: &[u8]) -> Result<Line, AllocError>
    ensures { IfOk result (λ l. l ≡ delete_line (words_of line.now)) }
{
    let bad = Line::Bad(LineFault::BadLine);
    let Some(key) = first_word(line) else {
        return Ok(bad);
    };
    let Some(noreply) = read_noreply(without_zero(key.rest)) else {
        return Ok(bad);
    };
    let Some(key) = key_of(alloc, key)? else {
        return Ok(bad);
    };
    Ok(Line::Whole(Request::Delete { key, noreply }))
}

/// What a `touch` line says, by the words behind its name.
fn touch_line(alloc: Global, line: &[u8]) -> Result<Line, AllocError>
    ensures { IfOk result (λ l. l ≡ touch_line (words_of line.now)) }
{
    let bad = Line::Bad(LineFault::BadLine);
    let Some(key) = first_word(line) else {
        return Ok(bad);
    };
    let Some((exptime, rest)) = next_word(key.rest) else {
        return Ok(bad);
    };
    let Some(noreply) = read_noreply(rest) else {
        return Ok(bad);
    };
    let Some(key) = key_of(alloc, key)? else {
        return Ok(bad);
    };
    let Some(exptime) = signed(exptime) else {
        return Ok(Line::Bad(LineFault::BadNumber));
    };
    Ok(Line::Whole(Request::Touch {
        key,
        exptime,
        noreply,
    }))
}

/// What a `flush_all` line says, by the words behind its name.
fn flush_line(line: &[u8]) -> Line
    ensures { result ≡ flush_line (words_of line.now) }
{
    let Some((word, rest)) = next_word(line) else {
        return Line::Whole(Request::FlushAll {
            delay: 0,
            noreply: false,
        });
    };
    if word == b"noreply".as_slice() {
        return match next_word(rest) {
            None => Line::Whole(Request::FlushAll {
                delay: 0,
                noreply: true,
            }),
            Some(_) => Line::Bad(LineFault::BadLine),
        };
    }
    let Some(noreply) = read_noreply(rest) else {
        return Line::Bad(LineFault::BadLine);
    };
    match signed(word) {
        Some(delay) => Line::Whole(Request::FlushAll { delay, noreply }),
        None => Line::Bad(LineFault::BadNumber),
    }
}

/// What an `incr` or `decr` line says, by the words behind its name.
fn arith_line(alloc: Global, up: bool, line: &[u8]) -> Result<Line, AllocError>
    ensures { IfOk result (λ l. l ≡ arith_line up (words_of line.now)) }
{
    let bad = Line::Bad(LineFault::BadLine);
    let Some(key) = first_word(line) else {
        return Ok(bad);
    };
    let Some((by, rest)) = next_word(key.rest) else {
        return Ok(bad);
    };
    let Some(noreply) = read_noreply(rest) else {
        return Ok(bad);
    };
    let Some(key) = key_of(alloc, key)? else {
        return Ok(bad);
    };
    let Some(by) = number(by, MOST_NUMBER) else {
        return Ok(Line::Bad(LineFault::BadNumber));
    };
    Ok(Line::Whole(Request::Arith {
        up,
        key,
        by,
        noreply,
    }))
}

/// What a `verbosity` line says, by the words behind its name.
fn verbosity_line(line: &[u8]) -> Line
    ensures { result ≡ verbosity_line (words_of line.now) }
{
    let Some((level, rest)) = next_word(line) else {
        return Line::Bad(LineFault::BadLine);
    };
    let Some(noreply) = read_noreply(rest) else {
        return Line::Bad(LineFault::BadLine);
    };
    if number(level, MOST_FLAGS).is_none() {
        return Line::Bad(LineFault::BadNumber);
    }
    Line::Whole(Request::Verbosity { noreply })
}

/// What the line of a command without further words says, by the words behind its name.
fn lone_line(request: Request, line: &[u8]) -> Line
    ensures { result ≡ lone_line request (words_of line.now) }
{
    match next_word(line) {
        None => Line::Whole(request),
        Some(_) => Line::Bad(LineFault::BadLine),
    }
}

/// What the line of a command says, by the words behind its name.
fn command_line(alloc: Global, command: Command, line: &[u8]) -> Result<Line, AllocError>
    ensures { IfOk result (λ l. l ≡ command_line (Some command) (words_of line.now)) }
{
    match command {
        Command::Storage(verb) => storage_line(alloc, verb, line),
        Command::Fetch { numbers } => fetch_line(alloc, numbers, line),
        Command::FetchTouch { numbers } => fetch_touch_line(alloc, numbers, line),
        Command::Delete => delete_line(alloc, line),
        Command::Touch => touch_line(alloc, line),
        Command::FlushAll => Ok(flush_line(line)),
        Command::Arith { up } => arith_line(alloc, up, line),
        Command::Version => Ok(lone_line(Request::ShowVersion, line)),
        Command::Verbosity => Ok(verbosity_line(line)),
        Command::Stats => Ok(lone_line(Request::Stats, line)),
        Command::Quit => Ok(lone_line(Request::Quit, line)),
    }
}

/// What a line says, which comes without its `\n`.
pub fn read_line(alloc: Global, line: &[u8]) -> Result<Line, AllocError>
    ensures { IfOk result (λ l. l ≡ line_says line.now) }
{
    let Some((name, rest)) = next_word(without_return(line)) else {
        return Ok(Line::Bad(LineFault::Unknown));
    };
    match command_of(name) {
        None => Ok(Line::Bad(LineFault::Unknown)),
        Some(command) => command_line(alloc, command, rest),
    }
}
