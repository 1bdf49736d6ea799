//! The names of commands.
ghost use Rattle.std.specs.Prelude.{◌≡◌};
ghost use Rattle.geo_grammar.specs.Commands.{verb_of, found_in, keyed, command_of};

use geo_requests::Verb;

/// What a line's first word asks for.
#[derive(Clone, Copy)]
pub enum Command {
    Storage(Verb),
    Fetch { numbers: bool },
    FetchTouch { numbers: bool },
    Delete,
    Touch,
    Arith { up: bool },
    FlushAll,
    Version,
    Verbosity,
    Stats,
    Quit,
}

/// The storage command of a name, None where it is none.
fn verb_of(name: &[u8]) -> Option<Verb>
    ensures { result ≡ verb_of name.now }
{
    if name == b"set".as_slice() {
        return Some(Verb::Set);
    }
    if name == b"add".as_slice() {
        return Some(Verb::Add);
    }
    if name == b"replace".as_slice() {
        return Some(Verb::Replace);
    }
    if name == b"append".as_slice() {
        return Some(Verb::Append);
    }
    if name == b"prepend".as_slice() {
        return Some(Verb::Prepend);
    }
    if name == b"cas".as_slice() {
        return Some(Verb::Cas);
    }
    None
}

/// The command of a name that names keys and stores no data, None where it is none.
fn keyed_of(name: &[u8]) -> Option<Command>
    ensures { result ≡ found_in keyed name.now }
{
    if name == b"get".as_slice() {
        return Some(Command::Fetch { numbers: false });
    }
    if name == b"gets".as_slice() {
        return Some(Command::Fetch { numbers: true });
    }
    if name == b"gat".as_slice() {
        return Some(Command::FetchTouch { numbers: false });
    }
    if name == b"gats".as_slice() {
        return Some(Command::FetchTouch { numbers: true });
    }
    if name == b"delete".as_slice() {
        return Some(Command::Delete);
    }
    if name == b"touch".as_slice() {
        return Some(Command::Touch);
    }
    if name == b"incr".as_slice() {
        return Some(Command::Arith { up: true });
    }
    if name == b"decr".as_slice() {
        return Some(Command::Arith { up: false });
    }
    None
}

/// The command of a name, None where it is none. Names are in lower case.
pub fn command_of(name: &[u8]) -> Option<Command>
    ensures { result ≡ command_of name.now }
{
    if let Some(command) = keyed_of(name) {
        return Some(command);
    }
    if name == b"flush_all".as_slice() {
        return Some(Command::FlushAll);
    }
    if name == b"version".as_slice() {
        return Some(Command::Version);
    }
    if name == b"verbosity".as_slice() {
        return Some(Command::Verbosity);
    }
    if name == b"stats".as_slice() {
        return Some(Command::Stats);
    }
    if name == b"quit".as_slice() {
        return Some(Command::Quit);
    }
    match verb_of(name) {
        Some(verb) => Some(Command::Storage(verb)),
        None => None,
    }
}
