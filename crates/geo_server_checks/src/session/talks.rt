//! What clients say and read.
use super::{Idle, Outcome, Ran, Recorder, bare, each, run_by};
use geo_session::{OpenGate, Session, SessionEnd, SessionFault};
use std::alloc::Global;
use std::hash::RandomState;
use std::rt::Clock;
use std::sync::Wait;
use std::sync::atomic::{AtomicU64, Ordering};
use std::test::Fail;

/// What a client says, what it reads, and how its session ends.
#[derive(Drop)]
struct Case {
    input: &'static [u8],
    written: &'static [u8],
    end: SessionEnd,
}

const CASES: [Case; 10] = [
    Case {
        input: b"",
        written: b"",
        end: SessionEnd::EndOfInput,
    },
    Case {
        input: b"set a 0 0 2\r\nh",
        written: b"",
        end: SessionEnd::EndOfInput,
    },
    Case {
        input: b"version\r\nversio",
        written: b"VERSION 1.0.0\r\n",
        end: SessionEnd::EndOfInput,
    },
    Case {
        input: b"version\r\nquit\r\nversion\r\n",
        written: b"VERSION 1.0.0\r\n",
        end: SessionEnd::Quit,
    },
    Case {
        input: b"quit\r\n",
        written: b"",
        end: SessionEnd::Quit,
    },
    Case {
        input: b"quit now\r\nversion\r\nquit\r\n",
        written: b"CLIENT_ERROR bad command line format\r\nVERSION 1.0.0\r\n",
        end: SessionEnd::Quit,
    },
    Case {
        input: b"set a 0 0 2\r\nhi\r\nget a\r\n",
        written: b"STORED\r\nVALUE a 0 2\r\nhi\r\nEND\r\n",
        end: SessionEnd::EndOfInput,
    },
    Case {
        input: b"set a 0 0 2 noreply\r\nhi\r\nget a\r\n",
        written: b"VALUE a 0 2\r\nhi\r\nEND\r\n",
        end: SessionEnd::EndOfInput,
    },
    Case {
        input: b"version\r\nnonsense\r\nset a 0 0 2\r\nhix\r\nincr a z\r\nget a\r\n",
        written: b"VERSION 1.0.0\r\nERROR\r\nCLIENT_ERROR bad data chunk\r\nCLIENT_ERROR invalid numeric argument\r\nEND\r\n",
        end: SessionEnd::EndOfInput,
    },
    Case {
        input: b"set a 0 0 1\r\n5\r\nincr a 2\r\nquit\r\nincr a 2\r\n",
        written: b"STORED\r\n7\r\n",
        end: SessionEnd::Quit,
    },
];

/// What a site answers to a text that comes in pieces of so many bytes, and how many records and items it has then.
fn answered<R: Wait + Clock>(
    rt: &R,
    alloc: Global,
    hasher: RandomState,
    input: &[u8],
    size: usize,
) -> Result<(Ran, usize, usize), Fail> {
    let mut backend = bare(alloc, hasher)?;
    let told = run_by(
        rt,
        alloc,
        input,
        each(size),
        each(size),
        &mut backend,
        &OpenGate,
    );
    let records = backend.site().records();
    Ok((told, records, backend.into_site().items()))
}

#[test]
fn writes_the_same_in_any_pieces(rt: HostRuntime) -> Result<(), Fail> {
    for case in &CASES {
        for size in [1, 7, 100_000] {
            let hasher = RandomState::new(&rt)?;
            let (told, _records, _items) = answered(&rt, rt.alloc(), hasher, case.input, size)?;
            assert!(rt;
                told.ends(case.written, Ok(case.end)),
                "{:?} by {size}",
                case.input
            );
        }
    }
    Ok(())
}

#[test]
fn a_bare_site_can_be_looked_at_and_taken_out(rt: HostRuntime) -> Result<(), Fail> {
    let hasher = RandomState::new(&rt)?;
    let (told, records, items) = answered(&rt, rt.alloc(), hasher, b"set a 0 0 2\r\nhi\r\n", 100)?;
    assert!(rt; told.ends(b"STORED\r\n", Ok(SessionEnd::EndOfInput)) && (records, items) == (1, 1));
    Ok(())
}

/// What a client of a backend that does nothing, and that so many times, is written; how often it may do it then; and the answers
/// that pass the gate, a decimal digit each.
#[derive(Drop)]
struct IdleCase {
    input: &'static [u8],
    calls: u64,
    written: &'static [u8],
    outcome: Outcome,
    left: u64,
    passed: u64,
}

const IDLE_CASES: [IdleCase; 3] = [
    // It ends at `quit`, whatever the backend answers.
    IdleCase {
        input: b"quit\r\nversion\r\n",
        calls: 9,
        written: b"OK\r\n",
        outcome: Ok(SessionEnd::Quit),
        left: 8,
        passed: 1,
    },
    // It ends where the backend is spent.
    IdleCase {
        input: b"version\r\nnonsense\r\nversion\r\nversion\r\nnonsense\r\n",
        calls: 2,
        written: b"OK\r\nERROR\r\nOK\r\n",
        outcome: Err(SessionFault::Spent),
        left: 0,
        passed: 12,
    },
    // Answers of the backend are numbered from 1, also those that aren't written.
    IdleCase {
        input: b"version\r\nnonsense\r\nverbosity 1 noreply\r\nversion\r\nquit\r\nversion\r\n",
        calls: 9,
        written: b"OK\r\nERROR\r\nOK\r\nOK\r\n",
        outcome: Ok(SessionEnd::Quit),
        left: 5,
        passed: 1234,
    },
];

/// Whether a case is so where bytes come in pieces of this size.
fn is_so<R: Wait + Clock>(rt: &R, alloc: Global, case: &IdleCase, size: usize) -> bool {
    let gate = Recorder {
        numbers: AtomicU64::new(0),
    };
    let mut backend = Idle { left: case.calls };
    let told = run_by(
        rt,
        alloc,
        case.input,
        each(size),
        each(size),
        &mut backend,
        &gate,
    );
    let passed = gate.numbers.load(Ordering::SeqCst);
    told.ends(case.written, case.outcome) && (backend.left, passed) == (case.left, case.passed)
}

#[test]
fn passes_and_writes_what_the_backend_answers(rt: HostRuntime) {
    for case in &IDLE_CASES {
        for size in [1, 100] {
            assert!(rt;
                is_so(&rt, rt.alloc(), case, size),
                "{:?} by {size}",
                case.input
            );
        }
    }
}

/// What is written behind a text and 65,537 bytes of one line.
fn written_behind<R: Wait + Clock>(
    rt: &R,
    alloc: Global,
    front: &[u8],
    size: usize,
) -> Result<Ran, Fail> {
    let mut input = Vec::from_slice(alloc, front)?;
    input.extend_from_slice(vec![in alloc; b'x'; 65_537]?.as_slice())?;
    let mut backend = Idle { left: 9 };
    Ok(run_by(
        rt,
        alloc,
        input.as_slice(),
        each(size),
        each(size),
        &mut backend,
        &OpenGate,
    ))
}

#[test]
fn ends_at_a_line_that_is_too_long(rt: HostRuntime) -> Result<(), Fail> {
    let alone = written_behind(&rt, rt.alloc(), b"", 100_000)?;
    assert!(rt;
        alone.ends(
            b"CLIENT_ERROR line too long\r\n",
            Ok(SessionEnd::LineTooLong)
        )
    );
    let behind = written_behind(&rt, rt.alloc(), b"version\r\n", 100)?;
    assert!(rt;
        behind.ends(
            b"OK\r\nCLIENT_ERROR line too long\r\n",
            Ok(SessionEnd::LineTooLong)
        )
    );
    Ok(())
}

/// Whether a session takes a piece by hand, owes these bytes, ends at `quit`, and owes nothing once they are sent.
fn is_carried<R: Wait + Clock>(rt: &R, alloc: Global, session: &mut Session, owed: &[u8]) -> bool {
    if !session.goes_on() || !session.is_settled() {
        return false;
    }
    let mut backend = Idle { left: 9 };
    let end = session.take(
        rt,
        alloc,
        &mut backend,
        &OpenGate,
        b"version\r\nquit\r\nversion\r\n",
    );
    let is_owed = session.owed() == owed;
    let all = session.owed().len();
    session.sent(all);
    end == Ok(Some(SessionEnd::Quit)) && !session.goes_on() && is_owed && session.owed().is_empty()
}

#[test]
fn a_session_can_be_carried_by_hand(rt: HostRuntime) {
    let mut session = Session::new(rt.alloc());
    assert!(rt; is_carried(&rt, rt.alloc(), &mut session, b"OK\r\nOK\r\n"));
}

/// Whether a piece that ends at `quit` waits in a session until that goes on, whose backend answers so often, and what it owes then.
fn is_carried_on<R: Wait + Clock>(
    rt: &R,
    session: &mut Session,
    calls: u64,
    owed: &[u8],
) -> Option<Result<(), SessionFault>> {
    if !session.goes_on() || !session.is_settled() {
        return None;
    }
    let end = session.come(b"version\r\nquit\r\nversion\r\n");
    let waits = !session.is_settled() && session.owed().is_empty();
    let gone = session.go_on(rt, &mut Idle { left: calls }, &OpenGate);
    let is_over = session.is_settled() && !session.goes_on();
    let is_so = end == Ok(Some(SessionEnd::Quit)) && waits && is_over && session.owed() == owed;
    if is_so { Some(gone) } else { None }
}

#[test]
fn what_comes_waits_until_a_session_goes_on(rt: HostRuntime) {
    let mut whole = Session::new(rt.alloc());
    let gone = is_carried_on(&rt, &mut whole, 9, b"OK\r\nOK\r\n");
    assert_eq!(rt; gone, Some(Ok(())));
    let mut spent = Session::new(rt.alloc());
    let gone = is_carried_on(&rt, &mut spent, 1, b"OK\r\n");
    assert_eq!(rt; gone, Some(Err(SessionFault::Spent)));
}
