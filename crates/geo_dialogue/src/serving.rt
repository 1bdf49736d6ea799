//! A session from its first byte to its end.
ghost use Rattle.std.specs.Prelude.{◌≡◌, ◌<◌, ◌≤◌, ◌++◌, [], true, false, vec_len, is_none, IfErr, IfOk, OnOk};
ghost use Rattle.geo_grammar.specs.Protocol.{items_of};
ghost use Rattle.geo_dialogue.specs.Connections.{IsEnd, IsSettled};
ghost use Rattle.geo_dialogue.specs.Sessions.{longest_piece, Ended, Stopped, blames_reader, blames_writer};
ghost use Rattle.geo_dialogue.specs.Batches.{Served, ServedPart};

use crate::backend::Backend;
use crate::end::SessionEnd;
use crate::fault::SessionFault;
use crate::gate::Gate;
use crate::output::send_owed;
use crate::session::Session;
use geo_grammar::Device;
use std::alloc::{AllocError, Global};
use std::io::{Read, Write};
use std::rt::Clock;
use std::sync::Wait;

/// After so many reads an input that hasn't ended is given up.
const MOST_READS: u64 = 1 << 48;

/// How many bytes the first read asks for.
const FIRST_PIECE: usize = 16_384;

/// How many bytes a read asks for at most.
const LONGEST_PIECE: usize = 262_144;

fn read_buffer(alloc: Global, size: usize) -> Result<Vec<u8>, AllocError>
    ensures { IfOk result (λ v. vec_len v ≡ size) }
{
    vec![in alloc; 0u8; size]
}

/// The buffer for the next read: twice as long where the last read filled it. Where memory is refused it stays.
fn next_buffer(alloc: Global, buffer: Vec<u8>, count: usize) -> Vec<u8>
    requires some { 0 < vec_len buffer }
    requires most { vec_len buffer ≤ longest_piece }
    ensures some { 0 < vec_len result }
    ensures most { vec_len result ≤ longest_piece }
{
    let size = buffer.len();
    if count < size || size > LONGEST_PIECE / 2 {
        return buffer;
    }
    match read_buffer(alloc, size * 2) {
        Ok(longer) => longer,
        Err(_) => buffer,
    }
}

/// Answers what a read brought, and writes the answers together, also those before a fault.
fn serve_piece<R: Wait + Clock, O: Write, B: Backend, G: Gate>(
    rt: &R,
    alloc: Global,
    writer: &mut Device<O>,
    backend: &mut B,
    gate: &G,
    session: &mut Session,
    piece: &[u8],
) -> Result<Option<SessionEnd>, SessionFault>
    requires goes_on { session.old.goes_on ≡ true }
    requires paid { session.old.owed ≡ [] }
    requires settled { IsSettled session.old }
    ensures ok { IfOk result (λ _. Served B.answers piece.now session.old.read backend.old backend.new (O.contents writer.old.inner)
        (O.contents writer.new.inner)) }
    ensures read { OnOk result (session.new.read ≡ session.old.read ++ piece.now) }
    ensures paid { OnOk result (session.new.owed ≡ []) }
    ensures settled { OnOk result (IsSettled session.new) }
    ensures end { IfOk result (λ end. IsEnd (items_of session.new.read) end) }
    ensures goes_on { IfOk result (λ end. session.new.goes_on ≡ is_none end) }
    ensures err { IfErr result (λ fault. ServedPart B.answers B.refuses fault piece.now session.old.read backend.old backend.new
        (O.contents writer.old.inner) (O.contents writer.new.inner)) }
    ensures unread { blames_reader result ≡ false }
    ensures blames { writer.old.failed ≡ false → writer.new.failed ≡ blames_writer result }
{
    let taken = session.take(rt, alloc, backend, gate, piece);
    send_owed(writer, session)?;
    taken
}

/// Serves one client (memcached's protocol.txt): reads requests, has the backend answer them one after the other, and writes
/// the answers, up to the client's `quit`, the end of its input, or a line that is too long. What one read brings is answered
/// by one write where the writer takes it whole; each answer of the backend passes the gate before that. Reader and writer
/// have not failed. A read asks for 16 KiB, and for up to 256 KiB while reads bring all that they ask for; the answers to one read
/// lie in memory, of which a mebibyte at most is kept.
pub fn serve<R: Wait + Clock, I: Read, O: Write, B: Backend, G: Gate>(
    rt: &R,
    alloc: Global,
    reader: &mut Device<I>,
    writer: &mut Device<O>,
    backend: &mut B,
    gate: &G,
) -> Result<SessionEnd, SessionFault>
    ensures ended { IfOk result (λ end. Ended B.answers end backend.old backend.new (I.remaining reader.old.inner) (I.remaining
        reader.new.inner) (O.contents writer.old.inner) (O.contents writer.new.inner)) }
    ensures stopped { IfErr result (λ fault. Stopped B.answers B.refuses fault backend.old backend.new (I.remaining reader.old.inner)
        (I.remaining reader.new.inner) (O.contents writer.old.inner) (O.contents writer.new.inner)) }
    ensures reads { reader.old.failed ≡ false → reader.new.failed ≡ blames_reader result }
    ensures writes { writer.old.failed ≡ false → writer.new.failed ≡ blames_writer result }
{
    let mut session = Session::new(alloc);
    let mut buffer = read_buffer(alloc, FIRST_PIECE)?;
    for _read in 0..MOST_READS {
        let Ok(count) = reader.read(buffer.as_mut_slice()) else {
            return Err(SessionFault::Read);
        };
        if count == 0 {
            return Ok(SessionEnd::EndOfInput);
        }
        let (piece, _) = buffer.split_at(count);
        let taken = serve_piece(rt, alloc, writer, backend, gate, &mut session, piece)?;
        match taken {
            Some(end) => return Ok(end),
            None => buffer = next_buffer(alloc, buffer, count),
        }
    }
    Err(SessionFault::TooManyReads)
}
