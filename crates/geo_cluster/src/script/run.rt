//! A script from its first byte to its last.
ghost use Rattle.std.specs.Prelude.{◌≡◌, ℕ, ◌+◌, ◌^◌, ◌<◌, ◌≤◌, [], ◌∷◌, ◌++◌, length, take, vec_len, vec_capacity, false, true, Err, IfErr, IfOk, IfSome, OnErr, OnOk, IsOk, IsTrue, ◌⊎◌};
ghost use Rattle.std.specs.Io.KnownBytes.{Appends};
ghost use Rattle.geo_cluster.specs.Lines.{ended_in, left_in, lines_of};
ghost use Rattle.geo_cluster.specs.Runs.{Performs, Ends, IsOfDevices, NothingBegan};

use crate::script::cluster::Cluster;
use crate::script::fault::ScriptFault;
use crate::script::parse::{carries_text, is_skipped, parse_line};
use crate::script::split::split_at;
use geo_grammar::Device;
use std::alloc::{AllocError, Global};
use std::hash::RandomState;
use std::io::{Read, Write};
use std::mem;

/// After so many reads an input that hasn't ended is given up.
const MOST_READS: u64 = 1 << 48;

/// How many bytes a read asks for.
const PIECE: usize = 16_384;

/// How many bytes of output are collected before they are written.
const BATCH: usize = 65_536;

fn piece_buffer(alloc: Global) -> Result<Vec<u8>, AllocError>
    ensures { IfOk result (λ v. vec_len v ≡ PIECE) }
{
    vec![in alloc; 0u8; PIECE]
}

/// A script that is being read.
#[derive(Drop)]
struct Run {
    cluster: Cluster,
    /// The bytes behind the last line end. There is room for two reads, and before each read for one more.
    unfinished: Vec<u8>,
    /// How many lines have ended.
    lines: u64,
    /// What was printed and isn't written yet.
    out: Vec<u8>,
}

impl Run {
    ghost use Rattle.geo_cluster.specs.Progress.{Progress};
    ghost use Rattle.geo_cluster.specs.Standing.{Stands};
    ghost use Rattle.geo_cluster.specs.Runs.{PlaysOn, EndsAtLine, IsFresh, HasRoom, Advances, Stops, IsOfWriter, IsOfDevices};
    ghost use Rattle.geo_cluster.specs.Sayings.{skips};
    ghost use Rattle.geo_cluster.specs.Wants.{has_text};

    fn new(alloc: Global, hasher: RandomState) -> Result<Run, AllocError>
        ensures { IfOk result (λ run. IsFresh run) }
    {
        Ok(Run {
            cluster: Cluster::new(alloc, hasher),
            unfinished: Vec::with_capacity(alloc, 2 * PIECE)?,
            lines: 0,
            out: Vec::new(alloc),
        })
    }

    /// Writes what was printed and waits. After a failed write nothing waits any more.
    fn flush<W: Write>(&mut self, alloc: Global, writer: &mut Device<W>) -> Result<(), ScriptFault>
        ensures ok { OnOk result (Appends (W.contents writer.old.inner) (W.contents writer.new.inner) self.old.out.items) }
        ensures err { IfErr result (λ e. (e ≡ ScriptFault.Write)
            × ((n : ℕ) × Appends (W.contents writer.old.inner) (W.contents writer.new.inner) (take n self.old.out.items))) }
        ensures failed { OnErr result (IsTrue writer.new.failed) }
        ensures stays { IsTrue writer.old.failed → IsTrue writer.new.failed }
        ensures empty { self.new.out.items ≡ [] }
        ensures nothing { self.old.out.items ≡ [] → IsOk result × (writer.new ≡ writer.old) }
        ensures rest { self.new ≡ record self.old { out = self.new.out } }
    {
        let out = mem::replace(&mut self.out, Vec::new(alloc));
        write_all(writer, out.as_slice())
    }

    /// What ends the run where memory was refused for the text of a line, which may be a bad line all the same.
    fn unread(&self, line: &[u8]) -> ScriptFault
        requires skipped { skips line.now ≡ false }
        requires text { has_text line.now ≡ true }
        ensures ends { (p : Progress) → Stands p self.now.cluster → EndsAtLine result p line.now self.now.lines }
        ensures failed { IsOfWriter result false }
    {
        if carries_text(line, self.cluster.sites()) {
            ScriptFault::Memory
        } else {
            ScriptFault::BadLine(self.lines)
        }
    }

    /// Carries out a line that has come whole, and is counted already.
    fn play_line(&mut self, alloc: Global, line: &[u8]) -> Result<(), ScriptFault>
        ensures ok { OnOk result ((p : Progress) → Stands p self.old.cluster
            → PlaysOn p line.now self.old.out.items self.new.out.items self.new.cluster) }
        ensures err { IfErr result (λ e. (self.new.out.items ≡ self.old.out.items)
            × ((p : Progress) → Stands p self.old.cluster → EndsAtLine e p line.now self.old.lines)) }
        ensures failed { IfErr result (λ e. IsOfWriter e false) }
        ensures rest { (self.new.lines ≡ self.old.lines) × (self.new.unfinished ≡ self.old.unfinished) }
    {
        if is_skipped(line) {
            return Ok(());
        }
        let line = match parse_line(alloc, line) {
            Ok(Some(line)) => line,
            Ok(None) => return Err(ScriptFault::BadLine(self.lines)),
            Err(_) => return Err(self.unread(line)),
        };
        let Some(text) = self.cluster.carry_out(alloc, line)? else {
            return Err(ScriptFault::BadLine(self.lines));
        };
        if self.out.is_empty() {
            self.out = text;
            return Ok(());
        }
        self.out.extend_from_slice(text.as_slice())?;
        Ok(())
    }

    /// Ends the unfinished line by what stands before a line end, and carries it out.
    fn end_line<W: Write>(
        &mut self,
        alloc: Global,
        writer: &mut Device<W>,
        front: &[u8],
    ) -> Result<(), ScriptFault>
        requires lines { self.old.lines + 1 < 2 ^ 64 }
        requires room { vec_len self.old.unfinished + length front.now ≤ vec_capacity self.old.unfinished }
        ensures ok { OnOk result
            (Advances self.old self.new ((self.old.unfinished.items ++ front.now) ∷ []) (W.contents writer.old.inner)
            (W.contents writer.new.inner)) }
        ensures err { IfErr result
            (λ e. Stops e self.old ((self.old.unfinished.items ++ front.now) ∷ []) (W.contents writer.old.inner)
            (W.contents writer.new.inner) self.new.out.items) }
        ensures failed { IfErr result (λ e. IsOfWriter e writer.new.failed) }
        ensures ended { OnOk result ((self.new.unfinished.items ≡ []) × (self.new.lines ≡ self.old.lines + 1)) }
        ensures room { OnOk result ((vec_len self.new.unfinished ≡ 0)
            × (vec_capacity self.old.unfinished ≤ vec_capacity self.new.unfinished)) }
    {
        let mut line = mem::replace(&mut self.unfinished, Vec::new(alloc));
        let Ok(()) = line.extend_from_slice(front) else {
            unreachable!();
        };
        self.lines += 1;
        self.play_line(alloc, line.as_slice())?;
        line.clear();
        self.unfinished = line;
        if self.out.len() >= BATCH {
            self.flush(alloc, writer)?;
        }
        Ok(())
    }

    /// Carries out the lines that end in a piece, and keeps what stands behind the last.
    fn take_piece<W: Write>(
        &mut self,
        alloc: Global,
        writer: &mut Device<W>,
        piece: &[u8],
    ) -> Result<(), ScriptFault>
        requires lines { self.old.lines + length piece.now < 2 ^ 64 }
        requires room { vec_len self.old.unfinished + length piece.now ≤ vec_capacity self.old.unfinished }
        ensures ok { OnOk result
            (Advances self.old self.new (ended_in self.old.unfinished.items piece.now) (W.contents writer.old.inner)
            (W.contents writer.new.inner)) }
        ensures err { IfErr result
            (λ e. Stops e self.old (ended_in self.old.unfinished.items piece.now) (W.contents writer.old.inner)
            (W.contents writer.new.inner) self.new.out.items) }
        ensures failed { IfErr result (λ e. IsOfWriter e writer.new.failed) }
        ensures left { OnOk result (self.new.unfinished.items ≡ left_in self.old.unfinished.items piece.now) }
        ensures few { OnOk result (self.new.lines ≤ self.old.lines + length piece.now) }
        ensures room { OnOk result (vec_capacity self.old.unfinished ≤ vec_capacity self.new.unfinished) }
    {
        let mut rest = piece;
        while let Some((front, back)) = split_at(b'\n', rest) {
            self.end_line(alloc, writer, front)?;
            rest = back;
        }
        let Ok(()) = self.unfinished.extend_from_slice(rest) else {
            unreachable!();
        };
        Ok(())
    }

    /// Makes room for another read behind the last line end. That a line is long is all that memory is wanted for.
    fn make_room(&mut self) -> Result<(), ScriptFault>
        requires { HasRoom self.old }
        ensures ok { OnOk result (vec_len self.new.unfinished + PIECE ≤ vec_capacity self.new.unfinished) }
        ensures err { IfErr result (λ e. (e ≡ ScriptFault.Memory) × (PIECE < length self.old.unfinished.items)) }
        ensures room { HasRoom self.new }
        ensures same { self.new.unfinished.items ≡ self.old.unfinished.items }
        ensures rest { self.new ≡ record self.old { unfinished = self.new.unfinished } }
    {
        self.unfinished.reserve(PIECE)?;
        Ok(())
    }

    /// Reads and carries out lines up to the end of the input. What stands behind the last line end is a line too.
    fn read_all<R: Read, W: Write>(
        &mut self,
        alloc: Global,
        reader: &mut Device<R>,
        writer: &mut Device<W>,
        buffer: &mut Vec<u8>,
    ) -> Result<(), ScriptFault>
        requires fresh { IsFresh self.old }
        requires piece { vec_len buffer.old ≡ PIECE }
        ensures ok { OnOk result
            (IfSome (R.remaining reader.old.inner)
            (λ input. Advances self.old self.new (lines_of input) (W.contents writer.old.inner) (W.contents writer.new.inner))) }
        ensures err { IfErr result
            (λ e. IfSome (R.remaining reader.old.inner)
            (λ input. Stops e self.old (lines_of input) (W.contents writer.old.inner) (W.contents writer.new.inner) self.new.out.items)) }
        ensures failed { IfErr result (λ e. IsOfDevices e (R.remaining reader.old.inner) reader.new.failed writer.new.failed) }
        ensures reads { reader.old.failed ≡ false → IsTrue reader.new.failed
            → (result ≡ Err ScriptFault.Read) × (self.new.out.items ≡ []) }
    {
        for _read in 0..MOST_READS {
            let Ok(count) = reader.read(buffer.as_mut_slice()) else {
                return Err(ScriptFault::Read);
            };
            if count == 0 {
                if !self.unfinished.is_empty() {
                    self.end_line(alloc, writer, b"")?;
                }
                return Ok(());
            }
            let (piece, _) = buffer.split_at(count);
            self.take_piece(alloc, writer, piece)?;
            self.flush(alloc, writer)?;
            self.make_room()?;
        }
        Err(ScriptFault::Read)
    }
}

/// Writes all bytes, or a beginning of them where a write fails.
fn write_all<W: Write>(writer: &mut Device<W>, bytes: &[u8]) -> Result<(), ScriptFault>
    ensures ok { OnOk result (Appends (W.contents writer.old.inner) (W.contents writer.new.inner) bytes.now) }
    ensures err { IfErr result (λ e. (e ≡ ScriptFault.Write)
        × ((n : ℕ) × Appends (W.contents writer.old.inner) (W.contents writer.new.inner) (take n bytes.now))) }
    ensures failed { OnErr result (IsTrue writer.new.failed) }
    ensures stays { IsTrue writer.old.failed → IsTrue writer.new.failed }
    ensures nothing { bytes.now ≡ [] → IsOk result × (writer.new ≡ writer.old) }
{
    let mut at = 0;
    while at < bytes.len() {
        let (_, rest) = bytes.split_at(at);
        match writer.write(rest) {
            Ok(count) => at += count,
            Err(_) => return Err(ScriptFault::Write),
        }
    }
    Ok(())
}

/// Runs a script: reads its lines, carries each out before the next is looked at, and writes what they print. A fault ends
/// the run, and what was printed before it is written first. Memory is told to be wanted before the first read, for a line longer
/// than 16,384 bytes, or for a line that can be carried out. The hasher is for the keys of all sites.
///
/// The lines that were carried out are a schedule over the sites that the first of them sets up, and its traces are those of a run: what
/// `run_schedule` promises of replies and of the values in them holds of what is printed.
pub fn run_script<R: Read, W: Write>(
    alloc: Global,
    hasher: RandomState,
    reader: &mut Device<R>,
    writer: &mut Device<W>,
) -> Result<(), ScriptFault>
    ensures ok { OnOk result
        (IfSome (R.remaining reader.old.inner)
        (λ input. Performs (lines_of input) (W.contents writer.old.inner) (W.contents writer.new.inner))) }
    ensures err { IfErr result
        (λ e. NothingBegan e reader.old reader.new writer.old writer.new ⊎ IfSome (R.remaining reader.old.inner)
        (λ input. Ends e (lines_of input) (W.contents writer.old.inner) (W.contents writer.new.inner))) }
    ensures failed { IfErr result (λ e. IsOfDevices e (R.remaining reader.old.inner) reader.new.failed writer.new.failed) }
    ensures reads { reader.old.failed ≡ false → IsTrue reader.new.failed → result ≡ Err ScriptFault.Read }
{
    let mut buffer = piece_buffer(alloc)?;
    let mut run = Run::new(alloc, hasher)?;
    let outcome = run.read_all(alloc, reader, writer, &mut buffer);
    run.flush(alloc, writer)?;
    outcome
}
