//! A reply that is told piece by piece.
ghost use Rattle.std.specs.Prelude.{◌≡◌, ◌≢◌, ◌++◌, ◌<◌, ◌≤◌, [], true, length, MatchBool, MatchOption, Some, IfSome, IfOk, OnOk, OnErr};
ghost use Rattle.std.specs.Io.{StartsWith};
ghost use Rattle.geo_grammar.specs.Replies.{IsMuch, ShowsMuch, reply_bytes};
ghost use Rattle.geo_grammar.specs.Tellings.{bytes_left, value_left};
ghost use Rattle.geo_requests.specs.declared.reply.Reply.TheVariants.{Closed, Values};

use crate::texts::{push_found, push_line, push_reply};
use geo_requests::{Found, Reply, Shared};
use std::alloc::AllocError;
use std::marker::Model;

/// So many bytes of a value are told at once.
const MOST_TOLD: usize = 65_536;

/// The values of a reply, of which a beginning is told, so that its text need not stand in memory whole. Contracts see the text that
/// is left.
#[derive(Drop)]
pub struct Telling {
    values: Shared<Found>,
    // So many of them are told.
    told: usize,
    // So many bytes of the next one are told; None where its line isn't.
    part: Option<usize>,
}

impl Model for Telling {
    ghost use Rattle.std.specs.Prelude.{List, ℕ, drop};
    ghost use Rattle.geo_grammar.specs.Tellings.{IsBegun, text_left};

    ghost Value = { List ℕ };

    ghost view = { λ t. text_left (drop t.told t.values) t.part };

    ghost invariant = { λ t. IsBegun (drop t.told t.values) t.part };
}

/// Appends the next bytes of a value, of which so many are told, and behind the last what ends it: how many are told then, or None where
/// all are. Where memory is refused a part of them may stand there.
fn tell_bytes(out: &mut Vec<u8>, bytes: &[u8], told: usize) -> Result<Option<usize>, AllocError>
    requires { told ≤ length bytes.now }
    ensures text { IfOk result (λ now. MatchOption now (out.new.items ≡ out.old.items ++ bytes_left bytes.now told)
        (λ more. out.new.items ++ bytes_left bytes.now more ≡ out.old.items ++ bytes_left bytes.now told)) }
    ensures within { IfOk result (λ now. IfSome now (λ more. more ≤ length bytes.now)) }
    ensures grows { OnOk result (length out.old.items < length out.new.items) }
    ensures keeps { StartsWith out.new.items out.old.items }
{
    let (_, left) = bytes.split_at(told);
    if left.len() <= MOST_TOLD {
        out.extend_from_slice(left)?;
        out.extend_from_slice(b"\r\n")?;
        return Ok(None);
    }
    let (piece, _) = left.split_at(MOST_TOLD);
    out.extend_from_slice(piece)?;
    Ok(Some(told + MOST_TOLD))
}

/// Appends the next piece of a value, of which so many bytes are told, or not even its line: how many are told then, or None where all
/// are. Where memory is refused a part of it may stand there.
fn tell_value(
    out: &mut Vec<u8>,
    found: &Found,
    part: Option<usize>,
) -> Result<Option<usize>, AllocError>
    requires { IfSome part (λ told. told ≤ length found.now.bytes) }
    ensures text { IfOk result (λ now. MatchOption now (out.new.items ≡ out.old.items ++ value_left found.now part)
        (λ more. out.new.items ++ value_left found.now (Some more) ≡ out.old.items ++ value_left found.now part)) }
    ensures within { IfOk result (λ now. IfSome now (λ more. more ≤ length found.now.bytes)) }
    ensures grows { OnOk result (length out.old.items < length out.new.items) }
    ensures keeps { StartsWith out.new.items out.old.items }
{
    if let Some(told) = part {
        return tell_bytes(out, found.bytes.as_slice(), told);
    }
    if found.bytes.len() <= MOST_TOLD {
        push_found(out, found)?;
        return Ok(None);
    }
    push_line(out, found)?;
    Ok(Some(0))
}

impl Telling {
    /// These values, of which none is told.
    pub fn of(values: Shared<Found>) -> Telling
        ensures { result ≡ reply_bytes (Values values) }
    {
        Telling {
            values,
            told: 0,
            part: None,
        }
    }

    /// Appends the next piece of the text: a value, or of one of more than 64 KiB its line or as many bytes, or what ends the reply where
    /// all are told. False where it was the end.
    #[tactic(auto, using(crate::proofs::Told::some_to_tell))]
    pub fn tell(&mut self, out: &mut Vec<u8>) -> Result<bool, AllocError>
        ensures told { IfOk result (λ more. MatchBool more (out.new.items ++ self.new ≡ out.old.items ++ self.old)
            (out.new.items ≡ out.old.items ++ self.old)) }
        ensures grows { OnOk result (length out.old.items < length out.new.items) }
        ensures more { IfOk result (λ more. more ≡ true → self.new ≢ []) }
        ensures err { OnErr result ((out.new.items ≡ out.old.items) × (self.new ≡ self.old)) }
    {
        let Some(found) = self.values.as_slice().get(self.told) else {
            out.extend_from_slice(b"END\r\n")?;
            return Ok(false);
        };
        let before = out.len();
        match tell_value(out, found, self.part) {
            Ok(Some(told)) => {
                self.part = Some(told);
                Ok(true)
            }
            Ok(None) => {
                self.told += 1;
                self.part = None;
                Ok(true)
            }
            Err(error) => {
                // A part of the text may stand there.
                out.truncate(before);
                Err(error)
            }
        }
    }
}

/// Whether values are told piece by piece.
fn is_much(values: &[Found]) -> bool
    ensures { MatchBool result (IsMuch values.now) (IsMuch values.now → ⊥) }
{
    match values {
        [] => false,
        [one] => one.bytes.len() > MOST_TOLD,
        _ => true,
    }
}

/// Appends the text of a reply, unless it shows several values or one of more than 64 KiB, which are left to be told.
#[tactic(auto, using(crate::proofs::Told::some_to_tell))]
pub fn begin_reply(out: &mut Vec<u8>, reply: Reply) -> Result<Option<Telling>, AllocError>
    ensures begun { IfOk result (λ telling. MatchOption telling (out.new.items ≡ out.old.items ++ reply_bytes reply)
        (λ left. (out.new.items ≡ out.old.items) × (left ≡ reply_bytes reply))) }
    ensures left { IfOk result (λ telling. IfSome telling (λ left. left ≢ [])) }
    ensures much { IfOk result (λ telling. MatchOption telling (ShowsMuch reply → ⊥) (λ _. ShowsMuch reply)) }
    ensures err { OnErr result (out.new.items ≡ out.old.items) }
    ensures memory { OnErr result ((ShowsMuch reply → ⊥) × (reply ≢ Closed)) }
{
    match reply {
        Reply::Values(values) if is_much(values.as_slice()) => Ok(Some(Telling::of(values))),
        whole => {
            push_reply(out, &whole)?;
            Ok(None)
        }
    }
}
