//! The texts of answers.
ghost use Rattle.std.specs.Prelude.{◌≡◌, ◌≢◌, ◌++◌, false, List, codes, decimal, length, IfOk, OnOk, OnErr};
ghost use Rattle.std.specs.List.{flat_map};
ghost use Rattle.std.specs.Io.{StartsWith};
ghost use Rattle.geo_requests.specs.Requests.{is_noreply};
ghost use Rattle.geo_grammar.specs.Replies.{answer_bytes, reply_bytes, found_bytes, found_line, unique_bytes, stat_bytes, stats_bytes};
ghost use Rattle.geo_requests.specs.declared.reply.Reply.TheVariants.{Closed};

use geo_requests::{Found, Reply, Request, Stats};
use itoa::Buffer;
use std::alloc::{AllocError, Global};

fn push_number(out: &mut Vec<u8>, number: u64) -> Result<(), AllocError>
    ensures text { OnOk result (out.new.items ≡ out.old.items ++ decimal number) }
    ensures keeps { StartsWith out.new.items out.old.items }
{
    let mut buffer = Buffer::new();
    out.extend_from_slice(buffer.format(number).as_bytes())
}

fn push_head(out: &mut Vec<u8>, found: &Found) -> Result<(), AllocError>
    ensures text { OnOk result (out.new.items ≡ out.old.items ++ codes "VALUE " ++ found.now.key ++ codes " "
        ++ decimal found.now.flags ++ codes " " ++ decimal (length found.now.bytes)) }
    ensures keeps { StartsWith out.new.items out.old.items }
{
    out.extend_from_slice(b"VALUE ")?;
    out.extend_from_slice(found.key.bytes())?;
    out.extend_from_slice(b" ")?;
    push_number(out, found.flags as u64)?;
    out.extend_from_slice(b" ")?;
    push_number(out, found.bytes.len() as u64)
}

fn push_unique(out: &mut Vec<u8>, unique: Option<u64>) -> Result<(), AllocError>
    ensures text { OnOk result (out.new.items ≡ out.old.items ++ unique_bytes unique) }
    ensures keeps { StartsWith out.new.items out.old.items }
{
    let Some(number) = unique else {
        return Ok(());
    };
    out.extend_from_slice(b" ")?;
    push_number(out, number)
}

/// Appends the line of one value. Where memory is refused a beginning of it may stand there.
pub(crate) fn push_line(out: &mut Vec<u8>, found: &Found) -> Result<(), AllocError>
    ensures text { OnOk result (out.new.items ≡ out.old.items ++ found_line found.now) }
    ensures keeps { StartsWith out.new.items out.old.items }
{
    push_head(out, found)?;
    push_unique(out, found.unique)?;
    out.extend_from_slice(b"\r\n")
}

/// Appends the text of one value. Where memory is refused a beginning of it may stand there.
pub(crate) fn push_found(out: &mut Vec<u8>, found: &Found) -> Result<(), AllocError>
    ensures text { OnOk result (out.new.items ≡ out.old.items ++ found_bytes found.now) }
    ensures keeps { StartsWith out.new.items out.old.items }
{
    push_line(out, found)?;
    out.extend_from_slice(found.bytes.as_slice())?;
    out.extend_from_slice(b"\r\n")
}

fn push_all(out: &mut Vec<u8>, values: &[Found]) -> Result<(), AllocError>
    ensures text { OnOk result (out.new.items ≡ out.old.items ++ flat_map found_bytes values.now) }
    ensures keeps { StartsWith out.new.items out.old.items }
{
    for found in values {
        push_found(out, found)?;
    }
    Ok(())
}

#[tactic(auto, unfolding(crate::specs::Replies::stat_bytes))]
fn push_stat(out: &mut Vec<u8>, name: &[u8], value: u64) -> Result<(), AllocError>
    ensures text { OnOk result (out.new.items ≡ out.old.items ++ stat_bytes name.now value) }
    ensures keeps { StartsWith out.new.items out.old.items }
{
    out.extend_from_slice(b"STAT ")?;
    out.extend_from_slice(name)?;
    out.extend_from_slice(b" ")?;
    push_number(out, value)?;
    out.extend_from_slice(b"\r\n")
}

fn push_stats(out: &mut Vec<u8>, stats: &Stats) -> Result<(), AllocError>
    ensures text { OnOk result (out.new.items ≡ out.old.items ++ stats_bytes stats.now) }
    ensures keeps { StartsWith out.new.items out.old.items }
{
    push_stat(out, b"curr_items", stats.curr_items)?;
    push_stat(out, b"get_hits", stats.get_hits)?;
    push_stat(out, b"get_misses", stats.get_misses)?;
    push_stat(out, b"evictions", stats.evictions)?;
    push_stat(out, b"site", stats.site)?;
    push_stat(out, b"clock", stats.clock)?;
    push_stat(out, b"records", stats.records)?;
    out.extend_from_slice(b"END\r\n")
}

fn push_text(out: &mut Vec<u8>, reply: &Reply) -> Result<(), AllocError>
    ensures text { OnOk result (out.new.items ≡ out.old.items ++ reply_bytes reply.now) }
    ensures keeps { StartsWith out.new.items out.old.items }
    ensures memory { OnErr result (reply.now ≢ Closed) }
{
    match reply {
        Reply::Stored => out.extend_from_slice(b"STORED\r\n"),
        Reply::NotStored => out.extend_from_slice(b"NOT_STORED\r\n"),
        Reply::Exists => out.extend_from_slice(b"EXISTS\r\n"),
        Reply::NotFound => out.extend_from_slice(b"NOT_FOUND\r\n"),
        Reply::Deleted => out.extend_from_slice(b"DELETED\r\n"),
        Reply::Touched => out.extend_from_slice(b"TOUCHED\r\n"),
        Reply::Done => out.extend_from_slice(b"OK\r\n"),
        Reply::Number(number) => {
            push_number(out, *number)?;
            out.extend_from_slice(b"\r\n")
        }
        Reply::Values(values) => {
            push_all(out, values.as_slice())?;
            out.extend_from_slice(b"END\r\n")
        }
        Reply::Version => out.extend_from_slice(b"VERSION 1.0.0\r\n"),
        Reply::Stats(stats) => push_stats(out, stats),
        Reply::Closed => Ok(()),
        Reply::NotANumber => out.extend_from_slice(
            b"CLIENT_ERROR cannot increment or decrement non-numeric value\r\n",
        ),
        Reply::TooLarge => out.extend_from_slice(b"SERVER_ERROR object too large for cache\r\n"),
        Reply::MapFull => out.extend_from_slice(b"SERVER_ERROR version map full\r\n"),
        Reply::ClockEnded => out.extend_from_slice(b"SERVER_ERROR clock ended\r\n"),
        Reply::OutOfMemory => out.extend_from_slice(b"SERVER_ERROR out of memory\r\n"),
    }
}

/// Appends the text of a reply, whatever it answers.
pub fn push_reply(out: &mut Vec<u8>, reply: &Reply) -> Result<(), AllocError>
    ensures text { OnOk result (out.new.items ≡ out.old.items ++ reply_bytes reply.now) }
    ensures err { OnErr result (out.new.items ≡ out.old.items) }
    ensures memory { OnErr result (reply.now ≢ Closed) }
{
    let before = out.len();
    match push_text(out, reply) {
        Ok(()) => Ok(()),
        Err(error) => {
            // A part of the text may stand there.
            out.truncate(before);
            Err(error)
        }
    }
}

/// Appends the bytes that answer a request by a reply, none where the request wants no answer.
pub fn push_answer(out: &mut Vec<u8>, request: &Request, reply: &Reply) -> Result<(), AllocError>
    ensures text { OnOk result (out.new.items ≡ out.old.items ++ answer_bytes request.now reply.now) }
    ensures err { OnErr result (out.new.items ≡ out.old.items) }
    ensures memory { OnErr result ((is_noreply request.now ≡ false) × (reply.now ≢ Closed)) }
{
    if request.is_noreply() {
        return Ok(());
    }
    push_reply(out, reply)
}

/// The bytes that answer a request by a reply, none where the request wants no answer (memcached's protocol.txt).
pub fn render(alloc: Global, request: &Request, reply: &Reply) -> Result<Vec<u8>, AllocError>
    ensures { IfOk result (λ out. out.items ≡ answer_bytes request.now reply.now) }
{
    let mut out = Vec::new(alloc);
    push_answer(&mut out, request, reply)?;
    Ok(out)
}
