//! The escapes in which a script writes bytes that can't stand for themselves.
ghost use Rattle.std.specs.Prelude.{◌≡◌, ◌<◌, ◌≤◌, ◌++◌, length, take, drop, true, None, IfOk, IfSome, OnOk, MatchOption};
ghost use Rattle.std.specs.List.{list_all};
ghost use Rattle.std.specs.Option.{option_map};
ghost use Rattle.std.specs.Char.{digit_value};
ghost use Rattle.geo_records.specs.Keys.{is_key_byte};
ghost use Rattle.geo_cluster.specs.Escapes.{escaped, escaped_byte, unescaped, unescaped_from, spelling_of, hex_digit, transition, behind, is_plain, is_no_backslash, IsSmall, LeadsToSmall};

use memchr::memchr;
use std::alloc::{AllocError, Global};

/// How many bytes are looked at together.
const BLOCK: usize = 32;

/// Where in a text its reader stands: between two bytes, behind a backslash, behind `\x`, or behind `\x` and a digit.
#[derive(Clone, Copy)]
enum Spot {
    Between,
    Backslash,
    Hex,
    HexDigit(u8),
}

/// What a byte does at a spot: it ends the spelling of a byte, leads on, or can't stand there.
enum Transition {
    Gives(u8),
    Leads(Spot),
    Fails,
}

/// The lower-case digit that writes a number below 16.
pub(crate) fn hex_letter(n: u8) -> u8
    requires { n < 16 }
    ensures { result ≡ hex_digit n }
{
    if n < 10 { b'0' + n } else { b'a' + (n - 10) }
}

/// Appends one byte as it is printed.
fn push_escaped(out: &mut Vec<u8>, byte: u8) -> Result<(), AllocError>
    ensures { OnOk result (out.new.items ≡ out.old.items ++ escaped_byte byte) }
{
    match byte {
        b'\\' => out.extend_from_slice(b"\\\\"),
        b'\r' => out.extend_from_slice(b"\\r"),
        b'\n' => out.extend_from_slice(b"\\n"),
        b' '..=b'~' => {
            out.push(byte)?;
            Ok(())
        }
        _ => {
            let digits = [b'\\', b'x', hex_letter(byte / 16), hex_letter(byte % 16)];
            out.extend_from_slice(&digits)
        }
    }
}

/// Whether all bytes of a block are printed as they are. Each is looked at, whatever the others are: so many are looked at together.
fn is_plain_block(block: &[u8]) -> bool
    ensures { result ≡ list_all is_plain block.now }
{
    let mut plain = true;
    for byte in block {
        let this = *byte >= b' ' && *byte <= b'~' && *byte != b'\\';
        plain = plain & this;
    }
    plain
}

/// How many bytes, by whole blocks, stand at the front that are printed as they are.
fn plain_front(bytes: &[u8]) -> usize
    ensures within { result ≤ length bytes.now }
    ensures plain { list_all is_plain (take result bytes.now) ≡ true }
{
    let mut count = 0;
    while bytes.len() - count >= BLOCK {
        let (_, rest) = bytes.split_at(count);
        let (block, _) = rest.split_at(BLOCK);
        if !is_plain_block(block) {
            return count;
        }
        count += BLOCK;
    }
    count
}

/// Appends the blocks at the front that are printed as they are. How many bytes they have.
fn push_plain(out: &mut Vec<u8>, bytes: &[u8]) -> Result<usize, AllocError>
    ensures within { IfOk result (λ n. n ≤ length bytes.now) }
    ensures text { IfOk result (λ n. out.new.items ++ escaped (drop n bytes.now) ≡ out.old.items ++ escaped bytes.now) }
{
    let count = plain_front(bytes);
    let (front, _) = bytes.split_at(count);
    out.extend_from_slice(front)?;
    Ok(count)
}

/// Appends bytes as they are printed, one by one.
fn push_each(out: &mut Vec<u8>, bytes: &[u8]) -> Result<(), AllocError>
    ensures { OnOk result (out.new.items ≡ out.old.items ++ escaped bytes.now) }
{
    for byte in bytes {
        push_escaped(out, *byte)?;
    }
    Ok(())
}

/// Appends bytes as they are printed: blocks that are printed as they are at once, and others byte by byte.
pub(crate) fn push_all_escaped(out: &mut Vec<u8>, bytes: &[u8]) -> Result<(), AllocError>
    ensures { OnOk result (out.new.items ≡ out.old.items ++ escaped bytes.now) }
{
    let mut rest = bytes;
    while !rest.is_empty() {
        let count = push_plain(out, rest)?;
        let (_, mixed) = rest.split_at(count);
        let (block, behind) = mixed.split_at(mixed.len().min(BLOCK));
        push_each(out, block)?;
        rest = behind;
    }
    Ok(())
}

/// Bytes as they are printed: `\r`, `\n` and `\\` for these three, `\xhh` in lower case for what is no printable ASCII, and
/// the other bytes as they are.
pub fn escape(alloc: Global, bytes: &[u8]) -> Result<Vec<u8>, AllocError>
    ensures text { IfOk result (λ text. text.items ≡ escaped bytes.now) }
    ensures back { IfOk result (λ text. unescaped text.items ≡ Some bytes.now) }
{
    let mut out = Vec::with_capacity(alloc, bytes.len())?;
    push_all_escaped(&mut out, bytes)?;
    Ok(out)
}

/// The value of a hexadecimal digit, in either case.
fn hex_value(byte: u8) -> Option<u8>
    ensures { MatchOption result (16 ≤ digit_value byte) (λ n. (n ≡ digit_value byte) × (n < 16)) }
{
    let value = (byte as char).to_digit(16)?;
    Some(value as u8)
}

fn transition_of(spot: Spot, byte: u8) -> Transition
    requires { IsSmall spot }
    ensures transition { result ≡ transition spot byte }
    ensures small { LeadsToSmall result }
{
    match spot {
        Spot::Between => {
            if byte == b'\\' {
                Transition::Leads(Spot::Backslash)
            } else {
                Transition::Gives(byte)
            }
        }
        Spot::Backslash => match byte {
            b'\\' => Transition::Gives(b'\\'),
            b'r' => Transition::Gives(b'\r'),
            b'n' => Transition::Gives(b'\n'),
            b'x' => Transition::Leads(Spot::Hex),
            _ => Transition::Fails,
        },
        Spot::Hex => match hex_value(byte) {
            Some(high) => Transition::Leads(Spot::HexDigit(high)),
            None => Transition::Fails,
        },
        Spot::HexDigit(high) => match hex_value(byte) {
            Some(low) => Transition::Gives(16 * high + low),
            None => Transition::Fails,
        },
    }
}

/// How many bytes stand before the first backslash.
fn before_backslash(text: &[u8]) -> usize
    ensures within { result ≤ length text.now }
    ensures none { list_all is_no_backslash (take result text.now) ≡ true }
{
    match memchr(b'\\', text) {
        Some(at) => at,
        None => text.len(),
    }
}

/// Appends the bytes up to the next backslash, where the reader of a text stands between two bytes. Where it then stands in the text.
fn push_unspelled(
    bytes: &mut Vec<u8>,
    spot: Spot,
    text: &[u8],
    at: usize,
) -> Result<usize, AllocError>
    requires { at ≤ length text.now }
    ensures within { IfOk result (λ n. (at ≤ n) × (n ≤ length text.now)) }
    ensures same { IfOk result (λ n. behind bytes.new.items (unescaped_from spot (drop n text.now))
        ≡ behind bytes.old.items (unescaped_from spot (drop at text.now))) }
{
    let Spot::Between = spot else {
        return Ok(at);
    };
    let (_, rest) = text.split_at(at);
    let count = before_backslash(rest);
    let (front, _) = rest.split_at(count);
    bytes.extend_from_slice(front)?;
    Ok(at + count)
}

/// Reads the bytes of a text from one place up to another, one by one. None where one of them can't stand there.
fn read_each(
    bytes: &mut Vec<u8>,
    start: Spot,
    text: &[u8],
    from: usize,
    to: usize,
) -> Result<Option<Spot>, AllocError>
    requires range { (from ≤ to) × (to ≤ length text.now) }
    requires small { IsSmall start }
    ensures small { IfOk result (λ o. IfSome o (λ s. IsSmall s)) }
    ensures same { IfOk result (λ o. MatchOption o (behind bytes.old.items (unescaped_from start (drop from text.now)) ≡ None)
        (λ s. behind bytes.new.items (unescaped_from s (drop to text.now))
        ≡ behind bytes.old.items (unescaped_from start (drop from text.now)))) }
{
    let mut spot = start;
    for at in from..to {
        match transition_of(spot, text[at]) {
            Transition::Gives(given) => {
                bytes.push(given)?;
                spot = Spot::Between;
            }
            Transition::Leads(next) => spot = next,
            Transition::Fails => return Ok(None),
        }
    }
    Ok(Some(spot))
}

/// The bytes that a text spells, None where a backslash doesn't begin one of the four escapes. Hexadecimal digits are read
/// in either case, and every other byte stands for itself.
pub fn unescape(alloc: Global, text: &[u8]) -> Result<Option<Vec<u8>>, AllocError>
    ensures { IfOk result (λ o. option_map (λ v. v.items) o ≡ unescaped text.now) }
{
    let mut bytes = Vec::new(alloc);
    let mut spot = Spot::Between;
    let mut at = 0;
    while at < text.len() {
        let from = push_unspelled(&mut bytes, spot, text, at)?;
        let to = from + (text.len() - from).min(BLOCK);
        let Some(next) = read_each(&mut bytes, spot, text, from, to)? else {
            return Ok(None);
        };
        spot = next;
        at = to;
    }
    match spot {
        Spot::Between => Ok(Some(bytes)),
        _ => Ok(None),
    }
}

/// Whether a byte may stand in a key.
fn may_stand(byte: u8) -> bool
    ensures { result ≡ is_key_byte byte }
{
    byte >= 33 && byte != 127
}

/// How many bytes a text spells, and whether all of them may stand in a key. None where it spells none. It takes no memory.
pub fn spelling(text: &[u8]) -> Option<(usize, bool)>
    ensures { result ≡ spelling_of text.now }
{
    let (mut count, mut stand) = (0usize, true);
    let mut spot = Spot::Between;
    for byte in text {
        match transition_of(spot, *byte) {
            Transition::Gives(given) => {
                count += 1;
                stand = stand && may_stand(given);
                spot = Spot::Between;
            }
            Transition::Leads(next) => spot = next,
            Transition::Fails => return None,
        }
    }
    match spot {
        Spot::Between => Some((count, stand)),
        _ => None,
    }
}
