//! What is spelled, what a line says, and how a run ends where a device fails.
use geo_cluster::{ScriptFault, ScriptLine, escape, is_skipped, parse_line, run_script, unescape};
use geo_grammar::Device;
use std::alloc::{AllocError, Global};
use std::hash::RandomState;
use std::io::{Error, ErrorKind, Read, Result as IoResult, Write};
use std::test::Fail;

#[test]
fn spells_bytes(rt: HostRuntime) -> Result<(), Fail> {
    let text = escape(rt.alloc(), b"a\r\n\\~\x7f\xff")?;
    assert_eq!(rt; text.as_slice(), b"a\\r\\n\\\\~\\x7f\\xff".as_slice());
    let bytes = unescape(rt.alloc(), b"\\x4A\\x4a\\n")?.ok_or("an escape was not read")?;
    assert_eq!(rt; bytes.as_slice(), b"JJ\n".as_slice());
    Ok(())
}

/// So many letters, then this, then so many letters.
fn among_letters(
    alloc: Global,
    before: usize,
    middle: &[u8],
    behind: usize,
) -> Result<Vec<u8>, AllocError> {
    let mut text = Vec::new(alloc);
    for _letter in 0..before {
        text.push(b'a')?;
    }
    text.extend_from_slice(middle)?;
    for _letter in 0..behind {
        text.push(b'a')?;
    }
    Ok(text)
}

#[test]
fn spells_a_byte_at_each_place(rt: HostRuntime) -> Result<(), Fail> {
    let rows = [("\n", "\\n"), ("\\", "\\\\"), ("\x7f", "\\x7f"), ("~", "~")];
    for (byte, spelled) in rows {
        for before in 0..67usize {
            let bytes = among_letters(rt.alloc(), before, byte.as_bytes(), 66 - before)?;
            let text = among_letters(rt.alloc(), before, spelled.as_bytes(), 66 - before)?;
            let printed = escape(rt.alloc(), bytes.as_slice())?;
            assert_eq!(rt; printed.as_slice(), text.as_slice());
            let read = unescape(rt.alloc(), text.as_slice())?.ok_or("a text was not read")?;
            assert_eq!(rt; read.as_slice(), bytes.as_slice());
        }
    }
    Ok(())
}

#[test]
fn reads_an_escape_at_each_place(rt: HostRuntime) -> Result<(), Fail> {
    for between in 0..67usize {
        let mut text = among_letters(rt.alloc(), 0, b"\\r", between)?;
        let mut bytes = among_letters(rt.alloc(), 0, b"\r", between)?;
        text.extend_from_slice(b"\\xFe")?;
        bytes.push(0xfe)?;
        let read = unescape(rt.alloc(), text.as_slice())?.ok_or("a text was not read")?;
        assert_eq!(rt; read.as_slice(), bytes.as_slice());
        let (half, _) = text.split_at(text.len() - 1);
        assert!(rt; unescape(rt.alloc(), half)?.is_none());
    }
    Ok(())
}

#[test]
fn reads_a_line(rt: HostRuntime) -> Result<(), Fail> {
    assert!(rt; is_skipped(b"# take 2 13"));
    assert!(rt; !is_skipped(b"take 2 13"));
    match parse_line(rt.alloc(), b"take 2 13")? {
        Some(ScriptLine::Take { site, parcel }) => assert_eq!(rt; (site, parcel), (2, 13)),
        _ => panic!(rt; "another line was read"),
    }
    match parse_line(rt.alloc(), b"evict 4 \\x62")? {
        Some(ScriptLine::Evict { site, key }) => {
            assert_eq!(rt; site, 4);
            assert_eq!(rt; key.bytes(), b"b".as_slice());
        }
        _ => panic!(rt; "another line was read"),
    }
    match parse_line(rt.alloc(), b"reap 3 \\x61\xff")? {
        Some(ScriptLine::Reap { site, key }) => {
            assert_eq!(rt; site, 3);
            assert_eq!(rt; key.bytes(), b"a\xff".as_slice());
        }
        _ => panic!(rt; "another line was read"),
    }
    Ok(())
}

#[test]
fn reads_the_options(rt: HostRuntime) -> Result<(), Fail> {
    let rows = [
        ("sites 2", (2, 15, 100_000, 60)),
        ("sites 2 pages 65536", (2, 65_536, 100_000, 60)),
        ("sites 2 pages 16 reap 0", (2, 16, 100_000, 0)),
        ("sites 3 pages 017 max 5 reap 7", (3, 17, 5, 7)),
    ];
    for (text, wanted) in rows {
        match parse_line(rt.alloc(), text.as_bytes())? {
            Some(
                ScriptLine::Sites {
                    count,
                    pages,
                    max,
                    reap,
                },
            ) => assert_eq!(rt; (count, pages, max, reap), wanted, "{text}"),
            _ => panic!(rt; "another line was read"),
        }
    }
    Ok(())
}

/// A reader that gives one piece a read, and fails after them.
#[derive(Drop)]
struct Source {
    pieces: &'static [&'static [u8]],
    given: usize,
}

impl Read for Source {
    fn read(&mut self, buf: &mut [u8]) -> IoResult<usize> {
        if self.given >= self.pieces.len() {
            return Err(Error::from(ErrorKind::Other));
        }
        let piece = self.pieces[self.given];
        if buf.len() < piece.len() {
            return Err(Error::from(ErrorKind::Other));
        }
        self.given += 1;
        let (front, _) = buf.split_at_mut(piece.len());
        front.copy_from_slice(piece);
        Ok(piece.len())
    }
}

/// A writer that takes so many writes, and fails after them.
#[derive(Drop)]
struct Sink {
    taken: Vec<u8>,
    writes: u8,
}

impl Write for Sink {
    fn write(&mut self, buf: &[u8]) -> IoResult<usize> {
        if self.writes == 0 {
            return Err(Error::from(ErrorKind::Other));
        }
        self.writes -= 1;
        self.taken.extend_from_slice(buf)?;
        Ok(buf.len())
    }

    fn flush(&mut self) -> IoResult<()> {
        Ok(())
    }
}

#[test]
fn ends_where_reading_fails(rt: HostRuntime) -> Result<(), Fail> {
    let mut reader = Device::new(Source {
        pieces: &[b"sites 2\n", b"send 1 2\nsend 1", b" 2\nsend"],
        given: 0,
    });
    let mut writer = Device::new(Vec::new(rt.alloc()));
    let outcome = run_script(rt.alloc(), RandomState::new(&rt)?, &mut reader, &mut writer);
    assert_eq!(rt; outcome, Err(ScriptFault::Read));
    assert!(rt; reader.failed());
    assert_eq!(rt;
        writer.into_inner().as_slice(),
        b"parcel 0\nparcel 1\n".as_slice()
    );
    Ok(())
}

#[test]
fn carries_out_a_line_that_two_reads_bring(rt: HostRuntime) -> Result<(), Fail> {
    for before in 16_364..16_386usize {
        let mut script = among_letters(rt.alloc(), 0, b"sites 2\n#", before)?;
        script.extend_from_slice(b"\nsend 1 2\nsend 2 1")?;
        let mut reader = Device::new(script.as_slice());
        let mut writer = Device::new(Vec::new(rt.alloc()));
        let outcome = run_script(rt.alloc(), RandomState::new(&rt)?, &mut reader, &mut writer);
        assert_eq!(rt; outcome, Ok(()));
        assert_eq!(rt;
            writer.into_inner().as_slice(),
            b"parcel 0\nparcel 1\n".as_slice()
        );
    }
    Ok(())
}

#[test]
fn ends_where_writing_fails(rt: HostRuntime) -> Result<(), Fail> {
    let mut reader = Device::new(Source {
        pieces: &[b"sites 2\nsend 1 2\n", b"send 1 2\n", b"send 1 2\n"],
        given: 0,
    });
    let mut writer = Device::new(Sink {
        taken: Vec::new(rt.alloc()),
        writes: 1,
    });
    let outcome = run_script(rt.alloc(), RandomState::new(&rt)?, &mut reader, &mut writer);
    assert_eq!(rt; outcome, Err(ScriptFault::Write));
    assert!(rt; !reader.failed());
    assert!(rt; writer.failed());
    let Sink { taken, writes: _ } = writer.into_inner();
    assert_eq!(rt; taken.as_slice(), b"parcel 0\n".as_slice());
    Ok(())
}
