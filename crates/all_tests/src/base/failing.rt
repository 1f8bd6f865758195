//! Sources and sinks in memory, and over a reader and a writer that fail: what no contract of std's tells.

use crate::rows::expect;
use std::alloc::Global;
use std::io;
use std::io::{ErrorKind, Read, Write};
use wb_text::{
    Failed, MemSink, MemSource, ReadFault, ReadSource, Sink, Source, WriteSink, give_all,
    read_up_to,
};

/// Are these the bytes that are read next, at most `limit` of them?
fn reads<S: Source>(alloc: Global, source: &mut S, limit: usize, expected: &[u8]) -> bool {
    match read_up_to(alloc, source, limit) {
        Ok(bytes) => bytes.as_slice() == expected,
        Err(_) => false,
    }
}

/// Is the source found to have failed?
fn fails<S: Source>(alloc: Global, source: &mut S) -> bool {
    matches!(read_up_to(alloc, source, 1), Err(ReadFault::Failed))
}

/// Is a source in memory read in parts, up to its end?
fn is_read_in_parts(alloc: Global) -> bool {
    let mut source = MemSource::new(b"abcde", false);
    let mut three = [0u8; 3];
    source.take(&mut three) == Ok(3)
        && three == *b"abc"
        && reads(alloc, &mut source, 9, b"de")
        && source.take(&mut three) == Ok(0)
}

/// Does a source in memory fail at its end?
fn fails_at_its_end(alloc: Global) -> bool {
    let mut source = MemSource::new(b"abc", true);
    let mut three = [0u8; 3];
    reads(alloc, &mut source, 3, b"abc")
        && source.take(&mut three) == Err(Failed)
        && fails(alloc, &mut source)
}

/// Is a reader read, up to a limit?
fn is_read_up_to_two(alloc: Global) -> bool {
    let mut source = ReadSource::new(b"xyz".as_slice());
    reads(alloc, &mut source, 2, b"xy")
}

/// Bytes that are given, and what is answered.
type Answer = (&'static [u8], Result<usize, Failed>);

/// Does the sink answer so, one after the other?
fn answers<S: Sink>(sink: &mut S, rows: &[Answer]) -> bool {
    for (bytes, expected) in rows {
        if sink.give(bytes) != *expected {
            return false;
        }
    }
    true
}

const UNTIL_FULL: &[Answer] = &[(b"de", Ok(1)), (b"", Ok(0)), (b"e", Err(Failed))];

/// Does a sink for four bytes take four, and no fifth?
fn takes_four(alloc: Global) -> bool {
    match MemSink::new(alloc, 4) {
        Ok(mut sink) => {
            give_all(&mut sink, b"abc").is_ok()
                && answers(&mut sink, UNTIL_FULL)
                && sink.bytes() == b"abcd".as_slice()
        }
        Err(_) => false,
    }
}

/// Does a sink over a writer take bytes, and flush it?
fn takes_and_flushes(alloc: Global) -> bool {
    let mut sink = WriteSink::new(Vec::new(alloc));
    give_all(&mut sink, b"abc").is_ok() && sink.flush().is_ok()
}

/// A reader or a writer of which some calls fail so: those whose bits are set, from the second bit on. It moves so many bytes a call at most,
/// and counts its calls.
#[derive(Drop)]
struct Flaky<T> {
    inner: T,
    most: usize,
    failing: u32,
    kind: ErrorKind,
    calls: u32,
}

/// Each other call is interrupted, the first one, too.
fn interrupted<T>(inner: T) -> Flaky<T> {
    Flaky {
        inner,
        most: 64,
        failing: 0xaaaa_aaaa,
        kind: ErrorKind::Interrupted,
        calls: 0,
    }
}

/// The second call fails, and each moves one byte.
fn failing<T>(inner: T) -> Flaky<T> {
    Flaky {
        inner,
        most: 1,
        failing: 0b100,
        kind: ErrorKind::Other,
        calls: 0,
    }
}

impl<T> Flaky<T> {
    fn call(&mut self) -> io::Result<()> {
        self.calls = self.calls.saturating_add(1).min(31);
        if (self.failing >> self.calls) % 2 == 1 {
            return Err(io::Error::from(self.kind));
        }
        Ok(())
    }
}

impl<'a> Read for Flaky<&'a [u8]> {
    fn read(&mut self, buf: &mut [u8]) -> io::Result<usize> {
        self.call()?;
        let count = buf.len().min(self.most);
        self.inner.read(&mut buf[..count])
    }
}

impl Write for Flaky<Vec<u8>> {
    fn write(&mut self, buf: &[u8]) -> io::Result<usize> {
        self.call()?;
        let count = buf.len().min(self.most);
        self.inner.write(&buf[..count])
    }

    fn flush(&mut self) -> io::Result<()> {
        self.call()?;
        self.inner.flush()
    }
}

/// Does a sink over an interrupted writer take all bytes?
fn takes_all(alloc: Global) -> bool {
    let mut bytes = interrupted(Vec::new(alloc));
    answers(
        &mut WriteSink::new(&mut bytes),
        &[(b"abc", Ok(3)), (b"de", Ok(2))],
    ) && bytes.inner.as_slice() == b"abcde".as_slice()
}

/// Is a source over an interrupted reader read to its end?
fn reads_all(alloc: Global) -> bool {
    let mut source = ReadSource::new(interrupted(b"xyz".as_slice()));
    reads(alloc, &mut source, 9, b"xyz")
}

/// Does a source ask its reader once for each answer, and fail where the reader does and only there?
fn reads_and_fails_with_its_reader() -> bool {
    let mut reader = failing(b"xx".as_slice());
    let mut source = ReadSource::new(&mut reader);
    let mut two = [0u8; 2];
    source.take(&mut two) == Ok(1)
        && two == *b"x\0"
        && source.take(&mut two) == Err(Failed)
        && source.take(&mut two) == Ok(1)
        && reader.calls == 3
}

/// Does a sink ask its writer once for each answer, and fail where the writer does and only there?
fn writes_and_fails_with_its_writer(alloc: Global) -> bool {
    let mut writer = failing(Vec::new(alloc));
    let answers = answers(
        &mut WriteSink::new(&mut writer),
        &[(b"ab", Ok(1)), (b"bc", Err(Failed)), (b"bc", Ok(1))],
    );
    answers && writer.calls == 3
}

/// Does a sink flush its writer each time, and fail where the writer does and only there?
fn flushes_its_writer(alloc: Global) -> bool {
    let mut writer = failing(Vec::new(alloc));
    let mut sink = WriteSink::new(&mut writer);
    sink.flush().is_ok() && sink.flush().is_err() && sink.flush().is_ok() && writer.calls == 3
}

#[test]
fn sources_and_sinks(rt: HostRuntime) {
    let alloc = rt.alloc();
    expect(&rt, "a source in parts", is_read_in_parts(alloc));
    expect(&rt, "a source that fails", fails_at_its_end(alloc));
    expect(&rt, "a source up to a limit", is_read_up_to_two(alloc));
    expect(&rt, "a sink", takes_four(alloc));
    expect(&rt, "a sink that is flushed", takes_and_flushes(alloc));
    expect(&rt, "an interrupted source", reads_all(alloc));
    expect(&rt, "an interrupted sink", takes_all(alloc));
    expect(
        &rt,
        "a reader that fails",
        reads_and_fails_with_its_reader(),
    );
    let is_as_its_writer = writes_and_fails_with_its_writer(alloc);
    expect(&rt, "a writer that fails", is_as_its_writer);
    expect(&rt, "a flush that fails", flushes_its_writer(alloc));
}
