//! A reader that hands over a part of a script only once all before it is answered.

use crate::rows::expect;
use crate::script::calls::ALONE;
use scripts::serve;
use std::alloc::Global;
use std::io;
use std::io::{ErrorKind, Read, Write};
use std::sync::Wait;
use std::sync::atomic::{AtomicU64, Ordering};
use std::thread::Threads;
use wb_text::{ReadSource, WriteSink};

/// The parts of a script, and how many bytes of answers there are before each.
const TURNS: [(&[u8], u64); 5] = [
    (b"0 poll 1\n", 0),
    (b"# a remark\n0 list\n", 19),
    (b"0 claim\n0 close", 23),
    (b"\nwork\n", 31),
    (b"", 49),
];

/// Hands over the parts, one a call, and fails where an answer that is due wasn't written.
#[derive(Drop)]
struct InTurn<'a> {
    next: usize,
    written: &'a AtomicU64,
}

impl Read for InTurn<'_> {
    fn read(&mut self, buf: &mut [u8]) -> io::Result<usize> {
        let Some((part, due)) = TURNS.get(self.next) else {
            return Ok(0);
        };
        if self.written.load(Ordering::SeqCst) != *due || part.len() > buf.len() {
            return Err(io::Error::from(ErrorKind::Other));
        }
        buf[..part.len()].copy_from_slice(part);
        self.next = self.next.saturating_add(1);
        Ok(part.len())
    }
}

/// Counts the bytes that are written.
#[derive(Drop)]
struct Counting<'a> {
    written: &'a AtomicU64,
}

impl Write for Counting<'_> {
    fn write(&mut self, buf: &[u8]) -> io::Result<usize> {
        self.written.fetch_add(buf.len() as u64, Ordering::SeqCst);
        Ok(buf.len())
    }

    fn flush(&mut self) -> io::Result<()> {
        Ok(())
    }
}

/// Whether the script whose parts are handed over so ends well, with so many bytes written.
fn is_served_in_turn<T: Threads + Wait + Sync>(rt: &T, alloc: Global, bytes: u64) -> bool {
    let written = AtomicU64::new(0);
    let mut reader = ReadSource::new(InTurn {
        next: 0,
        written: &written,
    });
    let mut writer = WriteSink::new(Counting { written: &written });
    serve(rt, alloc, &mut reader, &mut writer, &ALONE).is_ok()
        && written.load(Ordering::SeqCst) == bytes
}

#[test]
fn each_answer_before_the_next_line(rt: HostRuntime) {
    let is_served = is_served_in_turn(&rt, rt.alloc(), 61);
    expect(&rt, "each answer before the next line", is_served);
}
