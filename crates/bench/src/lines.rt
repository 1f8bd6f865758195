//! A writer that sends lines.

use std::io;
use std::io::{BufWriter, Write};

/// A writer that holds back what it is given up to the next line end, and then sends it on at once: a line that comes in many parts is sent as one, and
/// whoever waits for it doesn't wait for the next. (std's `LineWriter` sends a line that comes in parts as two.)
#[derive(Drop)]
pub struct Lines<W: Write + Drop> {
    pub buffered: BufWriter<W>,
}

impl<W: Write + Drop> Write for Lines<W> {
    fn write(&mut self, bytes: &[u8]) -> io::Result<usize> {
        let count = self.buffered.write(bytes)?;
        if bytes[..count].ends_with(b"\n") {
            self.buffered.flush()?;
        }
        Ok(count)
    }

    fn flush(&mut self) -> io::Result<()> {
        self.buffered.flush()
    }
}
