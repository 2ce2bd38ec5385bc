//! A reader and a writer that take small steps, are interrupted, and fail.
use std::io;
use std::io::{ErrorKind, Read, Write};

/// Gives one byte a read, is interrupted before each, and fails at the read after `reads`.
#[derive(Drop)]
pub(crate) struct FailingReader<'a> {
    pub(crate) bytes: &'a [u8],
    pub(crate) reads: usize,
    pub(crate) interrupted: bool,
}

impl Read for FailingReader<'_> {
    ghost use Rattle.std.specs.Prelude.{Some};

    ghost remaining = { λ r. Some r.bytes.now };

    fn read(&mut self, buffer: &mut [u8]) -> io::Result<usize> {
        self.interrupted = !self.interrupted;
        if self.interrupted {
            return Err(io::Error::from(ErrorKind::Interrupted));
        }
        if self.reads == 0 {
            return Err(io::Error::from(ErrorKind::Other));
        }
        self.reads -= 1;
        if buffer.is_empty() {
            return self.bytes.read(buffer);
        }
        self.bytes.read(&mut buffer[..1])
    }
}

/// Takes one byte a write, or none where it is full, is interrupted before each, and fails at the
/// write after `writes`.
#[derive(Drop)]
pub(crate) struct FailingWriter {
    pub(crate) bytes: Vec<u8>,
    pub(crate) writes: usize,
    pub(crate) full: bool,
    pub(crate) interrupted: bool,
}

impl Write for FailingWriter {
    ghost use Rattle.std.specs.Prelude.{Some};

    ghost contents = { λ w. Some w.bytes.items };

    fn write(&mut self, bytes: &[u8]) -> io::Result<usize> {
        self.interrupted = !self.interrupted;
        if self.interrupted {
            return Err(io::Error::from(ErrorKind::Interrupted));
        }
        if self.writes == 0 {
            return Err(io::Error::from(ErrorKind::Other));
        }
        self.writes -= 1;
        if bytes.is_empty() || self.full {
            return self.bytes.write(&bytes[..0]);
        }
        self.bytes.write(&bytes[..1])
    }

    fn flush(&mut self) -> io::Result<()> {
        self.bytes.flush()
    }
}
