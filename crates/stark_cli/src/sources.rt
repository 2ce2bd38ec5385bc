//! Readers and writers that tell whether they have failed.

ghost use Rattle.std.specs.Prelude.{◌≡◌, Some, Bool, true, false};

use crate::streams::{ReadFailed, Sink, Source, WriteFailed};
use std::io::{ErrorKind, Read, Write};

impl Source for &[u8] {
    ghost remaining = { λ s. Some s.now };

    ghost has_failed = { λ _. false };

    fn read(&mut self, buffer: &mut [u8]) -> Result<usize, ReadFailed> {
        match Read::read(self, buffer) {
            Ok(count) => Ok(count),
            Err(_) => unreachable!(),
        }
    }
}

/// Any reader of std. An interrupted read is tried again.
#[derive(Drop)]
pub struct WatchedReader<R> {
    pub inner: R,
    pub failed: bool,
}

impl<R: Read> WatchedReader<R> {
    /// The reader, which has not failed yet.
    pub fn new(inner: R) -> WatchedReader<R>
        ensures inner { result.inner ≡ inner }
        ensures failed { result.failed ≡ false }
    {
        WatchedReader {
            inner,
            failed: false,
        }
    }
}

impl<R: Read> Source for WatchedReader<R> {
    ghost remaining = { λ r. R.remaining r.inner };

    ghost has_failed = { λ r. r.failed };

    fn read(&mut self, buffer: &mut [u8]) -> Result<usize, ReadFailed> {
        for _ in 0..u64::MAX {
            match self.inner.read(buffer) {
                Ok(count) => return Ok(count),
                Err(e) => {
                    if e.kind() != ErrorKind::Interrupted {
                        break;
                    }
                }
            }
        }
        self.failed = true;
        Err(ReadFailed)
    }
}

/// Any writer of std. An interrupted write is tried again; one that takes nothing has failed.
#[derive(Drop)]
pub struct WatchedWriter<W> {
    pub inner: W,
    pub failed: bool,
}

impl<W: Write> WatchedWriter<W> {
    /// The writer, which has not failed yet.
    pub fn new(inner: W) -> WatchedWriter<W>
        ensures inner { result.inner ≡ inner }
        ensures failed { result.failed ≡ false }
    {
        WatchedWriter {
            inner,
            failed: false,
        }
    }
}

impl<W> WatchedWriter<W> {
    /// The writer.
    pub fn into_inner(self) -> W
        ensures { result ≡ self.inner }
    {
        self.inner
    }
}

impl<W: Write> Sink for WatchedWriter<W> {
    ghost contents = { λ w. W.contents w.inner };

    ghost has_failed = { λ w. w.failed };

    fn write(&mut self, bytes: &[u8]) -> Result<usize, WriteFailed> {
        for _ in 0..u64::MAX {
            match self.inner.write(bytes) {
                Ok(0) => break,
                Ok(count) => return Ok(count),
                Err(e) => {
                    if e.kind() != ErrorKind::Interrupted {
                        break;
                    }
                }
            }
        }
        self.failed = true;
        Err(WriteFailed)
    }
}
