//! What a run reads from and writes to.

ghost use Rattle.std.specs.Prelude.{◌≡◌, ◌≤◌, ◌<◌, ℕ, List, Option, Bool, true, false, length, take, IfOk, OnOk, IfSome, IsOk, IsErr, Err};
ghost use Rattle.std.specs.Io.{ReadsAtMost};
ghost use Rattle.std.specs.Io.KnownBytes.{Appends, ReadConsumes, WriteAppends};
ghost use Rattle.stark_cli.specs.Running.{Exchange, both};

use std::alloc::Global;

/// Why the input is not there.
#[derive(Clone, Copy, Debug, PartialEq, Eq)]
pub enum InputFault {
    /// A read failed.
    Failed,
    /// An allocation failed.
    OutOfMemory,
}

/// A read failed.
#[derive(Clone, Copy, Debug, PartialEq, Eq)]
pub struct ReadFailed;

/// A write failed.
#[derive(Clone, Copy, Debug, PartialEq, Eq)]
pub struct WriteFailed;

/// What a run reads from.
pub trait Source {
    /// The bytes that are left, where they are known.
    ghost remaining: { Self → Option (List ℕ) };

    /// Whether a read has failed.
    ghost has_failed: { Self → Bool };

    /// Reads some bytes into the front of the buffer; none where there are no more.
    fn read(&mut self, buffer: &mut [u8]) -> Result<usize, ReadFailed>
        ensures bound { ReadsAtMost result buffer.new }
        ensures bytes { ReadConsumes (remaining self.old) (remaining self.new) result buffer.new }
        ensures err { IsErr result → has_failed self.new ≡ true }
        ensures ok { IsOk result → has_failed self.new ≡ has_failed self.old };
}

/// What a run writes to.
pub trait Sink {
    /// The bytes that it holds, where they are known.
    ghost contents: { Self → Option (List ℕ) };

    /// Whether a write has failed.
    ghost has_failed: { Self → Bool };

    /// Writes some of the bytes, at least one of any.
    fn write(&mut self, bytes: &[u8]) -> Result<usize, WriteFailed>
        requires { 0 < length bytes.now }
        ensures bound { IfOk result (λ n. (0 < n) × (n ≤ length bytes.now)) }
        ensures bytes { WriteAppends (contents self.old) (contents self.new) result bytes.now }
        ensures err { IsErr result → has_failed self.new ≡ true }
        ensures ok { IsOk result → has_failed self.new ≡ has_failed self.old };
}

/// What a run exchanges with a reader and this writer, of their states before and after it. It has
/// no code.
pub trait RunWith<R>: Sink {
    ghost run: { R → Self → Self → Exchange (List ℕ) };
}

impl<R: Source, W: Sink> RunWith<R> for W {
    ghost run = { λ reader old new. record {
      input = R.remaining reader;
      old = W.contents old;
      new = W.contents new;
    } };
}

/// What a run exchanges with two readers and this writer.
pub trait RunWithBoth<S, R>: Sink {
    ghost run: { S → R → Self → Self → Exchange (List ℕ × List ℕ) };
}

impl<S: Source, R: Source, W: Sink> RunWithBoth<S, R> for W {
    ghost run = { λ first second old new. record {
      input = both (S.remaining first) (R.remaining second);
      old = W.contents old;
      new = W.contents new;
    } };
}

/// Reads all there is.
pub fn read_to_end<R: Source>(alloc: Global, reader: &mut R) -> Result<Vec<u8>, InputFault>
    ensures bytes { IfOk result (λ all. IfSome (R.remaining reader.old) (λ bytes. all.items
        ≡ bytes)) }
    ensures failed { result ≡ Err InputFault.Failed → R.has_failed reader.new ≡ true }
    ensures only { R.has_failed reader.new ≡ true → R.has_failed reader.old ≡ false → result
        ≡ Err InputFault.Failed }
{
    let mut all = Vec::new(alloc);
    let mut chunk = [0u8; 4096];
    'chunks: loop {
        match reader.read(&mut chunk) {
            Ok(0) => return Ok(all),
            Ok(count) => {
                if all.extend_from_slice(&chunk[..count]).is_err() {
                    return Err(InputFault::OutOfMemory);
                }
            }
            Err(ReadFailed) => return Err(InputFault::Failed),
        }
    }
}

/// Writes all of the bytes. After an `Err` a front of them is written.
pub fn write_all<W: Sink>(writer: &mut W, bytes: &[u8]) -> Result<(), WriteFailed>
    ensures bytes { OnOk result (Appends (W.contents writer.old) (W.contents writer.new)
        bytes.now) }
    ensures front { (count : ℕ) × Appends (W.contents writer.old) (W.contents writer.new)
        (take count bytes.now) }
    ensures err { IsErr result → W.has_failed writer.new ≡ true }
    ensures ok { IsOk result → W.has_failed writer.new ≡ W.has_failed writer.old }
{
    let mut done = 0;
    'pieces: while done < bytes.len() {
        match writer.write(&bytes[done..]) {
            Ok(count) => done += count,
            Err(fault) => return Err(fault),
        }
    }
    Ok(())
}
