//! Bytes that are read from the front.
ghost use Rattle.std.specs.Prelude.{◌≡◌, length};
ghost use Rattle.stark_proof_bytes.specs.Bytes.{Takes, byte_reading, bytes_reading, count_reading, flag_reading, number_reading, prefix_reading};

use crate::fault::BytesFault;
use std::marker::Model;

/// The bytes that are left to read.
#[derive(Debug, Drop)]
pub struct ByteReader<'a> {
    bytes: &'a [u8],
}

impl<'a> Model for ByteReader<'a> {
    ghost use Rattle.std.specs.Prelude.{List, ℕ};

    ghost Value = { List ℕ };

    ghost view = { λ r. r.bytes.now };
}

impl<'a> ByteReader<'a> {
    /// A reader of all these bytes.
    pub fn new(bytes: &'a [u8]) -> ByteReader<'a>
        ensures { result ≡ bytes.now }
    {
        ByteReader { bytes }
    }

    /// How many bytes are left.
    pub fn len(&self) -> usize
        ensures { result ≡ length self.now }
    {
        self.bytes.len()
    }

    /// The next `N` bytes; `Truncated` where fewer are left.
    pub fn next_bytes<const N: usize>(&mut self) -> Result<[u8; N], BytesFault>
        ensures { Takes (λ x. x) result self.new (bytes_reading N self.old) }
    {
        let Some((front, rest)) = self.bytes.split_first_chunk::<N>() else {
            return Err(BytesFault::Truncated);
        };
        self.bytes = rest;
        Ok(*front)
    }

    /// Passes bytes that have to come next; `Magic` where others do.
    pub fn next_prefix(&mut self, prefix: &[u8]) -> Result<(), BytesFault>
        ensures { Takes (λ x. x) result self.new (prefix_reading prefix.now self.old) }
    {
        if !self.bytes.starts_with(prefix) {
            return Err(BytesFault::Magic);
        }
        self.bytes = &self.bytes[prefix.len()..];
        Ok(())
    }

    /// The next byte; `Truncated` where none is left.
    pub fn next_byte(&mut self) -> Result<u8, BytesFault>
        ensures { Takes (λ x. x) result self.new (byte_reading self.old) }
    {
        let Some((byte, rest)) = self.bytes.split_first() else {
            return Err(BytesFault::Truncated);
        };
        self.bytes = rest;
        Ok(*byte)
    }

    /// Whether the next byte is 1: `Truncated` where none is left, `OutOfRange` where it is neither
    /// 0 nor 1.
    pub fn next_flag(&mut self) -> Result<bool, BytesFault>
        ensures { Takes (λ x. x) result self.new (flag_reading self.old) }
    {
        let Some((tag, rest)) = self.bytes.split_first() else {
            return Err(BytesFault::Truncated);
        };
        self.bytes = rest;
        match *tag {
            0 => Ok(false),
            1 => Ok(true),
            _ => Err(BytesFault::OutOfRange),
        }
    }

    /// The number of the next 8 bytes, the high one first; `Truncated` where fewer are left.
    pub fn next_number(&mut self) -> Result<usize, BytesFault>
        ensures { Takes (λ x. x) result self.new (number_reading self.old) }
    {
        let bytes = self.next_bytes::<8>()?;
        Ok(u64::from_be_bytes(bytes) as usize)
    }

    /// How many members a list has, each of one byte at least: `Truncated` where fewer than 8 bytes
    /// are left, and `TooLong` where fewer than this many are left behind them.
    pub fn next_count(&mut self) -> Result<usize, BytesFault>
        ensures { Takes (λ x. x) result self.new (count_reading self.old) }
    {
        let count = self.next_number()?;
        if count > self.len() {
            return Err(BytesFault::TooLong);
        }
        Ok(count)
    }
}
