//! Texts that are read as far as their verdict needs.

ghost use Rattle.std.specs.Prelude.{◌≡◌, ◌<◌, ℕ, Bool, List, length, take, IfOk, OnErr};
ghost use Rattle.std.specs.Io.{ReadsAtMost};
ghost use Rattle.std.specs.Io.KnownBytes.{Consumes, IsAtEnd, Keeps};
ghost use Rattle.streams.specs.Beginnings.{IsBeginning, IsPiece};

use std::alloc::Global;
use std::io::{Error, ErrorKind, Read, Result};

/// The most bytes that one call reads.
const PIECE_BYTES: usize = 16384;

/// How far texts of a kind are read.
pub trait Reading {
    /// True if nothing that follows these bytes in a text is needed.
    ghost suffices: { Self → List ℕ → Bool };

    /// Returns true if nothing that follows these bytes in a text is needed.
    fn is_enough(&self, bytes: &[u8]) -> bool
        ensures { result ≡ suffices self.now bytes.now };
}

/// Reads a text to its end, or until what was read is enough. That is asked whenever twice as much
/// was read as before.
pub fn read_beginning<R: Read, T: Reading>(
    alloc: Global,
    reader: &mut R,
    reading: &T,
) -> Result<Vec<u8>>
    ensures { IfOk result
        (λ bytes. IsBeginning (T.suffices reading.now) (R.remaining reader.old) bytes.items) }
{
    let mut buffer = Vec::with_capacity(alloc, PIECE_BYTES)?;
    buffer.resize(PIECE_BYTES, 0)?;
    let mut bytes = Vec::new(alloc);
    let mut next = 0;
    for _ in 0..u64::MAX {
        let count = read_piece(reader, buffer.as_mut_slice(), &mut bytes)?;
        if count == 0 {
            return Ok(bytes);
        }
        if bytes.len() >= next {
            if reading.is_enough(bytes.as_slice()) {
                return Ok(bytes);
            }
            next = bytes.len().saturating_mul(2);
        }
    }
    Err(Error::from(ErrorKind::TimedOut))
}

/// Reads once, and puts what came after `bytes`.
fn read_piece<R: Read>(reader: &mut R, buffer: &mut [u8], bytes: &mut Vec<u8>) -> Result<usize>
    ensures read { IfOk result
        (λ n. IsPiece (R.remaining reader.old) (R.remaining reader.new) bytes.old.items
        bytes.new.items) }
    ensures end { IfOk result
        (λ n. n ≡ 0 → 0 < length buffer.old → IsAtEnd (R.remaining reader.new)) }
    ensures len { length buffer.new ≡ length buffer.old }
{
    let count = read_retrying(reader, buffer)?;
    bytes.extend_from_slice(&buffer[..count])?;
    Ok(count)
}

/// Reads once, and tries again if the read is interrupted.
fn read_retrying<R: Read>(reader: &mut R, buffer: &mut [u8]) -> Result<usize>
    ensures bound { ReadsAtMost result buffer.new }
    ensures len { length buffer.new ≡ length buffer.old }
    ensures read { IfOk result
        (λ n. Consumes (R.remaining reader.old) (R.remaining reader.new) (take n buffer.new)) }
    ensures end { IfOk result
        (λ n. n ≡ 0 → 0 < length buffer.old → IsAtEnd (R.remaining reader.new)) }
    ensures kept { OnErr result (Keeps (R.remaining reader.old) (R.remaining reader.new)) }
{
    for _ in 0..u64::MAX {
        match reader.read(buffer) {
            Ok(count) => return Ok(count),
            Err(error) => {
                if error.kind() != ErrorKind::Interrupted {
                    return Err(error);
                }
            }
        }
    }
    Err(Error::from(ErrorKind::TimedOut))
}
