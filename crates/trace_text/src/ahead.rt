//! The bytes that are read ahead of the lines.

ghost use Rattle.std.specs.Prelude.{◌≡◌, ℕ, ◌+◌, ◌-◌, ◌<◌, ◌≤◌, [], length, take, drop, slice_range, IfOk, OnErr, OnOk, vec_len};
ghost use Rattle.std.specs.Io.{ReadsAtMost};
ghost use Rattle.std.specs.Io.KnownBytes.{Consumes, IsAtEnd, Keeps, prepend_known};
ghost use Rattle.apex_types.specs.declared.limits.TheConstants.{MOST_LINE_BYTES};

use std::alloc::{AllocError, Global};
use std::io::{Error, ErrorKind, Read, Result};

/// The most bytes that are held.
const CAPACITY: usize = 8192;

/// `buffer[start..end]` was read, and no event was made of it yet.
#[derive(Drop)]
pub struct Ahead {
    buffer: Vec<u8>,
    start: usize,
    end: usize,
    ghost ordered: { start ≤ end },
    ghost in_bounds: { end ≤ vec_len buffer },
    ghost capacity: { vec_len buffer ≡ 8192 },
}

impl Ahead {
    ghost use Rattle.trace_text.specs.Stream.{ahead_bytes};

    pub fn new(alloc: Global) -> std::result::Result<Self, AllocError>
        ensures { IfOk result (λ a. ahead_bytes a ≡ []) }
    {
        let mut buffer = Vec::with_capacity(alloc, CAPACITY)?;
        buffer.resize(CAPACITY, 0)?;
        Ok(Ahead {
            buffer,
            start: 0,
            end: 0,
        })
    }

    pub fn as_slice(&self) -> &[u8]
        ensures { result.now ≡ ahead_bytes self.now }
    {
        let (start, end) = (self.start, self.end);
        let all = self.buffer.as_slice();
        &all[start..end]
    }

    /// Drops all bytes except the last `count`.
    pub fn keep_last(&mut self, count: usize)
        requires { count ≤ length (ahead_bytes self.old) }
        ensures { ahead_bytes self.new
            ≡ drop (length (ahead_bytes self.old) - count) (ahead_bytes self.old) }
    {
        self.start = self.end - count;
    }

    /// Reads once, and returns the number of bytes that came.
    pub fn read_more<R: Read>(&mut self, reader: &mut R) -> Result<usize>
        requires { length (ahead_bytes self.old) < MOST_LINE_BYTES }
        ensures kept { Keeps (prepend_known (ahead_bytes self.old) (R.remaining reader.old))
            (prepend_known (ahead_bytes self.new) (R.remaining reader.new)) }
        ensures longer { IfOk result
            (λ n. length (ahead_bytes self.new) ≡ length (ahead_bytes self.old) + n) }
        ensures end { IfOk result (λ n. n ≡ 0 → IsAtEnd (R.remaining reader.new)) }
        ensures same { OnErr result (ahead_bytes self.new ≡ ahead_bytes self.old) }
    {
        self.move_to_front();
        let count = read_behind(reader, &mut self.buffer, self.end)?;
        self.end += count;
        Ok(count)
    }

    fn move_to_front(&mut self)
        ensures bytes { ahead_bytes self.new ≡ ahead_bytes self.old }
        ensures start { self.new.start ≡ 0 }
    {
        self.buffer.copy_within(self.start..self.end, 0);
        self.end -= self.start;
        self.start = 0;
    }
}

/// Reads once into the buffer, from a place on.
fn read_behind<R: Read>(reader: &mut R, buffer: &mut Vec<u8>, at: usize) -> Result<usize>
    requires { at < vec_len buffer.old }
    ensures front { take at buffer.new.items ≡ take at buffer.old.items }
    ensures len { vec_len buffer.new ≡ vec_len buffer.old }
    ensures fits { IfOk result (λ n. at + n ≤ vec_len buffer.new) }
    ensures read { IfOk result
        (λ n. Consumes (R.remaining reader.old) (R.remaining reader.new)
        (take n (drop at buffer.new.items))) }
    ensures end { IfOk result (λ n. n ≡ 0 → IsAtEnd (R.remaining reader.new)) }
    ensures kept { OnErr result (Keeps (R.remaining reader.old) (R.remaining reader.new)) }
{
    read_at(reader, buffer.as_mut_slice(), at)
}

/// Reads once into the buffer, from a place on.
fn read_at<R: Read>(reader: &mut R, buffer: &mut [u8], at: usize) -> Result<usize>
    requires { at < length buffer.old }
    ensures front { take at buffer.new ≡ take at buffer.old }
    ensures len { length buffer.new ≡ length buffer.old }
    ensures fits { IfOk result (λ n. at + n ≤ length buffer.new) }
    ensures read { IfOk result
        (λ n.
        Consumes (R.remaining reader.old) (R.remaining reader.new) (take n (drop at buffer.new))) }
    ensures end { IfOk result (λ n. n ≡ 0 → IsAtEnd (R.remaining reader.new)) }
    ensures kept { OnErr result (Keeps (R.remaining reader.old) (R.remaining reader.new)) }
{
    read_retrying(reader, &mut buffer[at..])
}

/// Reads once, and tries again if the read is interrupted.
fn read_retrying<R: Read>(reader: &mut R, buffer: &mut [u8]) -> Result<usize>
    ensures bound { ReadsAtMost result buffer.new }
    ensures read { IfOk result
        (λ n. Consumes (R.remaining reader.old) (R.remaining reader.new) (take n buffer.new)) }
    ensures end { IfOk result
        (λ n. n ≡ 0 → 0 < length buffer.old → IsAtEnd (R.remaining reader.new)) }
    ensures kept { OnErr result (Keeps (R.remaining reader.old) (R.remaining reader.new)) }
{
    for _ in 0..u64::MAX {
        match reader.read(buffer) {
            Ok(count) => return Ok(count),
            Err(error) => {
                if error.kind() != ErrorKind::Interrupted {
                    return Err(error);
                }
            }
        }
    }
    Err(Error::from(ErrorKind::TimedOut))
}
