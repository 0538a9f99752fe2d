//! The bytes of one line.

ghost use Rattle.std.specs.Prelude.{◌≡◌, ◌+◌, ◌-◌, ◌^◌, ◌<◌, ◌≤◌, ◌++◌, length};
ghost use Rattle.std.specs.Fmt.{decimal, signed_decimal};
ghost use Rattle.arrayvec.specs.ArrayVec.{array_vec_len};
ghost use Rattle.command_line.specs.declared.listing.line.TheConstants.{LONGEST_LINE};
ghost use Rattle.command_line.specs.Listed.{IsListed};

use apex_types::limits::MOST_NAME_BYTES;
use apex_types::{Sink, SinkFault, put_all};
use arrayvec::ArrayVec;

/// The most bytes of one line. The longest has two names, three numbers of 20 digits and 29 other bytes.
pub const LONGEST_LINE: usize = 2 * MOST_NAME_BYTES + 100;

/// The bytes of one line.
pub type Line = ArrayVec<u8, LONGEST_LINE>;

pub fn push_bytes(line: &mut Line, bytes: &[u8])
    requires { array_vec_len line.old + length bytes.now ≤ LONGEST_LINE }
    ensures items { line.new.items ≡ line.old.items ++ bytes.now }
    ensures len { array_vec_len line.new ≡ array_vec_len line.old + length bytes.now }
{
    line.try_extend_from_slice(bytes).unwrap();
}

pub fn push_text(line: &mut Line, text: &str)
    requires { array_vec_len line.old + length text.now ≤ LONGEST_LINE }
    ensures items { line.new.items ≡ line.old.items ++ text.now }
    ensures len { array_vec_len line.new ≡ array_vec_len line.old + length text.now }
{
    push_bytes(line, text.as_bytes());
}

pub fn push_number(line: &mut Line, number: u64)
    requires { array_vec_len line.old + 20 ≤ LONGEST_LINE }
    ensures items { line.new.items ≡ line.old.items ++ decimal number }
    ensures len { array_vec_len line.new ≤ array_vec_len line.old + 20 }
{
    let mut buffer = itoa::Buffer::new();
    push_text(line, buffer.format(number));
}

pub fn push_word(line: &mut Line, word: i64)
    requires { array_vec_len line.old + 20 ≤ LONGEST_LINE }
    ensures items { line.new.items ≡ line.old.items ++ signed_decimal word }
    ensures len { array_vec_len line.new ≤ array_vec_len line.old + 20 }
{
    let mut buffer = itoa::Buffer::new();
    push_text(line, buffer.format(word));
}

/// Writes a line. Fails only if the sink fails; then a beginning of the line is out.
pub fn write_line<S: Sink>(line: &Line, sink: &mut S) -> Result<(), SinkFault>
    requires { S.failures sink.old < 2 ^ 64 - 1 }
    ensures { IsListed line.now.items (S.taken sink.old) (S.taken sink.new) (S.failures sink.old)
        (S.failures sink.new) result }
{
    put_all(sink, line.as_slice())
}
