//! The instructions of an image as text.

ghost use Rattle.std.specs.Prelude.{◌≡◌, ℕ, ◌+◌, ◌-◌, ◌/◌, ◌%◌, ◌^◌, ◌<◌, ◌≤◌, ◌++◌};
ghost use Rattle.arrayvec.specs.ArrayVec.{array_vec_len};
ghost use Rattle.image.specs.Items.{item_of};
ghost use Rattle.image.specs.Views.{image_of};
ghost use Rattle.command_line.specs.declared.listing.line.TheConstants.{LONGEST_LINE};
ghost use Rattle.command_line.specs.Code.{code_text, five_digits, instruction_line, instruction_lines, name_line, opcode_text, partition_text};
ghost use Rattle.command_line.specs.Listed.{IsListed};

use crate::listing::line::{Line, push_bytes, push_number, push_text, push_word, write_line};
use apex_types::{Name, Sink, SinkFault};
use image::{Image, PartitionItem};
use processor::{fields, op_name};

/// Writes the instructions of an image: for each partition the line `partition NAME`, and then a line
/// `INDEX OPCODE X V` for each of its instructions.
///
/// # Errors
///
/// Only if the sink fails; then a beginning of the text is out.
pub fn write_code<S: Sink>(image: &Image, sink: &mut S) -> Result<(), SinkFault>
    requires { S.failures sink.old < 2 ^ 64 - 1 }
    ensures { IsListed (code_text (image_of image.now)) (S.taken sink.old) (S.taken sink.new)
        (S.failures sink.old) (S.failures sink.new) result }
{
    for item in &image.partitions {
        write_partition(item, sink)?;
    }
    Ok(())
}

/// Writes a partition: the line of its name, and the lines of its instructions.
fn write_partition<S: Sink>(item: &PartitionItem, sink: &mut S) -> Result<(), SinkFault>
    requires { S.failures sink.old < 2 ^ 64 - 1 }
    ensures { IsListed (partition_text (item_of item.now)) (S.taken sink.old) (S.taken sink.new)
        (S.failures sink.old) (S.failures sink.new) result }
{
    write_line(&name_line(&item.row.name), sink)?;
    write_instructions(item.section.code.as_slice(), sink)
}

/// Writes the lines of instructions with their indices from 0.
fn write_instructions<S: Sink>(code: &[[u8; 16]], sink: &mut S) -> Result<(), SinkFault>
    requires { S.failures sink.old < 2 ^ 64 - 1 }
    ensures { IsListed (instruction_lines 0 code.now) (S.taken sink.old) (S.taken sink.new)
        (S.failures sink.old) (S.failures sink.new) result }
{
    for (index, instruction) in code.iter().enumerate() {
        write_line(&instruction_line(index, instruction), sink)?;
    }
    Ok(())
}

/// The line of a partition's name.
fn name_line(name: &Name) -> Line
    ensures { result.items ≡ name_line name.now }
{
    let mut line = Line::new();
    push_text(&mut line, "partition ");
    push_bytes(&mut line, name.as_bytes());
    push_text(&mut line, "\n");
    line
}

/// The line of the instruction with that index.
fn instruction_line(index: usize, instruction: &[u8; 16]) -> Line
    ensures { result.items ≡ instruction_line index instruction.now }
{
    let (opcode, x, v) = fields(instruction);
    let mut line = Line::new();
    push_bytes(&mut line, &digits(index));
    push_text(&mut line, " ");
    push_opcode(&mut line, opcode);
    push_text(&mut line, " ");
    push_number(&mut line, u64::from(x));
    push_text(&mut line, " ");
    push_word(&mut line, v);
    push_text(&mut line, "\n");
    line
}

/// The name of an opcode; `?` and its number if it has no name.
fn push_opcode(line: &mut Line, opcode: u32)
    requires { array_vec_len line.old + 21 ≤ LONGEST_LINE }
    ensures items { line.new.items ≡ line.old.items ++ opcode_text opcode }
    ensures len { array_vec_len line.new ≤ array_vec_len line.old + 21 }
{
    match op_name(opcode) {
        Some(name) => push_text(line, name),
        None => {
            push_text(line, "?");
            push_number(line, u64::from(opcode));
        }
    }
}

fn digit(number: usize, unit: usize) -> u8
    requires { 0 < unit }
    ensures { result ≡ 48 + number / unit % 10 }
{
    b'0' + (number / unit % 10) as u8
}

fn digits(number: usize) -> [u8; 5]
    ensures { result ≡ five_digits number }
{
    [
        digit(number, 10_000),
        digit(number, 1_000),
        digit(number, 100),
        digit(number, 10),
        digit(number, 1),
    ]
}
