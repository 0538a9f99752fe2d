//! The text of the inputs of one partition.

ghost use Rattle.std.specs.Prelude.{◌≡◌, ◌+◌, ◌-◌, ◌*◌, ◌^◌, ◌<◌, ◌≤◌, ◌∷◌, ◌++◌, length, FitsSigned, OnErr, OnOk};
ghost use Rattle.std.specs.Fmt.{decimal, signed_decimal};
ghost use Rattle.std.specs.Int.{w64};
ghost use Rattle.std.specs.Io.KnownBytes.{Appends};
ghost use Rattle.apex_types.specs.Line.{space};
ghost use Rattle.apex_types.specs.Limits.{MOST_NAME_BYTES, MOST_WORDS};
ghost use Rattle.apex_types.specs.declared.limits.TheConstants.{MOST_KIND_BYTES, MOST_LINE_BYTES, MOST_WORD_BYTES};
ghost use Rattle.arrayvec.specs.ArrayVec.{array_vec_len};
ghost use Rattle.apex_types.specs.Line.{words_text};
ghost use Rattle.apex_types.specs.Line.{TakesBeginning};
ghost use Rattle.module_meaning.specs.Table.{at_number};
ghost use Rattle.image.specs.Items.{partition_of};
ghost use Rattle.text_lines.specs.Words.{AreWords};
ghost use Rattle.isolation.specs.InputText.{AreWritable, IsWritable, input_text, name_of_port, replay_text};
ghost use Rattle.module_base.specs.LineText.{behind_tick};

use apex_types::limits::MOST_LINE_BYTES;
use apex_types::{PortId, PortRow, Sink, SinkFault, put_all};
use arrayvec::ArrayVec;
use isolation::{Input, InputLine};
use window_table::PartitionRow;

/// The bytes of one line, which is no longer than a line of a trace.
type Line = ArrayVec<u8, MOST_LINE_BYTES>;

/// Writes the text of a partition's inputs: a line for each input, in their order. The words that
/// are written are words of 64 bits.
///
/// # Errors
///
/// Only if the sink failed; then a prefix of the text is out.
#[tactic(auto, using(apex_types::proofs::Writing::under_way))]
pub fn write_inputs<S: Sink>(
    row: &PartitionRow,
    lines: &[InputLine],
    sink: &mut S,
) -> Result<(), SinkFault>
    requires { S.failures sink.old < 2 ^ 64 - 1 }
    ensures ok { OnOk result
        (Appends (S.taken sink.old) (S.taken sink.new)
        (replay_text (partition_of row.now) lines.now)) }
    ensures quiet { OnOk result (S.failures sink.new ≡ S.failures sink.old) }
    ensures failed { OnErr result (S.failures sink.new ≡ S.failures sink.old + 1) }
    ensures beginning { OnErr result
        (TakesBeginning (S.taken sink.old) (S.taken sink.new)
        (replay_text (partition_of row.now) lines.now)) }
    ensures words { OnOk result (AreWritable lines.now) }
{
    let mut rest = lines;
    while let Some((line, others)) = rest.split_first() {
        write_line(row, line, sink)?;
        rest = others;
    }
    Ok(())
}

/// Writes the line of an input.
fn write_line<S: Sink>(row: &PartitionRow, line: &InputLine, sink: &mut S) -> Result<(), SinkFault>
    requires { S.failures sink.old < 2 ^ 64 - 1 }
    ensures ok { OnOk result
        (Appends (S.taken sink.old) (S.taken sink.new)
        (input_text (partition_of row.now) line.now)) }
    ensures quiet { OnOk result (S.failures sink.new ≡ S.failures sink.old) }
    ensures failed { OnErr result (S.failures sink.new ≡ S.failures sink.old + 1) }
    ensures beginning { OnErr result
        (TakesBeginning (S.taken sink.old) (S.taken sink.new)
        (input_text (partition_of row.now) line.now)) }
    ensures words { IsWritable line.now.input }
{
    put_all(sink, line_bytes(row, line).as_slice())
}

/// The line of an input.
#[tactic(auto, using(crate::proofs::LineTexts::line_is))]
fn line_bytes(row: &PartitionRow, line: &InputLine) -> Line
    ensures text { result.items ≡ input_text (partition_of row.now) line.now }
    ensures words { IsWritable line.now.input }
{
    let mut bytes = Line::new();
    push_tick(&mut bytes, line.tick.0);
    push_input(&mut bytes, row, &line.input);
    push_text(&mut bytes, "\n");
    bytes
}

/// Appends the content of the line after its tick.
fn push_input(line: &mut Line, row: &PartitionRow, input: &Input)
    requires { array_vec_len line.old + MOST_KIND_BYTES + MOST_WORD_BYTES * MOST_WORDS ≤ MOST_LINE_BYTES }
    ensures items { line.new.items
        ≡ line.old.items ++ behind_tick (partition_of row.now) input.now }
    ensures len { array_vec_len line.new
        ≤ array_vec_len line.old + MOST_KIND_BYTES + MOST_WORD_BYTES * MOST_WORDS }
    ensures words { IsWritable input.now }
{
    match input {
        Input::Arrive(port, words) => {
            push_text(line, " ARRIVE ");
            push_bytes(line, name_of_port(row.ports.as_slice(), *port));
            push_words(line, words.as_slice());
        }
        Input::ModuleFault => push_text(line, " FAULT"),
        Input::PartitionFault => {
            push_text(line, " FAULT ");
            push_bytes(line, row.name.as_bytes());
        }
    }
}

/// The name of a port; empty if there is no such port.
#[tactic(auto, using(crate::proofs::Lawful::from_place))]
fn name_of_port(ports: &[PortRow], port: PortId) -> &[u8]
    ensures name { result.now ≡ name_of_port (at_number ports.now port.0) }
    ensures short { length result.now ≤ MOST_NAME_BYTES }
{
    let Some(place) = port.place() else {
        return b"".as_slice();
    };
    match ports.get(usize::from(place)) {
        Some(row) => row.name.as_bytes(),
        None => b"".as_slice(),
    }
}

/// The words of a message, each after a space.
fn push_words(line: &mut Line, words: &[i64])
    requires { array_vec_len line.old + MOST_WORD_BYTES * length words.now ≤ MOST_LINE_BYTES }
    ensures items { line.new.items ≡ line.old.items ++ words_text words.now }
    ensures len { array_vec_len line.new
        ≤ array_vec_len line.old + MOST_WORD_BYTES * length words.now }
    ensures words { AreWords words.now }
{
    for word in words {
        push_word(line, *word);
    }
}

fn push_word(line: &mut Line, word: i64)
    requires { array_vec_len line.old + MOST_WORD_BYTES ≤ MOST_LINE_BYTES }
    ensures items { line.new.items ≡ line.old.items ++ space ∷ signed_decimal word }
    ensures len { array_vec_len line.new ≤ array_vec_len line.old + MOST_WORD_BYTES }
    ensures word { FitsSigned w64 word }
{
    let mut buffer = itoa::Buffer::new();
    push_text(line, " ");
    push_text(line, buffer.format(word));
}

fn push_tick(line: &mut Line, tick: u64)
    requires { array_vec_len line.old + 20 ≤ MOST_LINE_BYTES }
    ensures items { line.new.items ≡ line.old.items ++ decimal tick }
    ensures len { array_vec_len line.new ≤ array_vec_len line.old + 20 }
{
    let mut buffer = itoa::Buffer::new();
    push_text(line, buffer.format(tick));
}

fn push_text(line: &mut Line, text: &str)
    requires { array_vec_len line.old + length text.now ≤ MOST_LINE_BYTES }
    ensures items { line.new.items ≡ line.old.items ++ text.now }
    ensures len { array_vec_len line.new ≡ array_vec_len line.old + length text.now }
{
    push_bytes(line, text.as_bytes());
}

fn push_bytes(line: &mut Line, bytes: &[u8])
    requires { array_vec_len line.old + length bytes.now ≤ MOST_LINE_BYTES }
    ensures items { line.new.items ≡ line.old.items ++ bytes.now }
    ensures len { array_vec_len line.new ≡ array_vec_len line.old + length bytes.now }
{
    line.try_extend_from_slice(bytes).unwrap();
}
