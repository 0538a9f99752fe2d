//! The rows of those that have something left to do.

ghost use Rattle.std.specs.Prelude.{◌≡◌, ◌++◌, [], OnOk, option_map, slice_get, take};
ghost use Rattle.machine_meaning.specs.Instructions.{name_of_opcode};
ghost use Rattle.partition_base.specs.Machines.{controls_of};
ghost use Rattle.partition_base.specs.Slots.{control_on};
ghost use Rattle.state_rows.specs.Fields.{value_of};
ghost use Rattle.state_rows.specs.Rows.{fields_in, row_in, rows_in};
ghost use Rattle.state_rows.specs.States as meaning;

use crate::heading::Heading;
use crate::values::subject_word;
use crate::words::write_words;
use apex_types::ProcessStatus;
use partition_base::PartitionProcessor;
use processor::{Context, fields, op_name};
use regions::PartitionMem;
use state_rows::{Field, Form, Value, end_row, number, word, write_fields};
use std::alloc::AllocError;

/// The name of an opcode, or its number if it has none.
fn opcode_value<'a>(opcode: u32) -> Value<'a>
    ensures { value_of result ≡ meaning.opcode_value opcode (name_of_opcode opcode) }
{
    match op_name(opcode) {
        Some(name) => Value::Word(name.as_bytes()),
        None => Value::Count(u64::from(opcode)),
    }
}

/// Appends opcode, x and v of an instruction.
fn write_opcode(form: Form, shown: (u32, u32, i64), text: &mut Vec<u8>) -> Result<(), AllocError>
    ensures { OnOk result
        (text.new.items ≡ text.old.items ++ fields_in form (meaning.opcode_fields shown)) }
{
    let fields = [
        Field {
            key: "opcode",
            value: opcode_value(shown.0),
        },
        number("x", u64::from(shown.1)),
        Field {
            key: "v",
            value: Value::Signed(shown.2),
        },
    ];
    write_fields(form, &fields, text)
}

/// Appends the fields of the instruction at a place of the code.
fn write_instruction(
    form: Form,
    code: &[[u8; 16]],
    pc: u32,
    text: &mut Vec<u8>,
) -> Result<(), AllocError>
    ensures { OnOk result
        (text.new.items
        ≡ text.old.items ++ fields_in form (meaning.instruction_fields (slice_get code.now pc))) }
{
    match code.get(pc as usize) {
        None => {
            let opcode = Field {
                key: "opcode",
                value: Value::Nothing,
            };
            write_fields(form, &[opcode], text)
        }
        Some(bytes) => write_opcode(form, fields(bytes), text),
    }
}

/// Appends the row of one that has something left to do.
fn write_context(
    of: &Heading,
    code: &[[u8; 16]],
    who: &[u8],
    context: &Context,
    text: &mut Vec<u8>,
) -> Result<(), AllocError>
    ensures { OnOk result
        (text.new.items
        ≡ text.old.items
        ++ row_in of.now.form
        (meaning.control_row of.now.name code.now who.now (control_on context.now []))) }
{
    let fields = [
        word("runner", who),
        number("pc", u64::from(context.pc())),
        number("fp", u64::from(context.fp())),
        number("sp", u64::from(context.sp())),
        number("spent", u64::from(context.spent())),
        number("awaits", u64::from(context.awaits())),
    ];
    of.begin(&fields, text)?;
    write_instruction(of.form, code, context.pc(), text)?;
    end_row(of.form, text)
}

/// The words of a stack below a place.
fn below(stack: &[i64], sp: u32) -> &[i64]
    ensures { result.now ≡ take sp stack.now }
{
    &stack[..stack.len().min(sp as usize)]
}

/// Appends the row of one that has something left to do, and those of its stack.
fn write_control(
    of: &Heading,
    code: &[[u8; 16]],
    who: &[u8],
    context: &Context,
    stack: &[i64],
    text: &mut Vec<u8>,
) -> Result<(), AllocError>
    ensures { OnOk result
        (text.new.items
        ≡ text.old.items
        ++ rows_in of.now.form
        (meaning.control_rows of.now.name code.now who.now (control_on context.now stack.now))) }
{
    write_context(of, code, who, context, text)?;
    write_words(
        of,
        "stack",
        &[word("process", who)],
        below(stack, context.sp()),
        text,
    )
}

/// Appends the rows of a runner, if it has something left to do.
fn write_if_any(
    of: &Heading,
    code: &[[u8; 16]],
    who: &[u8],
    control: Option<(&Context, &[i64])>,
    text: &mut Vec<u8>,
) -> Result<(), AllocError>
    ensures { OnOk result
        (text.new.items
        ≡ text.old.items
        ++ rows_in of.now.form
        (meaning.control_rows_if of.now.name code.now who.now
        (option_map (λ c. control_on c.0.now c.1.now) control.entry))) }
{
    match control {
        Some((context, stack)) => write_control(of, code, who, context, stack, text),
        None => Ok(()),
    }
}

/// Appends the rows of all that have something left to do.
#[tactic(auto, using(crate::proofs::Loops::more))]
pub(crate) fn write_runners(
    of: &Heading,
    code: &[[u8; 16]],
    processor: &PartitionProcessor,
    memory: &PartitionMem,
    rows: &[ProcessStatus],
    text: &mut Vec<u8>,
) -> Result<(), AllocError>
    ensures { OnOk result
        (text.new.items
        ≡ text.old.items
        ++ rows_in of.now.form
        (meaning.placed
        (meaning.runner_rows of.now.name code.now (controls_of processor.now memory.now))
        rows.now)) }
{
    for (place, row) in rows.iter().enumerate() {
        let control = processor.control(memory, place);
        write_if_any(of, code, subject_word(&row.who), control, text)?;
    }
    Ok(())
}
