//! The row of a partition's mode.

ghost use Rattle.std.specs.Prelude.{◌≡◌, ◌++◌, OnOk, option_map};
ghost use Rattle.apex_types.specs.Line.{subject_text};
ghost use Rattle.kernel_meaning.specs.PartitionServices.{number_of_condition};
ghost use Rattle.state_rows.specs.Fields.{value_of};
ghost use Rattle.state_rows.specs.Rows.{row_in};
ghost use Rattle.state_rows.specs.States as meaning;

use crate::heading::Heading;
use crate::values::subject_word;
use apex_types::{Lock, Runner, StartCondition, Subject};
use partition::Kernel;
use process_table_base::ProcessTable;
use state_rows::{Field, Value, flag, number, word};
use std::alloc::AllocError;

/// The number of a start condition.
fn condition_number(condition: StartCondition) -> u64
    ensures { result ≡ number_of_condition condition }
{
    condition as u64
}

/// The subject of a runner, if there is one.
fn subject_of(processes: &ProcessTable, runner: Option<Runner>) -> Option<Subject>
    ensures { option_map subject_text result
        ≡ option_map (meaning.name_in processes.now) runner }
{
    match runner {
        Some(runner) => Some(processes.subject(runner)),
        None => None,
    }
}

/// The process that holds a lock.
fn holder_of(lock: Lock) -> Option<Runner>
    ensures { (processes : _)
        → meaning.running_of processes result ≡ meaning.holder_of processes lock }
{
    match lock {
        Lock::Free => None,
        Lock::Held { holder, .. } => Some(Runner::Process(holder)),
    }
}

/// The word of a subject, if there is one.
fn word_of(who: &Option<Subject>) -> Value<'_>
    ensures { value_of result ≡ meaning.word_or_none (option_map subject_text who.now) }
{
    match who {
        Some(who) => Value::Word(subject_word(who)),
        None => Value::Nothing,
    }
}

/// Appends the row of a partition's mode.
pub(crate) fn write_mode(
    of: &Heading,
    kernel: &Kernel,
    text: &mut Vec<u8>,
) -> Result<(), AllocError>
    ensures { OnOk result
        (text.new.items
        ≡ text.old.items ++ row_in of.now.form (meaning.mode_row of.now.name kernel.now)) }
{
    let processes = kernel.processes();
    let holder = subject_of(processes, holder_of(processes.lock()));
    let running = subject_of(processes, processes.running());
    let fields = [
        word("mode", kernel.mode().word().as_bytes()),
        number("start", condition_number(kernel.condition())),
        number("lock", u64::from(processes.lock_level())),
        Field {
            key: "holder",
            value: word_of(&holder),
        },
        Field {
            key: "running",
            value: word_of(&running),
        },
        flag("handler", kernel.errors().has_handler()),
    ];
    of.row(&fields, text)
}
