//! The rows of the processes.

ghost use Rattle.std.specs.Prelude.{◌≡◌, ◌<◌, ◌++◌, OnOk};
ghost use Rattle.apex_types.specs.declared.limits.TheConstants.{MOST_RUNNERS};
ghost use Rattle.state_rows.specs.Rows.{row_in, rows_in};
ghost use Rattle.state_rows.specs.States as meaning;

use crate::heading::Heading;
use crate::values::{runner_number, subject_word};
use crate::waits::{runner_at, write_wait};
use apex_types::ProcessStatus;
use process_table_base::ProcessTable;
use state_rows::{Field, flag, number, tick, word};
use std::alloc::AllocError;

/// Appends the row of the runner with a place.
fn write_process(
    of: &Heading,
    place: usize,
    row: &ProcessStatus,
    text: &mut Vec<u8>,
) -> Result<(), AllocError>
    ensures { OnOk result
        (text.new.items
        ≡ text.old.items
        ++ row_in of.now.form
        (meaning.process_row of.now.name (meaning.runner_at place) row.now)) }
{
    let fields = [
        word("process", subject_word(&row.who)),
        Field {
            key: "number",
            value: runner_number(place),
        },
        flag("created", row.created),
        word("state", row.state.word().as_bytes()),
        number("priority", u64::from(row.current_priority.0)),
        number("base", u64::from(row.base_priority.0)),
        flag("suspended", row.suspended),
        tick("period", row.period),
        tick("capacity", row.capacity),
        number("release", row.release.0),
        tick("deadline", row.deadline),
    ];
    of.row(&fields, text)
}

/// Appends the row of the runner with a place, and what it waits for.
fn write_with_wait(
    of: &Heading,
    processes: &ProcessTable,
    place: usize,
    row: &ProcessStatus,
    text: &mut Vec<u8>,
) -> Result<(), AllocError>
    requires { place < MOST_RUNNERS }
    ensures { OnOk result
        (text.new.items
        ≡ text.old.items
        ++ rows_in of.now.form (meaning.process_rows of.now.name processes.now place row.now)) }
{
    write_process(of, place, row, text)?;
    write_wait(of, row, &processes.handed_by(runner_at(place)), text)
}

/// Appends the rows of INIT, of the handler and of the processes.
pub(crate) fn write_processes(
    of: &Heading,
    processes: &ProcessTable,
    text: &mut Vec<u8>,
) -> Result<(), AllocError>
    ensures { OnOk result
        (text.new.items
        ≡ text.old.items
        ++ rows_in of.now.form
        (meaning.placed (meaning.process_rows of.now.name processes.now) processes.now.rows)) }
{
    let rows = processes.rows();
    for (place, row) in rows.iter().enumerate() {
        write_with_wait(of, processes, place, row, text)?;
    }
    Ok(())
}
