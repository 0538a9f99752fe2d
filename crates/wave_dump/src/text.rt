//! The changes of a dump as its text has them.

use crate::change::Change;
use apex_types::Ticks;
use std::alloc::AllocError;
use std::fmt::Write;

/// Appends changes, each time in front of the first change in it. The last time so far is `time`.
///
/// # Errors
///
/// Memory ran out. Then a beginning of them may be there.
pub fn push_changes(
    changes: &[Change],
    time: &mut Ticks,
    text: &mut String,
) -> Result<(), AllocError> {
    for change in changes {
        push_time(time, change.tick, text)?;
        write!(text, "{}{}\n", change.value, change.variable)?;
    }
    Ok(())
}

/// Appends a time, if it is another one than the last.
pub fn push_time(time: &mut Ticks, next: Ticks, text: &mut String) -> Result<(), AllocError> {
    if next == *time {
        return Ok(());
    }
    *time = next;
    write!(text, "#{}\n", next.0)
}
