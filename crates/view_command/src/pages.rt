//! The manual page and the completion of the program.

ghost use Rattle.std.specs.Prelude.{◌-◌, ◌^◌, ◌<◌, IfErr, OnOk};
ghost use Rattle.view_command.specs.Pages.{IsPageRefused, IsPageTold, IsPageWritten};
ghost use Rattle.streams.specs.States.{seen};

use crate::grammar::page_text;
use crate::refusal::Refusal;
use command_words::Page;
use std::alloc::Global;
use streams::{Stream, tell_line, write_text};

/// Writes a page to `out`, and returns the exit status. If it is not written, the line of the refusal
/// goes to `err`.
pub fn tell_page<O: Stream, E: Stream>(alloc: Global, page: Page, out: &mut O, err: &mut E) -> u8
    requires out { O.failures out.old < 2 ^ 64 - 1 }
    requires err { E.failures err.old < 2 ^ 64 - 1 }
    ensures { IsPageTold (seen O.taken O.failures O.is_flushed out.old)
        (seen O.taken O.failures O.is_flushed out.new)
        (seen E.taken E.failures E.is_flushed err.old)
        (seen E.taken E.failures E.is_flushed err.new) result }
{
    match write_page(alloc, page, out) {
        Ok(()) => 0,
        Err(refusal) => {
            tell_line(err, refusal);
            1
        }
    }
}

/// Writes a page.
fn write_page<O: Stream>(alloc: Global, page: Page, out: &mut O) -> Result<(), Refusal>
    requires { O.failures out.old < 2 ^ 64 - 1 }
    ensures written { OnOk result
        (IsPageWritten (seen O.taken O.failures O.is_flushed out.old)
        (seen O.taken O.failures O.is_flushed out.new)) }
    ensures refused { IfErr result
        (λ r. IsPageRefused (seen O.taken O.failures O.is_flushed out.old)
        (seen O.taken O.failures O.is_flushed out.new) r) }
{
    let text = page_text(alloc, page)?;
    Ok(write_text(out, text.as_str())?)
}
