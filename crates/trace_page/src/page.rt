//! A page.

ghost use Rattle.std.specs.Prelude.{◌≡◌, ◌++◌, [], OnOk};
ghost use Rattle.trace_page.specs.Escaping.{escaped_line};

use crate::escaping::push_escaped;
use crate::text::{BACK, BEHIND_STATES, BEHIND_WINDOWS, BETWEEN, FRONT};
use crate::windows::NOT_KNOWN;
use apex_types::{Event, Ticks};
use std::alloc::Global;
use trace_lines::line_of;
use trace_stays::MemoryFull;

/// The page of a trace, without what surrounds the trace's text.
#[derive(Drop)]
pub struct Page {
    alloc: Global,
    /// The lines so far, as they are in the string of the script.
    lines: Vec<u8>,
    /// For how many ticks the module ran, if that is known.
    ran: Option<Ticks>,
}

impl Page {
    /// A page without lines, of a run of `ran` ticks, if that is known. Otherwise it ends after its
    /// last line.
    pub fn new(alloc: Global, ran: Option<Ticks>) -> Page
        ensures { result.lines.items ≡ [] }
    {
        Page {
            alloc,
            lines: Vec::new(alloc),
            ran,
        }
    }

    /// Adds the line of the next event.
    ///
    /// # Errors
    ///
    /// Memory ran out.
    pub fn add(&mut self, event: &Event) -> Result<(), MemoryFull>
        ensures { OnOk result
            (self.new.lines.items ≡ self.old.lines.items ++ escaped_line event.now) }
    {
        let line = line_of(self.alloc, event)?;
        push_escaped(&mut self.lines, line.as_slice())?;
        Ok(())
    }

    /// The whole page, with the windows of the module table as they are in `windows_text`, and states as
    /// they are in `states_text`, or each `NOT_KNOWN`.
    ///
    /// # Errors
    ///
    /// Memory ran out.
    pub fn into_text(self, windows: &[u8], states: &[u8]) -> Result<Vec<u8>, MemoryFull> {
        let ticks = match self.ran {
            Some(ran) => ran.0.to_string(self.alloc)?,
            None => String::from_str(self.alloc, NOT_KNOWN)?,
        };
        let mut text = Vec::new(self.alloc);
        text.extend_from_slice(FRONT.as_bytes())?;
        text.extend_from_slice(self.lines.as_slice())?;
        text.extend_from_slice(BETWEEN.as_bytes())?;
        text.extend_from_slice(windows)?;
        text.extend_from_slice(BEHIND_WINDOWS.as_bytes())?;
        text.extend_from_slice(states)?;
        text.extend_from_slice(BEHIND_STATES.as_bytes())?;
        text.extend_from_slice(ticks.as_bytes())?;
        text.extend_from_slice(BACK.as_bytes())?;
        Ok(text)
    }
}
