//! The chosen lines of a trace.

ghost use Rattle.std.specs.Prelude.{◌≡◌, ◌++◌, [], IfOk, OnErr, OnOk};
ghost use Rattle.apex_types.specs.Line.{line_of};
ghost use Rattle.trace_lines.specs.Filters.{chosen_text};

use crate::filter::Filter;
use apex_types::{Event, WriterSink, write_event};
use std::alloc::Global;
use trace_stays::MemoryFull;

/// The text of the chosen lines so far.
#[derive(Drop)]
pub struct Listing {
    alloc: Global,
    filter: Filter,
    text: Vec<u8>,
}

impl Listing {
    /// No lines so far.
    pub fn new(alloc: Global, filter: Filter) -> Listing
        ensures filter { result.filter ≡ filter }
        ensures text { result.text.items ≡ [] }
    {
        Listing {
            alloc,
            filter,
            text: Vec::new(alloc),
        }
    }

    /// Adds the line of an event, if it is chosen.
    ///
    /// # Errors
    ///
    /// Memory ran out. Then no line is added.
    pub fn add(&mut self, event: &Event) -> Result<(), MemoryFull>
        ensures text { OnOk result
            (self.new.text.items
            ≡ self.old.text.items ++ chosen_text self.old.filter event.now) }
        ensures kept { OnErr result (self.new.text.items ≡ self.old.text.items) }
        ensures filter { self.new.filter ≡ self.old.filter }
    {
        if !self.filter.has(event) {
            return Ok(());
        }
        let line = line_of(self.alloc, event)?;
        self.text.extend_from_slice(line.as_slice())?;
        Ok(())
    }

    /// The text of the chosen lines.
    pub fn into_text(self) -> Vec<u8>
        ensures { result.items ≡ self.text.items }
    {
        let Listing { text, .. } = self;
        text
    }
}

/// The line of an event.
///
/// # Errors
///
/// Memory ran out.
pub fn line_of(alloc: Global, event: &Event) -> Result<Vec<u8>, MemoryFull>
    ensures { IfOk result (λ line. line.items ≡ line_of event.now) }
{
    let mut sink = WriterSink::new(Vec::new(alloc));
    match write_event(event, &mut sink) {
        Ok(()) => Ok(sink.writer),
        Err(_) => Err(MemoryFull),
    }
}
