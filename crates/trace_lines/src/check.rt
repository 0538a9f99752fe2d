//! The first line of a trace that breaks a limit.

ghost use Rattle.std.specs.Prelude.{◌≡◌, ◌∷◌, [], List, None, OnOk, is_some};
ghost use Rattle.std.specs.Option.{option_map_or};
ghost use Rattle.apex_types.specs.declared.event.Event.{Event};
ghost use Rattle.trace_lines.specs.Limiting.{found_in};

use crate::filter::Filter;
use crate::limit::Limits;
use crate::listing::line_of;
use apex_types::Event;
use std::alloc::Global;
use trace_stays::MemoryFull;

/// The limits that the chosen lines of a trace have to keep, and the first line that breaks one.
#[derive(Drop)]
pub struct Check {
    alloc: Global,
    filter: Filter,
    limits: Limits,
    broken: Option<Vec<u8>>,
}

impl Check {
    /// No line was read so far.
    pub fn new(alloc: Global, filter: Filter, limits: Limits) -> Check
        ensures filter { result.filter ≡ filter }
        ensures limits { result.limits ≡ limits }
        ensures broken { result.broken ≡ None }
    {
        Check {
            alloc,
            filter,
            limits,
            broken: None,
        }
    }

    /// Reads the line of the next event.
    ///
    /// # Errors
    ///
    /// Memory ran out.
    pub fn add(&mut self, event: &Event) -> Result<(), MemoryFull>
        ensures { OnOk result
            ((rest : List Event)
            → found_in self.new.broken self.new.filter self.new.limits rest
            ≡ found_in self.old.broken self.old.filter self.old.limits (event.now ∷ rest)) }
    {
        if self.broken.is_some() || !self.filter.has(event) {
            return Ok(());
        }
        if self.limits.are_broken_by(event) {
            self.broken = Some(line_of(self.alloc, event)?);
        }
        Ok(())
    }

    /// Returns true if a line breaks a limit.
    pub fn is_broken(&self) -> bool
        ensures { result ≡ is_some self.now.broken }
    {
        self.broken.is_some()
    }

    /// The first line that breaks a limit; no bytes if none does.
    pub fn into_text(self, alloc: Global) -> Vec<u8>
        ensures { result.items ≡ option_map_or (λ line. line.items) self.broken [] }
    {
        let Check { broken, .. } = self;
        match broken {
            Some(line) => line,
            None => Vec::new(alloc),
        }
    }
}
