//! The lines of errors.

ghost use Rattle.std.specs.Prelude.{◌≡◌, ◌↔◌, [], slice_get, IsTrue, MatchOption, OnErr, OnOk, Some};
ghost use Rattle.trace_view.specs.Errors.{IsCounted, IsNoneOf, IsOf};
ghost use Rattle.trace_view.specs.declared.errors.ErrorTotal.{ErrorTotal};

use apex_types::{ErrorKind, Name, Response};
use std::alloc::Global;
use trace_stays::{MemoryFull, is_same_partition};

/// The errors of one kind with one action, of one partition or of the module.
#[derive(Clone, Copy)]
pub struct ErrorTotal {
    /// The partition; `None` for a fault of the module.
    pub partition: Option<Name>,
    pub error: ErrorKind,
    pub response: Response,
    pub lines: u64,
}

impl ErrorTotal {
    ghost use Rattle.std.specs.Prelude.{◌+◌};
    ghost use Rattle.trace_view.specs.Counting.{capped};

    /// Returns true if these are the errors of this kind, of this partition, with this response.
    fn is_of(&self, partition: &Option<Name>, error: ErrorKind, response: Response) -> bool
        ensures { IsTrue result ↔ IsOf partition.now error response self.now }
    {
        is_same_partition(&self.partition, partition)
            && self.error == error
            && self.response == response
    }

    /// The name of the partition; `-` for a fault of the module.
    pub fn partition_word(&self) -> &str {
        match &self.partition {
            Some(name) => name.as_str(),
            None => "-",
        }
    }

    /// The kind of error, as written in a trace.
    pub fn error_word(&self) -> &str {
        self.error.word()
    }

    /// The level of the error, as written in a trace.
    pub fn level_word(&self) -> &str {
        self.response.level().word()
    }

    /// What was done on the error, as written in a trace.
    pub fn action_word(&self) -> &str {
        self.response.action_word()
    }

    /// Counts one more line.
    fn count(&mut self)
        ensures { self.new ≡ record self.old { lines = capped (self.old.lines + 1) } }
    {
        self.lines = self.lines.saturating_add(1);
    }
}

/// The numbers of lines of errors, in the order of the first of each.
#[derive(Drop)]
pub struct Errors {
    totals: Vec<ErrorTotal>,
}

impl Errors {
    /// No errors.
    pub fn new(alloc: Global) -> Errors
        ensures { result.totals.items ≡ [] }
    {
        Errors {
            totals: Vec::new(alloc),
        }
    }

    /// Counts the line of an error.
    ///
    /// # Errors
    ///
    /// Memory ran out. Then nothing is counted.
    pub fn count(
        &mut self,
        partition: &Option<Name>,
        error: ErrorKind,
        response: Response,
    ) -> Result<(), MemoryFull>
        ensures counted { OnOk result
            (IsCounted partition.now error response self.old.totals.items
            self.new.totals.items) }
        ensures kept { OnErr result (self.new.totals.items ≡ self.old.totals.items) }
    {
        match self.place_of(partition, error, response) {
            Some(place) => self.totals[place].count(),
            None => self.totals.push(ErrorTotal {
                partition: *partition,
                error,
                response,
                lines: 1,
            })?,
        }
        Ok(())
    }

    /// The place where such lines are counted; `None` if there was none.
    fn place_of(
        &self,
        partition: &Option<Name>,
        error: ErrorKind,
        response: Response,
    ) -> Option<usize>
        ensures { MatchOption result (IsNoneOf partition.now error response self.now.totals.items)
            (λ place. (one : ErrorTotal)
            × ((slice_get self.now.totals.items place ≡ Some one)
            × IsOf partition.now error response one)) }
    {
        for (place, total) in self.totals.iter().enumerate() {
            if total.is_of(partition, error, response) {
                return Some(place);
            }
        }
        None
    }

    /// The totals.
    pub fn into_totals(self) -> Vec<ErrorTotal>
        ensures { result ≡ self.totals }
    {
        self.totals
    }
}
