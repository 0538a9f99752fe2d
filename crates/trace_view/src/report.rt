//! The numbers of a trace.

use crate::errors::ErrorTotal;
use crate::extent::Extent;
use crate::messages::{Messages, Route};
use crate::modes::ModeTicks;
use crate::responses::ResponseSpreads;
use crate::sheet::{self, HEADINGS};
use crate::starts::Starts;
use crate::tally::Tally;
use crate::writing;
use apex_types::{Name, Subject};
use number_tables::Sheet;
use std::alloc::{AllocError, Global};
use trace_windows::Shares;

/// The numbers of a partition.
#[derive(Clone, Copy)]
pub struct PartitionTotal {
    pub name: Name,
    pub modes: ModeTicks,
    pub starts: Starts,
}

/// The numbers of a process, of INIT or of an error handler.
#[derive(Clone, Copy)]
pub struct ProcessTotal {
    pub partition: Name,
    pub who: Subject,
    pub tally: Tally,
    /// The percentiles of its response times.
    pub spreads: ResponseSpreads,
}

/// The messages of a port or a channel.
#[derive(Clone, Copy)]
pub struct RouteTotal {
    pub partition: Name,
    pub route: Route,
    pub messages: Messages,
}

/// The summary of a trace. Partitions are in the order of their first lines; the processes, ports
/// and channels of each are together, in the order of their first lines.
#[derive(Drop)]
pub struct Report {
    pub extent: Extent,
    pub partitions: Vec<PartitionTotal>,
    pub processes: Vec<ProcessTotal>,
    pub routes: Vec<RouteTotal>,
    /// In the order of their first lines.
    pub errors: Vec<ErrorTotal>,
    /// What the processor did, if the windows are known.
    pub shares: Option<Shares>,
}

impl Report {
    /// The numbers as tables, each with a line that says what it shows, and a line of headings.
    ///
    /// # Errors
    ///
    /// Memory ran out.
    pub fn tables(&self, alloc: Global) -> Result<Vec<u8>, AllocError> {
        let mut text = Vec::new(alloc);
        writing::write_tables(alloc, self, &mut text)?;
        Ok(text)
    }

    /// The numbers as one table of comma-separated values, with a line of headings.
    ///
    /// # Errors
    ///
    /// Memory ran out.
    pub fn sheet(&self, alloc: Global) -> Result<Vec<u8>, AllocError> {
        let mut sheet = Sheet::new(alloc, &HEADINGS)?;
        sheet::fill(self, &mut sheet)?;
        Ok(sheet.into_text())
    }
}
