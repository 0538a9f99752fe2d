//! A runner whose record was looked up, so that a service looks a record up once.

ghost use Rattle.std.specs.Prelude.{◌<◌};
ghost use Rattle.apex_types.specs.Runners.{place_of};
ghost use Rattle.apex_types.specs.declared.limits.TheConstants.{MOST_RUNNERS};
ghost use Rattle.process_table_base.specs.Bounds.{IsBounded};
ghost use Rattle.process_table_base.specs.BoundedFact.{bounded_prop};

use apex_types::{ProcessStatus, Runner};

/// INIT, the error handler or a process, with a record that the table has of it.
#[derive(Clone, Copy)]
pub struct Found {
    pub runner: Runner,
    pub row: ProcessStatus,
    pub ghost within: { place_of runner < MOST_RUNNERS },
    pub ghost bounded: { IsBounded row } by { bounded_prop row },
}
