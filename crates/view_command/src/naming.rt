//! The names that options ask for: a trace or its module table has to have them.

use crate::search::Search;
use crate::views::{TakeEvents, ViewFault};
use apex_types::{Event, EventKind, Name, Subject};
use std::alloc::{AllocError, Global};
use trace_lines::{Filter, route_in, subject_in};
use window_table::ModuleTable;

/// The names that are asked for, and those that were seen so far.
#[derive(Drop)]
pub struct Names {
    partition: Option<Search>,
    process: Option<Search>,
    /// A port or a channel.
    port: Option<Search>,
    /// Whether a process without a line is refused, if no name is near to its own.
    is_strict: bool,
}

/// What takes the events of a trace, with the names that the trace has to have.
#[derive(Drop)]
pub struct Named<T: Drop> {
    pub taker: T,
    pub names: Names,
}

impl<T: TakeEvents + Drop> TakeEvents for Named<T> {
    ghost takes = { λ kept e old new. T.takes kept e old.taker new.taker };

    fn take(&mut self, kept: &Filter, event: &Event) -> Result<(), ViewFault> {
        self.names.see(event)?;
        self.taker.take(kept, event)
    }
}

impl Names {
    /// The names that a view asks for. Those of the module table are seen, if there is one.
    ///
    /// # Errors
    ///
    /// Memory ran out.
    pub fn of_view(
        alloc: Global,
        kept: &Filter,
        is_strict: bool,
        table: &Option<ModuleTable>,
    ) -> Result<Names, AllocError> {
        let mut names = Names {
            partition: search(alloc, &kept.partition, &["-"])?,
            process: search(alloc, &kept.process, &["-", "INIT", "HANDLER"])?,
            port: search(alloc, &kept.port, &["-"])?,
            is_strict,
        };
        names.see_table(table)?;
        Ok(names)
    }

    /// The name of a partition, if one is asked for.
    ///
    /// # Errors
    ///
    /// Memory ran out.
    pub fn of_partition(
        alloc: Global,
        partition: &Option<String>,
        table: &Option<ModuleTable>,
    ) -> Result<Names, AllocError> {
        let mut names = Names {
            partition: search(alloc, partition, &["-"])?,
            process: None,
            port: None,
            is_strict: false,
        };
        names.see_table(table)?;
        Ok(names)
    }

    /// Notes the names of a module table, if there is one.
    fn see_table(&mut self, table: &Option<ModuleTable>) -> Result<(), AllocError> {
        let Some(table) = table else {
            return Ok(());
        };
        for partition in &table.partitions {
            see_name(&mut self.partition, &Some(partition.name))?;
            for port in &partition.ports {
                see_name(&mut self.port, &Some(port.name))?;
            }
        }
        for channel in &table.channels {
            see_name(&mut self.port, &Some(channel.name))?;
        }
        Ok(())
    }

    /// Notes the names of a line.
    ///
    /// # Errors
    ///
    /// Memory ran out.
    pub fn see(&mut self, event: &Event) -> Result<(), AllocError> {
        see_name(&mut self.partition, &event.partition)?;
        see_name(&mut self.port, &route_in(&event.kind))?;
        see_name(&mut self.process, &process_in(&event.kind))
    }

    /// What is said of a partition, a port or a channel that nothing has. A process may just not have run,
    /// so it is told where its name looks like a slip, or if the words ask for that.
    ///
    /// # Errors
    ///
    /// Memory ran out.
    pub fn unknown(&self, alloc: Global) -> Result<Option<String>, AllocError> {
        if let Some(search) = &self.partition {
            if search.is_missed() {
                return Ok(Some(search.line(alloc, "partition")?));
            }
        }
        if let Some(search) = &self.port {
            if search.is_missed() {
                return Ok(Some(search.line(alloc, "port or channel")?));
            }
        }
        if let Some(search) = &self.process {
            if search.is_slip() || (self.is_strict && search.is_missed()) {
                return Ok(Some(search.line(alloc, "process")?));
            }
        }
        Ok(None)
    }
}

/// The search for a name, if one is asked for. Some are always names.
fn search(
    alloc: Global,
    asked: &Option<String>,
    always: &[&str],
) -> Result<Option<Search>, AllocError> {
    match asked {
        Some(asked) => {
            let asked = asked.as_str();
            let is_found = always.iter().any(|name| *name == asked);
            Ok(Some(Search::new(alloc, asked, is_found)?))
        }
        None => Ok(None),
    }
}

/// The name of the process that a line is about, if it has one of its own.
fn process_in(kind: &EventKind) -> Option<Name> {
    let who = subject_in(kind);
    match &who {
        Some(Subject::Process(name)) => Some(*name),
        _ => None,
    }
}

/// Notes a name, if there is one, and one of its kind is asked for.
fn see_name(search: &mut Option<Search>, name: &Option<Name>) -> Result<(), AllocError> {
    match (search, name) {
        (Some(search), Some(name)) => search.see(name),
        _ => Ok(()),
    }
}
