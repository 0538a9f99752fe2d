//! A report as comma-separated values.

use crate::cell::{
    condition_cells, extent_cells, mode_cells, port_cells, service_cells, state_cells, time_cells,
};
use crate::errors::ErrorTotal;
use crate::messages::Route;
use crate::report::{Report, RouteTotal};
use number_tables::{Cell, Sheet};
use std::alloc::AllocError;
use trace_stays::subject_word;

/// The columns. Each row has the first three, and those of its group.
pub const HEADINGS: [&str; 51] = [
    "kind",
    "partition",
    "name",
    "lines",
    "first_tick",
    "last_tick",
    "from",
    "to",
    "ticks",
    "running",
    "running_percent",
    "ready",
    "ready_percent",
    "waiting",
    "waiting_percent",
    "dormant",
    "dormant_percent",
    "activations",
    "least_to_running",
    "median_to_running",
    "p95_to_running",
    "greatest_to_running",
    "least_to_end",
    "median_to_end",
    "p95_to_end",
    "greatest_to_end",
    "deadlines_missed",
    "no_action",
    "not_available",
    "invalid_param",
    "invalid_config",
    "invalid_mode",
    "timed_out",
    "messages",
    "normal",
    "cold_start",
    "warm_start",
    "idle",
    "cold_starts",
    "warm_starts",
    "normal_starts",
    "partition_restarts",
    "hm_module_restarts",
    "hm_partition_restarts",
    "moved",
    "arrived",
    "lost",
    "out",
    "level",
    "action",
    "errors",
];

/// What takes the rows of a report.
pub trait Rows {
    /// Adds a row of these names. The cells begin in the column with this place.
    fn add(&mut self, names: [&str; 3], place: usize, cells: &[&[Cell]]) -> Result<(), AllocError>;
}

impl Rows for Sheet {
    fn add(&mut self, names: [&str; 3], place: usize, cells: &[&[Cell]]) -> Result<(), AllocError> {
        Sheet::add(self, &names, place, cells)
    }
}

/// Adds a row of the trace, and a row of each partition, process, port and channel, and of the errors
/// of each kind.
pub fn fill<R: Rows>(report: &Report, sheet: &mut R) -> Result<(), AllocError> {
    sheet.add(["trace", "", ""], 3, &[&extent_cells(&report.extent)])?;
    for total in &report.partitions {
        let modes = mode_cells(total.modes, total.starts);
        let conditions = condition_cells(total.starts.conditions);
        let names = ["partition", total.name.as_str(), ""];
        sheet.add(names, 34, &[&modes, &conditions])?;
    }
    add_processes(report, sheet)?;
    for total in &report.routes {
        add_route(total, sheet)?;
    }
    for total in &report.errors {
        add_error(total, sheet)?;
    }
    Ok(())
}

fn add_processes<R: Rows>(report: &Report, sheet: &mut R) -> Result<(), AllocError> {
    let all = report.extent.window.ticks();
    for total in &report.processes {
        let names = [
            "process",
            total.partition.as_str(),
            subject_word(&total.who),
        ];
        let states = state_cells(total.tally.ticks, all);
        let times = time_cells(&total.tally, total.spreads);
        sheet.add(names, 9, &[&states, &times, &service_cells(&total.tally)])?;
    }
    Ok(())
}

/// Adds the row of a port or a channel.
fn add_route<R: Rows>(total: &RouteTotal, sheet: &mut R) -> Result<(), AllocError> {
    match &total.route {
        Route::Port(port) => {
            let names = ["port", total.partition.as_str(), port.as_str()];
            sheet.add(names, 44, &[&port_cells(total.messages)])
        }
        Route::Channel(channel) => {
            let names = ["channel", total.partition.as_str(), channel.as_str()];
            sheet.add(names, 47, &[&[Cell::Number(total.messages.out)]])
        }
    }
}

/// Adds the row of the errors of a kind.
fn add_error<R: Rows>(total: &ErrorTotal, sheet: &mut R) -> Result<(), AllocError> {
    let cells = [
        Cell::Word(total.response.level().word()),
        Cell::Word(total.response.action_word()),
        Cell::Number(total.lines),
    ];
    let names = ["error", total.partition_word(), total.error_word()];
    sheet.add(names, 48, &[&cells])
}
