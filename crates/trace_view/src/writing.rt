//! The tables of a report.

use crate::cell::{
    condition_cells, extent_cells, mode_cells, port_cells, service_cells, state_cells, time_cells,
};
use crate::messages::Route;
use crate::report::Report;
use crate::usage::write_usage;
use number_tables::{Cell, Table};
use std::alloc::{AllocError, Global};
use trace_stays::subject_word;

/// Appends the tables, with an empty line between two of them. A table without rows is left out.
pub fn write_tables(alloc: Global, report: &Report, text: &mut Vec<u8>) -> Result<(), AllocError> {
    write_extent(alloc, report, text)?;
    write_states(alloc, report, text)?;
    if let Some(shares) = &report.shares {
        write_usage(alloc, shares, report.extent.window.ticks(), text)?;
    }
    write_times(alloc, report, text)?;
    write_services(alloc, report, text)?;
    write_modes(alloc, report, text)?;
    write_conditions(alloc, report, text)?;
    write_errors(alloc, report, text)?;
    write_ports(alloc, report, text)?;
    write_channels(alloc, report, text)
}

fn write_extent(alloc: Global, report: &Report, text: &mut Vec<u8>) -> Result<(), AllocError> {
    let numbers = ["lines", "first tick", "last tick", "from", "to", "ticks"];
    let mut table = Table::new(alloc, &[], &numbers)?;
    table.add(&[], &extent_cells(&report.extent))?;
    table.write("The trace: its lines, and the ticks that count", text)
}

fn write_states(alloc: Global, report: &Report, text: &mut Vec<u8>) -> Result<(), AllocError> {
    let numbers = ["RUNNING", "%", "READY", "%", "WAITING", "%", "DORMANT", "%"];
    let mut table = Table::new(alloc, &["partition", "process"], &numbers)?;
    let all = report.extent.window.ticks();
    for process in &report.processes {
        let names = [process.partition.as_str(), subject_word(&process.who)];
        table.add(&names, &state_cells(process.tally.ticks, all))?;
    }
    table.write(
        "\nProcesses: ticks in each state, and their share of all ticks",
        text,
    )
}

fn write_times(alloc: Global, report: &Report, text: &mut Vec<u8>) -> Result<(), AllocError> {
    let numbers = [
        "activations",
        "least to RUNNING",
        "median",
        "95 %",
        "greatest",
        "least to end",
        "median",
        "95 %",
        "greatest",
        "deadlines missed",
    ];
    let mut table = Table::new(alloc, &["partition", "process"], &numbers)?;
    for process in &report.processes {
        let names = [process.partition.as_str(), subject_word(&process.who)];
        table.add(&names, &time_cells(&process.tally, process.spreads))?;
    }
    table.write(
        "\nProcesses: activations, and ticks from READY to RUNNING and to the end",
        text,
    )
}

fn write_services(alloc: Global, report: &Report, text: &mut Vec<u8>) -> Result<(), AllocError> {
    let numbers = [
        "NO_ACTION",
        "NOT_AVAILABLE",
        "INVALID_PARAM",
        "INVALID_CONFIG",
        "INVALID_MODE",
        "TIMED_OUT",
        "messages",
    ];
    let mut table = Table::new(alloc, &["partition", "process"], &numbers)?;
    for process in &report.processes {
        let names = [process.partition.as_str(), subject_word(&process.who)];
        table.add(&names, &service_cells(&process.tally))?;
    }
    table.write(
        "\nProcesses: services refused, by their codes, and application messages",
        text,
    )
}

fn write_modes(alloc: Global, report: &Report, text: &mut Vec<u8>) -> Result<(), AllocError> {
    let numbers = [
        "NORMAL",
        "COLD_START",
        "WARM_START",
        "IDLE",
        "cold starts",
        "warm starts",
    ];
    let mut table = Table::new(alloc, &["partition"], &numbers)?;
    for partition in &report.partitions {
        let cells = mode_cells(partition.modes, partition.starts);
        table.add(&[partition.name.as_str()], &cells)?;
    }
    table.write("\nPartitions: ticks in each mode, and starts", text)
}

fn write_conditions(alloc: Global, report: &Report, text: &mut Vec<u8>) -> Result<(), AllocError> {
    let numbers = [
        "NORMAL_START",
        "PARTITION_RESTART",
        "HM_MODULE_RESTART",
        "HM_PARTITION_RESTART",
    ];
    let mut table = Table::new(alloc, &["partition"], &numbers)?;
    for partition in &report.partitions {
        let cells = condition_cells(partition.starts.conditions);
        table.add(&[partition.name.as_str()], &cells)?;
    }
    table.write("\nPartitions: starts, by their conditions", text)
}

fn write_errors(alloc: Global, report: &Report, text: &mut Vec<u8>) -> Result<(), AllocError> {
    let names = ["partition", "error", "level", "action"];
    let mut table = Table::new(alloc, &names, &["lines"])?;
    for total in &report.errors {
        let names = [
            total.partition_word(),
            total.error_word(),
            total.level_word(),
            total.action_word(),
        ];
        table.add(&names, &[Cell::Number(total.lines)])?;
    }
    table.write("\nErrors, by their level and the action on them", text)
}

fn write_ports(alloc: Global, report: &Report, text: &mut Vec<u8>) -> Result<(), AllocError> {
    let numbers = ["moved", "arrived", "lost"];
    let mut table = Table::new(alloc, &["partition", "port"], &numbers)?;
    for total in &report.routes {
        if let Route::Port(port) = &total.route {
            let names = [total.partition.as_str(), port.as_str()];
            table.add(&names, &port_cells(total.messages))?;
        }
    }
    table.write("\nPorts: messages", text)
}

fn write_channels(alloc: Global, report: &Report, text: &mut Vec<u8>) -> Result<(), AllocError> {
    let mut table = Table::new(alloc, &["partition", "channel"], &["out"])?;
    for total in &report.routes {
        if let Route::Channel(channel) = &total.route {
            let names = [total.partition.as_str(), channel.as_str()];
            table.add(&names, &[Cell::Number(total.messages.out)])?;
        }
    }
    table.write("\nChannels: messages that left the module", text)
}
