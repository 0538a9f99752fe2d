//! The cells of tables.

use crate::conditions::Conditions;
use crate::extent::Extent;
use crate::messages::Messages;
use crate::modes::ModeTicks;
use crate::responses::ResponseSpreads;
use crate::starts::Starts;
use crate::states::StateTicks;
use crate::tally::Tally;
use number_tables::{Cell, Share, number_cell};

/// Lines; the first and the last tick of a line; the first tick that counts, the first that does
/// not, and how many count.
pub fn extent_cells(extent: &Extent) -> [Cell; 6] {
    [
        Cell::Number(extent.lines),
        number_cell(extent.first.map(|tick| tick.0)),
        number_cell(extent.last.map(|tick| tick.0)),
        Cell::Number(extent.window.from.0),
        Cell::Number(extent.window.until.0),
        Cell::Number(extent.window.ticks()),
    ]
}

/// The ticks in each state, and after each its share of all.
pub fn state_cells(ticks: StateTicks, all: u64) -> [Cell; 8] {
    [
        Cell::Number(ticks.running),
        Cell::Share(Share::of(ticks.running, all)),
        Cell::Number(ticks.ready),
        Cell::Share(Share::of(ticks.ready, all)),
        Cell::Number(ticks.waiting),
        Cell::Share(Share::of(ticks.waiting, all)),
        Cell::Number(ticks.dormant),
        Cell::Share(Share::of(ticks.dormant, all)),
    ]
}

/// Activations; the least time to RUNNING, the median, the 95th percentile and the greatest one; the
/// same to the end; missed deadlines.
pub fn time_cells(tally: &Tally, spreads: ResponseSpreads) -> [Cell; 10] {
    [
        Cell::Number(tally.activations),
        number_cell(tally.to_running.map(|times| times.least)),
        number_cell(spreads.to_running.median),
        number_cell(spreads.to_running.ninety_fifth),
        number_cell(tally.to_running.map(|times| times.greatest)),
        number_cell(tally.to_end.map(|times| times.least)),
        number_cell(spreads.to_end.median),
        number_cell(spreads.to_end.ninety_fifth),
        number_cell(tally.to_end.map(|times| times.greatest)),
        Cell::Number(tally.deadlines_missed),
    ]
}

/// Refused services by their codes, from 1 to 6, and application messages.
pub fn service_cells(tally: &Tally) -> [Cell; 7] {
    let refusals = tally.refusals;
    [
        Cell::Number(refusals.no_action),
        Cell::Number(refusals.not_available),
        Cell::Number(refusals.invalid_param),
        Cell::Number(refusals.invalid_config),
        Cell::Number(refusals.invalid_mode),
        Cell::Number(refusals.timed_out),
        Cell::Number(tally.reports),
    ]
}

/// The ticks in each mode, and the starts in COLD_START and WARM_START.
pub fn mode_cells(modes: ModeTicks, starts: Starts) -> [Cell; 6] {
    [
        Cell::Number(modes.normal),
        Cell::Number(modes.cold_start),
        Cell::Number(modes.warm_start),
        Cell::Number(modes.idle),
        Cell::Number(starts.cold),
        Cell::Number(starts.warm),
    ]
}

/// The starts by their conditions: NORMAL_START, PARTITION_RESTART, HM_MODULE_RESTART and
/// HM_PARTITION_RESTART.
pub fn condition_cells(conditions: Conditions) -> [Cell; 4] {
    [
        Cell::Number(conditions.normal_start),
        Cell::Number(conditions.partition_restart),
        Cell::Number(conditions.hm_module_restart),
        Cell::Number(conditions.hm_partition_restart),
    ]
}

/// Two numbers, and after each its share of all.
pub fn paired_cells(one: u64, other: u64, all: u64) -> [Cell; 4] {
    [
        Cell::Number(one),
        Cell::Share(Share::of(one, all)),
        Cell::Number(other),
        Cell::Share(Share::of(other, all)),
    ]
}

/// The messages of a port: moved, arrived, lost.
pub fn port_cells(messages: Messages) -> [Cell; 3] {
    [
        Cell::Number(messages.moved),
        Cell::Number(messages.arrived),
        Cell::Number(messages.lost),
    ]
}
