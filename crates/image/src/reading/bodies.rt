//! The procedures, processes, INIT and handler of a partition, and its code.

ghost use Rattle.std.specs.Prelude.{◌≡◌, ◌<◌, [], nat_lt};
ghost use Rattle.std.specs.List.{list_all};
ghost use Rattle.apex_types.specs.Limits.{INSTRUCTION_BYTES, MOST_PROCESSES};
ghost use Rattle.machine_meaning.specs.ImageReading.{is_process, fresh_name_at, duration_at, period_at, duration_of, is_infinite_or_multiple, routine_at, body_at, process_at, items_at, list_at, handler_at, bodies_at, enter_within, handler_enters, code_at, bytes_at};
ghost use Rattle.image.specs.Views.{Gives, bodies_of};

use crate::fault::ImageFault;
use crate::reading::choices::truth_at;
use crate::reading::numbers::{
    i64_at, name_at, same_name, u8_within, u16_within, u32_at, u32_within,
};
use crate::reading::rows::{Row, list_at, rows_at};
use apex_types::limits::{
    GREATEST_PRIORITY, INSTRUCTION_BYTES, LEAST_STACK_WORDS, MOST_INSTRUCTIONS, MOST_PARAMETERS,
    MOST_PROCEDURES, MOST_SLOTS, MOST_STACK_WORDS, MOST_TICKS,
};
use apex_types::{BodyRow, Limits, Name, Priority, ProcessRow, RoutineRow};
use std::alloc::Global;

/// The parts of a source that run: its procedures, processes, INIT and handler.
#[derive(Drop)]
pub struct Bodies {
    pub routines: Vec<RoutineRow>,
    pub processes: Vec<ProcessRow>,
    pub init: BodyRow,
    pub handler: Option<BodyRow>,
}

impl Row for RoutineRow {
    ghost reads = { λ _ _. routine_at };

    #[tactic(auto, unfolding(machine_meaning::specs::ImageReading::routine_at))]
    fn read<'a>(
        _limits: Limits,
        _before: &[RoutineRow],
        bytes: &'a [u8],
    ) -> Result<(RoutineRow, &'a [u8]), ImageFault> {
        let (entry, rest) = u32_at(bytes)?;
        let (parameters, rest) = u8_within(rest, 0, MOST_PARAMETERS)?;
        let (slots, rest) = u16_within(rest, u16::from(parameters), MOST_SLOTS)?;
        let (frame, rest) = u32_within(rest, u32::from(slots) + 2, MOST_STACK_WORDS as u32)?;
        let row = RoutineRow {
            entry,
            parameters,
            slots,
            frame,
        };
        Ok((row, rest))
    }
}

#[tactic(auto, unfolding(machine_meaning::specs::ImageReading::body_at))]
fn body_at(bytes: &[u8]) -> Result<(BodyRow, &[u8]), ImageFault>
    ensures { Gives (λ x. (x.0, x.1.now)) result (body_at bytes.now) }
{
    let (stack, rest) = u16_within(bytes, LEAST_STACK_WORDS, MOST_STACK_WORDS)?;
    let (entry, rest) = u32_at(rest)?;
    let (slots, rest) = u16_within(rest, 0, MOST_SLOTS)?;
    let (frame, rest) = u32_within(rest, u32::from(slots) + 2, u32::from(stack))?;
    let row = BodyRow {
        stack,
        entry,
        slots,
        frame,
    };
    Ok((row, rest))
}

/// The duration that a word means; -1 means none.
fn duration_of(word: i64) -> Option<Option<u64>>
    ensures { result ≡ duration_of word }
{
    if word == -1 {
        Some(None)
    } else if 1 <= word && word <= MOST_TICKS as i64 {
        Some(Some(word as u64))
    } else {
        None
    }
}

#[tactic(auto, unfolding(machine_meaning::specs::ImageReading::duration_at))]
fn duration_at(bytes: &[u8]) -> Result<(Option<u64>, &[u8]), ImageFault>
    ensures { Gives (λ x. (x.0, x.1.now)) result (duration_at bytes.now) }
{
    let (word, rest) = i64_at(bytes)?;
    match duration_of(word) {
        Some(duration) => Ok((duration, rest)),
        None => Err(ImageFault::Limit),
    }
}

/// Returns true if a period is infinite, or a multiple of the partition's.
fn is_infinite_or_multiple(unit: u32, period: Option<u64>) -> bool
    requires { 0 < unit }
    ensures { result ≡ is_infinite_or_multiple unit period }
{
    match period {
        Some(ticks) => ticks % u64::from(unit) == 0,
        None => true,
    }
}

#[tactic(auto, unfolding(machine_meaning::specs::ImageReading::period_at))]
fn period_at(unit: u32, bytes: &[u8]) -> Result<(Option<u64>, &[u8]), ImageFault>
    requires { 0 < unit }
    ensures { Gives (λ x. (x.0, x.1.now)) result (period_at unit bytes.now) }
{
    let (period, rest) = duration_at(bytes)?;
    if !is_infinite_or_multiple(unit, period) {
        return Err(ImageFault::Limit);
    }
    Ok((period, rest))
}

fn is_process(rows: &[ProcessRow], name: &Name) -> bool
    ensures { result ≡ is_process rows.now name.now }
{
    rows.iter().any(|row| same_name(&row.name, name))
}

#[tactic(auto, unfolding(machine_meaning::specs::ImageReading::fresh_name_at))]
fn process_name_at<'a>(
    before: &[ProcessRow],
    bytes: &'a [u8],
) -> Result<(Name, &'a [u8]), ImageFault>
    ensures { Gives (λ x. (x.0, x.1.now)) result (fresh_name_at (is_process before.now) bytes.now) }
{
    match name_at(bytes) {
        Ok((name, _)) if is_process(before, &name) => Err(ImageFault::Order),
        found => found,
    }
}

#[tactic(auto, unfolding(machine_meaning::specs::ImageReading::process_at))]
fn process_at<'a>(
    unit: u32,
    before: &[ProcessRow],
    bytes: &'a [u8],
) -> Result<(ProcessRow, &'a [u8]), ImageFault>
    requires { 0 < unit }
    ensures { Gives (λ x. (x.0, x.1.now)) result (process_at unit before.now bytes.now) }
{
    let (name, rest) = match process_name_at(before, bytes) {
        Ok(found) => found,
        Err(fault) => return Err(fault),
    };
    let (priority, rest) = u8_within(rest, 1, GREATEST_PRIORITY)?;
    let (period, rest) = period_at(unit, rest)?;
    let (capacity, rest) = duration_at(rest)?;
    let (body, rest) = body_at(rest)?;
    let row = ProcessRow {
        name,
        priority: Priority(priority),
        period,
        capacity,
        body,
    };
    Ok((row, rest))
}

fn processes_at(
    alloc: Global,
    unit: u32,
    count: u32,
    bytes: &[u8],
) -> Result<(Vec<ProcessRow>, &[u8]), ImageFault>
    requires { 0 < unit }
    ensures { Gives (λ x. (x.0.items, x.1.now)) result
        (items_at (process_at unit) count [] bytes.now) }
{
    let mut rows: Vec<ProcessRow> = Vec::new(alloc);
    let mut rest = bytes;
    for _ in 0..count {
        let (row, after) = match process_at(unit, &rows, rest) {
            Ok(found) => found,
            Err(fault) => return Err(fault),
        };
        rows.push(row)?;
        rest = after;
    }
    Ok((rows, rest))
}

#[tactic(auto, unfolding(machine_meaning::specs::ImageReading::list_at))]
fn process_list_at(
    alloc: Global,
    limits: Limits,
    unit: u32,
    bytes: &[u8],
) -> Result<(Vec<ProcessRow>, &[u8]), ImageFault>
    requires { 0 < unit }
    ensures { Gives (λ x. (x.0.items, x.1.now)) result
        (list_at 0 limits.processes (process_at unit) bytes.now) }
{
    let (count, rest) = u32_within(bytes, 0, u32::from(limits.processes))?;
    processes_at(alloc, unit, count, rest)
}

#[tactic(auto, unfolding(machine_meaning::specs::ImageReading::handler_at))]
fn handler_at(bytes: &[u8]) -> Result<(Option<BodyRow>, &[u8]), ImageFault>
    ensures { Gives (λ x. (x.0, x.1.now)) result (handler_at bytes.now) }
{
    let (is_there, rest) = truth_at(bytes)?;
    if !is_there {
        return Ok((None, rest));
    }
    let (body, rest) = body_at(rest)?;
    Ok((Some(body), rest))
}

/// The bodies of a partition with a period of `unit` ticks.
#[tactic(auto, unfolding(machine_meaning::specs::ImageReading::bodies_at))]
pub fn bodies_at(
    alloc: Global,
    limits: Limits,
    unit: u32,
    bytes: &[u8],
) -> Result<(Bodies, &[u8]), ImageFault>
    requires { 0 < unit }
    ensures { Gives (λ x. (bodies_of x.0, x.1.now)) result (bodies_at limits unit bytes.now) }
{
    let (routines, rest) = list_at(alloc, limits, bytes, 0, MOST_PROCEDURES as u32)?;
    let (processes, rest) = process_list_at(alloc, limits, unit, rest)?;
    let (init, rest) = body_at(rest)?;
    let (handler, rest) = handler_at(rest)?;
    let bodies = Bodies {
        routines,
        processes,
        init,
        handler,
    };
    Ok((bodies, rest))
}

fn handler_enters(count: u32, handler: Option<BodyRow>) -> bool
    ensures { result ≡ handler_enters count handler }
{
    match handler {
        Some(body) => body.entry < count,
        None => true,
    }
}

fn routines_enter(count: u32, rows: &[RoutineRow]) -> bool
    ensures { result ≡ list_all (λ row. nat_lt row.entry count) rows.now }
{
    rows.iter().all(|row| row.entry < count)
}

fn processes_enter(count: u32, rows: &[ProcessRow]) -> bool
    ensures { result ≡ list_all (λ row. nat_lt row.body.entry count) rows.now }
{
    rows.iter().all(|row| row.body.entry < count)
}

/// Returns true if every body begins within `count` instructions.
fn enter_within(count: u32, bodies: &Bodies) -> bool
    ensures { result ≡ enter_within count (bodies_of bodies.now) }
{
    routines_enter(count, &bodies.routines)
        && processes_enter(count, &bodies.processes)
        && bodies.init.entry < count
        && handler_enters(count, bodies.handler)
}

impl Row for [u8; 16] {
    ghost reads = { λ _ _. bytes_at INSTRUCTION_BYTES };

    #[tactic(auto, unfolding(machine_meaning::specs::ImageReading::bytes_at))]
    fn read<'a>(
        _limits: Limits,
        _before: &[[u8; 16]],
        bytes: &'a [u8],
    ) -> Result<([u8; 16], &'a [u8]), ImageFault> {
        match bytes.split_first_chunk::<INSTRUCTION_BYTES>() {
            Some((instruction, rest)) => Ok((*instruction, rest)),
            None => Err(ImageFault::Truncated),
        }
    }
}

/// The code that the bodies enter: a count, which every entry is below, and the instructions.
#[tactic(auto, unfolding(machine_meaning::specs::ImageReading::code_at))]
pub fn code_at<'a>(
    alloc: Global,
    limits: Limits,
    bodies: &Bodies,
    bytes: &'a [u8],
) -> Result<(Vec<[u8; 16]>, &'a [u8]), ImageFault>
    ensures { Gives (λ x. (x.0.items, x.1.now)) result (code_at (bodies_of bodies.now) bytes.now) }
{
    let (count, rest) = u32_within(bytes, 1, MOST_INSTRUCTIONS)?;
    if !enter_within(count, bodies) {
        return Err(ImageFault::Limit);
    }
    rows_at(alloc, limits, count, rest)
}
