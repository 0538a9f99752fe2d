//! The beginning of a dump: its variables, and their first values.

use crate::pulse::{Group, PulseLane};
use crate::variable::Variable;
use apex_types::{Mode, Name, ProcessState, Ticks};
use std::alloc::AllocError;
use std::fmt::Write;
use trace_stays::{Lanes, PartitionLane, ProcessLane, subject_word};

/// The modes and states, in the order of their wires.
static MODES: [Mode; 4] = [Mode::Idle, Mode::ColdStart, Mode::WarmStart, Mode::Normal];

static STATES: [ProcessState; 4] = [
    ProcessState::Dormant,
    ProcessState::Ready,
    ProcessState::Running,
    ProcessState::Waiting,
];

/// What has variables in a dump.
#[derive(Clone, Copy)]
pub struct Header<'a> {
    pub lanes: &'a Lanes,
    pub pulses: &'a [PulseLane],
    /// The partitions of the module table; none without one.
    pub names: &'a [Name],
}

/// Appends the part before the changes, of a dump that begins with this tick.
///
/// # Errors
///
/// Memory ran out. Then a beginning of it may be there.
pub fn push_header(from: Ticks, header: Header<'_>, text: &mut String) -> Result<(), AllocError> {
    text.push_str("$version mbview $end\n")?;
    text.push_str("$comment One time unit stands for a tick of the processor. $end\n")?;
    text.push_str("$timescale 1 ns $end\n")?;
    for (place, lane) in header.lanes.partitions().iter().enumerate() {
        push_partition(place, lane, header, text)?;
    }
    push_others(header.lanes.partitions(), header.names, text)?;
    push_module(header.pulses, text)?;
    write!(text, "$enddefinitions $end\n#{}\n", from.0)?;
    push_first_values(header, text)
}

fn begin_scope(name: &str, text: &mut String) -> Result<(), AllocError> {
    write!(text, "$scope module {name} $end\n")
}

fn end_scope(text: &mut String) -> Result<(), AllocError> {
    text.push_str("$upscope $end\n")
}

fn push_wire(variable: Variable, name: &str, text: &mut String) -> Result<(), AllocError> {
    write!(text, "$var wire 1 {variable} {name} $end\n")
}

/// Appends the scope of a partition: its windows, its modes, its processes, its pulses.
fn push_partition(
    place: usize,
    lane: &PartitionLane,
    header: Header<'_>,
    text: &mut String,
) -> Result<(), AllocError> {
    begin_scope(lane.name.as_str(), text)?;
    if let Some(number) = number_of(header.names, &lane.name) {
        push_wire(Variable::Window(number), "WINDOW", text)?;
    }
    push_modes(place, text)?;
    for (process, lane) in header.lanes.processes().iter().enumerate() {
        if lane.partition == place {
            push_process(process, lane, text)?;
        }
    }
    push_group(Group::Messages, Some(place), header.pulses, text)?;
    push_group(Group::Reports, Some(place), header.pulses, text)?;
    push_group(Group::Errors, Some(place), header.pulses, text)?;
    end_scope(text)
}

/// Appends the scope of the modes of the partition at this place.
fn push_modes(place: usize, text: &mut String) -> Result<(), AllocError> {
    begin_scope("MODE", text)?;
    for mode in &MODES {
        push_wire(Variable::Mode(place, *mode), mode.word(), text)?;
    }
    write!(
        text,
        "$var string 1 {} MODE $end\n",
        Variable::ModeName(place)
    )?;
    end_scope(text)
}

/// Appends the scope of the process at this place. A viewer shows the last part of a name, so each has
/// that of the process.
fn push_process(place: usize, lane: &ProcessLane, text: &mut String) -> Result<(), AllocError> {
    let who = subject_word(&lane.who);
    begin_scope(who, text)?;
    for state in &STATES {
        let (wire, word) = (Variable::State(place, *state), state.word());
        write!(text, "$var wire 1 {wire} {who}_{word} $end\n")?;
    }
    let name = Variable::StateName(place);
    write!(text, "$var string 1 {name} {who}_STATE $end\n")?;
    end_scope(text)
}

/// Appends the scope of one group of pulses, if the group has any.
fn push_group(
    group: Group,
    owner: Option<usize>,
    pulses: &[PulseLane],
    text: &mut String,
) -> Result<(), AllocError> {
    let mut is_begun = false;
    for (place, lane) in pulses.iter().enumerate() {
        if lane.is_in(group, owner) {
            if !is_begun {
                begin_scope(group.word(), text)?;
                is_begun = true;
            }
            push_pulse(place, lane, group, text)?;
        }
    }
    if is_begun { end_scope(text) } else { Ok(()) }
}

/// Appends the variables of a pulse: its event, and the first word of its message. Errors have none.
fn push_pulse(
    place: usize,
    lane: &PulseLane,
    group: Group,
    text: &mut String,
) -> Result<(), AllocError> {
    let (event, word, pulse) = (Variable::Pulse(place), Variable::Word(place), lane.pulse);
    write!(text, "$var event 1 {event} {pulse} $end\n")?;
    if group != Group::Errors {
        write!(text, "$var reg 64 {word} {pulse}_WORD $end\n")?;
    }
    Ok(())
}

/// Appends the scopes of the partitions that have windows and no line.
fn push_others(
    lanes: &[PartitionLane],
    names: &[Name],
    text: &mut String,
) -> Result<(), AllocError> {
    for (number, name) in (1u8..=u8::MAX).zip(names.iter()) {
        if !lanes
            .iter()
            .any(|lane| lane.name.as_bytes() == name.as_bytes())
        {
            begin_scope(name.as_str(), text)?;
            push_wire(Variable::Window(number), "WINDOW", text)?;
            end_scope(text)?;
        }
    }
    Ok(())
}

/// The number of a partition in the module table, from 1; `None` without a table.
fn number_of(names: &[Name], name: &Name) -> Option<u8> {
    for (number, known) in (1u8..=u8::MAX).zip(names.iter()) {
        if known.as_bytes() == name.as_bytes() {
            return Some(number);
        }
    }
    None
}

/// Appends the scope of the module's own errors, if it has any.
fn push_module(pulses: &[PulseLane], text: &mut String) -> Result<(), AllocError> {
    if !pulses.iter().any(|lane| lane.is_in(Group::Errors, None)) {
        return Ok(());
    }
    begin_scope("MODULE", text)?;
    push_group(Group::Errors, None, pulses, text)?;
    end_scope(text)
}

/// Appends that all wires are 0 before the first changes, and no name is shown.
fn push_first_values(header: Header<'_>, text: &mut String) -> Result<(), AllocError> {
    text.push_str("$dumpvars\n")?;
    for (number, _) in (1u8..=u8::MAX).zip(header.names.iter()) {
        write!(text, "0{}\n", Variable::Window(number))?;
    }
    for (place, _) in header.lanes.partitions().iter().enumerate() {
        for mode in &MODES {
            write!(text, "0{}\n", Variable::Mode(place, *mode))?;
        }
        write!(text, "s- {}\n", Variable::ModeName(place))?;
    }
    for (place, _) in header.lanes.processes().iter().enumerate() {
        for state in &STATES {
            write!(text, "0{}\n", Variable::State(place, *state))?;
        }
        write!(text, "s- {}\n", Variable::StateName(place))?;
    }
    text.push_str("$end\n")
}
