//! The variables of a dump, found line by line.

ghost use Rattle.std.specs.Prelude.{◌≡◌};

use crate::pulse::{Pulse, PulseLane, is_same_pulse};
use apex_types::{Event, EventKind, Name, Ticks};
use std::alloc::Global;
use trace_stays::{Lanes, MemoryFull, ShownTicks};

/// An odd factor, so that no two sums become one.
const FACTOR: u64 = 0x9E37_79B9_7F4A_7C15;

/// What has variables in a dump, and the ticks of the dump. It takes the events of a trace in their
/// order. Its size is that of the module, and not that of the trace.
#[derive(Drop)]
pub struct Wires {
    /// The ticks that the dump has.
    pub(crate) shown: ShownTicks,
    pub(crate) lanes: Lanes,
    pub(crate) pulses: Vec<PulseLane>,
    /// A sum of all that the dump depends on, by which another trace is noticed.
    pub(crate) sum: u64,
}

/// How many partitions, processes and pulses have variables.
#[derive(Clone, Copy, PartialEq, Eq)]
pub struct Size {
    partitions: usize,
    processes: usize,
    pulses: usize,
}

impl Wires {
    ghost use Rattle.trace_stays.specs.Shown.{is_before_end, shown_from, shown_ticks, with_read};

    /// Nothing has variables yet. The dump has the ticks from `from` on and before `to`; without it,
    /// all to the end of the trace.
    pub fn new(alloc: Global, from: Ticks, to: Option<Ticks>) -> Wires
        ensures { result.shown ≡ shown_from from to }
    {
        Wires {
            shown: ShownTicks::new(from, to),
            lanes: Lanes::new(alloc),
            pulses: Vec::new(alloc),
            sum: 0,
        }
    }

    /// Takes the next event. Returns true if it is before the end of the dump; otherwise nothing
    /// changes.
    ///
    /// # Errors
    ///
    /// Memory ran out.
    pub fn add(&mut self, event: &Event) -> Result<bool, MemoryFull>
        ensures { self.new.shown ≡ with_read event.now.tick.0 self.old.shown }
    {
        if !self.shown.read(event.tick) {
            return Ok(false);
        }
        self.note(event.tick.0);
        if let Some(name) = &event.partition {
            let place = self.lane_place(name, &event.kind)?;
            self.note(place as u64);
        }
        if event.tick.0 >= self.shown.open().from.0 {
            if let Some(place) = self.pulse_place(event)? {
                self.note(place as u64);
            }
        }
        self.note(number_in(&event.kind));
        Ok(true)
    }

    /// The tick before which the dump ends, if no line follows.
    pub fn until(&self) -> Ticks
        ensures { result ≡ (shown_ticks self.now.shown).until }
    {
        self.shown.span().until
    }

    pub(crate) fn size(&self) -> Size {
        Size {
            partitions: self.lanes.partitions().len(),
            processes: self.lanes.processes().len(),
            pulses: self.pulses.len(),
        }
    }

    /// The place of the pulse that an event is, if it is one.
    pub(crate) fn pulse_place(&mut self, event: &Event) -> Result<Option<usize>, MemoryFull>
        ensures { self.new.shown ≡ self.old.shown }
    {
        let Some(pulse) = Pulse::of(&event.kind) else {
            return Ok(None);
        };
        let partition = match &event.partition {
            Some(name) => Some(self.lanes.partition_place(name)?),
            None => None,
        };
        let place = place_of_pulse(&mut self.pulses, PulseLane { partition, pulse })?;
        Ok(Some(place))
    }

    /// The place of the process whose state a line of this partition says; for other lines that of the
    /// partition.
    fn lane_place(&mut self, partition: &Name, kind: &EventKind) -> Result<usize, MemoryFull>
        ensures { self.new.shown ≡ self.old.shown }
    {
        match kind {
            EventKind::State(who, _) => self.lanes.process_place(partition, who),
            _ => self.lanes.partition_place(partition),
        }
    }

    /// Adds a number to the sum, which then differs from that with any other number.
    fn note(&mut self, number: u64)
        ensures { self.new.shown ≡ self.old.shown }
    {
        self.sum = (self.sum ^ number).wrapping_mul(FACTOR);
    }
}

/// The state, the mode or the first word of a line.
fn number_in(kind: &EventKind) -> u64 {
    match kind {
        EventKind::State(_, state) => *state as u64,
        EventKind::Mode(mode) => *mode as u64,
        _ => match kind.words().first() {
            Some(word) => word.unsigned_abs(),
            None => 0,
        },
    }
}

/// The place of these pulses, which become the last ones if they have none.
fn place_of_pulse(pulses: &mut Vec<PulseLane>, lane: PulseLane) -> Result<usize, MemoryFull> {
    for (place, known) in pulses.iter().enumerate() {
        if known.partition == lane.partition && is_same_pulse(&known.pulse, &lane.pulse) {
            return Ok(place);
        }
    }
    pulses.push(lane)?;
    Ok(pulses.len() - 1)
}
