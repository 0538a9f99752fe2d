//! The places of the rows of a picture.

use crate::length::Length;
use crate::shape::{Message, Owner, Shape, Stop};
use std::alloc::{AllocError, Global};
use trace_stays::Lanes;

/// The top of the first row, under the axis.
pub const FIRST_ROW: Length = Length(600);

/// The height of a row.
pub const ROW: Length = Length(220);

/// The room between two partitions.
pub const GAP: Length = Length(180);

/// The tops of the rows. A lane with nothing to show has no row.
#[derive(Drop)]
pub struct Rows {
    /// The lane of windows, if they are known.
    pub windows: Option<Length>,
    pub outside: Option<Length>,
    pub module: Option<Length>,
    partitions: Vec<Option<Length>>,
    processes: Vec<Option<Length>>,
    /// The end of the last row.
    pub bottom: Length,
}

/// Gives the lane at this place a row with this top.
fn put(tops: &mut Vec<Option<Length>>, place: usize, top: Length) {
    if let Some(row) = tops.get_mut(place) {
        *row = Some(top);
    }
}

impl Rows {
    /// The rows for these shapes: the lane of windows, if there is one, outside and the module first,
    /// then each partition with its processes, in the order of their first lines.
    ///
    /// # Errors
    ///
    /// Memory ran out.
    pub fn new(
        alloc: Global,
        lanes: &Lanes,
        shapes: &[Shape],
        has_windows: bool,
    ) -> Result<Rows, AllocError> {
        let mut rows = Rows {
            windows: None,
            outside: None,
            module: None,
            partitions: vec![in alloc; None; lanes.partitions().len()]?,
            processes: vec![in alloc; None; lanes.processes().len()]?,
            bottom: FIRST_ROW,
        };
        for shape in shapes {
            rows.show(lanes, shape);
        }
        rows.place(lanes, has_windows);
        Ok(rows)
    }

    /// Gives the lanes of a shape some row, until all lanes with a row are known.
    fn show(&mut self, lanes: &Lanes, shape: &Shape) {
        match shape {
            Shape::Mode(partition, _) => put(&mut self.partitions, *partition, FIRST_ROW),
            Shape::State(process, _) => self.show_process(lanes, *process),
            Shape::Message(message) => {
                self.show_stop(message.from);
                self.show_stop(message.to);
            }
            Shape::Flag(flag) => match flag.owner {
                Owner::Module => self.module = Some(FIRST_ROW),
                Owner::Partition(partition) => put(&mut self.partitions, partition, FIRST_ROW),
                Owner::Process(process) => self.show_process(lanes, process),
            },
            Shape::Report(report) => self.show_process(lanes, report.process),
        }
    }

    /// A partition has a row if one of its processes has one.
    fn show_process(&mut self, lanes: &Lanes, process: usize) {
        put(&mut self.processes, process, FIRST_ROW);
        if let Some(lane) = lanes.processes().get(process) {
            put(&mut self.partitions, lane.partition, FIRST_ROW);
        }
    }

    fn show_stop(&mut self, stop: Stop) {
        match stop {
            Stop::Device | Stop::Channel(_) => self.outside = Some(FIRST_ROW),
            Stop::Port(partition, _) => put(&mut self.partitions, partition, FIRST_ROW),
        }
    }

    /// Gives each lane with a row its place.
    fn place(&mut self, lanes: &Lanes, has_windows: bool) {
        if has_windows {
            self.windows = Some(self.take_row());
            self.bottom = self.bottom + GAP.half();
        }
        if self.outside.is_some() {
            self.outside = Some(self.take_row());
        }
        if self.module.is_some() {
            self.bottom = self.bottom + GAP.half();
            self.module = Some(self.take_row());
        }
        for (partition, _) in lanes.partitions().iter().enumerate() {
            if self.partition(partition).is_some() {
                self.bottom = self.bottom + GAP;
                let top = self.take_row();
                put(&mut self.partitions, partition, top);
                self.place_processes(lanes, partition);
            }
        }
    }

    /// Gives each process of a partition that has a row its place.
    fn place_processes(&mut self, lanes: &Lanes, partition: usize) {
        for (process, lane) in lanes.processes().iter().enumerate() {
            if lane.partition == partition && self.process(process).is_some() {
                let top = self.take_row();
                put(&mut self.processes, process, top);
            }
        }
    }

    fn take_row(&mut self) -> Length {
        let top = self.bottom;
        self.bottom = top + ROW;
        top
    }

    /// The top of a partition's row of modes.
    pub fn partition(&self, partition: usize) -> Option<Length> {
        *self.partitions.get(partition)?
    }

    /// The top of a process's row.
    pub fn process(&self, process: usize) -> Option<Length> {
        *self.processes.get(process)?
    }

    /// The place where the last row of the partition with this top ends.
    pub fn end_of(&self, lanes: &Lanes, partition: usize, top: Length) -> Length {
        let mut end = top + ROW;
        for (process, lane) in lanes.processes().iter().enumerate() {
            if lane.partition == partition {
                if let Some(top) = self.process(process) {
                    end = end.at_least(top + ROW);
                }
            }
        }
        end
    }

    /// The top of the row of a flag.
    pub fn owner(&self, owner: Owner) -> Option<Length> {
        match owner {
            Owner::Module => self.module,
            Owner::Partition(partition) => self.partition(partition),
            Owner::Process(process) => self.process(process),
        }
    }

    /// The tops of the rows where a message begins and ends its way.
    pub fn ends(&self, message: &Message) -> (Option<Length>, Option<Length>) {
        (self.stop(message.from), self.stop(message.to))
    }

    fn stop(&self, stop: Stop) -> Option<Length> {
        match stop {
            Stop::Device | Stop::Channel(_) => self.outside,
            Stop::Port(partition, _) => self.partition(partition),
        }
    }
}
