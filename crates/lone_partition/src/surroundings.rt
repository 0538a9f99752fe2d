//! The surroundings of a partition.

ghost use Rattle.std.specs.Prelude.{◌≡◌, ◌≤◌, length, IfOk};
ghost use Rattle.apex_types.specs.Limits.{MOST_PORTS};
ghost use Rattle.machine_meaning.specs.MachineMeaning.{machine_module};
ghost use Rattle.image.specs.Views.{image_of};
ghost use Rattle.isolation.specs.Alone.{way_out};
ghost use Rattle.isolation.specs.Surrounded.{surroundings_of};
ghost use Rattle.lone_partition.specs.Around.{around};

use crate::channels::ways_out;
use apex_types::{ModuleAction, Name, PartitionId, PortId, PortRow};
use image::Image;
use std::alloc::{AllocError, Global};
use window_table::Schedule;

/// The surroundings of a partition, which no tick changes.
#[derive(Drop)]
pub struct Surroundings {
    /// The major frame with the windows of the partition.
    pub schedule: Schedule,
    /// The action on a fault of the module.
    pub fault: ModuleAction,
    /// For each port in number order, the name of the channel by which its messages leave the
    /// module, if there is one.
    pub ways_out: Vec<Option<Name>>,
}

impl Surroundings {
    /// The surroundings, in a module, of the partition with this number and these ports.
    /// `AllocError`: out of memory.
    pub fn load(
        alloc: Global,
        image: &Image,
        number: PartitionId,
        ports: &[PortRow],
    ) -> Result<Surroundings, AllocError>
        requires few { length ports.now ≤ MOST_PORTS }
        ensures { IfOk result
            (λ s. around s
            ≡ surroundings_of (machine_module (image_of image.now)).plan number.0 ports.now) }
    {
        Ok(Surroundings {
            schedule: image.schedule.of_partition(alloc, number)?,
            fault: image.fault,
            ways_out: ways_out(alloc, image.channels.as_slice(), number, ports)?,
        })
    }

    /// The name of the channel by which the messages of a port leave the module, if there is one.
    pub fn way_out(&self, port: PortId) -> Option<Name>
        ensures { result ≡ way_out (around self.now) port }
    {
        let place = port.place()?;
        match self.ways_out.get(usize::from(place)) {
            Some(way) => *way,
            None => None,
        }
    }
}
