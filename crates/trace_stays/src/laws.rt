//! What the stays of a whole trace are.

ghost use Rattle.std.specs.Prelude.{IfOk};
ghost use Rattle.trace_stays.specs.Traces.{AreStaysOf};

use crate::fault::MemoryFull;
use crate::lanes::{Ended, Lanes};
use apex_types::{Event, Ticks};
use std::alloc::Global;

/// The partitions and processes of a trace, and their stays, each in the order of their ends.
#[derive(Drop)]
pub struct Followed {
    pub lanes: Lanes,
    pub ended: Vec<Ended>,
}

/// The stays of a trace whose lines are followed one by one are those that its lines say.
///
/// # Errors
///
/// Memory ran out.
pub fn follow_all(alloc: Global, events: &[Event], until: Ticks) -> Result<Followed, MemoryFull>
    ensures { IfOk result
        (λ all. AreStaysOf events.now until.0 all.lanes all.ended.items) }
{
    let mut lanes = Lanes::new(alloc);
    let mut ended = Vec::new(alloc);
    for event in events {
        lanes.follow(event, &mut ended)?;
    }
    lanes.finish(until, &mut ended)?;
    Ok(Followed { lanes, ended })
}
