//! The data of a partition and its objects.

ghost use Rattle.std.specs.Prelude.{◌≡◌};
ghost use Rattle.machine_meaning.specs.ImageReading.{word_at, semaphore_at, buffer_at, blackboard_at, objects_at};
ghost use Rattle.image.specs.Views.{Gives, objects_of};

use crate::fault::ImageFault;
use crate::reading::choices::discipline_at;
use crate::reading::numbers::{i64_at, u8_within, u32_within};
use crate::reading::rows::{Row, list_at};
use apex_types::limits::{MOST_DATA_WORDS, MOST_DEPTH, MOST_OBJECTS, MOST_SEMAPHORE_VALUE};
use apex_types::{BlackboardRow, BufferRow, Limits, SemaphoreRow};
use std::alloc::Global;

/// The declarations of a source: its data, semaphores, events, buffers and blackboards.
#[derive(Drop)]
pub struct Objects {
    pub initial: Vec<i64>,
    pub semaphores: Vec<SemaphoreRow>,
    pub events: u8,
    pub buffers: Vec<BufferRow>,
    pub blackboards: Vec<BlackboardRow>,
}

impl Row for i64 {
    ghost reads = { λ _ _. word_at };

    fn read<'a>(
        _limits: Limits,
        _before: &[i64],
        bytes: &'a [u8],
    ) -> Result<(i64, &'a [u8]), ImageFault> {
        i64_at(bytes)
    }
}

impl Row for SemaphoreRow {
    ghost reads = { λ _ _. semaphore_at };

    #[tactic(auto, unfolding(machine_meaning::specs::ImageReading::semaphore_at))]
    fn read<'a>(
        _limits: Limits,
        _before: &[SemaphoreRow],
        bytes: &'a [u8],
    ) -> Result<(SemaphoreRow, &'a [u8]), ImageFault> {
        let (value, rest) = u32_within(bytes, 0, MOST_SEMAPHORE_VALUE)?;
        let (maximum, rest) = u32_within(rest, value.max(1), MOST_SEMAPHORE_VALUE)?;
        let (discipline, rest) = discipline_at(rest)?;
        let row = SemaphoreRow {
            value,
            maximum,
            discipline,
        };
        Ok((row, rest))
    }
}

impl Row for BufferRow {
    ghost reads = { λ limits _. buffer_at limits };

    #[tactic(auto, unfolding(machine_meaning::specs::ImageReading::buffer_at))]
    fn read<'a>(
        limits: Limits,
        _before: &[BufferRow],
        bytes: &'a [u8],
    ) -> Result<(BufferRow, &'a [u8]), ImageFault> {
        let (words, rest) = u8_within(bytes, 1, limits.words)?;
        let (depth, rest) = u8_within(rest, 1, MOST_DEPTH)?;
        let (discipline, rest) = discipline_at(rest)?;
        let row = BufferRow {
            words,
            depth,
            discipline,
        };
        Ok((row, rest))
    }
}

impl Row for BlackboardRow {
    ghost reads = { λ limits _. blackboard_at limits };

    #[tactic(auto, unfolding(machine_meaning::specs::ImageReading::blackboard_at))]
    fn read<'a>(
        limits: Limits,
        _before: &[BlackboardRow],
        bytes: &'a [u8],
    ) -> Result<(BlackboardRow, &'a [u8]), ImageFault> {
        let (words, rest) = u8_within(bytes, 1, limits.words)?;
        Ok((BlackboardRow { words }, rest))
    }
}

#[tactic(auto, unfolding(machine_meaning::specs::ImageReading::objects_at))]
pub fn objects_at(
    alloc: Global,
    limits: Limits,
    bytes: &[u8],
) -> Result<(Objects, &[u8]), ImageFault>
    ensures { Gives (λ x. (objects_of x.0, x.1.now)) result (objects_at limits bytes.now) }
{
    let (initial, rest) = list_at(alloc, limits, bytes, 0, MOST_DATA_WORDS)?;
    let (semaphores, rest) = list_at(alloc, limits, rest, 0, MOST_OBJECTS as u32)?;
    let (events, rest) = u8_within(rest, 0, MOST_OBJECTS)?;
    let (buffers, rest) = list_at(alloc, limits, rest, 0, MOST_OBJECTS as u32)?;
    let (blackboards, rest) = list_at(alloc, limits, rest, 0, MOST_OBJECTS as u32)?;
    let objects = Objects {
        initial,
        semaphores,
        events,
        buffers,
        blackboards,
    };
    Ok((objects, rest))
}
