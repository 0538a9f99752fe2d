//! The rows of the module itself, at the head of its state.

ghost use Rattle.std.specs.Prelude.{◌≡◌, ◌≤◌, ◌+◌, ◌++◌, OnOk, option_map};
ghost use Rattle.apex_types.specs.Limits.{MOST_TICKS};
ghost use Rattle.image.specs.Items.{items_of};
ghost use Rattle.image.specs.Views.{image_of};
ghost use Rattle.kernel_meaning.specs.Windows.{is_within, phase};
ghost use Rattle.module.specs.Standing.{origin_or_zero, ticks_in};
ghost use Rattle.state_rows.specs.Fields.{value_of};
ghost use Rattle.state_rows.specs.Rows.{row_in, rows_in};
ghost use Rattle.state_rows.specs.States as meaning;
ghost use Rattle.window_table.specs.Schedules.{schedule_of};

use apex_types::{At, Moment, Name, PartitionId, Ticks, WindowRow};
use image::{Image, PartitionItem};
use state_rows::{Field, Form, Value, write_row};
use std::alloc::AllocError;
use window_table::Schedule;

/// Appends the rows of a module between two ticks: the next tick with the origin, and its window.
pub fn write_module(
    form: Form,
    image: &Image,
    now: Ticks,
    origin: Option<Ticks>,
    text: &mut Vec<u8>,
) -> Result<(), AllocError>
    requires past { origin_or_zero origin ≤ now.0 }
    requires within { now.0 ≤ MOST_TICKS }
    ensures { OnOk result
        (text.new.items
        ≡ text.old.items
        ++ rows_in form (meaning.module_rows (image_of image.now) now.0 (ticks_in origin))) }
{
    write_tick(form, now, origin, text)?;
    match origin {
        None => Ok(()),
        Some(origin) => {
            let moment = Moment {
                at: At { now, origin },
            };
            write_owner(form, image, moment, text)
        }
    }
}

/// Appends the row of a tick.
fn write_tick(
    form: Form,
    now: Ticks,
    origin: Option<Ticks>,
    text: &mut Vec<u8>,
) -> Result<(), AllocError>
    ensures { OnOk result
        (text.new.items
        ≡ text.old.items ++ row_in form (meaning.tick_row now.0 (ticks_in origin))) }
{
    let fields = [
        Field {
            key: "tick",
            value: Value::Count(now.0),
        },
        Field {
            key: "origin",
            value: tick_value(origin),
        },
    ];
    write_row(form, &None, &fields, text)
}

/// Appends the row of the window that holds a tick, and of the one that has ended.
fn write_owner(
    form: Form,
    image: &Image,
    moment: Moment,
    text: &mut Vec<u8>,
) -> Result<(), AllocError>
    ensures { OnOk result
        (text.new.items
        ≡ text.old.items
        ++ row_in form
        (meaning.owner_row (items_of image.now.partitions.items) (schedule_of image.now.schedule)
        moment.at (meaning.window_at (schedule_of image.now.schedule) moment.at))) }
{
    let schedule = &image.schedule;
    let items = image.partitions.as_slice();
    let window = window_at(schedule, moment);
    let owner = name_of(items, owner_of(window));
    let ended = name_of(items, schedule.ended(moment));
    let fields = [
        Field {
            key: "owner",
            value: name_value(&owner),
        },
        Field {
            key: "begin",
            value: begin_value(schedule, moment, window),
        },
        Field {
            key: "end",
            value: end_value(schedule, moment, window),
        },
        Field {
            key: "ended",
            value: name_value(&ended),
        },
    ];
    write_row(form, &None, &fields, text)
}

/// The window that holds a tick, if any.
#[tactic(auto, using(std::proofs::lemmas::List::drop_more))]
fn window_at(schedule: &Schedule, moment: Moment) -> Option<WindowRow>
    ensures { result ≡ meaning.window_at (schedule_of schedule.now) moment.at }
{
    let place = place_of(schedule, moment);
    for window in schedule.windows.as_slice() {
        if is_within(place, window) {
            return Some(*window);
        }
    }
    None
}

/// The place of a tick in its frame.
fn place_of(schedule: &Schedule, moment: Moment) -> u64
    ensures { result ≡ phase (schedule_of schedule.now) moment.at }
{
    (moment.at.now.0 - moment.at.origin.0) % u64::from(schedule.frame)
}

/// Returns true if a window holds a place of the frame.
fn is_within(place: u64, window: &WindowRow) -> bool
    ensures { result ≡ is_within place window.now }
{
    let offset = u64::from(window.offset);
    offset <= place && place < offset + u64::from(window.length)
}

/// The partition of a window.
fn owner_of(window: Option<WindowRow>) -> Option<PartitionId>
    ensures { option_map (λ p. p.0) result ≡ option_map (λ w. w.partition.0) window }
{
    match window {
        Some(window) => Some(window.partition),
        None => None,
    }
}

/// The first tick of a window that holds a tick.
fn begin_value<'a>(schedule: &Schedule, moment: Moment, window: Option<WindowRow>) -> Value<'a>
    ensures { value_of result
        ≡ meaning.count_or_none
        (option_map (λ w. meaning.begin_of (schedule_of schedule.now) moment.at w) window) }
{
    match window {
        Some(window) => Value::Count(begin_of(schedule, moment, window)),
        None => Value::Nothing,
    }
}

/// The first tick after a window that holds a tick.
fn end_value<'a>(schedule: &Schedule, moment: Moment, window: Option<WindowRow>) -> Value<'a>
    ensures { value_of result
        ≡ meaning.count_or_none
        (option_map
        (λ w. meaning.begin_of (schedule_of schedule.now) moment.at w + w.length) window) }
{
    match window {
        Some(window) => {
            let begin = begin_of(schedule, moment, window);
            Value::Count(begin + u64::from(window.length))
        }
        None => Value::Nothing,
    }
}

/// The first tick of a window that holds a tick.
fn begin_of(schedule: &Schedule, moment: Moment, window: WindowRow) -> u64
    ensures begin { result ≡ meaning.begin_of (schedule_of schedule.now) moment.at window }
    ensures small { result ≤ MOST_TICKS + window.offset }
{
    moment.at.now.0 - place_of(schedule, moment) + u64::from(window.offset)
}

/// The name of the partition with a number, if a number is given and there is such a partition.
fn name_of(items: &[PartitionItem], number: Option<PartitionId>) -> Option<Name>
    ensures { meaning.word_or_none result
        ≡ meaning.name_of (items_of items.now) (option_map (λ p. p.0) number) }
{
    let place = number?.place()?;
    match items.get(usize::from(place)) {
        Some(item) => Some(item.row.name),
        None => None,
    }
}

/// A name, if there is one.
fn name_value(name: &Option<Name>) -> Value<'_>
    ensures { value_of result ≡ meaning.word_or_none name.now }
{
    match name {
        Some(name) => Value::Word(name.as_bytes()),
        None => Value::Nothing,
    }
}

/// A tick, if there is one.
fn tick_value<'a>(tick: Option<Ticks>) -> Value<'a>
    ensures { value_of result ≡ meaning.count_or_none (ticks_in tick) }
{
    match tick {
        Some(Ticks(number)) => Value::Count(number),
        None => Value::Nothing,
    }
}
