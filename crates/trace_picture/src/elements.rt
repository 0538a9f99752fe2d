//! The elements of a picture, by the ticks in which they begin.

ghost use Rattle.std.specs.Prelude.{◌≡◌, ◌<◌, ◌≤◌, ◌+◌, length, IfOk, OnOk};
ghost use Rattle.trace_picture.specs.Elements as spec;

use crate::excess::Excess;
use crate::shape::{MOST_SHAPES, Shape};
use crate::windows::is_cut;
use apex_types::Ticks;
use std::alloc::{AllocError, Global};
use trace_stays::Span;
use trace_windows::{Stretch, Windows};

/// The first tick of a shape.
fn first_tick(shape: &Shape) -> Ticks {
    match shape {
        Shape::Mode(_, stay) => stay.span.from,
        Shape::State(_, stay) => stay.span.from,
        Shape::Message(message) => message.tick,
        Shape::Flag(flag) => flag.tick,
        Shape::Report(report) => report.tick,
    }
}

/// Adds the first of these ticks, if there are any.
fn push_first(begun: &mut Vec<Ticks>, span: Span) -> Result<(), AllocError>
    ensures { length begun.old.items ≤ length begun.new.items }
{
    if span.ticks() > 0 {
        begun.push(span.from)?;
    }
    Ok(())
}

/// Adds the first ticks of the pieces of a stay, one in each stretch with which it has ticks in common.
fn push_pieces(begun: &mut Vec<Ticks>, stretches: &[Stretch], span: Span) -> Result<(), AllocError>
    ensures { length begun.old.items ≤ length begun.new.items }
{
    for stretch in stretches {
        push_first(begun, span.within(stretch.span))?;
    }
    Ok(())
}

/// Adds the first ticks of the elements of a shape: those of a stay that is cut at the ends of
/// windows are its pieces. A shape counts once at the least.
fn push_shape(
    begun: &mut Vec<Ticks>,
    windows: &Option<Windows>,
    shape: &Shape,
) -> Result<(), AllocError>
    ensures { OnOk result (length begun.old.items < length begun.new.items) }
{
    let before = begun.len();
    if let (Some(windows), Shape::State(_, stay)) = (windows, shape) {
        if is_cut(stay.state) {
            push_pieces(begun, windows.stretches(), stay.span)?;
        }
    }
    if begun.len() == before {
        begun.push(first_tick(shape))?;
    }
    Ok(())
}

/// The first ticks of the elements of a picture: its windows that are shown, and its shapes.
pub fn beginnings(
    alloc: Global,
    shown: Span,
    windows: &Option<Windows>,
    shapes: &[Shape],
) -> Result<Vec<Ticks>, AllocError>
    ensures { IfOk result (λ begun. length shapes.now ≤ length begun.items) }
{
    let mut begun = Vec::new(alloc);
    let stretches: &[Stretch] = match windows {
        Some(windows) => windows.stretches(),
        None => &[],
    };
    for stretch in stretches {
        if stretch.owner.is_some() {
            push_first(&mut begun, stretch.span.within(shown))?;
        }
    }
    for shape in shapes {
        push_shape(&mut begun, windows, shape)?;
    }
    Ok(begun)
}

/// The number of elements that begin before this tick.
#[tactic(auto, using(std::proofs::lemmas::List::drop_more))]
fn count_before(begun: &[Ticks], tick: u64) -> usize
    ensures { result ≡ spec.count_before tick begun.now }
{
    let mut count: usize = 0;
    for first in begun {
        if first.0 < tick {
            count += 1;
        }
    }
    count
}

/// The latest of these ticks.
#[tactic(auto, using(std::proofs::lemmas::List::drop_more))]
fn latest(begun: &[Ticks]) -> u64
    ensures { spec.count_before (result + 1) begun.now ≡ length begun.now }
{
    let mut latest: u64 = 0;
    for first in begun {
        latest = latest.max(first.0);
    }
    latest
}

/// The last tick before which there are not too many elements. `shapes` is the number of all shapes.
#[tactic(auto, using(crate::proofs::Counts::none))]
pub fn excess_of(shown: Span, begun: &[Ticks], shapes: u64) -> Excess
    requires { 5000 < length begun.now }
    ensures { spec.IsExcess shown begun.now shapes result }
{
    let mut low: u64 = 0;
    let mut high = latest(begun);
    while low < high {
        let middle = low + (high - low) / 2;
        if count_before(begun, middle + 1) > MOST_SHAPES {
            high = middle;
        } else {
            low = middle + 1;
        }
    }
    Excess {
        shapes,
        from: shown.from,
        until: Ticks(low),
        elements: count_before(begun, low),
    }
}
