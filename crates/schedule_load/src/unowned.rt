//! The gaps of the frame.

ghost use Rattle.std.specs.Prelude.{◌≡◌, ◌≤◌, ◌<◌, ◌+◌, ◌-◌, ◌^◌, ◌++◌, option_map, IfOk, OnOk};
ghost use Rattle.window_table.specs.Schedules.{schedule_of};
ghost use Rattle.schedule_load.specs.Gaps.{closed, gap_before, gaps_of, still_open};

use crate::counting::{Stretch, stretch_from};
use std::alloc::{AllocError, Global};
use window_table::Schedule;

/// A run of unowned ticks of the frame, of the greatest length.
#[derive(Clone, Copy)]
pub struct Gap {
    pub from: u32,
    pub ticks: u32,
}

/// Adds the gap of `begun` ticks that ends before a tick, if anything has begun.
fn close(gaps: &mut Vec<Gap>, begun: u32, tick: u32) -> Result<(), AllocError>
    requires { begun ≤ tick }
    ensures { OnOk result (gaps.new.items ≡ gaps.old.items ++ gap_before begun tick) }
{
    if begun == 0 {
        return Ok(());
    }
    gaps.push(Gap {
        from: tick - begun,
        ticks: begun,
    })?;
    Ok(())
}

/// Adds the gap that ends where a stretch begins. Returns how many ticks of a gap have begun after
/// the stretch.
fn follow(gaps: &mut Vec<Gap>, begun: u32, tick: u32, next: Stretch) -> Result<u32, AllocError>
    requires past { begun ≤ tick }
    requires within { tick + next.ticks < 2 ^ 32 }
    ensures added { IfOk result
        (λ left. gaps.new.items ≡ gaps.old.items ++ closed begun tick (option_map (λ p. p.0) next.owner)) }
    ensures left { IfOk result
        (λ left. left ≡ still_open begun next.ticks (option_map (λ p. p.0) next.owner)) }
{
    match next.owner {
        None => Ok(begun + next.ticks),
        Some(_) => {
            close(gaps, begun, tick)?;
            Ok(0)
        }
    }
}

/// The gaps of the frame, in their order. Fails only if memory runs out.
pub fn gaps(alloc: Global, schedule: &Schedule) -> Result<Vec<Gap>, AllocError>
    ensures { IfOk result (λ gaps. gaps.items ≡ gaps_of (schedule_of schedule.now)) }
{
    let mut gaps = Vec::new(alloc);
    let mut begun: u32 = 0;
    let mut tick: u32 = 0;
    while tick < schedule.frame {
        let next = stretch_from(schedule, tick, schedule.frame);
        begun = follow(&mut gaps, begun, tick, next)?;
        tick += next.ticks;
    }
    close(&mut gaps, begun, tick)?;
    Ok(gaps)
}
