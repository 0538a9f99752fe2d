//! The times that programs give.

ghost use Rattle.std.specs.Prelude.{◌≡◌, true};
ghost use Rattle.kernel_meaning.specs.Times as meaning;
ghost use Rattle.kernel_meaning.specs.ProcessServices as services;

use apex_types::limits::MOST_TICKS;
use apex_types::{Due, Moment, Ticks};

/// The greatest finite time of a service, in ticks.
const GREATEST_TIME: i64 = MOST_TICKS as i64;

/// Whether a word is a delay: at least 0 and at most the ticks of a run.
pub fn is_delay(ticks: i64) -> bool
    ensures { result ≡ meaning.is_delay ticks }
{
    0 <= ticks && ticks <= GREATEST_TIME
}

/// Whether a word is a time-out or a budget: a delay, or -1 for no limit.
pub fn is_duration(ticks: i64) -> bool
    ensures { result ≡ meaning.is_duration ticks }
{
    ticks == -1 || is_delay(ticks)
}

/// The due time of a wait of at most `limit` ticks; `None` without a limit.
pub fn time_out(moment: Moment, limit: i64) -> Option<Due>
    requires limit { meaning.is_duration limit ≡ true }
    ensures { result ≡ services.time_out moment.at limit }
{
    if limit < 0 {
        None
    } else {
        Some(Due::TimeOut(Ticks(moment.at.now.0 + limit as u64)))
    }
}
