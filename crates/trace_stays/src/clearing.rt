//! The lines with which the processes of partitions are gone.

ghost use Rattle.std.specs.Prelude.{◌≡◌};
ghost use Rattle.trace_stays.specs.Clearing.{clears, is_before_work, resets, starts_again, starts_by};

use apex_types::{ErrorKind, Mode, ModuleAction, PartitionAction, Response};

/// Returns true if a partition starts again with this mode: with any but NORMAL.
pub fn starts_again(mode: Mode) -> bool
    ensures { result ≡ starts_again mode }
{
    match mode {
        Mode::Normal => false,
        Mode::Idle | Mode::ColdStart | Mode::WarmStart => true,
    }
}

/// Returns true if the processes of a partition are gone with such an error of it, and before the
/// work of the tick. A missed deadline and a fault of the hardware are treated before this work,
/// and all other errors are of it.
pub fn clears(error: ErrorKind, response: Response) -> bool
    ensures { result ≡ clears error response }
{
    match response {
        Response::Partition(action) => is_before_work(error) && starts_by(action),
        Response::Handler | Response::Module(_) => false,
    }
}

/// Returns true if the processes of all partitions are gone with such an error of the module, and
/// before the work of the tick.
pub fn resets(response: Response) -> bool
    ensures { result ≡ resets response }
{
    match response {
        Response::Module(action) => action == ModuleAction::Reset,
        Response::Handler | Response::Partition(_) => false,
    }
}

fn is_before_work(error: ErrorKind) -> bool
    ensures { result ≡ is_before_work error }
{
    error == ErrorKind::DeadlineMissed || error == ErrorKind::HardwareFault
}

/// Returns true if a partition starts again with this action: with any but IGNORE.
fn starts_by(action: PartitionAction) -> bool
    ensures { result ≡ starts_by action }
{
    action != PartitionAction::Ignore
}
