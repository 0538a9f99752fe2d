//! What the views count for each tick.

ghost use Rattle.std.specs.Prelude.{◌≡◌, ◌<◌, ◌≤◌, ℕ, suc, List};
ghost use Rattle.apex_types.specs.Limits.{MOST_TICKS};
ghost use Rattle.apex_types.specs.declared.device.DeviceLine.{DeviceLine};
ghost use Rattle.apex_types.specs.declared.event.Event.{Event};
ghost use Rattle.kernel_meaning.specs.Windows.{Schedule};
ghost use Rattle.machine_meaning.specs.Image.{Image};
ghost use Rattle.machine_meaning.specs.ImageLimits.{IsLawful};
ghost use Rattle.machine_meaning.specs.MachineMeaning.{machine_module, machine_trace};
ghost use Rattle.module_meaning.specs.Accepted.{IsModule};
ghost use Rattle.module_meaning.specs.SourceMeaning.{source_module, source_trace};
ghost use Rattle.module_meaning.specs.Table.{Table};
ghost use Rattle.pal_meaning.specs.Program.{Program};
ghost use Rattle.state_laws.specs.Spending.{owner_in};
ghost use Rattle.trace_windows.specs.Frames as frames;
ghost use Rattle.trace_windows.specs.Runs.{AreBefore, AreInOrder, AreSharesOf};
ghost use Rattle.trace_windows.specs.Standings.{at_first};
ghost use Rattle.trace_windows.specs.Uses.{use_of};
ghost use Rattle.trace_windows.specs.declared.counted.Row.{Row};
ghost use Rattle.view_laws.specs.Reading.{HaveOwnNames, up_to, use_told};
ghost use Rattle.view_laws.specs.Spent.{AreSpent, names_of_image, names_of_table, use_in};

/// What the views count for a tick is what the lines up to it tell: after a shutdown nothing, in no
/// window nothing, and else the runner of the owner that spends it by its lines, or nobody.
pub fn lines_tell_the_use()
    ensures { (schedule : Schedule) (names : List (List ℕ)) (lines : List Event) (t : ℕ)
        → HaveOwnNames names
        → AreInOrder 0 lines
        → t < MOST_TICKS
        → use_of schedule (at_first names) lines t ≡ use_told schedule names (up_to t lines) t }
{}

/// What the views count for a tick of any run is what the processor does in it: the runner that the
/// owner of the tick's window chooses spends it, or nobody does; or the tick is in no window, or the
/// module is shut down. So it is in any run of a lawful image and of an accepted module.
pub fn uses_are_spent()
    ensures machine { (image : Image) (devices : List DeviceLine) (n t : ℕ)
        → IsLawful image
        → t < n
        → n ≤ MOST_TICKS
        → use_of image.schedule (at_first (names_of_image image)) (machine_trace image devices n) t
        ≡ use_in (machine_module image) devices t }
    ensures accepted { (table : List ℕ) (sources : List (List ℕ)) (t : Table)
        (programs : List Program) (devices : List DeviceLine) (n i : ℕ)
        → IsModule table sources t programs
        → i < n
        → n ≤ MOST_TICKS
        → use_of t.schedule (at_first (names_of_table t)) (source_trace t programs devices n) i
        ≡ use_in (source_module t programs) devices i }
{}

/// The windows of a view are those of the kernel: by the lines a tick of a run has the owner that its
/// window has, and none in no window or after a shutdown.
pub fn windows_have_their_owners()
    ensures machine { (image : Image) (devices : List DeviceLine) (n t : ℕ)
        → t < n
        → frames.owner_in image.schedule frames.at_first (machine_trace image devices n) t
        ≡ owner_in (machine_module image) devices t }
    ensures source { (t : Table) (programs : List Program) (devices : List DeviceLine) (n i : ℕ)
        → i < n
        → frames.owner_in t.schedule frames.at_first (source_trace t programs devices n) i
        ≡ owner_in (source_module t programs) devices i }
{}

/// The rows of a summary have just as many ticks as the processor spends so in the run, from one tick
/// on and before another.
pub fn shares_are_spent()
    ensures machine { (image : Image) (devices : List DeviceLine) (n from until : ℕ)
        (rows : List Row)
        → IsLawful image
        → until ≤ n
        → n ≤ MOST_TICKS
        → AreSharesOf image.schedule (names_of_image image) from until
        (machine_trace image devices n) rows
        → AreSpent (machine_module image) devices from until rows }
    ensures accepted { (table : List ℕ) (sources : List (List ℕ)) (t : Table)
        (programs : List Program) (devices : List DeviceLine) (n from until : ℕ) (rows : List Row)
        → IsModule table sources t programs
        → until ≤ n
        → n ≤ MOST_TICKS
        → AreSharesOf t.schedule (names_of_table t) from until (source_trace t programs devices n)
        rows
        → AreSpent (source_module t programs) devices from until rows }
{}

/// The lines of a run are in the order of their ticks and none is behind its last tick. Those up to
/// a tick are the trace of the run that ends with this tick.
pub fn lines_are_in_order()
    ensures machine { (image : Image) (devices : List DeviceLine) (n : ℕ)
        → n ≤ MOST_TICKS
        → AreBefore n 0 (machine_trace image devices n) }
    ensures source { (t : Table) (programs : List Program) (devices : List DeviceLine) (n : ℕ)
        → n ≤ MOST_TICKS
        → AreBefore n 0 (source_trace t programs devices n) }
    ensures machine_part { (image : Image) (devices : List DeviceLine) (n t : ℕ)
        → t < n
        → up_to t (machine_trace image devices n) ≡ machine_trace image devices (suc t) }
    ensures source_part { (t : Table) (programs : List Program) (devices : List DeviceLine)
        (n i : ℕ)
        → i < n
        → up_to i (source_trace t programs devices n) ≡ source_trace t programs devices (suc i) }
{}
