//! The choice of the runner.

ghost use Rattle.std.specs.Prelude.{◌≡◌, ◌↔◌, ◌≤◌, ◌+◌, ◌^◌, ℕ, true, Some, length};
ghost use Rattle.apex_types.specs.Room.{HasRoom, Grows};
ghost use Rattle.apex_types.specs.declared.identity.Runner.{Runner as Process};
ghost use Rattle.kernel_laws.specs.Choice.{IsNumbered, Picks};
ghost use Rattle.kernel_meaning.specs.Partition as meaning;
ghost use Rattle.kernel_meaning.specs.Made.{IsMade};
ghost use Rattle.kernel_meaning.specs.Step.{nothing};

use crate::table::{ProcessTable, is_same};
use apex_types::{LineKind, Lock, Mode, Out, ProcessState, ProcessStatus, Runner};

impl ProcessTable {
    /// Chooses the runner: before the normal start INIT; then the handler if it is ready, the
    /// holder of the lock, or the first ready process. Whatever numbers the ready processes have
    /// taken in their order, that is the process of the highest priority with the least number.
    /// Adds 1 to `reads` for each record read, at most 3.
    #[tactic(auto, using(kernel_laws::proofs::Choosing::chosen))]
    pub fn pick(&self, mode: Mode, reads: &mut u64) -> Option<Runner>
        requires { reads.old ≤ 2 ^ 32 }
        ensures chosen { result ≡ meaning.pick mode self.now }
        ensures picks { (number : ℕ → ℕ) (next : ℕ) (runner : Process)
            → IsNumbered number next self.now.ready
            → (result ≡ Some runner ↔ Picks number mode self.now runner) }
        ensures reads { reads.new ≤ reads.old + 3 }
    {
        match mode {
            Mode::Idle => None,
            Mode::Normal => {
                if is_ready(self.read(Runner::Handler, reads)) {
                    Some(Runner::Handler)
                } else {
                    self.pick_unless_held()
                }
            }
            _ => Some(Runner::Init),
        }
    }

    fn pick_unless_held(&self) -> Option<Runner>
        ensures { result ≡ meaning.unless_held self.now.lock self.now.ready }
    {
        match self.lock() {
            Lock::Free => self.first_ready(),
            Lock::Held { holder, .. } => Some(Runner::Process(holder)),
        }
    }

    /// The old runner becomes READY, and keeps its place.
    fn leave_processor(&mut self, running: Option<Runner>, out: &mut Out)
        requires { HasRoom 1 0 out.old }
        ensures step { IsMade (meaning.leaves_processor self.old running) self.new out.old out.new }
        ensures grows { Grows 1 0 out.old out.new }
    {
        if let Some(runner) = running {
            if let Some(row) = self.row(runner) {
                out.tell(LineKind::State(row.who, ProcessState::Ready), &[]);
                self.set_state(runner, ProcessState::Ready);
                self.set_running(None);
            }
        }
    }

    /// The chosen runner becomes RUNNING.
    fn take_processor(&mut self, chosen: Option<Runner>, out: &mut Out)
        requires { HasRoom 1 0 out.old }
        ensures step { IsMade (meaning.takes_processor self.old chosen) self.new out.old out.new }
        ensures grows { Grows 1 0 out.old out.new }
    {
        if let Some(runner) = chosen {
            if let Some(row) = self.row(runner) {
                out.tell(LineKind::State(row.who, ProcessState::Running), &[]);
                self.set_state(runner, ProcessState::Running);
                self.set_running(Some(runner));
            }
        }
    }

    /// Whether a choice would change nothing: the chosen runner runs already, or no process is
    /// chosen and none runs.
    pub fn choice_stays(&self, mode: Mode) -> bool
        ensures { result ≡ true → meaning.chooses mode self.now ≡ nothing self.now }
    {
        let mut reads = 0;
        are_same(self.running(), self.pick(mode, &mut reads))
    }

    /// If the choice changes: the old runner becomes READY, the new one RUNNING. Returns true if it
    /// stays.
    pub fn choose(&mut self, mode: Mode, out: &mut Out) -> bool
        requires { HasRoom 2 0 out.old }
        ensures step { IsMade (meaning.chooses mode self.old) self.new out.old out.new }
        ensures stays { result ≡ true → meaning.chooses mode self.old ≡ nothing self.old }
        ensures grows { Grows 2 0 out.old out.new }
    {
        let running = self.running();
        let mut reads = 0;
        let chosen = self.pick(mode, &mut reads);
        if are_same(running, chosen) {
            return true;
        }
        self.leave_processor(running, out);
        self.take_processor(chosen, out);
        false
    }
}

fn is_ready(row: Option<ProcessStatus>) -> bool
    ensures { result ≡ meaning.is_ready row }
{
    match row {
        Some(row) => match row.state {
            ProcessState::Ready | ProcessState::Running => true,
            _ => false,
        },
        None => false,
    }
}

fn are_same(one: Option<Runner>, other: Option<Runner>) -> bool
    ensures { result ≡ meaning.are_same one other }
{
    match (one, other) {
        (None, None) => true,
        (Some(one), Some(other)) => is_same(one, other),
        _ => false,
    }
}
