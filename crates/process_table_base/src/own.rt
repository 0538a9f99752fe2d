//! Changes of a runner whose record was looked up, as services make them.

ghost use Rattle.std.specs.Prelude.{◌≡◌, ◌<◌, ◌≤◌, ◌+◌, ◌^◌, ℕ, length};
ghost use Rattle.apex_types.specs.Room.{HasRoom, Grows};
ghost use Rattle.apex_types.specs.declared.codes.Discipline.{Discipline};
ghost use Rattle.apex_types.specs.declared.identity.ListKey.{ListKey as Key};
ghost use Rattle.kernel_meaning.specs.Processes as meaning;
ghost use Rattle.kernel_meaning.specs.Made.{IsMade};
ghost use Rattle.kernel_meaning.specs.Sharing.{gives};
ghost use Rattle.kernel_laws.specs.WaitingOrder.{AreQueues};
ghost use Rattle.process_table_base.specs.Yielding.{yields_in};

use crate::found::Found;
use crate::table::ProcessTable;
use apex_types::{Due, Out, ReturnCode, Runner, Service, Wait, Words};

impl ProcessTable {
    /// The process waits in a service, until its due time if it has one. Writes no line if it
    /// waited before.
    pub fn wait(&mut self, found: &Found, service: Service, due: Option<Due>, out: &mut Out)
        requires { HasRoom 1 0 out.old }
        ensures step { IsMade
            (meaning.waits self.old found.now.runner found.now.row (Wait.Service service) due)
            self.new out.old out.new }
        ensures grows { Grows 1 0 out.old out.new }
    {
        self.wait_as(found.runner, &found.row, Wait::Service(service), due, out);
    }

    /// The service in which the process waits, if any, ends with outputs of 0; then the process is
    /// ready. The processes that continue to wait keep their order.
    pub fn release(&mut self, found: &Found, code: ReturnCode, out: &mut Out)
        requires { HasRoom 2 1 out.old }
        ensures order { (disciplines : Key → Discipline) (number : ℕ → ℕ) (next : ℕ)
            → AreQueues disciplines number next self.old.queues
            → AreQueues disciplines number next self.new.queues }
        ensures step { IsMade (meaning.released self.old found.now.runner found.now.row code)
            self.new out.old out.new }
        ensures grows { Grows 2 1 out.old out.new }
    {
        self.release_as(found.runner, &found.row, code, out);
    }

    /// The process becomes READY, and goes last. A suspended process continues to wait until it is
    /// resumed.
    pub fn wake(&mut self, found: &Found, out: &mut Out)
        requires { HasRoom 1 0 out.old }
        ensures step { IsMade (meaning.wakes self.old found.now.runner found.now.row)
            self.new out.old out.new }
        ensures grows { Grows 1 0 out.old out.new }
    {
        self.wake_as(found.runner, &found.row, out);
    }

    /// The process becomes dormant: it is in no list, has no due time, no deadline and nothing left
    /// to do; if it held the lock, the lock is free.
    pub fn rest(&mut self, found: &Found, out: &mut Out)
        requires { HasRoom 1 1 out.old }
        ensures step { IsMade (meaning.rests self.old found.now.runner found.now.row)
            self.new out.old out.new }
        ensures grows { Grows 1 1 out.old out.new }
    {
        self.rest_as(found.runner, &found.row, out);
    }

    /// Gives a message to a receiver: the words go into its array, its call returns how many they
    /// are, and it is ready.
    pub fn give(&mut self, found: &Found, message: &Words, out: &mut Out)
        requires { HasRoom 2 2 out.old }
        ensures step { IsMade (gives self.old found.now.runner found.now.row message.now)
            self.new out.old out.new }
        ensures grows { Grows 2 2 out.old out.new }
    {
        self.give_as(found.runner, &found.row, message, out);
    }

    /// A ready process goes after the others of its priority. Its record stays unchanged.
    #[tactic(auto, using(crate::proofs::Yielding::yielded))]
    pub fn go_last(&mut self, runner: Runner)
        ensures { self.new ≡ yields_in self.old runner }
    {
        if let Some(priority) = self.priority(runner) {
            self.go_behind(runner, priority);
        }
    }
}
