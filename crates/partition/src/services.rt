//! The dispatch of service calls.

ghost use Rattle.std.specs.Prelude.{◌≡◌, ◌+◌, length};
ghost use Rattle.apex_types.specs.Room.{HasRoom, Grows};
ghost use Rattle.kernel_meaning.specs.Partition as meaning;
ghost use Rattle.kernel_meaning.specs.Made.{IsMade};
ghost use Rattle.processor.specs.Views.{asks_of};
ghost use Rattle.partition.specs.declared.rooms.TheConstants.{ACTIONS_TO_SERVE, LINES_TO_SERVE};

use crate::kernel::Kernel;
use crate::object_services::serve_objects;
use crate::port_services::serve_ports;
use apex_types::{Call, Moment, Out, Runner, Words};
use process_table::{
    create_process, delayed_start, get_my_id, get_process_id, get_process_status, get_time,
    lock_preemption, periodic_wait, replenish, resume, set_priority, start, stop, suspend,
    suspend_self, timed_wait, unlock_preemption,
};
use process_table_base::{Handed, Request};
use processor::Outcome;

impl Kernel {
    /// A call of `caller` in this tick, in the mode of the partition.
    pub(crate) fn request(&self, moment: Moment, caller: Runner) -> Request
        ensures caller { result.caller ≡ caller }
        ensures moment { result.moment ≡ moment }
        ensures mode { result.mode ≡ self.now.mode }
    {
        Request {
            caller,
            moment,
            mode: self.mode,
        }
    }

    /// Treats the outcome of a tick of `runner`; `words` are those that a call passes.
    #[inline(always)]
    pub(crate) fn treat(
        &mut self,
        moment: Moment,
        runner: Runner,
        outcome: &Outcome,
        words: &Words,
        out: &mut Out,
    )
        requires room { HasRoom LINES_TO_SERVE ACTIONS_TO_SERVE out.old }
        ensures step { IsMade
            (meaning.treats_asked moment.at self.old runner (asks_of outcome.now) words.now.items)
            self.new out.old out.new }
        ensures grows { Grows LINES_TO_SERVE ACTIONS_TO_SERVE out.old out.new }
    {
        match outcome {
            Outcome::Busy | Outcome::Local => {}
            Outcome::Call(call) => self.serve(moment, runner, call, words, out),
            Outcome::Fault(error) => self.fault(runner, *error, out),
            Outcome::End => self.end_body(runner, out),
        }
    }

    /// Serves a call; `words` are those that it passes. Calls on objects and on ports have a
    /// separate dispatch.
    fn serve(&mut self, moment: Moment, caller: Runner, call: &Call, words: &Words, out: &mut Out)
        requires room { HasRoom LINES_TO_SERVE ACTIONS_TO_SERVE out.old }
        ensures step { IsMade (meaning.serves moment.at self.old caller call.now words.now.items)
            self.new out.old out.new }
        ensures grows { Grows LINES_TO_SERVE ACTIONS_TO_SERVE out.old out.new }
    {
        let request = self.request(moment, caller);
        match *call {
            Call::GetPartitionStatus => self.get_partition_status(caller, out),
            Call::SetPartitionMode { mode } => self.set_partition_mode(moment, caller, mode, out),
            Call::StopSelf => self.end_body(caller, out),
            Call::ReportApplicationMessage { array, length } => {
                let handed = Handed { array, length };
                self.report(moment, caller, handed, words, out)
            }
            Call::CreateErrorHandler => self.create_error_handler(moment, caller, out),
            Call::GetErrorStatus { array } => self.get_error_status(moment, caller, array, out),
            Call::RaiseApplicationError {
                error,
                array,
                length,
            } => {
                let handed = Handed { array, length };
                self.raise_application_error(moment, caller, error, handed, words, out)
            }
            Call::GetProcessId { name } => get_process_id(&self.processes, request, name, out),
            Call::GetProcessStatus { process } => get_process_status(
                &self.processes,
                request,
                process,
                out,
            ),
            Call::CreateProcess { name } => create_process(&mut self.processes, request, name, out),
            Call::SetPriority { process, priority } => {
                set_priority(&mut self.processes, request, process, priority, out)
            }
            Call::SuspendSelf { timeout } => suspend_self(
                &mut self.processes,
                request,
                timeout,
                out,
            ),
            Call::Suspend { process } => suspend(&mut self.processes, request, process, out),
            Call::Resume { process } => resume(&mut self.processes, request, process, out),
            Call::Stop { process } => stop(&mut self.processes, request, process, out),
            Call::Start { process } => {
                let points = self.points(moment);
                start(&mut self.processes, request, points, process, out)
            }
            Call::DelayedStart { process, delay } => {
                let points = self.points(moment);
                delayed_start(&mut self.processes, request, points, process, delay, out)
            }
            Call::LockPreemption => lock_preemption(&mut self.processes, request, out),
            Call::UnlockPreemption => unlock_preemption(&mut self.processes, request, out),
            Call::GetMyId => get_my_id(&self.processes, request, out),
            Call::TimedWait { delay } => timed_wait(&mut self.processes, request, delay, out),
            Call::PeriodicWait => periodic_wait(&mut self.processes, request, out),
            Call::GetTime => get_time(&self.processes, request, out),
            Call::Replenish { budget } => replenish(&mut self.processes, request, budget, out),
            Call::Object(ref call) => serve_objects(
                &mut self.processes,
                &mut self.objects,
                request,
                call,
                words,
                out,
            ),
            Call::Port(ref call) => serve_ports(
                &mut self.processes,
                &mut self.ports,
                request,
                call,
                words,
                out,
            ),
        }
    }
}
