//! Why partitions start, by the lines of a trace.

ghost use Rattle.std.specs.Prelude.{◌≡◌};
ghost use Rattle.trace_view.specs.Starts.{told_by, told_by_error, told_by_service, told_by_state};

use apex_types::{
    Event, EventKind, ModuleAction, Name, ProcessState, Response, Service, StartCondition, Subject,
};
use trace_stays::is_same_partition;

/// What the lines so far say of a start in the next one.
#[derive(Clone, Copy)]
pub struct Told {
    condition: Option<StartCondition>,
    /// The partition that has just started so. Each does it once.
    started: Option<Name>,
}

impl Told {
    ghost use Rattle.trace_view.specs.Starts.{condition_for, told_behind, told_first};

    /// No line was read.
    pub fn new() -> Told
        ensures { result ≡ told_first }
    {
        Told {
            condition: Some(StartCondition::NormalStart),
            started: None,
        }
    }

    /// Reads the next line.
    pub fn read(&mut self, event: &Event)
        ensures { self.new ≡ told_behind event.now self.old }
    {
        match &event.kind {
            EventKind::Mode(_) => self.started = event.partition,
            EventKind::State(who, state) => self.read_state(who, *state),
            EventKind::Return(_, service, _) => *self = told_by(told_by_service(*service)),
            EventKind::Error(_, _, response) => *self = told_by(told_by_error(*response)),
            _ => *self = told_by(None),
        }
    }

    /// Reads the line of a state. That of INIT, which becomes READY, is a part of a start.
    fn read_state(&mut self, who: &Subject, state: ProcessState)
        ensures { self.new ≡ told_by_state who.now state self.old }
    {
        match (who, state) {
            (Subject::Init, ProcessState::Ready) => {}
            _ => *self = told_by(None),
        }
    }

    /// The condition of a start of this partition in the next line, if the lines say it.
    pub fn condition_for(&self, partition: &Name) -> Option<StartCondition>
        ensures { result ≡ condition_for partition.now self.now }
    {
        if is_same_partition(&self.started, &Some(*partition)) {
            return None;
        }
        self.condition
    }
}

/// Any partition may start with this condition next.
fn told_by(condition: Option<StartCondition>) -> Told
    ensures { result ≡ told_by condition }
{
    Told {
        condition,
        started: None,
    }
}

/// What the line of a service says.
fn told_by_service(service: Service) -> Option<StartCondition>
    ensures { result ≡ told_by_service service }
{
    match service {
        Service::SetPartitionMode => Some(StartCondition::PartitionRestart),
        _ => None,
    }
}

/// What the line of an error says.
fn told_by_error(response: Response) -> Option<StartCondition>
    ensures { result ≡ told_by_error response }
{
    match response {
        Response::Partition(_) => Some(StartCondition::HmPartitionRestart),
        Response::Module(ModuleAction::Reset) => Some(StartCondition::HmModuleRestart),
        Response::Module(_) | Response::Handler => None,
    }
}
