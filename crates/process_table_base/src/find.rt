//! Processes by the numbers that programs give.

ghost use Rattle.std.specs.Prelude.{◌≡◌, ◌<◌, IfSome, Some, true};
ghost use Rattle.kernel_meaning.specs.Processes as meaning;
ghost use Rattle.process_table_base.specs.FoundView.{pair_of, record_of};

use crate::found::Found;
use crate::table::ProcessTable;
use apex_types::{Lock, ProcessIndex, ProcessState, ProcessStatus, Runner, Subject};

impl Found {
    /// Its name in lines.
    pub fn name(&self) -> Subject
        ensures { result ≡ self.now.row.who }
    {
        self.row.who
    }
}

/// The subject of the runner found; that of INIT if none was found.
pub fn name_of(found: &Option<Found>) -> Subject
    ensures { result ≡ meaning.who_of (record_of found.now) }
{
    match found {
        Some(found) => found.name(),
        None => Subject::Init,
    }
}

impl ProcessTable {
    /// The process with a number, with its record.
    #[tactic(auto, using(kernel_laws::proofs::Numbers::numbers))]
    pub fn process_at(&self, id: i64) -> Option<Found>
        ensures found { pair_of result ≡ meaning.process_at self.now id }
    {
        if id < 1 || id > i64::from(self.count()) {
            return None;
        }
        self.numbered(ProcessIndex(id as u8 - 1))
    }

    /// The process of an entry of a list, with its record.
    pub fn numbered(&self, process: ProcessIndex) -> Option<Found>
        ensures found { pair_of result
            ≡ meaning.numbered process (meaning.row_of self.now (Runner.Process process)) }
    {
        let runner = Runner::Process(process);
        match self.look(runner) {
            Some(row) => Some(Found { runner, row: *row }),
            None => None,
        }
    }

    /// Whether the caller may not wait: it is INIT or the handler, or preemption is locked.
    pub fn is_busy(&self, caller: Runner) -> bool
        ensures { result ≡ meaning.is_busy self.now caller }
    {
        match caller {
            Runner::Process(_) => match self.lock() {
                Lock::Free => false,
                Lock::Held { .. } => true,
            },
            _ => true,
        }
    }

    /// Marks a process as created in its record.
    #[inline(always)]
    pub fn create(&mut self, found: &Found)
        ensures { self.new
            ≡ meaning.put_row self.old found.now.runner (record found.now.row { created = true }) }
    {
        let created = ProcessStatus {
            created: true,
            ..found.row
        };
        self.put_row(found.runner, &created);
    }
}

/// Whether a process is dormant.
pub fn is_dormant(row: &ProcessStatus) -> bool
    ensures { result ≡ meaning.is_dormant row.now }
{
    match row.state {
        ProcessState::Dormant => true,
        _ => false,
    }
}
