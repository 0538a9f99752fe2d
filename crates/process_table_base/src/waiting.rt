//! The processes that wait for an object or a port, and how they are released.

ghost use Rattle.std.specs.Prelude.{◌≡◌, ◌≤◌, ◌<◌, ◌+◌, ◌*◌, ◌++◌, ℕ, length, true, IfSome, Some, slice_set};
ghost use Rattle.apex_types.specs.Limits.{MOST_WORDS};
ghost use Rattle.apex_types.specs.Room.{HasRoom, Grows};
ghost use Rattle.apex_types.specs.Runners.{place_of};
ghost use Rattle.apex_types.specs.declared.codes.Discipline.{Discipline};
ghost use Rattle.apex_types.specs.declared.identity.ListKey.{ListKey as Key};
ghost use Rattle.kernel_meaning.specs.Times.{is_duration};
ghost use Rattle.kernel_meaning.specs.Processes as processes;
ghost use Rattle.kernel_meaning.specs.Queues.{list_at};
ghost use Rattle.kernel_meaning.specs.Made.{IsMade};
ghost use Rattle.kernel_meaning.specs.Sharing as meaning;
ghost use Rattle.kernel_meaning.specs.Step.{message as words_of};
ghost use Rattle.kernel_laws.specs.WaitingOrder.{AreQueues};
ghost use Rattle.process_table_base.specs.Bounds.{IsBounded};
ghost use Rattle.process_table_base.specs.FoundView.{pair_of};
ghost use Rattle.process_table_base.specs.declared.rooms.TheConstants.{ACTIONS_TO_GIVE_ALL, ACTIONS_TO_RELEASE_ALL, LINES_TO_GIVE_ALL, LINES_TO_RELEASE_ALL};
ghost use Rattle.process_table_base.specs.LeastNumber.{IsLeast};

use crate::change::zeros;
use crate::duration::time_out;
use crate::found::Found;
use crate::request::Request;
use crate::table::ProcessTable;
use apex_types::{
    ActionKind, ArrayPlace, Entry, ListKey, MOST_RUNNERS, Out, ProcessIndex, ProcessStatus,
    ReturnCode, Runner, Wait, Waiting, Words, copied,
};
use links::Entries;

/// Stores the message of `process`, if the process exists. Writes exactly the words that it gets.
fn put_message(handed: &mut Vec<Words>, process: ProcessIndex, message: &[i64])
    requires { length message.now ≤ MOST_WORDS }
    ensures { handed.new.items ≡ slice_set handed.old.items process.0 (words_of message.now) }
{
    if let Some(place) = handed.get_mut(usize::from(process.0)) {
        place.clear();
        place.try_extend_from_slice(message).unwrap();
    }
}

/// Writes the words to the array, if one is given.
pub fn fill(array: Option<ArrayPlace>, message: &Words, out: &mut Out)
    requires { HasRoom 0 1 out.old }
    ensures lines { out.new.lines ≡ out.old.lines }
    ensures actions { out.new.actions
        ≡ out.old.actions ++ meaning.writes array message.now }
    ensures grows { Grows 0 1 out.old out.new }
{
    if let Some(array) = array {
        out.act(ActionKind::Write(array.base), message);
    }
}

/// The array of a process that waits to receive.
fn array_of_wait(wait: Wait) -> Option<ArrayPlace>
    ensures { result ≡ meaning.array_of_wait wait }
{
    match wait {
        Wait::Object { array, .. } => array,
        _ => None,
    }
}

impl ProcessTable {
    /// The first process that waits in a list, with its record. Whatever numbers the waiting
    /// processes have taken in their order, it is the process with the least number; in a list by
    /// priority, the process of the highest priority with the least number.
    pub fn first_waiting(&self, list: ListKey) -> Option<Found>
        ensures found { pair_of result ≡ meaning.first_waiting self.now list }
        ensures least { (disciplines : Key → Discipline) (number : ℕ → ℕ) (next : ℕ)
            → AreQueues disciplines number next self.now.queues
            → IfSome (pair_of result)
            (λ found. IsLeast (disciplines list) number (list_at self.now.queues list) found.0) }
    {
        match self.queues.first(list) {
            Some(entry) => self.numbered(entry.process),
            None => None,
        }
    }

    /// The processes that wait in a list, in its order.
    pub fn waiting(&self, list: ListKey) -> Entries
        ensures { result.items ≡ meaning.waiting self.now list }
    {
        self.queues.entries(list)
    }

    /// The number of processes that wait in `list`.
    pub fn waiting_count(&self, list: ListKey) -> u8
        ensures { result ≡ meaning.waiting_count self.now list }
    {
        self.queues.count(list)
    }

    /// The message of the call in which a process waits.
    pub fn handed_by(&self, runner: Runner) -> Words
        ensures { result ≡ meaning.handed_by self.now runner }
    {
        match runner {
            Runner::Process(process) => self.message_at(process),
            _ => Words::new(),
        }
    }

    fn message_at(&self, process: ProcessIndex) -> Words
        ensures { result ≡ meaning.handed_by self.now (Runner.Process process) }
    {
        match self.handed.get(usize::from(process.0)) {
            Some(message) => copied(message),
            None => Words::new(),
        }
    }

    /// Adds a process to the list of its object, with the message of its call.
    fn enter(&mut self, runner: Runner, waiting: Waiting, message: &[i64], row: &ProcessStatus)
        requires runner { place_of runner < MOST_RUNNERS }
        requires few { length message.now ≤ MOST_WORDS }
        ensures { self.new ≡ meaning.enters self.old runner waiting (words_of message.now) row.now }
    {
        if let Runner::Process(process) = runner {
            let entry = Entry {
                process,
                priority: row.current_priority,
            };
            self.queues.move_to(waiting.list, waiting.discipline, entry);
            put_message(&mut self.handed, process, message);
        }
    }

    /// Blocks the caller, with the message of its call, for at most `limit` ticks. NOT_AVAILABLE: the
    /// limit is 0; INVALID_MODE: the caller may not wait.
    pub fn block(
        &mut self,
        request: Request,
        limit: i64,
        waiting: Waiting,
        message: &[i64],
        out: &mut Out,
    )
        requires limit { is_duration limit ≡ true }
        requires few { length message.now ≤ MOST_WORDS }
        requires room { HasRoom 1 1 out.old }
        ensures step { IsMade
            (meaning.blocks request.moment.at self.old request.caller limit waiting
            (words_of message.now))
            self.new out.old out.new }
        ensures grows { Grows 1 1 out.old out.new }
    {
        let service = waiting.service;
        let caller = request.caller;
        if limit == 0 {
            return self.refuse(caller, service, ReturnCode::NotAvailable, out);
        }
        if self.is_busy(caller) {
            return self.refuse(caller, service, ReturnCode::InvalidMode, out);
        }
        if let Some(row) = self.row(caller) {
            self.enter(caller, waiting, message, &row);
            let reason = Wait::Object {
                service,
                array: waiting.array,
            };
            let due = time_out(request.moment, limit);
            self.wait_as(caller, &row, reason, due, out);
        }
    }

    /// Releases the process, if it exists.
    fn release_found(&mut self, process: ProcessIndex, out: &mut Out)
        requires { HasRoom 2 1 out.old }
        ensures step { IsMade
            (meaning.releases_found self.old
            (processes.numbered process (processes.row_of self.old (Runner.Process process))))
            self.new out.old out.new }
        ensures grows { Grows 2 1 out.old out.new }
    {
        if let Some(found) = self.numbered(process) {
            self.release_as(found.runner, &found.row, ReturnCode::NoError, out);
        }
    }

    /// Releases each of these in turn.
    fn release_each(&mut self, entries: &[Entry], out: &mut Out)
        requires { HasRoom (2 * length entries.now) (length entries.now) out.old }
        ensures step { IsMade (meaning.releases_all entries.now self.old) self.new out.old out.new }
        ensures grows { Grows (2 * length entries.now) (length entries.now) out.old out.new }
    {
        if let Some((entry, rest)) = entries.split_first() {
            self.release_found(entry.process, out);
            self.release_each(rest, out);
        }
    }

    /// Releases all processes that wait in a list, in its order.
    pub fn release_all(&mut self, list: ListKey, out: &mut Out)
        requires { HasRoom LINES_TO_RELEASE_ALL ACTIONS_TO_RELEASE_ALL out.old }
        ensures step { IsMade (meaning.releases_all (meaning.waiting self.old list) self.old)
            self.new out.old out.new }
        ensures grows { Grows LINES_TO_RELEASE_ALL ACTIONS_TO_RELEASE_ALL out.old out.new }
    {
        let entries = self.waiting(list);
        self.release_each(entries.as_slice(), out);
    }

    /// Gives a message to a receiver with this record: the words go into its array, its call
    /// returns how many they are, and it is ready.
    pub(crate) fn give_as(
        &mut self,
        runner: Runner,
        row: &ProcessStatus,
        message: &Words,
        out: &mut Out,
    )
        requires runner { place_of runner < MOST_RUNNERS }
        requires bounded { IsBounded row.now }
        requires room { HasRoom 2 2 out.old }
        ensures step { IsMade (meaning.gives self.old runner row.now message.now)
            self.new out.old out.new }
        ensures grows { Grows 2 2 out.old out.new }
    {
        let length = message.len() as i64;
        fill(array_of_wait(row.wait), message, out);
        self.release_with(runner, row, ReturnCode::NoError, &[length], out);
    }

    /// Gives a message to the process, if it exists.
    fn give_found(&mut self, process: ProcessIndex, message: &Words, out: &mut Out)
        requires { HasRoom 2 2 out.old }
        ensures step { IsMade
            (meaning.gives_found self.old
            (processes.numbered process (processes.row_of self.old (Runner.Process process)))
            message.now)
            self.new out.old out.new }
        ensures grows { Grows 2 2 out.old out.new }
    {
        if let Some(found) = self.numbered(process) {
            self.give_as(found.runner, &found.row, message, out);
        }
    }

    /// Gives a message to each of these in turn.
    fn give_each(&mut self, entries: &[Entry], message: &Words, out: &mut Out)
        requires { HasRoom (2 * length entries.now) (2 * length entries.now) out.old }
        ensures step { IsMade (meaning.gives_all entries.now message.now self.old)
            self.new out.old out.new }
        ensures grows { Grows (2 * length entries.now) (2 * length entries.now) out.old out.new }
    {
        if let Some((entry, rest)) = entries.split_first() {
            self.give_found(entry.process, message, out);
            self.give_each(rest, message, out);
        }
    }

    /// Gives a message to all processes that wait in a list, in its order.
    pub fn give_all(&mut self, list: ListKey, message: &Words, out: &mut Out)
        requires { HasRoom LINES_TO_GIVE_ALL ACTIONS_TO_GIVE_ALL out.old }
        ensures step { IsMade
            (meaning.gives_all (meaning.waiting self.old list) message.now self.old)
            self.new out.old out.new }
        ensures grows { Grows LINES_TO_GIVE_ALL ACTIONS_TO_GIVE_ALL out.old out.new }
    {
        let entries = self.waiting(list);
        self.give_each(entries.as_slice(), message, out);
    }
}
