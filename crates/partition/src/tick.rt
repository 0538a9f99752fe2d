//! A partition, tick by tick.

ghost use Rattle.std.specs.Prelude.{◌≡◌, ◌≤◌, ◌+◌, ◌++◌, [], length, true};
ghost use Rattle.apex_types.specs.Limits.{MOST_WORDS};
ghost use Rattle.apex_types.specs.Room.{IsEmpty};
ghost use Rattle.kernel_meaning.specs.Partition as meaning;
ghost use Rattle.kernel_meaning.specs.Made.{IsMade};
ghost use Rattle.kernel_meaning.specs.Step.{nothing};
ghost use Rattle.partition.specs.Members.{member_of, acts_all, IsMoved, IsRecorded, IsTold};
ghost use Rattle.processor.specs.Views.{asks_of};
ghost use Rattle.partition.specs.declared.rooms.TheConstants.{LINES_FOR_DUE, LINES_TO_CHOOSE, LINES_TO_CLEAR, LINES_TO_PREPARE, LINES_TO_SERVE};
ghost use Rattle.process_table_base.specs.declared.rooms.TheConstants.{LINES_TO_TREAT_DUE};

use crate::acting::{act_all, tell};
use crate::partition::Partition;
use apex_types::limits::MOST_WORDS;
use apex_types::{EventLog, Mode, Moment, Name, Runner, StartCondition, Words, array_of};
use partition_base::Executor;
use processor::Outcome;

impl<E: Executor> Partition<E> {
    /// Performs the actions of a step, and records its lines. Most steps have none.
    #[inline(always)]
    pub(crate) fn finish<L: EventLog>(
        &mut self,
        mem: &mut E::Mem,
        name: Name,
        moment: Moment,
        log: &mut L,
    )
        requires fits { E.laid mem.old ≡ E.layout self.old.executor }
        requires room { length self.old.out.lines ≤ L.room log.old }
        ensures fits { E.laid mem.new ≡ E.layout self.new.executor }
        ensures member { member_of E.Executor self.new mem.new
            ≡ acts_all self.old.out.actions (member_of E.Executor self.old mem.old) }
        ensures told { IsRecorded L.EventLog log.old log.new self.old.room self.new.room
            (meaning.told name moment.at self.old.out.lines) }
        ensures few { L.room log.old ≤ L.room log.new + length self.old.out.lines }
        ensures empty { IsEmpty self.new.out }
    {
        if !self.out.is_empty() {
            self.finish_some(mem, &name, moment, log);
        }
    }

    /// Performs the actions of a step, and records its lines.
    #[inline(never)]
    fn finish_some<L: EventLog>(
        &mut self,
        mem: &mut E::Mem,
        name: &Name,
        moment: Moment,
        log: &mut L,
    )
        requires fits { E.laid mem.old ≡ E.layout self.old.executor }
        requires room { length self.old.out.lines ≤ L.room log.old }
        ensures fits { E.laid mem.new ≡ E.layout self.new.executor }
        ensures member { member_of E.Executor self.new mem.new
            ≡ acts_all self.old.out.actions (member_of E.Executor self.old mem.old) }
        ensures told { IsRecorded L.EventLog log.old log.new self.old.room self.new.room
            (meaning.told name.now moment.at self.old.out.lines) }
        ensures few { L.room log.old ≤ L.room log.new + length self.old.out.lines }
        ensures empty { IsEmpty self.new.out }
    {
        act_all(&mut self.kernel, &mut self.executor, mem, &self.out);
        tell(*name, moment, &self.out, log);
        self.room = self.room.saturating_sub(self.out.line_count());
        self.out.clear();
    }

    /// Clears to a cold start, for a reason (ARINC 653 Part 1, partition management).
    pub fn clear<L: EventLog>(
        &mut self,
        mem: &mut E::Mem,
        moment: Moment,
        condition: StartCondition,
        log: &mut L,
    )
        requires fits { E.laid mem.old ≡ E.layout self.old.executor }
        requires empty { L.held log.old ≡ [] }
        ensures fits { E.laid mem.new ≡ E.layout self.new.executor }
        ensures moved { IsMoved
            (meaning.cold_start moment.at condition (member_of E.Executor self.old mem.old))
            (member_of E.Executor self.old mem.old) (member_of E.Executor self.new mem.new)
            (IsTold L.EventLog log.old log.new) }
    {
        let name = self.kernel.name();
        self.out.clear();
        self.kernel.clear(Mode::ColdStart, condition, &mut self.out);
        self.finish(mem, name, moment, log);
    }

    /// A fault of the partition's hardware (ARINC 653 Part 1, health monitoring): writes its line,
    /// then performs the partition's action for it.
    pub fn fault<L: EventLog>(&mut self, mem: &mut E::Mem, moment: Moment, log: &mut L)
        requires fits { E.laid mem.old ≡ E.layout self.old.executor }
        requires empty { L.held log.old ≡ [] }
        ensures fits { E.laid mem.new ≡ E.layout self.new.executor }
        ensures moved { let x = member_of E.Executor self.old mem.old in
            IsMoved (meaning.breaks_down moment.at x) x (member_of E.Executor self.new mem.new)
            (IsTold L.EventLog log.old log.new) }
    {
        let name = self.kernel.name();
        self.out.clear();
        self.kernel.break_down(&mut self.out);
        self.finish(mem, name, moment, log);
    }

    /// Treats due times and deadlines. Returns the mode of the Clear that a missed deadline leads
    /// to, if any.
    fn treat<L: EventLog>(&mut self, mem: &mut E::Mem, moment: Moment, log: &mut L) -> Option<Mode>
        requires fits { E.laid mem.old ≡ E.layout self.old.executor }
        requires idle { IsEmpty self.old.out }
        requires room { LINES_TO_TREAT_DUE ≤ L.room log.old }
        ensures fits { E.laid mem.new ≡ E.layout self.new.executor }
        ensures idle { IsEmpty self.new.out }
        ensures clears { result
            ≡ (meaning.treats_due moment.at
            (member_of E.Executor self.old mem.old).world.kernel).clears }
        ensures moved { let x = member_of E.Executor self.old mem.old in
            IsMoved (meaning.treating_phase x.engine moment.at x.world) x
            (member_of E.Executor self.new mem.new)
            (IsRecorded L.EventLog log.old log.new self.old.room self.new.room) }
        ensures few { L.room log.old ≤ L.room log.new + LINES_TO_TREAT_DUE }
    {
        let name = self.kernel.name();
        let clears = self.kernel.treat_due(moment, &mut self.out);
        self.finish(mem, name, moment, log);
        clears
    }

    /// Performs the Clear that a missed deadline leads to, if any.
    fn then_clear<L: EventLog>(
        &mut self,
        mem: &mut E::Mem,
        moment: Moment,
        clears: Option<Mode>,
        log: &mut L,
    )
        requires fits { E.laid mem.old ≡ E.layout self.old.executor }
        requires idle { IsEmpty self.old.out }
        requires room { LINES_TO_CLEAR ≤ L.room log.old }
        ensures fits { E.laid mem.new ≡ E.layout self.new.executor }
        ensures idle { IsEmpty self.new.out }
        ensures moved { let x = member_of E.Executor self.old mem.old in
            IsMoved (meaning.clearing_phase x.engine moment.at clears x.world) x
            (member_of E.Executor self.new mem.new)
            (IsRecorded L.EventLog log.old log.new self.old.room self.new.room) }
        ensures few { L.room log.old ≤ L.room log.new + LINES_TO_CLEAR }
    {
        if clears.is_some() {
            let name = self.kernel.name();
            self.kernel.then_clear(clears, &mut self.out);
            self.finish(mem, name, moment, log);
        }
    }

    /// Treats what is due; a missed deadline may lead to a Clear.
    fn treat_due<L: EventLog>(&mut self, mem: &mut E::Mem, moment: Moment, log: &mut L)
        requires fits { E.laid mem.old ≡ E.layout self.old.executor }
        requires idle { IsEmpty self.old.out }
        requires room { LINES_FOR_DUE ≤ L.room log.old }
        ensures fits { E.laid mem.new ≡ E.layout self.new.executor }
        ensures idle { IsEmpty self.new.out }
        ensures moved { let x = member_of E.Executor self.old mem.old in
            IsMoved (meaning.due_phase x.engine moment.at x.world) x
            (member_of E.Executor self.new mem.new)
            (IsRecorded L.EventLog log.old log.new self.old.room self.new.room) }
        ensures few { L.room log.old ≤ L.room log.new + LINES_FOR_DUE }
    {
        let clears = self.treat(mem, moment, log);
        self.then_clear(mem, moment, clears, log);
    }

    /// Chooses the runner. Returns true if the choice stays.
    fn choose<L: EventLog>(&mut self, mem: &mut E::Mem, moment: Moment, log: &mut L) -> bool
        requires fits { E.laid mem.old ≡ E.layout self.old.executor }
        requires idle { IsEmpty self.old.out }
        requires room { LINES_TO_CHOOSE ≤ L.room log.old }
        ensures fits { E.laid mem.new ≡ E.layout self.new.executor }
        ensures idle { IsEmpty self.new.out }
        ensures moved { let x = member_of E.Executor self.old mem.old in
            IsMoved (meaning.choice_phase x.engine moment.at x.world) x
            (member_of E.Executor self.new mem.new)
            (IsRecorded L.EventLog log.old log.new self.old.room self.new.room) }
        ensures few { L.room log.old ≤ L.room log.new + LINES_TO_CHOOSE }
        ensures stays { result ≡ true
            → meaning.chooses_with_handler self.new.kernel ≡ nothing self.new.kernel }
    {
        let name = self.kernel.name();
        let stays = self.kernel.choose(&mut self.out);
        self.finish(mem, name, moment, log);
        stays
    }

    /// Treats what is due, then chooses the runner. Returns true if the choice stays.
    pub(crate) fn prepare<L: EventLog>(
        &mut self,
        mem: &mut E::Mem,
        moment: Moment,
        log: &mut L,
    ) -> bool
        requires fits { E.laid mem.old ≡ E.layout self.old.executor }
        requires idle { IsEmpty self.old.out }
        requires room { LINES_TO_PREPARE ≤ L.room log.old }
        ensures fits { E.laid mem.new ≡ E.layout self.new.executor }
        ensures idle { IsEmpty self.new.out }
        ensures moved { let x = member_of E.Executor self.old mem.old in
            IsMoved (meaning.prepares x.engine moment.at x.world) x
            (member_of E.Executor self.new mem.new)
            (IsRecorded L.EventLog log.old log.new self.old.room self.new.room) }
        ensures few { L.room log.old ≤ L.room log.new + LINES_TO_PREPARE }
        ensures stays { result ≡ true
            → meaning.chooses_with_handler self.new.kernel ≡ nothing self.new.kernel }
    {
        self.treat_due(mem, moment, log);
        self.choose(mem, moment, log)
    }

    /// `runner` spends a tick; then its actions are performed.
    fn spend<L: EventLog>(&mut self, mem: &mut E::Mem, moment: Moment, runner: Runner, log: &mut L)
        requires fits { E.laid mem.old ≡ E.layout self.old.executor }
        requires idle { IsEmpty self.old.out }
        requires room { LINES_TO_SERVE ≤ L.room log.old }
        ensures fits { E.laid mem.new ≡ E.layout self.new.executor }
        ensures idle { IsEmpty self.new.out }
        ensures moved { let x = member_of E.Executor self.old mem.old in
            IsMoved (meaning.spends x.engine moment.at runner x.world) x
            (member_of E.Executor self.new mem.new) (IsTold L.EventLog log.old log.new) }
    {
        let name = self.kernel.name();
        let outcome = self.executor.tick(mem, runner);
        hand(&mut self.handed, &self.executor, mem, &outcome);
        let (words, out) = (&self.handed, &mut self.out);
        self.kernel.treat(moment, runner, &outcome, words, out);
        self.finish(mem, name, moment, log);
    }

    /// The chosen runner, if any, spends a tick.
    fn spend_chosen<L: EventLog>(&mut self, mem: &mut E::Mem, moment: Moment, log: &mut L)
        requires fits { E.laid mem.old ≡ E.layout self.old.executor }
        requires idle { IsEmpty self.old.out }
        requires room { LINES_TO_SERVE ≤ L.room log.old }
        ensures fits { E.laid mem.new ≡ E.layout self.new.executor }
        ensures idle { IsEmpty self.new.out }
        ensures moved { let x = member_of E.Executor self.old mem.old in
            IsMoved (meaning.spending_phase x.engine moment.at x.world) x
            (member_of E.Executor self.new mem.new) (IsTold L.EventLog log.old log.new) }
    {
        if let Some(runner) = self.kernel.running() {
            self.spend(mem, moment, runner, log);
        }
    }

    /// One tick: what is due, then the choice, then the tick of the chosen runner.
    pub fn tick<L: EventLog>(&mut self, mem: &mut E::Mem, moment: Moment, log: &mut L)
        requires fits { E.laid mem.old ≡ E.layout self.old.executor }
        requires empty { L.held log.old ≡ [] }
        ensures fits { E.laid mem.new ≡ E.layout self.new.executor }
        ensures idle { IsEmpty self.new.out }
        ensures moved { let x = member_of E.Executor self.old mem.old in
            IsMoved (meaning.advances moment.at x) x (member_of E.Executor self.new mem.new)
            (IsTold L.EventLog log.old log.new) }
    {
        self.out.clear();
        self.prepare(mem, moment, log);
        self.spend_chosen(mem, moment, log);
    }
}

/// Takes the words that a call passes: those of its array, at most those of a message. They are
/// copied into memory that is there, since most calls pass none.
#[inline(always)]
#[tactic(auto, using(kernel_laws::proofs::Numbers::handed_words))]
pub(crate) fn hand<E: Executor>(handed: &mut Words, executor: &E, mem: &E::Mem, outcome: &Outcome)
    ensures { handed.new.items ≡ meaning.given (asks_of outcome.now) (E.words mem.now) }
{
    handed.clear();
    if let Outcome::Call(call) = outcome {
        if let Some(array) = array_of(*call) {
            let words = executor.read(mem, array.base, most_words(array.size));
            handed.try_extend_from_slice(words).unwrap();
        }
    }
}

/// How many words of an array of `size` words a call passes, at most those of a message.
fn most_words(size: i64) -> u8
    ensures words { result ≡ meaning.most_words size }
    ensures most { result ≤ MOST_WORDS }
{
    size.clamp(0, MOST_WORDS as i64) as u8
}
