//! Many ticks of a partition together.

ghost use Rattle.std.specs.Prelude.{◌≡◌, ◌≤◌, ◌<◌, ◌+◌, ◌-◌, ℕ, [], true, false};
ghost use Rattle.apex_types.specs.Limits.{MOST_TICKS};
ghost use Rattle.apex_types.specs.Room.{IsEmpty};
ghost use Rattle.kernel_meaning.specs.Partition as meaning;
ghost use Rattle.kernel_meaning.specs.Step.{nothing};
ghost use Rattle.kernel_meaning.specs.Windows.{tick_from};
ghost use Rattle.kernel_laws.specs.Quiet.{HasNothingDue};
ghost use Rattle.kernel_laws.specs.Running.{burst_of, treated_at, with_control};
ghost use Rattle.partition.specs.Members.{member_of, HasAdvanced, HasGone, IsMoved, IsRecorded, RecordsSome, TellsSome};
ghost use Rattle.processor.specs.Views.{asks_of};
ghost use Rattle.partition.specs.declared.rooms.TheConstants.{LINES_FOR_TICK, LINES_TO_SERVE};

use crate::partition::Partition;
use crate::rooms::LINES_FOR_TICK;
use crate::tick::hand;
use apex_types::limits::MOST_EVENTS;
use apex_types::{At, EventLog, Moment, Runner, Ticks};
use partition_base::Executor;
use processor::{Burst, Outcome};

impl<E: Executor> Partition<E> {
    /// Executes `k` ticks of the current runner, or those up to the first that makes a request: a
    /// service call, a fault, or the end of the body. The request is not yet treated.
    fn run_for(&mut self, mem: &mut E::Mem, runner: Runner, k: u32) -> Burst
        requires some { 0 < k }
        requires fits { E.laid mem.old ≡ E.layout self.old.executor }
        requires idle { IsEmpty self.old.out }
        ensures fits { E.laid mem.new ≡ E.layout self.new.executor }
        ensures idle { IsEmpty self.new.out }
        ensures world { let x = member_of E.Executor self.old mem.old in
            let b = burst_of x.engine k runner x.world in
            member_of E.Executor self.new mem.new
            ≡ meaning.with_world x (with_control x.world runner b.control b.words) }
        ensures told { let x = member_of E.Executor self.old mem.old in
            asks_of result.outcome ≡ (burst_of x.engine k runner x.world).told }
        ensures ticks { let x = member_of E.Executor self.old mem.old in
            result.ticks ≡ (burst_of x.engine k runner x.world).ticks }
        ensures within { result.ticks ≤ k }
        ensures some { 0 < result.ticks }
        ensures room { self.new.room ≡ self.old.room }
    {
        self.executor.advance(mem, runner, k)
    }

    /// Treats the outcome of a tick of the current runner, and performs the actions that follow.
    fn settle<L: EventLog>(
        &mut self,
        mem: &mut E::Mem,
        moment: Moment,
        runner: Runner,
        outcome: &Outcome,
        log: &mut L,
    )
        requires fits { E.laid mem.old ≡ E.layout self.old.executor }
        requires idle { IsEmpty self.old.out }
        requires room { LINES_TO_SERVE ≤ L.room log.old }
        ensures fits { E.laid mem.new ≡ E.layout self.new.executor }
        ensures idle { IsEmpty self.new.out }
        ensures moved { let x = member_of E.Executor self.old mem.old in
            IsMoved
            (meaning.moved moment.at x.engine
            (meaning.treats_asked moment.at x.world.kernel runner (asks_of outcome.now)
            (meaning.given (asks_of outcome.now) x.world.words))
            x.world)
            x (member_of E.Executor self.new mem.new)
            (IsRecorded L.EventLog log.old log.new self.old.room self.new.room) }
    {
        let name = self.kernel.name();
        hand(&mut self.handed, &self.executor, mem, outcome);
        let (words, out) = (&self.handed, &mut self.out);
        self.kernel.treat(moment, runner, outcome, words, out);
        self.finish(mem, name, moment, log);
    }

    /// Executes `k` ticks of the current runner from `moment` on, or those up to the first that makes
    /// a request, and treats it; returns how many. In the first of them nothing more is due, and the
    /// choice is made; in the others nothing is due, and the choice stays.
    fn burst<L: EventLog>(
        &mut self,
        mem: &mut E::Mem,
        moment: Moment,
        runner: Runner,
        k: u32,
        log: &mut L,
    ) -> u32
        requires some { 0 < k }
        requires soon { moment.at.now.0 + k ≤ MOST_TICKS }
        requires fits { E.laid mem.old ≡ E.layout self.old.executor }
        requires idle { IsEmpty self.old.out }
        requires room { LINES_TO_SERVE ≤ L.room log.old }
        ensures fits { E.laid mem.new ≡ E.layout self.new.executor }
        ensures idle { IsEmpty self.new.out }
        ensures within { result ≤ k }
        ensures some { 0 < result }
        ensures ticks { let x = member_of E.Executor self.old mem.old in
            result ≡ (burst_of x.engine k runner x.world).ticks }
        ensures treated { let x = member_of E.Executor self.old mem.old in
            IsMoved
            (treated_at x.engine moment.at.origin.0 runner x.world
            (moment.at.now.0 + (result - 1)) (burst_of x.engine k runner x.world))
            x (member_of E.Executor self.new mem.new)
            (IsRecorded L.EventLog log.old log.new self.old.room self.new.room) }
    {
        let burst = self.run_for(mem, runner, k);
        let last = Moment {
            at: At {
                now: Ticks(moment.at.now.0 + (u64::from(burst.ticks) - 1)),
                origin: moment.at.origin,
            },
        };
        self.settle(mem, last, runner, &burst.outcome, log);
        burst.ticks
    }

    /// Whether there is room for the lines of a tick, whatever they are.
    fn has_room(&self) -> bool
        ensures some { result ≡ true → LINES_FOR_TICK ≤ self.now.room }
        ensures none { result ≡ false → self.now.room < LINES_FOR_TICK }
    {
        self.room >= usize::from(LINES_FOR_TICK)
    }

    /// How many of `k` ticks, from `moment` on, the current runner has to itself: nothing is due and
    /// the choice stays, which `stays` may know already. None if there is no room for their lines.
    fn own_ticks(&self, moment: Moment, k: u32, stays: bool) -> u32
        requires { stays ≡ true
            → meaning.chooses_with_handler self.now.kernel ≡ nothing self.now.kernel }
        ensures within { result ≤ k }
        ensures room { 0 < result → LINES_FOR_TICK ≤ self.now.room }
        ensures choice { 0 < result
            → meaning.chooses_with_handler self.now.kernel ≡ nothing self.now.kernel }
        ensures due { (i : ℕ) → i < result
            → HasNothingDue (tick_from moment.at.origin.0 (moment.at.now.0 + i)) self.now.kernel }
    {
        if self.has_room() && (stays || self.kernel.choice_stays()) {
            self.kernel.quiet_ticks(moment, k)
        } else {
            0
        }
    }

    /// Treats what is due and chooses the runner, which then executes at least one tick, and goes on
    /// while it has the ticks to itself; returns how many. If nobody is chosen, nothing happens in
    /// these ticks.
    fn phase<L: EventLog>(&mut self, mem: &mut E::Mem, moment: Moment, k: u32, log: &mut L) -> u32
        requires some { 0 < k }
        requires soon { moment.at.now.0 + k ≤ MOST_TICKS }
        requires fits { E.laid mem.old ≡ E.layout self.old.executor }
        requires idle { IsEmpty self.old.out }
        requires room { LINES_FOR_TICK ≤ self.old.room }
        requires known { self.old.room ≤ L.room log.old }
        ensures fits { E.laid mem.new ≡ E.layout self.new.executor }
        ensures idle { IsEmpty self.new.out }
        ensures within { result ≤ k }
        ensures some { 0 < result }
        ensures gone { RecordsSome L.EventLog log.old log.new self.old.room self.new.room
            (λ told. HasGone moment.at self.old.room (member_of E.Executor self.old mem.old)
            (member_of E.Executor self.new mem.new) told result) }
    {
        let stays = self.prepare(mem, moment, log);
        let next = Moment {
            at: At {
                now: Ticks(moment.at.now.0 + 1),
                origin: moment.at.origin,
            },
        };
        let own = self.own_ticks(next, k - 1, stays);
        match self.kernel.running() {
            None => own + 1,
            Some(runner) => self.burst(mem, moment, runner, own + 1, log),
        }
    }

    /// Executes `k` ticks of the partition, from `moment` on, or fewer, once their lines leave less
    /// room than those of a tick may need; returns how many. The partition is then as that many
    /// calls of [`Partition::tick`] leave it, and the events are those of all these calls. Nothing
    /// from outside of the partition may happen in these ticks.
    pub fn advance<L: EventLog>(
        &mut self,
        mem: &mut E::Mem,
        moment: Moment,
        k: u32,
        log: &mut L,
    ) -> u32
        requires soon { moment.at.now.0 + k ≤ MOST_TICKS }
        requires fits { E.laid mem.old ≡ E.layout self.old.executor }
        requires empty { L.held log.old ≡ [] }
        ensures fits { E.laid mem.new ≡ E.layout self.new.executor }
        ensures within { result ≤ k }
        ensures advanced { TellsSome L.EventLog log.old log.new
            (λ told. HasAdvanced moment.at k (member_of E.Executor self.old mem.old)
            (member_of E.Executor self.new mem.new) told result) }
    {
        self.out.clear();
        self.room = MOST_EVENTS;
        let mut left = k;
        while left > 0 && self.has_room() {
            let now = Moment {
                at: At {
                    now: Ticks(moment.at.now.0 + u64::from(k - left)),
                    origin: moment.at.origin,
                },
            };
            left -= self.phase(mem, now, left, log);
        }
        k - left
    }
}
