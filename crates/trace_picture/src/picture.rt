//! The events in the ticks of a picture.

ghost use Rattle.std.specs.Prelude.{◌≡◌, ◌*◌, ◌-◌, ◌≤◌, ◌++◌, ◌∷◌, [], length, IfOk, OnErr, OnOk, Some};
ghost use Rattle.apex_types.specs.Line.{subject_text};
ghost use Rattle.trace_picture.specs.Marked.{bar_of_stay, bars_of_stays, flag_at, is_port, marks_in, marks_of_module, message_at, one_of, owner_in, report_at, way_from, way_in, way_to};
ghost use Rattle.trace_stays.specs.Following.{AreInPlace, AreKept, process_at};
ghost use Rattle.trace_stays.specs.Shown.{open_ticks};

use crate::axis::Axis;
use crate::drawing::Drawing;
use crate::elements::{beginnings, excess_of};
use crate::fault::PictureFault;
use crate::rows::Rows;
use crate::shape::{Flag, MOST_SHAPES, Message, Owner, Report, Shape, Stop, Way};
use crate::width::Width;
use apex_types::{ErrorKind, Event, EventKind, Name, Response, Subject, Ticks, Words, copied};
use std::alloc::Global;
use trace_stays::{Ended, Lanes, MemoryFull, ModeStay, ShownTicks, Span, Stay};
use trace_windows::Windows;

/// A picture of some ticks of a trace. It keeps what these ticks show, and nothing else. Once it
/// has too many shapes it keeps no more of them, and only counts them.
#[derive(Drop)]
pub struct Picture {
    alloc: Global,
    /// The ticks that are shown.
    shown: ShownTicks,
    lanes: Lanes,
    shapes: Vec<Shape>,
    /// The way of the message that moved last.
    way: Option<Way>,
    /// The number of shapes, also of those that are not kept.
    count: u64,
    /// The ticks up to the line that filled the picture, once it has too many shapes.
    filled: ShownTicks,
}

impl Picture {
    ghost use Rattle.trace_picture.specs.Drawn.{HasDrawn, HasFinished, HasKept, bars_in};
    ghost use Rattle.trace_picture.specs.Marked.{IsLike, IsLikeButLanes, kept_ticks};
    ghost use Rattle.trace_stays.specs.Following.{modes_left, states_left};
    ghost use Rattle.trace_stays.specs.Shown.{shown_from, shown_ticks, with_read};

    /// A picture of the ticks from the first one on and before the second; with none, up to the tick
    /// of the last line.
    pub fn new(alloc: Global, from: Ticks, to: Option<Ticks>) -> Picture
        ensures shown { result.shown ≡ shown_from from to }
        ensures partitions { result.lanes.partitions.items ≡ [] }
        ensures shapes { result.shapes.items ≡ [] }
    {
        Picture {
            alloc,
            shown: ShownTicks::new(from, to),
            lanes: Lanes::new(alloc),
            shapes: Vec::new(alloc),
            way: None,
            count: 0,
            filled: ShownTicks::new(from, to),
        }
    }

    /// Adds an event. The events come in the order of their lines. All shapes are counted; a picture
    /// that has too many already keeps no more of them.
    ///
    /// # Errors
    ///
    /// Memory ran out.
    #[tactic(auto, using(crate::proofs::Drawn::line_passed, crate::proofs::Drawn::line_drawn))]
    pub fn add(&mut self, event: &Event) -> Result<(), MemoryFull>
        ensures shown { self.new.shown ≡ with_read event.now.tick.0 self.old.shown }
        ensures drawn { OnOk result (HasDrawn event.now self.old self.new) }
    {
        if !self.shown.read(event.tick) {
            return Ok(());
        }
        let before = self.shapes.len();
        self.keep_line(event)?;
        let more = self.shapes.len().saturating_sub(before);
        self.count = self.count.saturating_add(more as u64);
        self.settle(before)?;
        Ok(())
    }

    /// Keeps what an event before the end of the ticks shows.
    fn keep_line(&mut self, event: &Event) -> Result<(), MemoryFull>
        ensures shown { self.new.shown ≡ self.old.shown }
        ensures more { OnOk result
            (length self.old.shapes.items ≤ length self.new.shapes.items) }
        ensures kept { OnOk result (HasKept event.now self.old self.new) }
    {
        let mut ended = Vec::new(self.alloc);
        self.lanes.follow(event, &mut ended)?;
        self.keep_stays(ended.as_slice())?;
        self.mark(event)?;
        Ok(())
    }

    /// Lets go of the shapes after the first ones if the picture was full with them. If it has too many
    /// now, it keeps the bars of the stays that are not over, and is full.
    fn settle(&mut self, before: usize) -> Result<(), MemoryFull>
        requires { before ≤ length self.old.shapes.items }
        ensures shown { self.new.shown ≡ self.old.shown }
        ensures fits { OnOk result (length self.new.shapes.items ≤ 5000 → before ≤ 5000) }
        ensures kept { OnOk result (length self.new.shapes.items ≤ 5000 → self.new ≡ self.old) }
    {
        if before > MOST_SHAPES {
            self.shapes.truncate(before);
        } else if self.shapes.len() > MOST_SHAPES {
            self.keep_rest()?;
            self.filled = self.shown;
        }
        Ok(())
    }

    /// The ticks that are shown or, once the picture is full, those up to the line that filled it.
    fn span(&self) -> Span
        ensures value { result ≡ kept_ticks self.now }
        ensures in_order { result.from.0 ≤ result.until.0 }
    {
        if self.shapes.len() > MOST_SHAPES {
            self.filled.span()
        } else {
            self.shown.span()
        }
    }

    /// The tick before which the picture ends, if no line follows.
    pub fn until(&self) -> Ticks
        ensures { result ≡ (kept_ticks self.now).until }
    {
        self.span().until
    }

    /// The picture as it is drawn, so wide, with these windows up to its end, if they are known. No
    /// event follows.
    ///
    /// # Errors
    ///
    /// Memory ran out, or the picture would have too many elements.
    pub fn finish(mut self, windows: Option<Windows>, width: Width) -> Result<Drawing, PictureFault>
        ensures drawn { IfOk result (HasFinished self windows) }
        ensures wide { IfOk result (λ drawing. drawing.axis.long ≡ width.pixels * 10 - 1800) }
    {
        let span = self.span();
        let count = self.end()?;
        let begun = beginnings(self.alloc, span, &windows, self.shapes.as_slice())?;
        if begun.len() > MOST_SHAPES {
            return Err(PictureFault::Crowded(excess_of(span, begun.as_slice(), count)));
        }
        let rows = Rows::new(self.alloc, &self.lanes, &self.shapes, windows.is_some())?;
        Ok(Drawing {
            alloc: self.alloc,
            axis: Axis {
                span,
                long: width.axis(),
            },
            rows,
            lanes: self.lanes,
            shapes: self.shapes,
            windows,
            elements: begun.len(),
        })
    }

    /// Keeps the bars of the stays that end with the trace, unless the picture is full. Returns how many
    /// shapes the whole trace has.
    fn end(&mut self) -> Result<u64, MemoryFull>
        ensures lanes { self.new.lanes ≡ self.old.lanes }
        ensures fits { OnOk result
            (length self.new.shapes.items ≤ 5000 → length self.old.shapes.items ≤ 5000) }
        ensures rest { OnOk result
            (length self.new.shapes.items ≤ 5000
            → self.new.shapes.items
            ≡ self.old.shapes.items
            ++ bars_of_stays (open_ticks self.old.shown)
            (modes_left 0 (shown_ticks self.old.shown).until.0 self.old.lanes.partitions.items
            ++ states_left 0 (shown_ticks self.old.shown).until.0
            self.old.lanes.processes.items)) }
    {
        let kept = self.shapes.len();
        self.keep_rest()?;
        let more = self.shapes.len().saturating_sub(kept);
        if kept > MOST_SHAPES {
            self.shapes.truncate(kept);
        }
        Ok(self.count.saturating_add(more as u64))
    }

    /// Keeps the bars of the stays that are not over.
    fn keep_rest(&mut self) -> Result<(), MemoryFull>
        ensures others { IsLike self.old self.new }
        ensures rest { OnOk result
            (self.new.shapes.items
            ≡ self.old.shapes.items
            ++ bars_of_stays (open_ticks self.old.shown)
            (modes_left 0 (shown_ticks self.old.shown).until.0 self.old.lanes.partitions.items
            ++ states_left 0 (shown_ticks self.old.shown).until.0
            self.old.lanes.processes.items)) }
    {
        let until = self.shown.span().until;
        let mut ended = Vec::new(self.alloc);
        self.lanes.finish(until, &mut ended)?;
        self.keep_stays(ended.as_slice())
    }

    /// Keeps a shape.
    fn keep(&mut self, shape: Shape) -> Result<(), MemoryFull>
        ensures kept { OnOk result (self.new.shapes.items ≡ self.old.shapes.items ++ shape ∷ []) }
        ensures refused { OnErr result (self.new.shapes.items ≡ self.old.shapes.items) }
        ensures others { IsLike self.old self.new }
    {
        self.shapes.push(shape)?;
        Ok(())
    }

    /// Keeps the bars of stays that are over.
    #[tactic(auto, using(std::proofs::lemmas::List::drop_more))]
    fn keep_stays(&mut self, ended: &[Ended]) -> Result<(), MemoryFull>
        ensures kept { OnOk result
            (self.new.shapes.items
            ≡ self.old.shapes.items ++ bars_of_stays (open_ticks self.old.shown) ended.now) }
        ensures others { IsLike self.old self.new }
    {
        for one in ended {
            self.keep_stay(*one)?;
        }
        Ok(())
    }

    /// Keeps the bar of a stay, if some of its ticks are shown.
    fn keep_stay(&mut self, ended: Ended) -> Result<(), MemoryFull>
        ensures kept { OnOk result
            (self.new.shapes.items
            ≡ self.old.shapes.items ++ bar_of_stay (open_ticks self.old.shown) ended) }
        ensures others { IsLike self.old self.new }
    {
        let open = self.shown.open();
        let (span, shape) = match ended {
            Ended::State(process, stay) => {
                let span = stay.span.within(open);
                (span, Shape::State(process, Stay { span, ..stay }))
            }
            Ended::Mode(partition, stay) => {
                let span = stay.span.within(open);
                (span, Shape::Mode(partition, ModeStay { span, ..stay }))
            }
        };
        if span.ticks() == 0 {
            return Ok(());
        }
        self.keep(shape)
    }

    /// Keeps what an event shows without states and modes, if its tick is shown.
    #[tactic(auto, using(crate::proofs::Drawn::bars_stay, crate::proofs::Drawn::longer, crate::proofs::Drawn::no_bars, crate::proofs::Drawn::no_module_bars, crate::proofs::Drawn::kept_itself, trace_stays::proofs::Followed::in_own_place))]
    fn mark(&mut self, event: &Event) -> Result<(), MemoryFull>
        ensures shown { self.new.shown ≡ self.old.shown }
        ensures kept { OnOk result (AreKept self.old.lanes self.new.lanes) }
        ensures places { OnOk result (AreInPlace self.old.lanes self.new.lanes) }
        ensures more { OnOk result
            (length self.old.shapes.items ≤ length self.new.shapes.items) }
        ensures bars { OnOk result
            (bars_in self.new.shapes.items ≡ bars_in self.old.shapes.items) }
    {
        if event.tick.0 < self.shown.open().from.0 {
            return Ok(());
        }
        match &event.partition {
            Some(name) => self.mark_in(name, &event.kind, event.tick),
            None => self.mark_module(&event.kind, event.tick),
        }
    }

    /// Keeps what an event of the partition with this name shows.
    #[tactic(auto, using(trace_stays::proofs::Followed::both_in_place))]
    fn mark_in(&mut self, name: &Name, kind: &EventKind, tick: Ticks) -> Result<(), MemoryFull>
        ensures shown { self.new.shown ≡ self.old.shown }
        ensures kept { OnOk result (AreKept self.old.lanes self.new.lanes) }
        ensures places { OnOk result (AreInPlace self.old.lanes self.new.lanes) }
        ensures marks { OnOk result
            (self.new.shapes.items
            ≡ self.old.shapes.items
            ++ marks_in tick.0 name.now kind.now self.old.way self.new.lanes) }
        ensures way { OnOk result
            (self.new.way ≡ way_in tick.0 name.now kind.now self.old.way self.new.lanes) }
    {
        let partition = self.lanes.partition_place(name)?;
        match kind {
            EventKind::State(_, _) | EventKind::Return(_, _, _) | EventKind::Mode(_) => Ok(()),
            EventKind::Error(error, who, response) => {
                let owner = self.owner(name, who)?;
                self.flag(tick, owner, *error, who, *response)
            }
            EventKind::Report(who, words) => self.report(name, who, words, tick),
            EventKind::Move(port, _) => {
                let before = self.way;
                self.way = Some(way_from(tick, Stop::Port(partition, *port), &before));
                Ok(())
            }
            EventKind::Arrive(port, words) => {
                self.message(tick, Stop::Port(partition, *port), false, words)
            }
            EventKind::Lost(port, words) => {
                self.message(tick, Stop::Port(partition, *port), true, words)
            }
            EventKind::Out(channel, words) => {
                self.message(tick, Stop::Channel(*channel), false, words)
            }
        }
    }

    /// Keeps what an event of the module itself shows.
    fn mark_module(&mut self, kind: &EventKind, tick: Ticks) -> Result<(), MemoryFull>
        ensures marks { OnOk result
            (self.new.shapes.items ≡ self.old.shapes.items ++ marks_of_module tick.0 kind.now) }
        ensures others { IsLike self.old self.new }
    {
        match kind {
            EventKind::Error(error, who, response) => {
                self.flag(tick, Owner::Module, *error, who, *response)
            }
            _ => Ok(()),
        }
    }

    /// The owner of an error in the partition with this name.
    fn owner(&mut self, partition: &Name, who: &Option<Subject>) -> Result<Owner, MemoryFull>
        ensures owner { IfOk result
            (λ o. owner_in partition.now who.now self.new.lanes ≡ Some o) }
        ensures kept { OnOk result (AreKept self.old.lanes self.new.lanes) }
        ensures places { OnOk result (AreInPlace self.old.lanes self.new.lanes) }
        ensures others { IsLikeButLanes self.old self.new }
    {
        match who {
            Some(who) => Ok(Owner::Process(self.lanes.process_place(partition, who)?)),
            None => Ok(Owner::Partition(self.lanes.partition_place(partition)?)),
        }
    }

    fn flag(
        &mut self,
        tick: Ticks,
        owner: Owner,
        error: ErrorKind,
        who: &Option<Subject>,
        response: Response,
    ) -> Result<(), MemoryFull>
        ensures kept { OnOk result
            (self.new.shapes.items
            ≡ self.old.shapes.items ++ flag_at tick.0 error who.now response owner ∷ []) }
        ensures others { IsLike self.old self.new }
    {
        self.keep(Shape::Flag(Flag {
            tick,
            owner,
            error,
            who: *who,
            response,
        }))
    }

    /// Keeps the mark of an application message of a process.
    fn report(
        &mut self,
        partition: &Name,
        who: &Subject,
        words: &Words,
        tick: Ticks,
    ) -> Result<(), MemoryFull>
        ensures lanes { OnOk result (AreKept self.old.lanes self.new.lanes) }
        ensures places { OnOk result (AreInPlace self.old.lanes self.new.lanes) }
        ensures kept { OnOk result
            (self.new.shapes.items
            ≡ self.old.shapes.items
            ++ one_of (process_at partition.now (subject_text who.now) self.new.lanes)
            (report_at tick.0 words.now)) }
        ensures way { self.new.way ≡ self.old.way }
        ensures shown { self.new.shown ≡ self.old.shown }
    {
        let process = self.lanes.process_place(partition, who)?;
        self.keep(Shape::Report(Report {
            tick,
            process,
            words: copied(words),
        }))
    }

    /// Keeps the arrow of a message that arrives, is lost or leaves the module.
    fn message(
        &mut self,
        tick: Ticks,
        to: Stop,
        lost: bool,
        words: &Words,
    ) -> Result<(), MemoryFull>
        ensures kept { OnOk result
            (self.new.shapes.items
            ≡ self.old.shapes.items ++ message_at tick.0 self.old.way to lost words.now ∷ []) }
        ensures way { self.new.way ≡ Some (way_to tick.0 self.old.way) }
        ensures lanes { self.new.lanes ≡ self.old.lanes }
        ensures shown { self.new.shown ≡ self.old.shown }
    {
        let before = self.way;
        self.way = Some(way_to(tick, &before));
        let Way { from, beside, .. } = way_to(tick, &before);
        self.keep(Shape::Message(Message {
            tick,
            beside,
            from,
            to,
            lost,
            words: copied(words),
        }))
    }
}

/// The way of a message that leaves this place now.
fn way_from(tick: Ticks, from: Stop, way: &Option<Way>) -> Way
    ensures { result ≡ way_from tick.0 from way.now }
{
    let beside = match way {
        Some(way) if way.tick.0 == tick.0 => way.beside.saturating_add(1),
        _ => 0,
    };
    Way { tick, from, beside }
}

/// The way of a message that arrives in this tick: of the last message to move, if that left a port
/// in this tick, or else from outside.
fn way_to(tick: Ticks, way: &Option<Way>) -> Way
    ensures { result ≡ way_to tick.0 way.now }
{
    match way {
        Some(way) if way.tick.0 == tick.0 && is_port(&way.from) => *way,
        _ => way_from(tick, Stop::Device, way),
    }
}

fn is_port(stop: &Stop) -> bool
    ensures { result ≡ is_port stop.now }
{
    match stop {
        Stop::Device | Stop::Channel(_) => false,
        Stop::Port(_, _) => true,
    }
}
