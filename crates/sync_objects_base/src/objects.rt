//! The objects of a partition, and the few ways to change them.

ghost use Rattle.std.specs.Prelude.{◌≡◌, ◌<◌, ◌≤◌, ◌++◌, [], ◌∷◌, drop, length, map, replicate, slice_get, IfOk, IfSome, IsNone, OnSome, true};
ghost use Rattle.apex_types.specs.Limits.{MOST_OBJECTS};
ghost use Rattle.kernel_meaning.specs.Objects as meaning;
ghost use Rattle.sync_objects_base.specs.Status.{buffer_at, buffer_of_status, buffer_status, blackboard_at, blackboard_of_status, blackboard_status, event_at, semaphore_at, without_first};

use crate::blackboard::{Blackboard, BlackboardStatus};
use crate::buffer::{Buffer, BufferStatus};
use crate::event::ApexEvent;
use crate::find::place_of;
use crate::semaphore::Semaphore;
use apex_types::{BlackboardRow, BufferRow, MOST_OBJECTS, SemaphoreRow, Words};
use std::alloc::{AllocError, Global};
use std::marker::Model;

/// The semaphores, events, buffers and blackboards of a partition. A contract sees them as the
/// objects of the definitions.
#[derive(Drop)]
pub struct Objects {
    semaphores: Vec<Semaphore>,
    events: Vec<ApexEvent>,
    buffers: Vec<Buffer>,
    blackboards: Vec<Blackboard>,
}

impl Model for Objects {
    ghost use Rattle.kernel_meaning.specs.Objects as meaning;

    ghost Value = { meaning.Objects };

    ghost use Rattle.sync_objects_base.specs.View.{objects_of, AreFew};

    ghost view = { objects_of };

    ghost invariant = { AreFew };
}

fn fresh_semaphores(alloc: Global, rows: &[SemaphoreRow]) -> Result<Vec<Semaphore>, AllocError>
    ensures { IfOk result (λ all. all.items ≡ map meaning.fresh_semaphore rows.now) }
{
    let mut all = Vec::with_capacity(alloc, rows.len())?;
    for row in rows {
        all.push(Semaphore::fresh(*row))?;
    }
    Ok(all)
}

fn fresh_events(alloc: Global, count: u8) -> Result<Vec<ApexEvent>, AllocError>
    ensures { IfOk result (λ all. all.items ≡ replicate count meaning.fresh_event) }
{
    let mut all = Vec::with_capacity(alloc, usize::from(count))?;
    for _number in 0..count {
        all.push(ApexEvent::fresh())?;
    }
    Ok(all)
}

fn fresh_buffers(alloc: Global, rows: &[BufferRow]) -> Result<Vec<Buffer>, AllocError>
    ensures { IfOk result (λ all. all.items ≡ map meaning.fresh_buffer rows.now) }
{
    let mut all = Vec::with_capacity(alloc, rows.len())?;
    for row in rows {
        all.push(Buffer::fresh(alloc, *row)?)?;
    }
    Ok(all)
}

fn fresh_blackboards(alloc: Global, rows: &[BlackboardRow]) -> Result<Vec<Blackboard>, AllocError>
    ensures { IfOk result (λ all. all.items ≡ map meaning.fresh_blackboard rows.now) }
{
    let mut all = Vec::with_capacity(alloc, rows.len())?;
    for row in rows {
        all.push(Blackboard::fresh(*row))?;
    }
    Ok(all)
}

fn clear_semaphores(all: &mut Vec<Semaphore>)
    ensures { all.new.items ≡ map meaning.cleared_semaphore all.old.items }
{
    for semaphore in all.iter_mut() {
        *semaphore = semaphore.cleared();
    }
}

fn clear_events(all: &mut Vec<ApexEvent>)
    ensures { all.new.items ≡ map meaning.cleared_event all.old.items }
{
    for event in all.iter_mut() {
        *event = ApexEvent::fresh();
    }
}

fn clear_buffers(all: &mut Vec<Buffer>)
    ensures { all.new.items ≡ map meaning.cleared_buffer all.old.items }
{
    for buffer in all.iter_mut() {
        buffer.clear();
    }
}

fn clear_blackboards(all: &mut Vec<Blackboard>)
    ensures { all.new.items ≡ map meaning.cleared_blackboard all.old.items }
{
    for blackboard in all.iter_mut() {
        blackboard.clear();
    }
}

impl Objects {
    /// Makes the objects, with none created. `AllocError`: out of memory.
    pub fn new(
        alloc: Global,
        semaphores: &[SemaphoreRow],
        events: u8,
        buffers: &[BufferRow],
        blackboards: &[BlackboardRow],
    ) -> Result<Objects, AllocError>
        requires few_semaphores { length semaphores.now ≤ MOST_OBJECTS }
        requires few_events { events ≤ MOST_OBJECTS }
        requires few_buffers { length buffers.now ≤ MOST_OBJECTS }
        requires few_blackboards { length blackboards.now ≤ MOST_OBJECTS }
        ensures { IfOk result
            (λ objects.
            objects ≡ meaning.fresh_objects semaphores.now events buffers.now blackboards.now) }
    {
        Ok(Objects {
            semaphores: fresh_semaphores(alloc, semaphores)?,
            events: fresh_events(alloc, events)?,
            buffers: fresh_buffers(alloc, buffers)?,
            blackboards: fresh_blackboards(alloc, blackboards)?,
        })
    }

    /// Resets all objects: none is created, and all that they held is removed.
    pub fn clear(&mut self)
        ensures { self.new ≡ meaning.cleared_objects self.old }
    {
        clear_semaphores(&mut self.semaphores);
        clear_events(&mut self.events);
        clear_buffers(&mut self.buffers);
        clear_blackboards(&mut self.blackboards);
    }

    /// The semaphores, in the order of the source.
    pub fn semaphores(&self) -> &[Semaphore]
        ensures all { result.now ≡ self.now.semaphores }
        ensures few { length result.now ≤ MOST_OBJECTS }
    {
        &self.semaphores
    }

    /// The events, in the order of the source.
    pub fn events(&self) -> &[ApexEvent]
        ensures all { result.now ≡ self.now.events }
        ensures few { length result.now ≤ MOST_OBJECTS }
    {
        &self.events
    }

    /// The buffers, in the order of the source.
    pub fn buffers(&self) -> &[Buffer]
        ensures all { result.now ≡ self.now.buffers }
        ensures few { length result.now ≤ MOST_OBJECTS }
    {
        &self.buffers
    }

    /// The blackboards, in the order of the source.
    pub fn blackboards(&self) -> &[Blackboard]
        ensures all { result.now ≡ self.now.blackboards }
        ensures few { length result.now ≤ MOST_OBJECTS }
    {
        &self.blackboards
    }

    /// The semaphore with number `id`, and its place.
    pub fn semaphore(&self, id: i64) -> Option<(u8, Semaphore)>
        ensures found { result ≡ meaning.semaphore self.now id }
        ensures at { IfSome result (λ found. found.1 ≡ semaphore_at self.now found.0) }
        ensures within { IfSome result (λ found. found.0 < MOST_OBJECTS) }
    {
        let place = place_of(&self.semaphores, id)?;
        Some((place as u8, self.semaphores[place]))
    }

    /// Creates the semaphore at `place`.
    pub fn create_semaphore(&mut self, place: u8)
        ensures { self.new
            ≡ meaning.put_semaphore self.old place
            (record (semaphore_at self.old place) { created = true }) }
    {
        if let Some(semaphore) = self.semaphores.get_mut(usize::from(place)) {
            *semaphore = semaphore.created();
        }
    }

    /// Replaces the semaphore at `place`.
    pub fn put_semaphore(&mut self, place: u8, semaphore: Semaphore)
        ensures { self.new ≡ meaning.put_semaphore self.old place semaphore }
    {
        if let Some(old) = self.semaphores.get_mut(usize::from(place)) {
            *old = semaphore;
        }
    }

    /// The event with number `id`, and its place.
    pub fn event(&self, id: i64) -> Option<(u8, ApexEvent)>
        ensures found { result ≡ meaning.event self.now id }
        ensures at { IfSome result (λ found. found.1 ≡ event_at self.now found.0) }
        ensures within { IfSome result (λ found. found.0 < MOST_OBJECTS) }
    {
        let place = place_of(&self.events, id)?;
        Some((place as u8, self.events[place]))
    }

    /// Creates the event at `place`.
    pub fn create_event(&mut self, place: u8)
        ensures { self.new
            ≡ meaning.put_event self.old place
            (record (event_at self.old place) { created = true }) }
    {
        if let Some(event) = self.events.get_mut(usize::from(place)) {
            *event = event.created();
        }
    }

    /// Replaces the event at `place`.
    pub fn put_event(&mut self, place: u8, event: ApexEvent)
        ensures { self.new ≡ meaning.put_event self.old place event }
    {
        if let Some(old) = self.events.get_mut(usize::from(place)) {
            *old = event;
        }
    }

    /// The place and the status of the buffer with number `id`.
    pub fn buffer(&self, id: i64) -> Option<(u8, BufferStatus)>
        ensures found { meaning.buffer self.now id ≡ buffer_of_status self.now result }
        ensures status { IfSome result
            (λ found. found.1 ≡ buffer_status (buffer_at self.now found.0)) }
        ensures within { IfSome result (λ found. found.0 < MOST_OBJECTS) }
    {
        let place = place_of(&self.buffers, id)?;
        Some((place as u8, self.buffers[place].status()))
    }

    /// Creates the buffer at `place`.
    pub fn create_buffer(&mut self, place: u8)
        ensures { self.new
            ≡ meaning.put_buffer self.old place
            (record (buffer_at self.old place) { created = true }) }
    {
        if let Some(buffer) = self.buffers.get_mut(usize::from(place)) {
            buffer.create();
        }
    }

    /// Appends a message to the buffer at `place`.
    pub fn push_message(&mut self, place: u8, message: &Words)
        requires { length (buffer_at self.old place).messages
            < (buffer_at self.old place).row.depth }
        ensures { let x = buffer_at self.old place in
            self.new
            ≡ meaning.put_buffer self.old place
            (record x { messages = x.messages ++ message.now ∷ [] }) }
    {
        if let Some(buffer) = self.buffers.get_mut(usize::from(place)) {
            buffer.push(message);
        }
    }

    /// Takes the first message of the buffer at `place`.
    pub fn pop_message(&mut self, place: u8) -> Option<Words>
        ensures first { result ≡ slice_get (buffer_at self.old place).messages 0 }
        ensures empty { IsNone result → self.new ≡ self.old }
        ensures rest { OnSome result
            (self.new
            ≡ meaning.put_buffer self.old place (without_first (buffer_at self.old place))) }
        ensures left { OnSome result
            (buffer_at self.new place ≡ without_first (buffer_at self.old place)) }
        ensures room { OnSome result
            (let x = buffer_at self.new place in length x.messages < x.row.depth) }
    {
        let buffer = self.buffers.get_mut(usize::from(place))?;
        buffer.pop()
    }

    /// The place and the status of the blackboard with number `id`.
    pub fn blackboard(&self, id: i64) -> Option<(u8, BlackboardStatus)>
        ensures found { meaning.blackboard self.now id ≡ blackboard_of_status self.now result }
        ensures status { IfSome result
            (λ found. found.1 ≡ blackboard_status (blackboard_at self.now found.0)) }
        ensures within { IfSome result (λ found. found.0 < MOST_OBJECTS) }
    {
        let place = place_of(&self.blackboards, id)?;
        Some((place as u8, self.blackboards[place].status()))
    }

    /// Creates the blackboard at `place`.
    pub fn create_blackboard(&mut self, place: u8)
        ensures { self.new
            ≡ meaning.put_blackboard self.old place
            (record (blackboard_at self.old place) { created = true }) }
    {
        if let Some(blackboard) = self.blackboards.get_mut(usize::from(place)) {
            blackboard.create();
        }
    }

    /// Displays a message on the blackboard at `place`, or none.
    pub fn show(&mut self, place: u8, shown: Option<Words>)
        ensures { self.new
            ≡ meaning.put_blackboard self.old place
            (record (blackboard_at self.old place) { shown = shown }) }
    {
        if let Some(blackboard) = self.blackboards.get_mut(usize::from(place)) {
            blackboard.show(shown);
        }
    }

    /// The message that the blackboard at `place` displays.
    pub fn shown(&self, place: u8) -> Option<Words>
        ensures { result ≡ (blackboard_at self.now place).shown }
    {
        let blackboard = self.blackboards.get(usize::from(place))?;
        blackboard.shown()
    }
}
