//! The section of a partition, compiled from its source.

ghost use Rattle.std.specs.Prelude.{◌≡◌, ◌++◌, Option, OnOk};
ghost use Rattle.machine_meaning.specs.ImageSpelling.{i64, semaphore, buffer, blackboard, routine, body, process, handler, instruction, objects_in, objects, bodies_in, bodies, section};
ghost use Rattle.image.specs.Items.{section_of};

use crate::writing::numbers::{number_of_discipline, put_duration, put_name};
use crate::writing::rows::{Spelled, put_list};
use apex_types::{
    BlackboardRow, BodyRow, BufferRow, ProcessRow, RoutineRow, Section, SemaphoreRow,
};
use std::alloc::AllocError;

impl Spelled for i64 {
    ghost spelled = { i64 };

    fn write(&self, out: &mut Vec<u8>) -> Result<(), AllocError> {
        out.extend_from_slice(&self.to_le_bytes())
    }
}

impl Spelled for SemaphoreRow {
    ghost spelled = { semaphore };

    #[tactic(auto, unfolding(machine_meaning::specs::ImageSpelling::semaphore))]
    fn write(&self, out: &mut Vec<u8>) -> Result<(), AllocError> {
        out.extend_from_slice(&self.value.to_le_bytes())?;
        out.extend_from_slice(&self.maximum.to_le_bytes())?;
        out.push(number_of_discipline(self.discipline))?;
        Ok(())
    }
}

impl Spelled for BufferRow {
    ghost spelled = { buffer };

    #[tactic(auto, unfolding(machine_meaning::specs::ImageSpelling::buffer))]
    fn write(&self, out: &mut Vec<u8>) -> Result<(), AllocError> {
        out.extend_from_slice(&[
            self.words,
            self.depth,
            number_of_discipline(self.discipline),
        ])
    }
}

impl Spelled for BlackboardRow {
    ghost spelled = { blackboard };

    #[tactic(auto, unfolding(machine_meaning::specs::ImageSpelling::blackboard))]
    fn write(&self, out: &mut Vec<u8>) -> Result<(), AllocError> {
        out.extend_from_slice(&[self.words])
    }
}

impl Spelled for RoutineRow {
    ghost spelled = { routine };

    #[tactic(auto, unfolding(machine_meaning::specs::ImageSpelling::routine))]
    fn write(&self, out: &mut Vec<u8>) -> Result<(), AllocError> {
        out.extend_from_slice(&self.entry.to_le_bytes())?;
        out.push(self.parameters)?;
        out.extend_from_slice(&self.slots.to_le_bytes())?;
        out.extend_from_slice(&self.frame.to_le_bytes())
    }
}

impl Spelled for BodyRow {
    ghost spelled = { body };

    #[tactic(auto, unfolding(machine_meaning::specs::ImageSpelling::body))]
    fn write(&self, out: &mut Vec<u8>) -> Result<(), AllocError> {
        out.extend_from_slice(&self.stack.to_le_bytes())?;
        out.extend_from_slice(&self.entry.to_le_bytes())?;
        out.extend_from_slice(&self.slots.to_le_bytes())?;
        out.extend_from_slice(&self.frame.to_le_bytes())
    }
}

impl Spelled for ProcessRow {
    ghost spelled = { process };

    #[tactic(auto, unfolding(machine_meaning::specs::ImageSpelling::process))]
    fn write(&self, out: &mut Vec<u8>) -> Result<(), AllocError> {
        put_name(out, &self.name)?;
        out.push(self.priority.0)?;
        put_duration(out, self.period)?;
        put_duration(out, self.capacity)?;
        self.body.write(out)
    }
}

impl Spelled for [u8; 16] {
    ghost spelled = { instruction };

    #[tactic(auto, unfolding(machine_meaning::specs::ImageSpelling::instruction))]
    fn write(&self, out: &mut Vec<u8>) -> Result<(), AllocError> {
        out.extend_from_slice(self)
    }
}

#[tactic(auto, unfolding(machine_meaning::specs::ImageSpelling::handler))]
fn put_handler(out: &mut Vec<u8>, row: Option<BodyRow>) -> Result<(), AllocError>
    ensures { OnOk result (out.new.items ≡ out.old.items ++ handler row) }
{
    match row {
        Some(body) => {
            out.push(1)?;
            body.write(out)
        }
        None => {
            out.push(0)?;
            Ok(())
        }
    }
}

#[tactic(auto, unfolding(machine_meaning::specs::ImageSpelling::objects))]
fn put_objects(out: &mut Vec<u8>, source: &Section) -> Result<(), AllocError>
    ensures { OnOk result
        (out.new.items ≡ out.old.items ++ objects (objects_in (section_of source.now))) }
{
    put_list(out, &source.initial)?;
    put_list(out, &source.semaphores)?;
    out.push(source.events)?;
    put_list(out, &source.buffers)?;
    put_list(out, &source.blackboards)
}

#[tactic(auto, unfolding(machine_meaning::specs::ImageSpelling::bodies))]
fn put_bodies(out: &mut Vec<u8>, source: &Section) -> Result<(), AllocError>
    ensures { OnOk result
        (out.new.items ≡ out.old.items ++ bodies (bodies_in (section_of source.now))) }
{
    put_list(out, &source.routines)?;
    put_list(out, &source.processes)?;
    source.init.write(out)?;
    put_handler(out, source.handler)
}

#[tactic(auto, unfolding(machine_meaning::specs::ImageSpelling::section))]
pub fn put_section(out: &mut Vec<u8>, source: &Section) -> Result<(), AllocError>
    ensures { OnOk result (out.new.items ≡ out.old.items ++ section (section_of source.now)) }
{
    put_objects(out, source)?;
    put_bodies(out, source)?;
    put_list(out, &source.code)
}
