//! A program as a section of an image.

ghost use Rattle.std.specs.Prelude.{◌≡◌, ◌≤◌, ◌<◌, ◌↔◌, ◌++◌, length, map, All, FitsSigned, IfOk, Err, Some};
ghost use Rattle.std.specs.Int.{w64};
ghost use Rattle.apex_types.specs.Limits.{MOST_INSTRUCTIONS};
ghost use Rattle.pal_meaning.specs.Program as cost;
ghost use Rattle.compiling_laws.specs.CompiledCode as code_of;
ghost use Rattle.machine_meaning.specs.Instructions.{bytes_of, reading};
ghost use Rattle.pal_base.specs.ProgramView.{program_of};
ghost use Rattle.compiling_laws.specs.Fits.{Fits};
ghost use Rattle.compiler.specs.Faithful.{IsFaithful};
ghost use Rattle.compiler.specs.SectionView.{section_view};

use crate::bodies::{emit_body, emit_handler, emit_procedures, emit_processes};
use crate::fault::CompileFault;
use crate::size::size_of_program;
use apex_types::limits::MOST_INSTRUCTIONS;
use apex_types::{Instr, Section};
use pal_base::checked::Checked;
use pal_base::program::Program;
use processor::encode;
use std::alloc::{AllocError, Global};

/// The section of a program. Its code has one instruction for each construct, and the processor
/// over it behaves as the program's source.
///
/// # Errors
///
/// `TooLong` if the code would have more than [`MOST_INSTRUCTIONS`]; otherwise `Memory` if there is
/// no memory for the section.
pub fn compile(alloc: Global, checked: &Checked) -> Result<Section, CompileFault>
    ensures section { IfOk result
        (λ section. section_view section ≡ code_of.section_of (program_of checked.now.program)) }
    ensures reads_back { IfOk result
        (λ section. map reading section.code.items
        ≡ map Some (code_of.code_of (program_of checked.now.program))) }
    ensures words { IfOk result (λ section. All (FitsSigned w64) section.initial.items) }
    ensures size { IfOk result
        (λ section. length section.code.items ≡ cost.size_of (program_of checked.now.program)) }
    ensures means { IfOk result
        (λ section. IsFaithful (section_view section) (program_of checked.now.program)) }
    ensures too_long { result ≡ Err CompileFault.TooLong
        ↔ MOST_INSTRUCTIONS < cost.size_of (program_of checked.now.program) }
{
    if size_of_program(checked) > MOST_INSTRUCTIONS {
        return Err(CompileFault::TooLong);
    }
    match section_of(alloc, &checked.program) {
        Ok(section) => Ok(section),
        Err(_) => Err(CompileFault::Memory),
    }
}

fn section_of(alloc: Global, program: &Program) -> Result<Section, AllocError>
    requires { cost.size_of (program_of program.now) ≤ MOST_INSTRUCTIONS }
    ensures section { IfOk result
        (λ section. section_view section ≡ code_of.section_of (program_of program.now)) }
    ensures reads_back { IfOk result
        (λ section.
        map reading section.code.items ≡ map Some (code_of.code_of (program_of program.now))) }
    ensures words { IfOk result (λ section. All (FitsSigned w64) section.initial.items) }
    ensures size { IfOk result
        (λ section. length section.code.items ≡ cost.size_of (program_of program.now)) }
    ensures means { IfOk result
        (λ section. Fits (program_of program.now)
        → IsFaithful (section_view section) (program_of program.now)) }
{
    let mut code = Vec::new(alloc);
    let init = emit_body(&mut code, &program.init)?;
    let handler = emit_handler(&mut code, &program.handler)?;
    let processes = emit_processes(alloc, &mut code, &program.processes)?;
    let routines = emit_procedures(alloc, &mut code, &program.procedures)?;
    Ok(Section {
        initial: copied_words(alloc, &program.initial)?,
        semaphores: copied(alloc, &program.semaphores)?,
        events: program.events,
        buffers: copied(alloc, &program.buffers)?,
        blackboards: copied(alloc, &program.blackboards)?,
        routines,
        processes,
        init,
        handler,
        code: encoded(alloc, &code)?,
    })
}

/// A copy of the words of the data.
fn copied_words(alloc: Global, words: &[i64]) -> Result<Vec<i64>, AllocError>
    ensures items { IfOk result (λ copy. copy.items ≡ words.now) }
    ensures words { IfOk result (λ copy. All (FitsSigned w64) copy.items) }
{
    let mut copy = Vec::with_capacity(alloc, words.len())?;
    for word in words {
        copy.push(*word)?;
    }
    Ok(copy)
}

/// A copy of a list.
fn copied<T: Copy + Drop>(alloc: Global, items: &[T]) -> Result<Vec<T>, AllocError>
    ensures { IfOk result (λ copy. copy.items ≡ items.now) }
{
    let mut copy = Vec::new(alloc);
    copy.extend_from_slice(items)?;
    Ok(copy)
}

/// The instructions as bytes. Reading these bytes gives the same instructions.
fn encoded(alloc: Global, code: &[Instr]) -> Result<Vec<[u8; 16]>, AllocError>
    ensures bytes { IfOk result (λ bytes. bytes.items ≡ map bytes_of code.now) }
    ensures reads_back { IfOk result (λ bytes. map reading bytes.items ≡ map Some code.now) }
{
    let mut bytes = Vec::with_capacity(alloc, code.len())?;
    for instr in code {
        bytes.push(encode(instr))?;
    }
    Ok(bytes)
}
