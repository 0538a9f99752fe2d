//! The rows that show a partition's state by the names of its source.

ghost use Rattle.std.specs.Prelude.{◌≡◌, ◌++◌, List, ℕ, OnOk, map, option_map, slice_get};
ghost use Rattle.image.specs.Items.{item_of};
ghost use Rattle.partition.specs.Members.{member_of};
ghost use Rattle.partition_base.specs.Machines.{controls_of};
ghost use Rattle.partition_base.specs.Slots.{control_on};
ghost use Rattle.partition_base.specs.contracts.machine.PartitionProcessorExecutor.TheImpl.{ghosts as machine};
ghost use Rattle.pal_base.specs.View.{name_of, process_of, texts};
ghost use Rattle.pal_base.specs.WrittenView.{program_of};
ghost use Rattle.state_rows.specs.Named as meaning;
ghost use Rattle.state_rows.specs.Rows.{rows_in};
ghost use Rattle.state_rows.specs.States.{placed};
ghost use Rattle.state_view.specs.Sources.{source_in};

use crate::chain::{BodyNames, Chain, Frame};
use crate::declared::write_declared;
use crate::heading::Heading;
use crate::source::Source;
use crate::values::subject_word;
use apex_types::{ProcessStatus, RoutineRow};
use image::PartitionItem;
use pal_base::syntax::{Identifier, Process, Program};
use partition::Partition;
use partition_base::PartitionProcessor;
use processor::Context;
use regions::PartitionMem;
use state_rows::Form;
use std::alloc::AllocError;

/// The source of a partition, with the routines that its procedures are in the code, and how its
/// rows are written.
#[derive(Clone, Copy)]
struct Names<'a> {
    of: &'a Heading,
    source: &'a Source<'a>,
    routines: &'a [RoutineRow],
}

/// The locals of the own body of the runner with a place.
fn own_locals(program: &Program, place: usize) -> &[Identifier]
    ensures { map (name_of (texts program.now.names.keys)) result.now
        ≡ meaning.own_locals (program_of program.now) place }
{
    match place {
        0 => program.init.body.locals.as_slice(),
        1 => match &program.handler {
            Some(handler) => handler.body.locals.as_slice(),
            None => &[],
        },
        _ => locals_of(process_at(program.processes.as_slice(), place - 2)),
    }
}

fn process_at(processes: &[Process], place: usize) -> Option<&Process>
    ensures { option_map (λ p. p.now) result ≡ slice_get processes.now place }
{
    processes.get(place)
}

/// The locals of a process, if there is one.
fn locals_of(process: Option<&Process>) -> &[Identifier]
    ensures { (names : List (List ℕ))
        → map (name_of names) result.now
        ≡ meaning.locals_of_process
        (option_map (process_of names) (option_map (λ p. p.now) process.entry)) }
{
    match process {
        Some(process) => process.body.locals.as_slice(),
        None => &[],
    }
}

impl Names<'_> {
    /// Appends the rows of the frames of a runner.
    fn write_chain(
        &self,
        who: &[u8],
        place: usize,
        context: &Context,
        stack: &[i64],
        text: &mut Vec<u8>,
    ) -> Result<(), AllocError>
        ensures { OnOk result
            (text.new.items
            ≡ text.old.items
            ++ rows_in self.now.of.now.form
            (meaning.chain_rows_on self.now.of.now.name self.now.routines.now
            (source_in self.now.source.now) who.now place (control_on context.now stack.now))) }
    {
        let own = BodyNames {
            name: who,
            parameters: &[],
            locals: own_locals(self.source.program, place),
        };
        let chain = Chain {
            of: self.of,
            own,
            source: self.source,
            routines: self.routines,
            stack,
        };
        let innermost = Frame {
            pc: context.pc(),
            fp: context.fp(),
        };
        chain.write(innermost, text)
    }

    /// The same, if it has something left to do.
    fn write_if_any(
        &self,
        who: &[u8],
        place: usize,
        control: Option<(&Context, &[i64])>,
        text: &mut Vec<u8>,
    ) -> Result<(), AllocError>
        ensures { OnOk result
            (text.new.items
            ≡ text.old.items
            ++ rows_in self.now.of.now.form
            (meaning.chain_rows_if self.now.of.now.name self.now.routines.now
            (source_in self.now.source.now) who.now place
            (option_map (λ c. control_on c.0.now c.1.now) control.entry))) }
    {
        match control {
            Some((context, stack)) => self.write_chain(who, place, context, stack, text),
            None => Ok(()),
        }
    }

    /// Appends the rows of the frames of all that have something left to do.
    #[tactic(auto, using(crate::proofs::Loops::more))]
    fn write_chains(
        &self,
        processor: &PartitionProcessor,
        memory: &PartitionMem,
        rows: &[ProcessStatus],
        text: &mut Vec<u8>,
    ) -> Result<(), AllocError>
        ensures { OnOk result
            (text.new.items
            ≡ text.old.items
            ++ rows_in self.now.of.now.form
            (placed
            (meaning.runner_names self.now.of.now.name self.now.routines.now
            (source_in self.now.source.now) (controls_of processor.now memory.now))
            rows.now)) }
    {
        for (place, row) in rows.iter().enumerate() {
            let control = processor.control(memory, place);
            self.write_if_any(subject_word(&row.who), place, control, text)?;
        }
        Ok(())
    }
}

/// Appends the rows with names of a partition; `item` is its item of the image.
pub fn write_names(
    form: Form,
    item: &PartitionItem,
    source: &Source<'_>,
    partition: &Partition<PartitionProcessor>,
    memory: &PartitionMem,
    text: &mut Vec<u8>,
) -> Result<(), AllocError>
    ensures { OnOk result
        (text.new.items
        ≡ text.old.items
        ++ rows_in form
        (meaning.named_rows (item_of item.now) (source_in source.now)
        (member_of machine partition.now memory.now))) }
{
    let kernel = partition.kernel();
    let name = kernel.name();
    let of = Heading { form, name };
    let names = Names {
        of: &of,
        source,
        routines: item.section.routines.as_slice(),
    };
    let ports = item.row.ports.as_slice();
    let program = source.program;
    let declarations = program.declarations.as_slice();
    write_declared(
        &of,
        ports,
        memory.data(),
        &program.names,
        declarations,
        text,
    )?;
    names.write_chains(
        partition.executor(),
        memory,
        kernel.processes().rows(),
        text,
    )
}
