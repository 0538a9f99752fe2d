//! Where a runner is in its source: its frames, with their parameters and locals.

ghost use Rattle.std.specs.Prelude.{◌≡◌, ◌≤◌, ◌++◌, ◌∷◌, [], List, ℕ, OnOk, Some, length, map, option_map, slice_get};
ghost use Rattle.machine_meaning.specs.MachineControl.{saved_within};
ghost use Rattle.pal_base.specs.View.{declaration_of, declared_of, name_of, texts};
ghost use Rattle.state_rows.specs.Named as meaning;
ghost use Rattle.state_rows.specs.Rows.{row_in, rows_in};
ghost use Rattle.state_rows.specs.States.{placed};
ghost use Rattle.state_view.specs.Chains.{chain_in, frame_in, names_in};

use crate::declared::{signed_value, words_from};
use crate::heading::Heading;
use crate::source::{Source, column_value, line_value};
use apex_types::RoutineRow;
use apex_types::limits::MOST_INSTRUCTIONS;
use indexmap::IndexSet;
use pal::text_of;
use pal_base::syntax::{Declaration, DeclarationKind, Identifier};
use state_rows::{Field, number, word};
use std::alloc::AllocError;

/// A body by its name, with its parameters and its locals.
#[derive(Clone, Copy)]
pub(crate) struct BodyNames<'a> {
    pub(crate) name: &'a [u8],
    pub(crate) parameters: &'a [Identifier],
    pub(crate) locals: &'a [Identifier],
}

/// An instruction, and the first word of the frame of its body.
#[derive(Clone, Copy)]
pub(crate) struct Frame {
    pub(crate) pc: u32,
    pub(crate) fp: u32,
}

/// What the frames of a runner are read from: its own body, its source with the routines that the
/// procedures are in the code, and its stack.
#[derive(Clone, Copy)]
pub(crate) struct Chain<'a> {
    pub(crate) of: &'a Heading,
    pub(crate) own: BodyNames<'a>,
    pub(crate) source: &'a Source<'a>,
    pub(crate) routines: &'a [RoutineRow],
    pub(crate) stack: &'a [i64],
}

/// How many routines begin at an instruction or before it.
fn begun_at(routines: &[RoutineRow], pc: u32) -> usize
    ensures begun { result ≡ meaning.begun_at routines.now pc }
    ensures few { result ≤ length routines.now }
{
    for (place, routine) in routines.iter().enumerate() {
        if pc < routine.entry {
            return place;
        }
    }
    routines.len()
}

fn is_procedure(kind: &DeclarationKind) -> bool
    ensures { (names : List (List ℕ))
        → result ≡ meaning.is_procedure (declared_of names kind.now) }
{
    match kind {
        DeclarationKind::Procedure { .. } => true,
        _ => false,
    }
}

/// The declaration of the procedure with a number.
fn procedure_at(declarations: &[Declaration], number: usize) -> Option<&Declaration>
    ensures { (names : List (List ℕ))
        → option_map (λ d. declaration_of names d.now) result
        ≡ meaning.procedure_at number (map (declaration_of names) declarations.now) }
{
    let mut left = number;
    for declaration in declarations {
        if is_procedure(&declaration.kind) {
            if left == 0 {
                return Some(declaration);
            }
            left -= 1;
        }
    }
    None
}

/// The names of the body of a procedure.
fn names_of<'a>(names: &'a IndexSet<String>, declaration: &'a Declaration) -> BodyNames<'a>
    ensures { names_in (texts names.entry.now.keys) result
        ≡ meaning.names_of_kind (name_of (texts names.entry.now.keys) declaration.entry.now.name)
        (declared_of (texts names.entry.now.keys) declaration.entry.now.kind) }
{
    let name = text_of(names, declaration.name.name).as_bytes();
    match &declaration.kind {
        DeclarationKind::Procedure { parameters, body } => BodyNames {
            name,
            parameters: parameters.as_slice(),
            locals: body.locals.as_slice(),
        },
        _ => BodyNames {
            name,
            parameters: &[],
            locals: &[],
        },
    }
}

/// The last of so many routines.
fn last_of(routines: &[RoutineRow], count: usize) -> Option<&RoutineRow>
    ensures { option_map (λ r. r.now) result ≡ meaning.last_of routines.now count }
{
    match count {
        0 => None,
        _ => routines.get(count - 1),
    }
}

/// A saved word up to a limit.
fn saved(words: &[i64], place: usize, limit: u32) -> Option<u32>
    ensures { result ≡ saved_within limit (slice_get words.now place) }
{
    let word = words.get(place).copied()?;
    if word < 0 || word > i64::from(limit) {
        return None;
    }
    Some(word as u32)
}

/// The frame of the instruction before one.
fn frame_before(pc: u32, fp: u32) -> Option<Frame>
    ensures { option_map frame_in result ≡ meaning.saved_frame (Some pc) (Some fp) }
{
    match pc {
        0 => None,
        _ => Some(Frame { pc: pc - 1, fp }),
    }
}

impl<'a> Chain<'a> {
    /// The body of an instruction.
    fn body_at(&self, pc: u32) -> BodyNames<'a>
        ensures { names_in (texts self.now.source.now.program.now.names.keys) result
            ≡ meaning.body_at (chain_in self.now) pc }
    {
        match begun_at(self.routines, pc) {
            0 => self.own,
            count => match procedure_at(self.source.program.declarations.as_slice(), count - 1) {
                Some(declaration) => names_of(&self.source.program.names, declaration),
                None => self.own,
            },
        }
    }

    /// The frame that called a frame, if a routine did.
    fn caller(&self, frame: Frame) -> Option<Frame>
        ensures { option_map frame_in result ≡ meaning.caller (chain_in self.now) (frame_in frame) }
    {
        let routine = last_of(self.routines, begun_at(self.routines, frame.pc))?;
        let words = words_from(self.stack, frame.fp as usize);
        let slots = usize::from(routine.slots);
        let pc = saved(words, slots, MOST_INSTRUCTIONS)?;
        let fp = saved(words, slots + 1, frame.fp)?;
        frame_before(pc, fp)
    }

    /// Appends the row of a frame, by its place from the innermost one.
    fn write_frame_row(
        &self,
        place: usize,
        pc: u32,
        body: BodyNames<'_>,
        text: &mut Vec<u8>,
    ) -> Result<(), AllocError>
        ensures { OnOk result
            (text.new.items
            ≡ text.old.items
            ++ row_in self.now.of.now.form
            (meaning.frame_row (chain_in self.now) place pc
            (names_in (texts self.now.source.now.program.now.names.keys) body.entry))) }
    {
        let at = self.source.position(pc);
        let fields = [
            number("frame", place as u64),
            word("process", self.own.name),
            word("body", body.name),
            number("pc", u64::from(pc)),
            Field {
                key: "line",
                value: line_value(at),
            },
            Field {
                key: "column",
                value: column_value(at),
            },
        ];
        self.of.row(&fields, text)
    }

    /// Appends the row of a parameter or local of a frame, with its value.
    fn write_local(
        &self,
        place: usize,
        name: Identifier,
        value: Option<i64>,
        text: &mut Vec<u8>,
    ) -> Result<(), AllocError>
        ensures { OnOk result
            (text.new.items
            ≡ text.old.items
            ++ rows_in self.now.of.now.form
            (meaning.local_row (chain_in self.now) place
            (name_of (texts self.now.source.now.program.now.names.keys) name) value
            ∷ [])) }
    {
        let fields = [
            word(
                "local",
                text_of(&self.source.program.names, name.name).as_bytes(),
            ),
            number("frame", place as u64),
            word("process", self.own.name),
            Field {
                key: "value",
                value: signed_value(value),
            },
        ];
        self.of.row(&fields, text)
    }

    /// The same by its place among these words.
    fn write_slot(
        &self,
        place: usize,
        words: &[i64],
        slot: usize,
        name: Identifier,
        text: &mut Vec<u8>,
    ) -> Result<(), AllocError>
        ensures { OnOk result
            (text.new.items
            ≡ text.old.items
            ++ rows_in self.now.of.now.form
            (meaning.slot_rows (chain_in self.now) place words.now slot
            (name_of (texts self.now.source.now.program.now.names.keys) name))) }
    {
        self.write_local(place, name, words.get(slot).copied(), text)
    }

    /// Appends the rows of parameters or locals of a frame, which have these words.
    #[tactic(auto, using(crate::proofs::Named::more_mapped))]
    fn write_locals(
        &self,
        place: usize,
        words: &[i64],
        names: &[Identifier],
        text: &mut Vec<u8>,
    ) -> Result<(), AllocError>
        ensures { OnOk result
            (text.new.items
            ≡ text.old.items
            ++ rows_in self.now.of.now.form
            (placed (meaning.slot_rows (chain_in self.now) place words.now)
            (map (name_of (texts self.now.source.now.program.now.names.keys)) names.now))) }
    {
        for (slot, name) in names.iter().enumerate() {
            self.write_slot(place, words, slot, *name, text)?;
        }
        Ok(())
    }

    /// Appends the rows of a frame of a body, with these words.
    fn write_body(
        &self,
        place: usize,
        pc: u32,
        words: &[i64],
        body: BodyNames<'_>,
        text: &mut Vec<u8>,
    ) -> Result<(), AllocError>
        ensures { OnOk result
            (text.new.items
            ≡ text.old.items
            ++ rows_in self.now.of.now.form
            (meaning.body_rows (chain_in self.now) place pc words.now
            (names_in (texts self.now.source.now.program.now.names.keys) body.entry))) }
    {
        self.write_frame_row(place, pc, body, text)?;
        self.write_locals(place, words, body.parameters, text)?;
        let others = words_from(words, body.parameters.len());
        self.write_locals(place, others, body.locals, text)?;
        Ok(())
    }

    /// Appends the rows of a frame, by its place from the innermost one.
    fn write_frame(&self, place: usize, frame: Frame, text: &mut Vec<u8>) -> Result<(), AllocError>
        ensures { OnOk result
            (text.new.items
            ≡ text.old.items
            ++ rows_in self.now.of.now.form
            (meaning.frame_rows (chain_in self.now) place (frame_in frame))) }
    {
        let words = words_from(self.stack, frame.fp as usize);
        self.write_body(place, frame.pc, words, self.body_at(frame.pc), text)
    }

    /// Appends the rows of a frame and of those that called it.
    pub(crate) fn write(&self, innermost: Frame, text: &mut Vec<u8>) -> Result<(), AllocError>
        ensures { OnOk result
            (text.new.items
            ≡ text.old.items
            ++ rows_in self.now.of.now.form
            (meaning.chain_rows (chain_in self.now) (frame_in innermost))) }
    {
        let mut frame = Some(innermost);
        for place in 0..self.stack.len() {
            let Some(at) = frame else {
                return Ok(());
            };
            self.write_frame(place, at, text)?;
            frame = self.caller(at);
        }
        Ok(())
    }
}
