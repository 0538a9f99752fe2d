//! The meanings of the declared names of a program.

ghost use Rattle.std.specs.Prelude.{◌≡◌, ◌+◌, ◌++◌, ◌&&◌, [], List, ℕ, ◌<◌, map, take, position, is_ok, true, option_map, IfOk, IfSome};
ghost use Rattle.apex_types.specs.Limits.{MOST_PORTS};
ghost use Rattle.pal_meaning.specs.Resolve as meant;
ghost use Rattle.pal_meaning.specs.Resolve.{Entry, declared_entries, declaration_entries, process_entries, no_counts, declared_meaning};
ghost use Rattle.pal_meaning.specs.WellFormed.{are_new};
ghost use Rattle.std.specs.Str.{bytes_eq};
ghost use Rattle.pal_base.specs.View as view;
ghost use Rattle.pal_base.specs.View.{texts, declaration_of, declared_of, process_of};
ghost use Rattle.pal_base.specs.WrittenView.{program_of};
ghost use Rattle.pal.specs.Tables.{entries_of, counts_of};

use crate::lines::{Check, check_that, earliest};
use crate::numbers::{limited, value_of};
use crate::table::{NameTable, text_of};
use apex_types::limits::{
    MOST_DATA_WORDS, MOST_OBJECTS, MOST_PORTS, MOST_PROCEDURES, MOST_PROCESSES, MOST_SLOTS,
};
use apex_types::{Denotation, ObjectKind, Place, PortRow};
use indexmap::IndexSet;
use pal_base::syntax::{Declaration, DeclarationKind, Process, Program};
use std::alloc::{AllocError, Global};

/// The most processes of a program.
const PROCESSES: u32 = MOST_PROCESSES as u32;

/// The most objects of a kind.
const OBJECTS: u32 = MOST_OBJECTS as u32;

/// The numbers of declared words of data and of declarations of each kind.
#[derive(Clone, Copy)]
pub struct Counts {
    pub words: u32,
    pub semaphores: u32,
    pub events: u8,
    pub buffers: u32,
    pub blackboards: u32,
    pub ports: u32,
    pub procedures: u32,
}

/// The count plus this many more; none if that is above its limit.
fn counted(limit: u32, count: u32, more: u64) -> Option<u32>
    ensures { result ≡ meant.counted limit count more }
{
    match more.checked_add(count as u64) {
        Some(sum) if sum <= limit as u64 => Some(sum as u32),
        _ => None,
    }
}

/// The number of the next object of a kind, from 1; 0 if it is above its limit.
fn next(limit: u32, count: u32) -> u32
    ensures { result ≡ meant.next limit count }
{
    counted(limit, count, 1).unwrap_or(0)
}

/// The slot of the parameter or local with this many before it.
pub fn slot(before: usize, index: usize) -> u16
    ensures { result ≡ meant.slot (before + index) }
{
    match before.checked_add(index) {
        Some(place) if place < MOST_SLOTS as usize => place as u16,
        _ => 0,
    }
}

/// The place of the port with that name among a partition's ports.
fn port_place(ports: &[PortRow], name: &str) -> Option<usize>
    ensures exact { result ≡ position (λ p. bytes_eq p.name name.now) (take MOST_PORTS ports.now) }
    ensures small { IfSome result (λ place. place < MOST_PORTS) }
{
    let (first, _) = ports.split_at(ports.len().min(MOST_PORTS as usize));
    first.iter().position(|port| port.name.as_str() == name)
}

/// The number of the port `name` among a partition's ports, from 1; 0 if no port has that name.
fn port_number(ports: &[PortRow], name: &str) -> u32
    ensures { result ≡ meant.port_number ports.now name.now }
{
    match port_place(ports, name) {
        Some(place) => place as u32 + 1,
        None => 0,
    }
}

impl Counts {
    /// The counts before the first declaration.
    pub const NONE: Self = Counts {
        words: 0,
        semaphores: 0,
        events: 0,
        buffers: 0,
        blackboards: 0,
        ports: 0,
        procedures: 0,
    };

    /// The meaning of the name in a declaration, after the counts `self` of earlier declarations.
    pub fn meaning(&self, kind: &DeclarationKind, ports: &[PortRow], name: &str) -> Denotation
        ensures { (names : List (List ℕ))
            → result
            ≡ declared_meaning ports.now (counts_of self.now) name.now
            (declared_of names kind.now) }
    {
        match kind {
            DeclarationKind::Variable(_) => Denotation::Scalar(Place::Data(self.words)),
            DeclarationKind::Array { size, .. } => {
                Denotation::Array(self.words, limited(MOST_DATA_WORDS as u64, size) as i64)
            }
            DeclarationKind::Semaphore { .. } => {
                Denotation::Object(ObjectKind::Semaphore, next(OBJECTS, self.semaphores))
            }
            DeclarationKind::Event => Denotation::Object(
                ObjectKind::Event,
                next(OBJECTS, u32::from(self.events)),
            ),
            DeclarationKind::Buffer { .. } => {
                Denotation::Object(ObjectKind::Buffer, next(OBJECTS, self.buffers))
            }
            DeclarationKind::Blackboard { .. } => {
                Denotation::Object(ObjectKind::Blackboard, next(OBJECTS, self.blackboards))
            }
            DeclarationKind::Port => Denotation::Object(ObjectKind::Port, port_number(ports, name)),
            DeclarationKind::Procedure { parameters, .. } => {
                Denotation::Procedure(self.procedures, parameters.len())
            }
        }
    }

    /// The counts after one more declaration; none if one is above its limit.
    pub fn after(self, kind: &DeclarationKind) -> Option<Counts>
        ensures { (names : List (List ℕ))
            → option_map counts_of result
            ≡ meant.after (counts_of self) (declared_of names kind.now) }
    {
        let mut counts = self;
        match kind {
            DeclarationKind::Variable(_) => counts.words = counted(MOST_DATA_WORDS, self.words, 1)?,
            DeclarationKind::Array { size, .. } => {
                let size = value_of(size).unwrap_or(0);
                counts.words = counted(MOST_DATA_WORDS, self.words, size)?;
            }
            DeclarationKind::Semaphore { .. } => {
                counts.semaphores = counted(OBJECTS, self.semaphores, 1)?;
            }
            DeclarationKind::Event => {
                counts.events = counted(OBJECTS, u32::from(self.events), 1)? as u8;
            }
            DeclarationKind::Buffer { .. } => counts.buffers = counted(OBJECTS, self.buffers, 1)?,
            DeclarationKind::Blackboard { .. } => {
                counts.blackboards = counted(OBJECTS, self.blackboards, 1)?;
            }
            DeclarationKind::Port => counts.ports = counted(MOST_PORTS as u32, self.ports, 1)?,
            DeclarationKind::Procedure { .. } => {
                counts.procedures = counted(MOST_PROCEDURES as u32, self.procedures, 1)?;
            }
        }
        Some(counts)
    }
}

/// The meanings of the declared names of a program.
#[derive(Drop)]
pub struct Declared<'a> {
    pub table: NameTable<'a>,
    /// The check that each name is new. An error is the line of the first name that is declared
    /// twice.
    pub fresh: Check,
}

/// Enters the names of the declarations and of the processes, in the order of the text.
pub fn declared_names<'a>(
    alloc: Global,
    program: &'a Program,
    ports: &[PortRow],
) -> Result<Declared<'a>, AllocError>
    ensures fresh { IfOk result
        (λ d. is_ok d.fresh ≡ are_new [] [] (declared_entries ports.now (program_of program.now))) }
    ensures behind { IfOk result
        (λ d. is_ok d.fresh ≡ true
        → entries_of d.table ≡ declared_entries ports.now (program_of program.now)) }
{
    let names = &program.names;
    let mut table = NameTable::new(alloc);
    let one = enter_declarations(names, &mut table, &program.declarations, ports)?;
    let other = enter_processes(names, &mut table, &program.processes)?;
    Ok(Declared {
        table,
        fresh: earliest(one, other),
    })
}

fn enter_declarations<'a>(
    names: &'a IndexSet<String>,
    table: &mut NameTable<'a>,
    declarations: &[Declaration],
    ports: &[PortRow],
) -> Result<Check, AllocError>
    ensures fresh { IfOk result
        (λ checked. (rest : List Entry)
        → (is_ok checked && are_new [] (entries_of table.new) rest)
        ≡ are_new [] (entries_of table.old)
        (declaration_entries ports.now no_counts
        (map (declaration_of (texts names.now.keys)) declarations.now)
        ++ rest)) }
    ensures behind { IfOk result
        (λ checked. is_ok checked ≡ true
        → entries_of table.new
        ≡ entries_of table.old
        ++ declaration_entries ports.now no_counts
        (map (declaration_of (texts names.now.keys)) declarations.now)) }
{
    let mut counts = Counts::NONE;
    let mut checked = Ok(());
    for declaration in declarations {
        let text = text_of(names, declaration.name.name);
        let meaning = counts.meaning(&declaration.kind, ports, text);
        let is_new = table.enter(text, meaning)?;
        checked = earliest(checked, check_that(is_new, declaration.line));
        counts = counts.after(&declaration.kind).unwrap_or(counts);
    }
    Ok(checked)
}

fn enter_processes<'a>(
    names: &'a IndexSet<String>,
    table: &mut NameTable<'a>,
    processes: &[Process],
) -> Result<Check, AllocError>
    ensures fresh { IfOk result
        (λ checked. (rest : List Entry)
        → (is_ok checked && are_new [] (entries_of table.new) rest)
        ≡ are_new [] (entries_of table.old)
        (process_entries 0 (map (process_of (texts names.now.keys)) processes.now) ++ rest)) }
    ensures behind { IfOk result
        (λ checked. is_ok checked ≡ true
        → entries_of table.new
        ≡ entries_of table.old
        ++ process_entries 0 (map (process_of (texts names.now.keys)) processes.now)) }
{
    let mut count = 0;
    let mut checked = Ok(());
    for process in processes {
        let text = text_of(names, process.name.name);
        let number = next(PROCESSES, count);
        let is_new = table.enter(text, Denotation::Object(ObjectKind::Process, number))?;
        checked = earliest(checked, check_that(is_new, process.line));
        count = counted(PROCESSES, count, 1).unwrap_or(count);
    }
    Ok(checked)
}
