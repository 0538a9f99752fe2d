//! The walk through declarations and processes, and through a whole program.

ghost use Rattle.std.specs.Prelude.{◌≡◌, map, true, OnOk, IfOk, option_map};
ghost use Rattle.pal_base.specs.View as view;
ghost use Rattle.pal_base.specs.View.{body_of, integer_of, name_of, number_of, program_from};
ghost use Rattle.pal_base.specs.WrittenView.{program_of};
ghost use Rattle.source_findings.specs.Bodies as spec;
ghost use Rattle.source_findings.specs.Tally.{no_tally};
ghost use Rattle.source_findings.specs.Views.{entries_of, judge_of, names_of, state_of, tally_of, what_of, wrongs_of};

use crate::bodies::{body, handler, own_name, stack_and_body, stack_body};
use crate::finding::{Many, Thing, What, Wrong};
use crate::frames::procedure_frame;
use crate::judge::{
    Judge, by_limit, capacity_wrong, many_wrong, new_wrong, number_wrong, outside_wrong,
    period_wrong, unless, value_of,
};
use crate::roles::{Entry, declaration_entry, declared_entries, own_entry, process_entry, text_of};
use crate::tally::{Tally, one_more};
use crate::walk::Walk;
use apex_types::limits::{
    GREATEST_PRIORITY, MOST_DEPTH, MOST_PARAMETERS, MOST_PROCESSES, MOST_SEMAPHORE_VALUE,
    MOST_STACK_WORDS, MOST_WORDS,
};
use indexmap::IndexSet;
use pal_base::fault::Refusal;
use pal_base::syntax::{Body, Declaration, DeclarationKind, Identifier, Numeral, Process, Program};
use source_places::from_word;
use std::alloc::{AllocError, Global};

/// Passes a number, with or without a minus sign, at which something may be wrong.
fn signed<'a>(
    walk: &mut Walk<'a>,
    what: Option<What<'a>>,
    number: &Numeral,
) -> Result<(), AllocError>
    ensures { OnOk result
        (state_of walk.new
        ≡ spec.signed (option_map what_of what.entry) (integer_of number.now) (state_of walk.old)) }
{
    walk.judge(what)?;
    if number.negative {
        walk.step();
    }
    Ok(())
}

/// Passes a first value.
fn word<'a>(judge: &Judge<'_, 'a>, walk: &mut Walk<'a>, number: &Numeral) -> Result<(), AllocError>
    ensures { OnOk result
        (state_of walk.new
        ≡ spec.word (judge_of judge.now) (integer_of number.now) (state_of walk.old)) }
{
    signed(walk, number_wrong(judge.rule, value_of(number)), number)
}

fn words<'a>(
    judge: &Judge<'_, 'a>,
    walk: &mut Walk<'a>,
    numbers: &[Numeral],
) -> Result<(), AllocError>
    ensures { OnOk result
        (state_of walk.new
        ≡ spec.words (judge_of judge.now) (map integer_of numbers.now) (state_of walk.old)) }
{
    for number in numbers {
        word(judge, walk, number)?;
    }
    Ok(())
}

/// Passes the first value of a variable, if there is one.
fn first_value<'a>(
    judge: &Judge<'_, 'a>,
    walk: &mut Walk<'a>,
    value: &Option<Numeral>,
) -> Result<(), AllocError>
    ensures { OnOk result
        (state_of walk.new
        ≡ spec.first_value (judge_of judge.now) (option_map integer_of value.now) (state_of walk.old)) }
{
    match value {
        Some(value) => {
            walk.step();
            word(judge, walk, value)
        }
        None => Ok(()),
    }
}

/// Passes the first values of an array, if there are any.
fn first_values<'a>(
    judge: &Judge<'_, 'a>,
    walk: &mut Walk<'a>,
    values: &[Numeral],
) -> Result<(), AllocError>
    ensures { OnOk result
        (state_of walk.new
        ≡ spec.first_values (judge_of judge.now) (map integer_of values.now) (state_of walk.old)) }
{
    if values.is_empty() {
        return Ok(());
    }
    walk.step();
    words(judge, walk, values)
}

/// What is wrong with the size of an array that has `values` first values.
fn size_wrong(values: usize, size: Option<u64>) -> Option<What<'static>>
    ensures { option_map what_of result ≡ spec.size_wrong values size }
{
    match size {
        None => Some(What::TooLarge),
        Some(size) => unless(
            values as u64 <= size,
            What::TooMany {
                thing: Many::Values,
                number: values as u64,
                most: size,
            },
        ),
    }
}

/// What is wrong with the first value of a semaphore that has this maximum.
fn first_wrong(first: Option<u64>, maximum: Option<u64>) -> Option<What<'static>>
    ensures { option_map what_of result ≡ spec.first_wrong first maximum }
{
    match (first, maximum) {
        (None, _) => Some(What::TooLarge),
        (Some(_), None) => None,
        (Some(first), Some(maximum)) => unless(
            first <= maximum,
            What::Outside {
                thing: Thing::First,
                number: first,
                low: 0,
                high: maximum,
            },
        ),
    }
}

/// Passes the parameters of a procedure, and adds them to earlier names.
fn parameters<'a>(
    judge: &Judge<'_, 'a>,
    walk: &mut Walk<'a>,
    own: &mut Vec<Entry<'a>>,
    names: &[Identifier],
) -> Result<(), AllocError>
    ensures walk { OnOk result
        (state_of walk.new
        ≡ spec.parameters (judge_of judge.now) (entries_of own.old.items)
        (map (name_of (names_of judge.now)) names.now) true (state_of walk.old)) }
    ensures own { OnOk result
        (entries_of own.new.items
        ≡ spec.with_own (entries_of own.old.items) (map (name_of (names_of judge.now)) names.now)) }
{
    let mut is_first = true;
    for name in names {
        walk.comma(is_first);
        own_name(judge, walk, own.as_slice(), *name)?;
        own.push(own_entry(judge.names, *name))?;
        is_first = false;
    }
    Ok(())
}

/// Passes the rest of a procedure after its name.
fn procedure<'a>(
    alloc: Global,
    judge: &Judge<'_, 'a>,
    walk: &mut Walk<'a>,
    names: &[Identifier],
    of: &Body,
) -> Result<(), AllocError>
    ensures { OnOk result
        (state_of walk.new
        ≡ spec.procedure (judge_of judge.now) (map (name_of (names_of judge.now)) names.now)
        (body_of (names_of judge.now) of.now) (state_of walk.old)) }
{
    let (count, most) = (names.len() as u64, u64::from(MOST_PARAMETERS));
    walk.judge(many_wrong(judge.rule, Many::Parameters, count, most))?;
    let mut own = Vec::new(alloc);
    parameters(judge, walk, &mut own, names)?;
    walk.step();
    let (words, most) = (procedure_frame(names, of), u64::from(MOST_STACK_WORDS));
    let frame = many_wrong(judge.rule, Many::FrameWords, words, most);
    body(alloc, judge, walk, true, own, frame, of)
}

/// Passes two numbers that a buffer has.
fn buffer<'a>(
    rule: Refusal,
    walk: &mut Walk<'a>,
    size: &Numeral,
    messages: &Numeral,
) -> Result<(), AllocError>
    ensures { OnOk result
        (state_of walk.new
        ≡ spec.buffer rule (number_of size.now) (number_of messages.now) (state_of walk.old)) }
{
    blackboard(rule, walk, size)?;
    let messages = value_of(messages);
    walk.judge(outside_wrong(rule, Thing::Messages, 1, u64::from(MOST_DEPTH), messages))
}

/// Passes the words of a message.
fn blackboard<'a>(rule: Refusal, walk: &mut Walk<'a>, size: &Numeral) -> Result<(), AllocError>
    ensures { OnOk result
        (state_of walk.new ≡ spec.blackboard rule (number_of size.now) (state_of walk.old)) }
{
    let words = value_of(size);
    walk.judge(outside_wrong(rule, Thing::Words, 1, MOST_WORDS as u64, words))
}

/// Passes the two numbers of a semaphore.
fn semaphore<'a>(
    rule: Refusal,
    walk: &mut Walk<'a>,
    first: &Numeral,
    maximum: &Numeral,
) -> Result<(), AllocError>
    ensures { OnOk result
        (state_of walk.new
        ≡ spec.semaphore rule (number_of first.now) (number_of maximum.now) (state_of walk.old)) }
{
    let (first, maximum) = (value_of(first), value_of(maximum));
    walk.judge(by_limit(rule, first_wrong(first, maximum)))?;
    let most = u64::from(MOST_SEMAPHORE_VALUE);
    walk.judge(outside_wrong(rule, Thing::Maximum, 1, most, maximum))
}

/// Passes the size of an array, its brackets, and its first values.
fn array<'a>(
    judge: &Judge<'_, 'a>,
    walk: &mut Walk<'a>,
    size: &Numeral,
    values: &[Numeral],
) -> Result<(), AllocError>
    ensures { OnOk result
        (state_of walk.new
        ≡ spec.array (judge_of judge.now) (number_of size.now) (map integer_of values.now)
        (state_of walk.old)) }
{
    walk.step();
    walk.judge(by_limit(judge.rule, size_wrong(values.len(), value_of(size))))?;
    walk.step();
    first_values(judge, walk, values)
}

/// Passes what follows the name of a declaration.
fn kind<'a>(
    alloc: Global,
    judge: &Judge<'_, 'a>,
    walk: &mut Walk<'a>,
    kind: &DeclarationKind,
) -> Result<(), AllocError>
    ensures { OnOk result
        (state_of walk.new
        ≡ spec.kind (judge_of judge.now) (view.declared_of (names_of judge.now) kind.now)
        (state_of walk.old)) }
{
    match kind {
        DeclarationKind::Procedure { parameters, body } => {
            procedure(alloc, judge, walk, parameters, body)
        }
        _ => {
            row(judge, walk, kind)?;
            walk.step();
            Ok(())
        }
    }
}

/// Passes what follows the name of a declaration that is no procedure, except the semicolon.
fn row<'a>(
    judge: &Judge<'_, 'a>,
    walk: &mut Walk<'a>,
    kind: &DeclarationKind,
) -> Result<(), AllocError>
    ensures { OnOk result
        (state_of walk.new
        ≡ spec.row (judge_of judge.now) (view.declared_of (names_of judge.now) kind.now)
        (state_of walk.old)) }
{
    match kind {
        DeclarationKind::Variable(value) => first_value(judge, walk, value),
        DeclarationKind::Array { size, values } => array(judge, walk, size, values),
        DeclarationKind::Semaphore { first, maximum, .. } => {
            semaphore(judge.rule, walk, first, maximum)?;
            walk.step();
            Ok(())
        }
        DeclarationKind::Buffer {
            words,
            messages,
            ..
        } => {
            buffer(judge.rule, walk, words, messages)?;
            walk.step();
            Ok(())
        }
        DeclarationKind::Blackboard { words } => blackboard(judge.rule, walk, words),
        DeclarationKind::Event | DeclarationKind::Port | DeclarationKind::Procedure { .. } => {
            Ok(())
        }
    }
}

/// Passes a name that is declared, after earlier ones.
fn declared_name<'a>(
    judge: &Judge<'_, 'a>,
    walk: &mut Walk<'a>,
    before: &[Entry<'a>],
    name: Identifier,
) -> Result<(), AllocError>
    ensures { OnOk result
        (state_of walk.new
        ≡ spec.declared_name (judge_of judge.now) (entries_of before.now)
        (name_of (names_of judge.now) name) (state_of walk.old)) }
{
    let among = Judge {
        declared: before,
        ..*judge
    };
    walk.judge(new_wrong(&among, text_of(judge.names, name)))
}

/// Passes a declaration after earlier ones; `tally` counts it, too.
fn declaration<'a>(
    alloc: Global,
    judge: &Judge<'_, 'a>,
    walk: &mut Walk<'a>,
    before: &[Entry<'a>],
    tally: Tally,
    declaration: &Declaration,
) -> Result<(), AllocError>
    ensures { OnOk result
        (state_of walk.new
        ≡ spec.declaration (judge_of judge.now) (entries_of before.now) (tally_of tally)
        (view.declaration_of (names_of judge.now) declaration.now) (state_of walk.old)) }
{
    walk.judge(tally.wrong(judge.rule, &declaration.kind))?;
    declared_name(judge, walk, before, declaration.name)?;
    kind(alloc, judge, walk, &declaration.kind)
}

/// Passes the declarations, and adds them to earlier ones.
fn declarations<'a>(
    alloc: Global,
    judge: &Judge<'_, 'a>,
    walk: &mut Walk<'a>,
    before: &mut Vec<Entry<'a>>,
    list: &[Declaration],
) -> Result<(), AllocError>
    ensures walk { OnOk result
        (state_of walk.new
        ≡ spec.declarations (judge_of judge.now) (entries_of before.old.items) no_tally
        (map (view.declaration_of (names_of judge.now)) list.now) (state_of walk.old)) }
    ensures before { OnOk result
        (entries_of before.new.items
        ≡ spec.all_before (entries_of before.old.items)
        (map (view.declaration_of (names_of judge.now)) list.now)) }
{
    let mut tally = Tally::NONE;
    for it in list {
        tally = tally.counted(&it.kind);
        declaration(alloc, judge, walk, before.as_slice(), tally, it)?;
        before.push(declaration_entry(judge.names, it))?;
    }
    Ok(())
}

/// Passes the words of a process before those of its stack.
fn process_row<'a>(
    judge: &Judge<'_, 'a>,
    walk: &mut Walk<'a>,
    before: &[Entry<'a>],
    number: u64,
    process: &Process,
) -> Result<(), AllocError>
    ensures { OnOk result
        (state_of walk.new
        ≡ spec.process_row (judge_of judge.now) (entries_of before.now) number
        (view.process_of (names_of judge.now) process.now) (state_of walk.old)) }
{
    let most = u64::from(MOST_PROCESSES);
    walk.judge(many_wrong(judge.rule, Many::Processes, number, most))?;
    declared_name(judge, walk, before, process.name)?;
    walk.step();
    let (priority, most) = (value_of(&process.priority), u64::from(GREATEST_PRIORITY));
    walk.judge(outside_wrong(judge.rule, Thing::Priority, 1, most, priority))?;
    walk.step();
    let period = period_wrong(judge.rule, judge.period, &process.period);
    signed(walk, period, &process.period)?;
    walk.step();
    signed(
        walk,
        capacity_wrong(judge.rule, &process.capacity),
        &process.capacity,
    )
}

/// Passes a process after earlier ones; its number is given.
fn whole_process<'a>(
    alloc: Global,
    judge: &Judge<'_, 'a>,
    walk: &mut Walk<'a>,
    before: &[Entry<'a>],
    number: u64,
    process: &Process,
) -> Result<(), AllocError>
    ensures { OnOk result
        (state_of walk.new
        ≡ spec.process (judge_of judge.now) (entries_of before.now) number
        (view.process_of (names_of judge.now) process.now) (state_of walk.old)) }
{
    process_row(judge, walk, before, number, process)?;
    stack_and_body(alloc, judge, walk, &process.stack, &process.body)
}

/// Passes the processes.
fn processes<'a>(
    alloc: Global,
    judge: &Judge<'_, 'a>,
    walk: &mut Walk<'a>,
    before: &mut Vec<Entry<'a>>,
    list: &[Process],
) -> Result<(), AllocError>
    ensures { OnOk result
        (state_of walk.new
        ≡ spec.processes (judge_of judge.now) (entries_of before.old.items) 0
        (map (view.process_of (names_of judge.now)) list.now) (state_of walk.old)) }
{
    let mut count = 0;
    for process in list {
        count = one_more(count);
        whole_process(alloc, judge, walk, before.as_slice(), count, process)?;
        before.push(process_entry(judge.names, process))?;
    }
    Ok(())
}

/// Passes a program.
fn whole<'a>(
    alloc: Global,
    judge: &Judge<'_, 'a>,
    walk: &mut Walk<'a>,
    program: &Program,
) -> Result<(), AllocError>
    ensures { OnOk result
        (state_of walk.new
        ≡ spec.program (judge_of judge.now)
        (program_from judge.now.names.now.keys program.now.declarations.items program.now.init
        program.now.handler program.now.processes.items)
        (state_of walk.old)) }
{
    let mut before = Vec::new(alloc);
    declarations(
        alloc,
        judge,
        walk,
        &mut before,
        program.declarations.as_slice(),
    )?;
    stack_body(alloc, judge, walk, &program.init)?;
    handler(alloc, judge, walk, &program.handler)?;
    processes(
        alloc,
        judge,
        walk,
        &mut before,
        program.processes.as_slice(),
    )
}

/// What is wrong with a program by a rule, the first twenty places in their order. `text` is its
/// source, and `period` that of its partition.
///
/// # Errors
///
/// Only if memory runs out.
pub fn wrongs<'a>(
    alloc: Global,
    rule: Refusal,
    period: u32,
    text: &'a [u8],
    program: &'a Program,
) -> Result<Vec<Wrong<'a>>, AllocError>
    ensures { IfOk result
        (λ found. wrongs_of found.items ≡ spec.wrongs rule period text.now (program_of program.now)) }
{
    let declared = declared_entries(alloc, program)?;
    let judge = Judge {
        rule,
        period,
        names: &program.names,
        declared: declared.as_slice(),
        own: &[],
    };
    let mut walk = Walk {
        text: from_word(text, 0),
        found: Vec::new(alloc),
    };
    whole(alloc, &judge, &mut walk, program)?;
    let Walk { found, .. } = walk;
    Ok(found)
}
