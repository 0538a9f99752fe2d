//! The walk through the bodies of a program.

ghost use Rattle.std.specs.Prelude.{◌≡◌, map, OnOk, option_map};
ghost use Rattle.pal_base.specs.View as view;
ghost use Rattle.pal_base.specs.View.{body_of, name_of, number_of};
ghost use Rattle.source_findings.specs.Bodies as spec;
ghost use Rattle.source_findings.specs.Views.{entries_of, judge_of, names_of, state_of, what_of};

use crate::finding::{Many, Thing, What};
use crate::frames::body_frame;
use crate::judge::{Judge, frame_wrong, many_wrong, new_wrong, outside_wrong, value_of};
use crate::roles::{Entry, own_entry, text_of};
use crate::walk::{Walk, block};
use apex_types::limits::{LEAST_STACK_WORDS, MOST_LOCALS, MOST_STACK_WORDS};
use pal_base::syntax::{Body, Identifier, Numeral, StackBody};
use std::alloc::{AllocError, Global};

/// Passes a name that is a parameter or a local, after earlier ones.
pub fn own_name<'a>(
    judge: &Judge<'_, 'a>,
    walk: &mut Walk<'a>,
    before: &[Entry<'a>],
    name: Identifier,
) -> Result<(), AllocError>
    ensures { OnOk result
        (state_of walk.new
        ≡ spec.own_name (judge_of judge.now) (entries_of before.now)
        (name_of (names_of judge.now) name) (state_of walk.old)) }
{
    let within = Judge {
        own: before,
        ..*judge
    };
    walk.judge(new_wrong(&within, text_of(judge.names, name)))
}

/// Passes the locals of a body, and adds them to earlier names.
fn locals<'a>(
    judge: &Judge<'_, 'a>,
    walk: &mut Walk<'a>,
    own: &mut Vec<Entry<'a>>,
    locals: &[Identifier],
) -> Result<(), AllocError>
    ensures walk { OnOk result
        (state_of walk.new
        ≡ spec.locals (judge_of judge.now) (entries_of own.old.items)
        (map (name_of (names_of judge.now)) locals.now) (state_of walk.old)) }
    ensures own { OnOk result
        (entries_of own.new.items
        ≡ spec.with_own (entries_of own.old.items) (map (name_of (names_of judge.now)) locals.now)) }
{
    for name in locals {
        walk.step();
        own_name(judge, walk, own.as_slice(), *name)?;
        walk.step();
        own.push(own_entry(judge.names, *name))?;
    }
    Ok(())
}

/// Passes a body, at whose brace its frame and the number of its locals are judged. `own` are the
/// parameters.
pub fn body<'a>(
    alloc: Global,
    judge: &Judge<'_, 'a>,
    walk: &mut Walk<'a>,
    returns: bool,
    own: Vec<Entry<'a>>,
    frame: Option<What<'a>>,
    body: &Body,
) -> Result<(), AllocError>
    ensures { OnOk result
        (state_of walk.new
        ≡ spec.body (judge_of judge.now) returns (entries_of own.entry.items) (option_map what_of frame.entry)
        (body_of (names_of judge.now) body.now) (state_of walk.old)) }
{
    walk.note(frame)?;
    let (count, most) = (body.locals.len() as u64, u64::from(MOST_LOCALS));
    walk.judge(many_wrong(judge.rule, Many::Locals, count, most))?;
    inside(alloc, judge, walk, returns, own, body)
}

/// Passes the rest of a body after its brace.
fn inside<'a>(
    alloc: Global,
    judge: &Judge<'_, 'a>,
    walk: &mut Walk<'a>,
    returns: bool,
    own: Vec<Entry<'a>>,
    body: &Body,
) -> Result<(), AllocError>
    ensures { OnOk result
        (state_of walk.new
        ≡ spec.inside (judge_of judge.now) returns (entries_of own.entry.items)
        (body_of (names_of judge.now) body.now) (state_of walk.old)) }
{
    let mut own = own;
    locals(judge, walk, &mut own, body.locals.as_slice())?;
    let within = Judge {
        own: own.as_slice(),
        ..*judge
    };
    block(alloc, &within, walk, returns, body.statements.as_slice())?;
    walk.step();
    Ok(())
}

/// Passes a stack, and the body for which it is.
pub fn stack_and_body<'a>(
    alloc: Global,
    judge: &Judge<'_, 'a>,
    walk: &mut Walk<'a>,
    stack: &Numeral,
    of: &Body,
) -> Result<(), AllocError>
    ensures { OnOk result
        (state_of walk.new
        ≡ spec.stack_and_body (judge_of judge.now) (number_of stack.now)
        (body_of (names_of judge.now) of.now) (state_of walk.old)) }
{
    walk.step();
    let words = value_of(stack);
    let (low, high) = (u64::from(LEAST_STACK_WORDS), u64::from(MOST_STACK_WORDS));
    walk.judge(outside_wrong(judge.rule, Thing::Stack, low, high, words))?;
    let frame = frame_wrong(judge.rule, body_frame(of), words);
    body(alloc, judge, walk, false, Vec::new(alloc), frame, of)
}

/// Passes INIT or the handler.
pub fn stack_body<'a>(
    alloc: Global,
    judge: &Judge<'_, 'a>,
    walk: &mut Walk<'a>,
    body: &StackBody,
) -> Result<(), AllocError>
    ensures { OnOk result
        (state_of walk.new
        ≡ spec.stack_body (judge_of judge.now)
        (view.stack_body_of (names_of judge.now) body.now) (state_of walk.old)) }
{
    walk.step();
    stack_and_body(alloc, judge, walk, &body.stack, &body.body)
}

/// Passes the handler, if there is one.
pub fn handler<'a>(
    alloc: Global,
    judge: &Judge<'_, 'a>,
    walk: &mut Walk<'a>,
    handler: &Option<StackBody>,
) -> Result<(), AllocError>
    ensures { OnOk result
        (state_of walk.new
        ≡ spec.handler (judge_of judge.now)
        (option_map (view.stack_body_of (names_of judge.now)) handler.now) (state_of walk.old)) }
{
    match handler {
        Some(handler) => stack_body(alloc, judge, walk, handler),
        None => Ok(()),
    }
}
