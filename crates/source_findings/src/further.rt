//! What is wrong with a source by the rules after the one of its refusal. `tests/explanations` holds
//! the lines.

use crate::declarations::wrongs;
use crate::explain::wrong_lines;
use crate::finding::{What, Wrong};
use crate::roles::{Role, text_of};
use crate::texts::text_wrongs;
use crate::unfit::unfit_lines;
use finding_lines::{Form, Report, place_of};
use pal_base::fault::Refusal;
use pal_base::looking::looked_for;
use pal_base::parse::parse;
use pal_base::syntax::{Declaration, Program};
use std::alloc::{AllocError, Global};

/// A source of a module: its file, the name and the period of its partition, and its text.
#[derive(Clone, Copy)]
pub struct GivenSource<'a> {
    pub file: &'a str,
    pub partition: &'a str,
    pub period: u32,
    pub text: &'a [u8],
}

/// What is wrong with a source by one rule.
#[derive(Drop)]
pub struct Further {
    pub rule: Refusal,
    pub lines: String,
}

/// The rules that the program of a text may break together.
static RULES: [Refusal; 4] = [
    Refusal::Name,
    Refusal::Kind,
    Refusal::Limit,
    Refusal::Period,
];

/// What is wrong with a source by the rules after the one of this number, 0 for all: a text that is
/// no program breaks no further rule.
///
/// # Errors
///
/// Only if memory runs out.
pub fn explain_further(
    alloc: Global,
    source: GivenSource<'_>,
    after: u8,
    is_plain: bool,
) -> Result<Vec<Further>, AllocError> {
    let mut all = Vec::new(alloc);
    if after == 0 {
        let found = text_wrongs(alloc, source.text)?;
        add(
            alloc,
            &mut all,
            source,
            is_plain,
            Refusal::Text,
            found.as_slice(),
        )?;
    }
    if !all.is_empty() || after == Refusal::Text.number() || after == Refusal::Grammar.number() {
        return Ok(all);
    }
    if let Some(told) = by_grammar(alloc, source, is_plain)? {
        all.push(told)?;
        return Ok(all);
    }
    let Ok(program) = parse(alloc, source.text) else {
        return Ok(all);
    };
    for rule in &RULES {
        if after < rule.number() {
            let found = wrongs(alloc, *rule, source.period, source.text, &program)?;
            add(alloc, &mut all, source, is_plain, *rule, found.as_slice())?;
        }
    }
    Ok(all)
}

/// Where a source leaves the grammar, if it does.
fn by_grammar(
    alloc: Global,
    source: GivenSource<'_>,
    is_plain: bool,
) -> Result<Option<Further>, AllocError> {
    let Some(place) = looked_for(alloc, source.text)? else {
        return Ok(None);
    };
    let rule = rule_text(alloc, source, Refusal::Grammar, place.line as usize)?;
    let report = report(source, is_plain, rule.as_str());
    Ok(Some(Further {
        rule: Refusal::Grammar,
        lines: unfit_lines(alloc, report, source.text, &place)?,
    }))
}

/// Adds what is found by a rule, if there is anything.
fn add(
    alloc: Global,
    all: &mut Vec<Further>,
    source: GivenSource<'_>,
    is_plain: bool,
    rule: Refusal,
    found: &[Wrong<'_>],
) -> Result<(), AllocError> {
    let mut lines = String::new(alloc);
    let mut told = String::new(alloc);
    for wrong in found {
        if !follows(wrong.what) {
            if told.is_empty() {
                let offset = source.text.len().saturating_sub(wrong.left);
                told = rule_text(alloc, source, rule, place_of(source.text, offset).line)?;
            }
            let report = report(source, is_plain, told.as_str());
            lines.push_str(&wrong_lines(alloc, report, source.text, *wrong)?)?;
        }
    }
    if !lines.is_empty() {
        all.push(Further { rule, lines })?;
    }
    Ok(())
}

/// Returns true if what is found follows from what another rule finds.
fn follows(what: What<'_>) -> bool {
    matches!(
        what,
        What::Other {
            found: Role::Nothing,
            ..
        }
    )
}

/// How findings in a source are reported.
fn report<'a>(source: GivenSource<'a>, is_plain: bool, rule: &'a str) -> Report<'a> {
    let form = if is_plain {
        Form::Plain
    } else {
        Form::Json(rule)
    };
    Report {
        file: source.file,
        form,
    }
}

/// What the line of a refusal says of a rule that is broken in a line of a source.
fn rule_text(
    alloc: Global,
    source: GivenSource<'_>,
    rule: Refusal,
    line: usize,
) -> Result<String, AllocError> {
    let (partition, number) = (source.partition, rule.number());
    format!(in alloc; "pal {partition} {number} line {line}")
}

/// The name of a declaration of a program.
pub fn declared_name<'a>(program: &'a Program, declaration: &Declaration) -> &'a str {
    text_of(&program.names, declaration.name)
}
