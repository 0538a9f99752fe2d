//! Procedures that call themselves without an end.

ghost use Rattle.std.specs.Prelude.{◌≡◌, ◌++◌, ℕ, List, map, OnOk};
ghost use Rattle.std.specs.List.{list_any};
ghost use Rattle.pal_base.specs.View.{declaration_of, declared_of, exprs_of, id_text, name_of, texts};
ghost use Rattle.lint.specs.DoingView.{doing_of};
ghost use Rattle.lint.specs.Plain.{plains};
ghost use Rattle.lint.specs.Recursion as meant;
ghost use Rattle.lint.specs.Views.{found_all, mention_of, mentions_seen};

use crate::finding::{Finding, FindingKind, add_if};
use crate::mentions::{Mention, mentions_of};
use crate::names::{is_same_name, text_of};
use crate::plain::{argument_of, is_name, name_in};
use indexmap::IndexSet;
use pal_base::syntax::{Declaration, DeclarationKind, Expr, Identifier, NameId};
use std::alloc::{AllocError, Global};

/// What a procedure may do.
#[derive(Clone, Copy)]
enum Doing {
    /// It calls itself.
    Calls,
    /// It calls itself with its parameters as they are.
    Repeats,
    /// It tests something.
    Tests,
    /// It writes a variable, asks for a service or calls another procedure.
    Changes,
}

/// Returns true if these names are the arguments, in their order.
fn are_passed_on(names: &IndexSet<String>, parameters: &[Identifier], arguments: &[Expr]) -> bool
    ensures { result
        ≡ meant.are_passed_on (map (name_of (texts names.now.keys)) parameters.now)
        (plains (exprs_of (texts names.now.keys) arguments.now)) }
{
    match (parameters.split_first(), arguments.split_first()) {
        (None, None) => true,
        (Some((parameter, parameters)), Some((argument, arguments))) => {
            let name = text_of(names, parameter.name);
            is_name(names, name, name_in(Some(argument_of(argument))))
                && are_passed_on(names, parameters, arguments)
        }
        _ => false,
    }
}

/// Returns true if a mention is this doing of a procedure.
fn does(
    names: &IndexSet<String>,
    doing: Doing,
    name: NameId,
    parameters: &[Identifier],
    mention: &Mention<'_>,
) -> bool
    ensures { result
        ≡ meant.does (doing_of doing) (id_text (texts names.now.keys) name)
        (map (name_of (texts names.now.keys)) parameters.now)
        (mention_of (texts names.now.keys) mention.now) }
{
    match (doing, *mention) {
        (Doing::Calls, Mention::Apply(other, _)) => is_same_name(names, other, name),
        (Doing::Repeats, Mention::Apply(other, arguments)) => {
            is_same_name(names, other, name) && are_passed_on(names, parameters, arguments)
        }
        (Doing::Changes, Mention::Apply(other, _)) => !is_same_name(names, other, name),
        (Doing::Changes, Mention::Write(_, _)) => true,
        (Doing::Changes, Mention::Ask(_)) => true,
        (Doing::Tests, Mention::Test) => true,
        _ => false,
    }
}

/// Returns true if one of the mentions is this doing of a procedure.
#[tactic(auto, using(std::proofs::lemmas::List::drop_more))]
fn any_does(
    names: &IndexSet<String>,
    doing: Doing,
    name: NameId,
    parameters: &[Identifier],
    mentions: &[Mention<'_>],
) -> bool
    ensures { result
        ≡ list_any (meant.does (doing_of doing) (id_text (texts names.now.keys) name)
        (map (name_of (texts names.now.keys)) parameters.now))
        (mentions_seen (texts names.now.keys) mentions.now) }
{
    for mention in mentions {
        if does(names, doing, name, parameters, mention) {
            return true;
        }
    }
    false
}

/// Returns true if nothing ends the calls of a procedure by itself.
fn is_endless(
    names: &IndexSet<String>,
    name: NameId,
    parameters: &[Identifier],
    mentions: &[Mention<'_>],
) -> bool
    ensures { result
        ≡ meant.is_endless (id_text (texts names.now.keys) name)
        (map (name_of (texts names.now.keys)) parameters.now)
        (mentions_seen (texts names.now.keys) mentions.now) }
{
    (any_does(names, Doing::Calls, name, parameters, mentions)
        && !any_does(names, Doing::Tests, name, parameters, mentions))
        || (any_does(names, Doing::Repeats, name, parameters, mentions)
            && !any_does(names, Doing::Changes, name, parameters, mentions))
}

/// Adds a procedure that calls itself without an end, if the declaration is one.
fn add_procedure<'a>(
    alloc: Global,
    names: &'a IndexSet<String>,
    declaration: &Declaration,
    findings: &mut Vec<Finding<'a>>,
) -> Result<(), AllocError>
    ensures { OnOk result
        (found_all findings.new.items
        ≡ found_all findings.old.items
        ++ meant.endless_procedure (declared_of (texts names.now.keys) declaration.now.kind)
        (name_of (texts names.now.keys) declaration.now.name)) }
{
    let name = declaration.name.name;
    match &declaration.kind {
        DeclarationKind::Procedure { parameters, body } => {
            let finding = Finding {
                line: declaration.line,
                kind: FindingKind::EndlessRecursion,
                subject: text_of(names, name),
            };
            let mentions = mentions_of(alloc, names, body)?;
            add_if(
                is_endless(names, name, parameters, &mentions),
                finding,
                findings,
            )
        }
        DeclarationKind::Variable(_) => Ok(()),
        DeclarationKind::Array { .. } => Ok(()),
        DeclarationKind::Semaphore { .. } => Ok(()),
        DeclarationKind::Event => Ok(()),
        DeclarationKind::Buffer { .. } => Ok(()),
        DeclarationKind::Blackboard { .. } => Ok(()),
        DeclarationKind::Port => Ok(()),
    }
}

/// Adds the procedures that call themselves without an end.
#[tactic(auto, using(std::proofs::lemmas::List::drop_more))]
pub fn add_endless_procedures<'a>(
    alloc: Global,
    names: &'a IndexSet<String>,
    declarations: &[Declaration],
    findings: &mut Vec<Finding<'a>>,
) -> Result<(), AllocError>
    ensures { OnOk result
        (found_all findings.new.items
        ≡ found_all findings.old.items
        ++ meant.endless_procedures
        (map (declaration_of (texts names.now.keys)) declarations.now)) }
{
    for declaration in declarations {
        add_procedure(alloc, names, declaration, findings)?;
    }
    Ok(())
}
