//! Key paths, and the entries that a text has for them.

ghost use Rattle.std.specs.Prelude.{◌≡◌, IfOk, IfSome};
ghost use Rattle.toml_parser.specs.Reading.{key_view};
ghost use Rattle.finding_lines.specs.Entries.{is_one_element, is_same_step, key_path, leads_to, leads_to_element};
ghost use Rattle.finding_lines.specs.Views.{owned_path, owned_step, path_of, step_of};

use std::alloc::{AllocError, Global};
use toml_parser::Key;

/// A step of a key path: to what a key of a table holds, or to an element of an array, counted from 0.
#[derive(Clone, Copy)]
pub enum Step<'a> {
    Key(&'a str),
    Element(usize),
}

/// A step that owns its key.
#[derive(Drop)]
pub enum OwnedStep {
    Key(String),
    Element(usize),
}

/// A key path that a text defines.
#[derive(Drop)]
pub struct Entry {
    pub path: Vec<OwnedStep>,
    /// How much of the text is left at its key, its header, or its element.
    pub key_left: usize,
    /// How much of the text is left at its value.
    pub value_left: usize,
}

/// Returns true if the steps are the same.
fn is_same_step(step: &OwnedStep, other: &OwnedStep) -> bool
    ensures { result ≡ is_same_step (owned_step step.now) (owned_step other.now) }
{
    match (step, other) {
        (OwnedStep::Key(key), OwnedStep::Key(other)) => key.as_bytes() == other.as_bytes(),
        (OwnedStep::Element(index), OwnedStep::Element(other)) => *index == *other,
        _ => false,
    }
}

/// Returns true if `other` leads from the path to an element.
pub fn leads_to_element(path: &[OwnedStep], other: &[OwnedStep]) -> bool
    ensures { result ≡ leads_to_element (owned_path path.now) (owned_path other.now) }
{
    match (path.split_first(), other.split_first()) {
        (None, _) => is_one_element(other),
        (Some((step, steps)), Some((next, others))) => {
            is_same_step(step, next) && leads_to_element(steps, others)
        }
        _ => false,
    }
}

/// Returns true if the path is one step to an element.
fn is_one_element(path: &[OwnedStep]) -> bool
    ensures { result ≡ is_one_element (owned_path path.now) }
{
    match path {
        [OwnedStep::Element(_)] => true,
        _ => false,
    }
}

/// Returns true if both steps are the same.
fn is_step(step: Step<'_>, other: &OwnedStep) -> bool
    ensures { result ≡ is_same_step (step_of step.entry) (owned_step other.now) }
{
    match (step, other) {
        (Step::Key(key), OwnedStep::Key(other)) => key.as_bytes() == other.as_bytes(),
        (Step::Element(index), OwnedStep::Element(other)) => index == *other,
        _ => false,
    }
}

/// Returns true if `other` is the path, or leads on from there.
pub fn leads_to(path: &[Step<'_>], other: &[OwnedStep]) -> bool
    ensures { result ≡ leads_to (path_of path.now) (owned_path other.now) }
{
    match (path.split_first(), other.split_first()) {
        (None, _) => true,
        (Some((step, steps)), Some((next, others))) => {
            is_step(*step, next) && leads_to(steps, others)
        }
        _ => false,
    }
}

/// A step once more.
fn copied_step(alloc: Global, step: &OwnedStep) -> Result<OwnedStep, AllocError>
    ensures { IfOk result (λ copy. owned_step copy ≡ owned_step step.now) }
{
    match step {
        OwnedStep::Key(key) => Ok(OwnedStep::Key(String::from_str(alloc, key.as_str())?)),
        OwnedStep::Element(index) => Ok(OwnedStep::Element(*index)),
    }
}

/// A path once more.
#[tactic(auto, using(std::proofs::lemmas::List::drop_more, std::proofs::lemmas::List::map_push))]
pub fn copied(alloc: Global, path: &[OwnedStep]) -> Result<Vec<OwnedStep>, AllocError>
    ensures { IfOk result (λ copy. owned_path copy.items ≡ owned_path path.now) }
{
    let mut copy = Vec::new(alloc);
    for step in path {
        copy.push(copied_step(alloc, step)?)?;
    }
    Ok(copy)
}

/// The path of a key with dots, from a table on.
pub fn key_path(alloc: Global, path: &[OwnedStep], key: &Key) -> Option<Vec<OwnedStep>>
    ensures { IfSome result
        (λ whole. owned_path whole.items ≡ key_path (owned_path path.now) (key_view key.now)) }
{
    let mut whole = copied(alloc, path).ok()?;
    for part in &key.path {
        whole
            .push(OwnedStep::Key(String::from_str(alloc, part.as_str()).ok()?))
            .ok()?;
    }
    whole
        .push(OwnedStep::Key(String::from_str(alloc, key.last.as_str()).ok()?))
        .ok()?;
    Some(whole)
}
