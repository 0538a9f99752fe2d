//! The declarations of a program, for look-ups by name and by number.

ghost use Rattle.std.specs.Prelude.{◌≡◌, ◌++◌, ℕ, List, map, IfOk, OnOk};
ghost use Rattle.std.specs.HashMap.{get_by};
ghost use Rattle.std.specs.Str.{bytes_eq};
ghost use Rattle.apex_types.specs.declared.denotation.ObjectKind.TheVariants as object;
ghost use Rattle.pal_base.specs.View.{declaration_of, declared_of, texts};
ghost use Rattle.lint.specs.Arrays as meant;
ghost use Rattle.lint.specs.Measures.{AreMeasured, object_words, words_numbered, words_of_kind};

use crate::names::text_of;
use crate::plain::value_of;
use crate::uses::is_same_kind;
use apex_types::ObjectKind;
use indexmap::{IndexMap, IndexSet};
use pal_base::syntax::{Declaration, DeclarationKind};
use std::alloc::{AllocError, Global};

/// What is looked up of a declaration.
#[derive(Clone, Copy)]
pub struct Measure {
    /// The size of an array.
    pub size: Option<u64>,
    /// The words of a message of a buffer or a blackboard.
    pub words: Option<u64>,
}

/// The declarations of a program, with what is looked up of them.
#[derive(Drop)]
pub struct Declarations<'a> {
    /// Read by contracts only, as is `declarations`.
    pub names: &'a IndexSet<String>,
    pub declarations: &'a [Declaration],
    /// What is looked up of the first declaration of each name.
    pub measures: IndexMap<&'a str, Measure>,
    /// The words of a message of each buffer.
    pub buffers: Vec<Option<u64>>,
    /// The words of a message of each blackboard.
    pub blackboards: Vec<Option<u64>>,
    ghost measured: { AreMeasured (λ name. get_by (λ k. bytes_eq name k.now) measures)
        (map (declaration_of (texts names.now.keys)) declarations.now) },
    ghost has_buffers: { buffers.items
        ≡ words_of_kind object.Buffer
        (map (declaration_of (texts names.now.keys)) declarations.now) },
    ghost has_blackboards: { blackboards.items
        ≡ words_of_kind object.Blackboard
        (map (declaration_of (texts names.now.keys)) declarations.now) },
}

impl<'a> Declarations<'a> {
    ghost use Rattle.lint.specs.DeclarationsView.{declared_in};

    /// The table of these declarations.
    pub fn of(
        alloc: Global,
        names: &'a IndexSet<String>,
        declarations: &'a [Declaration],
    ) -> Result<Declarations<'a>, AllocError>
        ensures { IfOk result
            (λ table. declared_in table
            ≡ map (declaration_of (texts names.now.keys)) declarations.now) }
    {
        let measures = measures_by_name(alloc, names, declarations)?;
        let buffers = words_of_kind(alloc, ObjectKind::Buffer, declarations)?;
        let blackboards = words_of_kind(alloc, ObjectKind::Blackboard, declarations)?;
        Ok(Declarations {
            names,
            declarations,
            measures,
            buffers,
            blackboards,
        })
    }

    /// The size of the array with this name.
    pub fn size_named(&self, name: &str) -> Option<u64>
        ensures { result ≡ meant.size_or_none (meant.declared name.now (declared_in self.now)) }
    {
        match self.measures.get(name) {
            Some(measure) => measure.size,
            None => None,
        }
    }

    /// The words of a message of the buffer or the blackboard with this name.
    pub fn words_named(&self, name: &str) -> Option<u64>
        ensures { result ≡ meant.words_or_none (meant.declared name.now (declared_in self.now)) }
    {
        match self.measures.get(name) {
            Some(measure) => measure.words,
            None => None,
        }
    }

    /// The words of a message of the buffer or the blackboard with this number, from 1.
    pub fn words_at(&self, kind: ObjectKind, number: u64) -> Option<u64>
        ensures { result
            ≡ meant.words_or_none (meant.declared_at kind number (declared_in self.now)) }
    {
        match kind {
            ObjectKind::Buffer => words_numbered(&self.buffers, number),
            ObjectKind::Blackboard => words_numbered(&self.blackboards, number),
            _ => None,
        }
    }
}

/// What is looked up of the first declaration of each name.
fn measures_by_name<'a>(
    alloc: Global,
    names: &'a IndexSet<String>,
    declarations: &[Declaration],
) -> Result<IndexMap<&'a str, Measure>, AllocError>
    ensures { IfOk result
        (λ measures. AreMeasured (λ name. get_by (λ k. bytes_eq name k.now) measures)
        (map (declaration_of (texts names.now.keys)) declarations.now)) }
{
    let mut measures = IndexMap::new(alloc);
    let mut place = declarations.len();
    while place > 0 {
        place -= 1;
        let declaration = &declarations[place];
        let measure = Measure {
            size: size_in(&declaration.kind),
            words: words_in(&declaration.kind),
        };
        measures.insert(text_of(names, declaration.name.name), measure)?;
    }
    Ok(measures)
}

/// The size of an array, as it is declared.
fn size_in(kind: &DeclarationKind) -> Option<u64>
    ensures { (names : List (List ℕ)) → result ≡ meant.size_in (declared_of names kind.now) }
{
    match kind {
        DeclarationKind::Array { size, .. } => value_of(size),
        DeclarationKind::Variable(_) => None,
        DeclarationKind::Semaphore { .. } => None,
        DeclarationKind::Event => None,
        DeclarationKind::Buffer { .. } => None,
        DeclarationKind::Blackboard { .. } => None,
        DeclarationKind::Port => None,
        DeclarationKind::Procedure { .. } => None,
    }
}

/// The words of a message of a buffer or a blackboard.
fn words_in(kind: &DeclarationKind) -> Option<u64>
    ensures { (names : List (List ℕ)) → result ≡ meant.words_in (declared_of names kind.now) }
{
    match kind {
        DeclarationKind::Buffer { words, .. } => value_of(words),
        DeclarationKind::Blackboard { words } => value_of(words),
        DeclarationKind::Variable(_) => None,
        DeclarationKind::Array { .. } => None,
        DeclarationKind::Semaphore { .. } => None,
        DeclarationKind::Event => None,
        DeclarationKind::Port => None,
        DeclarationKind::Procedure { .. } => None,
    }
}

/// Returns true if a declaration is of a buffer or a blackboard, whichever the kind is.
fn is_of_kind(kind: ObjectKind, declaration: &DeclarationKind) -> bool
    ensures { (names : List (List ℕ))
        → result ≡ meant.is_of_kind kind (declared_of names declaration.now) }
{
    match declaration {
        DeclarationKind::Buffer { .. } => is_same_kind(kind, ObjectKind::Buffer),
        DeclarationKind::Blackboard { .. } => is_same_kind(kind, ObjectKind::Blackboard),
        DeclarationKind::Variable(_) => false,
        DeclarationKind::Array { .. } => false,
        DeclarationKind::Semaphore { .. } => false,
        DeclarationKind::Event => false,
        DeclarationKind::Port => false,
        DeclarationKind::Procedure { .. } => false,
    }
}

/// Adds the words of a message of an object, if it is of the kind.
fn add_words(
    kind: ObjectKind,
    declaration: &DeclarationKind,
    words: &mut Vec<Option<u64>>,
) -> Result<(), AllocError>
    ensures { OnOk result
        ((names : List (List ℕ))
        → words.new.items
        ≡ words.old.items ++ object_words kind (declared_of names declaration.now)) }
{
    if is_of_kind(kind, declaration) {
        words.push(words_in(declaration))?;
    }
    Ok(())
}

/// The words of a message of each buffer, or of each blackboard.
#[tactic(auto, using(std::proofs::lemmas::List::drop_more))]
fn words_of_kind(
    alloc: Global,
    kind: ObjectKind,
    declarations: &[Declaration],
) -> Result<Vec<Option<u64>>, AllocError>
    ensures { IfOk result
        (λ words. (names : List (List ℕ))
        → words.items ≡ words_of_kind kind (map (declaration_of names) declarations.now)) }
{
    let mut words = Vec::new(alloc);
    for declaration in declarations {
        add_words(kind, &declaration.kind, &mut words)?;
    }
    Ok(words)
}

/// The words of the object with a number, from 1.
fn words_numbered(words: &[Option<u64>], number: u64) -> Option<u64>
    ensures { result ≡ words_numbered words.now number }
{
    let place = number.checked_sub(1)?;
    match words.get(place as usize) {
        Some(words) => *words,
        None => None,
    }
}
