//! How many words of data and how many declarations of each kind a program has up to a declaration.

ghost use Rattle.std.specs.Prelude.{◌≡◌, ◌+◌, List, ℕ, option_map};
ghost use Rattle.apex_types.specs.Limits.{MOST_OBJECTS};
ghost use Rattle.pal_base.specs.View.{declared_of, number_of};
ghost use Rattle.pal_meaning.specs.Resolve.{value_or_zero};
ghost use Rattle.source_findings.specs.Frames.{held};
ghost use Rattle.source_findings.specs.Judged as judged;
ghost use Rattle.source_findings.specs.Tally as spec;
ghost use Rattle.source_findings.specs.Views.{tally_of, what_of};

use crate::finding::{Many, What};
use crate::judge::{many_wrong, value_of};
use apex_types::limits::{MOST_DATA_WORDS, MOST_OBJECTS, MOST_PORTS, MOST_PROCEDURES};
use pal_base::fault::Refusal;
use pal_base::syntax::{DeclarationKind, Numeral};

/// The numbers of words of data, and of declarations of each kind.
#[derive(Clone, Copy)]
pub struct Tally {
    pub words: u64,
    pub semaphores: u64,
    pub events: u64,
    pub buffers: u64,
    pub blackboards: u64,
    pub ports: u64,
    pub procedures: u64,
}

/// One more.
pub fn one_more(count: u64) -> u64
    ensures { result ≡ held (count + 1) }
{
    count.saturating_add(1)
}

/// The number of words that an array adds.
fn with_array(words: u64, size: &Numeral) -> u64
    ensures { result ≡ held (words + value_or_zero (number_of size.now)) }
{
    words.saturating_add(value_of(size).unwrap_or(0))
}

impl Tally {
    /// Before the first declaration.
    pub const NONE: Self = Tally {
        words: 0,
        semaphores: 0,
        events: 0,
        buffers: 0,
        blackboards: 0,
        ports: 0,
        procedures: 0,
    };

    /// With one declaration more.
    pub fn counted(self, kind: &DeclarationKind) -> Tally
        ensures { (names : List (List ℕ))
            → tally_of result ≡ spec.counted (tally_of self) (declared_of names kind.now) }
    {
        let mut tally = self;
        match kind {
            DeclarationKind::Variable(_) => tally.words = one_more(self.words),
            DeclarationKind::Array { size, .. } => tally.words = with_array(self.words, size),
            DeclarationKind::Semaphore { .. } => tally.semaphores = one_more(self.semaphores),
            DeclarationKind::Event => tally.events = one_more(self.events),
            DeclarationKind::Buffer { .. } => tally.buffers = one_more(self.buffers),
            DeclarationKind::Blackboard { .. } => tally.blackboards = one_more(self.blackboards),
            DeclarationKind::Port => tally.ports = one_more(self.ports),
            DeclarationKind::Procedure { .. } => tally.procedures = one_more(self.procedures),
        }
        tally
    }

    /// What is wrong with the number of those of a kind.
    pub fn wrong(self, rule: Refusal, kind: &DeclarationKind) -> Option<What<'static>>
        ensures { (names : List (List ℕ))
            → option_map what_of result
            ≡ spec.tally_wrong rule (tally_of self) (declared_of names kind.now) }
    {
        match kind {
            DeclarationKind::Variable(_) | DeclarationKind::Array { .. } => {
                many_wrong(rule, Many::Words, self.words, u64::from(MOST_DATA_WORDS))
            }
            DeclarationKind::Semaphore { .. } => {
                objects_wrong(rule, Many::Semaphores, self.semaphores)
            }
            DeclarationKind::Event => objects_wrong(rule, Many::Events, self.events),
            DeclarationKind::Buffer { .. } => objects_wrong(rule, Many::Buffers, self.buffers),
            DeclarationKind::Blackboard { .. } => {
                objects_wrong(rule, Many::Blackboards, self.blackboards)
            }
            DeclarationKind::Port => {
                many_wrong(rule, Many::Ports, self.ports, u64::from(MOST_PORTS))
            }
            DeclarationKind::Procedure { .. } => {
                many_wrong(
                    rule,
                    Many::Procedures,
                    self.procedures,
                    u64::from(MOST_PROCEDURES),
                )
            }
        }
    }
}

/// What is wrong with the number of objects of a kind.
fn objects_wrong(rule: Refusal, many: Many, number: u64) -> Option<What<'static>>
    ensures { option_map what_of result ≡ judged.many_wrong rule many number MOST_OBJECTS }
{
    many_wrong(rule, many, number, u64::from(MOST_OBJECTS))
}
