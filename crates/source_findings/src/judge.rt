//! What is wrong at a word, by the rule that is asked for.

ghost use Rattle.std.specs.Prelude.{◌≡◌, ◌++◌, ◌≤◌, map, length, IfOk, OnOk, option_map};
ghost use Rattle.apex_types.specs.NameText as name_text;
ghost use Rattle.pal_base.specs.View.{integer_of, number_of};
ghost use Rattle.source_findings.specs.Judged as spec;
ghost use Rattle.source_findings.specs.Views.{entries_of, judge_of, what_of};

use crate::finding::{Many, Thing, What};
use crate::roles::{Entry, Role, fits, is_nothing, or_else, role_of};
use apex_types::limits::MOST_TICKS;
use apex_types::{Name, Service};
use finding_lines::nearest;
use indexmap::IndexSet;
use pal_base::fault::Refusal;
use pal_base::syntax::{Natural, Numeral};
use std::alloc::{AllocError, Global};

/// The rule that is asked for, the period of the partition, and what the names of a body mean:
/// those that are declared, and its parameters and locals.
#[derive(Clone, Copy)]
pub struct Judge<'s, 'a> {
    pub rule: Refusal,
    pub period: u32,
    /// The names of the source, by their numbers.
    pub names: &'a IndexSet<String>,
    pub declared: &'s [Entry<'a>],
    pub own: &'s [Entry<'a>],
}

/// What a name means in the body.
fn meant(judge: &Judge<'_, '_>, name: &str) -> Role
    ensures { result ≡ spec.meant (judge_of judge.now) name.now }
{
    or_else(role_of(name, judge.own), role_of(name, judge.declared))
}

/// What is wrong with a name that is used where something is wanted.
///
/// # Errors
///
/// Only if memory runs out.
pub fn name_wrong<'a>(
    alloc: Global,
    judge: &Judge<'_, 'a>,
    name: &'a str,
    wanted: Role,
) -> Result<Option<What<'a>>, AllocError>
    ensures { IfOk result
        (λ found. option_map what_of found ≡ spec.name_wrong (judge_of judge.now) name.now wanted) }
{
    match judge.rule {
        Refusal::Name => unknown(alloc, judge, name),
        Refusal::Kind => Ok(other(judge, name, wanted)),
        Refusal::Limit => Ok(long(name)),
        _ => Ok(None),
    }
}

/// That a name is not declared.
fn unknown<'a>(
    alloc: Global,
    judge: &Judge<'_, 'a>,
    name: &'a str,
) -> Result<Option<What<'a>>, AllocError>
    ensures { IfOk result
        (λ found. option_map what_of found ≡ spec.unknown (judge_of judge.now) name.now) }
{
    if !is_nothing(meant(judge, name)) {
        return Ok(None);
    }
    let known = known_names(alloc, judge)?;
    Ok(Some(What::Unknown {
        name,
        near: nearest(name.as_bytes(), known.as_slice()),
    }))
}

/// The names that a body knows.
fn known_names<'a>(alloc: Global, judge: &Judge<'_, 'a>) -> Result<Vec<&'a str>, AllocError>
    ensures { IfOk result
        (λ names. map (λ name. name.now) names.items ≡ spec.known_names (judge_of judge.now)) }
{
    let mut names = Vec::new(alloc);
    add_names(&mut names, judge.own)?;
    add_names(&mut names, judge.declared)?;
    Ok(names)
}

#[tactic(auto, using(std::proofs::lemmas::List::drop_more, std::proofs::lemmas::List::append_assoc, crate::proofs::Lists::append_nil))]
fn add_names<'a>(names: &mut Vec<&'a str>, entries: &[Entry<'a>]) -> Result<(), AllocError>
    ensures { OnOk result
        (map (λ name. name.now) names.new.items
        ≡ map (λ name. name.now) names.old.items ++ map (λ e. e.name) (entries_of entries.now)) }
{
    for entry in entries {
        names.push(entry.name)?;
    }
    Ok(())
}

/// That a name means something other than what is wanted.
fn other<'a>(judge: &Judge<'_, 'a>, name: &'a str, wanted: Role) -> Option<What<'a>>
    ensures { option_map what_of result ≡ spec.other (judge_of judge.now) name.now wanted }
{
    let found = meant(judge, name);
    unless(
        fits(found, wanted),
        What::Other {
            name,
            found,
            wanted,
        },
    )
}

/// It is wrong unless this holds.
pub fn unless(holds: bool, what: What<'_>) -> Option<What<'_>>
    ensures { option_map what_of result ≡ spec.unless holds (what_of what.entry) }
{
    if holds { None } else { Some(what) }
}

/// That a name is too long.
fn long(name: &str) -> Option<What<'_>>
    ensures { option_map what_of result ≡ spec.long name.now }
{
    unless(is_name(name), What::Long(name))
}

fn is_name(text: &str) -> bool
    ensures { result ≡ name_text.is_name text.now }
{
    match Name::new(text.as_bytes()) {
        Some(_) => true,
        None => false,
    }
}

/// What is wrong with a name that is declared.
pub fn new_wrong<'a>(judge: &Judge<'_, 'a>, name: &'a str) -> Option<What<'a>>
    ensures { option_map what_of result ≡ spec.new_wrong (judge_of judge.now) name.now }
{
    match judge.rule {
        Refusal::Name => unless(is_nothing(meant(judge, name)), What::Again(name)),
        Refusal::Limit => long(name),
        _ => None,
    }
}

/// What is wrong with an expression in place of a name.
pub fn no_name_wrong(rule: Refusal, wanted: Role) -> Option<What<'static>>
    ensures { option_map what_of result ≡ spec.no_name_wrong rule wanted }
{
    by_kind(rule, Some(What::NoName(wanted)))
}

/// What is wrong by the rule on kinds.
fn by_kind(rule: Refusal, what: Option<What<'_>>) -> Option<What<'_>>
    ensures { option_map what_of result ≡ spec.by_kind rule (option_map what_of what.entry) }
{
    match rule {
        Refusal::Kind => what,
        _ => None,
    }
}

/// What is wrong with a `return` in a body that may return or not.
pub fn return_wrong(rule: Refusal, returns: bool) -> Option<What<'static>>
    ensures { option_map what_of result ≡ spec.return_wrong rule returns }
{
    by_kind(rule, unless(returns, What::Return))
}

/// What is wrong with the number of a service's arguments.
pub fn arguments_wrong(rule: Refusal, service: Service, given: usize) -> Option<What<'static>>
    ensures { option_map what_of result ≡ spec.arguments_wrong rule service given }
{
    let fits = given == service.arguments().len();
    by_kind(rule, unless(fits, What::Arguments { service, given }))
}

/// What is wrong with the number of a service's targets.
pub fn targets_wrong(rule: Refusal, service: Service, given: usize) -> Option<What<'static>>
    ensures { option_map what_of result ≡ spec.targets_wrong rule service given }
{
    let fits = given == usize::from(service.answer_words());
    by_kind(rule, unless(fits, What::Targets { service, given }))
}

/// What is wrong by the rule on limits.
pub fn by_limit(rule: Refusal, what: Option<What<'_>>) -> Option<What<'_>>
    ensures { option_map what_of result ≡ spec.by_limit rule (option_map what_of what.entry) }
{
    match rule {
        Refusal::Limit => what,
        _ => None,
    }
}

/// The value of a number without its sign; none if it is above 2^63 - 1.
pub fn value_of(number: &Numeral) -> Option<u64>
    ensures number { result ≡ number_of number.now }
    ensures magnitude { result ≡ (integer_of number.now).magnitude }
{
    match number.magnitude {
        Natural::Within(value) if 0 <= value => Some(value as u64),
        _ => None,
    }
}

/// What is wrong with a number that any word may be.
pub fn number_wrong(rule: Refusal, number: Option<u64>) -> Option<What<'static>>
    ensures { option_map what_of result ≡ spec.number_wrong rule number }
{
    by_limit(rule, too_large(number))
}

fn too_large(number: Option<u64>) -> Option<What<'static>>
    ensures { option_map what_of result ≡ spec.too_large number }
{
    match number {
        None => Some(What::TooLarge),
        Some(_) => None,
    }
}

/// What is wrong with a number that has these limits.
pub fn outside_wrong(
    rule: Refusal,
    thing: Thing,
    low: u64,
    high: u64,
    number: Option<u64>,
) -> Option<What<'static>>
    ensures { option_map what_of result ≡ spec.outside_wrong rule thing low high number }
{
    by_limit(rule, outside(thing, low, high, number))
}

fn outside(thing: Thing, low: u64, high: u64, number: Option<u64>) -> Option<What<'static>>
    ensures { option_map what_of result ≡ spec.outside thing low high number }
{
    match number {
        None => Some(What::TooLarge),
        Some(number) => unless(
            low <= number && number <= high,
            What::Outside {
                thing,
                number,
                low,
                high,
            },
        ),
    }
}

/// What is wrong with a number that is -1 or a number of ticks.
fn no_time(thing: Thing, negative: bool, number: Option<u64>) -> Option<What<'static>>
    ensures { option_map what_of result ≡ spec.no_time thing negative number }
{
    let Some(number) = number else {
        return Some(What::TooLarge);
    };
    let what = What::NoTime {
        thing,
        negative,
        number,
    };
    if negative {
        unless(number == 1, what)
    } else {
        unless(1 <= number && number <= MOST_TICKS, what)
    }
}

/// What is wrong with a period that has to be a multiple of that of the partition.
fn odd(partition: u32, negative: bool, number: Option<u64>) -> Option<What<'static>>
    ensures { option_map what_of result ≡ spec.odd partition negative number }
{
    if negative {
        return None;
    }
    match number {
        None => Some(What::TooLarge),
        Some(period) => unless(
            0 < partition && period % u64::from(partition) == 0,
            What::Odd { period, partition },
        ),
    }
}

/// What is wrong with the period of a process.
pub fn period_wrong(rule: Refusal, partition: u32, period: &Numeral) -> Option<What<'static>>
    ensures { option_map what_of result ≡ spec.period_wrong rule partition (integer_of period.now) }
{
    match rule {
        Refusal::Limit => no_time(Thing::Period, period.negative, value_of(period)),
        Refusal::Period => odd(partition, period.negative, value_of(period)),
        _ => None,
    }
}

/// What is wrong with the capacity of a process.
pub fn capacity_wrong(rule: Refusal, capacity: &Numeral) -> Option<What<'static>>
    ensures { option_map what_of result ≡ spec.capacity_wrong rule (integer_of capacity.now) }
{
    by_limit(
        rule,
        no_time(Thing::Capacity, capacity.negative, value_of(capacity)),
    )
}

/// What is wrong with how many there are.
pub fn many_wrong(rule: Refusal, thing: Many, number: u64, most: u64) -> Option<What<'static>>
    ensures { option_map what_of result ≡ spec.many_wrong rule thing number most }
{
    by_limit(
        rule,
        unless(
            number <= most,
            What::TooMany {
                thing,
                number,
                most,
            },
        ),
    )
}

/// What is wrong with the frame of a body, by its stack.
pub fn frame_wrong(rule: Refusal, words: u64, stack: Option<u64>) -> Option<What<'static>>
    ensures { option_map what_of result ≡ spec.frame_wrong rule words stack }
{
    by_limit(rule, small(words, stack?))
}

fn small(words: u64, stack: u64) -> Option<What<'static>>
    ensures { option_map what_of result ≡ spec.small words stack }
{
    unless(words <= stack, What::Frame { words, stack })
}
