//! Arguments, as far as they are looked at.

ghost use Rattle.std.specs.Prelude.{◌≡◌, ℕ, List, option_map};
ghost use Rattle.pal_base.specs.View.{expr_of, exprs_of, id_text, number_of, texts};
ghost use Rattle.lint.specs.Plain as meant;
ghost use Rattle.lint.specs.Views.{plain_of};

use crate::names::text_of;
use indexmap::IndexSet;
use pal_base::syntax::{Expr, NameId, Natural, Numeral};

/// An argument, as far as it is looked at.
#[derive(Clone, Copy)]
pub enum Plain {
    /// A number as it is written; none above 2^63 - 1.
    Literal(Option<u64>),
    Name(NameId),
    Other,
}

/// The value of a number; none if it is above 2^63 - 1.
pub fn value_of(number: &Numeral) -> Option<u64>
    ensures { result ≡ number_of number.now }
{
    match number.magnitude {
        Natural::Within(value) if 0 <= value => Some(value as u64),
        _ => None,
    }
}

/// An argument, as far as it is looked at.
pub fn argument_of(argument: &Expr) -> Plain
    ensures { (names : List (List ℕ))
        → plain_of names result ≡ meant.plain (expr_of names argument.now) }
{
    match argument {
        Expr::Number(number) => Plain::Literal(value_of(number)),
        Expr::Name(name) => Plain::Name(name.name),
        Expr::Element(_, _) => Plain::Other,
        Expr::Apply(_, _) => Plain::Other,
        Expr::Parenthesis(_) => Plain::Other,
        Expr::Unary(_, _) => Plain::Other,
        Expr::Chain(_, _) => Plain::Other,
    }
}

/// The first of some arguments.
pub fn first_plain(arguments: &[Expr]) -> Option<Plain>
    ensures { (names : List (List ℕ))
        → option_map (plain_of names) result
        ≡ meant.first_of (meant.plains (exprs_of names arguments.now)) }
{
    match arguments.split_first() {
        Some((first, _)) => Some(argument_of(first)),
        None => None,
    }
}

/// The second of some arguments.
pub fn second_plain(arguments: &[Expr]) -> Option<Plain>
    ensures { (names : List (List ℕ))
        → option_map (plain_of names) result
        ≡ meant.second_plain (meant.plains (exprs_of names arguments.now)) }
{
    match arguments.split_first() {
        Some((_, others)) => first_plain(others),
        None => None,
    }
}

/// The third of some arguments.
pub fn third_plain(arguments: &[Expr]) -> Option<Plain>
    ensures { (names : List (List ℕ))
        → option_map (plain_of names) result
        ≡ meant.third_plain (meant.plains (exprs_of names arguments.now)) }
{
    match arguments.split_first() {
        Some((_, others)) => second_plain(others),
        None => None,
    }
}

/// The last of some arguments.
#[tactic(auto, using(std::proofs::lemmas::List::drop_more))]
pub fn last_plain(arguments: &[Expr]) -> Option<Plain>
    ensures { (names : List (List ℕ))
        → option_map (plain_of names) result
        ≡ meant.last_or None (meant.plains (exprs_of names arguments.now)) }
{
    let mut last = None;
    for argument in arguments {
        last = Some(argument_of(argument));
    }
    last
}

/// The name that an argument is.
pub fn name_in(argument: Option<Plain>) -> Option<NameId>
    ensures { (names : List (List ℕ))
        → option_map (id_text names) result
        ≡ meant.name_in (option_map (plain_of names) argument) }
{
    match argument {
        Some(Plain::Name(name)) => Some(name),
        _ => None,
    }
}

/// Returns true if the argument is the number 0.
pub fn is_zero(argument: Option<Plain>) -> bool
    ensures { (names : List (List ℕ))
        → result ≡ meant.is_zero (option_map (plain_of names) argument) }
{
    match argument {
        Some(Plain::Literal(Some(number))) => number == 0,
        _ => false,
    }
}

/// Returns true if the argument is a number other than 0.
pub fn is_other_than_zero(argument: Option<Plain>) -> bool
    ensures { (names : List (List ℕ))
        → result ≡ meant.is_other_than_zero (option_map (plain_of names) argument) }
{
    match argument {
        Some(Plain::Literal(Some(number))) => number != 0,
        _ => false,
    }
}

/// The number that an argument is.
pub fn number_in(argument: Option<Plain>) -> Option<u64>
    ensures { (names : List (List ℕ))
        → result ≡ meant.number_in (option_map (plain_of names) argument) }
{
    match argument {
        Some(Plain::Literal(number)) => number,
        _ => None,
    }
}

/// Returns true if the argument is this name.
pub fn is_name(names: &IndexSet<String>, name: &str, argument: Option<NameId>) -> bool
    ensures { result
        ≡ meant.is_name name.now (option_map (id_text (texts names.now.keys)) argument) }
{
    match argument {
        Some(other) => text_of(names, other) == name,
        None => false,
    }
}
