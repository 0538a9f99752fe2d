//! Words of a command that are `-`.

ghost use Rattle.std.specs.Prelude.{◌≡◌, is_some, map};
ghost use Rattle.std.specs.List.{list_any};
ghost use Rattle.clap.specs.Matches.{found_of};
ghost use Rattle.clap.specs.Simple.{subcommand_rows_of};
ghost use Rattle.clap.specs.Walk.{rows_of};
ghost use Rattle.command_line.specs.Orders.{is_dash, has_dash, has_dash_at, is_dashed};

use clap::ArgMatches;

/// The arguments that name a file or a partition, or give a number of ticks. A run that waits for a
/// line takes `-` as a word of this line.
static NAMED: [&str; 10] = [
    "TABLE",
    "SOURCE",
    "IMAGE",
    "DEVICES",
    "PARTITION",
    "INPUTS",
    "TICKS",
    "TICK",
    "OLD",
    "NEW",
];

/// The name of the command that was found, if one of its words is `-`.
pub fn dashed_command<'a>(matches: &ArgMatches<'a>) -> Option<&'a str>
    ensures { is_some result ≡ is_dashed (subcommand_rows_of matches.now) }
{
    match matches.subcommand() {
        Some((name, found)) if has_dash(found) => Some(name),
        _ => None,
    }
}

fn has_dash(found: &ArgMatches<'_>) -> bool
    ensures { result ≡ has_dash (rows_of (found_of found.now)) }
{
    has_dash_among(found, &NAMED)
}

#[tactic(auto, using(std::proofs::lemmas::List::drop_more))]
fn has_dash_among(found: &ArgMatches<'_>, names: &[&str]) -> bool
    ensures { result
        ≡ list_any (has_dash_at (rows_of (found_of found.now))) (map (λ s. s.now) names.now) }
{
    for name in names {
        if has_dash_at(found, name) {
            return true;
        }
    }
    false
}

/// Returns true if a word that was found for the argument `name` is `-`.
pub fn has_dash_at(found: &ArgMatches<'_>, name: &str) -> bool
    ensures { result ≡ has_dash_at (rows_of (found_of found.now)) name.now }
{
    are_dashed(found.get_strs(name).unwrap_or(&[]))
}

#[tactic(auto, using(std::proofs::lemmas::List::drop_more))]
fn are_dashed(words: &[&str]) -> bool
    ensures { result ≡ list_any is_dash (map (λ s. s.now) words.now) }
{
    for word in words {
        if *word == "-" {
            return true;
        }
    }
    false
}
