//! The words that are found.

ghost use Rattle.std.specs.Prelude.{◌≡◌};
ghost use Rattle.clap.specs.Matches.{found_of};
ghost use Rattle.clap.specs.Walk.{rows_of};
ghost use Rattle.command_words.specs.Found.{word_at};

use clap::ArgMatches;

/// The word that was found for the argument `name`, or an empty one if there is no such word.
pub fn word<'a>(found: &ArgMatches<'a>, name: &str) -> &'a str
    ensures { result.now ≡ word_at name.now (rows_of (found_of found.now)) }
{
    found.get_str(name).unwrap_or("")
}
