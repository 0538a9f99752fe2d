//! The lines of a text, and the words that are asked for.

ghost use Rattle.std.specs.Prelude.{◌≡◌, map, option_copied};
ghost use Rattle.apex_types.specs.Line.{space};
ghost use Rattle.command_line.specs.Awaited as meant;
ghost use Rattle.text_lines.specs.Pieces.{pieces_of};

use module::stands_for;
use text_lines::split_at;

/// Whether the words of this text, if it is there, are those that are asked for.
fn stand_for(asked: &[&str], text: Option<&[u8]>) -> bool
    ensures { result
        ≡ meant.stand_for (map (λ a. a.now) asked.now) (pieces_of space (option_copied text.entry)) }
{
    match (asked.split_first(), text) {
        (None, None) => true,
        (Some((first, rest)), Some(text)) => {
            let (word, behind) = split_at(b' ', text);
            stands_for(first, word) && stand_for(rest, behind)
        }
        _ => false,
    }
}

/// Whether a line, without its line feed, has exactly these words after its tick.
fn has_words(asked: &[&str], line: &[u8]) -> bool
    ensures { result ≡ meant.has_words (map (λ a. a.now) asked.now) line.now }
{
    let (_, behind) = split_at(b' ', line);
    stand_for(asked, behind)
}

/// Whether a line of the text has exactly these words after its tick; `_` matches any word.
pub fn has_line(asked: &[&str], text: &[u8]) -> bool
    ensures { result ≡ meant.has_line (map (λ a. a.now) asked.now) text.now }
{
    let mut rest = text;
    while let (line, Some(behind)) = split_at(b'\n', rest) {
        if has_words(asked, line) {
            return true;
        }
        rest = behind;
    }
    false
}
