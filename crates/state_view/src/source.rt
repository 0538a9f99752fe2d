//! The source of a partition.

ghost use Rattle.std.specs.Prelude.{◌≡◌, option_map};
ghost use Rattle.state_rows.specs.Fields.{value_of};
ghost use Rattle.state_rows.specs.Named as meaning;
ghost use Rattle.state_view.specs.Sources.{source_in};

use finding_lines::{Place, place_of};
use pal_base::syntax::Program;
use state_rows::Value;

/// The source of a partition: its text, and the program that this is.
#[derive(Drop)]
pub struct Source<'a> {
    pub text: &'a [u8],
    pub program: &'a Program,
    /// For each instruction of the code, how many bytes of the text are left from the first word on
    /// of the statement that it comes from.
    pub places: Vec<usize>,
}

impl Source<'_> {
    /// The line and the column of the statement that an instruction comes from.
    pub(crate) fn position(&self, pc: u32) -> Option<Place>
        ensures { option_map (λ p. (p.line, p.column)) result
            ≡ meaning.position_at (source_in self.now) pc }
    {
        let left = self.places.as_slice().get(pc as usize)?;
        Some(place_of(self.text, self.text.len().saturating_sub(*left)))
    }
}

pub(crate) fn line_value(at: Option<Place>) -> Value<'static>
    ensures { value_of result ≡ meaning.count_or_none (option_map (λ p. p.line) at) }
{
    match at {
        Some(at) => Value::Count(at.line as u64),
        None => Value::Nothing,
    }
}

pub(crate) fn column_value(at: Option<Place>) -> Value<'static>
    ensures { value_of result ≡ meaning.count_or_none (option_map (λ p. p.column) at) }
{
    match at {
        Some(at) => Value::Count(at.column as u64),
        None => Value::Nothing,
    }
}
