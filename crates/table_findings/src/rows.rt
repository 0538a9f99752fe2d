//! The subjects of the rows of a table.

ghost use Rattle.std.specs.Prelude.{◌≡◌};
ghost use Rattle.toml.specs.View.{table_view};
ghost use Rattle.table_findings.specs.Shape.{row_at};
ghost use Rattle.table_findings.specs.Views.{row_of};

use crate::members::text_at;
use crate::subject::Row;
use toml::Table;

/// The row of a table at a place of its list, with the name at a key.
pub fn row_at<'a>(index: usize, key: &str, table: &'a Table) -> Row<'a>
    ensures { row_of result ≡ row_at index key.now (table_view table.now) }
{
    Row {
        index,
        name: text_at(table, key),
    }
}
