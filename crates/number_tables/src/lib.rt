//! Tables of numbers: as text with aligned columns, and as comma-separated values.
//!
//! What is printed is tested, in `tests/views` and `tests/load`. The share of a part is proved.
#![tactic(auto)]

mod cell;
mod row;
mod share;
mod sheet;
mod table;

pub use cell::{Cell, number_cell, share_cells};
pub use share::Share;
pub use sheet::Sheet;
pub use table::Table;
