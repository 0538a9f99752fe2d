//! What a finding is about.

ghost use Rattle.std.specs.Prelude.{◌≡◌, ◌∷◌, ◌++◌, [], IfOk, OnOk};
ghost use Rattle.finding_lines.specs.Entries.{key as key_step};
ghost use Rattle.finding_lines.specs.Views.{path_of};
ghost use Rattle.table_findings.specs.Subjects as spec;
ghost use Rattle.table_findings.specs.Views.{subject_of};

use finding_lines::Step;
use std::alloc::{AllocError, Global};

/// A partition, a port, a window or a channel: its place in its list, counted from 0, and its name,
/// if it has one. A window has the name of its partition.
#[derive(Clone, Copy)]
pub struct Row<'a> {
    pub index: usize,
    pub name: Option<&'a str>,
}

/// What a finding is about.
#[derive(Clone, Copy)]
pub enum Subject<'a> {
    Module,
    Costs,
    Partition(Row<'a>),
    /// The health table of a partition.
    Health(Row<'a>),
    Port { port: Row<'a>, partition: Row<'a> },
    Window(Row<'a>),
    Channel(Row<'a>),
    /// A destination of a channel, counted from 0.
    Destination(usize, Row<'a>),
}

/// The key path of a subject.
///
/// # Errors
///
/// Only if memory runs out.
pub fn subject_path<'a>(alloc: Global, subject: Subject<'a>) -> Result<Vec<Step<'a>>, AllocError>
    ensures { IfOk result (λ path. path_of path.items ≡ spec.subject_path (subject_of subject.entry)) }
{
    let mut path = Vec::new(alloc);
    match subject {
        Subject::Module => {}
        Subject::Costs => push_key(&mut path, "cost")?,
        Subject::Partition(row) => push_row(&mut path, "partition", row.index)?,
        Subject::Health(row) => {
            push_row(&mut path, "partition", row.index)?;
            push_key(&mut path, "hm")?;
        }
        Subject::Port { port, partition } => {
            push_row(&mut path, "partition", partition.index)?;
            push_row(&mut path, "port", port.index)?;
        }
        Subject::Window(row) => push_row(&mut path, "window", row.index)?,
        Subject::Channel(row) => push_row(&mut path, "channel", row.index)?,
        Subject::Destination(index, row) => {
            push_row(&mut path, "channel", row.index)?;
            push_row(&mut path, "destinations", index)?;
        }
    }
    Ok(path)
}

/// Adds the step to a key.
///
/// # Errors
///
/// Only if memory runs out.
pub fn push_key<'a>(path: &mut Vec<Step<'a>>, key: &'a str) -> Result<(), AllocError>
    ensures { OnOk result
        (path_of path.new.items ≡ path_of path.old.items ++ key_step key.now ∷ []) }
{
    path.extend_from_slice(&[Step::Key(key)])
}

/// Adds the steps to an element of the list at a key.
fn push_row<'a>(path: &mut Vec<Step<'a>>, key: &'a str, index: usize) -> Result<(), AllocError>
    ensures { OnOk result
        (path_of path.new.items ≡ path_of path.old.items ++ spec.row_path key.now index) }
{
    path.extend_from_slice(&[Step::Key(key), Step::Element(index)])
}
