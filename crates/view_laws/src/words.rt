//! The words of runners in the lines that a view reads.

ghost use Rattle.std.specs.Prelude.{◌≡◌, true};
ghost use Rattle.apex_types.specs.NameText.{is_name};
ghost use Rattle.view_laws.specs.Shown.{HaveNames, IsNamed, NamesOne};

use apex_types::{Event, EventKind, Name, Subject};

/// No process in lines that are read has the word of INIT or of the error handler as its name.
pub fn lines_have_names(events: &[Event])
    ensures { HaveNames events.now }
{
    if let Some((first, rest)) = events.split_first() {
        kind_has_names(&first.kind);
        lines_have_names(rest);
    }
}

fn kind_has_names(kind: &EventKind)
    ensures { NamesOne kind.now }
{
    if let EventKind::State(who, _) = kind {
        subject_is_named(who);
    }
}

fn subject_is_named(who: &Subject)
    ensures { IsNamed who.now }
{
    if let Subject::Process(name) = who {
        name_is_named(name);
    }
}

fn name_is_named(name: &Name)
    ensures { is_name name.now ≡ true }
{
    name.as_bytes();
}
