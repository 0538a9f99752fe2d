//! The words of lines that views show.

ghost use Rattle.std.specs.Prelude.{◌≡◌};
ghost use Rattle.apex_types.specs.Line.{subject_text};

use apex_types::Subject;

/// A process as written in a line: its name, `INIT` or `HANDLER`.
pub fn subject_word(who: &Subject) -> &str
    ensures { result.now ≡ subject_text who.now }
{
    match who {
        Subject::Init => "INIT",
        Subject::Handler => "HANDLER",
        Subject::Process(name) => name.as_str(),
    }
}
