//! How a command that is done has ended.

ghost use Rattle.std.specs.Prelude.{◌≡◌, not};
ghost use Rattle.command_line.specs.Outcomes.{is_remarkable, status_of};
ghost use Rattle.lint.specs.Sentences.{have_findings};

use lint::{PartitionFindings, have_findings};

/// How a command that is done has ended.
#[derive(Clone, Copy, PartialEq, Eq)]
pub enum Outcome {
    /// As usual.
    Usual,
    /// Something is found that is probably not meant, or what is waited for has not come.
    Remarkable,
}

impl Outcome {
    /// The exit status.
    pub fn status(self) -> u8
        ensures { result ≡ status_of self }
    {
        match self {
            Outcome::Usual => 0,
            Outcome::Remarkable => 3,
        }
    }

    /// The outcome of waiting for a line of a run, or for a state.
    pub fn of_wait(came: bool) -> Outcome
        ensures { is_remarkable result ≡ not came }
    {
        if came {
            Outcome::Usual
        } else {
            Outcome::Remarkable
        }
    }

    /// The outcome with these findings.
    pub fn of_findings(found: &[PartitionFindings<'_>]) -> Outcome
        ensures { is_remarkable result ≡ have_findings found.now }
    {
        if have_findings(found) {
            Outcome::Remarkable
        } else {
            Outcome::Usual
        }
    }
}
