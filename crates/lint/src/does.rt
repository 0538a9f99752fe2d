//! What is found at calls, and at what else statements do.

ghost use Rattle.std.specs.Prelude.{◌≡◌, ◌++◌, OnOk};
ghost use Rattle.pal_base.specs.View.{texts};
ghost use Rattle.lint.specs.DeclarationsView.{declared_in};
ghost use Rattle.lint.specs.Does as meant;
ghost use Rattle.lint.specs.Views.{call_of, calls_seen, found_all, mention_of, mentions_seen};

use crate::arrays::{add_long_length, add_small_array, array_of, is_beyond, text_or_none};
use crate::calls::Call;
use crate::declarations::Declarations;
use crate::finding::{Finding, FindingKind, add_if};
use crate::mentions::Mention;
use crate::names::text_of;
use crate::plain::{first_plain, name_in};
use crate::port_rules::add_wrong_use;
use crate::services::takes_number;
use crate::uses::is_unset;
use apex_types::PortRow;
use indexmap::IndexSet;
use pal_base::syntax::Identifier;
use std::alloc::AllocError;

/// Adds a call that takes a variable for the number of something, and nothing writes the variable.
fn add_unset_number<'a>(
    names: &'a IndexSet<String>,
    call: &Call<'_>,
    findings: &mut Vec<Finding<'a>>,
) -> Result<(), AllocError>
    ensures { OnOk result
        (found_all findings.new.items
        ≡ found_all findings.old.items
        ++ meant.unset_number (call_of (texts names.now.keys) call.now)) }
{
    let finding = Finding {
        line: call.line,
        kind: FindingKind::UnsetNumber,
        subject: text_or_none(names, name_in(first_plain(call.arguments))),
    };
    add_if(
        takes_number(call.service) && is_unset(call.id),
        finding,
        findings,
    )
}

/// Adds what is found at a call.
fn add_at_call<'a>(
    names: &'a IndexSet<String>,
    ports: &'a [PortRow],
    declarations: &Declarations<'_>,
    call: &Call<'_>,
    findings: &mut Vec<Finding<'a>>,
) -> Result<(), AllocError>
    ensures { OnOk result
        (found_all findings.new.items
        ≡ found_all findings.old.items
        ++ meant.found_at_call ports.now (declared_in declarations.now)
        (call_of (texts names.now.keys) call.now)) }
{
    add_wrong_use(names, ports, call, findings)?;
    add_small_array(names, ports, declarations, call, findings)?;
    add_long_length(names, ports, declarations, call, findings)?;
    add_unset_number(names, call, findings)
}

/// Adds what is found at calls.
#[tactic(auto, using(std::proofs::lemmas::List::drop_more))]
pub fn add_at_calls<'a>(
    names: &'a IndexSet<String>,
    ports: &'a [PortRow],
    declarations: &Declarations<'_>,
    calls: &[Call<'_>],
    findings: &mut Vec<Finding<'a>>,
) -> Result<(), AllocError>
    ensures { OnOk result
        (found_all findings.new.items
        ≡ found_all findings.old.items
        ++ meant.found_at_calls ports.now (declared_in declarations.now)
        (calls_seen (texts names.now.keys) calls.now)) }
{
    for call in calls {
        add_at_call(names, ports, declarations, call, findings)?;
    }
    Ok(())
}

/// Adds an index that is beyond its array.
fn add_bad_index<'a>(
    names: &'a IndexSet<String>,
    declarations: &Declarations<'_>,
    array: Identifier,
    index: Option<u64>,
    findings: &mut Vec<Finding<'a>>,
) -> Result<(), AllocError>
    ensures { OnOk result
        (found_all findings.new.items
        ≡ found_all findings.old.items
        ++ meant.found_at_mention (declared_in declarations.now)
        (mention_of (texts names.now.keys) (Mention.Element array index))) }
{
    let size = array_of(names, declarations, Some(array.name));
    let finding = Finding {
        line: array.line,
        kind: FindingKind::BadIndex,
        subject: text_of(names, array.name),
    };
    add_if(is_beyond(size, index), finding, findings)
}

/// Adds what is found at a mention.
fn add_at_mention<'a>(
    names: &'a IndexSet<String>,
    declarations: &Declarations<'_>,
    mention: &Mention<'_>,
    findings: &mut Vec<Finding<'a>>,
) -> Result<(), AllocError>
    ensures { OnOk result
        (found_all findings.new.items
        ≡ found_all findings.old.items
        ++ meant.found_at_mention (declared_in declarations.now)
        (mention_of (texts names.now.keys) mention.now)) }
{
    let (line, kind) = match *mention {
        Mention::Element(array, index) => {
            return add_bad_index(names, declarations, array, index, findings);
        }
        Mention::ByZero(line) => (line, FindingKind::DivisionByZero),
        Mention::Endless(line) => (line, FindingKind::EndlessLoop),
        Mention::Read(_) | Mention::Apply(_, _) | Mention::Write(_, _) => return Ok(()),
        Mention::Test | Mention::Ask(_) | Mention::Leave => return Ok(()),
    };
    let subject = "";
    findings.push(Finding {
        line,
        kind,
        subject,
    })?;
    Ok(())
}

/// Adds what is found at mentions.
#[tactic(auto, using(std::proofs::lemmas::List::drop_more))]
pub fn add_at_mentions<'a>(
    names: &'a IndexSet<String>,
    declarations: &Declarations<'_>,
    mentions: &[Mention<'_>],
    findings: &mut Vec<Finding<'a>>,
) -> Result<(), AllocError>
    ensures { OnOk result
        (found_all findings.new.items
        ≡ found_all findings.old.items
        ++ meant.found_at_mentions (declared_in declarations.now)
        (mentions_seen (texts names.now.keys) mentions.now)) }
{
    for mention in mentions {
        add_at_mention(names, declarations, mention, findings)?;
    }
    Ok(())
}
