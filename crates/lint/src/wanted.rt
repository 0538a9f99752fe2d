//! Calls that are looked for.

ghost use Rattle.std.specs.Prelude.{◌≡◌, ◌++◌, OnOk};
ghost use Rattle.std.specs.List.{list_any};
ghost use Rattle.pal_base.specs.View.{texts};
ghost use Rattle.lint.specs.Lives.{lacking, meets};
ghost use Rattle.lint.specs.Seen.{wanted_of};
ghost use Rattle.lint.specs.Views.{call_of, calls_seen, found_all, found_of};

use crate::call_table::is_kind;
use crate::calls::Call;
use crate::finding::{Finding, add_unless};
use crate::services::{
    awaited_kind, is_error_status, is_handler_creation, is_periodic_wait, is_set_mode,
    signalled_kind,
};
use crate::uses::{may_be, may_be_number, means};
use apex_types::ObjectKind;
use indexmap::IndexSet;
use pal_base::syntax::NameId;
use std::alloc::AllocError;

/// The number of the mode NORMAL.
const NORMAL: u64 = 3;

/// A call that is looked for.
#[derive(Clone, Copy)]
pub enum Wanted {
    /// It creates the handler.
    HandlerCreation,
    /// It may enter NORMAL.
    NormalMode,
    /// It waits for the next release.
    PeriodicWait,
    /// It takes an error.
    ErrorStatus,
    /// It waits for the object of this kind, number and name.
    Wait(ObjectKind, u64, NameId),
    /// It may signal or set this object.
    Signal(ObjectKind, u64, NameId),
}

/// Returns true if a call is as wanted.
fn meets(names: &IndexSet<String>, wanted: Wanted, call: &Call<'_>) -> bool
    ensures { result
        ≡ meets (wanted_of (texts names.now.keys) wanted) (call_of (texts names.now.keys) call.now) }
{
    match wanted {
        Wanted::HandlerCreation => is_handler_creation(call.service),
        Wanted::NormalMode => { is_set_mode(call.service) && may_be_number(NORMAL, call.id) }
        Wanted::PeriodicWait => is_periodic_wait(call.service),
        Wanted::ErrorStatus => is_error_status(call.service),
        Wanted::Wait(kind, number, name) => {
            is_kind(kind, awaited_kind(call.service)) && means(names, kind, number, name, call.id)
        }
        Wanted::Signal(kind, number, name) => {
            is_kind(kind, signalled_kind(call.service))
                && may_be(names, kind, number, name, call.id)
        }
    }
}

/// Returns true if one of the calls is as wanted.
#[tactic(auto, using(std::proofs::lemmas::List::drop_more))]
pub fn is_met(names: &IndexSet<String>, wanted: Wanted, calls: &[Call<'_>]) -> bool
    ensures { result
        ≡ list_any (meets (wanted_of (texts names.now.keys) wanted)) (calls_seen (texts names.now.keys) calls.now) }
{
    for call in calls {
        if meets(names, wanted, call) {
            return true;
        }
    }
    false
}

/// Returns true if one of some calls or of others is as wanted.
pub fn is_met_in_either(
    names: &IndexSet<String>,
    wanted: Wanted,
    calls: &[Call<'_>],
    others: &[Call<'_>],
) -> bool
    ensures { result
        ≡ list_any (meets (wanted_of (texts names.now.keys) wanted))
        (calls_seen (texts names.now.keys) calls.now
        ++ calls_seen (texts names.now.keys) others.now) }
{
    is_met(names, wanted, calls) || is_met(names, wanted, others)
}

/// Adds the finding, if none of the calls is as wanted.
pub fn expect<'a>(
    names: &IndexSet<String>,
    wanted: Wanted,
    calls: &[Call<'_>],
    finding: Finding<'a>,
    findings: &mut Vec<Finding<'a>>,
) -> Result<(), AllocError>
    ensures { OnOk result
        (found_all findings.new.items
        ≡ found_all findings.old.items
        ++ lacking (wanted_of (texts names.now.keys) wanted) (calls_seen (texts names.now.keys) calls.now)
        (found_of finding.entry)) }
{
    add_unless(is_met(names, wanted, calls), finding, findings)
}
