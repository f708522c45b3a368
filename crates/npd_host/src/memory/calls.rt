ghost use Rattle.std.specs.Prelude.{◌≡◌, ◌↔◌, IsTrue, IfOk, OnErr, OnOk, ◌++◌, ◌∷◌, []};
ghost use Rattle.npd_host.specs.declared.memory.calls.FailedCall.{FailedCall};
ghost use Rattle.npd_host.specs.Counts.{count_at, raised};
ghost use Rattle.npd_host.specs.Host.{NoneFalls, Rose};
ghost use Rattle.npd_host.specs.MemHost.{IsPlanned, failed_with, faults_in};

use crate::counts::Counts;
use crate::host::{CallKind, HostFail};
use db_model::{NoMemory, Word};
use std::alloc::Global;

/// A call that is to fail: the one with this number, from 0, among the calls of its kind.
#[derive(Clone, Copy, Debug, PartialEq, Eq)]
pub struct PlannedCall {
    pub kind: CallKind,
    pub nth: u64,
}

/// A call that failed, and the name that it was made on.
#[derive(Drop)]
pub struct FailedCall {
    pub kind: CallKind,
    pub name: Word,
}

/// Counts a call, and says whether it is planned to fail.
pub fn is_due(planned: &[PlannedCall], calls: &mut Counts, kind: CallKind) -> bool
    ensures planned { IsTrue result ↔ IsPlanned kind (count_at kind calls.old) planned.now }
    ensures counted { calls.new ≡ raised kind calls.old }
{
    let nth = calls.at(kind);
    calls.raise(kind);
    planned.contains(&PlannedCall { kind, nth })
}

/// Notes that a call failed, and answers so. Takes the memory for that first.
pub fn note(alloc: Global, failed: &mut Vec<FailedCall>, kind: CallKind, name: &str) -> HostFail
    ensures noted { let call : FailedCall = record { kind = kind; name = name.now } in
        failed.new.items ≡ failed_with result call failed.old.items }
    ensures later { NoneFalls (faults_in failed.old.items) (faults_in failed.new.items) }
    ensures cause { result ≡ HostFail.Failed
        → Rose (faults_in failed.old.items kind name.now)
        (faults_in failed.new.items kind name.now) }
{
    match push(alloc, failed, kind, name) {
        Ok(()) => HostFail::Failed,
        Err(NoMemory) => HostFail::NoMemory,
    }
}

fn push(
    alloc: Global,
    failed: &mut Vec<FailedCall>,
    kind: CallKind,
    name: &str,
) -> Result<(), NoMemory>
    ensures pushed { let call : FailedCall = record { kind = kind; name = name.now } in
        OnOk result (failed.new.items ≡ failed.old.items ++ call ∷ []) }
    ensures left { OnErr result (failed.new.items ≡ failed.old.items) }
{
    let name = Word::copy_of(alloc, name)?;
    failed.push(FailedCall { kind, name })?;
    Ok(())
}
