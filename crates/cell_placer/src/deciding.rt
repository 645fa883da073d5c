//! What is decided of a grant.
ghost use Rattle.std.specs.Prelude.{◌≡◌, ◌&&◌, ◌<◌, All, IfOk, length, position, Some, true};
ghost use Rattle.dci_fields.specs.FirstFieldFault.{field_fault};
ghost use Rattle.monitor_plan.specs.Watch.{fits, list_of, watch_at, IsInside};
ghost use Rattle.cell_placer.specs.Ready.{IsReady};
ghost use Rattle.cell_placer.specs.Suitable.{is_suitable};
ghost use Rattle.cell_placer.specs.Fate.{by_fault, by_free, by_room, by_handset, decided, is_free};

use crate::Refusal;
use crate::ledger::Ledger;
use crate::member::Accepted;
use crate::suitable::{first_suitable, handset_of, is_suitable};
use dci_fields::{FieldFault, pack};
use grant_file::Grant;
use monitor_plan::Outline;

/// How a grant is accepted, or the first cause against it.
#[tactic(auto, unfolding(crate::specs::Fate::decided))]
pub(crate) fn decided(ledger: &Ledger, grant: &Grant) -> Result<Accepted, Refusal>
    ensures value { result ≡ decided ledger.now grant.now }
    ensures ready { IfOk result (λ entry. IsReady ledger.now grant.now entry) }
{
    match handset_of(ledger.members(), &grant.handset) {
        None => Err(Refusal::UnknownHandset),
        Some(handset) => decided_in(ledger, grant, handset),
    }
}

/// The same where the grant is of the handset at this place.
fn decided_in(ledger: &Ledger, grant: &Grant, handset: usize) -> Result<Accepted, Refusal>
    requires { handset < length ledger.now.members }
    ensures { result ≡ by_handset ledger.now grant.now (Some handset) }
{
    let member = &ledger.members()[handset];
    if !member.sets.as_slice().contains(&grant.set) {
        return Err(Refusal::UnknownSet);
    }
    match first_suitable(&member.plan, grant) {
        None => Err(Refusal::Unmonitored),
        Some(first) => decided_among(ledger, grant, handset, &member.plan, first),
    }
}

/// The same by the plan of the handset and the place of its first suitable watch.
fn decided_among(
    ledger: &Ledger,
    grant: &Grant,
    handset: usize,
    plan: &Outline,
    first: usize,
) -> Result<Accepted, Refusal>
    requires inside { All (IsInside ledger.now.blocks) plan.now }
    requires first { first < length plan.now }
    requires fitting { fits (watch_at plan.now first) grant.now.format ≡ true }
    requires suitable { position (is_suitable grant.now) plan.now ≡ Some first }
    ensures { result ≡ let watch = watch_at plan.now first in by_fault ledger.now grant.now handset plan.now watch
        (field_fault (list_of watch grant.now.format) grant.now.format grant.now.given) }
{
    if let Some(fault) = fault_of(plan, first, grant) {
        return Err(Refusal::Field(fault));
    }
    match first_free(ledger, plan, grant, first) {
        None => Err(Refusal::Overlap {
            earlier: ledger.first_meeting(plan, first).unwrap_or(0),
        }),
        Some(watch) => decided_at(ledger, handset, watch),
    }
}

/// The same at a free watch of the handset.
fn decided_at(ledger: &Ledger, handset: usize, watch: usize) -> Result<Accepted, Refusal>
    ensures { result ≡ by_room ledger.now handset watch }
{
    if !ledger.has_room() {
        return Err(Refusal::Full {
            room: ledger.room(),
        });
    }
    Ok(Accepted {
        call: ledger.calls(),
        handset,
        watch,
    })
}

/// What is wrong with the grant's field values at the watch of a place.
fn fault_of(plan: &Outline, at: usize, grant: &Grant) -> Option<FieldFault>
    requires at { at < length plan.now }
    requires fitting { fits (watch_at plan.now at) grant.now.format ≡ true }
    ensures { result ≡ field_fault (list_of (watch_at plan.now at) grant.now.format) grant.now.format grant.now.given }
{
    let list = plan.list(at, grant.format);
    let size = usize::from(plan.size(at));
    match pack(&list, grant.format, grant.given.as_slice(), size) {
        Ok(_payload) => None,
        Err(fault) => Some(fault),
    }
}

/// The place of the first suitable watch that is free. `first` is that of the first suitable one.
fn first_free(ledger: &Ledger, plan: &Outline, grant: &Grant, first: usize) -> Option<usize>
    requires inside { All (IsInside ledger.now.blocks) plan.now }
    requires first { position (is_suitable grant.now) plan.now ≡ Some first }
    ensures { result ≡ position (λ w. is_suitable grant.now w && is_free ledger.now w) plan.now }
{
    for at in first..plan.len() {
        if is_open(ledger, plan, at, grant) {
            return Some(at);
        }
    }
    None
}

/// Whether the watch at a place is suitable and free.
fn is_open(ledger: &Ledger, plan: &Outline, at: usize, grant: &Grant) -> bool
    requires at { at < length plan.now }
    requires inside { All (IsInside ledger.now.blocks) plan.now }
    ensures { result ≡ (is_suitable grant.now (watch_at plan.now at) && is_free ledger.now (watch_at plan.now at)) }
{
    is_suitable(plan, at, grant) && ledger.first_meeting(plan, at).is_none()
}
