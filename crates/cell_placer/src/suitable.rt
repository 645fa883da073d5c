//! Which watches of a handset suit a grant.
ghost use Rattle.std.specs.Prelude.{◌≡◌, ◌<◌, bytes_eq, length, position};
ghost use Rattle.monitor_plan.specs.Watch.{watch_at};
ghost use Rattle.cell_placer.specs.Suitable.{is_asked, is_suitable};

use crate::member::Member;
use grant_file::Grant;
use monitor_plan::Outline;
use rrc_settings::Name;

/// The place of the handset that has the name.
pub(crate) fn handset_of(members: &[Member], name: &Name) -> Option<usize>
    ensures { result ≡ position (λ m. bytes_eq m.name name.now) members.now }
{
    members.iter().position(|member| member.name == *name)
}

/// The place of the first suitable watch.
pub(crate) fn first_suitable(plan: &Outline, grant: &Grant) -> Option<usize>
    ensures { result ≡ position (is_suitable grant.now) plan.now }
{
    for at in 0..plan.len() {
        if is_suitable(plan, at, grant) {
            return Some(at);
        }
    }
    None
}

/// Whether the watch at a place is of the grant's set and level, the grant's format fits it, and it has the candidate and the
/// symbol that are asked for.
pub(crate) fn is_suitable(plan: &Outline, at: usize, grant: &Grant) -> bool
    requires { at < length plan.now }
    ensures { result ≡ is_suitable grant.now (watch_at plan.now at) }
{
    plan.set(at) == grant.set
        && u16::from(plan.level(at)) == grant.level
        && plan.fits(at, grant.format)
        && is_asked(grant.candidate, u16::from(plan.candidate(at)))
        && is_asked(grant.symbol, u16::from(plan.symbol(at)))
}

/// Whether a number is the one that is asked for, where one is.
fn is_asked(asked: Option<u16>, number: u16) -> bool
    ensures { result ≡ is_asked asked number }
{
    match asked {
        None => true,
        Some(asked) => number == asked,
    }
}
