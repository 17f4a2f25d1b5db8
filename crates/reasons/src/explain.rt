// The one reason for which an object is kept, for any state and any number.
ghost use Rattle.std.specs.Prelude.{◌≡◌, None};
ghost use Rattle.reasons.specs.Reasons.{reason_of, refusal_of, checked_of, why_of};

use crate::hazards::{first_hazard, guard_of};
use crate::{Kept, NotKept, Reason};
use machine::State;

// "Refusals: 19, then 60 object not 1 to N, then 61 object is free."
#[tactic(auto, unfolding(crate::specs::Reasons::checked_of, crate::specs::Reasons::refusal_of, crate::specs::Reasons::refusals, basics::specs::Rows::first_of))]
fn check(state: State, object: u8) -> Result<(), NotKept>
    ensures { result ≡ checked_of state object }
{
    if !state.is_sound() {
        return Err(NotKept::Unsound);
    }
    if !(1..=state.sizes.objects).contains(&object) {
        return Err(NotKept::NoSuchObject);
    }
    if state.pool.is_free(object) {
        return Err(NotKept::Free);
    }
    Ok(())
}

// The place of an object that is in one of the four.
fn reason_of(state: State, object: u8) -> Reason
    requires { refusal_of state object ≡ None }
    ensures { result ≡ reason_of state object }
{
    let State {
        sizes,
        links,
        threads,
        slots,
        ..
    } = state;
    if let Some((link, _)) = (0..sizes.links)
        .zip(&links)
        .find(|&(_, &held)| held == object)
    {
        return Reason::Link { link };
    }
    if let Some((thread, _)) = (0..sizes.threads)
        .zip(&threads)
        .find(|(_, thread)| thread.hand == object)
    {
        return Reason::Hand { thread };
    }
    let carrier = (0..sizes.threads)
        .zip(&threads)
        .find(|(_, thread)| thread.phase.carried() == object);
    if let Some((thread, carrier)) = carrier {
        let position = carrier.phase.scan_position();
        return Reason::Carried { thread, position };
    }
    // it is in none of the first three, so it is in the last: every object of a sound state that is not free is in one of the four
    let positions = sizes.threads * sizes.slots;
    let left_with = (0..positions)
        .zip(&slots)
        .find(|(_, slot)| slot.handover == object);
    let (position, slot) = left_with.unwrap();
    let guard = guard_of(*slot, object);
    Reason::Handover { position, guard }
}

// Names the one reason for which an object of the state is kept, and the first position in scan order that holds it as a hazard.
pub fn why(state: State, object: u8) -> Result<Kept, NotKept>
    ensures { result ≡ why_of state object }
{
    check(state, object)?;
    Ok(Kept {
        reason: reason_of(state, object),
        hazard: first_hazard(state.sizes, state.slots, object),
    })
}
