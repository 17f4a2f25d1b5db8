// The readings of what a thread is in the middle of: whether it is idle, what it carries, where it scans and what it returns to.
#![tactic(auto, unfolding(crate::specs::Phases::is_idle, crate::specs::Phases::carried_by, crate::specs::Phases::scans_at, crate::specs::Phases::returns_to, crate::specs::Phases::looking, crate::specs::Phases::swapping))]

ghost use Rattle.std.specs.Prelude.{◌≡◌};
ghost use Rattle.entries.specs.Phases.{is_idle, carried_by, scans_at, returns_to, looking, swapping};

use crate::Phase;

impl Phase {
    pub fn is_idle(self) -> bool
        ensures { result ≡ is_idle self }
    {
        matches!(self, Phase::Idle)
    }

    // The object that the thread carries, or 0. This and the next are the two readings that the definitions have (`carried_by`, `scans_at`);
    // 0 is no object there too, and the position is asked only of a thread that carries one.
    pub fn carried(self) -> u8
        ensures { result ≡ carried_by self }
    {
        match self {
            Phase::Look { object, .. }
            | Phase::Swap { object, .. }
            | Phase::SweepLook { object, .. }
            | Phase::SweepSwap { object, .. } => object,
            _ => 0,
        }
    }

    // The position at which a thread that carries an object is in its scan.
    pub fn scan_position(self) -> u8
        ensures { result ≡ scans_at self }
    {
        match self {
            Phase::Look { position, .. }
            | Phase::Swap { position, .. }
            | Phase::SweepLook { position, .. }
            | Phase::SweepSwap { position, .. } => position,
            _ => 0,
        }
    }

    // What a thread becomes when its scan ends: a sweep's scan goes back to its protect.
    pub fn returns_to(self) -> Phase
        ensures { result ≡ returns_to self }
    {
        match self {
            Phase::SweepLook { slot, link, .. } | Phase::SweepSwap { slot, link, .. } => {
                Phase::Published { slot, link }
            }
            _ => Phase::Idle,
        }
    }

    // A scan that looks next at this position, and returns to this phase.
    pub fn looking(self, object: u8, position: u8) -> Phase
        ensures { result ≡ looking self object position }
    {
        match self {
            Phase::Published { slot, link } => Phase::SweepLook {
                object,
                position,
                slot,
                link,
            },
            _ => Phase::Look { object, position },
        }
    }

    // The same where the hazard there is the object. One function for both would take the two makers of a phase, and be longer than they are.
    pub fn swapping(self, object: u8, position: u8) -> Phase
        ensures { result ≡ swapping self object position }
    {
        match self {
            Phase::Published { slot, link } => Phase::SweepSwap {
                object,
                position,
                slot,
                link,
            },
            _ => Phase::Swap { object, position },
        }
    }
}
