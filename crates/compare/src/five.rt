// The counts of the five places, by both machines.
use crate::numbers;
use machine::State;
use twin::{Counts, Twin};

#[derive(Clone, Copy, Debug, PartialEq, Eq)]
pub struct Five {
    pub counts: Counts,
    pub refused: Option<usize>,
}

impl Five {
    // "The count of the five places on an unsound state is refused 19 with five zeros."
    pub const REFUSED: Five = Five {
        counts: Counts::NONE,
        refused: Some(19),
    };

    pub fn of_first(state: State) -> Five {
        let counted = state.count();
        let places = counted.places;
        Five {
            counts: Counts {
                free: usize::from(places.free),
                links: usize::from(places.links),
                hands: usize::from(places.hands),
                handovers: usize::from(places.handovers),
                carried: usize::from(places.carried),
            },
            refused: numbers::refused(counted.verdict),
        }
    }

    pub fn of_twin(twin: &Twin) -> Five {
        Five {
            counts: twin.counts(),
            refused: None,
        }
    }
}
