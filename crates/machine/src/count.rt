// The count of the five places: "objects free, in links, in hands, in handovers, carried".
ghost use Rattle.std.specs.Prelude.{◌≡◌};
ghost use Rattle.machine.specs.Count.{count_of};

use crate::soundness::parts_sound;
use crate::{Counted, Places, Refusal, State};
use places::{are_carried, in_handovers, in_hands, in_links};

impl State {
    // "The count of the five places on an unsound state is refused 19 with five zeros."
    pub fn count(self) -> Counted
        ensures { result ≡ count_of self }
    {
        // The parts are passed as in `is_sound`, and not by a call of it: with two callers the check is not compiled into one of them, where
        // what it is lent would be copied.
        if !parts_sound(
            self.sizes,
            &self.links,
            self.threads,
            self.slots,
            &self.pool.marks,
            &self.tags,
        ) {
            return Counted {
                places: Places::default(),
                verdict: Err(Refusal::Unsound),
            };
        }
        let places = Places {
            free: self.pool.count(),
            links: in_links(self.links),
            hands: in_hands(self.threads),
            handovers: in_handovers(self.slots),
            carried: are_carried(self.threads),
        };
        Counted {
            places,
            verdict: Ok(()),
        }
    }
}
