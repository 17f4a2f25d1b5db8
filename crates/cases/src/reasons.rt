// 01's sentence on soundness, with what request 2 adds to it, clause by clause: for each reason a state that is unsound for it
// alone, and its sound neighbour.
use crate::setting::{Setting, Side, Size};
use crate::stage::{Doing, Named, Stage};
use crate::table::Table;
use entries::Phase;
use machine::State;
use plain::Operation;

#[derive(Clone, Copy, Debug, PartialEq, Eq)]
enum Place {
    Link,
    Hand,
    Handover,
    Carried,
}

// The number of a phase that is wrong.
#[derive(Clone, Copy, Debug, PartialEq, Eq)]
enum Wrong {
    Slot,
    Link,
    ObjectAbove,
    NoObject,
    Position,
}

#[derive(Clone, Copy, Debug, PartialEq, Eq)]
enum Entry {
    Link,
    Hand,
    Phase,
    Hazard,
    Mark,
    Handover,
    FreeMark,
    Tag,
}

#[derive(Clone, Copy, Debug, PartialEq, Eq)]
enum Reason {
    Below(Size),
    Above(Size),
    Object(Place),
    Hazard,
    Phase(Doing, Wrong),
    Beyond(Entry),
    Moved(Place),
    MarkOnNone,
    Nowhere,
    FreeAnd(Place),
    Two(Place, Place),
    Blank(Entry),
}

// In the rows of the table.
const REASONS: [&[Reason]; 10] = [
    &[
        Reason::Below(Size::Threads),
        Reason::Above(Size::Threads),
        Reason::Below(Size::Slots),
        Reason::Above(Size::Slots),
        Reason::Below(Size::Links),
        Reason::Above(Size::Links),
        Reason::Below(Size::Objects),
        Reason::Above(Size::Objects),
    ],
    &[
        Reason::Object(Place::Link),
        Reason::Object(Place::Hand),
        Reason::Object(Place::Handover),
        Reason::Hazard,
        Reason::Phase(Doing::Loaded, Wrong::Slot),
        Reason::Phase(Doing::Loaded, Wrong::Link),
        Reason::Phase(Doing::Loaded, Wrong::ObjectAbove),
        Reason::Phase(Doing::Published, Wrong::Slot),
    ],
    &[
        Reason::Phase(Doing::Published, Wrong::Link),
        Reason::Phase(Doing::Draining, Wrong::Slot),
        Reason::Phase(Doing::Look, Wrong::ObjectAbove),
        Reason::Phase(Doing::Look, Wrong::NoObject),
        Reason::Phase(Doing::Look, Wrong::Position),
        Reason::Phase(Doing::Swap, Wrong::ObjectAbove),
        Reason::Phase(Doing::Swap, Wrong::NoObject),
        Reason::Phase(Doing::Swap, Wrong::Position),
    ],
    &[
        Reason::Phase(Doing::Sweeping, Wrong::Slot),
        Reason::Phase(Doing::Sweeping, Wrong::Link),
        Reason::Phase(Doing::SweepLook, Wrong::ObjectAbove),
        Reason::Phase(Doing::SweepLook, Wrong::NoObject),
        Reason::Phase(Doing::SweepLook, Wrong::Position),
        Reason::Phase(Doing::SweepLook, Wrong::Slot),
        Reason::Phase(Doing::SweepLook, Wrong::Link),
        Reason::Phase(Doing::SweepSwap, Wrong::ObjectAbove),
    ],
    &[
        Reason::Phase(Doing::SweepSwap, Wrong::NoObject),
        Reason::Phase(Doing::SweepSwap, Wrong::Position),
        Reason::Phase(Doing::SweepSwap, Wrong::Slot),
        Reason::Phase(Doing::SweepSwap, Wrong::Link),
    ],
    &[
        Reason::Beyond(Entry::Link),
        Reason::Beyond(Entry::Hand),
        Reason::Beyond(Entry::Phase),
        Reason::Beyond(Entry::Hazard),
        Reason::Beyond(Entry::Mark),
        Reason::Beyond(Entry::Handover),
        Reason::Beyond(Entry::FreeMark),
        Reason::Beyond(Entry::Tag),
    ],
    &[
        Reason::Moved(Place::Link),
        Reason::Moved(Place::Hand),
        Reason::Moved(Place::Handover),
        Reason::Moved(Place::Carried),
        Reason::MarkOnNone,
        Reason::Nowhere,
    ],
    &[
        Reason::FreeAnd(Place::Link),
        Reason::FreeAnd(Place::Hand),
        Reason::FreeAnd(Place::Handover),
        Reason::FreeAnd(Place::Carried),
        Reason::Two(Place::Link, Place::Link),
        Reason::Two(Place::Link, Place::Hand),
        Reason::Two(Place::Link, Place::Handover),
        Reason::Two(Place::Link, Place::Carried),
    ],
    &[
        Reason::Two(Place::Hand, Place::Hand),
        Reason::Two(Place::Hand, Place::Handover),
        Reason::Two(Place::Hand, Place::Carried),
        Reason::Two(Place::Handover, Place::Handover),
        Reason::Two(Place::Handover, Place::Carried),
        Reason::Two(Place::Carried, Place::Carried),
    ],
    &[
        Reason::Blank(Entry::Link),
        Reason::Blank(Entry::Hand),
        Reason::Blank(Entry::Phase),
        Reason::Blank(Entry::Hazard),
        Reason::Blank(Entry::Mark),
        Reason::Blank(Entry::Handover),
        Reason::Blank(Entry::FreeMark),
        Reason::Blank(Entry::Tag),
    ],
];

impl Place {
    // An object in the place of this kind that has a number.
    fn put(self, s: Stage, at: usize, object: usize) -> Stage {
        match self {
            Place::Link => s.link(at, object),
            Place::Hand => s.thread(at, object, Phase::Idle),
            Place::Handover => s.slot(at, 0, false, object),
            Place::Carried => {
                let phase = Phase::Look {
                    object: plain::byte(object),
                    position: 0,
                };
                s.thread(at, 0, phase)
            }
        }
    }
}

// Every `of_..` below gives a reason of its clause: the unsound state where `bad`, and otherwise its neighbour.

// "its sizes are in range": T, H, L and N, each below and above. With N at 0 nothing is free; with N at 241 object 241, which
// has no mark, is in a link.
fn of_size(z: Setting, size: Size, limit: Side, past: Side, bad: bool) -> Stage {
    let good = Stage::fresh(z.with(size, size.at(limit)));
    if !bad {
        return good;
    }
    let s = good.resized(z.with(size, size.at(past)));
    match (size, past) {
        (Size::Objects, Side::Above) => s.link(0, 241),
        (Size::Objects, _) => s.taken(1),
        _ => s,
    }
}

// N, or where `bad` one above it.
fn highest(z: Setting, bad: bool) -> usize {
    z.sizes.objects.saturating_add(usize::from(bad))
}

// "all numbers above are in range": what is in a link, a hand, a handover, a hazard.
fn of_object(z: Setting, place: Place, bad: bool) -> Stage {
    let object = highest(z, bad);
    place.put(Stage::fresh(z).taken(object), 0, object)
}

fn of_hazard(z: Setting, bad: bool) -> Stage {
    Stage::fresh(z).slot(0, highest(z, bad), false, 0)
}

// The same of what a thread is in the middle of: Loaded's slot, link and object, Published's slot and link, Draining's slot;
// Look's object above N, its object 0, its position; and Swap's three. Then, of request 2's "both are in range", Sweeping's slot
// and link, and for its Look and its Swap those three, slot and link.
fn of_phase(z: Setting, doing: Doing, wrong: Wrong, bad: bool) -> Stage {
    let last = z.last();
    let mut named = Named {
        slot: last.slot,
        link: last.link,
        object: z.sizes.objects,
        position: if doing.looks() {
            z.sizes.positions()
        } else {
            last.position
        },
    };
    if bad {
        match wrong {
            Wrong::Slot => named.slot = z.sizes.slots,
            Wrong::Link => named.link = z.sizes.links,
            Wrong::ObjectAbove => named.object = highest(z, true),
            Wrong::NoObject => named.object = 0,
            Wrong::Position => named.position = named.position.saturating_add(1),
        }
    }
    let fresh = Stage::fresh(z);
    let s = if doing.carries() {
        fresh.taken(named.object)
    } else {
        fresh
    };
    s.thread(last.thread, 0, doing.phase(named))
}

// "entries beyond the sizes are 0, idle or unmarked": the first link, hand, phase, hazard, mark, handover, free mark and tag
// beyond. No object is there, so that none is in two places. A mark there is on a hazard that has to be 0 too.
fn of_beyond(z: Setting, entry: Entry, bad: bool) -> Stage {
    let s = Stage::fresh(z);
    let above = highest(z, true);
    if !bad {
        return s;
    }
    match entry {
        Entry::Link => s.link(z.sizes.links, above),
        Entry::Hand => s.thread(z.sizes.threads, above, Phase::Idle),
        Entry::Phase => s.thread(z.sizes.threads, 0, Phase::Draining { slot: 0 }),
        Entry::Hazard => s.slot(z.sizes.positions(), 1, false, 0),
        Entry::Mark => s.slot(z.sizes.positions(), 0, true, 0),
        Entry::Handover => s.slot(z.sizes.positions(), 0, false, above),
        Entry::FreeMark => s.freed(above),
        Entry::Tag => s.tag(above),
    }
}

// The same for an object that is nowhere else: in a link, a hand, a handover beyond the sizes, or carried by a thread beyond.
fn of_moved(z: Setting, place: Place, bad: bool) -> Stage {
    let size = match place {
        Place::Link => z.sizes.links,
        Place::Hand | Place::Carried => z.sizes.threads,
        Place::Handover => z.sizes.positions(),
    };
    let at = if bad { size } else { size.saturating_sub(1) };
    place.put(Stage::fresh(z).taken(1), at, 1)
}

// "a protected mark stands only on a hazard that is not 0".
fn of_mark(z: Setting, bad: bool) -> Stage {
    Stage::fresh(z).slot(z.last().position, usize::from(!bad), true, 0)
}

// "every object 1 to N is in exactly one place": in none.
fn of_none(z: Setting, bad: bool) -> Stage {
    let s = Stage::fresh(z);
    if bad { s.taken(1) } else { s }
}

// In two places: free and in a link, a hand, a handover, carried; in a link and each of those; in a hand and a hand, a handover,
// carried; in a handover and a handover, carried; carried twice. The second is the second of its kind.
fn of_two(s: Stage, other: Place, bad: bool) -> Stage {
    if bad { other.put(s, 1, 1) } else { s }
}

impl Reason {
    fn state(self, z: Setting, bad: bool) -> State {
        let stage = match self {
            Reason::Below(size) => of_size(z, size, Side::Lowest, Side::Below, bad),
            Reason::Above(size) => of_size(z, size, Side::Highest, Side::Above, bad),
            Reason::Object(place) => of_object(z, place, bad),
            Reason::Hazard => of_hazard(z, bad),
            Reason::Phase(doing, wrong) => of_phase(z, doing, wrong, bad),
            Reason::Beyond(entry) => of_beyond(z, entry, bad),
            Reason::Moved(place) => of_moved(z, place, bad),
            Reason::MarkOnNone => of_mark(z, bad),
            Reason::Nowhere => of_none(z, bad),
            Reason::FreeAnd(other) => of_two(Stage::fresh(z), other, bad),
            Reason::Two(one, other) => {
                of_two(one.put(Stage::fresh(z).taken(1), 0, 1), other, bad)
            }
            // "The blank state, all sizes and entries 0, idle and unmarked, is sound too."
            Reason::Blank(entry) => of_beyond(Setting::BLANK, entry, bad),
        };
        stage.state
    }

    // Both checks, all seven calls and the count.
    fn is_shown(self, z: Setting, bad: bool) -> bool {
        let s = self.state(z, bad);
        Operation::ALL.iter().all(|&operation| {
            let both = compare::called(s, z.call(operation as usize));
            both.agree() && both.sound != bad && (both.said.number == 19) == bad
        })
    }

    // In each of the settings, but the blank state once.
    fn count(self, table: &mut Table<10, 16>, row: usize, column: usize, bad: bool) {
        if matches!(self, Reason::Blank(_)) {
            table.count(row, column, self.is_shown(Setting::of(2, 1), bad));
        } else {
            table.count_each(row, column, move |z| self.is_shown(z, bad));
        }
    }
}

// Of two columns, the first has the unsound states and the second their neighbours.
pub fn table() -> Table<10, 16> {
    let mut table = Table::new(
        "states seen that are unsound for one reason, each before its sound neighbours
  1 T below, above, H below, above, L below, above, N below, above
  2 above N in a link, a hand, a handover, a hazard; Loaded's slot, link, object; Published's slot
  3 Published's link; Draining's slot; Look's object above N, object 0, position; Swap's object above N, object 0, position
  4 Sweeping's slot, link; its Look's object above N, object 0, position, slot, link; its Swap's object above N
  5 its Swap's object 0, position, slot, link
  6 beyond the sizes a link, a hand, a phase, a hazard, a mark, a handover, a free mark, a tag
  7 an object beyond the sizes in a link, a hand, a handover, carried; a mark on 0; an object nowhere
  8 an object free and in a link, a hand, a handover, carried; in a link and a link, a hand, a handover, carried
  9 in a hand and a hand, a handover, carried; in a handover and a handover, carried; carried twice
  10 blank but for a link, a hand, a phase, a hazard, a mark, a handover, a free mark, a tag",
        [1, 2, 3, 4, 5, 6, 7, 8, 9, 10],
    );
    for (row, reasons) in REASONS.iter().enumerate() {
        let columns = (0..16).step_by(2).zip((1..16).step_by(2));
        for (&reason, (unsound, sound)) in reasons.iter().zip(columns) {
            reason.count(&mut table, row, unsound, true);
            reason.count(&mut table, row, sound, false);
        }
    }
    table
}
