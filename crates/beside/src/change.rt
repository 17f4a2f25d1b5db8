// States made from reachable ones by changing a few fields: sound or not, by both checks, and one call on each.
use crate::dice::Seed;
use crate::draw;
use crate::plan::Plan;
use crate::totals::{Compared, Totals};
use entries::{Phase, Sizes};
use machine::State;

// In range, and one in eight times one past it.
fn near(seed: Seed, k: usize, size: u8) -> u8 {
    if seed.once_in(k ^ 64, 8) {
        return size;
    }
    plain::byte(seed.pick(k, usize::from(size)))
}

// What carries an object: of the positions, T × H and one past it too.
fn carrying(seed: Seed, z: Sizes, object: u8) -> Phase {
    let slot = near(seed, 11, z.slots);
    let link = near(seed, 12, z.links);
    let position = plain::byte(seed.pick(14, positions(z).saturating_add(2)));
    match seed.pick(16, 4) {
        0 => Phase::Look { object, position },
        1 => Phase::Swap { object, position },
        2 => Phase::SweepLook {
            object,
            position,
            slot,
            link,
        },
        _ => Phase::SweepSwap {
            object,
            position,
            slot,
            link,
        },
    }
}

fn phase(seed: Seed, z: Sizes) -> Phase {
    let slot = near(seed, 11, z.slots);
    let link = near(seed, 12, z.links);
    let object = near(seed, 13, z.objects);
    match seed.pick(15, 9) {
        0 => Phase::Idle,
        1 | 2 => Phase::Loaded { slot, link, object },
        3 | 4 => Phase::Published { slot, link },
        5 => Phase::Draining { slot },
        6 => Phase::Sweeping { slot, link },
        _ => carrying(seed, z, object),
    }
}

// Up to one past the size, and now and then anywhere.
fn index(seed: Seed, k: usize, size: usize, most: usize) -> usize {
    let below = if seed.once_in(k ^ 64, 16) { most } else { size };
    seed.pick(k, below)
}

// T × H, where H is at most 4.
fn positions(z: Sizes) -> usize {
    usize::from(z.threads) * usize::from(z.slots.min(4))
}

fn change_link(seed: Seed, s: &mut State) {
    let z = s.sizes;
    if let Some(link) = s.links.get_mut(index(seed, 1, usize::from(z.links), 16)) {
        *link = plain::byte(if seed.once_in(4, 4) {
            seed.pick(2, 242)
        } else {
            seed.pick(3, usize::from(z.objects))
        });
    }
}

fn change_thread(seed: Seed, s: &mut State) {
    let z = s.sizes;
    if let Some(thread) = s.threads.get_mut(index(seed, 1, usize::from(z.threads), 8)) {
        if seed.once_in(5, 4) {
            thread.hand = plain::byte(seed.pick(6, usize::from(z.objects)));
        } else {
            thread.phase = phase(seed, z);
        }
    }
}

fn change_slot(seed: Seed, s: &mut State) {
    let z = s.sizes;
    let close = usize::from(z.objects);
    if let Some(slot) = s.slots.get_mut(index(seed, 1, positions(z), 32)) {
        match seed.pick(2, 8) {
            0..=2 => slot.hazard = plain::byte(seed.pick(4, close)),
            3 => slot.hazard = plain::byte(seed.pick(3, 242)),
            4 | 5 => slot.mark = !slot.mark,
            6 => slot.handover = plain::byte(seed.pick(4, close)),
            _ => {}
        }
    }
}

fn change_object(seed: Seed, s: &mut State) {
    let i = index(seed, 1, usize::from(s.sizes.objects), 240);
    if let Some(tag) = s.tags.get_mut(i) {
        if seed.once_in(2, 3) {
            let object = plain::byte(i + 1);
            s.pool = if s.pool.is_free(object) {
                s.pool.take_out(object)
            } else {
                s.pool.put_back(object)
            };
        } else {
            *tag = seed.mix(3).0;
        }
    }
}

// An object, where it is one to 240 and free.
fn some_free(seed: Seed, s: &State) -> Option<u8> {
    let i = seed.pick(1, usize::from(s.sizes.objects));
    let object = plain::byte(i.saturating_add(1));
    (i < 240 && s.pool.is_free(object)).then_some(object)
}

// One free object goes to an empty link: a sound state gives a sound one.
fn move_free(seed: Seed, s: &mut State) {
    let l = seed.pick(2, usize::from(s.sizes.links));
    if let Some(object) = some_free(seed, s)
        && let Some(link) = s.links.get_mut(l)
        && *link == 0
    {
        *link = object;
        s.pool = s.pool.take_out(object);
    }
}

// One free object goes to an idle thread that then carries it: a sound state gives a sound one, unless a number of the phase is
// out of range.
fn carry_free(seed: Seed, s: &mut State) {
    let z = s.sizes;
    let t = seed.pick(2, usize::from(z.threads));
    if let Some(object) = some_free(seed, s)
        && let Some(thread) = s.threads.get_mut(t)
        && thread.phase == Phase::Idle
    {
        thread.phase = carrying(seed, z, object);
        s.pool = s.pool.take_out(object);
    }
}

// What a link holds goes to a handover that is empty: a sound state gives a sound one.
fn move_link(seed: Seed, s: &mut State) {
    let z = s.sizes;
    let l = seed.pick(1, usize::from(z.links));
    let p = seed.pick(2, positions(z));
    if let Some(link) = s.links.get_mut(l)
        && let Some(slot) = s.slots.get_mut(p)
        && slot.handover == 0
    {
        slot.handover = *link;
        *link = 0;
    }
}

fn change_size(seed: Seed, s: &mut State) {
    match seed.pick(1, 5) {
        0 => s.sizes.threads = plain::byte(seed.pick(2, 10)),
        1 => s.sizes.slots = plain::byte(seed.pick(2, 6)),
        2 => s.sizes.links = plain::byte(seed.pick(2, 18)),
        3 => s.sizes.objects = plain::byte(seed.pick(2, 256)),
        _ => s.sizes = Sizes::default(),
    }
}

fn change(seed: Seed, s: &mut State) {
    match seed.pick(0, 16) {
        0 => change_link(seed, s),
        1 | 2 => change_thread(seed, s),
        3..=5 => change_slot(seed, s),
        6 | 7 => change_object(seed, s),
        8 => change_size(seed, s),
        9..=11 => move_free(seed, s),
        12 | 13 => carry_free(seed, s),
        _ => move_link(seed, s),
    }
}

// Both checks on a state after one to three changes, and then a call and a count.
pub fn judged(plan: Plan, at: usize, reached: State, totals: &mut Totals) {
    let seed = plan.seed.mix(at ^ 512);
    let mut s = reached;
    for k in (21..24).take(seed.pick(20, 3).saturating_add(1)) {
        change(seed.mix(k), &mut s);
    }
    let w = twin::of(&compare::raw(s));
    let order = draw::order(plan, at ^ 256, &w);
    let both = compare::called(s, order);
    totals.soundness(both.sound, both.checks);
    totals.answer(both.said);
    totals.compare(Compared::Answer, both.answers);
    totals.compare(Compared::State, both.states);
    totals.compare(Compared::Count, both.counts);
}
