// The traps, one at a time in the twin: the first schedule that it then answers differently from the first machine, and the
// first, of two threads that meet, in which it no longer holds or answers what the plain store does.
use crate::plan::{Plan, SCHEDULES};
use crate::{draw, show};
use plain::Said;
use std::io;
use store::Store;
use twin::{Trap, Twin};

// A trap and how it is called, and whether something is lost by it: nothing is by an early drain or sweep, which only leaves an
// object behind, nor by a protect that is not ended. So those three are not held to the store.
#[derive(Clone, Copy, Debug, PartialEq, Eq)]
struct Told {
    trap: Trap,
    name: &'static str,
    loses: bool,
}

const TRAPS: [Told; 7] = [
    Told {
        trap: Trap::MoveOn,
        name: "moving on after a swap",
        loses: true,
    },
    Told {
        trap: Trap::MarkEarly,
        name: "marking at publication",
        loses: true,
    },
    Told {
        trap: Trap::DrainEarly,
        name: "draining before the hazard is zeroed",
        loses: false,
    },
    Told {
        trap: Trap::FreeAtLast,
        name: "freeing at the last match of a scan",
        loses: true,
    },
    Told {
        trap: Trap::OthersOnly,
        name: "scanning only other threads' slots",
        loses: true,
    },
    Told {
        trap: Trap::IdleAfter,
        name: "idle after a sweep's scan",
        loses: false,
    },
    Told {
        trap: Trap::SweepEarly,
        name: "sweeping before the hazard is stored",
        loses: false,
    },
];

// A call of a schedule, from 0, and what a twin in no trap and one in a trap answer to it.
#[derive(Clone, Copy, Debug, PartialEq, Eq)]
struct Differs {
    call: usize,
    said: Said,
    trapped: Said,
}

// The first call of a schedule that the first machine and a twin in a trap answer differently. The calls are drawn for a twin in
// no trap.
fn difference(plan: Plan, trap: Trap) -> Option<Differs> {
    let mut state = plan.machine().state;
    let mut drawer = plan.twin_in_trap(None);
    let mut trapped = plan.twin_in_trap(Some(trap));
    for call in 0..plan.length {
        let order = draw::order(plan, call, &drawer);
        let out = state.step(compare::call(order));
        let drawn = drawer.step(order);
        let ours = trapped.step(order);
        if compare::said(out.answer) != ours.said {
            return Some(Differs {
                call,
                said: drawn.said,
                trapped: ours.said,
            });
        }
        state = out.state;
        drawer = drawn.twin;
        trapped = ours.twin;
    }
    None
}

// The first call of a schedule, drawn for a twin in a trap, after which it does not agree with the plain store.
fn loss(plan: Plan, trap: Trap) -> Option<usize> {
    let mut trapped = plan.twin_in_trap(Some(trap));
    let mut store = Store::bare(plan.sizes);
    for call in 0..plan.length {
        let order = draw::order(plan, call, &trapped);
        let ours = trapped.step(order);
        trapped = ours.twin;
        if store.hear(order, ours.said) == Some(false) || !store.holds(&trapped.raw()) {
            return Some(call);
        }
    }
    None
}

// The first schedule that shows something, and what it shows.
fn first<T, F: Fn(usize) -> Option<T>>(shown: F) -> Option<(usize, T)>
    requires { F.IsAlwaysCallable shown }
{
    (0..SCHEDULES).find_map(|number| shown(number).map(|found| (number, found)))
}

// The sizes of a schedule and its calls up to one, drawn for a twin.
fn calls(rt: &impl Print, plan: Plan, w: Twin, last: usize) -> io::Result<()> {
    show::plan(rt, plan)?;
    let mut drawer = w;
    for call in 0..=last {
        let order = draw::order(plan, call, &drawer);
        print!(rt; " {order};")?;
        drawer = drawer.step(order).twin;
    }
    println!(rt; "")
}

fn differ(rt: &impl Print, trap: Trap) -> io::Result<()> {
    let Some((number, found)) = first(|number| difference(Plan::of(number), trap)) else {
        return println!(rt; "  the machines answer the same");
    };
    let plan = Plan::of(number);
    print!(rt; "  the machines differ at the end of schedule {number}")?;
    calls(rt, plan, plan.twin_in_trap(None), found.call)?;
    let Differs { said, trapped, .. } = found;
    println!(rt; "    answer {said}, in the trap {trapped}")
}

fn lose(rt: &impl Print, trap: Trap) -> io::Result<()> {
    let Some((number, last)) = first(|number| loss(Plan::meeting(number), trap)) else {
        return println!(rt; "  the plain store is kept to");
    };
    let plan = Plan::meeting(number);
    print!(rt; "  the plain store is left at the end of meeting {number}")?;
    calls(rt, plan, plan.twin_in_trap(Some(trap)), last)
}

pub fn all(rt: &impl Print) -> io::Result<()> {
    for told in &TRAPS {
        println!(rt; "trap: {}", told.name)?;
        differ(rt, told.trap)?;
        if told.loses {
            lose(rt, told.trap)?;
        }
    }
    Ok(())
}
