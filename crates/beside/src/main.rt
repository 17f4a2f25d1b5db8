// Two machines and a plain store, run beside each other on many schedules and compared.
#![tactic(auto)]

mod change;
mod dice;
mod draw;
mod kinds;
mod plan;
mod run;
mod show;
mod tally;
mod totals;
mod traps;

use plan::Plan;
use std::io;
use totals::Totals;

fn main(rt: HostRuntime) -> io::Result<()> {
    let mut totals = Totals::new();
    for number in 0..plan::SCHEDULES {
        run::schedule(Plan::of(number), &mut totals);
    }
    show::totals(&rt, &totals)?;
    traps::all(&rt)
}
