// What is printed.
use crate::kinds::{Kind, Kinds};
use crate::plan::{Plan, SCHEDULES};
use crate::tally::Tally;
use crate::totals::{Compared, Totals};
use std::io;
use std::ops::RangeInclusive;

fn seen<const N: usize>(
    rt: &impl Print,
    name: &str,
    tally: &Tally<N>,
    numbers: RangeInclusive<usize>,
) -> io::Result<()> {
    print!(rt; "{name} seen")?;
    for k in numbers {
        print!(rt; " {k}:{}", tally.at(k))?;
    }
    println!(rt; "")
}

fn drains(rt: &impl Print, name: &str, kinds: &Kinds, nothing: Kind) -> io::Result<()> {
    let nothing = kinds.at(nothing);
    let something = kinds.at(Kind::Finds);
    println!(rt; "  {name}: finds nothing {nothing}, something {something}")
}

fn scans(rt: &impl Print, name: &str, kinds: &Kinds) -> io::Result<()> {
    let passes = kinds.at(Kind::Passes);
    let meets = kinds.at(Kind::Meets);
    let frees = kinds.at(Kind::Frees);
    print!(rt;
        "  scan that returns to {name}: look passes {passes}, meets {meets}, frees {frees}"
    )?;
    let leaves = kinds.at(Kind::Leaves);
    let displaces = kinds.at(Kind::Displaces);
    println!(rt; "; swap leaves {leaves}, displaces {displaces}")
}

fn steps(rt: &impl Print, t: &Totals) -> io::Result<()> {
    let publications = t.to_idle.at(Kind::Publishes);
    let protects = t.to_idle.at(Kind::Protects);
    let nothing = t.to_idle.at(Kind::Nothing);
    let loads = t.to_idle.at(Kind::Loads);
    println!(rt; "steps seen\n  publication {publications}")?;
    println!(rt;
        "  second read: protects {protects}, finds nothing {nothing}, loads again {loads}"
    )?;
    drains(rt, "drain", &t.to_idle, Kind::Drained)?;
    drains(rt, "sweep", &t.to_published, Kind::Swept)?;
    scans(rt, "idle", &t.to_idle)?;
    scans(rt, "Published", &t.to_published)
}

pub fn totals(rt: &impl Print, t: &Totals) -> io::Result<()> {
    println!(rt; "schedules {SCHEDULES}")?;
    println!(rt; "started {}", t.started)?;
    println!(rt; "answers compared {}", t.compared(Compared::Answer))?;
    println!(rt; "whole states compared {}", t.compared(Compared::State))?;
    println!(rt;
        "counts of the five places compared {}",
        t.compared(Compared::Count)
    )?;
    println!(rt; "store's answers compared {}", t.compared(Compared::Listed))?;
    println!(rt; "holdings compared {}", t.compared(Compared::Holding))?;
    seen(rt, "answers", &t.seen, 1..=11)?;
    seen(rt, "work", &t.work, 1..=7)?;
    seen(rt, "refusals", &t.seen, 19..=31)?;
    steps(rt, t)?;
    println!(rt;
        "changed states judged by both checks {}",
        t.compared(Compared::Changed)
    )?;
    println!(rt; "  sound {}\n  not sound {}", t.sound, t.unsound)?;
    println!(rt; "differences {}", t.differences)
}

// The schedule in its sizes and the word that leads to its calls.
pub fn plan(rt: &impl Print, plan: Plan) -> io::Result<()> {
    let sizes = plan.sizes;
    print!(rt;
        ", sizes {} {} {} {}, calls",
        sizes.threads, sizes.slots, sizes.links, sizes.objects
    )
}
