// Cases that document 01 names and that drawn schedules meet seldom or never: each is built entry by entry, put through both
// machines, and held to what 01 asks for.
#![tactic(auto)]

mod case;
mod fields;
mod limits;
mod line;
mod order;
mod reasons;
mod setting;
mod stage;
mod table;

use std::io;

fn main(rt: HostRuntime) -> io::Result<()> {
    let order = order::table();
    let fields = fields::table();
    let limits = limits::table();
    let reasons = reasons::table();
    println!(rt; "{order}\n{fields}\n{limits}\n{reasons}")?;
    let differences = u64::from(order.differences)
        + u64::from(fields.differences)
        + u64::from(limits.differences)
        + u64::from(reasons.differences);
    println!(rt; "differences {differences}")
}
