// Starting at both sides of both limits of each size, the three others at their limits.
use crate::setting::{Side, Size};
use crate::table::Table;
use plain::{Raw, Sizes};
use twin::Refusal;

// "Starting with a size out of range is refused 20 and returns the blank state."
fn is_shown(sizes: Sizes, inside: bool) -> bool {
    let due = if inside { None } else { Some(20) };
    let theirs = compare::start(sizes);
    let ours = twin::start(sizes);
    let raw = compare::raw(theirs.state);
    compare::refused(theirs.verdict) == due
        && ours.refused.map(Refusal::number) == due
        && raw == ours.twin.raw()
        && (raw == Raw::EMPTY) != inside
}

// A row is a size, a column its side. A count is that of the others' limits, 2 × 2 × 2.
pub fn table() -> Table<4, 4> {
    let mut table = Table::new(
        "sizes T to 8, H to 4, L to 16, N to 240 seen: 0 refused, 1 started, the most started, one more refused",
        Size::ALL.map(Size::most),
    );
    for (row, &size) in Size::ALL.iter().enumerate() {
        for (column, &side) in Side::ALL.iter().enumerate() {
            for a in Side::LIMITS {
                for b in Side::LIMITS {
                    for c in Side::LIMITS {
                        let [t, h, l, n] = match size {
                            Size::Threads => [side, a, b, c],
                            Size::Slots => [a, side, b, c],
                            Size::Links => [a, b, side, c],
                            Size::Objects => [a, b, c, side],
                        };
                        let sizes = Sizes {
                            threads: Size::Threads.at(t),
                            slots: Size::Slots.at(h),
                            links: Size::Links.at(l),
                            objects: Size::Objects.at(n),
                        };
                        table.count(row, column, is_shown(sizes, Side::LIMITS.contains(&side)));
                    }
                }
            }
        }
    }
    table
}
