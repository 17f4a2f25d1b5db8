// The order of the refusals: "The first that applies is given, in this order". Each that can be given while a later one applies
// too, for every operation of which both speak.
//
// 21 is never met with 26 or 28: beyond the sizes of a sound state a thread is idle and its hand is empty. The other pairs that
// are never met speak of no operation in common.
use crate::case::Case;
use crate::line::{Field, Line};
use crate::stage::Doing;
use crate::table::Table;
use plain::Operation;

// Whether both can apply. An operation that is none comes with 22 alone.
fn meet(due: Line, later: Line, operation: Option<Operation>) -> bool {
    let known = operation.is_some()
        || due == Line::NoSuchOperation
        || later == Line::NoSuchOperation;
    let beyond = due == Line::NoSuchThread && matches!(later, Line::Busy | Line::HandFull);
    due.speaks_of(operation) && later.speaks_of(operation) && known && !beyond
}

// A row is the one that is due, a column the later one. Each is counted once for an operation and a setting, so that a count is
// 24 × the operations of which both speak. 0 and 8 stand for those that are none. Take has a slot that it does not use, all others
// a tag.
pub fn table() -> Table<12, 12> {
    let mut table = Table::new(
        "refusals seen while a later one applied too: 19 21 22 23 24 25 26 27 28 29 31 30",
        Line::ALL.map(|line| line as u8),
    );
    for (row, &due) in Line::ALL.iter().enumerate() {
        for (column, &later) in Line::ALL.iter().enumerate().skip(row + 1) {
            for operation in 0..=8 {
                let known = Operation::try_from(operation).ok();
                if meet(due, later, known) {
                    let take = known == Some(Operation::Take);
                    let pair = Case {
                        due: Some(due),
                        later: Some(later),
                        operation,
                        far: false,
                        unused: if take { Field::Slot } else { Field::Tag },
                        doing: if take { Doing::Loaded } else { Doing::Swap },
                    };
                    table.count_each(row, column, |z| pair.is_shown(z));
                }
            }
        }
    }
    table
}
