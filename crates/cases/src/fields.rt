// 23 for each operation and each field that it does not use; 24, 25, 26 and 31 for each operation; and beside them the call
// that is accepted, from which each of these is one step away.
use crate::case::Case;
use crate::line::{Field, Line};
use crate::stage::Doing;
use crate::table::Table;
use plain::Operation;

#[derive(Clone, Copy, Debug, PartialEq, Eq)]
enum Row {
    Unused(Field),
    Refused(Line),
    Accepted,
}

const ROWS: [Row; 8] = [
    Row::Unused(Field::Slot),
    Row::Unused(Field::Link),
    Row::Unused(Field::Tag),
    Row::Refused(Line::NoSuchSlot),
    Row::Refused(Line::NoSuchLink),
    Row::Refused(Line::Busy),
    Row::Refused(Line::NotProtected),
    Row::Accepted,
];

// What a thread that goes on is in the middle of while this field, which it does not use, is 1, and while it is its highest bit: another
// kind of doing in each of the six cases, all but the last two.
fn doings(field: Field) -> [Doing; 2] {
    match field {
        Field::Slot => [Doing::Loaded, Doing::Published],
        Field::Link => [Doing::Draining, Doing::Look],
        Field::Tag => [Doing::Swap, Doing::Sweeping],
    }
}

impl Row {
    fn due(self) -> Option<Line> {
        match self {
            Row::Unused(_) => Some(Line::UnusedNotZero),
            Row::Refused(line) => Some(line),
            Row::Accepted => None,
        }
    }

    fn speaks_of(self, operation: Operation) -> bool {
        match self {
            Row::Unused(field) => !field.is_used_by(Some(operation)),
            Row::Refused(line) => line.speaks_of(Some(operation)),
            Row::Accepted => true,
        }
    }

    // Where 26 is due, and where a go on is accepted, a case for each kind of doing. Otherwise one that is wrong by one and one by much;
    // of slots that are not protected, one of each kind. Of other calls that are accepted there is one, but of swap a second that goes
    // without a slot.
    fn count(self, table: &mut Table<8, 7>, place: usize, column: usize, operation: Operation) {
        let case = Case {
            due: self.due(),
            later: None,
            operation: operation as usize,
            far: false,
            unused: match self {
                Row::Unused(field) => field,
                _ => Field::Tag,
            },
            doing: Doing::Loaded,
        };
        match (self, operation) {
            (Row::Refused(Line::Busy), _) | (Row::Accepted, Operation::GoOn) => {
                for doing in Doing::BUSY {
                    table.count_each(place, column, move |z| Case { doing, ..case }.is_shown(z));
                }
            }
            (Row::Unused(field), Operation::GoOn) => {
                let [small, large] = doings(field);
                for (doing, far) in [(small, false), (large, true)] {
                    table.count_each(
                        place,
                        column,
                        move |z| Case { doing, far, ..case }.is_shown(z),
                    );
                }
            }
            (Row::Unused(_) | Row::Refused(_), _) | (Row::Accepted, Operation::Swap) => {
                for far in [false, true] {
                    table.count_each(place, column, move |z| Case { far, ..case }.is_shown(z));
                }
            }
            (Row::Accepted, _) => table.count_each(place, column, move |z| case.is_shown(z)),
        }
    }
}

// A column is the operation. A count is 24 × the cases.
pub fn table() -> Table<8, 7> {
    let mut table = Table::new(
        "refusals seen for operations 1 to 7: 23 for the slot, the link, the tag, 24, 25, 26, 31, and 0 accepted",
        ROWS.map(|row| row.due().map_or(0, |line| line as u8)),
    );
    for (place, row) in ROWS.iter().enumerate() {
        for (column, &operation) in Operation::ALL.iter().enumerate() {
            if row.speaks_of(operation) {
                row.count(&mut table, place, column, operation);
            }
        }
    }
    table
}
