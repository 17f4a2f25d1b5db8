// What the cases showed, in rows and columns, and how it is printed.
use crate::setting::Setting;
use std::fmt;

// How many cases were run, and in how many what is due was seen.
#[derive(Clone, Copy, Debug, PartialEq, Eq)]
struct Count {
    tried: u32,
    seen: u32,
}

// `names` has the number that stands before each row. `differences` counts the cases, in any place, in which what is due was not
// seen.
#[derive(Clone, Copy)]
pub struct Table<const ROWS: usize, const COLUMNS: usize> {
    header: &'static str,
    names: [u8; ROWS],
    counts: [[Count; COLUMNS]; ROWS],
    pub differences: u32,
}

impl Count {
    const NONE: Count = Count { tried: 0, seen: 0 };
}

impl<const ROWS: usize, const COLUMNS: usize> Table<ROWS, COLUMNS> {
    pub fn new(header: &'static str, names: [u8; ROWS]) -> Self {
        Table {
            header,
            names,
            counts: [[Count::NONE; COLUMNS]; ROWS],
            differences: 0,
        }
    }

    // One more case. One that has no place in the table is a difference.
    pub fn count(&mut self, row: usize, column: usize, shown: bool) {
        if let Some(counts) = self.counts.get_mut(row)
            && let Some(count) = counts.get_mut(column)
        {
            count.tried = count.tried.saturating_add(1);
            if shown {
                count.seen = count.seen.saturating_add(1);
                return;
            }
        }
        self.differences = self.differences.saturating_add(1);
    }

    // A case in each of 24 settings: T from 2 to 7 and H from 1 to 4, so that there is an entry beyond each of them and a second
    // one of each kind.
    pub(crate) fn count_each<F: Fn(Setting) -> bool>(&mut self, row: usize, column: usize, shows: F)
        requires { F.IsAlwaysCallable shows }
    {
        for threads in 2..=7 {
            for slots in 1..=4 {
                self.count(row, column, shows(Setting::of(threads, slots)));
            }
        }
    }
}

// A dash where there is no case.
impl fmt::Display for Count {
    fn fmt<W: fmt::Write>(&self, f: &mut fmt::Formatter<W>) -> fmt::Result {
        if self.tried == 0 {
            write!(f, "-")
        } else {
            write!(f, "{}", self.seen)
        }
    }
}

impl<const ROWS: usize, const COLUMNS: usize> fmt::Display for Table<ROWS, COLUMNS> {
    fn fmt<W: fmt::Write>(&self, f: &mut fmt::Formatter<W>) -> fmt::Result {
        write!(f, "{}", self.header)?;
        for (name, counts) in self.names.iter().zip(&self.counts) {
            write!(f, "\n  {name}:")?;
            for count in counts {
                write!(f, " {count}")?;
            }
        }
        Ok(())
    }
}
