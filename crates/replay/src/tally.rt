// How many calls were made and how many differ, as the program prints it.
use crate::difference::Difference;
use std::fmt;

#[derive(Clone, Copy, Default)]
pub struct Tally {
    calls: u64,
    differ: u64,
    first: Option<First>,
    // The line where the list is malformed or ended early.
    malformed: Option<usize>,
}

// The first call that differs.
#[derive(Clone, Copy)]
struct First {
    line: usize,
    difference: Difference,
}

impl Tally {
    // The call of this line was made.
    pub fn count(&mut self, line: usize, difference: Option<Difference>) {
        self.calls = self.calls.saturating_add(1);
        if let Some(difference) = difference {
            self.differ = self.differ.saturating_add(1);
            self.first = self.first.or(Some(First { line, difference }));
        }
    }

    // The list's end, where it is malformed at this line.
    pub fn malformed_at(self, line: usize) -> Tally {
        Tally {
            malformed: Some(line),
            ..self
        }
    }
}

impl fmt::Display for Tally {
    fn fmt<W: fmt::Write>(&self, f: &mut fmt::Formatter<W>) -> fmt::Result {
        let Tally {
            calls,
            differ,
            first,
            malformed,
        } = self;
        writeln!(f, "{calls} calls, {differ} differ")?;
        if let Some(First { line, difference }) = first {
            writeln!(f, "first difference: line {line}, {difference}")?;
        }
        if let Some(line) = malformed {
            writeln!(f, "malformed or ended early: line {line}")?;
        }
        Ok(())
    }
}
