// The whole list, line by line.
use crate::areas::Areas;
use crate::call::Call;
use crate::difference::Difference;
use crate::event::{Event, Kind};
use crate::expected::Expected;
use crate::fault::Fault;
use crate::lines::{Lines, WORDS};
use crate::tally::Tally;
use crate::words::Words;
use std::fs::File;
use std::io;

// The lines that are read at most.
const MOST: usize = 1_000_000;

// What a line came to.
#[derive(Clone, Copy)]
enum Turn {
    End,
    Change,
    // The call was made, and what differs.
    Call(Option<Difference>),
}

// What is expected, and what a call is made on.
#[derive(Drop)]
struct Bench {
    expected: Expected,
    areas: Areas,
}

// The lines that are read, from the first on.
pub fn run(file: File) -> io::Result<Tally> {
    let mut lines = Lines::new(file);
    let mut words = [0; WORDS];
    let mut bench = Bench {
        expected: Expected::default(),
        areas: Areas::default(),
    };
    let mut tally = Tally::default();
    for before in 0..MOST {
        let line = before + 1;
        match bench.take_turn(&mut lines, &mut words, before) {
            Ok(Turn::End) => return Ok(tally),
            Ok(Turn::Change) => {}
            Ok(Turn::Call(difference)) => tally.count(line, difference),
            Err(Fault::Malformed) => return Ok(tally.malformed_at(line)),
            Err(Fault::Io(error)) => return Err(error),
        }
    }
    Ok(tally.malformed_at(MOST))
}

impl Bench {
    // The next line, whose words go into an array of the caller's; so many lines came before it.
    fn take_turn(
        &mut self,
        lines: &mut Lines,
        words: &mut [u64; WORDS],
        before: usize,
    ) -> Result<Turn, Fault> {
        let line = lines.next_line(words)?;
        let mut words = Words::new(line.count.of(words));
        match Event::try_from(words.word()?)? {
            Event::End => end(&mut words, before, line.is_last),
            Event::Call(kind) => self.call(kind, &mut words, before),
            Event::Change => {
                self.expected.make_runs(&mut words)?;
                Ok(Turn::Change)
            }
        }
    }

    fn call(&mut self, kind: Kind, words: &mut Words<'_>, before: usize) -> Result<Turn, Fault> {
        let call = Call::read(kind, words)?;
        self.areas.make_ready(&self.expected, before);
        self.expected.make_runs(words)?;
        let difference = if self.areas.make(&call) {
            self.areas
                .difference(&self.expected, call.free_work(), before)
        } else {
            Some(Difference::Answer)
        };
        Ok(Turn::Call(difference))
    }
}

// The last line says how many came before it.
fn end(words: &mut Words<'_>, before: usize, is_last: bool) -> Result<Turn, Fault> {
    let stored: usize = words.value()?;
    words.end()?;
    if (stored == before) & is_last {
        Ok(Turn::End)
    } else {
        Err(Fault::Malformed)
    }
}
