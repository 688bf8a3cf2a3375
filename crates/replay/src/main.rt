// Runs the calls of the file `calls` on the proved bench and compares each with what the reference
// answered and changed; README.md has the file's format.
#![tactic(auto)]

use std::fs::File;
use std::io;

mod area;
mod areas;
mod at_most;
mod call;
mod calls;
mod difference;
mod event;
mod expected;
mod fault;
mod garbage;
mod lent;
mod lines;
mod look;
mod run;
mod settings;
mod step;
mod stored;
mod tally;
mod words;

fn main(rt: HostRuntime) -> io::Result<()> {
    match File::open(&rt, "calls") {
        Ok(file) => replay(&rt, file),
        Err(error) => eprintln!(rt; "calls: {error}"),
    }
}

fn replay(rt: &impl Print, file: File) -> io::Result<()> {
    let tally = run::run(file)?;
    print!(rt; "{tally}")
}
