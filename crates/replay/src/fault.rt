// Why no more of a list is read.
use std::io;

// A line that is none of the format's, or a list that ended early.
#[derive(Clone, Copy)]
pub struct Malformed;

#[derive(Drop)]
pub enum Fault {
    Malformed,
    Io(io::Error),
}

impl From<Malformed> for Fault {
    fn from(_: Malformed) -> Fault {
        Fault::Malformed
    }
}

impl From<io::Error> for Fault {
    fn from(error: io::Error) -> Fault {
        Fault::Io(error)
    }
}
