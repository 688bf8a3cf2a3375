// How the examples write what comes out. `rt` and `what`, here and in the other files, are where a line goes and
// its first words: two arguments, as a struct of them would be made anew for each line.
use bench::refusal;
use bench::refusal::Refusal;
use std::{fmt, io};
use vectors::vec3::Vec3;

// Written as the hexadecimal digits of the bits of its numbers. A NaN has no one pattern, so it is named.
#[derive(Clone, Copy)]
pub struct Bits<T>(pub T);

impl fmt::Display for Bits<f64> {
    fn fmt<W: fmt::Write>(&self, f: &mut fmt::Formatter<W>) -> fmt::Result {
        let x = self.0;
        if x.is_nan() {
            write!(f, "NaN")
        } else {
            write!(f, "{:016x}", x.to_bits())
        }
    }
}

impl fmt::Display for Bits<Vec3> {
    fn fmt<W: fmt::Write>(&self, f: &mut fmt::Formatter<W>) -> fmt::Result {
        let v = self.0;
        write!(f, "{} {} {}", Bits(v.x), Bits(v.y), Bits(v.z))
    }
}

// A line with the number of a call's outcome.
pub fn answer(rt: &impl Print, what: &str, outcome: Result<(), Refusal>) -> io::Result<()> {
    let number = refusal::told(outcome);
    println!(rt; "{what} = {number}")
}
