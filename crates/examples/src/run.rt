// A step of document 01's strand of two vertices.
use crate::benches::Bench;
use crate::print::Bits;
use crate::strands::Strand;
use bench::answers::{Pick, StepAnswer};
use bench::seats::Settings;
use std::{fmt, io};
use vectors::vec3::Vec3;

// The strand's ratio, 1/1024.
pub const RATIO: f64 = 0.0009765625;

// The seat that is stepped, the pick, the time where the step is dynamic, and the number that fills the
// work area before. It is never finite, since it must not matter.
#[derive(Clone, Copy)]
pub struct Step {
    pub seat: usize,
    pub pick: Pick,
    pub dt: Option<f64>,
    pub stale: f64,
}

// A static step of the strand, whose vertex 1 is pulled halfway to vertex 0.
impl Default for Step {
    fn default() -> Step {
        Step {
            seat: 0,
            pick: pick(1, 0.5, 0.0),
            dt: None,
            stale: f64::NAN,
        }
    }
}

// A pick of the vertex, with a goal in the plane of x and y.
pub fn pick(vertex: usize, x: f64, y: f64) -> Pick {
    Pick::At(vertex, Vec3 { x, y, z: 0.0 })
}

// A new bench with the strand on seat 0 and the byte as pin of vertex 1's three positions. What these calls
// answer is not looked at: a step shows whether they were accepted.
pub fn laid(ratio: f64, byte: u8) -> Bench {
    let settings = Settings {
        conv_ratio: ratio,
        ..Settings::default()
    };
    let strand = Strand {
        settings,
        ..Strand::default()
    };
    let mut bench = Bench::default();
    let _ = bench.load(0, strand);
    for component in 0..3 {
        let _ = bench.pin(0, 1, component, byte);
    }
    bench
}

// What the step answers, and where it leaves vertex 1.
pub fn show(rt: &impl Print, what: &str, bench: &mut Bench, step: Step) -> io::Result<()> {
    bench.work.fill(step.stale);
    let answer = Answer(bench.step(step.seat, step.pick, step.dt));
    print!(rt; "{what} = {answer}")?;
    if let Some(v) = bench.vector(0, 2, 1) {
        print!(rt; ", vertex 1 {}", Bits(v))?;
    }
    println!(rt)
}

// The same on a new bench without pins.
pub fn show_alone(rt: &impl Print, what: &str, step: Step) -> io::Result<()> {
    let mut bench = laid(RATIO, 0);
    show(rt, what, &mut bench, step)
}

// A step's answer as it is written: its number, and what an accepted step reports.
#[derive(Clone, Copy)]
struct Answer(StepAnswer);

impl fmt::Display for Answer {
    fn fmt<W: fmt::Write>(&self, f: &mut fmt::Formatter<W>) -> fmt::Result {
        match self.0 {
            StepAnswer::Accepted {
                energy,
                ratio,
                count,
            } => write!(
                f,
                "0, energy {}, count {count}, ratio {}",
                Bits(energy),
                Bits(ratio)
            ),
            StepAnswer::Refused(refusal) => write!(f, "{}", u8::from(refusal)),
        }
    }
}
